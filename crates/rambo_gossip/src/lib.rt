//! Letters: what nodes send each other.
//!
//! - `Letter`: a letter, which several own. What its sender reports of configurations is stored once for consecutive letters in
//!   which it is the same (`Standing`).
//! - `LetterOutline`: a letter without its copies, as a node or a letter lends it.
#![tactic(auto)]

mod gossip;
mod letter;
mod outline;
mod standing;

pub use letter::Letter;
pub use outline::{GossipOutline, LetterOutline};
pub use standing::Standing;
