//! How letters are stored in a world: without their copies, which are a prefix of their sender's log, of which each has the length.
//! What a sender reports of configurations is stored once for consecutive letters in which it is the same.
#![tactic(auto)]

mod letters;
mod outline;
mod sent;

pub use letters::Letters;
pub use outline::Outline;
