//! The steps of a trace are taken again, and a post goes on from there.
//!
//! - `Recovery`: the keepers of all nodes and the book, which take one step after the other; `Recovered`: what it leaves.
#![tactic(auto)]

mod acting;
mod delivering;
mod founding;
mod recovery;

pub use recovery::{Recovered, Recovery};
