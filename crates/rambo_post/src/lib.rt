//! Keepers of nodes, the book of all steps, and what clients see of it, each behind its lock: what the threads of a
//! server share.
//!
//! - `Post`: a lock for each keeper and each outbox, and one for the book; what threads call.
//! - `Recovery`, of `rambo_recovery`: what takes the steps of a trace again, before a post goes on.
//! - `Gate`: test hooks inside turns and visits.
//!
//! A function that takes a lock lends what is behind it to another one (`commit`, `act_in`, `take_in`, ..), whose
//! contract can say what it did. Those are in the crates below: `rambo_book` has keepers and the book, `rambo_pass`
//! what clients see. `rambo_turn` has what a node does by itself one step at a time, and `rambo_visit` what it does at
//! one go.
#![tactic(auto)]

mod gate;
mod post;
mod shown;

pub use gate::{Gate, NoGate};
pub use post::{Asked, Post};
pub use rambo_book::{
    Actor, Book, Counts, Keeper, Ready, Terms, commit, commit_ready, may_commit, ready,
};
pub use rambo_outbox::Waiter;
pub use rambo_pass::{Closed, Ended, Entry, Left, Pass};
pub use rambo_recovery::Recovery;
pub use rambo_roll::{Drawn, Front, Opened};
pub use rambo_turn::{Turn, pick};
pub use rambo_visit::Visited;
pub use shown::Shown;
