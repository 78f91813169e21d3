//! What the nodes of a post do by themselves: they take turns, and send letters.
//!
//! - `pick`: what a keeper does next.
//! - A turn: `begin_in`: it takes its mail; `ready_next`: the first half of what it picks; `commit_next`: the second half.
//! - `send_in`: a letter is sent.
#![tactic(auto)]

mod picking;
mod sending;
mod turn;

pub use picking::pick;
pub use sending::send_in;
pub use turn::{Turn, begin_in, commit_next, ready_next};
