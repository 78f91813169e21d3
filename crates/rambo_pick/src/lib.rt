//! What a node does by itself: it hears letters, and advances its calls, its collection and its attempt.
//!
//! - `first_step`: the first of these that it doesn't refuse.
#![tactic(auto)]

mod picking;

pub use picking::first_step;
