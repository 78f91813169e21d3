//! Where gets stand in an order of a key's calls that has its sets alone: each behind the set whose value it answered.
//!
//! - `Placing`: puts the gets of a history into orders.
//! - `first_repeated_value`: which set gives its key a value for a second time, so that it isn't told by its value.
//! - `gets_stand_behind` and `others_keep_their_order`: laws of orders with gets in their places.
#![tactic(auto)]

mod gets;
mod laws;
mod placing;
mod readers;
mod values;

pub use laws::{gets_stand_behind, others_keep_their_order};
pub use placing::Placing;
pub use values::first_repeated_value;
