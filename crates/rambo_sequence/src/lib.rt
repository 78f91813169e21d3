//! The sequence that a run gives for each key, and one order of the calls of all keys.
#![tactic(auto)]

mod given;
mod groups;
mod key_sequence;
mod laws;
mod mark;
mod ranking;
mod sorting;
mod store_order;

pub use given::{sequence, sequences};
pub use key_sequence::KeySequence;
pub use laws::{
    given_are_sequences, given_is_order, given_is_sequence, one_list, one_sequence,
    one_store_order, order_is_proper,
};
pub use mark::{Mark, TaggedPlace};
pub use store_order::one_order;
