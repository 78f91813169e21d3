//! Letters that carry only what is new, and why these are enough.
#![tactic(auto)]

mod laws;

pub use laws::{
    bases_are_carried, deltas_are_short, old_copies_are_held, short_letters_are_replayed_alike,
    stamps_are_numbers,
};
