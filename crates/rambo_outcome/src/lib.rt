//! The text of what a run gives.
//!
//! - `outcome_text`: what a run gave, in lines of words.
//! - `Notes` and `Told`: the same of a run that goes on. The lines of its calls and answers aren't kept, but written from
//!   its history at the end, piece by piece, with the other lines between them.
//! - `write_sequences`, `write_order`, `write_maps`: the lines that come after those.
//! - `check_text` and the laws of such texts, which `rambo_check` defines.
#![tactic(auto)]

mod event_line;
mod line;
mod notes;
mod outcome;
mod pieces;
mod step_line;
mod told;

pub use notes::Notes;
pub use outcome::{outcome_text, write_maps, write_order, write_sequences};
pub use rambo_check::{check_text, no_told_is_faulty, one_evidence, one_fault, one_reading};
pub use told::Told;
