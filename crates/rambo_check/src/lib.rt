//! The checker of outcome texts.
//!
//! - `check_text`: for each key of such a text, whether its sequence explains its calls and answers.
//! - `place_text`: the same of a text whose sequences have the sets alone, with the gets placed behind them; or, as a `Telling`
//!   says, the text that has the gets there.
//! - `one_reading`, `one_evidence`, `no_told_is_faulty` and `one_fault`: laws of such texts.
#![tactic(auto)]

mod checking;
mod evidence;
mod explaining;
mod front;
mod item;
mod judging;
mod kept;
mod laws;
mod operands;
mod order;
mod outcome_lines;
mod placing;
mod reasons;
mod text;
mod verdict_text;

pub use checking::check_text;
pub use laws::{no_told_is_faulty, one_evidence, one_fault, one_reading};
pub use placing::{Telling, place_text};
