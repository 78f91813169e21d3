//! The lines of scripts: how they are written and read.
//!
//! - `Script`: the founders and steps of a text, by `read_script`; `read_head`, `Place`, `read_founders` and
//!   `read_step` are for code that takes a script line by line.
//! - `frequent_step`, `frequent_call`: a step of a frequent kind at the front of a text, with no search for its line's end.
//! - `step_text`: the line of a step.
//! - `one_reading`, `written_reads_back`, `no_script_is_faulty` and `one_fault`: no text is two scripts, or one in two
//!   versions, a script that is written reads back as itself, and any other text has one first fault.
#![tactic(auto)]

mod front;
mod head;
mod laws;
mod parts;
mod place;
mod reading;
mod script;
mod writing;

pub use front::{Frequent, frequent_call, frequent_step};
pub use head::read_head;
pub use laws::{no_script_is_faulty, one_fault, one_reading, written_reads_back};
pub use place::Place;
pub use reading::read_step;
pub use script::{LINE_LIMIT, Script, at_line, read_founders, read_script};
pub use writing::step_text;
