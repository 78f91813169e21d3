//! The trace of a run: the script of its founders and of the steps that it took.
#![tactic(auto)]

mod writing;

pub use writing::{write_head, write_more, write_trace};
