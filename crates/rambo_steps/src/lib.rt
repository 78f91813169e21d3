//! Scripts, read line by line, and taken by a run of any kind over weighted majorities (`Run`).
//!
//! - `founders_in`: the founders on the first line after the head.
//! - `run_through`: the steps of the other lines are taken, and what is reported of them is told, in the script's version.
//! - `in_memory`: a refusal that can only be `OutOfMemory`.
#![tactic(auto)]

mod replaying;

pub use replaying::{founders_in, in_memory, run_through, told_at_end};
