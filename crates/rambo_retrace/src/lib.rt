//! A trace is read back, step by step.
//!
//! - `retrace_founders`: the founders, which the first two lines tell.
//! - `retrace`: the steps, each of which goes to a `Taker`, and how many bytes a last line has that isn't whole.
#![tactic(auto)]

mod fault;
mod founders;
mod lines;
mod retracing;
mod taker;

pub use fault::RetraceFault;
pub use founders::{Founded, retrace_founders};
pub use retracing::{Retraced, retrace};
pub use taker::Taker;
