//! What a server leaves.
//!
//! - `write_steps`: the trace of its steps is written, and how that ends.
//! - `Ending`: how a command ended.
#![tactic(auto)]

mod ending;
mod tracing;

pub use ending::Ending;
pub use tracing::write_steps;
