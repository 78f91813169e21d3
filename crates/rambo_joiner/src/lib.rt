//! How a node comes and goes.
#![tactic(auto)]

mod status;

pub use status::Status;
