//! Servers that outlast their process: their trace stands in a file, from which a later one goes on.
//!
//! - `resume`: serves clients from where a trace ends; `Resumed`: what it leaves.
//! - `ResumeFault`: why nobody was served.
#![tactic(auto)]

mod cutting;
mod fault;
mod resuming;
mod taking;

pub use fault::ResumeFault;
pub use resuming::{Resumed, resume};
