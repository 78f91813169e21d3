//! A store that serves many clients at once over sockets, while its members change.
//!
//! - `serve`: serves clients until one asks for the end, and gives the list of all steps.
//! - `serve_endless`: the same without an end of the steps, which are written as they are done; `Traced`: what it leaves.
//! - `serve_post`: the same by a post that goes on from a trace.
//! - `Options`: which founders, how many threads, connections and steps, and which letters are lost or come twice.
//! - `ServeFault`: why nothing was served.
#![tactic(auto)]

mod alarm;
mod asking;
mod bell;
mod endless;
mod fault;
mod guest;
mod hub;
mod leaving;
mod opening;
mod options;
mod room;
mod running;
mod scribing;
mod serving;
mod session;
mod station;
mod timer;
mod visits;
mod worker;

pub use endless::{AHEAD, LAST, Traced, serve_endless, serve_post};
pub use fault::ServeFault;
pub use hub::Copies;
pub use options::Options;
pub use serving::serve;
