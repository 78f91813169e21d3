//! One client of a store of its own in one process: its commands are read, and answered by the node that it asks.
//!
//! - `local`: serves the client. `rambo_local` re-exports it, and also serves a client of a world.
#![tactic(auto)]

mod cluster;
mod serving;

pub use serving::local;
