//! Scripts that are run: `replay`, from a script to the text of what its run gives.
//!
//! `rambo_script` re-exports it, with all else about scripts. It has a crate of its own, so that the program needs only
//! what it mentions: a source, a sink and a fault.
#![tactic(auto)]

mod replaying;

pub use replaying::replay;
