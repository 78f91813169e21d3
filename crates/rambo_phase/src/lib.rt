//! Phases of reads and writes: round trips to quorums of the configurations of several places.
#![tactic(auto)]

mod counting;
mod heard;
mod phase;

pub use counting::counting_laws;
pub use heard::Heard;
pub use phase::Phase;
