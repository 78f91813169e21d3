//! The world: 64 nodes, the letters between them, and whole runs.
#![tactic(auto)]

mod direct;
mod letter_steps;
mod node_steps;
mod nodes;
mod running;
mod runs;
mod state;
mod world;

pub use direct::Direct;
pub use rambo_node::{Decided, Effect};
pub use rambo_run::{NodeMap, Outcome, Run, Step};
pub use rambo_sequence::KeySequence;
pub use running::Running;
pub use runs::run;
pub use world::World;
