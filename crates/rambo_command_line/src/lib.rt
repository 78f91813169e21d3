//! The command line of the program `rambo`: its words, and their help.
#![tactic(auto)]

mod clash;
mod line;
mod parts;
mod serving;

pub use clash::Clash;
pub use line::{Checking, Task, task_of};
pub use serving::Serving;
