//! Files that a trace is kept in.
#![tactic(auto)]

mod archive;
mod disk;
mod loose;
mod opening;
mod reading;

pub use archive::{Archive, Durable};
pub use disk::Disk;
pub use loose::Loose;
pub use opening::{OpenFault, open_trace};
pub use reading::{Holds, Reading};
