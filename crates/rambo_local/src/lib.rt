//! One client of a whole store in one process: its commands are read, and answered by the node that it asks.
//!
//! - `local`, which `rambo_direct` defines: serves a client on nodes of its own.
//! - `local_on`: the same on a new world, whose history can be read afterwards.
//! - `Host`: the worlds that `local_on` borrows.
//! - `LocalFault`: why a client wasn't served to the end.
#![tactic(auto)]

mod cluster;
mod founding;
mod serving;

pub use cluster::Host;
pub use rambo_client::LocalFault;
pub use rambo_direct::local;
pub use serving::local_on;
