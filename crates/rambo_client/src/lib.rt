//! A client of nodes of any kind: its commands are read, and answered by the node that it asks.
//!
//! - `serve`: serves a client until its input ends.
//! - `Client`: who asks which node.
//! - `Cluster`: what it needs of the nodes.
//! - `LocalFault`: why a client wasn't served to the end.
#![tactic(auto)]

mod client;
mod cluster;
mod fault;
mod serving;

pub use client::Client;
pub use cluster::Cluster;
pub use fault::LocalFault;
pub use serving::serve;
