//! A connection of a server, without its socket: what it reads, what it asks the server for, and what is to be written.
//!
//! - `Connection`: takes the bytes of a client, gives what its commands ask for one after another, takes the replies, and
//!   shows the bytes that are to be written.
//! - `Next`: what there is to do for a connection.
//! - `replies_in_order`, `nothing_behind_the_end`: laws of all connections.
#![tactic(auto)]

mod connection;
mod incoming;
mod laws;
mod next;
mod outgoing;

pub use connection::Connection;
pub use laws::{nothing_behind_the_end, replies_in_order};
pub use next::Next;
