//! A letter that was sent.

use rambo_names::{Members, Name};

/// A letter as it is stored, in 48 bytes. It has the length of the prefix of its sender's log that its copies are, and
/// the place of its standing among those that letters share. Where its sender wants to join, only the names and `told`
/// mean something.
#[derive(Clone, Copy)]
pub(crate) struct Sent {
    pub(crate) told: usize,
    pub(crate) known: Members,
    pub(crate) standing: usize,
    pub(crate) number: u64,
    pub(crate) heard: u64,
    pub(crate) sender: Name,
    pub(crate) addressee: Name,
    pub(crate) gossips: bool,
}
