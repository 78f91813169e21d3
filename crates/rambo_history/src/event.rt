//! Calls, and what happens to them.

use crate::operation::{Answer, Op};
use rambo_names::Name;

/// A call, by the node that it was made on and its number there, from 1.
#[derive(Clone, Copy, PartialEq, Eq, Hash, Debug)]
pub struct CallId {
    pub name: Name,
    pub number: u64,
}

/// One moment of a history.
#[derive(Drop, Debug)]
pub enum Event {
    /// A call was made.
    Call(CallId, Op),
    /// A call was answered.
    Answer(CallId, Answer),
}
