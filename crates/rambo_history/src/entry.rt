//! A call with all that a history has about it.

use crate::operation::{Answer, Op};

/// What a call asked, its answer, and the places of both in the list of events.
#[derive(Clone, Copy)]
pub struct Entry<'a> {
    /// What it asked.
    pub op: &'a Op,
    /// Its answer, if it has one.
    pub answer: Option<&'a Answer>,
    /// The place of the call in the list of events, from 0 on.
    pub called: usize,
    /// The place of its answer, if it has one.
    pub answered: Option<usize>,
}
