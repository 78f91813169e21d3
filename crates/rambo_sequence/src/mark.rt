//! The entries of the sequences of a run.

use rambo_history::{CallId, Op};
use rambo_tag::{Tag, Version};

/// A set that took a tag, or a get that was answered, with the copy that it propagated.
#[derive(Drop, Debug)]
pub struct Mark {
    pub id: CallId,
    pub op: Op,
    pub kept: Option<Version>,
}

/// What is kept of a mark beside the history of its run: the place of its call there, from 0 on, and the tag of its copy.
#[derive(Clone, Copy, Debug)]
pub struct TaggedPlace {
    pub place: usize,
    pub tag: Option<Tag>,
}
