//! What registers keep of a key, and of a change.

use crate::version::Version;

// A copy, with the number under which it last changed.
#[derive(Drop)]
pub(crate) struct Slot {
    pub(crate) version: Version,
    pub(crate) number: u64,
}

// A change: the place of the key whose copy changed, and the number under which it did.
#[derive(Clone, Copy)]
pub(crate) struct Row {
    pub(crate) place: usize,
    pub(crate) number: u64,
}
