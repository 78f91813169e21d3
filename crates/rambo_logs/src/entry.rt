//! Entries of logs.

// A copy in a log: its place among all that were put, and the number of its key.
#[derive(Clone, Copy)]
pub(crate) struct Entry {
    pub place: usize,
    pub number: usize,
}
