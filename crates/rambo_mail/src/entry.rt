//! Letters that wait.

/// A letter that waits for a name.
#[derive(Clone, Copy, Debug)]
pub struct Entry {
    /// Its number: the first letter that was sent is 1.
    pub number: u64,
    /// Whether it asks for one in return.
    pub asks: bool,
}
