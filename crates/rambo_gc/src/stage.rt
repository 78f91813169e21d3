//! Stages of a collection.

/// Which quorum a collection waits for.
#[derive(Clone, Copy, PartialEq, Eq, Debug)]
pub enum Stage {
    /// One of the configuration at its own place.
    First,
    /// One of the configuration at the next place.
    Second,
}
