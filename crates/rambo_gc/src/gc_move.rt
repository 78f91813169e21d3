//! What an advance of a collection did.

/// What an advance of a collection did.
#[derive(Clone, Copy, PartialEq, Eq, Debug)]
pub enum GcMove {
    /// The first quorum had replied: the collection asks the next configuration now.
    Propagating,
    /// The collection is over: its place can be removed, or is removed already.
    Done,
}
