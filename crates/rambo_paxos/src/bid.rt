//! What an advance leads to.

/// What an advance of an attempt led to.
#[derive(Clone, Copy, PartialEq, Eq, Debug)]
pub enum Bid<Q> {
    /// It was prepared, and now proposes a configuration.
    Propose,
    /// This configuration is chosen.
    Chosen(Q),
}
