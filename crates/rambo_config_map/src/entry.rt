//! What a map has at a place.

/// What a configuration map has at a place.
#[derive(Clone, Copy, PartialEq, Eq, Debug)]
pub enum Entry<Q> {
    /// No configuration is known there yet.
    Unknown,
    /// This configuration is in use.
    Active(Q),
    /// The configuration there was collected.
    Removed,
}
