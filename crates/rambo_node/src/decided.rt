//! What an attempt came to.

/// What became of the place that an attempt was for.
#[derive(Clone, Copy, PartialEq, Eq, Debug)]
pub struct Decided<Q> {
    /// The place.
    pub place: u64,
    /// The configuration at that place, or none where the place is removed already.
    pub config: Option<Q>,
}
