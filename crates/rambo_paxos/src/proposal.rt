//! Proposals.
use crate::ballot::Ballot;

/// A configuration that was proposed in a ballot.
#[derive(Clone, Copy, PartialEq, Eq, Debug)]
pub struct Proposal<Q> {
    /// The ballot.
    pub ballot: Ballot,
    /// The configuration.
    pub config: Q,
}
