//! Stages of an attempt.
use crate::proposal::Proposal;

/// How far an attempt is.
#[derive(Clone, Copy, PartialEq, Eq, Debug)]
pub enum Stage<Q> {
    /// It asks for promises, and was told of this proposal as the accepted one of the greatest ballot, if of any.
    Prepare(Option<Proposal<Q>>),
    /// It asks that this configuration be accepted.
    Propose(Q),
}
