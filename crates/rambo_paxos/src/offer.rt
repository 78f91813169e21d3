//! Offers.
use crate::ballot::Ballot;

/// What a proposer asks of an acceptor.
#[derive(Clone, Copy, PartialEq, Eq, Debug)]
pub enum Offer<Q> {
    /// To promise that it accepts no proposal of a lesser ballot.
    Prepare(Ballot),
    /// To accept this configuration in this ballot.
    Propose(Ballot, Q),
}
