//! Votes.
ghost use Rattle.std.specs.Prelude.{◌≡◌, ⊤};
ghost use Rattle.rambo_paxos.specs.Ballots.{round_of};
ghost use Rattle.rambo_paxos.specs.Votes.{empty_vote, taken, has_promised, has_accepted};

use crate::ballot::Ballot;
use crate::offer::Offer;
use crate::proposal::Proposal;
use rambo_names::Quorums;
use std::alloc::AllocError;
use std::marker::Model;

/// What an acceptor has promised and accepted for one place.
#[derive(PartialEq, Eq, Debug)]
pub struct Vote<Q: Quorums> {
    promised: Option<Ballot>,
    accepted: Option<Proposal<Q>>,
}

impl<Q: Quorums> Model for Vote<Q> {
    ghost use Rattle.std.specs.Coded.{codes};
    ghost use Rattle.rambo_paxos.specs.Votes.{VoteState};

    ghost Value = { VoteState Q };

    ghost coded = { Prim.hlevel (codes, Q.code) };

    ghost view = { λ v. record { promised = v.promised; accepted = v.accepted } };

    ghost inverse = { λ v. record { promised = v.promised; accepted = v.accepted } };
}

impl<Q: Quorums> Clone for Vote<Q> {
    ghost is_clone = { λ x y. y ≡ x };

    ghost is_infallible = { λ _. ⊤ };

    fn clone(&self) -> Result<Self, AllocError> {
        Ok(*self)
    }
}

impl<Q: Quorums> Copy for Vote<Q> {}

impl<Q: Quorums> Vote<Q> {
    /// A vote that has promised and accepted nothing.
    pub fn new() -> Self
        ensures { result ≡ empty_vote }
    {
        Vote {
            promised: None,
            accepted: None,
        }
    }

    /// The greatest ballot that it promised, if any.
    pub fn promised(&self) -> Option<Ballot>
        ensures { result ≡ self.now.promised }
    {
        self.promised
    }

    /// The round of the promised ballot, 0 if there is none.
    pub fn round(&self) -> u64
        ensures { result ≡ round_of self.now.promised }
    {
        match &self.promised {
            Some(promised) => promised.round,
            None => 0,
        }
    }

    /// What it accepted last, if anything.
    pub fn accepted(&self) -> Option<Proposal<Q>>
        ensures { result ≡ self.now.accepted }
    {
        self.accepted
    }

    /// Takes an offer: it promises a greater ballot, and accepts a proposal unless it has promised a greater ballot than
    /// the proposal's. Any other offer changes nothing.
    pub fn take(&mut self, offer: &Offer<Q>)
        ensures { self.new ≡ taken self.old offer.now }
    {
        match offer {
            Offer::Prepare(ballot) => {
                if ballot.exceeds(&self.promised) {
                    self.promised = Some(*ballot);
                }
            }
            Offer::Propose(ballot, config) => {
                if !ballot.is_below(&self.promised) {
                    self.promised = Some(*ballot);
                    self.accepted = Some(Proposal {
                        ballot: *ballot,
                        config: *config,
                    });
                }
            }
        }
    }

    // Whether it promised this ballot, and none since.
    pub(crate) fn has_promised(&self, ballot: &Ballot) -> bool
        ensures { result ≡ has_promised self.now ballot.now }
    {
        match &self.promised {
            Some(promised) => promised == ballot,
            None => false,
        }
    }

    // Whether it accepted a proposal of this ballot, and none since.
    pub(crate) fn has_accepted(&self, ballot: &Ballot) -> bool
        ensures { result ≡ has_accepted self.now ballot.now }
    {
        match &self.accepted {
            Some(proposal) => proposal.ballot == *ballot,
            None => false,
        }
    }
}
