//! Attempts.
ghost use Rattle.std.specs.Prelude.{◌≡◌, ⊤, true, false, IfOk, IfErr, OnOk, OnErr};
ghost use Rattle.rambo_paxos.specs.Votes.{is_spent};
ghost use Rattle.rambo_paxos.specs.Attempts.{opened, rebid, vote_opened, offer_of, heard_vote, bid_of, advanced, vote_advanced, later};

use crate::ballot::Ballot;
use crate::bid::Bid;
use crate::offer::Offer;
use crate::proposal::Proposal;
use crate::stage::Stage;
use crate::vote::Vote;
use rambo_names::{Members, Name, Quorums, Refusal};
use std::alloc::AllocError;
use std::marker::Model;

/// An attempt of one node to have a configuration chosen for a place.
#[derive(PartialEq, Eq, Debug)]
pub struct Attempt<Q: Quorums> {
    place: u64,
    ballot: Ballot,
    wish: Q,
    stage: Stage<Q>,
    repliers: Members,
}

impl<Q: Quorums> Model for Attempt<Q> {
    ghost use Rattle.std.specs.Coded.{codes};
    ghost use Rattle.rambo_names.specs.Names.{names_code};
    ghost use Rattle.rambo_paxos.specs.Attempts.{AttemptState};

    ghost Value = { AttemptState Q };

    ghost coded = { Prim.hlevel (codes, names_code, Q.code) };

    ghost view = { λ a. record { place = a.place; ballot = a.ballot; wish = a.wish; stage = a.stage; repliers = a.repliers } };

    ghost inverse = { λ a. record { place = a.place; ballot = a.ballot; wish = a.wish; stage = a.stage; repliers = a.repliers } };
}

impl<Q: Quorums> Clone for Attempt<Q> {
    ghost is_clone = { λ x y. y ≡ x };

    ghost is_infallible = { λ _. ⊤ };

    fn clone(&self) -> Result<Self, AllocError> {
        Ok(*self)
    }
}

impl<Q: Quorums> Copy for Attempt<Q> {}

impl<Q: Quorums> Attempt<Q> {
    /// Node `me` begins an attempt for a place, with a ballot of the round above the one that its own vote promised. The
    /// vote takes the offer of it, and is its first reply.
    ///
    /// `NumbersSpent` exactly where that vote promised the greatest round; it is then unchanged.
    #[tactic(auto, unfolding(crate::specs::Attempts::opened))]
    pub fn open(place: u64, wish: Q, vote: &mut Vote<Q>, me: Name) -> Result<Attempt<Q>, Refusal>
        ensures judged { OnOk result (is_spent vote.old ≡ false) }
        ensures ok { IfOk result (λ attempt. attempt ≡ opened place wish vote.old me) }
        ensures vote { OnOk result (vote.new ≡ vote_opened vote.old me) }
        ensures refused { IfErr result (λ r. (r ≡ Refusal.NumbersSpent) × (is_spent vote.old ≡ true)) }
        ensures err { OnErr result (vote.new ≡ vote.old) }
    {
        let round = vote.round().checked_add(1).ok_or(Refusal::NumbersSpent)?;
        let attempt = Attempt {
            place,
            ballot: Ballot { round, name: me },
            wish,
            stage: Stage::Prepare(vote.accepted()),
            repliers: Members::empty().with(me),
        };
        vote.take(&attempt.offer());
        Ok(attempt)
    }

    /// What it asks of every acceptor.
    pub fn offer(&self) -> Offer<Q>
        ensures { result ≡ offer_of self.now }
    {
        match self.stage {
            Stage::Prepare(_) => Offer::Prepare(self.ballot),
            Stage::Propose(config) => Offer::Propose(self.ballot, config),
        }
    }

    /// Its place.
    pub fn place(&self) -> u64
        ensures { result ≡ self.now.place }
    {
        self.place
    }

    /// Hears the vote of a node. Only a reply to its current offer counts: a promise of its ballot, which reports what
    /// was accepted before, and later an acceptance in its ballot.
    #[tactic(auto, unfolding(crate::specs::Attempts::heard_vote))]
    pub fn hear_vote(&mut self, from: Name, vote: &Vote<Q>)
        ensures { self.new ≡ heard_vote self.old from vote.now }
    {
        match self.stage {
            Stage::Prepare(told) => {
                if vote.has_promised(&self.ballot) {
                    self.stage = Stage::Prepare(later(told, vote.accepted()));
                    self.repliers = self.repliers.with(from);
                }
            }
            Stage::Propose(_) => {
                if vote.has_accepted(&self.ballot) {
                    self.repliers = self.repliers.with(from);
                }
            }
        }
    }

    /// Retries with a fresh ballot, for the same place and with the same wish.
    ///
    /// `NumbersSpent` exactly where the node's own vote promised the greatest round; nothing changes then.
    pub fn rebid(&mut self, vote: &mut Vote<Q>) -> Result<(), Refusal>
        ensures judged { OnOk result (is_spent vote.old ≡ false) }
        ensures ok { OnOk result (self.new ≡ rebid self.old vote.old) }
        ensures vote { OnOk result (vote.new ≡ vote_opened vote.old self.old.ballot.name) }
        ensures refused { IfErr result (λ r. (r ≡ Refusal.NumbersSpent) × (is_spent vote.old ≡ true)) }
        ensures err { OnErr result ((self.new ≡ self.old) × (vote.new ≡ vote.old)) }
    {
        *self = Attempt::open(self.place, self.wish, vote, self.ballot.name)?;
        Ok(())
    }

    /// Advances, where the repliers contain a quorum of `old`, the configuration in use. After promises it proposes a
    /// configuration: the accepted one that it was told of, or else its wish. The node's own vote takes the proposal.
    /// After acceptances the configuration is chosen; the node's own vote is then emptied, and the attempt is over.
    ///
    /// `NotYet` exactly where they contain no quorum; nothing changes then.
    #[tactic(auto, unfolding(crate::specs::Attempts::proposing))]
    pub fn advance(&mut self, vote: &mut Vote<Q>, old: &Q) -> Result<Bid<Q>, Refusal>
        ensures judged { OnOk result (Q.system.is_quorum old.now self.old.repliers ≡ true) }
        ensures ok { IfOk result (λ bid. bid ≡ bid_of self.old) }
        ensures attempt { OnOk result (self.new ≡ advanced self.old vote.old) }
        ensures vote { OnOk result (vote.new ≡ vote_advanced self.old vote.old) }
        ensures refused { IfErr result (λ r. (r ≡ Refusal.NotYet) × (Q.system.is_quorum old.now self.old.repliers ≡ false)) }
        ensures err { OnErr result ((self.new ≡ self.old) × (vote.new ≡ vote.old)) }
    {
        if !old.is_quorum(self.repliers) {
            return Err(Refusal::NotYet);
        }
        match self.stage {
            Stage::Prepare(told) => {
                let config = match told {
                    Some(proposal) => proposal.config,
                    None => self.wish,
                };
                vote.take(&Offer::Propose(self.ballot, config));
                self.stage = Stage::Propose(config);
                self.repliers = if vote.has_accepted(&self.ballot) {
                    Members::empty().with(self.ballot.name)
                } else {
                    Members::empty()
                };
                Ok(Bid::Propose)
            }
            Stage::Propose(config) => {
                *vote = Vote::new();
                Ok(Bid::Chosen(config))
            }
        }
    }
}

// The proposal of the greater ballot, or the first where they are equal.
fn later<Q: Copy>(told: Option<Proposal<Q>>, accepted: Option<Proposal<Q>>) -> Option<Proposal<Q>>
    ensures { result ≡ later told accepted }
{
    match (&told, &accepted) {
        (Some(first), Some(second)) if !first.ballot.is_before(&second.ballot) => told,
        (_, Some(_)) => accepted,
        (_, None) => told,
    }
}
