//! What letters share.
ghost use Rattle.std.specs.Prelude.{◌≡◌, IsTrue};
ghost use Rattle.rambo_gossip.specs.Outlines.{standing_of};

use crate::outline::GossipOutline;
use rambo_config_map::ConfigMap;
use rambo_names::Quorums;
use rambo_paxos::{Ballot, Offer, Proposal, Vote};

/// What a sender reports of configurations, which its consecutive letters mostly have in common.
#[derive(Drop)]
pub struct Standing<Q: Quorums> {
    /// Its vote for the first place that its map doesn't know.
    pub vote: Vote<Q>,
    /// What its own attempt for that place asks, if it has one.
    pub offer: Option<Offer<Q>>,
    /// Its configuration map.
    pub map: ConfigMap<Q>,
}

impl<Q: Quorums> Standing<Q> {
    /// What gossip reports of configurations.
    pub fn of(gossip: &GossipOutline<'_, Q>) -> Standing<Q>
        ensures { result ≡ standing_of gossip.now }
    {
        Standing {
            vote: *gossip.vote,
            offer: gossip.offer,
            map: gossip.map.copy(),
        }
    }

    /// Whether gossip reports just this of configurations.
    pub fn is_told_by(&self, gossip: &GossipOutline<'_, Q>) -> bool
        ensures { IsTrue result → self.now ≡ standing_of gossip.now }
    {
        self.map.same(gossip.map)
            && is_vote(&self.vote, gossip.vote)
            && is_offer(&self.offer, &gossip.offer)
    }
}

// Whether two votes are the same.
fn is_vote<Q: Quorums>(vote: &Vote<Q>, other: &Vote<Q>) -> bool
    ensures { IsTrue result → vote.now ≡ other.now }
{
    is_promise(&vote.promised(), &other.promised())
        && is_acceptance(&vote.accepted(), &other.accepted())
}

// Whether two ballots, where there are any, are the same.
fn is_promise(ballot: &Option<Ballot>, other: &Option<Ballot>) -> bool
    ensures { IsTrue result → ballot.now ≡ other.now }
{
    match ballot {
        Some(ballot) => match other {
            Some(other) => is_ballot(ballot, other),
            None => false,
        },
        None => other.is_none(),
    }
}

// Whether two proposals, where there are any, are the same.
fn is_acceptance<Q: Quorums>(proposal: &Option<Proposal<Q>>, other: &Option<Proposal<Q>>) -> bool
    ensures { IsTrue result → proposal.now ≡ other.now }
{
    match proposal {
        Some(proposal) => match other {
            Some(other) => {
                is_ballot(&proposal.ballot, &other.ballot)
                    && is_config(&proposal.config, &other.config)
            }
            None => false,
        },
        None => other.is_none(),
    }
}

// Whether two offers, where there are any, are the same.
fn is_offer<Q: Quorums>(offer: &Option<Offer<Q>>, other: &Option<Offer<Q>>) -> bool
    ensures { IsTrue result → offer.now ≡ other.now }
{
    match offer {
        Some(Offer::Prepare(ballot)) => match other {
            Some(Offer::Prepare(other)) => is_ballot(ballot, other),
            _ => false,
        },
        Some(Offer::Propose(ballot, config)) => match other {
            Some(Offer::Propose(other, wish)) => {
                is_ballot(ballot, other) && is_config(config, wish)
            }
            _ => false,
        },
        None => other.is_none(),
    }
}

// Whether two ballots are the same.
fn is_ballot(ballot: &Ballot, other: &Ballot) -> bool
    ensures { IsTrue result → ballot.now ≡ other.now }
{
    ballot.round == other.round && ballot.name.number() == other.name.number()
}

// Whether two configurations are the same.
fn is_config<Q: Quorums>(config: &Q, other: &Q) -> bool
    ensures { IsTrue result → config.now ≡ other.now }
{
    config == other
}
