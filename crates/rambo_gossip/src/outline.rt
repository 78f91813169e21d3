//! Letters without their copies.

use rambo_config_map::ConfigMap;
use rambo_names::{Members, Name, Quorums};
use rambo_paxos::{Offer, Vote};
use std::marker::Model;

/// A letter without its copies, which borrows its map and its vote.
#[derive(Drop)]
pub struct LetterOutline<'a, Q: Quorums> {
    /// Who sends it.
    pub sender: Name,
    /// Whom it goes to.
    pub addressee: Name,
    /// What its sender knows, or none where that wants to join.
    pub gossip: Option<GossipOutline<'a, Q>>,
}

/// What an active node knows besides its copies.
#[derive(Drop)]
pub struct GossipOutline<'a, Q: Quorums> {
    /// The names that it knows.
    pub known: Members,
    /// Its configuration map.
    pub map: &'a ConfigMap<Q>,
    /// Its phase number.
    pub number: u64,
    /// The greatest phase number of the addressee that it heard.
    pub heard: u64,
    /// Its vote for the first place that its map doesn't know.
    pub vote: &'a Vote<Q>,
    /// What its own attempt for that place asks, if it has one.
    pub offer: Option<Offer<Q>>,
}

impl<'a, Q: Quorums> Model for LetterOutline<'a, Q> {
    ghost use Rattle.std.specs.Coded.{codes};
    ghost use Rattle.rambo_names.specs.Names.{names_code};
    ghost use Rattle.rambo_tag.specs.Copies.{copies_code};
    ghost use Rattle.rambo_gossip.specs.Letters.{LetterState};
    ghost use Rattle.rambo_gossip.specs.Outlines.{outlined};

    ghost Value = { LetterState Q };

    ghost coded = { Prim.hlevel (codes, names_code, copies_code, Q.code) };

    ghost view = { λ o. record { sender = o.sender; addressee = o.addressee; kind = outlined o.gossip } };
}
