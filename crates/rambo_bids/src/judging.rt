//! When a node may begin to have a configuration chosen, and advance.
ghost use Rattle.std.specs.Prelude.{◌≡◌, nat_le, length, OnOk, IfErr, None, Some};
ghost use Rattle.rambo_names.specs.Refusals.{least};
ghost use Rattle.rambo_config_map.specs.Maps.{active_at, end_of, top_of};
ghost use Rattle.rambo_gc.specs.Collections.{has_quorum};
ghost use Rattle.rambo_bids.specs.Wishes.{is_member, wish_causes, is_for, attempt_waits};

use crate::places::{active_at, is_known, is_next};
use rambo_config_map::ConfigMap;
use rambo_names::{Members, Name, Quorums, Refusal};
use rambo_paxos::{Attempt, Vote};

// The greatest number of active places of a map.
const ACTIVE_LIMIT: usize = 8;

/// Whether a node of this name, which knows these names and has this map, vote and attempt, may begin to have a
/// configuration chosen.
///
/// Refused with 13 where it is no member of the configuration at its top, 14 where an attempt is open, 16 where eight
/// places are active. Refused with 17 where the wish has a member that it doesn't know, 18 where the wish has no
/// member. Refused with 21 where the round that its vote promised, or the top, is the greatest number. Of several
/// causes the least number is reported.
pub fn may_wish<Q: Quorums>(
    me: Name,
    known: Members,
    map: &ConfigMap<Q>,
    vote: &Vote<Q>,
    attempt: &Option<Attempt<Q>>,
    wish: &Q,
) -> Result<(), Refusal>
    ensures ok { OnOk result (least (wish_causes Q.system me known map.now vote.now attempt.now wish.now) ≡ None) }
    ensures refused { IfErr result (λ r. least (wish_causes Q.system me known map.now vote.now attempt.now wish.now) ≡ Some r) }
{
    if !is_member(me, map) {
        return Err(Refusal::NotMember);
    }
    if attempt.is_some() {
        return Err(Refusal::ReconOpen);
    }
    if is_crowded(map) {
        return Err(Refusal::TooManyActive);
    }
    let members = wish.members();
    if !members.is_subset(known) {
        return Err(Refusal::UnknownMember);
    }
    if members.count() == 0 {
        return Err(Refusal::EmptyMembers);
    }
    if vote.round() == u64::MAX || map.top() == u64::MAX {
        return Err(Refusal::NumbersSpent);
    }
    Ok(())
}

/// Whether an attempt is open for the first place that a map doesn't know.
pub fn is_bidding<Q: Quorums>(attempt: &Option<Attempt<Q>>, map: &ConfigMap<Q>) -> bool
    ensures { result ≡ is_for (end_of map.now) attempt.now }
{
    match attempt {
        Some(attempt) => is_next(map, attempt.place()),
        None => false,
    }
}

/// Whether an attempt is open whose place a map doesn't know yet, and whose quorum, one of the configuration at the
/// top, hasn't replied.
pub fn is_waiting<Q: Quorums>(
    attempt: &Option<Attempt<Q>>,
    vote: &Vote<Q>,
    map: &ConfigMap<Q>,
) -> bool
    ensures { result ≡ attempt_waits Q.system map.now attempt.now }
{
    match attempt {
        Some(attempt) => !is_known(map, attempt.place()) && !has_replies(attempt, vote, map),
        None => false,
    }
}

// Whether a name is a member of the configuration at the top of a map.
fn is_member<Q: Quorums>(me: Name, map: &ConfigMap<Q>) -> bool
    ensures { result ≡ is_member Q.system me (active_at map.now (top_of map.now)) }
{
    match active_at(map, map.top()) {
        Some(config) => config.members().has(me),
        None => false,
    }
}

// Whether the greatest number of places of a map are active.
fn is_crowded<Q: Quorums>(map: &ConfigMap<Q>) -> bool
    ensures { result ≡ nat_le 8 (length map.now.configs) }
{
    map.places().len() >= ACTIVE_LIMIT
}

// Whether the repliers of an attempt contain a quorum of the configuration at the top of a map.
fn has_replies<Q: Quorums>(attempt: &Attempt<Q>, vote: &Vote<Q>, map: &ConfigMap<Q>) -> bool
    ensures { result ≡ has_quorum Q.system (active_at map.now (top_of map.now)) attempt.now.repliers }
{
    match active_at(map, map.top()) {
        Some(old) => is_met(attempt, vote, &old),
        None => false,
    }
}

// Whether the repliers of an attempt contain a quorum of a configuration. It is tried on copies.
fn is_met<Q: Quorums>(attempt: &Attempt<Q>, vote: &Vote<Q>, old: &Q) -> bool
    ensures { result ≡ Q.system.is_quorum old.now attempt.now.repliers }
{
    let mut trial = *attempt;
    let mut vote = *vote;
    trial.advance(&mut vote, old).is_ok()
}
