//! What an attempt offers, and what a vote and an attempt make of another node's.
ghost use Rattle.std.specs.Prelude.{◌≡◌, ◌≤◌, nat_lt, length, Some, if◌then◌else◌};
ghost use Rattle.rambo_config_map.specs.Maps.{end_of, merged_map};
ghost use Rattle.rambo_bids.specs.Fitting.{AttemptFits};
ghost use Rattle.rambo_paxos.specs.Votes.{taken_if};
ghost use Rattle.rambo_bids.specs.Hearing.{offer_for, is_level, vote_kept, vote_after, heard_for, attempt_after};

use crate::places::{is_next, top_of};
use rambo_config_map::ConfigMap;
use rambo_names::{Name, Quorums};
use rambo_paxos::{Attempt, Offer, Vote};

/// What the attempt of a node with this map asks, if one is open for the first unknown place.
pub fn offer_of<Q: Quorums>(attempt: &Option<Attempt<Q>>, map: &ConfigMap<Q>) -> Option<Offer<Q>>
    ensures { result ≡ offer_for (end_of map.now) attempt.now }
{
    match attempt {
        Some(attempt) if is_next(map, attempt.place()) => Some(attempt.offer()),
        _ => None,
    }
}

/// The attempt of a node with this map, if there is one, hears the vote that another node sends with its map. It counts
/// where both are for the first place that the two maps, merged, don't know.
#[inline(always)]
pub fn hear_vote<Q: Quorums>(
    attempt: &mut Option<Attempt<Q>>,
    map: &ConfigMap<Q>,
    from: Name,
    told: &ConfigMap<Q>,
    vote: &Vote<Q>,
)
    ensures after { attempt.new ≡ attempt_after map.now attempt.old from told.now vote.now }
    ensures fits { AttemptFits map.now attempt.old → AttemptFits (merged_map map.now told.now) attempt.new }
{
    // (few nodes have an attempt open)
    if attempt.is_none() {
        return;
    }
    if is_level(map, told) {
        hear_vote_for(attempt, told, from, vote);
    }
}

/// The vote of a node with this map hears what another one sends with its map. It is emptied where its place has become
/// known, and it takes an offer that is for the same place.
#[inline(always)]
pub fn hear_offer<Q: Quorums>(
    vote: &mut Vote<Q>,
    map: &ConfigMap<Q>,
    told: &ConfigMap<Q>,
    offer: &Option<Offer<Q>>,
)
    ensures { vote.new ≡ vote_after map.now vote.old told.now offer.now }
{
    keep_if_next(vote, map, told);
    if let Some(offer) = offer {
        take_offer(vote, map, told, offer);
    }
}

// Takes an offer that is sent with a map, if it is for the first place that the two maps, merged, don't know. (few
// letters have an offer)
#[inline(never)]
fn take_offer<Q: Quorums>(
    vote: &mut Vote<Q>,
    map: &ConfigMap<Q>,
    told: &ConfigMap<Q>,
    offer: &Offer<Q>,
)
    ensures { vote.new ≡ (if is_level map.now told.now then taken_if vote.old (Some offer.now) else vote.old) }
{
    if is_level(map, told) {
        vote.take(offer);
    }
}

// Keeps a vote where the first unknown place is still the same, and else empties it.
fn keep_if_next<Q: Quorums>(vote: &mut Vote<Q>, map: &ConfigMap<Q>, told: &ConfigMap<Q>)
    ensures { vote.new ≡ vote_kept map.now vote.old told.now }
{
    if is_longer(told, map) {
        *vote = Vote::new();
    }
}

// An attempt, if there is one, hears a vote of a node for the first place that a map doesn't know.
#[inline(never)]
fn hear_vote_for<Q: Quorums>(
    attempt: &mut Option<Attempt<Q>>,
    map: &ConfigMap<Q>,
    from: Name,
    vote: &Vote<Q>,
)
    ensures { attempt.new ≡ heard_for (end_of map.now) attempt.old from vote.now }
{
    if let Some(attempt) = attempt {
        if is_next(map, attempt.place()) {
            attempt.hear_vote(from, vote);
        }
    }
}

// Whether a map that is sent has as many places as it and another one, merged.
fn is_level<Q: Quorums>(map: &ConfigMap<Q>, told: &ConfigMap<Q>) -> bool
    ensures level { result ≡ is_level map.now told.now }
    ensures active { (1 ≤ length map.now.configs) × (1 ≤ length told.now.configs) }
{
    top_of(map) <= top_of(told)
}

// Whether a map knows more places than another.
fn is_longer<Q: Quorums>(map: &ConfigMap<Q>, other: &ConfigMap<Q>) -> bool
    ensures { result ≡ nat_lt (end_of other.now) (end_of map.now) }
{
    top_of(other) < top_of(map)
}
