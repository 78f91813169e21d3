//! What a turn does with a map, a collection and an attempt, once the node has judged that it isn't refused.
//!
//! Nothing here allocates. What a part could refuse, its `requires` rule out.
ghost use Rattle.std.specs.Prelude.{◌≡◌, ◌≤◌, ◌<◌, ◌^◌, Some, true, false, nat_le, nat_lt, if◌then◌else◌, length};
ghost use Rattle.rambo_config_map.specs.Maps.{active_at, end_of, top_of, learnt, without_lowest};
ghost use Rattle.rambo_gc.specs.Collections.{has_quorum, move_of, opened as collection_of, moved};
ghost use Rattle.rambo_paxos.specs.Attempts.{opened as attempt_of, rebid, vote_opened, bid_of, advanced, vote_advanced};
ghost use Rattle.rambo_paxos.specs.Votes.{is_spent};

use rambo_bids::active_at;
use rambo_config_map::ConfigMap;
use rambo_gc::{Collection, GcMove};
use rambo_names::{Name, Quorums};
use rambo_paxos::{Attempt, Bid, Vote};

// A collection of the lowest place begins.
pub(crate) fn collection_of<Q: Quorums>(map: &ConfigMap<Q>, number: u64, me: Name) -> Collection
    requires { nat_le (length map.now.configs) 1 ≡ false }
    ensures { result ≡ collection_of map.now number me }
{
    match Collection::open(map, number, me) {
        Ok(collection) => collection,
        Err(_) => unreachable!(),
    }
}

// Its second stage begins, under this number.
pub(crate) fn moved<Q: Quorums>(
    collection: Collection,
    map: &ConfigMap<Q>,
    number: u64,
) -> Collection
    requires { move_of Q.system map.now collection ≡ Some GcMove.Propagating }
    ensures { result ≡ moved (Some GcMove.Propagating) number collection }
{
    let mut moved = collection;
    if moved.advance(map, number).is_err() {
        unreachable!();
    }
    moved
}

// The lowest place is removed, unless this place is removed already.
pub(crate) fn remove<Q: Quorums>(map: &mut ConfigMap<Q>, place: u64)
    requires { nat_lt place map.old.floor ≡ false → nat_le (length map.old.configs) 1 ≡ false }
    ensures { map.new ≡ (if nat_lt place map.old.floor then map.old else without_lowest map.old) }
{
    if place < map.floor() {
        return;
    }
    if map.remove_lowest().is_err() {
        unreachable!();
    }
}

// An attempt begins, and the vote takes its offer.
pub(crate) fn attempt_of<Q: Quorums>(
    place: u64,
    wish: Q,
    vote: &mut Vote<Q>,
    me: Name,
) -> Attempt<Q>
    requires { is_spent vote.old ≡ false }
    ensures attempt { result ≡ attempt_of place wish vote.old me }
    ensures vote { vote.new ≡ vote_opened vote.old me }
{
    match Attempt::open(place, wish, vote, me) {
        Ok(attempt) => attempt,
        Err(_) => unreachable!(),
    }
}

// An attempt begins again, and the vote takes its offer.
pub(crate) fn rebid<Q: Quorums>(attempt: Attempt<Q>, vote: &mut Vote<Q>) -> Attempt<Q>
    requires { is_spent vote.old ≡ false }
    ensures attempt { result ≡ rebid attempt vote.old }
    ensures vote { vote.new ≡ vote_opened vote.old attempt.ballot.name }
{
    let mut again = attempt;
    if again.rebid(vote).is_err() {
        unreachable!();
    }
    again
}

// Advances an attempt whose repliers contain a quorum of the configuration at the top.
pub(crate) fn go_on<Q: Quorums>(
    attempt: &mut Attempt<Q>,
    vote: &mut Vote<Q>,
    map: &ConfigMap<Q>,
) -> Bid<Q>
    requires { has_quorum Q.system (active_at map.now (top_of map.now)) attempt.old.repliers ≡ true }
    ensures bid { result ≡ bid_of attempt.old }
    ensures attempt { attempt.new ≡ advanced attempt.old vote.old }
    ensures vote { vote.new ≡ vote_advanced attempt.old vote.old }
{
    let Some(old) = active_at(map, map.top()) else {
        unreachable!();
    };
    match attempt.advance(vote, &old) {
        Ok(bid) => bid,
        Err(_) => unreachable!(),
    }
}

// A configuration is learnt.
pub(crate) fn learn<Q: Quorums>(map: &mut ConfigMap<Q>, config: Q)
    requires room { length map.old.configs ≤ 7 }
    requires next { end_of map.old < 2 ^ 64 }
    ensures { map.new ≡ learnt map.old config }
{
    if map.learn(config).is_err() {
        unreachable!();
    }
}
