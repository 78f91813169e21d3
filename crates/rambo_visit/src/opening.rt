//! What is open at a node.
ghost use Rattle.std.specs.Prelude.{◌≡◌};
ghost use Rattle.std.specs.Option.{is_some};
ghost use Rattle.rambo_calls.specs.Kept.{calls_of};
ghost use Rattle.rambo_outbox.specs.Outboxes.{seen};
ghost use Rattle.rambo_visit.specs.Open.{open_at, reach_of, is_joining, number_in, stage_in};

use rambo_book::{Keeper, Terms};
use rambo_calls::OpenCall;
use rambo_gc::Collection;
use rambo_joiner::Status;
use rambo_names::{Members, Quorums};
use rambo_outbox::{BidStage, Opened};
use rambo_paxos::{Attempt, Offer};
use rambo_tag::Replica;

/// What is open at the node of a keeper, as its outbox reads it. `wants_room` says whether somebody waits for room for
/// a call.
pub fn opened<'a, J: Terms<Q>, Q: Quorums, S: Replica>(
    keeper: &'a Keeper<J, Q, S>,
    wants_room: bool,
) -> Opened<'a, Q>
    ensures { seen result ≡ open_at keeper.now.node wants_room }
{
    let node = keeper.node();
    Opened {
        me: node.name(),
        reach: reach_of(node.status(), node.known()),
        is_joining: is_joining(node.status()),
        calls: node.calls(),
        wants_room,
        collection: number_in(node.collection()),
        bid: stage_in(node.attempt()),
        map: node.map(),
    }
}

// At most this many calls are open at a node.
const CALLS: usize = 64;

/// Whether the node of a keeper has room for one more call.
pub(crate) fn has_room<J: Terms<Q>, Q: Quorums, S: Replica>(keeper: &Keeper<J, Q, S>) -> bool {
    calls_of(keeper).len() < CALLS
}

/// The open calls of a keeper's node, the oldest first.
pub(crate) fn calls_of<'a, J: Terms<Q>, Q: Quorums, S: Replica>(
    keeper: &'a Keeper<J, Q, S>,
) -> &'a [OpenCall<Q>]
    ensures { calls_of result.now ≡ keeper.now.node.calls }
{
    keeper.node().calls()
}

/// Whether a collection is open at the node of a keeper.
pub(crate) fn is_collecting<J: Terms<Q>, Q: Quorums, S: Replica>(keeper: &Keeper<J, Q, S>) -> bool
    ensures { result ≡ is_some keeper.now.node.collection }
{
    keeper.node().collection().is_some()
}

/// Whether an attempt is open there.
pub(crate) fn is_bidding<J: Terms<Q>, Q: Quorums, S: Replica>(keeper: &Keeper<J, Q, S>) -> bool
    ensures { result ≡ is_some keeper.now.node.attempt }
{
    keeper.node().attempt().is_some()
}

// Whom a node may write to, by its status and the names that it knows. Its own name may be among them.
fn reach_of(status: Status, known: Members) -> Members
    ensures { result ≡ reach_of status known }
{
    match status {
        Status::Idle | Status::Stopped => Members::empty(),
        Status::Joining | Status::Active => known,
    }
}

// Whether a node is joining.
fn is_joining(status: Status) -> bool
    ensures { result ≡ is_joining status }
{
    matches!(status, Status::Joining)
}

// The phase number of a collection, if one is open.
fn number_in(collection: Option<Collection>) -> Option<u64>
    ensures { result ≡ number_in collection }
{
    match collection {
        Some(collection) => Some(collection.number()),
        None => None,
    }
}

// How far an attempt is, if one is open.
fn stage_in<Q: Quorums>(attempt: Option<Attempt<Q>>) -> Option<BidStage>
    ensures { result ≡ stage_in attempt }
{
    match attempt {
        Some(attempt) => match attempt.offer() {
            Offer::Prepare(ballot) => Some(BidStage {
                ballot,
                proposes: false,
            }),
            Offer::Propose(ballot, _) => Some(BidStage {
                ballot,
                proposes: true,
            }),
        },
        None => None,
    }
}
