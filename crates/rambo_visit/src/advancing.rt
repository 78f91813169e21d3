//! What is open at a node advances.
ghost use Rattle.std.specs.Prelude.{◌≡◌, ◌<◌, ◌++◌, IfErr};
ghost use Rattle.std.specs.Vec.{vec_len, vec_capacity};
ghost use Rattle.rambo_visit.specs.Advances.{given_by, settled};
ghost use Rattle.rambo_visit.specs.Happened.{HasNoRoom};

use crate::entering::take;
use crate::opening::{calls_of, is_bidding, is_collecting};
use rambo_book::{Book, Keeper, Terms};
use rambo_history::CallId;
use rambo_names::{Quorums, Refusal};
use rambo_node::Effect;
use rambo_outbox::{Outbox, Waiter};
use rambo_run::Step;
use rambo_tag::Replica;
use std::alloc::Global;
use std::sync::{Mutex, Wait};

/// Advances the open calls, the collection and the attempt, until none of them may advance. The waiter of each call
/// that is answered is appended to `given`.
pub(crate) fn go_on<J: Terms<Q>, Q: Quorums, S: Replica, R: Wait>(
    rt: &R,
    alloc: Global,
    book: &Mutex<Book<J, Q>>,
    keeper: &mut Keeper<J, Q, S>,
    outbox: &mut Outbox,
    given: &mut Vec<Waiter>,
) -> Result<(), Refusal>
    ensures cause { IfErr result (HasNoRoom Q.system J.founders J.capacity) }
{
    for _ in rt.forever() {
        advance_all(rt, alloc, book, keeper, outbox, given)?;
        if !advance_configurations(rt, alloc, book, keeper, outbox)? {
            return Ok(());
        }
    }
    Ok(())
}

// Advances each open call as far as it may, the oldest first, except the one that is kept open.
fn advance_all<J: Terms<Q>, Q: Quorums, S: Replica, R: Wait>(
    rt: &R,
    alloc: Global,
    book: &Mutex<Book<J, Q>>,
    keeper: &mut Keeper<J, Q, S>,
    outbox: &mut Outbox,
    given: &mut Vec<Waiter>,
) -> Result<(), Refusal>
    ensures cause { IfErr result (HasNoRoom Q.system J.founders J.capacity) }
{
    let mut place = 0usize;
    for _ in rt.forever() {
        let Some(number) = number_at(keeper, place) else {
            return Ok(());
        };
        let stays = outbox.idle() == Some(number);
        if stays || !advance(rt, alloc, book, keeper, outbox, number, given)? {
            place = place.wrapping_add(1);
        }
    }
    Ok(())
}

// The number of the open call at a place.
fn number_at<J: Terms<Q>, Q: Quorums, S: Replica>(
    keeper: &Keeper<J, Q, S>,
    place: usize,
) -> Option<u64> {
    match calls_of(keeper).get(place) {
        Some(call) => Some(call.number),
        None => None,
    }
}

// Advances the call of this number, if it may. Its waiter is appended to `given` once it is answered. Returns whether
// it advanced.
fn advance<J: Terms<Q>, Q: Quorums, S: Replica, R: Wait>(
    rt: &R,
    alloc: Global,
    book: &Mutex<Book<J, Q>>,
    keeper: &mut Keeper<J, Q, S>,
    outbox: &mut Outbox,
    number: u64,
    given: &mut Vec<Waiter>,
) -> Result<bool, Refusal>
    ensures cause { IfErr result (HasNoRoom Q.system J.founders J.capacity) }
{
    given.reserve(1)?;
    let name = keeper.name();
    let step = Step::Advance(CallId { name, number });
    let Some(effect) = take(rt, alloc, book, keeper, step)? else {
        return Ok(false);
    };
    settle(outbox, number, &effect, given);
    Ok(true)
}

// Notes in the outbox what a step of the call of this number did. The waiter of an answered call is appended to
// `given`, which has room for it.
fn settle<Q: Quorums>(outbox: &mut Outbox, number: u64, effect: &Effect<Q>, given: &mut Vec<Waiter>)
    requires { vec_len given.old < vec_capacity given.old }
    ensures outbox { outbox.new ≡ settled effect.now number outbox.old }
    ensures given { given.new.items ≡ given.old.items ++ given_by effect.now number outbox.old }
{
    match effect {
        Effect::Answered(_, _) => {
            if let Some(who) = outbox.answered(number) {
                given.push_reserved(who);
            }
        }
        _ => outbox.moved(),
    }
}

// Advances the collection and the attempt of the node, if they may. Returns whether one of them advanced.
fn advance_configurations<J: Terms<Q>, Q: Quorums, S: Replica, R: Wait>(
    rt: &R,
    alloc: Global,
    book: &Mutex<Book<J, Q>>,
    keeper: &mut Keeper<J, Q, S>,
    outbox: &mut Outbox,
) -> Result<bool, Refusal>
    ensures cause { IfErr result (HasNoRoom Q.system J.founders J.capacity) }
{
    let collects = advance_collection(rt, alloc, book, keeper)?;
    let bids = advance_attempt(rt, alloc, book, keeper)?;
    if collects || bids {
        outbox.moved();
    }
    Ok(collects || bids)
}

// Advances the collection of the node, if one is open and may. Returns whether it advanced.
// (mostly none is open, and a first half that is refused takes hundreds of instructions)
fn advance_collection<J: Terms<Q>, Q: Quorums, S: Replica, R: Wait>(
    rt: &R,
    alloc: Global,
    book: &Mutex<Book<J, Q>>,
    keeper: &mut Keeper<J, Q, S>,
) -> Result<bool, Refusal>
    ensures cause { IfErr result (HasNoRoom Q.system J.founders J.capacity) }
{
    if !is_collecting(keeper) {
        return Ok(false);
    }
    let name = keeper.name();
    Ok(take(rt, alloc, book, keeper, Step::AdvanceCollect(name))?.is_some())
}

// And so its attempt.
fn advance_attempt<J: Terms<Q>, Q: Quorums, S: Replica, R: Wait>(
    rt: &R,
    alloc: Global,
    book: &Mutex<Book<J, Q>>,
    keeper: &mut Keeper<J, Q, S>,
) -> Result<bool, Refusal>
    ensures cause { IfErr result (HasNoRoom Q.system J.founders J.capacity) }
{
    if !is_bidding(keeper) {
        return Ok(false);
    }
    let name = keeper.name();
    Ok(take(rt, alloc, book, keeper, Step::AdvanceRecon(name))?.is_some())
}

/// The node retries its attempt, unless its rules refuse that.
pub(crate) fn bid_again<J: Terms<Q>, Q: Quorums, S: Replica, R: Wait>(
    rt: &R,
    alloc: Global,
    book: &Mutex<Book<J, Q>>,
    keeper: &mut Keeper<J, Q, S>,
) -> Result<(), Refusal>
    ensures cause { IfErr result (HasNoRoom Q.system J.founders J.capacity) }
{
    let name = keeper.name();
    take(rt, alloc, book, keeper, Step::Rebid(name))?;
    Ok(())
}
