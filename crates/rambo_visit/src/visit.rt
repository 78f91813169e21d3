//! Visits of nodes.
ghost use Rattle.std.specs.Prelude.{◌≡◌, Some, IfErr, IfSome};
ghost use Rattle.rambo_visit.specs.Happened.{HasNoRoom};

use crate::advancing::{bid_again, go_on};
use crate::hearing::hear_all;
use crate::opening::{has_room, opened};
use crate::unloading::unload;
use crate::writing::write_all;
use rambo_book::{Book, Keeper, Terms};
use rambo_names::{Members, Quorums, Refusal};
use rambo_outbox::{Outbox, Waiter};
use rambo_tag::Replica;
use std::alloc::Global;
use std::sync::{Mutex, Wait};

// How many milliseconds later what was left is tried again.
const PAUSE: u64 = 20;

/// The result of a visit.
#[derive(Clone, Copy)]
pub struct Visited {
    /// The addressees of the letters that were written: their nodes have something to do.
    pub written: Members,
    /// When the node is to be visited again at the latest, if nothing happens before. None where nothing is open.
    pub wake: Option<u64>,
    /// Whether the node has room for one more call. False where something was left.
    pub has_room: bool,
    /// Why something was left to be done, if it was.
    pub left: Option<Refusal>,
}

impl Visited {
    /// What a visit came to that left something undone at this time, in milliseconds, after it wrote to these names.
    pub fn left(written: Members, refusal: Refusal, now: u64) -> Visited
        ensures { result.left ≡ Some refusal }
    {
        Visited {
            written,
            wake: Some(now.saturating_add(PAUSE)),
            has_room: false,
            left: Some(refusal),
        }
    }
}

/// Does all that is to be done at a node whose mail was taken. It hears its letters. Its calls, its collection and its
/// attempt advance. A bid that is due is made again. Then it writes the letters that its outbox wants. The waiter of
/// each call that is answered is appended to `given`; if the node has stopped, so is every waiter.
///
/// `now` is in milliseconds since a fixed moment. `wants_room` says whether somebody waits for room for a call. In
/// `left`, `HistoryFull` means that the book is full and something is to be done, `OutOfMemory` that memory ran out.
pub fn visit_in<J: Terms<Q>, Q: Quorums, S: Replica, R: Wait>(
    rt: &R,
    alloc: Global,
    book: &Mutex<Book<J, Q>>,
    keeper: &mut Keeper<J, Q, S>,
    outbox: &mut Outbox,
    now: u64,
    wants_room: bool,
    given: &mut Vec<Waiter>,
) -> Visited
    ensures cause { IfSome result.left (HasNoRoom Q.system J.founders J.capacity) }
{
    let mut written = Members::empty();
    match take_steps(
        rt,
        alloc,
        book,
        keeper,
        outbox,
        now,
        wants_room,
        given,
        &mut written,
    ) {
        Ok(wake) => Visited {
            written,
            wake,
            has_room: has_room(keeper),
            left: None,
        },
        Err(refusal) => Visited::left(written, refusal, now),
    }
}

// The same. Returns when to look again. Whom it wrote to is added to `written`, also where something was left.
fn take_steps<J: Terms<Q>, Q: Quorums, S: Replica, R: Wait>(
    rt: &R,
    alloc: Global,
    book: &Mutex<Book<J, Q>>,
    keeper: &mut Keeper<J, Q, S>,
    outbox: &mut Outbox,
    now: u64,
    wants_room: bool,
    given: &mut Vec<Waiter>,
    written: &mut Members,
) -> Result<Option<u64>, Refusal>
    ensures cause { IfErr result (HasNoRoom Q.system J.founders J.capacity) }
{
    if keeper.has_stopped() {
        return give_all(rt, outbox, given);
    }
    hear_all(rt, alloc, book, keeper, outbox)?;
    go_on(rt, alloc, book, keeper, outbox, given)?;
    if outbox.rebids(&opened(keeper, wants_room), now) {
        bid_again(rt, alloc, book, keeper)?;
    }
    let round = outbox.next(&opened(keeper, wants_room), now);
    write_all(rt, alloc, book, keeper, outbox, &round, written)?;
    unload(rt, alloc, book, keeper, outbox)?;
    Ok(round.wake)
}

// Appends all who wait to `given`, as their node has stopped.
fn give_all<R: Wait>(
    rt: &R,
    outbox: &mut Outbox,
    given: &mut Vec<Waiter>,
) -> Result<Option<u64>, Refusal>
    ensures refused { IfErr result (λ r. r ≡ Refusal.OutOfMemory) }
{
    for _ in rt.forever() {
        given.reserve(1)?;
        let Some(who) = outbox.take_waiter() else {
            return Ok(None);
        };
        given.push_reserved(who);
    }
    Ok(None)
}
