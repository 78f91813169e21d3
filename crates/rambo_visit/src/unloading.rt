//! How the letters of a node are kept short.
ghost use Rattle.std.specs.Prelude.{◌≡◌, [], IfErr};
ghost use Rattle.rambo_visit.specs.Happened.{HasNoRoom};

use crate::entering::take;
use crate::opening::has_room;
use rambo_book::{Book, Keeper, Terms};
use rambo_history::{CallId, Op};
use rambo_names::{Bytes, Quorums, Refusal};
use rambo_node::Effect;
use rambo_outbox::Outbox;
use rambo_run::Step;
use rambo_tag::Replica;
use std::alloc::Global;
use std::sync::{Mutex, Wait};

/// Raises the phase number of a node whose letters carried much. Copies that changed before aren't sent again to a name
/// that has acknowledged the new number.
///
/// The number rises with each phase of a call. So that a node has a call also while no client asks it, it keeps one of
/// its own open, a get of the empty key. Its phase restarts each time, and nobody is asked for it.
pub(crate) fn unload<J: Terms<Q>, Q: Quorums, S: Replica, R: Wait>(
    rt: &R,
    alloc: Global,
    book: &Mutex<Book<J, Q>>,
    keeper: &mut Keeper<J, Q, S>,
    outbox: &mut Outbox,
) -> Result<(), Refusal>
    ensures cause { IfErr result (HasNoRoom Q.system J.founders J.capacity) }
{
    if !keeper.carries_much() {
        return Ok(());
    }
    match outbox.idle() {
        Some(number) => begin_again(rt, alloc, book, keeper, number),
        None => keep_call(rt, alloc, book, keeper, outbox),
    }
}

// Restarts the phase of the call that is kept open.
fn begin_again<J: Terms<Q>, Q: Quorums, S: Replica, R: Wait>(
    rt: &R,
    alloc: Global,
    book: &Mutex<Book<J, Q>>,
    keeper: &mut Keeper<J, Q, S>,
    number: u64,
) -> Result<(), Refusal>
    ensures cause { IfErr result (HasNoRoom Q.system J.founders J.capacity) }
{
    let name = keeper.name();
    take(
        rt,
        alloc,
        book,
        keeper,
        Step::Again(CallId { name, number }),
    )?;
    Ok(())
}

// Makes the call that is kept open, if the node has room for it.
fn keep_call<J: Terms<Q>, Q: Quorums, S: Replica, R: Wait>(
    rt: &R,
    alloc: Global,
    book: &Mutex<Book<J, Q>>,
    keeper: &mut Keeper<J, Q, S>,
    outbox: &mut Outbox,
) -> Result<(), Refusal>
    ensures cause { IfErr result (HasNoRoom Q.system J.founders J.capacity) }
{
    if !has_room(keeper) {
        return Ok(());
    }
    let name = keeper.name();
    let step = Step::Call(name, Op::Get(empty_key()));
    let effect = take(rt, alloc, book, keeper, step)?;
    if let Some(Effect::Called(id)) = &effect {
        outbox.keep_open(id.number);
    }
    Ok(())
}

fn empty_key() -> Bytes
    ensures { result ≡ [] }
{
    Bytes::short([0; Bytes::SHORT], 0)
}
