//! Steps of a node that is visited.
ghost use Rattle.std.specs.Prelude.{◌≡◌, ◌≢◌, ◌⊎◌, [], None, Some, IsSome, OnOk, OnErr, IfOk, IfErr, IfNone, IfSome};
ghost use Rattle.rambo_book.specs.Readying.{IsReadyFor};
ghost use Rattle.rambo_node.specs.Acts.{name_in};
ghost use Rattle.rambo_run.specs.Runs.{run};
ghost use Rattle.rambo_run.specs.Steps.{meant_in, refusal};
ghost use Rattle.rambo_visit.specs.Happened.{Happened, HasNoRoom, IsLast};

use rambo_book::{Book, Keeper, Ready, Terms, commit_ready, ready};
use rambo_names::{Quorums, Refusal};
use rambo_node::Effect;
use rambo_run::Step;
use rambo_tag::Replica;
use std::alloc::Global;
use std::sync::{Mutex, Wait};

/// Does the second half of a step, with the book locked. Returns what it did.
///
/// `HistoryFull` where the book is full, else `OutOfMemory` where it has no room for the step. The keeper is then as before.
pub(crate) fn enter<J: Terms<Q>, Q: Quorums, S: Replica, R: Wait>(
    rt: &R,
    book: &Mutex<Book<J, Q>>,
    keeper: &mut Keeper<J, Q, S>,
    half: Ready<Q>,
) -> Result<Effect<Q>, Refusal>
    requires { IsReadyFor Q.system J.founders keeper.old half }
    ensures same { (keeper.new.name ≡ keeper.old.name) × (keeper.new.tray ≡ keeper.old.tray) }
    ensures did { IfOk result (λ e. (f : Q) → J.founders ≡ Some f → Happened Q.system f J.capacity (IsLast Q.system f half.step e)) }
    ensures err { OnErr result (keeper.new ≡ keeper.old) }
    ensures cause { IfErr result (HasNoRoom Q.system J.founders J.capacity) }
{
    let mut book = book.lock(rt);
    book.facts();
    commit_ready(&mut book, keeper, half)
}

/// Takes a step of the node, which is no delivery. Returns what it did, or None exactly where the node's rules refuse it.
///
/// `HistoryFull` where the book is full, else `OutOfMemory` where there is no room for the step.
pub(crate) fn take<J: Terms<Q>, Q: Quorums, S: Replica, R: Wait>(
    rt: &R,
    alloc: Global,
    book: &Mutex<Book<J, Q>>,
    keeper: &mut Keeper<J, Q, S>,
    step: Step<Q>,
) -> Result<Option<Effect<Q>>, Refusal>
    requires { name_in (meant_in [] step) ≡ Some keeper.old.name }
    ensures same { (keeper.new.name ≡ keeper.old.name) × (keeper.new.tray ≡ keeper.old.tray) }
    ensures did { (f : Q) → J.founders ≡ Some f → IfOk result (λ r. IfSome r (λ e. Happened Q.system f J.capacity (IsLast Q.system f step e))) }
    ensures refused { (f : Q) → J.founders ≡ Some f → IfOk result (λ r. IfNone r (IsSome (refusal Q.system (run Q.system f keeper.old.seen) step) × (keeper.new ≡ record keeper.old { room = keeper.new.room }))) }
    ensures cause { IfErr result (HasNoRoom Q.system J.founders J.capacity) }
{
    match ready(alloc, keeper, step) {
        Ok(half) => Ok(Some(enter(rt, book, keeper, half)?)),
        Err(cause) => unmade(rt, book, cause),
    }
}

// What a step comes to whose first half wasn't made for this cause: nothing where its rules refuse it, else there is no room
// for it.
fn unmade<J: Terms<Q>, Q: Quorums, R: Wait>(
    rt: &R,
    book: &Mutex<Book<J, Q>>,
    cause: Refusal,
) -> Result<Option<Effect<Q>>, Refusal>
    ensures nothing { IfOk result (λ r. r ≡ None) }
    ensures refused { OnOk result (cause ≢ Refusal.OutOfMemory) }
    ensures cause { IfErr result (HasNoRoom Q.system J.founders J.capacity) }
{
    if cause == Refusal::OutOfMemory {
        return Err(no_room(rt, book));
    }
    Ok(None)
}

/// Why there is no room for a step: the book is full, or memory is out.
pub(crate) fn no_room<J: Terms<Q>, Q: Quorums, R: Wait>(rt: &R, book: &Mutex<Book<J, Q>>) -> Refusal
    ensures { HasNoRoom Q.system J.founders J.capacity result }
{
    book.lock(rt).no_room()
}
