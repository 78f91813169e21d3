//! What was answered, as a client sees it.
ghost use Rattle.std.specs.Bool.{MatchBool};
ghost use Rattle.std.specs.Prelude.{◌≡◌, ◌⊎◌, Some, None, true, false, is_some, MatchOption, OnOk, OnErr, IfOk, IfErr};
ghost use Rattle.std.specs.Option.{option_copied};
ghost use mathlib.Core.List.{IsPrefix};
ghost use Rattle.rambo_history.specs.Histories.{answer_in};
ghost use Rattle.rambo_book.specs.Kept.{state};
ghost use Rattle.rambo_run.specs.Worlds.{node_at};
ghost use Rattle.rambo_joiner.specs.Statuses.{is_stopped};
ghost use Rattle.rambo_run.specs.Legal.{IsLegal};
ghost use Rattle.rambo_pass.specs.Passes.{IsTaken, IsGone, IsNone, IsOne, HasStopped, IsGoing, IsAnswered};

use crate::pass::Pass;
use rambo_book::{Book, Keeper, Terms};
use rambo_history::{Answer, CallId};
use rambo_names::{Quorums, Refusal};
use rambo_tag::Replica;

// The same answer, if there is one, which shares its bytes.
fn share(answer: Option<&Answer>) -> Result<Option<Answer>, Refusal>
    ensures same { IfOk result (λ a. a ≡ option_copied answer.entry) }
    ensures given { OnErr result (is_some answer.entry ≡ true) }
{
    match answer {
        Some(answer) => Ok(Some(answer.clone()?)),
        None => Ok(None),
    }
}

/// The answer of a call of this client, if the steps have one: the client has then seen all of them, and its entry is gone.
/// Else the pass is unchanged.
///
/// `NoSuchCall` where the call isn't one of this client's that wait; `OutOfMemory` where the answer can't be shared. The pass
/// is then unchanged. A book that is endless would tell `OutOfMemory` of a call that it doesn't keep, too; it keeps each that
/// a client waits for.
pub fn take_given<J: Terms<Q>, Q: Quorums>(
    book: &mut Book<J, Q>,
    pass: &mut Pass<J, Q>,
    id: &CallId,
) -> Result<Option<Answer>, Refusal>
    ensures founders { J.founders ≡ Some book.old.founders }
    ensures legal { IsLegal Q.system book.old.founders book.old.steps }
    ensures book { book.new ≡ book.old }
    ensures seen { IfOk result (λ a. MatchOption a (pass.new ≡ pass.old) (λ _. pass.new.seen ≡ book.old.steps)) }
    ensures begins { OnOk result (IsPrefix pass.old.seen pass.new.seen) }
    ensures answer { IfOk result (λ a. a ≡ answer_in (state Q.system book.old).history id.now) }
    ensures mine { IfOk result (λ a. IsTaken pass.old.mine id.now a pass.new.mine) }
    ensures err { OnErr result (pass.new ≡ pass.old) }
    ensures cause { IfErr result (λ r. ((r ≡ Refusal.OutOfMemory) × IsOne pass.old.mine id.now) ⊎ ((r ≡ Refusal.NoSuchCall) × IsNone pass.old.mine id.now)) }
    ensures answered { IfErr result (λ r. r ≡ Refusal.OutOfMemory → J.endless ≡ false → IsPrefix pass.old.seen book.old.steps × IsAnswered (state Q.system book.old) id.now) }
{
    book.facts();
    let Pass { seen, count, mine } = pass;
    let Some(at) = mine.find(id) else {
        return Err(Refusal::NoSuchCall);
    };
    let Some(kept) = book.answer(id) else {
        return Err(Refusal::OutOfMemory);
    };
    let Ok(shared) = share(kept) else {
        book.begun(seen);
        return Err(Refusal::OutOfMemory);
    };
    let Some(answer) = shared else {
        return Ok(None);
    };
    *count = book.show(seen);
    book.forget(id);
    mine.settle(at);
    Ok(Some(answer))
}

// Whether the node of the keeper has stopped.
fn has_stopped<J: Terms<Q>, Q: Quorums, S: Replica>(
    book: &mut Book<J, Q>,
    keeper: &mut Keeper<J, Q, S>,
) -> bool
    ensures same { (book.new ≡ book.old) × (keeper.new ≡ keeper.old) }
    ensures node { node_at (state Q.system book.old) keeper.old.name ≡ Some keeper.old.node }
    ensures stopped { result ≡ is_stopped keeper.old.node.status }
{
    book.agree(keeper);
    keeper.has_stopped()
}

/// The answer of a call of this client, who has then seen all steps. The entry of a call that has one is gone.
///
/// `NoSuchCall` where the call isn't one of this client's that wait; `Stopped` where it has no answer and its node has
/// stopped; `OutOfMemory` where the answer can't be shared. None where the steps have no answer of it yet, and its node hasn't
/// stopped.
pub fn take_in<J: Terms<Q>, Q: Quorums, S: Replica>(
    book: &mut Book<J, Q>,
    keeper: &mut Keeper<J, Q, S>,
    pass: &mut Pass<J, Q>,
    id: CallId,
) -> Result<Option<Answer>, Refusal>
    requires { keeper.old.name ≡ id.name }
    ensures founders { J.founders ≡ Some book.old.founders }
    ensures before { IsLegal Q.system book.old.founders book.old.steps }
    ensures same { (book.new ≡ book.old) × (keeper.new ≡ keeper.old) }
    ensures seen { OnOk result (pass.new.seen ≡ book.old.steps) }
    ensures begins { OnOk result (IsPrefix pass.old.seen pass.new.seen) }
    ensures legal { OnOk result (IsLegal Q.system book.old.founders pass.new.seen) }
    ensures answer { IfOk result (λ a. a ≡ answer_in (state Q.system book.old).history id) }
    ensures mine { IfOk result (λ a. IsTaken pass.old.mine id a pass.new.mine) }
    ensures err { OnErr result (pass.new.mine ≡ pass.old.mine) }
    ensures going { IfOk result (λ a. a ≡ None → IsGoing (state Q.system book.old) id.name) }
    ensures answered { IfErr result (λ r. r ≡ Refusal.OutOfMemory → J.endless ≡ false → IsPrefix pass.old.seen book.old.steps × IsAnswered (state Q.system book.old) id) }
    ensures cause { IfErr result (λ r. ((r ≡ Refusal.OutOfMemory) × (pass.new ≡ pass.old) × IsOne pass.old.mine id)
        ⊎ ((r ≡ Refusal.NoSuchCall) × (pass.new ≡ pass.old) × IsNone pass.old.mine id)
        ⊎ ((r ≡ Refusal.Stopped) × IsOne pass.old.mine id × (pass.new.seen ≡ book.old.steps) × IsPrefix pass.old.seen pass.new.seen × (answer_in (state Q.system book.old).history id ≡ None) × HasStopped (state Q.system book.old) id.name)) }
{
    book.facts();
    if let Some(answer) = take_given(book, pass, &id)? {
        return Ok(Some(answer));
    }
    let stopped = has_stopped(book, keeper);
    pass.see_all(book);
    if stopped {
        return Err(Refusal::Stopped);
    }
    Ok(None)
}

/// This client waits for the answer of a call no longer. Whether it did. What it has seen is unchanged.
pub fn give_up_in<J: Terms<Q>, Q: Quorums>(
    book: &mut Book<J, Q>,
    pass: &mut Pass<J, Q>,
    id: &CallId,
) -> bool
    ensures book { book.new ≡ book.old }
    ensures seen { pass.new.seen ≡ pass.old.seen }
    ensures mine { MatchBool result (IsGone pass.old.mine id.now pass.new.mine) ((pass.new ≡ pass.old) × IsNone pass.old.mine id.now) }
{
    let Some(at) = pass.mine.find(id) else {
        return false;
    };
    book.forget(id);
    pass.mine.settle(at);
    true
}
