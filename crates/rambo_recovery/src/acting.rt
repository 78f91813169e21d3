//! A step that delivers no letter is taken.
ghost use Rattle.std.specs.Prelude.{◌≡◌, ◌<◌, ◌⊎◌, ◌+◌, ◌++◌, ◌∷◌, [], ℕ, None, Some, true, length, slice_get, option_to_list, OnOk, OnErr, IfOk, IfErr};
ghost use Rattle.rambo_run.specs.Actors.{sent_by};
ghost use Rattle.rambo_node.specs.Steps.{delivered_by};
ghost use Rattle.rambo_run.specs.Steps.{meant_in, refusal};
ghost use Rattle.rambo_mail.specs.Waiting.{waiting_for};
ghost use Rattle.rambo_node.specs.Acts.{name_in};
ghost use Rattle.rambo_book.specs.Kept.{Told, state};
ghost use Rattle.rambo_book.specs.Mailing.{comes_to, waiting_after};
ghost use Rattle.rambo_book.specs.Readying.{IsIn};
ghost use Rattle.rambo_book.specs.Windows.{gone_of};
ghost use Rattle.rambo_pass.specs.Passes.{HasStopped};
ghost use Rattle.rambo_recovery.specs.Recoveries.{AreHeld, AreNamed};

use crate::founding::Keepers;
use rambo_book::{Book, Keeper, Terms, commit};
use rambo_names::{Name, Quorums, Refusal};
use rambo_node::Effect;
use rambo_pass::named;
use rambo_run::Step;
use rambo_tag::Replica;
use rambo_turn::begin_in;

/// The place of a name among the 64.
pub(crate) fn place_of(name: Name) -> usize
    ensures within { result < 64 }
    ensures next { result + 1 ≡ name }
{
    name.number() as usize - 1
}

// Whom the letter is for that a step sends, if it sends one.
fn addressee_of<Q: Quorums>(step: &Step<Q>) -> Option<Name>
    ensures { option_to_list result ≡ sent_by step.now }
{
    match step {
        Step::Send(_, to) => Some(*to),
        _ => None,
    }
}

/// Takes a step that delivers no letter. A letter that it sends goes to its addressee's tray at once, and nothing is kept of a
/// call, for whose answer nobody waits. Whether there was room for the letter there, if it sends one.
///
/// Refused with what the rules of its kind say, by the least number; else 23 where the book is full; else 22 where there is no
/// room for the step.
pub(crate) fn act<J: Terms<Q>, Q: Quorums, S: Replica>(
    book: &mut Book<J, Q>,
    keepers: &mut Keepers<J, Q, S>,
    step: Step<Q>,
) -> Result<bool, Refusal>
    requires endless { J.endless ≡ true }
    requires delivers { delivered_by step ≡ None }
    requires lists { length book.old.waiting ≡ 64 }
    requires many { length keepers.old.all.items ≡ 64 }
    requires named { AreNamed keepers.old.all.items }
    ensures lists { length book.new.waiting ≡ 64 }
    ensures many { length keepers.new.all.items ≡ 64 }
    ensures named { AreNamed keepers.new.all.items }
    ensures accepted { OnOk result (refusal Q.system (state Q.system book.old) step ≡ None) }
    ensures book { OnOk result (book.new ≡ record book.old { steps = book.old.steps ++ step ∷ []; waiting = book.new.waiting }) }
    ensures held { IfOk result (λ has_room. has_room ≡ true → AreHeld Q.system book.old keepers.old.all.items → AreHeld Q.system book.new keepers.new.all.items) }
    ensures same { OnErr result (book.new ≡ book.old) }
    ensures trays { OnErr result (AreHeld Q.system book.old keepers.old.all.items → AreHeld Q.system book.new keepers.new.all.items) }
    ensures told { IfErr result (λ r. Told (refusal Q.system (state Q.system book.old) step) (length book.old.steps) book.old.capacity r) }
{
    book.facts();
    let Some(name) = named(&step) else {
        unreachable!()
    };
    let to = addressee_of(&step);
    commit_uncalled(book, &mut keepers.all[place_of(name)], step)?;
    match to {
        Some(to) => Ok(fetch(book, &mut keepers.all[place_of(to)])),
        None => Ok(true),
    }
}

// Does a step of the keeper's node, or refuses it. Nothing is kept of a call.
fn commit_uncalled<J: Terms<Q>, Q: Quorums, S: Replica>(
    book: &mut Book<J, Q>,
    keeper: &mut Keeper<J, Q, S>,
    step: Step<Q>,
) -> Result<(), Refusal>
    requires delivers { delivered_by step ≡ None }
    requires own { name_in (meant_in [] step) ≡ Some keeper.old.name }
    ensures name { keeper.new.name ≡ keeper.old.name }
    ensures tray { keeper.new.tray ≡ keeper.old.tray }
    ensures accepted { OnOk result (refusal Q.system (state Q.system book.old) step ≡ None) }
    ensures book { OnOk result (book.new ≡ record book.old { steps = book.old.steps ++ step ∷ []; waiting = book.new.waiting }) }
    ensures waiting { OnOk result (book.new.waiting ≡ waiting_after book.old (sent_by step) (gone_of J.endless J.capacity (state Q.system book.new)) (length (state Q.system book.new).letters)) }
    ensures same { OnErr result (book.new ≡ book.old) }
    ensures told { IfErr result (λ r. Told (refusal Q.system (state Q.system book.old) step) (length book.old.steps) book.old.capacity r) }
{
    let effect = commit(book, keeper, step)?;
    forget_call(book, &effect);
    Ok(())
}

// Nothing needs be kept of a call that was made.
fn forget_call<J: Terms<Q>, Q: Quorums>(book: &mut Book<J, Q>, effect: &Effect<Q>)
    ensures { book.new ≡ book.old }
{
    if let Effect::Called(id) = effect {
        book.forget(id);
    }
}

// The keeper takes its mail, if its node hasn't stopped. Whether there was room for all of it.
fn fetch<J: Terms<Q>, Q: Quorums, S: Replica>(
    book: &mut Book<J, Q>,
    keeper: &mut Keeper<J, Q, S>,
) -> bool
    ensures book { book.new ≡ record book.old { waiting = book.new.waiting } }
    ensures lists { length book.new.waiting ≡ length book.old.waiting }
    ensures name { keeper.new.name ≡ keeper.old.name }
    ensures kept { (number : ℕ) → IsIn keeper.old.tray number → IsIn keeper.new.tray number }
    ensures come { result ≡ true → (place number : ℕ) → slice_get (waiting_for book.old.waiting keeper.old.name) place ≡ Some number → comes_to (state Q.system book.old) (gone_of J.endless J.capacity (state Q.system book.old)) keeper.old.name number ≡ true → HasStopped (state Q.system book.old) keeper.old.name ⊎ IsIn keeper.new.tray number }
{
    book.agree(keeper);
    match begin_in(book, keeper) {
        Ok(()) => true,
        Err(_) => false,
    }
}
