//! A delivery is taken.
ghost use Rattle.std.specs.Bool.{MatchBool};
ghost use Rattle.std.specs.Prelude.{◌≡◌, ◌≢◌, ◌<◌, ◌⊎◌, ◌++◌, ◌∷◌, [], ℕ, None, Some, true, false, length, slice_get, All, MatchOption, OnOk, OnErr, IfErr, IfSome};
ghost use Rattle.rambo_run.specs.Steps.{refusal};
ghost use Rattle.rambo_run.specs.Worlds.{letter_at};
ghost use Rattle.rambo_book.specs.Kept.{IsServedBy, KeeperView, Told, state};
ghost use Rattle.rambo_book.specs.Mailing.{without};
ghost use Rattle.rambo_book.specs.Readying.{IsIn};
ghost use Rattle.rambo_book.specs.Windows.{gone_of, is_gone};
ghost use Rattle.rambo_recovery.specs.Recoveries.{AreHeld, AreNamed, IsGoneSo, IsInSome};

use crate::acting::place_of;
use crate::founding::Keepers;
use rambo_book::{Book, Keeper, Terms, commit, commit_ready, ready, see_all};
use rambo_mail::Mail;
use rambo_names::{Name, Quorums, Refusal};
use rambo_run::{Step, StepOf};
use rambo_tag::Replica;

/// Delivers the letter of a number, which leaves its tray: the book's where it keeps that, else the one of a tray.
///
/// Refused with what the rules of a delivery say, by the least number; else 23 where the book is full; else 22 where there is no
/// room for the step. Where the letter was sent, and neither the book nor a tray has it, it is refused with 25, or with 22 where
/// there was no room for some letter in its tray.
pub(crate) fn deliver<J: Terms<Q>, Q: Quorums, S: Replica>(
    book: &mut Book<J, Q>,
    keepers: &mut Keepers<J, Q, S>,
    number: u64,
    is_short: bool,
) -> Result<(), Refusal>
    requires many { length keepers.old.all.items ≡ 64 }
    requires named { AreNamed keepers.old.all.items }
    ensures many { length keepers.new.all.items ≡ 64 }
    ensures named { AreNamed keepers.new.all.items }
    ensures accepted { OnOk result (refusal Q.system (state Q.system book.old) (StepOf.Deliver number) ≡ None) }
    ensures book { OnOk result (book.new ≡ record book.old { steps = book.old.steps ++ StepOf.Deliver number ∷ [] }) }
    ensures held { AreHeld Q.system book.old keepers.old.all.items → AreHeld Q.system book.new keepers.new.all.items }
    ensures same { OnErr result (book.new ≡ book.old) }
    ensures told { IfErr result (λ r. Told (refusal Q.system (state Q.system book.old) (StepOf.Deliver number)) (length book.old.steps) book.old.capacity r
        ⊎ ((is_gone (gone_of J.endless J.capacity (state Q.system book.old)) number ≡ true) × (IsInSome keepers.old.all.items number → ⊥) × IsGoneSo is_short r)) }
{
    book.facts();
    if let Some(name) = addressee_in(book, number) {
        return deliver_kept(book, &mut keepers.all[place_of(name)], number);
    }
    if let Some(place) = place_with(keepers.all.as_slice(), number) {
        return deliver_held(book, &mut keepers.all[place], number);
    }
    if is_gone_in(book, number) {
        return Err(gone_so(is_short));
    }
    deliver_kept(book, &mut keepers.all[0], number)
}

// Whether the letter of a number was sent, and the book doesn't keep it any more.
fn is_gone_in<J: Terms<Q>, Q: Quorums>(book: &Book<J, Q>, number: u64) -> bool
    ensures { result ≡ is_gone (gone_of J.endless J.capacity (state Q.system book.now)) number }
{
    let gone = book.letters_sent() - book.letters_kept();
    number != 0 && number as usize <= gone
}

// Why a letter can't be delivered that neither the book nor a tray has: it is gone, or there was no room for some letter.
fn gone_so(is_short: bool) -> Refusal
    ensures { IsGoneSo is_short result }
{
    if is_short {
        Refusal::OutOfMemory
    } else {
        Refusal::LetterGone
    }
}

// Whom the letter of a number is for, if the book keeps it.
fn addressee_in<J: Terms<Q>, Q: Quorums>(book: &Book<J, Q>, number: u64) -> Option<Name>
    ensures kept { IfSome result (IsServedBy (state Q.system book.now) (StepOf.Deliver number)) }
    ensures there { IfSome result (λ _. is_gone (gone_of J.endless J.capacity (state Q.system book.now)) number ≡ false) }
    ensures none { result ≡ None → is_gone (gone_of J.endless J.capacity (state Q.system book.now)) number ≡ false → letter_at (state Q.system book.now).letters number ≡ None }
{
    match book.letter(number) {
        Some(letter) => Some(letter.addressee()),
        None => None,
    }
}

// The place of a keeper whose tray has the letter of a number, if there is one.
fn place_with<J: Terms<Q>, Q: Quorums, S: Replica>(
    keepers: &[Keeper<J, Q, S>],
    number: u64,
) -> Option<usize>
    ensures { MatchOption result (IsInSome keepers.now number → ⊥) (λ place. (place < length keepers.now) × ((k : KeeperView Q) → slice_get keepers.now place ≡ Some k → IsIn k.tray number)) }
{
    for place in 0..keepers.len() {
        if is_in(keepers[place].tray(), number) {
            return Some(place);
        }
    }
    None
}

// Whether a letter of a number is in a tray.
fn is_in<Q: Quorums>(tray: &[Mail<Q>], number: u64) -> bool
    ensures { MatchBool result (IsIn tray.now number) (IsIn tray.now number → ⊥) }
{
    for place in 0..tray.len() {
        if tray[place].number == number {
            return true;
        }
    }
    false
}

// Delivers the letter that the book keeps, or refuses a delivery of one that was never sent.
fn deliver_kept<J: Terms<Q>, Q: Quorums, S: Replica>(
    book: &mut Book<J, Q>,
    keeper: &mut Keeper<J, Q, S>,
    number: u64,
) -> Result<(), Refusal>
    requires there { is_gone (gone_of J.endless J.capacity (state Q.system book.old)) number ≡ false }
    requires served { IsServedBy (state Q.system book.old) (StepOf.Deliver number) keeper.old.name }
    ensures name { keeper.new.name ≡ keeper.old.name }
    ensures accepted { OnOk result (refusal Q.system (state Q.system book.old) (StepOf.Deliver number) ≡ None) }
    ensures book { OnOk result (book.new ≡ record book.old { steps = book.old.steps ++ StepOf.Deliver number ∷ [] }) }
    ensures tray { OnOk result (keeper.new.tray ≡ without keeper.old.tray number) }
    ensures same { OnErr result ((book.new ≡ book.old) × (keeper.new.tray ≡ keeper.old.tray)) }
    ensures told { IfErr result (λ r. Told (refusal Q.system (state Q.system book.old) (StepOf.Deliver number)) (length book.old.steps) book.old.capacity r) }
{
    commit(book, keeper, Step::Deliver(number))?;
    keeper.forget(number);
    Ok(())
}

// Delivers the letter that is in the keeper's tray, though the book may not keep it any more.
fn deliver_held<J: Terms<Q>, Q: Quorums, S: Replica>(
    book: &mut Book<J, Q>,
    keeper: &mut Keeper<J, Q, S>,
    number: u64,
) -> Result<(), Refusal>
    requires { IsIn keeper.old.tray number }
    ensures name { keeper.new.name ≡ keeper.old.name }
    ensures accepted { OnOk result (refusal Q.system (state Q.system book.old) (StepOf.Deliver number) ≡ None) }
    ensures book { OnOk result (book.new ≡ record book.old { steps = book.old.steps ++ StepOf.Deliver number ∷ [] }) }
    ensures tray { OnOk result (keeper.new.tray ≡ without keeper.old.tray number) }
    ensures same { OnErr result ((book.new ≡ book.old) × (keeper.new.tray ≡ keeper.old.tray)) }
    ensures told { IfErr result (λ r. Told (refusal Q.system (state Q.system book.old) (StepOf.Deliver number)) (length book.old.steps) book.old.capacity r) }
{
    book.facts();
    see_all(book, keeper);
    let half = match ready(book.allocator(), keeper, Step::Deliver(number)) {
        Ok(half) => half,
        Err(cause) => return Err(unready(book, cause)),
    };
    commit_ready(book, keeper, half)?;
    keeper.forget(number);
    Ok(())
}

// Why a step is refused whose first half was refused for this cause: 23 where that was want of memory, and the book is full.
fn unready<J: Terms<Q>, Q: Quorums>(book: &Book<J, Q>, cause: Refusal) -> Refusal
    ensures rule { cause ≢ Refusal.OutOfMemory → result ≡ cause }
    ensures memory { cause ≡ Refusal.OutOfMemory → Told None (length book.now.steps) book.now.capacity result }
{
    match cause {
        Refusal::OutOfMemory => book.no_room(),
        _ => cause,
    }
}
