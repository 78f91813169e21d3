//! A step goes into the book, and its node takes it.
ghost use Rattle.std.specs.Prelude.{◌≡◌, ◌≢◌, ◌<◌, ℕ, ◌++◌, ◌∷◌, [], None, Some, false, length, option_to_list, OnOk, OnErr, IfOk, IfErr};
ghost use mathlib.Core.List.{IsPrefix};
ghost use Rattle.rambo_names.specs.Refusals.{IsRefusal};
ghost use Rattle.rambo_run.specs.Actors.{sent_by};
ghost use Rattle.rambo_run.specs.Runs.{run};
ghost use Rattle.rambo_run.specs.Steps.{refusal, turn};
ghost use Rattle.rambo_run.specs.Worlds.{node_at};
ghost use Rattle.rambo_book.specs.Kept.{IsServedBy, Told, state};
ghost use Rattle.rambo_book.specs.Windows.{delivers_gone, gone_of, refused_in};
ghost use Rattle.rambo_book.specs.Readying.{IsReadyIn, IsReadyFor};
ghost use Rattle.rambo_book.specs.Mailing.{waiting_after};
ghost use Rattle.rambo_book.specs.Records.{KeepsRecord};

use crate::book::Book;
use crate::finishing::finish;
use crate::first_half::share;
use crate::keeper::{Actor, Keeper};
use crate::letters::Letters;
use crate::readied::Ready;
use crate::record::Record;
use crate::terms::Terms;
use rambo_mail::{Mails, Posting};
use rambo_names::{Quorums, Refusal};
use rambo_node::Effect;
use rambo_roll::Stock;
use rambo_run::{Step, StepOf};
use rambo_tag::Replica;

/// Why a step of the keeper's node is refused, if it is: 25 where it delivers a letter that is gone; else what the rules of its
/// kind say, by the least number; else 23 where the book is full.
///
/// For a letter that is gone the keeper is any one.
pub fn may_commit<J: Terms<Q>, Q: Quorums, S: Replica>(
    book: &mut Book<J, Q>,
    keeper: &mut Keeper<J, Q, S>,
    step: &Step<Q>,
) -> Result<(), Refusal>
    requires { delivers_gone (gone_of J.endless J.capacity (state Q.system book.old)) step.now ≡ false → IsServedBy (state Q.system book.old) step.now keeper.old.name }
    ensures same { (book.new ≡ book.old) × (keeper.new ≡ keeper.old) }
    ensures legal { OnOk result (refusal Q.system (state Q.system book.old) step.now ≡ None) }
    ensures there { OnOk result (delivers_gone (gone_of J.endless J.capacity (state Q.system book.old)) step.now ≡ false) }
    ensures room { OnOk result (length book.old.steps < book.old.capacity) }
    ensures told { IfErr result (λ r. Told (refused_in Q.system J.endless J.capacity (state Q.system book.old) step.now) (length book.old.steps) book.old.capacity r) }
    ensures memory { IfErr result (λ r. r ≢ Refusal.OutOfMemory) }
{
    if book.has_gone(step) {
        return Err(Refusal::LetterGone);
    }
    judge(book, keeper, step)
}

// The same of a step that delivers no letter that is gone.
fn judge<J: Terms<Q>, Q: Quorums, S: Replica>(
    book: &mut Book<J, Q>,
    keeper: &mut Keeper<J, Q, S>,
    step: &Step<Q>,
) -> Result<(), Refusal>
    requires there { delivers_gone (gone_of J.endless J.capacity (state Q.system book.old)) step.now ≡ false }
    requires served { IsServedBy (state Q.system book.old) step.now keeper.old.name }
    ensures same { (book.new ≡ book.old) × (keeper.new ≡ keeper.old) }
    ensures legal { OnOk result (refusal Q.system (state Q.system book.old) step.now ≡ None) }
    ensures room { OnOk result (length book.old.steps < book.old.capacity) }
    ensures told { IfErr result (λ r. Told (refusal Q.system (state Q.system book.old) step.now) (length book.old.steps) book.old.capacity r) }
    ensures memory { IfErr result (λ r. r ≢ Refusal.OutOfMemory) }
{
    book.steps.agree(&mut keeper.holder);
    let letter = book.letters.named(step);
    if let Err(refusal) = keeper.node.judge(step, letter) {
        return Err(refusal);
    }
    if book.steps.len() >= book.capacity {
        return Err(Refusal::HistoryFull);
    }
    Ok(())
}

/// Does a step of the keeper's node, or refuses it.
///
/// At `Ok` the book has the step after the others, the keeper's node is that of their run, and the effect is the run's.
/// At `Err` both are as before. Refused with 25 exactly where the step delivers a letter that is gone, which a book that isn't
/// endless has none of; else with what the rules of the step's kind say, by the least number; else 23 exactly where the book is
/// full; else 22, where there is no room for the step. A letter that it sends asks for none in return.
///
/// The keeper is that of the step's node; for a letter that was never sent or is gone, any one.
pub fn commit<J: Terms<Q>, Q: Quorums, S: Replica>(
    book: &mut Book<J, Q>,
    keeper: &mut Keeper<J, Q, S>,
    step: Step<Q>,
) -> Result<Effect<Q>, Refusal>
    requires { delivers_gone (gone_of J.endless J.capacity (state Q.system book.old)) step ≡ false → IsServedBy (state Q.system book.old) step keeper.old.name }
    ensures legal { OnOk result (refusal Q.system (state Q.system book.old) step ≡ None) }
    ensures there { OnOk result (delivers_gone (gone_of J.endless J.capacity (state Q.system book.old)) step ≡ false) }
    ensures effect { IfOk result (λ e. e ≡ (turn (state Q.system book.old) step).effect) }
    ensures book { OnOk result (book.new ≡ record book.old { steps = book.old.steps ++ step ∷ []; waiting = book.new.waiting }) }
    ensures waiting { OnOk result (book.new.waiting ≡ waiting_after book.old (sent_by step) (gone_of J.endless J.capacity (state Q.system book.new)) (length (state Q.system book.new).letters)) }
    ensures keeper { OnOk result (keeper.new ≡ record keeper.old { node = keeper.new.node; room = keeper.new.room; beside = keeper.new.beside; seen = book.old.steps ++ step ∷ [] }) }
    ensures node { OnOk result (node_at (state Q.system book.new) keeper.old.name ≡ Some keeper.new.node) }
    ensures same { OnErr result ((book.new ≡ book.old) × (keeper.new ≡ record keeper.old { room = keeper.new.room })) }
    ensures told { IfErr result (λ r. Told (refused_in Q.system J.endless J.capacity (state Q.system book.old) step) (length book.old.steps) book.old.capacity r) }
    ensures bounded { J.endless ≡ false → IfErr result (λ r. Told (refusal Q.system (state Q.system book.old) step) (length book.old.steps) book.old.capacity r) }
{
    book.facts();
    if book.has_gone(&step) {
        return Err(Refusal::LetterGone);
    }
    commit_there(book, keeper, step)
}

// The same of a step that delivers no letter that is gone.
fn commit_there<J: Terms<Q>, Q: Quorums, S: Replica>(
    book: &mut Book<J, Q>,
    keeper: &mut Keeper<J, Q, S>,
    step: Step<Q>,
) -> Result<Effect<Q>, Refusal>
    requires there { delivers_gone (gone_of J.endless J.capacity (state Q.system book.old)) step ≡ false }
    requires served { IsServedBy (state Q.system book.old) step keeper.old.name }
    ensures legal { OnOk result (refusal Q.system (state Q.system book.old) step ≡ None) }
    ensures effect { IfOk result (λ e. e ≡ (turn (state Q.system book.old) step).effect) }
    ensures book { OnOk result (book.new ≡ record book.old { steps = book.old.steps ++ step ∷ []; waiting = book.new.waiting }) }
    ensures waiting { OnOk result (book.new.waiting ≡ waiting_after book.old (sent_by step) (gone_of J.endless J.capacity (state Q.system book.new)) (length (state Q.system book.new).letters)) }
    ensures keeper { OnOk result (keeper.new ≡ record keeper.old { node = keeper.new.node; room = keeper.new.room; beside = keeper.new.beside; seen = book.old.steps ++ step ∷ [] }) }
    ensures node { OnOk result (node_at (state Q.system book.new) keeper.old.name ≡ Some keeper.new.node) }
    ensures same { OnErr result ((book.new ≡ book.old) × (keeper.new ≡ record keeper.old { room = keeper.new.room })) }
    ensures told { IfErr result (λ r. Told (refusal Q.system (state Q.system book.old) step) (length book.old.steps) book.old.capacity r) }
{
    let ready = match ready_by_book(book, keeper, step) {
        Ok(ready) => ready,
        Err(cause) => return Err(unready(book, cause)),
    };
    enter(book, keeper, ready)
}

/// The second half of a step: it goes into the book, and the keeper's node changes. A letter that it sends waits for its
/// addressee, and asks for one in return where the step was made `asking`.
///
/// By its rules nothing is refused any more: 23 exactly where the book is full, else 22, where it has no room. Both are then
/// as before.
pub fn commit_ready<J: Terms<Q>, Q: Quorums, S: Replica>(
    book: &mut Book<J, Q>,
    keeper: &mut Keeper<J, Q, S>,
    ready: Ready<Q>,
) -> Result<Effect<Q>, Refusal>
    requires { IsReadyFor Q.system J.founders keeper.old ready }
    ensures between { IsPrefix keeper.old.seen book.old.steps }
    ensures legal { refusal Q.system (state Q.system book.old) ready.step ≡ None }
    ensures room { OnOk result (length book.old.steps < book.old.capacity) }
    ensures effect { IfOk result (λ e. e ≡ (turn (state Q.system book.old) ready.step).effect) }
    ensures book { OnOk result (book.new ≡ record book.old { steps = book.old.steps ++ ready.step ∷ []; waiting = book.new.waiting }) }
    ensures waiting { OnOk result (book.new.waiting ≡ waiting_after book.old (sent_by ready.step) (gone_of J.endless J.capacity (state Q.system book.new)) (length (state Q.system book.new).letters)) }
    ensures keeper { OnOk result (keeper.new ≡ record keeper.old { node = keeper.new.node; room = keeper.new.room; beside = keeper.new.beside; seen = book.old.steps ++ ready.step ∷ [] }) }
    ensures node { OnOk result (node_at (state Q.system book.new) keeper.old.name ≡ Some keeper.new.node) }
    ensures same { OnErr result ((book.new ≡ book.old) × (keeper.new ≡ keeper.old)) }
    ensures told { IfErr result (λ r. Told None (length book.old.steps) book.old.capacity r) }
{
    book.facts();
    book.agree(keeper);
    enter(book, keeper, ready)
}

// Why a step is refused whose first half was refused for this cause: 23 where that was want of memory, and the book is full.
fn unready<J: Terms<Q>, Q: Quorums>(book: &Book<J, Q>, cause: Refusal) -> Refusal
    ensures rule { cause ≢ Refusal.OutOfMemory → result ≡ cause }
    ensures memory { cause ≡ Refusal.OutOfMemory → Told None (length book.now.steps) book.now.capacity result }
{
    match cause {
        Refusal::OutOfMemory => book.no_room(),
        _ => cause,
    }
}

// The first half of a step of the keeper's node, with the letter from the book.
fn ready_by_book<J: Terms<Q>, Q: Quorums, S: Replica>(
    book: &mut Book<J, Q>,
    keeper: &mut Keeper<J, Q, S>,
    step: Step<Q>,
) -> Result<Ready<Q>, Refusal>
    requires there { delivers_gone (gone_of J.endless J.capacity (state Q.system book.old)) step ≡ false }
    requires served { IsServedBy (state Q.system book.old) step keeper.old.name }
    ensures legal { OnOk result (refusal Q.system (state Q.system book.old) step ≡ None) }
    ensures same { (book.new ≡ book.old) × (keeper.new ≡ record keeper.old { room = keeper.new.room }) }
    ensures step { IfOk result (λ r. r.step ≡ step) }
    ensures ready { IfOk result (IsReadyIn Q.system (state Q.system book.old) keeper.new) }
    ensures refused { IfErr result (IsRefusal (refusal Q.system (state Q.system book.old) step)) }
    ensures memory { IfErr result (λ r. r ≡ Refusal.OutOfMemory → refusal Q.system (state Q.system book.old) step ≡ None) }
{
    book.steps.agree(&mut keeper.holder);
    let alloc = book.allocator();
    let letter = book.letters.named(&step);
    let half = keeper
        .node
        .begin(alloc, &mut keeper.workspace, &step, letter)?;
    let letter = share(letter)?;
    Ok(Ready {
        step,
        half,
        letter,
        asks: false,
    })
}

// A step whose first half is made goes into the book, and the node changes.
fn enter<J: Terms<Q>, Q: Quorums, S: Replica>(
    book: &mut Book<J, Q>,
    keeper: &mut Keeper<J, Q, S>,
    ready: Ready<Q>,
) -> Result<Effect<Q>, Refusal>
    requires { IsReadyIn Q.system (state Q.system book.old) keeper.old ready }
    ensures room { OnOk result (length book.old.steps < book.old.capacity) }
    ensures effect { IfOk result (λ e. e ≡ (turn (state Q.system book.old) ready.step).effect) }
    ensures book { OnOk result (book.new ≡ record book.old { steps = book.old.steps ++ ready.step ∷ []; waiting = book.new.waiting }) }
    ensures waiting { OnOk result (book.new.waiting ≡ waiting_after book.old (sent_by ready.step) (gone_of J.endless J.capacity (state Q.system book.new)) (length (state Q.system book.new).letters)) }
    ensures keeper { OnOk result (keeper.new ≡ record keeper.old { node = keeper.new.node; room = keeper.new.room; beside = keeper.new.beside; seen = book.old.steps ++ ready.step ∷ [] }) }
    ensures node { OnOk result (node_at (state Q.system book.new) keeper.old.name ≡ Some keeper.new.node) }
    ensures same { OnErr result ((book.new ≡ book.old) × (keeper.new ≡ keeper.old)) }
    ensures told { IfErr result (λ r. Told None (length book.old.steps) book.old.capacity r) }
{
    let Book {
        steps,
        founders: _,
        letters,
        kept,
        mails,
        passes: _,
        capacity,
        ahead,
    } = book;
    let Ready {
        step,
        half,
        letter,
        asks,
    } = ready;
    steps.agree(&mut keeper.holder);
    if steps.len() >= *capacity {
        return Err(Refusal::HistoryFull);
    }
    if steps.at_hand() >= *ahead {
        return Err(Refusal::OutOfMemory);
    }
    let Ok(()) = make_room(steps, letters, kept, mails, &step) else {
        return Err(Refusal::OutOfMemory);
    };
    let posting = Posting::new(&step, asks);
    let came = delivered(&step);
    let effect = finish(
        letters,
        kept,
        &mut keeper.node,
        &mut keeper.workspace,
        letter.as_ref(),
        half,
    );
    letters.leave_out_copies(came);
    letters.trim();
    mails.post(&posting, letters.sent(), letters.gone());
    steps.add(&mut keeper.holder, step);
    Ok(effect)
}

// Takes room for one more of each.
fn make_room<J: Terms<Q>, Q: Quorums>(
    steps: &mut Stock<J, Step<Q>, Actor>,
    letters: &mut Letters<Q>,
    kept: &mut Record,
    mails: &mut Mails,
    step: &Step<Q>,
) -> Result<(), Refusal>
    ensures same { (steps.new ≡ record steps.old { room = steps.new.room }) × (letters.new ≡ record letters.old { room = letters.new.room }) × KeepsRecord kept.old kept.new × (mails.new ≡ record mails.old { ready = mails.new.ready }) }
    ensures ready { OnOk result (option_to_list mails.new.ready ≡ sent_by step.now) }
    ensures room { OnOk result ((0 < steps.new.room) × (0 < letters.new.room) × (0 < kept.new.room)) }
{
    mails.make_room(step)?;
    steps.reserve()?;
    letters.reserve()?;
    kept.make_room(step)
}

// The number of the letter that a step lets come, if it lets one come.
fn delivered<Q: Quorums>(step: &Step<Q>) -> Option<u64>
    ensures { (number : ℕ) → result ≡ Some number → step.now ≡ StepOf.Deliver number }
{
    match step {
        Step::Deliver(number) => Some(*number),
        _ => None,
    }
}
