//! A turn: what a keeper does by itself.
ghost use Rattle.std.specs.Prelude.{◌≡◌, ◌<◌, ℕ, None, Some, length, option_map, OnOk, OnErr, IfOk, IfErr, IfSome};
ghost use mathlib.Core.List.{IsPrefix};
ghost use Rattle.rambo_run.specs.Legal.{IsLegal};
ghost use Rattle.rambo_run.specs.Steps.{refusal};
ghost use Rattle.rambo_run.specs.Worlds.{node_at};
ghost use Rattle.rambo_book.specs.Readying.{IsReadyFor};
ghost use Rattle.rambo_book.specs.Kept.{Told, state};
ghost use Rattle.rambo_book.specs.Mailing.{AreTaken, all_for};
ghost use Rattle.rambo_book.specs.Windows.{gone_of};
ghost use Rattle.rambo_turn.specs.Turns.{cleared, informed, longer, mailed, next_of, IsQuiet};
ghost use Rattle.rambo_node.specs.Steps.{Step};

use crate::picking::pick;
use rambo_book::{Book, Keeper, Ready, Terms, commit_ready, ready, see_all, take_mail};
use rambo_names::{Quorums, Refusal};
use rambo_run::Step;
use rambo_tag::Replica;
use std::alloc::Global;

/// What a turn did.
#[derive(Drop)]
pub enum Turn<Q: Quorums> {
    /// This step.
    Did(Step<Q>),
    /// There was nothing to do.
    Nothing,
}

/// A turn begins: the keeper has seen all steps, and takes its mail, but for letters that are gone. A node that has stopped
/// hears nothing more, and leaves it.
///
/// `OutOfMemory` where there is no room for a letter; those before it were taken, and the others wait.
pub fn begin_in<J: Terms<Q>, Q: Quorums, S: Replica>(
    book: &mut Book<J, Q>,
    keeper: &mut Keeper<J, Q, S>,
) -> Result<(), Refusal>
    ensures book { book.new ≡ mailed book.old book.new.waiting }
    ensures keeper { keeper.new ≡ informed book.old keeper.old keeper.new.tray }
    ensures all { OnOk result (AreTaken (state Q.system book.old) (gone_of J.endless J.capacity (state Q.system book.old)) keeper.old.name (all_for keeper.old book.old.waiting) book.old.waiting book.new.waiting keeper.old.tray keeper.new.tray) }
    ensures some { OnErr result ((count : ℕ) × (count < all_for keeper.old book.old.waiting) × AreTaken (state Q.system book.old) (gone_of J.endless J.capacity (state Q.system book.old)) keeper.old.name count book.old.waiting book.new.waiting keeper.old.tray keeper.new.tray) }
    ensures refused { IfErr result (λ r. r ≡ Refusal.OutOfMemory) }
{
    see_all(book, keeper);
    take_mail(book, keeper)
}

/// The first half of what the keeper picks, by what it has seen: it needs no book. None where there is nothing to do.
///
/// `OutOfMemory` where there is something to do, and no room for it in the node.
pub fn ready_next<J: Terms<Q>, Q: Quorums, S: Replica>(
    alloc: Global,
    keeper: &mut Keeper<J, Q, S>,
) -> Result<Option<Ready<Q>>, Refusal>
    ensures same { keeper.new ≡ record keeper.old { room = keeper.new.room } }
    ensures picked { IfOk result (λ r. (f : Q) → J.founders ≡ Some f → option_map (λ r. r.step) r ≡ next_of Q.system f keeper.old) }
    ensures quiet { IfOk result (λ r. IfSome r (λ r. IsQuiet r.step)) }
    ensures ready { IfOk result (λ r. IfSome r (IsReadyFor Q.system J.founders keeper.new)) }
    ensures something { OnErr result ((st : Step Q) × ((f : Q) → J.founders ≡ Some f → Some st ≡ next_of Q.system f keeper.old)) }
    ensures refused { IfErr result (λ r. r ≡ Refusal.OutOfMemory) }
{
    let Some(step) = pick(keeper) else {
        return Ok(None);
    };
    match ready(alloc, keeper, step) {
        Ok(ready) => Ok(Some(ready)),
        Err(_) => Err(Refusal::OutOfMemory),
    }
}

// The letter that was delivered leaves the tray.
fn clear_up<J: Terms<Q>, Q: Quorums, S: Replica>(keeper: &mut Keeper<J, Q, S>, step: &Step<Q>)
    ensures { keeper.new ≡ record keeper.old { tray = cleared keeper.old.tray step.now } }
{
    if let Step::Deliver(number) = step {
        keeper.forget(*number);
    }
}

/// The second half of what the keeper picked, a turn's end. A letter that came leaves its tray, once where it is there twice.
///
/// `HistoryFull` where the book is full, else `OutOfMemory` where it has no room for the step; book and keeper are then
/// unchanged.
pub fn commit_next<J: Terms<Q>, Q: Quorums, S: Replica>(
    book: &mut Book<J, Q>,
    keeper: &mut Keeper<J, Q, S>,
    ready: Ready<Q>,
) -> Result<Turn<Q>, Refusal>
    requires ready { IsReadyFor Q.system J.founders keeper.old ready }
    requires quiet { IsQuiet ready.step }
    ensures terms { (J.founders ≡ Some book.old.founders) × (book.old.capacity ≡ J.capacity) }
    ensures before { IsLegal Q.system book.old.founders book.old.steps }
    ensures between { IsPrefix keeper.old.seen book.old.steps }
    ensures room { OnOk result (length book.old.steps < book.old.capacity) }
    ensures did { IfOk result (λ t. t ≡ Turn.Did ready.step) }
    ensures legal { OnOk result (refusal Q.system (state Q.system book.old) ready.step ≡ None) }
    ensures book { OnOk result (book.new ≡ longer book.old ready.step) }
    ensures keeper { OnOk result (keeper.new ≡ record keeper.old { node = keeper.new.node; room = keeper.new.room; beside = keeper.new.beside; tray = cleared keeper.old.tray ready.step; seen = book.new.steps }) }
    ensures node { OnOk result (node_at (state Q.system book.new) keeper.old.name ≡ Some keeper.new.node) }
    ensures same { OnErr result ((book.new ≡ book.old) × (keeper.new ≡ keeper.old)) }
    ensures told { IfErr result (λ r. Told None (length book.old.steps) book.old.capacity r) }
{
    book.facts();
    let Ok(told) = ready.step.clone() else {
        // (what it picks has no bytes, so that this can't fail)
        unreachable!();
    };
    commit_ready(book, keeper, ready)?;
    clear_up(keeper, &told);
    Ok(Turn::Did(told))
}
