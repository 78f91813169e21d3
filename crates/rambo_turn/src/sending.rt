//! A letter is sent.
ghost use Rattle.std.specs.Prelude.{◌≡◌, ◌<◌, ◌≤◌, ◌++◌, ◌∷◌, [], Option, None, Some, false, length, OnOk, OnErr, IfOk, IfErr};
ghost use Rattle.rambo_run.specs.Legal.{IsLegal};
ghost use Rattle.rambo_run.specs.Steps.{refusal, turn};
ghost use Rattle.rambo_book.specs.Readying.{IsReadyFor};
ghost use Rattle.rambo_book.specs.Kept.{IsServedBy, KeeperView, Told, state};
ghost use Rattle.rambo_book.specs.Mailing.{waiting_after};
ghost use Rattle.rambo_book.specs.Windows.{delivers_gone, gone_of};

use rambo_book::{Book, Keeper, Ready, Terms, commit_ready, may_commit};
use rambo_names::{Name, Quorums, Refusal};
use rambo_node::Effect;
use rambo_run::{Step, StepOf};
use rambo_tag::Replica;

// Why a step that delivers no letter that is gone is refused, of which the first half was: what the rules of its kind
// say, by the least number; else 23 where the book is full; else 22.
fn why_not<J: Terms<Q>, Q: Quorums, S: Replica>(
    book: &mut Book<J, Q>,
    keeper: &mut Keeper<J, Q, S>,
    step: &Step<Q>,
) -> Refusal
    requires there { delivers_gone (gone_of J.endless J.capacity (state Q.system book.old)) step.now ≡ false }
    requires served { IsServedBy (state Q.system book.old) step.now keeper.old.name }
    ensures same { (book.new ≡ book.old) × (keeper.new ≡ keeper.old) }
    ensures told { Told (refusal Q.system (state Q.system book.old) step.now) (length book.old.steps) book.old.capacity result }
{
    match may_commit(book, keeper, step) {
        Err(refusal) => refusal,
        Ok(()) => Refusal::OutOfMemory,
    }
}

// The same step, whose letter asks for one in return or doesn't.
fn asking_if<Q: Quorums>(ready: Ready<Q>, asks: bool) -> Ready<Q>
    ensures step { result.step ≡ ready.step }
    ensures ready { (agreed : Option Q) (k : KeeperView Q) → IsReadyFor Q.system agreed k ready → IsReadyFor Q.system agreed k result }
{
    if asks { ready.asking() } else { ready }
}

/// Sends a letter from the keeper's node to another, of which the first half was made, or refused: its number. Whether it asks
/// for one in return is given.
///
/// Refused with what the rules of a send say, by the least number; else 23 where the book is full; else 22.
pub fn send_in<J: Terms<Q>, Q: Quorums, S: Replica>(
    book: &mut Book<J, Q>,
    keeper: &mut Keeper<J, Q, S>,
    from: Name,
    to: Name,
    asks: bool,
    ready: Result<Ready<Q>, Refusal>,
) -> Result<u64, Refusal>
    requires name { keeper.old.name ≡ from }
    requires step { IfOk ready (λ r. r.step ≡ StepOf.Send from to) }
    requires ready { IfOk ready (IsReadyFor Q.system J.founders keeper.old) }
    ensures terms { (J.founders ≡ Some book.old.founders) × (book.old.capacity ≡ J.capacity) }
    ensures before { IsLegal Q.system book.old.founders book.old.steps }
    ensures fits { length book.old.steps ≤ book.old.capacity }
    ensures accepted { OnOk result (refusal Q.system (state Q.system book.old) (StepOf.Send from to) ≡ None) }
    ensures room { OnOk result (length book.old.steps < book.old.capacity) }
    ensures effect { IfOk result (λ number. Effect.Sent number ≡ (turn (state Q.system book.old) (StepOf.Send from to)).effect) }
    ensures book { OnOk result (book.new ≡ record book.old { steps = book.old.steps ++ StepOf.Send from to ∷ []; waiting = waiting_after book.old (to ∷ []) (gone_of J.endless J.capacity (state Q.system book.new)) (length (state Q.system book.new).letters) }) }
    ensures same { OnErr result ((book.new ≡ book.old) × (keeper.new ≡ keeper.old)) }
    ensures told { IfErr result (λ r. Told (refusal Q.system (state Q.system book.old) (StepOf.Send from to)) (length book.old.steps) book.old.capacity r) }
{
    book.facts();
    let Ok(ready) = ready else {
        return Err(why_not(book, keeper, &Step::Send(from, to)));
    };
    match commit_ready(book, keeper, asking_if(ready, asks))? {
        Effect::Sent(number) => Ok(number),
        _ => unreachable!(),
    }
}
