//! The first half of a step, which needs no book.
ghost use Rattle.std.specs.Prelude.{◌≡◌, ℕ, [], Some, IfOk, IfErr};
ghost use Rattle.std.specs.Option.{option_copied};
ghost use Rattle.rambo_names.specs.Refusals.{IsRefusal};
ghost use Rattle.rambo_run.specs.Runs.{run};
ghost use Rattle.rambo_node.specs.Acts.{Meant};
ghost use Rattle.rambo_run.specs.Steps.{meant_in, refusal};
ghost use Rattle.rambo_book.specs.Readying.{IsIn, mail_in, came_in, IsReadyFor};

use crate::keeper::Keeper;
use crate::readied::Ready;
use crate::terms::Terms;
use rambo_gossip::Letter;
use rambo_mail::Mail;
use rambo_names::{Quorums, Refusal};
use rambo_run::{Step, StepOf};
use rambo_tag::Replica;
use std::alloc::Global;

/// The first half of a step of the keeper's node: it is judged by what the keeper has seen, room is made in the node, and what
/// it will do is found. A letter that is delivered is one of the tray, and is brought along: it stays deliverable though the
/// book doesn't keep it any more.
///
/// Its letter asks for none in return, if it sends one, unless it is made `asking`.
///
/// In either case the node itself is unchanged. Refused with what the rules of the step's kind say, by the least
/// number; else 22, where there is no room for what it makes new.
pub fn ready<J: Terms<Q>, Q: Quorums, S: Replica>(
    alloc: Global,
    keeper: &mut Keeper<J, Q, S>,
    step: Step<Q>,
) -> Result<Ready<Q>, Refusal>
    requires own { (f : Q) → J.founders ≡ Some f → (m : Meant _) → meant_in [] step ≡ Some m → m.name ≡ keeper.old.name }
    requires in_tray { (number : ℕ) → step ≡ StepOf.Deliver number → IsIn keeper.old.tray number }
    ensures same { keeper.new ≡ record keeper.old { room = keeper.new.room } }
    ensures step { IfOk result (λ r. r.step ≡ step) }
    ensures ready { IfOk result (IsReadyFor Q.system J.founders keeper.new) }
    ensures refused { (f : Q) → J.founders ≡ Some f → IfErr result (IsRefusal (refusal Q.system (run Q.system f keeper.old.seen) step)) }
{
    let letter = letter_in(keeper.tray.as_slice(), &step);
    let half = keeper
        .node
        .begin(alloc, &mut keeper.workspace, &step, letter)?;
    let letter = share(letter)?;
    Ok(Ready {
        step,
        half,
        letter,
        asks: false,
    })
}

// One that is shared, if there is one.
pub(crate) fn share<Q: Quorums>(letter: Option<&Letter<Q>>) -> Result<Option<Letter<Q>>, Refusal>
    ensures same { IfOk result (λ l. l ≡ option_copied letter.entry) }
    ensures refused { IfErr result (λ r. r ≡ Refusal.OutOfMemory) }
{
    match letter {
        Some(letter) => Ok(Some(letter.clone()?)),
        None => Ok(None),
    }
}

// The letter of a tray that a step lets come, if it lets one come that is there.
fn letter_in<'a, Q: Quorums>(tray: &'a [Mail<Q>], step: &Step<Q>) -> Option<&'a Letter<Q>>
    ensures { option_copied result ≡ came_in tray.now step.now }
{
    match step {
        Step::Deliver(number) => mail_of(tray, *number),
        _ => None,
    }
}

// The oldest letter of this number in a tray, if there is one.
fn mail_of<Q: Quorums>(tray: &[Mail<Q>], number: u64) -> Option<&Letter<Q>>
    ensures { option_copied result ≡ mail_in tray.now number }
{
    let mut rest = tray;
    while let Some((mail, others)) = rest.split_first() {
        if mail.number == number {
            return Some(&mail.letter);
        }
        rest = others;
    }
    None
}
