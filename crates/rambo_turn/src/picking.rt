//! What a keeper does by itself.
ghost use Rattle.std.specs.Prelude.{◌≡◌, ℕ, [], Some, IfSome};
ghost use Rattle.rambo_run.specs.Runs.{run};
ghost use Rattle.rambo_node.specs.Acts.{Meant};
ghost use Rattle.rambo_run.specs.Steps.{meant_in};
ghost use Rattle.rambo_book.specs.Readying.{IsIn};
ghost use Rattle.rambo_turn.specs.Turns.{first_of, steps_of, IsQuiet};

use rambo_book::{Keeper, Terms};
use rambo_names::Quorums;
use rambo_pick::first_step;
use rambo_run::{Step, StepOf};
use rambo_tag::Replica;

/// The step that a keeper does by itself: the first that isn't refused of the delivery of each letter in the tray, the
/// oldest first, the advance of each open call, the oldest first, and the advances of its collection and its attempt.
///
/// It allocates nothing.
pub fn pick<J: Terms<Q>, Q: Quorums, S: Replica>(keeper: &Keeper<J, Q, S>) -> Option<Step<Q>>
    ensures first { (f : Q) → J.founders ≡ Some f → result ≡ first_of Q.system (run Q.system f keeper.now.seen) (steps_of keeper.now.node keeper.now.tray) }
    ensures own { (f : Q) → J.founders ≡ Some f → IfSome result (λ st. (m : Meant _) → meant_in [] st ≡ Some m → m.name ≡ keeper.now.name) }
    ensures in_tray { IfSome result (λ st. (number : ℕ) → st ≡ StepOf.Deliver number → IsIn keeper.now.tray number) }
    ensures quiet { IfSome result IsQuiet }
{
    keeper.facts();
    first_step(keeper.node(), keeper.tray())
}
