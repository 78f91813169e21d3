//! Whose step a step is.
ghost use Rattle.std.specs.Prelude.{◌≡◌, []};
ghost use Rattle.rambo_node.specs.Acts.{name_in};
ghost use Rattle.rambo_run.specs.Steps.{meant_in};

use rambo_names::{Name, Quorums};
use rambo_run::Step;

/// The node whose step a step is, by what it says itself. None for a delivery: the book knows the letter's addressee.
pub fn named<Q: Quorums>(step: &Step<Q>) -> Option<Name>
    ensures { result ≡ name_in (meant_in [] step.now) }
{
    step.name()
}
