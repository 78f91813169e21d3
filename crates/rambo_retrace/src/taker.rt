//! Who takes the steps of a trace.
ghost use Rattle.std.specs.Prelude.{◌≡◌, ◌∷◌, ◌++◌, [], List, IfErr, OnOk, OnErr};
ghost use Rattle.rambo_names.specs.Weights.{Weights};
ghost use Rattle.rambo_names.specs.declared.refusal.Refusal.{Refusal};
ghost use Rattle.rambo_node.specs.Steps.{Step};

use rambo_names::{Refusal, Weighted};
use rambo_run::Step;

/// What takes the steps of a trace, one after another.
pub trait Taker {
    // The steps that it has taken.
    ghost steps: { Self → List (Step Weights) };

    // It may refuse a step so.
    ghost refuses: { Self → Step Weights → Refusal → Type 0 };

    /// Takes a step, or says why not.
    fn take(&mut self, step: Step<Weighted>) -> Result<(), Refusal>
        ensures taken { OnOk result (steps self.new ≡ steps self.old ++ step ∷ []) }
        ensures kept { OnErr result (steps self.new ≡ steps self.old) }
        ensures cause { IfErr result (λ r. refuses self.old step r) };
}
