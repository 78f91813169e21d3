//! The trace of a post that has ended.
ghost use Rattle.std.specs.Prelude.{◌≡◌, Some};
ghost use Rattle.rambo_names.specs.Weights.{Weights, weighted_majorities};
ghost use Rattle.rambo_run.specs.Legal.{IsLegal};
ghost use Rattle.rambo_scribe.specs.Traced.{HasWritten, IsTrace, taken_by};

use crate::fault::TraceFault;
use crate::starts::Starts;
use rambo_archive::Durable;
use rambo_names::Weighted;
use rambo_post::{Front, Terms};
use rambo_run::Step;
use std::marker::Model;

/// The trace of a post that has ended, by its name: the token of this name that has seen all steps, and the writer to which
/// their trace was written, or after a fault a prefix of it.
///
/// Contracts see all steps, and the fault.
#[derive(Drop)]
pub struct Written<J: Terms<Weighted> + Starts, W: Durable + Drop> {
    seen: Front<J, Step<Weighted>>,
    writer: W,
    fault: Option<TraceFault>,
}

impl<J: Terms<Weighted> + Starts, W: Durable + Drop> Model for Written<J, W> {
    ghost use Rattle.std.specs.Coded.{codes};
    ghost use Rattle.rambo_names.specs.Names.{names_code};
    ghost use Rattle.rambo_scribe.specs.Traced.{WrittenView, IsWritten, taken_by};

    ghost Value = { WrittenView };

    ghost coded = { Prim.hlevel (codes, names_code) };

    ghost view = { λ w. record { all = w.seen; fault = w.fault } };

    ghost invariant = { λ w. IsWritten J.founders J.before (taken_by W.taken W.failures w.writer) (record { all = w.seen; fault = w.fault }) };
}

impl<J: Terms<Weighted> + Starts, W: Durable + Drop> Written<J, W> {
    // All that was seen, and what was written of it.
    pub(crate) fn new(
        seen: Front<J, Step<Weighted>>,
        writer: W,
        fault: Option<TraceFault>,
    ) -> Written<J, W>
        requires legal { (f : Weights) → J.founders ≡ Some f → IsLegal weighted_majorities f seen }
        requires written { IsTrace J.founders J.before (taken_by W.taken W.failures writer) seen fault }
        ensures { result ≡ record { all = seen; fault = fault } }
    {
        Written {
            seen,
            writer,
            fault,
        }
    }

    /// The writer, and why it hasn't the whole trace, if that is so.
    pub fn into_parts(self) -> (W, Option<TraceFault>)
        ensures fault { result.1 ≡ self.fault }
        ensures legal { (f : Weights) → J.founders ≡ Some f → IsLegal weighted_majorities f self.all }
        ensures written { (f : Weights) → J.founders ≡ Some f → HasWritten J.before (taken_by W.taken W.failures result.0) f self.all result.1 }
    {
        let Written {
            seen: _seen,
            writer,
            fault,
        } = self;
        (writer, fault)
    }
}
