//! What is written of a trace, and why it isn't whole.
ghost use Rattle.std.specs.Prelude.{◌≡◌, ◌++◌, [], List, None, IfSome, option_map};
ghost use mathlib.Core.List.{IsPrefix};
ghost use Rattle.rambo_names.specs.Weights.{Weights};
ghost use Rattle.rambo_node.specs.Steps.{Step};
ghost use Rattle.rambo_scribe.specs.Traced.{HasWritten, Taken, taken_by};

use crate::fault::TraceFault;
use rambo_atomic::Sink;
use rambo_names::Weighted;
use rambo_run::Step;
use rambo_trace::{write_head, write_more};
use std::alloc::Global;

// The trace of these founders before any step.
pub(crate) fn write_first<W: Sink>(
    alloc: Global,
    founders: Weighted,
    writer: &mut W,
) -> Option<TraceFault>
    ensures { HasWritten (taken_by W.taken W.failures writer.old) (taken_by W.taken W.failures writer.new) founders [] result }
{
    match write_head(alloc, founders, writer) {
        Ok(()) => None,
        Err(fault) => Some(TraceFault::of(fault)),
    }
}

// These steps follow those that were written.
pub(crate) fn write_next<W: Sink>(
    alloc: Global,
    steps: &[Step<Weighted>],
    writer: &mut W,
) -> Option<TraceFault>
    ensures { (before : Taken) (f : Weights) (drawn : List (Step Weights)) → HasWritten before (taken_by W.taken W.failures writer.old) f drawn None → HasWritten before (taken_by W.taken W.failures writer.new) f (drawn ++ steps.now) result }
{
    match write_more(alloc, steps, writer) {
        Ok(()) => None,
        Err(fault) => Some(TraceFault::of(fault)),
    }
}

// The rest of all steps follows those that were written, where it is known and no fault came before.
pub(crate) fn write_last<W: Sink>(
    alloc: Global,
    rest: Option<Vec<Step<Weighted>>>,
    writer: &mut W,
    fault: Option<TraceFault>,
) -> Option<TraceFault>
    ensures { (before : Taken) (f : Weights) (drawn all : List (Step Weights)) → IsPrefix drawn all → IfSome (option_map (λ r. r.items) rest) (λ r. drawn ++ r ≡ all)
        → HasWritten before (taken_by W.taken W.failures writer.old) f drawn fault → HasWritten before (taken_by W.taken W.failures writer.new) f all result }
{
    if fault.is_some() {
        return fault;
    }
    match rest {
        Some(rest) => write_next(alloc, rest.as_slice(), writer),
        None => Some(TraceFault::Drawn),
    }
}
