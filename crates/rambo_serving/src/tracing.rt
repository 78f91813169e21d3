//! The trace of a server is written.
ghost use Rattle.rambo_telling.specs.Telling.{stream};
ghost use Rattle.rambo_serving.specs.Endings.{WritesTo};

use crate::ending::Ending;
use rambo_atomic::{Sink, StreamFault};
use rambo_names::Weighted;
use rambo_run::Step;
use rambo_telling::{DONE, tell};
use rambo_text::ReplayFault;
use rambo_trace::write_trace;
use std::alloc::Global;

/// Writes the trace of these founders and steps, and returns how that ended.
///
/// The status is 0 where the trace was written whole. Where the writer failed or memory ran out it is 1, the fault is
/// reported in a line, and a prefix of the trace was written.
pub fn write_steps<W: Sink, E: Sink>(
    alloc: Global,
    founders: Weighted,
    steps: &[Step<Weighted>],
    writer: &mut W,
    errors: &mut E,
) -> Ending
    ensures { WritesTo founders steps.now result (stream W.taken W.failures writer.old writer.new)
        (stream E.taken E.failures errors.old errors.new) }
{
    match write_trace(alloc, founders, steps, writer) {
        Ok(()) => Ending {
            status: DONE,
            trace: Some(steps.len()),
        },
        Err(StreamFault::Memory) => Ending::of(tell(ReplayFault::Memory, errors)),
        Err(_) => Ending::of(tell(ReplayFault::Write, errors)),
    }
}
