//! What stands behind the last line feed of a trace is cut off.
ghost use Rattle.std.specs.Prelude.{◌≡◌, ◌++◌, [], List, ℕ, option_map, length, IfSome, IfErr, OnOk};
ghost use Rattle.rambo_names.specs.Weights.{Weights};
ghost use Rattle.rambo_node.specs.Steps.{Step};
ghost use Rattle.rambo_retrace.specs.Retraces.{retraced};
ghost use Rattle.rambo_trace.specs.Traces.{trace_text};
ghost use Rattle.rambo_lasting.specs.Resumings.{IsUncut, Stays, failed_by};

use crate::fault::ResumeFault;
use rambo_archive::Archive;
use rambo_cluster::ServeFault;
use rambo_retrace::Retraced;

/// Cuts off what stands behind the trace in a file, whose first two lines have `head` bytes, and whose others were read so.
///
/// `Uncut` where the file failed, and `Unserved` where the trace has too many bytes to count. It stays as it was then.
pub(crate) fn cut_torn<F: Archive>(
    head: u64,
    read: &Retraced,
    file: &mut F,
) -> Result<(), ResumeFault>
    ensures whole { OnOk result ((f : Weights) (steps : List (Step Weights)) (torn : List ℕ) → head ≡ length (trace_text f []) → read.now ≡ retraced steps torn
        → IfSome (F.taken file.old) (λ bytes. bytes ≡ trace_text f steps ++ torn)
        → F.taken file.new ≡ option_map (λ bytes. trace_text f steps) (F.taken file.old)) }
    ensures fine { OnOk result (F.failures file.new ≡ F.failures file.old) }
    ensures stays { IfErr result (λ f. Stays f (F.taken file.old) (F.taken file.new)) }
    ensures failed { IfErr result (λ f. F.failures file.new ≡ failed_by f (F.failures file.old)) }
    ensures cause { IfErr result (λ f. IsUncut read.now.torn f) }
{
    if read.torn == 0 {
        return Ok(());
    }
    let Some(length) = head.checked_add(read.bytes) else {
        return Err(ResumeFault::Unserved(ServeFault::Memory));
    };
    match file.cut(length) {
        Ok(()) => Ok(()),
        Err(_) => Err(ResumeFault::Uncut),
    }
}
