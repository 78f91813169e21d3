//! Why a trace isn't read back.
ghost use Rattle.std.specs.Prelude.{◌≡◌};

use rambo_atomic::StreamFault;
use rambo_names::Refusal;
use rambo_text::ScriptFault;

/// Why a trace wasn't read to its end.
#[derive(Clone, Copy, PartialEq, Eq, Debug)]
pub enum RetraceFault {
    /// The source failed.
    Read,
    /// There is no room for a piece of the trace, or it has more than 2^63 bytes.
    Memory,
    /// A line is faulty.
    Script(ScriptFault),
    /// The step on the line of this number, from 1, isn't taken.
    Refused(u64, Refusal),
}

impl From<StreamFault> for RetraceFault {
    ghost use Rattle.rambo_retrace.specs.Retraces.{of_stream};

    ghost from_gives = { λ f r. r ≡ of_stream f };

    fn from(fault: StreamFault) -> RetraceFault {
        match fault {
            StreamFault::Read | StreamFault::Write => RetraceFault::Read,
            StreamFault::Memory => RetraceFault::Memory,
        }
    }
}

impl From<ScriptFault> for RetraceFault {
    ghost use Rattle.rambo_retrace.specs.declared.fault.RetraceFault.TheVariants as retrace;

    ghost from_gives = { λ f r. r ≡ retrace.Script f };

    fn from(fault: ScriptFault) -> RetraceFault {
        RetraceFault::Script(fault)
    }
}
