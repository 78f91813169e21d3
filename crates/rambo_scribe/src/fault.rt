//! Why a trace isn't whole.
ghost use Rattle.std.specs.Prelude.{◌≡◌};

use rambo_atomic::StreamFault;

/// Why a trace isn't whole.
#[derive(Clone, Copy, PartialEq, Eq, Debug)]
pub enum TraceFault {
    /// The writer failed.
    Write,
    /// Memory ran out for a line.
    Memory,
    /// Another drawer has drawn steps.
    Drawn,
}

impl TraceFault {
    ghost use Rattle.rambo_scribe.specs.Traced.{fault_of};

    /// That of a stream.
    pub fn of(fault: StreamFault) -> TraceFault
        ensures { result ≡ fault_of fault }
    {
        match fault {
            StreamFault::Memory => TraceFault::Memory,
            StreamFault::Read | StreamFault::Write => TraceFault::Write,
        }
    }
}
