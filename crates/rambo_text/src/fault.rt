//! What is wrong with a text.
ghost use Rattle.std.specs.Prelude.{◌≡◌};

use rambo_atomic::StreamFault;
use std::alloc::{AllocError, AllocFailed};
use std::error::Error;
use std::fmt;

/// Why a line of a text is faulty. Of several faults in a line the first in the text's own order is reported.
#[derive(Clone, Copy, PartialEq, Eq, Debug)]
pub enum Fault {
    /// The first line names no founders.
    NoFounders = 1,
    /// A word that says what a line is has no meaning.
    UnknownWord = 2,
    /// A line has another number of words than its kind has.
    WrongCount = 3,
    /// A word isn't the number, name, set of names or call that belongs there.
    BadNumber = 4,
    /// A word isn't the spelling of bytes that belongs there.
    BadHex = 5,
    /// A line has more than 16,384 bytes.
    LineTooLong = 6,
    /// Memory ran out while a line was read.
    OutOfMemory = 7,
    /// A call is made twice, an answer has no open call or isn't of its kind, or a key has a second sequence.
    BadHistory = 8,
}

impl Fault {
    ghost use Rattle.rambo_text.specs.Faults.{number_of};

    /// The number of the fault, 1 to 8.
    pub fn number(self) -> u64
        ensures { result ≡ number_of self }
    {
        self as u64
    }
}

/// The fault of a line.
#[derive(Clone, Copy, PartialEq, Eq, Debug)]
pub struct ScriptFault {
    pub fault: Fault,
    /// The number of the line, from 1.
    pub line: u64,
}

impl fmt::Display for ScriptFault {
    ghost use Rattle.std.specs.Prelude.{Some};
    ghost use Rattle.rambo_text.specs.Faults.{told};

    ghost output = { λ f. Some (told f) };

    fn fmt<W: fmt::Write>(&self, f: &mut fmt::Formatter<W>) -> fmt::Result {
        let number = self.fault.number();
        let line = self.line;
        write!(f, "script fault S{number} at line {line}")
    }
}

/// Why a text wasn't made into another.
#[derive(Clone, Copy, PartialEq, Eq, Debug)]
pub enum ReplayFault {
    /// A line is faulty.
    Script(ScriptFault),
    /// The source failed.
    Read,
    /// The sink failed.
    Write,
    /// There is no room for what has to be stored.
    Memory,
}

impl fmt::Display for ReplayFault {
    ghost use Rattle.std.specs.Prelude.{Some};
    ghost use Rattle.rambo_text.specs.Faults.{told_of_replay};

    ghost output = { λ f. Some (told_of_replay f) };

    fn fmt<W: fmt::Write>(&self, f: &mut fmt::Formatter<W>) -> fmt::Result {
        match self {
            ReplayFault::Script(fault) => write!(f, "{fault}"),
            ReplayFault::Read => f.write_str(StreamFault::Read.words()),
            ReplayFault::Write => f.write_str(StreamFault::Write.words()),
            ReplayFault::Memory => f.write_str(StreamFault::Memory.words()),
        }
    }
}

impl Error for ReplayFault {}

impl From<StreamFault> for ReplayFault {
    ghost use Rattle.rambo_text.specs.Faults.{of_stream};

    ghost from_gives = { λ f r. r ≡ of_stream f };

    fn from(fault: StreamFault) -> ReplayFault {
        match fault {
            StreamFault::Read => ReplayFault::Read,
            StreamFault::Write => ReplayFault::Write,
            StreamFault::Memory => ReplayFault::Memory,
        }
    }
}

impl From<ScriptFault> for ReplayFault {
    ghost use Rattle.rambo_text.specs.declared.fault.ReplayFault.TheVariants as replay;

    ghost from_gives = { λ f r. r ≡ replay.Script f };

    fn from(fault: ScriptFault) -> ReplayFault {
        ReplayFault::Script(fault)
    }
}

impl From<AllocError> for Fault {
    ghost use Rattle.rambo_text.specs.declared.fault.Fault.TheVariants as fault;

    ghost from_gives = { λ _ r. r ≡ fault.OutOfMemory };

    fn from(_e: AllocError) -> Fault {
        Fault::OutOfMemory
    }
}

impl<T: Drop> From<AllocFailed<T>> for Fault {
    ghost use Rattle.rambo_text.specs.declared.fault.Fault.TheVariants as fault;

    ghost from_gives = { λ _ r. r ≡ fault.OutOfMemory };

    fn from(_e: AllocFailed<T>) -> Fault {
        Fault::OutOfMemory
    }
}
