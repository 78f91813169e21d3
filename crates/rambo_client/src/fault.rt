//! Why a client isn't served any more.
ghost use Rattle.std.specs.Prelude.{◌≡◌};

use rambo_atomic::StreamFault;
use rambo_names::Refusal;
use std::alloc::AllocError;
use std::error::Error;
use std::fmt;

/// Why a client wasn't served to the end of its commands.
#[derive(Clone, Copy, PartialEq, Eq, Debug)]
pub enum LocalFault {
    /// The source failed.
    Read,
    /// The sink failed.
    Write,
    /// There is no room for what has to be stored.
    Memory,
}

impl fmt::Display for LocalFault {
    ghost use Rattle.std.specs.Prelude.{Some};
    ghost use Rattle.rambo_client.specs.Faults.{told};

    ghost output = { λ f. Some (told f) };

    fn fmt<W: fmt::Write>(&self, f: &mut fmt::Formatter<W>) -> fmt::Result {
        f.write_str(match self {
            LocalFault::Read => StreamFault::Read.words(),
            LocalFault::Write => StreamFault::Write.words(),
            LocalFault::Memory => StreamFault::Memory.words(),
        })
    }
}

impl Error for LocalFault {}

impl From<StreamFault> for LocalFault {
    ghost use Rattle.rambo_client.specs.Faults.{of_stream};

    ghost from_gives = { λ f r. r ≡ of_stream f };

    fn from(fault: StreamFault) -> LocalFault {
        match fault {
            StreamFault::Read => LocalFault::Read,
            StreamFault::Write => LocalFault::Write,
            StreamFault::Memory => LocalFault::Memory,
        }
    }
}

impl From<AllocError> for LocalFault {
    ghost use Rattle.rambo_client.specs.declared.fault.LocalFault.TheVariants.{Memory};

    ghost from_gives = { λ _ r. r ≡ Memory };

    fn from(_e: AllocError) -> LocalFault {
        LocalFault::Memory
    }
}

// No step of a client's world should be refused unless memory runs out: its nodes never stop, and are asked in form.
impl From<Refusal> for LocalFault {
    ghost use Rattle.rambo_client.specs.declared.fault.LocalFault.TheVariants.{Memory};

    ghost from_gives = { λ _ r. r ≡ Memory };

    fn from(_refusal: Refusal) -> LocalFault {
        LocalFault::Memory
    }
}
