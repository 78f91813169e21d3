//! What is wrong with a stream.
ghost use Rattle.std.specs.Prelude.{◌≡◌};
ghost use Rattle.rambo_resp.specs.Faults.{number_of};

use std::alloc::{AllocError, AllocFailed};

/// Why no command can be read any more. Each but the last has the place of the first byte that isn't allowed where it
/// is. Places count bytes from the stream's first, which is 0; one from 2^64 - 1 on is given as 2^64 - 1.
#[derive(Clone, Copy, PartialEq, Eq, Debug)]
pub enum Fault {
    /// A command doesn't begin with `*`, or an item with `$`.
    NotArray(u64),
    /// A number isn't 0 or more in plain decimal (or -1, for an array).
    BadLength(u64),
    /// An array has more than 128 items.
    TooManyItems(u64),
    /// An item has more than 4,096 bytes.
    ItemTooLong(u64),
    /// A line or an item doesn't end in CR LF.
    MissingCrlf(u64),
    /// Memory ran out.
    OutOfMemory,
}

impl Fault {
    /// The number of the fault, 1 to 6.
    pub fn number(self) -> u64
        ensures { result ≡ number_of self }
    {
        match self {
            Fault::NotArray(_) => 1,
            Fault::BadLength(_) => 2,
            Fault::TooManyItems(_) => 3,
            Fault::ItemTooLong(_) => 4,
            Fault::MissingCrlf(_) => 5,
            Fault::OutOfMemory => 6,
        }
    }
}

impl From<AllocError> for Fault {
    ghost use Rattle.rambo_resp.specs.declared.fault.Fault.TheVariants as fault;

    ghost from_gives = { λ _ r. r ≡ fault.OutOfMemory };

    fn from(_e: AllocError) -> Fault {
        Fault::OutOfMemory
    }
}

impl<T: Drop> From<AllocFailed<T>> for Fault {
    ghost use Rattle.rambo_resp.specs.declared.fault.Fault.TheVariants as fault;

    ghost from_gives = { λ _ r. r ≡ fault.OutOfMemory };

    fn from(_e: AllocFailed<T>) -> Fault {
        Fault::OutOfMemory
    }
}
