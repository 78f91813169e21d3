//! Why an event can't be appended to a history.
ghost use Rattle.std.specs.Prelude.{◌≡◌};
ghost use Rattle.rambo_history.specs.declared.fault.HistoryFault.TheVariants.{OutOfMemory};

use std::alloc::AllocError;

/// Why a history didn't take an event.
#[derive(Clone, Copy, PartialEq, Eq, Debug)]
pub enum HistoryFault {
    /// The history has this call already.
    CalledTwice,
    /// The history doesn't have the call of this answer, or has its answer already.
    NotOpen,
    /// A get is answered that a set is done, or a set is answered a value or nil.
    WrongKind,
    /// There is no room for one more event.
    OutOfMemory,
}

impl From<AllocError> for HistoryFault {
    ghost from_gives = { λ _ r. r ≡ OutOfMemory };

    fn from(_e: AllocError) -> HistoryFault {
        HistoryFault::OutOfMemory
    }
}
