//! Why nothing was served.
ghost use Rattle.std.specs.Prelude.{◌≡◌};

use rambo_names::Refusal;
use std::alloc::{AllocError, AllocFailed};
use std::io;
use thiserror::Error;

/// Why a server doesn't serve.
#[derive(Clone, Copy, PartialEq, Eq, Debug, Error)]
pub enum ServeFault {
    /// The listening socket has no address, or the system gives no clock, no random numbers or nothing to wait for
    /// sockets by.
    #[error("fault socket")]
    Socket,
    /// There is no room for the nodes, no thread for a worker, no founder, or a pass too few for the workers.
    #[error("fault memory")]
    Memory,
}

impl From<io::Error> for ServeFault {
    ghost use Rattle.rambo_cluster.specs.declared.fault.ServeFault.TheVariants.{Socket};

    ghost from_gives = { λ _ r. r ≡ Socket };

    fn from(_error: io::Error) -> ServeFault {
        ServeFault::Socket
    }
}

impl From<AllocError> for ServeFault {
    ghost use Rattle.rambo_cluster.specs.declared.fault.ServeFault.TheVariants.{Memory};

    ghost from_gives = { λ _ r. r ≡ Memory };

    fn from(_error: AllocError) -> ServeFault {
        ServeFault::Memory
    }
}

impl<T: Drop> From<AllocFailed<T>> for ServeFault {
    ghost use Rattle.rambo_cluster.specs.declared.fault.ServeFault.TheVariants.{Memory};

    ghost from_gives = { λ _ r. r ≡ Memory };

    fn from(_error: AllocFailed<T>) -> ServeFault {
        ServeFault::Memory
    }
}

impl From<Refusal> for ServeFault {
    ghost use Rattle.rambo_cluster.specs.declared.fault.ServeFault.TheVariants.{Memory};

    ghost from_gives = { λ _ r. r ≡ Memory };

    fn from(_refusal: Refusal) -> ServeFault {
        ServeFault::Memory
    }
}
