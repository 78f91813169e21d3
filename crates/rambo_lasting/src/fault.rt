//! Why a server doesn't go on.

use rambo_cluster::ServeFault;
use rambo_retrace::RetraceFault;

/// Why nobody was served by who was to go on from a trace.
#[derive(Clone, Copy, PartialEq, Eq, Debug)]
pub enum ResumeFault {
    /// The trace can't be read or taken.
    Trace(RetraceFault),
    /// Its founders aren't those that are asked for.
    Founders,
    /// What stands behind its last line feed can't be cut off.
    Uncut,
    /// A socket failed, or memory ran out.
    Unserved(ServeFault),
}
