//! Calls that somebody waits for.

/// Who waits for a call.
#[derive(Clone, Copy, PartialEq, Eq, Debug)]
pub struct Waiter {
    /// The thread that serves it.
    pub client: u32,
    /// Which of its connections.
    pub connection: u32,
    /// Which of the connection's commands.
    pub serial: u64,
}

/// A call that somebody waits for.
#[derive(Clone, Copy, PartialEq, Eq, Debug)]
pub struct Entry {
    /// The number of the call.
    pub number: u64,
    /// Who waits for it.
    pub who: Waiter,
}
