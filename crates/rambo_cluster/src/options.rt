//! What a server is started with.

use rambo_names::Quorums;

/// What a server is started with.
#[derive(Clone, Copy)]
pub struct Options<Q: Quorums> {
    /// The first configuration, which has members.
    pub founders: Q,
    /// How many threads serve clients, 1 to 32.
    pub clients: usize,
    /// How many connections are served at once, at least 1. Further ones are refused.
    pub connections: usize,
    /// How many steps the book takes, 1 to 1,000,000.
    pub steps: usize,
    /// Each letter whose number this divides is lost. 0 divides none.
    pub lose: u64,
    /// Each other letter whose number this divides comes twice.
    pub twice: u64,
    /// Whether a reply waits until the medium keeps the trace of all that it tells. The bounded server's don't.
    pub syncs: bool,
}
