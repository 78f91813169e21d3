//! What an outbox has a node do.

use rambo_names::Members;

/// Whom a node writes to now, and when to look again.
#[derive(Clone, Copy, Debug)]
pub struct Round {
    /// Who is asked: each of these letters asks for one in return.
    pub asked: Members,
    /// Who is owed a letter. Some of them may be asked too.
    pub owed: Members,
    /// When to look again at the latest. None while nobody wishes for anything.
    pub wake: Option<u64>,
}
