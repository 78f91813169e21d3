//! A witness.

use rambo_history::CallId;

/// What shows that an order of calls breaks a rule of a proper one.
#[derive(Clone, Copy, PartialEq, Eq, Debug)]
pub struct Witness {
    /// The call that breaks it.
    pub call: CallId,
    /// The call that it breaks the rule with: the latest set before a get, or what was called after the answer of
    /// what stands behind it.
    pub other: Option<CallId>,
}
