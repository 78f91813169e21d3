//! Whose calls an order is to explain.
ghost use Rattle.std.specs.Prelude.{◌≡◌};
ghost use Rattle.rambo_atomic.specs.Scopes.{within};

use rambo_history::Op;

/// Whose calls an order is to explain.
#[derive(Clone, Copy)]
pub(crate) enum Scope<'a> {
    /// Those of this key.
    Key(&'a [u8]),
    /// Those of all keys.
    AllKeys,
}

impl<'a> Scope<'a> {
    // Whether an operation is one of them.
    pub(crate) fn has(self, op: &Op) -> bool
        ensures { result ≡ within self.entry op.now }
    {
        match self {
            Scope::Key(key) => op.key().as_slice() == key,
            Scope::AllKeys => true,
        }
    }
}
