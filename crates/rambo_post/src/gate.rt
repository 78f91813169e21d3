//! Test hooks inside turns and visits.

use rambo_names::Name;

/// Is called in each turn and each visit, by the thread that makes it.
pub trait Gate: Sync {
    /// The turn or visit of this name has taken its mail, as far as there was room. It holds its keeper's lock, and not
    /// the book's. The node hasn't changed.
    fn working(&self, name: Name);

    /// The turn of this name has made the first half of its step. It holds its keeper's lock, and not the book's. The
    /// node hasn't changed.
    fn prepared(&self, name: Name);

    /// The turn or visit of this name has released all locks.
    fn ended(&self, name: Name);
}

/// A gate that does nothing.
pub struct NoGate;

impl Gate for NoGate {
    fn working(&self, _name: Name) {}

    fn prepared(&self, _name: Name) {}

    fn ended(&self, _name: Name) {}
}
