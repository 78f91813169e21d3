//! Whose calls an order is to explain.
ghost use Rattle.std.specs.Prelude.{◌≡◌};
ghost use Rattle.std.specs.Option.{option_copied};
ghost use Rattle.rambo_witness.specs.Tests.{is_of};

use rambo_history::Op;
use rambo_names::Bytes;

/// Whether an operation is of the key, or of any where none is told.
pub fn is_of(key: Option<&Bytes>, op: &Op) -> bool
    ensures { result ≡ is_of (option_copied key.entry) op.now }
{
    match key {
        Some(key) => op.key().as_slice() == key.as_slice(),
        None => true,
    }
}
