//! Entries that may not stand in an order.
ghost use Rattle.std.specs.Prelude.{◌≡◌};
ghost use Rattle.std.specs.Option.{option_copied};
ghost use Rattle.rambo_atomic.specs.declared.verdict.Rule.TheVariants.{Stranger};
ghost use Rattle.rambo_atomic.specs.Tests.{is_own};
ghost use Rattle.rambo_witness.specs.Tests.{is_of};
ghost use Rattle.rambo_witness.specs.Witnesses.{Decides};

use crate::scope::is_of;
use crate::witness::Witness;
use rambo_history::{CallId, History};
use rambo_names::Bytes;

/// The first entry that is no call of the key, or no call at all, or is a get without an answer.
pub(crate) fn first_stranger(
    history: &History,
    key: Option<&Bytes>,
    order: &[CallId],
) -> Option<Witness>
    ensures { Decides Stranger history.now.events (option_copied key.entry) order.now result }
{
    for id in order {
        if !is_own(history, key, id) {
            return Some(Witness {
                call: *id,
                other: None,
            });
        }
    }
    None
}

// Whether a call may stand in the order: a get only if it was answered.
fn is_own(history: &History, key: Option<&Bytes>, id: &CallId) -> bool
    ensures { result ≡ is_own history.now.events (is_of (option_copied key.entry)) id.now }
{
    match history.exchange(id) {
        None => false,
        Some((op, answer)) => is_of(key, op) && (!op.is_get() || answer.is_some()),
    }
}
