//! Calls that stand twice.
ghost use Rattle.std.specs.Prelude.{◌≡◌, ℕ, List, Option, IfOk, IfErr};
ghost use Rattle.rambo_atomic.specs.declared.verdict.Rule.TheVariants.{Repeated};
ghost use Rattle.rambo_witness.specs.Witnesses.{Decides};

use crate::witness::Witness;
use indexmap::IndexSet;
use rambo_history::{CallId, History};
use rambo_names::Refusal;

/// The first call that stands there already, if no call may stand twice.
///
/// `OutOfMemory` where there is no room for a set of the order's calls.
pub(crate) fn first_repeated(
    history: &History,
    order: &[CallId],
) -> Result<Option<Witness>, Refusal>
    ensures found { IfOk result (λ found. (key : Option (List ℕ)) → Decides Repeated history.now.events key order.now found) }
    ensures refused { IfErr result (λ r. r ≡ Refusal.OutOfMemory) }
{
    let mut seen = IndexSet::with_capacity(history.allocator(), order.len())?;
    for id in order {
        if !seen.insert(*id)? {
            return Ok(Some(Witness {
                call: *id,
                other: None,
            }));
        }
    }
    Ok(None)
}
