//! Answered calls that don't stand in an order.
ghost use Rattle.std.specs.Prelude.{◌≡◌, ℕ, List, IfOk, IfErr};
ghost use Rattle.std.specs.Option.{option_copied};
ghost use Rattle.rambo_atomic.specs.declared.verdict.Rule.TheVariants.{Missing};
ghost use Rattle.rambo_atomic.specs.Tests.{stands_in};
ghost use Rattle.rambo_history.specs.Calls.{same_call};
ghost use Rattle.rambo_history.specs.declared.event.CallId.{CallId as AnyCall};
ghost use Rattle.std.specs.List.{list_any};
ghost use Rattle.rambo_witness.specs.Dues.{IsFirstOut};

use crate::witness::Witness;
use indexmap::IndexSet;
use rambo_history::{CallId, History};
use rambo_names::Refusal;

/// Of some calls the first that doesn't stand in the order.
///
/// `OutOfMemory` where there is no room for a set of the order's calls.
pub(crate) fn first_out(
    history: &History,
    calls: &[CallId],
    order: &[CallId],
) -> Result<Option<Witness>, Refusal>
    ensures found { IfOk result (IsFirstOut calls.now order.now) }
    ensures refused { IfErr result (λ r. r ≡ Refusal.OutOfMemory) }
{
    let standing = standing(history, order)?;
    for id in calls {
        if !standing.contains(id) {
            return Ok(Some(Witness {
                call: *id,
                other: None,
            }));
        }
    }
    Ok(None)
}

// The set of an order's calls.
fn standing(history: &History, order: &[CallId]) -> Result<IndexSet<CallId>, Refusal>
    ensures calls { IfOk result (λ seen. (c : AnyCall) → list_any (same_call c) seen.keys ≡ stands_in order.now c) }
    ensures refused { IfErr result (λ r. r ≡ Refusal.OutOfMemory) }
{
    let mut standing = IndexSet::with_capacity(history.allocator(), order.len())?;
    for id in order {
        standing.insert(*id)?;
    }
    Ok(standing)
}
