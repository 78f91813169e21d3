//! Calls in order.
ghost use Rattle.std.specs.Prelude.{◌≡◌, IfOk, IfErr, OnOk, map};
ghost use Rattle.rambo_sequence.specs.RankedCalls.{sorted_calls};

use crate::ranking::RankedCall;
use rambo_history::CallId;
use rambo_names::Refusal;
use std::alloc::{AllocError, Global};

// The names of calls, in order.
pub(crate) fn in_order(alloc: Global, mut calls: Vec<RankedCall>) -> Result<Vec<CallId>, Refusal>
    ensures sorted { IfOk result (λ ids. ids.items ≡ map (λ c. c.id) (sorted_calls calls.items)) }
    ensures refused { IfErr result (λ r. r ≡ Refusal.OutOfMemory) }
{
    sort(&mut calls)?;
    Ok(calls.iter().map(|call| call.id).collect(alloc)?)
}

// Puts calls in order. Of calls with one sort key the one that was last comes first.
fn sort(calls: &mut Vec<RankedCall>) -> Result<(), AllocError>
    ensures { OnOk result (calls.new.items ≡ sorted_calls calls.old.items) }
{
    calls.reverse();
    calls.sort_by_key(|call| call.sort_key)
}
