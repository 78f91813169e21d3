//! The calls that occur in an order again.
ghost use Rattle.std.specs.Prelude.{◌≡◌, ◌+◌, IfOk, IfErr};
ghost use Rattle.rambo_history.specs.Forms.{IsWellFormed};
ghost use Rattle.rambo_atomic.specs.Findings.{rises_from};
ghost use Rattle.rambo_atomic.specs.Scopes.{within};
ghost use Rattle.rambo_atomic.specs.Tallies.{how_many, is_found, is_answered_call};
ghost use Rattle.rambo_atomic.specs.Tests.{is_distinct};

use crate::scope::Scope;
use indexmap::IndexSet;
use rambo_history::{CallId, History};
use rambo_names::Refusal;

/// The entries of an order whose calls occur before them already.
#[derive(Clone, Copy)]
pub(crate) struct Repeats {
    /// Whether there is none.
    pub are_none: bool,
    /// How many of them are answered calls of those within.
    pub answered: usize,
}

/// The entries of an order whose calls occur before them already. It is known whether each entry is a call that was made
/// after those before it: then there is none, and nothing is allocated.
pub(crate) fn repeats_in(
    history: &History,
    scope: Scope,
    order: &[CallId],
    is_rising: bool,
) -> Result<Repeats, Refusal>
    requires well_formed { IsWellFormed history.now.events }
    requires rising { is_rising ≡ rises_from history.now.events 0 order.now }
    ensures distinct { IfOk result (λ r. r.are_none ≡ is_distinct order.now) }
    ensures answered { IfOk result (λ r. how_many (is_found history.now.events (within scope.entry) order.now) history.now.events + r.answered ≡ how_many (is_answered_call history.now.events (within scope.entry)) order.now) }
    ensures refused { IfErr result (λ r. r ≡ Refusal.OutOfMemory) }
{
    if is_rising {
        return Ok(Repeats {
            are_none: true,
            answered: 0,
        });
    }
    looked_for(history, scope, order)
}

// The same of any order.
#[inline(never)]
fn looked_for(history: &History, scope: Scope, order: &[CallId]) -> Result<Repeats, Refusal>
    requires { IsWellFormed history.now.events }
    ensures distinct { IfOk result (λ r. r.are_none ≡ is_distinct order.now) }
    ensures answered { IfOk result (λ r. how_many (is_found history.now.events (within scope.entry) order.now) history.now.events + r.answered ≡ how_many (is_answered_call history.now.events (within scope.entry)) order.now) }
    ensures refused { IfErr result (λ r. r ≡ Refusal.OutOfMemory) }
{
    let mut seen = IndexSet::with_capacity(history.allocator(), order.len())?;
    let mut are_none = true;
    let mut answered = 0;
    for id in order {
        if !seen.insert(*id)? {
            are_none = false;
            if is_answered_call(history, scope, id) {
                answered += 1;
            }
        }
    }
    Ok(Repeats { are_none, answered })
}

// Whether a call is one of those within and was answered.
fn is_answered_call(history: &History, scope: Scope, id: &CallId) -> bool
    ensures { result ≡ is_answered_call history.now.events (within scope.entry) id.now }
{
    match history.exchange(id) {
        None => false,
        Some((op, answer)) => answer.is_some() && scope.has(op),
    }
}
