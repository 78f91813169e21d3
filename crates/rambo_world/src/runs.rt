//! Whole runs.
ghost use Rattle.std.specs.Prelude.{◌≡◌, List, ℕ, None, IfOk, IfErr, OnOk};
ghost use Rattle.rambo_names.specs.Refusals.{least, IsRefusal};
ghost use Rattle.rambo_history.specs.Proper.{IsProper, IsProperForAll};
ghost use Rattle.rambo_sequence.specs.Sequences.{sequence_in};
ghost use Rattle.rambo_sequence.specs.StoreOrders.{IsOrder, NoTwice, all_calls};
ghost use Rattle.rambo_run.specs.Claims.{Agrees};
ghost use Rattle.rambo_run.specs.Runs.{given_sequences, outcome_at, outcome_of, results_from, run_from};
ghost use Rattle.rambo_run.specs.Worlds.{founding_causes};
ghost use Rattle.rambo_node.specs.Steps.{Step};
ghost use Rattle.rambo_world.specs.Worlds.{StepsFit};

use crate::running::Running;
use crate::state::State;
use rambo_names::{Quorums, Refusal};
use rambo_run::{Chronicle, Outcome, Step};
use rambo_tag::{Registers, Replica};
use std::alloc::Global;
use std::hash::{BuildHasherDefault, FoldHasher};
use std::mem;

/// What steps make of the world of these founders. For a step that is refused its refusal is noted, and the run goes
/// on.
///
/// The answered operations of each key, with some sets that weren't answered, are in one sequence that the outcome
/// gives. Each get answers the latest set before it, or nil. What was answered before another operation was called
/// comes before it (Attiya, Bar-Noy and Dolev, "Sharing Memory Robustly in Message-Passing Systems", JACM 1995; Lynch
/// and Shvartsman, "RAMBO", DISC 2002). No two nodes hold different configurations at one place.
///
/// The outcome also gives one order of the calls of all keys, which explains them together. Next is always the first
/// call left of some key: of the key whose calls left include the one that was answered first. Once no call left has an
/// answer, the keys follow one after another in byte order.
///
/// Refused with 18 where there is no founder, 22 where memory runs out.
pub fn run<Q: Quorums>(alloc: Global, founders: Q, steps: &[Step<Q>]) -> Result<Outcome<Q>, Refusal>
    ensures founded { OnOk result (least (founding_causes Q.system founders) ≡ None) }
    ensures outcome { IfOk result (λ o. o ≡ outcome_of Q.system founders steps.now) }
    ensures proper { IfOk result (λ o. (key : List ℕ) → IsProper o.history key (sequence_in o.sequences key)) }
    ensures ordered { IfOk result (λ o. IsOrder o.history o.sequences o.order) }
    ensures explained { IfOk result (λ o. IsProperForAll o.history o.order) }
    ensures agreed { Agrees Q.system founders steps.now }
    ensures refused { IfErr result (IsRefusal (least (founding_causes Q.system founders))) }
{
    let replica = Registers::new(alloc, BuildHasherDefault::<FoldHasher>::new());
    Running::new(alloc, founders, &replica)?.finish(alloc, steps)
}

// What steps make of a state, which its history is taken out of.
pub(crate) fn outcome<Q: Quorums, S: Replica>(
    alloc: Global,
    state: &mut State<Q, S>,
    steps: &[Step<Q>],
) -> Result<Outcome<Q>, Refusal>
    requires fits { (done : List (Step _)) → StepsFit Q.system (run_from Q.system state.old done) }
    requires once { NoTwice (all_calls (given_sequences (run_from Q.system state.old steps.now))) }
    ensures outcome { IfOk result (λ o. o ≡ outcome_at (results_from Q.system state.old steps.now) (run_from Q.system state.old steps.now)) }
    ensures refused { IfErr result (λ r. r ≡ Refusal.OutOfMemory) }
{
    let effects = state.take_all(alloc, steps)?;
    let sequences = state.chronicle.sequences(alloc)?;
    let order = state.chronicle.order(alloc, sequences.as_slice())?;
    let maps = state.nodes.maps(alloc)?;
    let history = mem::replace(&mut state.chronicle, Chronicle::new(alloc)).into_history();
    Ok(Outcome {
        effects,
        history,
        sequences,
        order,
        maps,
    })
}
