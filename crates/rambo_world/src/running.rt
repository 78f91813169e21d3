//! Runs that go on.
ghost use Rattle.std.specs.Prelude.{◌≡◌, List, ℕ, None, IfOk, IfErr, OnOk};
ghost use Rattle.rambo_names.specs.Refusals.{least, IsRefusal};
ghost use Rattle.rambo_history.specs.Proper.{IsProper, IsProperForAll};
ghost use Rattle.rambo_sequence.specs.Sequences.{sequence_in};
ghost use Rattle.rambo_sequence.specs.StoreOrders.{IsOrder};
ghost use Rattle.rambo_run.specs.Runs.{results_from, run_from, outcome_at};
ghost use Rattle.rambo_run.specs.Worlds.{first_world};
ghost use Rattle.rambo_run.specs.Ongoing.{AgreesSoFar};
ghost use Rattle.rambo_run.specs.Worlds.{founding_causes};
ghost use Rattle.rambo_world.specs.Worlds.{answer_got};

use crate::runs::outcome;
use crate::state::State;
use rambo_history::{Answer, CallId, History, Op};
use rambo_names::{Name, Quorums, Refusal};
use rambo_node::Effect;
use rambo_run::{NodeMap, Outcome, Run, Step, may_found};
use rambo_sequence::KeySequence;
use rambo_tag::Replica;
use std::alloc::Global;
use std::marker::Model;

/// A run that goes on step by step. The steps aren't stored, but what they made of the world of its founders.
#[derive(Drop)]
pub struct Running<Q: Quorums, S: Replica> {
    founders: Q,
    state: State<Q, S>,
}

impl<Q: Quorums, S: Replica> Model for Running<Q, S> {
    ghost use Rattle.std.specs.Coded.{codes};
    ghost use Rattle.rambo_names.specs.Names.{names_code};
    ghost use Rattle.rambo_tag.specs.Copies.{copies_code};
    ghost use Rattle.rambo_run.specs.Ongoing.{RunningOf, IsReached};

    ghost Value = { RunningOf Q };

    ghost coded = { Prim.hlevel (codes, names_code, copies_code, Q.code) };

    ghost view = { λ r. record { founders = r.founders; state = r.state } };

    ghost invariant = { λ r. IsReached Q.system r.founders r.state };
}

impl<Q: Quorums, S: Replica> Running<Q, S> {
    /// The run of these founders, before any step. The copies of each node are made by `fresh` of a replica.
    ///
    /// Refused with 18 where there is no founder, 22 where there is no room for it.
    pub fn new(alloc: Global, founders: Q, replica: &S) -> Result<Running<Q, S>, Refusal>
        ensures founded { OnOk result (least (founding_causes Q.system founders) ≡ None) }
        ensures made { IfOk result (λ r. r ≡ record { founders = founders; state = first_world Q.system founders }) }
        ensures refused { IfErr result (IsRefusal (least (founding_causes Q.system founders))) }
    {
        may_found(founders)?;
        Ok(Running {
            founders,
            state: State::new(alloc, founders, replica)?,
        })
    }

    // Takes all of these steps, and gives what they did, the history, the sequences, their one order and the maps. A step that is
    // refused is noted with its refusal, and the run goes on. With no step before, that is the outcome of the run of these
    // steps.
    //
    // `OutOfMemory` where there is no room for it.
    pub(crate) fn finish(self, alloc: Global, steps: &[Step<Q>]) -> Result<Outcome<Q>, Refusal>
        ensures outcome { IfOk result (λ o. o ≡ outcome_at (results_from Q.system self.state steps.now) (run_from Q.system self.state steps.now)) }
        ensures proper { IfOk result (λ o. (key : List ℕ) → IsProper o.history key (sequence_in o.sequences key)) }
        ensures ordered { IfOk result (λ o. IsOrder o.history o.sequences o.order) }
        ensures explained { IfOk result (λ o. IsProperForAll o.history o.order) }
        ensures agreed { AgreesSoFar Q.system self.founders (run_from Q.system self.state steps.now) }
        ensures refused { IfErr result (λ r. r ≡ Refusal.OutOfMemory) }
    {
        let Running {
            founders: _,
            mut state,
        } = self;
        outcome(alloc, &mut state, steps)
    }
}

impl<Q: Quorums, S: Replica> Run<Q> for Running<Q, S> {
    ghost running = { λ r. r };

    fn take(&mut self, step: &Step<Q>) -> Result<Result<Effect<Q>, Refusal>, Refusal> {
        self.state.take(step)
    }

    fn send(&mut self, from: Name, to: Name) -> Result<Result<u64, Refusal>, Refusal> {
        self.state.send(from, to)
    }

    fn deliver(&mut self, number: u64) -> Result<Result<(), Refusal>, Refusal> {
        self.state.deliver(number)
    }

    fn call(&mut self, name: Name, op: Op) -> Result<Result<CallId, Refusal>, Refusal> {
        self.state.call(name, op)
    }

    fn advance(&mut self, id: CallId) -> Result<Result<Option<Answer>, Refusal>, Refusal> {
        Ok(answer_got(self.state.advance(id)?))
    }

    fn history(&self) -> &History {
        self.state.chronicle.history()
    }

    fn sequences(&self, alloc: Global) -> Result<Vec<KeySequence>, Refusal> {
        self.state.chronicle.sequences(alloc)
    }

    fn maps(&self, alloc: Global) -> Result<Vec<NodeMap<Q>>, Refusal> {
        self.state.nodes.maps(alloc)
    }
}

// The answer that a call got as it went on, if it did and wasn't refused.
pub(crate) fn answer_got<Q: Quorums>(
    told: Result<Effect<Q>, Refusal>,
) -> Result<Option<Answer>, Refusal>
    ensures { result ≡ answer_got told }
{
    match told {
        Ok(Effect::Answered(_, answer)) => Ok(Some(answer)),
        Ok(_) => Ok(None),
        Err(refusal) => Err(refusal),
    }
}
