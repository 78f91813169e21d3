//! Worlds.
ghost use Rattle.std.specs.Prelude.{◌≡◌, ◌++◌, ◌∷◌, [], Some, None, IfOk, IfErr, OnOk, OnErr};
ghost use Rattle.rambo_names.specs.Refusals.{least, IsRefusal};
ghost use Rattle.rambo_history.specs.Proper.{IsProper};
ghost use Rattle.rambo_node.specs.Nodes.{NodeState};
ghost use Rattle.rambo_run.specs.Claims.{Agrees};
ghost use Rattle.rambo_run.specs.Steps.{refusal, turn};
ghost use Rattle.rambo_sequence.specs.Sequences.{sequence_of};
ghost use Rattle.rambo_run.specs.Worlds.{node_at, founding_causes};
ghost use Rattle.rambo_world.specs.Worlds.{WorldOf, state};
ghost use Rattle.rambo_run.specs.Legal.{IsLegal};

use crate::state::State;
use rambo_config_map::ConfigMap;
use rambo_history::{CallId, History};
use rambo_names::{Name, Quorums, Refusal};
use rambo_node::Effect;
use rambo_run::{Step, may_found};
use rambo_tag::Replica;
use std::alloc::Global;
use std::marker::Model;

/// The world that its founders and its accepted steps make: 64 nodes, all letters that were ever sent, and the history
/// of the calls and answers.
///
/// A letter may be delivered late, again and again, in any order, or never. Each step that is refused leaves the world
/// as it was. Of several causes of a refusal the least number is reported, and `OutOfMemory` only where there is no
/// other.
#[derive(Drop)]
pub struct World<Q: Quorums, S: Replica> {
    founders: Q,
    steps: Vec<Step<Q>>,
    state: State<Q, S>,
}

impl<Q: Quorums, S: Replica> Model for World<Q, S> {
    ghost use Rattle.std.specs.Prelude.{◌≡◌};
    ghost use Rattle.std.specs.Coded.{codes};
    ghost use Rattle.rambo_names.specs.Names.{names_code};
    ghost use Rattle.rambo_run.specs.Runs.{run};
    ghost use Rattle.rambo_run.specs.Legal.{IsLegal};
    ghost use Rattle.rambo_world.specs.Worlds.{WorldOf};

    ghost Value = { WorldOf Q };

    ghost coded = { Prim.hlevel (codes, names_code, Q.code) };

    ghost view = { λ w. record { founders = w.founders; steps = w.steps.items } };

    ghost invariant = { λ w. (w.state ≡ run Q.system w.founders w.steps.items) × IsLegal Q.system w.founders w.steps.items };
}

impl<Q: Quorums, S: Replica> World<Q, S> {
    /// The world of these founders, before any step. The copies of each node are made by `fresh` of a replica.
    ///
    /// Refused with 18 where there is no founder, 22 where there is no room for it.
    pub fn new(alloc: Global, founders: Q, replica: &S) -> Result<World<Q, S>, Refusal>
        ensures founded { OnOk result (least (founding_causes Q.system founders) ≡ None) }
        ensures made { IfOk result (λ w. w ≡ record { founders = founders; steps = [] }) }
        ensures refused { IfErr result (IsRefusal (least (founding_causes Q.system founders))) }
    {
        may_found(founders)?;
        Ok(World {
            founders,
            steps: Vec::new(alloc),
            state: State::new(alloc, founders, replica)?,
        })
    }

    /// Takes a step, and says what it did.
    ///
    /// Refused with what the rules of its kind say, and 22 where there is no room for it.
    pub fn step(&mut self, step: Step<Q>) -> Result<Effect<Q>, Refusal>
        ensures judged { OnOk result (refusal Q.system (state Q.system self.old) step ≡ None) }
        ensures ok { OnOk result (self.new ≡ record self.old { steps = self.old.steps ++ step ∷ [] }) }
        ensures effect { IfOk result (λ e. e ≡ (turn (state Q.system self.old) step).effect) }
        ensures refused { IfErr result (IsRefusal (refusal Q.system (state Q.system self.old) step)) }
        ensures err { OnErr result (self.new ≡ self.old) }
    {
        if self.steps.reserve(1).is_err() {
            // (a refusal needs no room)
            self.state.judge(&step)?;
            return Err(Refusal::OutOfMemory);
        }
        let effect = self.state.take(&step)??;
        self.steps.push_reserved(step);
        Ok(effect)
    }

    /// The accepted steps, in order: none of them is refused in its place.
    pub fn steps(&self) -> &[Step<Q>]
        ensures steps { result.now ≡ self.now.steps }
        ensures accepted { IsLegal Q.system self.now.founders self.now.steps }
    {
        self.steps.as_slice()
    }

    /// The calls and answers, in order.
    pub fn history(&self) -> &History
        ensures { result.now.events ≡ (state Q.system self.now).history }
    {
        self.state.chronicle.history()
    }

    /// The given sequence of a key: its answered calls and its sets that took a tag. They are ordered by tag, a set
    /// before the gets of its tag, and gets of one tag by the places of their calls in the history. An ordinary map,
    /// asked in this order, gives each answer that was given. What was answered before another call was made comes
    /// before it (Herlihy and Wing, "Linearizability", TOPLAS 1990).
    ///
    /// `OutOfMemory` where there is no room for it.
    pub fn sequence(&self, alloc: Global, key: &[u8]) -> Result<Vec<CallId>, Refusal>
        ensures calls { IfOk result (λ calls. calls.items ≡ sequence_of (state Q.system self.now).history (state Q.system self.now).marks key.now) }
        ensures proper { IfOk result (λ calls. IsProper (state Q.system self.now).history key.now calls.items) }
        ensures refused { IfErr result (λ r. r ≡ Refusal.OutOfMemory) }
    {
        self.state.chronicle.sequence(alloc, key)
    }

    /// The configuration map of a node. No two nodes, at one moment or at two, hold different configurations at one
    /// place.
    pub fn map(&self, name: Name) -> &ConfigMap<Q>
        ensures agreed { Agrees Q.system self.now.founders self.now.steps }
        ensures map { (x : NodeState Q) → node_at (state Q.system self.now) name ≡ Some x → result.now ≡ x.map }
    {
        self.state.nodes.node(name).map()
    }
}
