//! What a run makes.
ghost use Rattle.std.specs.Prelude.{◌≡◌, List, None, Some, OnOk, OnErr, IfOk, IfErr};
ghost use Rattle.rambo_run.specs.Runs.{after, result_of, results_from, run_from};
ghost use Rattle.rambo_run.specs.Steps.{refusal};
ghost use Rattle.rambo_run.specs.Worlds.{first_world};
ghost use Rattle.rambo_node.specs.Steps.{Step};
ghost use Rattle.rambo_world.specs.Worlds.{StepsFit};

use crate::nodes::Nodes;
use rambo_letters::Letters;
use rambo_logs::MergedCounts;
use rambo_names::{Quorums, Refusal};
use rambo_node::{Effect, quiet_of};
use rambo_run::{Chronicle, Step};
use rambo_tag::Replica;
use std::alloc::Global;
use std::marker::Model;

/// The nodes, all letters that were sent, and all calls and answers with their marks.
pub(crate) struct State<Q: Quorums, S: Replica> {
    pub(crate) nodes: Nodes<Q, S>,
    pub(crate) letters: Letters<Q>,
    pub(crate) merged: MergedCounts,
    pub(crate) chronicle: Chronicle,
}

// By hand, so that those who drop a run needn't follow all that is in it.
impl<Q: Quorums, S: Replica> Drop for State<Q, S> {
    fn drop(self) {
        let State {
            nodes: _nodes,
            letters: _letters,
            merged: _merged,
            chronicle: _chronicle,
        } = self;
    }
}

impl<Q: Quorums, S: Replica> Model for State<Q, S> {
    ghost use Rattle.std.specs.Coded.{codes};
    ghost use Rattle.rambo_names.specs.Names.{names_code};
    ghost use Rattle.rambo_tag.specs.Copies.{copies_code};
    ghost use Rattle.rambo_run.specs.Worlds.{WorldState};
    ghost use Rattle.rambo_world.specs.Kept.{states_of, whole_letters, IsKept};

    ghost Value = { WorldState Q };

    ghost coded = { Prim.hlevel (codes, names_code, copies_code, Q.code) };

    ghost view = { λ w. record { nodes = states_of w.nodes; letters = whole_letters w.nodes w.letters; history = w.chronicle.events; marks = w.chronicle.marks } };

    ghost invariant = { λ w. IsKept w.nodes w.letters w.merged };
}

impl<Q: Quorums, S: Replica> State<Q, S> {
    // Why a step is refused, if it is.
    pub(crate) fn judge(&self, step: &Step<Q>) -> Result<(), Refusal>
        ensures ok { OnOk result (refusal Q.system self.now step.now ≡ None) }
        ensures refused { IfErr result (λ r. refusal Q.system self.now step.now ≡ Some r) }
    {
        match step {
            Step::Call(name, op) => self.nodes.node(*name).may_call(op),
            Step::Send(from, to) => self.nodes.node(*from).may_send(*to),
            Step::Advance(id) => {
                self.nodes.node(id.name).may_advance(id)?;
                Ok(())
            }
            Step::Deliver(number) => match self.letters.get(*number) {
                Some(sent) => {
                    let letter = &sent.letter;
                    self.nodes.node(letter.addressee).may_hear(letter)
                }
                None => Err(Refusal::NoSuchLetter),
            },
            _ => match quiet_of(step) {
                Some(meant) => self.nodes.node(meant.0).may_quiet(&meant.1),
                None => unreachable!(),
            },
        }
    }
}

impl<Q: Quorums, S: Replica> State<Q, S> {
    // The state before any step.
    pub(crate) fn new(alloc: Global, founders: Q, replica: &S) -> Result<Self, Refusal>
        ensures first { IfOk result (λ w. w ≡ first_world Q.system founders) }
        ensures refused { IfErr result (λ r. r ≡ Refusal.OutOfMemory) }
    {
        let merged = MergedCounts::new(alloc)?;
        let nodes = Nodes::new(alloc, founders, replica)?;
        Ok(State {
            nodes,
            letters: Letters::new(alloc),
            merged,
            chronicle: Chronicle::new(alloc),
        })
    }

    // Takes a step of a run: what it did, or why it is refused.
    pub(crate) fn take(&mut self, step: &Step<Q>) -> Result<Result<Effect<Q>, Refusal>, Refusal>
        requires fits { StepsFit Q.system self.old }
        ensures told { IfOk result (λ r. r ≡ result_of (refusal Q.system self.old step.now) self.old step.now) }
        ensures after { OnOk result (self.new ≡ after Q.system self.old step.now) }
        ensures accepted { OnErr result (refusal Q.system self.old step.now ≡ None) }
        ensures err { OnErr result (self.new ≡ self.old) }
        ensures refused { IfErr result (λ r. r ≡ Refusal.OutOfMemory) }
    {
        match step {
            Step::Call(name, op) => match self.call_lent(*name, op)? {
                Ok(id) => Ok(Ok(Effect::Called(id))),
                Err(refusal) => Ok(Err(refusal)),
            },
            Step::Send(from, to) => match self.send(*from, *to)? {
                Ok(number) => Ok(Ok(Effect::Sent(number))),
                Err(refusal) => Ok(Err(refusal)),
            },
            Step::Advance(id) => self.advance(*id),
            Step::Deliver(number) => match self.deliver(*number)? {
                Ok(()) => Ok(Ok(Effect::Done)),
                Err(refusal) => Ok(Err(refusal)),
            },
            _ => match quiet_of(step) {
                Some(meant) => Ok(self.quiet(meant.0, meant.1)),
                None => unreachable!(),
            },
        }
    }

    // Takes all steps of a run.
    pub(crate) fn take_all(
        &mut self,
        alloc: Global,
        steps: &[Step<Q>],
    ) -> Result<Vec<Result<Effect<Q>, Refusal>>, Refusal>
        requires fits { (done : List (Step _)) → StepsFit Q.system (run_from Q.system self.old done) }
        ensures told { IfOk result (λ rs. rs.items ≡ results_from Q.system self.old steps.now) }
        ensures after { OnOk result (self.new ≡ run_from Q.system self.old steps.now) }
        ensures refused { IfErr result (λ r. r ≡ Refusal.OutOfMemory) }
    {
        let mut results = Vec::new(alloc);
        results.reserve(steps.len())?;
        self.reserve(steps)?;
        for step in steps {
            let result = self.take(step)?;
            results.push(result)?;
        }
        Ok(results)
    }

    // Makes room for what steps may send, call and answer, at once: lists that grow bit by bit leave unused memory.
    fn reserve(&mut self, steps: &[Step<Q>]) -> Result<(), Refusal>
        ensures same { self.new ≡ self.old }
        ensures refused { IfErr result (λ r. r ≡ Refusal.OutOfMemory) }
    {
        let (mut letters, mut calls) = (0usize, 0usize);
        for step in steps {
            match step {
                Step::Send(_, _) => letters = letters.saturating_add(1),
                Step::Call(_, _) => calls = calls.saturating_add(1),
                _ => {}
            }
        }
        self.letters.reserve(letters)?;
        self.chronicle.make_room(calls.saturating_mul(2), calls)
    }
}
