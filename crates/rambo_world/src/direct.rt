//! Runs whose letters come as they are sent.
ghost use Rattle.std.specs.Prelude.{◌≡◌, None, IfOk, IfErr, OnOk, OnErr};
ghost use Rattle.rambo_names.specs.Refusals.{least, IsRefusal};
ghost use Rattle.rambo_run.specs.Runs.{after, result_of};
ghost use Rattle.rambo_run.specs.Steps.{refusal};
ghost use Rattle.rambo_run.specs.Worlds.{first_world, founding_causes};
ghost use Rattle.rambo_node.specs.declared.step.StepOf.TheVariants as step;
ghost use Rattle.rambo_run.specs.Told.{called, advanced};
ghost use Rattle.rambo_world.specs.Direct.{bare, passed, pass_refusal, told_refusal, IsReachedBare};

use crate::nodes::Nodes;
use crate::running::answer_got;
use rambo_history::{Answer, CallId, Op};
use rambo_logs::MergedCounts;
use rambo_names::{Name, Quorums, Refusal};
use rambo_node::{Deed, Moving};
use rambo_run::may_found;
use rambo_tag::Replica;
use std::alloc::Global;
use std::marker::Model;

/// A run that goes on step by step, in which each letter is delivered as it is sent. Neither steps nor letters are
/// stored, nor calls and answers, but the nodes as the steps left them.
#[derive(Drop)]
pub struct Direct<Q: Quorums, S: Replica> {
    founders: Q,
    nodes: Nodes<Q, S>,
    merged: MergedCounts,
}

impl<Q: Quorums, S: Replica> Model for Direct<Q, S> {
    ghost use Rattle.std.specs.Prelude.{[]};
    ghost use Rattle.std.specs.Coded.{codes};
    ghost use Rattle.rambo_names.specs.Names.{names_code};
    ghost use Rattle.rambo_tag.specs.Copies.{copies_code};
    ghost use Rattle.rambo_run.specs.Ongoing.{RunningOf};
    ghost use Rattle.rambo_world.specs.Deliveries.{world_of};
    ghost use Rattle.rambo_world.specs.Direct.{IsReachedBare};
    ghost use Rattle.rambo_world.specs.Kept.{IsKept};

    ghost Value = { RunningOf Q };

    ghost coded = { Prim.hlevel (codes, names_code, copies_code, Q.code) };

    ghost view = { λ d. record { founders = d.founders; state = world_of d.nodes [] [] [] } };

    ghost invariant = { λ d. IsReachedBare Q.system d.founders (world_of d.nodes [] [] []) × IsKept d.nodes [] d.merged };
}

impl<Q: Quorums, S: Replica> Direct<Q, S> {
    /// The run of these founders, before any step. The copies of each node are made by `fresh` of a replica.
    ///
    /// Refused with 18 where there is no founder, 22 where there is no room for it.
    pub fn new(alloc: Global, founders: Q, replica: &S) -> Result<Direct<Q, S>, Refusal>
        ensures founded { OnOk result (least (founding_causes Q.system founders) ≡ None) }
        ensures made { IfOk result (λ d. d ≡ record { founders = founders; state = first_world Q.system founders }) }
        ensures refused { IfErr result (IsRefusal (least (founding_causes Q.system founders))) }
    {
        may_found(founders)?;
        let merged = MergedCounts::new(alloc)?;
        let nodes = Nodes::new(alloc, founders, replica)?;
        Ok(Direct {
            founders,
            nodes,
            merged,
        })
    }

    /// A client asks a node for an operation. Returns the call, or why that was refused; the run then goes on.
    ///
    /// `OutOfMemory` where there is no room for the call; then nothing changes. A refusal needs no room.
    pub fn call(&mut self, name: Name, op: Op) -> Result<Result<CallId, Refusal>, Refusal>
        ensures told { IfOk result (λ r. called r ≡ result_of (refusal Q.system self.old.state (step.Call name op)) self.old.state (step.Call name op)) }
        ensures named { IfOk result (λ r. IfOk r (λ id. id.name ≡ name)) }
        ensures after { OnOk result (self.new ≡ record self.old { state = bare (after Q.system self.old.state (step.Call name op)) }) }
        ensures accepted { OnErr result (refusal Q.system self.old.state (step.Call name op) ≡ None) }
        ensures err { OnErr result (self.new ≡ self.old) }
        ensures refused { IfErr result (λ r. r ≡ Refusal.OutOfMemory) }
    {
        if let Err(refusal) = self.nodes.node(name).may_call(&op) {
            return Ok(Err(refusal));
        }
        let id = self.nodes.call(name, op)?;
        Ok(Ok(id))
    }

    /// A node sends a letter to another, to which it comes at once. Returns why not, if it isn't sent or isn't heard;
    /// the run then goes on without the letter.
    ///
    /// `OutOfMemory` where there is no room for what the letter carries; then nothing changes. A refusal needs no room.
    pub fn pass(&mut self, from: Name, to: Name) -> Result<Result<(), Refusal>, Refusal>
        ensures told { IfOk result (λ r. told_refusal r ≡ pass_refusal Q.system self.old.state from to) }
        ensures after { OnOk result (self.new ≡ record self.old { state = passed Q.system self.old.state from to }) }
        ensures accepted { OnErr result (pass_refusal Q.system self.old.state from to ≡ None) }
        ensures err { OnErr result (self.new ≡ self.old) }
        ensures refused { IfErr result (λ r. r ≡ Refusal.OutOfMemory) }
    {
        if let Err(refusal) = self.nodes.node(from).may_send(to) {
            return Ok(Err(refusal));
        }
        let before = self.merged.of(to, from);
        match self.nodes.pass(from, to, before)? {
            Ok(heard) => {
                self.merged.raise(to, from, heard);
                Ok(Ok(()))
            }
            Err(refusal) => Ok(Err(refusal)),
        }
    }

    /// Advances a call. Returns its answer, if it got one, or why that was refused; the run then goes on.
    ///
    /// `OutOfMemory` where there is no room for what it does; then nothing changes. A refusal needs no room.
    pub fn advance(&mut self, id: CallId) -> Result<Result<Option<Answer>, Refusal>, Refusal>
        ensures told { IfOk result (λ r. advanced id r ≡ result_of (refusal Q.system self.old.state (step.Advance id)) self.old.state (step.Advance id)) }
        ensures after { OnOk result (self.new ≡ record self.old { state = bare (after Q.system self.old.state (step.Advance id)) }) }
        ensures reached { IsReachedBare Q.system self.new.founders self.new.state }
        ensures accepted { OnErr result (refusal Q.system self.old.state (step.Advance id) ≡ None) }
        ensures err { OnErr result (self.new ≡ self.old) }
        ensures refused { IfErr result (λ r. r ≡ Refusal.OutOfMemory) }
    {
        // (a deed is large, and is cleared once where it is made before all else)
        let mut deed = Deed::default();
        let found = match self.nodes.node(id.name).may_advance(&id) {
            Ok(found) => found,
            Err(refusal) => return Ok(Err(refusal)),
        };
        let mut moving = Moving {
            id,
            found,
            kept: None,
            put: None,
        };
        self.nodes.ready_advance(&mut moving, &mut deed)?;
        self.nodes.finish_advance(&mut moving, &mut deed)?;
        Ok(answer_got(Ok(deed.effect)))
    }
}
