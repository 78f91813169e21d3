//! Steps of one node.
ghost use Rattle.std.specs.Prelude.{◌≡◌, None, Some, OnOk, OnErr, IfOk, IfErr};
ghost use Rattle.rambo_names.specs.Refusals.{least};
ghost use Rattle.rambo_run.specs.Runs.{after, result_of};
ghost use Rattle.rambo_run.specs.Steps.{causes_at, refusal, turn_at};
ghost use Rattle.rambo_run.specs.Told.{called};
ghost use Rattle.rambo_run.specs.Worlds.{node_at};
ghost use Rattle.rambo_node.specs.declared.step.StepOf.TheVariants as step;
ghost use Rattle.rambo_world.specs.Worlds.{EventFits, MarkFits};
ghost use Rattle.rambo_node.specs.Acts as act;

use crate::state::State;
use rambo_history::{CallId, Op};
use rambo_names::{Name, Quorums, Refusal};
use rambo_node::{Deed, Effect, Moving, Quiet};
use rambo_tag::Replica;

impl<Q: Quorums, S: Replica> State<Q, S> {
    // A node takes a change that is quiet: what it did, or why it is refused.
    pub(crate) fn quiet(&mut self, name: Name, quiet: Quiet<Q>) -> Result<Effect<Q>, Refusal>
        ensures ok { IfOk result (λ e. turn_at self.old name (node_at self.old name) (act.Quietly quiet) ≡ record { world = self.new; effect = e }) }
        ensures accepted { OnOk result (least (causes_at Q.system (node_at self.old name) (act.Quietly quiet)) ≡ None) }
        ensures refused { IfErr result (λ r. least (causes_at Q.system (node_at self.old name) (act.Quietly quiet)) ≡ Some r) }
        ensures err { OnErr result (self.new ≡ self.old) }
    {
        let effect = self.nodes.node_mut(name).quietly(quiet)?;
        Ok(effect)
    }

    // A client asks a node for an operation: the call, or why it is refused.
    pub(crate) fn call(&mut self, name: Name, op: Op) -> Result<Result<CallId, Refusal>, Refusal>
        requires fits { refusal Q.system self.old (step.Call name op) ≡ None → EventFits self.old name (act.Call op) }
        ensures told { IfOk result (λ r. called r ≡ result_of (refusal Q.system self.old (step.Call name op)) self.old (step.Call name op)) }
        ensures after { OnOk result (self.new ≡ after Q.system self.old (step.Call name op)) }
        ensures accepted { OnErr result (refusal Q.system self.old (step.Call name op) ≡ None) }
        ensures err { OnErr result (self.new ≡ self.old) }
        ensures refused { IfErr result (λ r. r ≡ Refusal.OutOfMemory) }
    {
        if let Err(refusal) = self.nodes.node(name).may_call(&op) {
            return Ok(Err(refusal));
        }
        self.chronicle.make_room(1, 0)?;
        let _ = self.chronicle.expect_call(name);
        let asked = op.clone()?;
        let id = self.nodes.call(name, op)?;
        self.chronicle.add_call(&id, asked);
        Ok(Ok(id))
    }

    // The same where the operation is borrowed.
    pub(crate) fn call_lent(
        &mut self,
        name: Name,
        op: &Op,
    ) -> Result<Result<CallId, Refusal>, Refusal>
        requires fits { refusal Q.system self.old (step.Call name op.now) ≡ None → EventFits self.old name (act.Call op.now) }
        ensures told { IfOk result (λ r. called r ≡ result_of (refusal Q.system self.old (step.Call name op.now)) self.old (step.Call name op.now)) }
        ensures after { OnOk result (self.new ≡ after Q.system self.old (step.Call name op.now)) }
        ensures accepted { OnErr result (refusal Q.system self.old (step.Call name op.now) ≡ None) }
        ensures err { OnErr result (self.new ≡ self.old) }
        ensures refused { IfErr result (λ r. r ≡ Refusal.OutOfMemory) }
    {
        match op.clone() {
            Ok(op) => self.call(name, op),
            Err(full) => {
                // (a refusal needs no room)
                if let Err(refusal) = self.nodes.node(name).may_call(op) {
                    return Ok(Err(refusal));
                }
                Err(full)
            }
        }
    }

    // A call goes on: what it did, or why it is refused.
    pub(crate) fn advance(&mut self, id: CallId) -> Result<Result<Effect<Q>, Refusal>, Refusal>
        requires fits { refusal Q.system self.old (step.Advance id) ≡ None → EventFits self.old id.name (act.Advance id) }
        requires told { refusal Q.system self.old (step.Advance id) ≡ None → MarkFits self.old id.name (act.Advance id) }
        ensures told { IfOk result (λ r. r ≡ result_of (refusal Q.system self.old (step.Advance id)) self.old (step.Advance id)) }
        ensures after { OnOk result (self.new ≡ after Q.system self.old (step.Advance id)) }
        ensures accepted { OnErr result (refusal Q.system self.old (step.Advance id) ≡ None) }
        ensures err { OnErr result (self.new ≡ self.old) }
        ensures refused { IfErr result (λ r. r ≡ Refusal.OutOfMemory) }
    {
        // (a deed is large, and is cleared once where it is made before all else)
        let mut deed = Deed::default();
        let found = match self.nodes.node(id.name).may_advance(&id) {
            Ok(found) => found,
            Err(refusal) => return Ok(Err(refusal)),
        };
        let mut moving = Moving {
            id,
            found,
            kept: None,
            put: None,
        };
        self.nodes.ready_advance(&mut moving, &mut deed)?;
        self.chronicle.make_room_for(&deed.event, &deed.mark)?;
        self.nodes.finish_advance(&mut moving, &mut deed)?;
        self.chronicle.take(&mut deed.event, &mut deed.mark);
        Ok(Ok(deed.effect))
    }
}
