//! Runs that go on, of any kind.
ghost use Rattle.std.specs.Prelude.{◌≡◌, List, ℕ, None, IfOk, IfErr, OnOk, OnErr};
ghost use Rattle.rambo_history.specs.Proper.{IsProper};
ghost use Rattle.rambo_sequence.specs.Sequences.{sequences_of, sequence_in};
ghost use Rattle.rambo_node.specs.declared.step.StepOf.TheVariants as step;
ghost use Rattle.rambo_run.specs.Ongoing.{RunningOf, AgreesSoFar};
ghost use Rattle.rambo_run.specs.Runs.{after, result_of, maps_of};
ghost use Rattle.rambo_run.specs.Steps.{refusal};
ghost use Rattle.rambo_run.specs.Told.{sent, called, delivered, advanced};

use crate::outcome::NodeMap;
use rambo_history::{Answer, CallId, History, Op};
use rambo_names::{Name, Quorums, Refusal};
use rambo_node::{Effect, Step};
use rambo_sequence::KeySequence;
use std::alloc::Global;

/// A run that goes on step by step, however it is stored.
///
/// `Running` of `rambo_world` is one, over any replica. Code that reads steps and reports what they did (`rambo_steps`)
/// needs to know no more of it.
pub trait Run<Q: Quorums> {
    // Its founders, and the world that its steps made of theirs.
    ghost running: { Self → RunningOf Q };

    /// Takes a step. Returns what it did, or why it was refused; the run then goes on.
    ///
    /// `OutOfMemory` where there is no room for what it does; then nothing changes. A refusal needs no room.
    fn take(&mut self, step: &Step<Q>) -> Result<Result<Effect<Q>, Refusal>, Refusal>
        ensures told { IfOk result (λ r. r ≡ result_of (refusal Q.system (running self.old).state step.now) (running self.old).state step.now) }
        ensures after { OnOk result (running self.new ≡ record (running self.old) { state = after Q.system (running self.old).state step.now }) }
        ensures accepted { OnErr result (refusal Q.system (running self.old).state step.now ≡ None) }
        ensures err { OnErr result (running self.new ≡ running self.old) }
        ensures refused { IfErr result (λ r. r ≡ Refusal.OutOfMemory) };

    /// A node sends a letter to another. Returns the number of the letter, or why that was refused; the run then goes
    /// on.
    ///
    /// `OutOfMemory` where there is no room for the letter; then nothing changes. A refusal needs no room.
    fn send(&mut self, from: Name, to: Name) -> Result<Result<u64, Refusal>, Refusal>
        ensures told { IfOk result (λ r. sent r ≡ result_of (refusal Q.system (running self.old).state (step.Send from to)) (running self.old).state (step.Send from to)) }
        ensures after { OnOk result (running self.new ≡ record (running self.old) { state = after Q.system (running self.old).state (step.Send from to) }) }
        ensures accepted { OnErr result (refusal Q.system (running self.old).state (step.Send from to) ≡ None) }
        ensures err { OnErr result (running self.new ≡ running self.old) }
        ensures refused { IfErr result (λ r. r ≡ Refusal.OutOfMemory) };

    /// The letter of a number comes to its addressee. Returns why not, if that was refused; the run then goes on.
    ///
    /// `OutOfMemory` where there is no room for what the letter carries; then nothing changes. A refusal needs no room.
    fn deliver(&mut self, number: u64) -> Result<Result<(), Refusal>, Refusal>
        ensures told { IfOk result (λ r. delivered r ≡ result_of (refusal Q.system (running self.old).state (step.Deliver number)) (running self.old).state (step.Deliver number)) }
        ensures after { OnOk result (running self.new ≡ record (running self.old) { state = after Q.system (running self.old).state (step.Deliver number) }) }
        ensures accepted { OnErr result (refusal Q.system (running self.old).state (step.Deliver number) ≡ None) }
        ensures err { OnErr result (running self.new ≡ running self.old) }
        ensures refused { IfErr result (λ r. r ≡ Refusal.OutOfMemory) };

    /// A client asks a node for an operation. Returns the call, or why that was refused; the run then goes on.
    ///
    /// `OutOfMemory` where there is no room for the call; then nothing changes. A refusal needs no room.
    fn call(&mut self, name: Name, op: Op) -> Result<Result<CallId, Refusal>, Refusal>
        ensures told { IfOk result (λ r. called r ≡ result_of (refusal Q.system (running self.old).state (step.Call name op)) (running self.old).state (step.Call name op)) }
        ensures after { OnOk result (running self.new ≡ record (running self.old) { state = after Q.system (running self.old).state (step.Call name op) }) }
        ensures accepted { OnErr result (refusal Q.system (running self.old).state (step.Call name op) ≡ None) }
        ensures err { OnErr result (running self.new ≡ running self.old) }
        ensures refused { IfErr result (λ r. r ≡ Refusal.OutOfMemory) };

    /// Advances a call. Returns its answer, if it got one, or why that was refused; the run then goes on.
    ///
    /// `OutOfMemory` where there is no room for what it does; then nothing changes. A refusal needs no room.
    fn advance(&mut self, id: CallId) -> Result<Result<Option<Answer>, Refusal>, Refusal>
        ensures told { IfOk result (λ r. advanced id r ≡ result_of (refusal Q.system (running self.old).state (step.Advance id)) (running self.old).state (step.Advance id)) }
        ensures after { OnOk result (running self.new ≡ record (running self.old) { state = after Q.system (running self.old).state (step.Advance id) }) }
        ensures accepted { OnErr result (refusal Q.system (running self.old).state (step.Advance id) ≡ None) }
        ensures err { OnErr result (running self.new ≡ running self.old) }
        ensures refused { IfErr result (λ r. r ≡ Refusal.OutOfMemory) };

    /// The calls and answers, in order.
    fn history(&self) -> &History
        ensures { result.now.events ≡ (running self.now).state.history };

    /// The given sequences of all keys that have one. The answered operations of each key, with some sets that weren't
    /// answered, are in its sequence. Each get answers the latest set before it, or nil. What was answered before
    /// another operation was called comes before it.
    ///
    /// `OutOfMemory` where there is no room for them.
    fn sequences(&self, alloc: Global) -> Result<Vec<KeySequence>, Refusal>
        ensures given { IfOk result (λ s. s.items ≡ sequences_of (running self.now).state.history (running self.now).state.marks) }
        ensures proper { IfOk result (λ s. (key : List ℕ) → IsProper (running self.now).state.history key (sequence_in s.items key)) }
        ensures refused { IfErr result (λ r. r ≡ Refusal.OutOfMemory) };

    /// The maps of the nodes that aren't idle. No two nodes, at one moment of the run or at two, hold different
    /// configurations at one place.
    ///
    /// `OutOfMemory` where there is no room for them.
    fn maps(&self, alloc: Global) -> Result<Vec<NodeMap<Q>>, Refusal>
        ensures maps { IfOk result (λ maps. maps.items ≡ maps_of (running self.now).state.nodes) }
        ensures agreed { AgreesSoFar Q.system (running self.now).founders (running self.now).state }
        ensures refused { IfErr result (λ r. r ≡ Refusal.OutOfMemory) };
}
