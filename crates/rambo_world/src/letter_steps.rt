//! Letters are sent and delivered.
ghost use Rattle.std.specs.Prelude.{◌≡◌, None, OnOk, OnErr, IfOk, IfErr};
ghost use Rattle.rambo_run.specs.Runs.{after, result_of};
ghost use Rattle.rambo_run.specs.Steps.{refusal};
ghost use Rattle.rambo_run.specs.Told.{sent, delivered};
ghost use Rattle.rambo_node.specs.declared.step.StepOf.TheVariants as step;

use crate::state::State;
use rambo_letters::Outline;
use rambo_names::{Name, Quorums, Refusal};
use rambo_tag::Replica;

impl<Q: Quorums, S: Replica> State<Q, S> {
    // A node sends a letter to another: the number of the letter, or why it isn't sent.
    pub(crate) fn send(&mut self, from: Name, to: Name) -> Result<Result<u64, Refusal>, Refusal>
        ensures told { IfOk result (λ r. sent r ≡ result_of (refusal Q.system self.old (step.Send from to)) self.old (step.Send from to)) }
        ensures after { OnOk result (self.new ≡ after Q.system self.old (step.Send from to)) }
        ensures accepted { OnErr result (refusal Q.system self.old (step.Send from to) ≡ None) }
        ensures err { OnErr result (self.new ≡ self.old) }
        ensures refused { IfErr result (λ r. r ≡ Refusal.OutOfMemory) }
    {
        if let Err(refusal) = self.nodes.node(from).may_send(to) {
            return Ok(Err(refusal));
        }
        self.letters.push(&self.nodes.outline(from, to))?;
        Ok(Ok(self.letters.len() as u64))
    }

    // The letter of a number comes to its addressee, or why it doesn't: of its sender's log that hears what it hasn't merged
    // before.
    pub(crate) fn deliver(&mut self, number: u64) -> Result<Result<(), Refusal>, Refusal>
        ensures told { IfOk result (λ r. delivered r ≡ result_of (refusal Q.system self.old (step.Deliver number)) self.old (step.Deliver number)) }
        ensures after { OnOk result (self.new ≡ after Q.system self.old (step.Deliver number)) }
        ensures accepted { OnErr result (refusal Q.system self.old (step.Deliver number) ≡ None) }
        ensures err { OnErr result (self.new ≡ self.old) }
        ensures refused { IfErr result (λ r. r ≡ Refusal.OutOfMemory) }
    {
        let sent = match self.letters.get(number) {
            Some(sent) => sent,
            None => return Ok(Err(Refusal::NoSuchLetter)),
        };
        let Outline { letter, told } = sent;
        let (from, to) = (letter.sender, letter.addressee);
        let before = self.merged.of(to, from);
        match self.nodes.hear(&letter, before, before.max(told))? {
            Ok(()) => {
                self.merged.raise(to, from, told);
                Ok(Ok(()))
            }
            Err(refusal) => Ok(Err(refusal)),
        }
    }
}
