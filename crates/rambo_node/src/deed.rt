//! What a change did.
ghost use Rattle.std.specs.Prelude.{◌≡◌, None, IfOk, IfErr, OnOk, OnErr};
ghost use Rattle.rambo_calls.specs.Kept.{call_found};
ghost use Rattle.rambo_node.specs.Changes.{quiet_deed, get_mark};
ghost use Rattle.rambo_node.specs.Kept.{answer_deed, answered_from};
ghost use Rattle.rambo_node.specs.Operations.{answer_of};
ghost use Rattle.std.specs.Option.{option_copied};

use crate::effect::Effect;
use rambo_calls::{OpenCall, Stage};
use rambo_history::{Answer, CallId, Event, Op};
use rambo_names::{Quorums, Refusal};
use rambo_sequence::Mark;
use rambo_tag::{KeyedVersion, Version};

/// What an accepted change of a node did besides changing it.
#[derive(Drop, Debug)]
pub struct Deed<Q> {
    /// What is reported of it. A letter that is sent has no number here: `Done` is reported of it.
    pub effect: Effect<Q>,
    /// The call or the answer that goes into the history.
    pub event: Option<Event>,
    /// A set that took its tag, or a get that was answered.
    pub mark: Option<Mark>,
    /// The copy that a set put into the node's registers.
    pub copy: Option<KeyedVersion>,
}

/// That of a change that only changed its node.
impl<Q: Copy> Default for Deed<Q> {
    ghost is_default = { λ d. d ≡ quiet_deed };

    fn default() -> Deed<Q> {
        Deed {
            effect: Effect::Done,
            event: None,
            mark: None,
            copy: None,
        }
    }
}

impl<Q: Copy> Deed<Q> {
    // Nothing is told any more.
    pub(crate) fn clear(&mut self)
        ensures { self.new ≡ quiet_deed }
    {
        self.effect = Effect::Done;
        self.event = None;
        self.mark = None;
        self.copy = None;
    }

    // Writes what a met propagation does, which propagated a copy.
    fn tell_answer(&mut self, id: CallId, op: &Op, kept: &Option<Version>) -> Result<(), Refusal>
        requires { self.old ≡ quiet_deed }
        ensures ok { OnOk result (self.new ≡ answer_deed id op.now kept.now) }
        ensures refused { IfErr result (λ r. r ≡ Refusal.OutOfMemory) }
        ensures err { OnErr result (self.new ≡ self.old) }
    {
        let answer = answer_of(op, kept)?;
        let told = answer.clone()?;
        self.mark_get(&id, op, kept)?;
        self.event = Some(Event::Answer(id, told));
        self.effect = Effect::Answered(id, answer);
        Ok(())
    }

    // Marks a get as it is answered.
    fn mark_get(&mut self, id: &CallId, op: &Op, kept: &Option<Version>) -> Result<(), Refusal>
        requires { self.old.mark ≡ None }
        ensures ok { OnOk result (self.new ≡ record self.old { mark = get_mark id.now op.now kept.now }) }
        ensures refused { IfErr result (λ r. r ≡ Refusal.OutOfMemory) }
        ensures err { OnErr result (self.new ≡ self.old) }
    {
        match op {
            Op::Set(_, _) => Ok(()),
            Op::Get(_) => {
                let op = op.clone()?;
                let kept = clone_of(kept.as_ref())?;
                self.mark = Some(Mark { id: *id, op, kept });
                Ok(())
            }
        }
    }
}

// Writes to a deed what a call does when its propagation is met, if there is one that is in it.
pub(crate) fn tell_answered<Q: Quorums>(
    deed: &mut Deed<Q>,
    id: CallId,
    call: Option<&OpenCall<Q>>,
) -> Result<(), Refusal>
    requires { deed.old ≡ quiet_deed }
    ensures ok { OnOk result (deed.new ≡ answered_from id (call_found (option_copied call.entry))) }
    ensures refused { IfErr result (λ r. r ≡ Refusal.OutOfMemory) }
    ensures err { OnErr result (deed.new ≡ deed.old) }
{
    match call {
        Some(call) => match &call.stage {
            Stage::Query => Ok(()),
            Stage::Propagation(kept) => deed.tell_answer(id, &call.op, kept),
        },
        None => Ok(()),
    }
}

// The answer to an operation that propagated a copy.
fn answer_of(op: &Op, kept: &Option<Version>) -> Result<Answer, Refusal>
    ensures ok { IfOk result (λ answer. answer ≡ answer_of op.now kept.now) }
    ensures refused { IfErr result (λ r. r ≡ Refusal.OutOfMemory) }
{
    match op {
        Op::Set(_, _) => Ok(Answer::Ok),
        Op::Get(_) => match kept {
            Some(
                Version {
                    value: Some(value),
                    ..
                },
            ) => Ok(Answer::Value(value.clone()?)),
            _ => Ok(Answer::Nil),
        },
    }
}

pub(crate) fn clone_of(version: Option<&Version>) -> Result<Option<Version>, Refusal>
    ensures same { IfOk result (λ v. v ≡ option_copied version.entry) }
    ensures refused { IfErr result (λ r. r ≡ Refusal.OutOfMemory) }
{
    match version {
        Some(version) => Ok(Some(version.clone()?)),
        None => Ok(None),
    }
}
