//! What a book keeps of calls and answers.
ghost use Rattle.std.specs.Prelude.{◌≡◌, ◌<◌, Bool, true, false, None, Some, is_some, if◌then◌else◌, IfErr, OnOk};
ghost use Rattle.std.specs.Map.{lookup};
ghost use Rattle.std.specs.Option.{option_copied, option_map};
ghost use Rattle.rambo_history.specs.Calls.{same_call};
ghost use Rattle.rambo_history.specs.Faults.{fault_of};
ghost use Rattle.rambo_history.specs.Histories.{answer_in};
ghost use Rattle.rambo_run.specs.Chronicles.{ChronicleView, IsMarked};
ghost use Rattle.rambo_run.specs.Steps.{with_event};
ghost use Rattle.rambo_book.specs.Records.{IsEmpty, KeepsRecord, Recorded};

use crate::open_calls::OpenCalls;
use rambo_history::{Answer, CallId, Event};
use rambo_names::{Quorums, Refusal};
use rambo_run::{Chronicle, Step};
use rambo_sequence::Mark;
use std::alloc::Global;
use std::marker::Model;

/// What a book keeps of calls and answers: all of them, or the open calls alone.
///
/// Contracts see all of them, if they are kept; else the open calls; and whether there is room for one more step's.
#[derive(Drop)]
pub(crate) struct Record {
    all: Option<Chronicle>,
    // None where all are kept.
    calls: OpenCalls,
}

impl Model for Record {
    ghost use Rattle.rambo_book.specs.Records.{RecordView, room_in};

    ghost Value = { RecordView };

    ghost view = { λ r. record { all = r.all; calls = r.calls.calls; room = room_in r.all r.calls.room } };
}

impl Record {
    /// No call. It allocates nothing.
    pub(crate) fn new(alloc: Global, keeps_all: bool) -> Record
        ensures empty { IsEmpty result }
        ensures all { is_some result.all ≡ keeps_all }
    {
        let all = if keeps_all {
            Some(Chronicle::new(alloc))
        } else {
            None
        };
        Record {
            all,
            calls: OpenCalls::new(alloc),
        }
    }

    /// Makes room for what a step is recorded by.
    ///
    /// `OutOfMemory` where there is none.
    pub(crate) fn make_room<Q: Quorums>(&mut self, step: &Step<Q>) -> Result<(), Refusal>
        ensures same { KeepsRecord self.old self.new }
        ensures room { OnOk result (0 < self.new.room) }
    {
        match &mut self.all {
            Some(chronicle) => {
                if let Step::Call(name, _) = step {
                    chronicle.expect_call(*name)?;
                }
                chronicle.make_room(1, 1)
            }
            None => Ok(self.calls.reserve()?),
        }
    }

    /// Records what a step did, and takes it from where it is lent. There is room for it, and the event may follow the others.
    pub(crate) fn take(&mut self, event: &mut Option<Event>, mark: &mut Option<Mark>)
        requires room { 0 < self.old.room }
        requires fits { (c : ChronicleView) (e : Event) → self.old.all ≡ Some c → event.old ≡ Some e → fault_of c.events e ≡ None }
        requires told { (c : ChronicleView) (m : Mark) → self.old.all ≡ Some c → mark.old ≡ Some m → IsMarked (with_event c.events event.old) m }
        ensures { Recorded event.old mark.old self.old self.new }
    {
        match &mut self.all {
            Some(chronicle) => chronicle.take(event, mark),
            None => {
                if let Some(event) = event.take() {
                    self.calls.take(event);
                }
            }
        }
    }

    /// The answer of a call, if it has one. None where nothing is kept of the call.
    pub(crate) fn answer(&self, id: &CallId) -> Option<Option<&Answer>>
        ensures all { (c : ChronicleView) → self.now.all ≡ Some c → option_map option_copied result ≡ Some (answer_in c.events id.now) }
        ensures kept { self.now.all ≡ None → option_map option_copied result ≡ lookup (same_call id.now) self.now.calls }
    {
        match &self.all {
            Some(chronicle) => Some(chronicle.history().answer(id)),
            None => match self.calls.get(id) {
                Some(Some(answer)) => Some(Some(answer)),
                Some(None) => Some(None),
                None => None,
            },
        }
    }

    /// Nothing is kept of a call any more, unless all is.
    pub(crate) fn forget(&mut self, id: &CallId)
        ensures all { self.new.all ≡ self.old.all }
        ensures kept { self.old.all ≡ None → (q : CallId) → lookup (same_call q) self.new.calls ≡ (if same_call id.now q then None else lookup (same_call q) self.old.calls) }
    {
        let _answer = self.calls.forget(id);
    }

    /// How many calls are kept until their answers are taken.
    pub(crate) fn count(&self) -> usize {
        self.calls.count()
    }

    /// All calls and answers, with the marks, where they are kept.
    pub(crate) fn chronicle(&self) -> Option<&Chronicle>
        ensures { option_copied result ≡ self.now.all }
    {
        self.all.as_ref()
    }
}
