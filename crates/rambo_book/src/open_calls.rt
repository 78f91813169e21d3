//! Calls whose answers weren't taken.
ghost use Rattle.std.specs.Prelude.{◌≡◌, ◌<◌, [], None, Some, if◌then◌else◌, OnOk};
ghost use Rattle.std.specs.Map.{lookup};
ghost use Rattle.std.specs.HashMap.{spare};
ghost use Rattle.std.specs.Option.{option_copied, option_map};
ghost use Rattle.rambo_history.specs.declared.event.CallId.{CallId};
ghost use Rattle.rambo_history.specs.Calls.{same_call};
ghost use Rattle.rambo_book.specs.OpenCalls.{told_now, Takes, KeepsCalls};

use rambo_history::{Answer, CallId, Event, Op};
use std::alloc::{AllocError, Global};
use std::collections::HashMap;
use std::marker::Model;

/// Calls, each with its answer once there is one, until the answer is taken or the call is given up.
#[derive(Drop)]
pub(crate) struct OpenCalls {
    calls: HashMap<CallId, Option<Answer>>,
}

impl Model for OpenCalls {
    ghost use Rattle.std.specs.HashMap.{spare};
    ghost use Rattle.rambo_book.specs.OpenCalls.{OpenState};

    ghost Value = { OpenState };

    ghost view = { λ o. record { calls = o.calls.entries; room = spare o.calls } };
}

impl OpenCalls {
    /// No call. It allocates nothing.
    pub(crate) fn new(alloc: Global) -> OpenCalls
        ensures { result.calls ≡ [] }
    {
        OpenCalls {
            calls: HashMap::new(alloc),
        }
    }

    /// How many calls are open.
    pub(crate) fn count(&self) -> usize {
        self.calls.len()
    }

    /// Makes room for one more call.
    pub(crate) fn reserve(&mut self) -> Result<(), AllocError>
        ensures same { KeepsCalls self.old.calls self.new.calls }
        ensures room { OnOk result (0 < self.new.room) }
    {
        self.calls.reserve(1)
    }

    /// A call that was made is open, and an answer goes to its call, if that is still open here. There is room.
    pub(crate) fn take(&mut self, event: Event)
        requires { 0 < self.old.room }
        ensures { Takes event self.old.calls self.new.calls }
    {
        match event {
            Event::Call(id, op) => begin(&mut self.calls, id, op),
            Event::Answer(id, answer) => tell(&mut self.calls, id, answer),
        }
    }

    /// The answer of a call, if it has one. None where the call isn't open here.
    pub(crate) fn get(&self, id: &CallId) -> Option<&Option<Answer>>
        ensures { option_copied result ≡ lookup (same_call id.now) self.now.calls }
    {
        self.calls.get(id)
    }

    /// A call is open here no more. Returns its answer, if it was and has one.
    pub(crate) fn forget(&mut self, id: &CallId) -> Option<Option<Answer>>
        ensures told { result ≡ lookup (same_call id.now) self.old.calls }
        ensures rest { (q : CallId) → lookup (same_call q) self.new.calls ≡ (if same_call id.now q then None else lookup (same_call q) self.old.calls) }
    {
        self.calls.remove(id)
    }
}

// A call without an answer is open.
fn begin(calls: &mut HashMap<CallId, Option<Answer>>, id: CallId, _op: Op)
    requires { 0 < spare calls.old }
    ensures { (q : CallId) → lookup (same_call q) calls.new.entries ≡ (if same_call id q then Some None else lookup (same_call q) calls.old.entries) }
{
    let _ = calls.insert(id, None);
}

// An open call has an answer.
fn tell(calls: &mut HashMap<CallId, Option<Answer>>, id: CallId, answer: Answer)
    ensures { (q : CallId) → lookup (same_call q) calls.new.entries ≡ (if same_call id q then option_map (told_now answer) (lookup (same_call id) calls.old.entries) else lookup (same_call q) calls.old.entries) }
{
    if let Some(told) = calls.get_mut(&id) {
        *told = Some(answer);
    }
}
