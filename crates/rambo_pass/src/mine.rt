//! A client's own calls.
ghost use Rattle.std.specs.Prelude.{◌≡◌, ◌<◌, ◌++◌, ◌∷◌, [], length, MatchOption, OnOk};
ghost use Rattle.std.specs.List.{remove};
ghost use Rattle.rambo_pass.specs.Passes.{IsEntry, IsNone};

use rambo_history::CallId;
use std::alloc::{AllocError, Global};
use std::marker::Model;

/// A call of a client that waits for its answer.
#[derive(Clone, Copy)]
pub struct Entry {
    /// How many steps were before it.
    pub place: usize,
    /// Its id.
    pub id: CallId,
}

/// The calls of a client that wait for their answers, in their order. They are few: a node has 64 open calls at most.
#[derive(Drop)]
pub(crate) struct Mine {
    entries: Vec<Entry>,
}

impl Model for Mine {
    ghost use Rattle.std.specs.Prelude.{◌-◌};
    ghost use Rattle.std.specs.Vec.{vec_capacity, vec_len};
    ghost use Rattle.rambo_pass.specs.Passes.{MineState};

    ghost Value = { MineState };

    ghost view = { λ m. record { entries = m.entries.items; room = vec_capacity m.entries - vec_len m.entries } };
}

impl Mine {
    // No call. It allocates nothing.
    pub(crate) fn new(alloc: Global) -> Mine
        ensures { result.entries ≡ [] }
    {
        Mine {
            entries: Vec::new(alloc),
        }
    }

    // Makes room for one more call.
    pub(crate) fn reserve(&mut self) -> Result<(), AllocError>
        ensures entries { self.new.entries ≡ self.old.entries }
        ensures ok { OnOk result (0 < self.new.room) }
    {
        self.entries.reserve(1)
    }

    // Puts a call at the end, for which room was made.
    pub(crate) fn push_reserved(&mut self, entry: Entry)
        requires { 0 < self.old.room }
        ensures { self.new.entries ≡ self.old.entries ++ entry ∷ [] }
    {
        self.entries.push_reserved(entry);
    }

    // The place of a call, if it is one of these.
    pub(crate) fn find(&self, id: &CallId) -> Option<usize>
        ensures { MatchOption result (IsNone self.now.entries id.now) (IsEntry self.now.entries id.now) }
    {
        place_of(self.entries.as_slice(), *id)
    }

    // The call at a place waits no longer.
    pub(crate) fn settle(&mut self, place: usize)
        requires { place < length self.old.entries }
        ensures { self.new.entries ≡ remove self.old.entries place }
    {
        let _entry = self.entries.remove(place);
    }
}

// The place of a call among these, if it is one of them.
fn place_of(entries: &[Entry], id: CallId) -> Option<usize>
    ensures { MatchOption result (IsNone entries.now id) (IsEntry entries.now id) }
{
    for at in 0..entries.len() {
        let own = entries[at].id;
        if own.name == id.name && own.number == id.number {
            return Some(at);
        }
    }
    None
}
