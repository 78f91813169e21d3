//! Letters that wait for one name.
ghost use Rattle.std.specs.Prelude.{◌≡◌, ◌<◌, ◌≤◌, ◌-◌, ◌++◌, ◌∷◌, [], drop, slice_get, OnOk, IfErr};
ghost use Rattle.rambo_mail.specs.Waiting.{drop_gone, starts_gone};

use crate::entry::Entry;
use rambo_names::Refusal;
use std::alloc::Global;
use std::collections::VecDeque;
use std::marker::Model;

/// The letters that wait for one name, in the order in which they were sent.
#[derive(Drop)]
pub(crate) struct Queue {
    entries: VecDeque<Entry>,
}

impl Model for Queue {
    ghost use Rattle.std.specs.Prelude.{◌-◌};
    ghost use Rattle.std.specs.VecDeque.{deque_len, deque_capacity};
    ghost use Rattle.rambo_mail.specs.Queues.{QueueState};

    ghost Value = { QueueState };

    ghost view = { λ q. record { entries = q.entries.items; room = deque_capacity q.entries - deque_len q.entries } };
}

impl Queue {
    /// No letter. It allocates nothing.
    pub(crate) fn new(alloc: Global) -> Queue
        ensures { result.entries ≡ [] }
    {
        Queue {
            entries: VecDeque::new(alloc),
        }
    }

    /// Makes room for a letter that may have to wait twice.
    ///
    /// `OutOfMemory` where there is none.
    pub(crate) fn make_room(&mut self) -> Result<(), Refusal>
        ensures same { self.new.entries ≡ self.old.entries }
        ensures more { self.old.room ≤ self.new.room }
        ensures room { OnOk result (2 ≤ self.new.room) }
        ensures refused { IfErr result (λ r. r ≡ Refusal.OutOfMemory) }
    {
        Ok(self.entries.reserve(2)?)
    }

    /// This letter waits too, for which there is room.
    pub(crate) fn push(&mut self, entry: Entry)
        ensures { 0 < self.old.room → self.new ≡ record { entries = self.old.entries ++ entry ∷ []; room = self.old.room - 1 } }
    {
        let _ = self.entries.push_back(entry).is_ok();
    }

    /// The letter that waits for the longest time.
    pub(crate) fn first(&self) -> Option<Entry>
        ensures { result ≡ slice_get self.now.entries 0 }
    {
        match self.entries.front() {
            Some(entry) => Some(*entry),
            None => None,
        }
    }

    /// That letter waits no more.
    pub(crate) fn drop_first(&mut self)
        ensures rest { self.new.entries ≡ drop 1 self.old.entries }
        ensures more { self.old.room ≤ self.new.room }
    {
        let _ = self.entries.pop_front();
    }

    /// The letters from its front on that are gone wait no more: those of this number or less.
    pub(crate) fn drop_gone(&mut self, gone: u64)
        ensures rest { self.new.entries ≡ drop_gone gone self.old.entries }
        ensures more { self.old.room ≤ self.new.room }
    {
        while self.starts_gone(gone) {
            self.drop_first();
        }
    }

    // Whether the letter that waits for the longest time, if there is one, is gone.
    fn starts_gone(&self, gone: u64) -> bool
        ensures { result ≡ starts_gone gone self.now.entries }
    {
        match self.entries.front() {
            Some(entry) => entry.number <= gone,
            None => false,
        }
    }
}
