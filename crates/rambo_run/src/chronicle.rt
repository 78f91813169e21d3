//! All calls and answers of a run, with the marks.
ghost use Rattle.std.specs.Prelude.{◌≡◌, ◌≤◌, ◌<◌, ◌++◌, ◌∷◌, [], Some, None, IfOk, IfErr, OnOk};
ghost use Rattle.rambo_history.specs.Faults.{fault_of};
ghost use Rattle.rambo_run.specs.Chronicles.{IsMarked};
ghost use Rattle.rambo_run.specs.Steps.{with_event, with_mark};
ghost use Rattle.rambo_sequence.specs.Sequences.{sequence_of, sequences_of};
ghost use Rattle.rambo_sequence.specs.StoreOrders.{NoTwice, all_calls, order_of};

use rambo_history::{CallId, Event, History, Op};
use rambo_names::{Name, Refusal};
use rambo_sequence::{KeySequence, Mark, TaggedPlace};
use std::alloc::Global;
use std::marker::Model;

/// All calls and answers of a run, with the marks: what the sequences of its keys and one order of all its calls are made from.
///
/// Of a mark the place of its call is kept, and the tag of its copy: what it asked and its value stand in the history. Contracts
/// see both lists whole, and for how many more events and marks there is room.
pub struct Chronicle {
    history: History,
    marks: Vec<TaggedPlace>,
}

// By hand, so that those who drop it needn't follow all that is in it.
impl Drop for Chronicle {
    fn drop(self) {
        let Chronicle {
            history: _history,
            marks: _marks,
        } = self;
    }
}

impl Model for Chronicle {
    ghost use Rattle.std.specs.Prelude.{◌-◌};
    ghost use Rattle.std.specs.Vec.{vec_capacity, vec_len};
    ghost use Rattle.rambo_sequence.specs.Marks.{marks_at};
    ghost use Rattle.rambo_run.specs.Chronicles.{ChronicleView, IsSettled};

    ghost Value = { ChronicleView };

    ghost view = { λ c. record { events = c.history.events; marks = marks_at c.history.events c.marks.items; event_room = c.history.room; mark_room = vec_capacity c.marks - vec_len c.marks } };

    ghost invariant = { λ c. IsSettled c.history.events c.marks.items };
}

impl Chronicle {
    /// No call. It allocates nothing.
    pub fn new(alloc: Global) -> Chronicle
        ensures events { result.events ≡ [] }
        ensures marks { result.marks ≡ [] }
    {
        Chronicle {
            history: History::new(alloc),
            marks: Vec::new(alloc),
        }
    }

    /// Makes room for some more events and marks.
    ///
    /// `OutOfMemory` where there is none.
    pub fn make_room(&mut self, events: usize, marks: usize) -> Result<(), Refusal>
        ensures events { self.new.events ≡ self.old.events }
        ensures marks { self.new.marks ≡ self.old.marks }
        ensures event_room { OnOk result (events ≤ self.new.event_room) }
        ensures mark_room { OnOk result (marks ≤ self.new.mark_room) }
        ensures refused { IfErr result (λ r. r ≡ Refusal.OutOfMemory) }
    {
        self.marks.reserve(marks)?;
        Ok(self.history.reserve(events)?)
    }

    /// Makes room for an event and a mark, where there are any.
    ///
    /// `OutOfMemory` where there is none.
    #[inline(always)]
    pub fn make_room_for(
        &mut self,
        event: &Option<Event>,
        mark: &Option<Mark>,
    ) -> Result<(), Refusal>
        ensures events { self.new.events ≡ self.old.events }
        ensures marks { self.new.marks ≡ self.old.marks }
        ensures event_room { OnOk result ((e : Event) → event.now ≡ Some e → 0 < self.new.event_room) }
        ensures mark_room { OnOk result ((m : Mark) → mark.now ≡ Some m → 0 < self.new.mark_room) }
        ensures refused { IfErr result (λ r. r ≡ Refusal.OutOfMemory) }
    {
        if event.is_some() {
            self.history.reserve(1)?;
        }
        if mark.is_some() {
            self.marks.reserve(1)?;
        }
        Ok(())
    }

    /// Makes it likely that the next call of a name takes less memory, and is found sooner. Nothing else depends on it.
    ///
    /// `OutOfMemory` where there is no memory for that.
    pub fn expect_call(&mut self, name: Name) -> Result<(), Refusal>
        ensures same { self.new ≡ self.old }
        ensures refused { IfErr result (λ r. r ≡ Refusal.OutOfMemory) }
    {
        Ok(self.history.prepare(name)?)
    }

    /// Appends a call. There is room for it, and the history doesn't have it.
    pub fn add_call(&mut self, id: &CallId, op: Op)
        requires room { 0 < self.old.event_room }
        requires fits { fault_of self.old.events (Event.Call id.now op) ≡ None }
        ensures events { self.new.events ≡ self.old.events ++ Event.Call id.now op ∷ [] }
        ensures marks { self.new.marks ≡ self.old.marks }
    {
        self.add_event(Event::Call(*id, op));
    }

    // Appends an event. There is room for it, and it may follow the others.
    fn add_event(&mut self, event: Event)
        requires room { 0 < self.old.event_room }
        requires fits { fault_of self.old.events event ≡ None }
        ensures events { self.new.events ≡ self.old.events ++ event ∷ [] }
        ensures marks { self.new.marks ≡ self.old.marks }
        ensures mark_room { self.new.mark_room ≡ self.old.mark_room }
    {
        self.history.push_reserved(event);
    }

    /// Takes an event and a mark, where there are any. There is room for them, and the event may follow the others.
    ///
    /// They stay where they are lent until one is there: most steps have none. The mark is of a call that the history has by then, and
    /// has the value that the call set or was answered.
    #[inline(always)]
    pub fn take(&mut self, event: &mut Option<Event>, mark: &mut Option<Mark>)
        requires event_room { (e : Event) → event.old ≡ Some e → 0 < self.old.event_room }
        requires mark_room { (m : Mark) → mark.old ≡ Some m → 0 < self.old.mark_room }
        requires fits { (e : Event) → event.old ≡ Some e → fault_of self.old.events e ≡ None }
        requires told { (m : Mark) → mark.old ≡ Some m → IsMarked (with_event self.old.events event.old) m }
        ensures events { self.new.events ≡ with_event self.old.events event.old }
        ensures marks { self.new.marks ≡ with_mark self.old.marks mark.old }
        ensures taken { (event.new ≡ None) × (mark.new ≡ None) }
    {
        if event.is_some() {
            if let Some(event) = event.take() {
                self.add_event(event);
            }
        }
        if mark.is_some() {
            if let Some(mark) = mark.take() {
                self.add_mark(&mark);
            }
        }
    }

    // Appends a mark, where there is room for it.
    fn add_mark(&mut self, mark: &Mark)
        requires room { 0 < self.old.mark_room }
        requires told { IsMarked self.old.events mark.now }
        ensures events { self.new.events ≡ self.old.events }
        ensures marks { self.new.marks ≡ self.old.marks ++ mark.now ∷ [] }
    {
        let Some(place) = self.history.called_at(&mark.id) else {
            unreachable!()
        };
        let tag = match &mark.kept {
            Some(version) => Some(version.tag),
            None => None,
        };
        self.marks.push_reserved(TaggedPlace { place, tag });
    }

    /// The calls and answers, in order.
    pub fn history(&self) -> &History
        ensures { result.now.events ≡ self.now.events }
    {
        &self.history
    }

    /// The calls and answers alone.
    pub fn into_history(self) -> History
        ensures { result.events ≡ self.events }
    {
        let Chronicle {
            history,
            marks: _marks,
        } = self;
        history
    }

    /// The sequence of each key that is marked, in byte order of keys.
    ///
    /// The time is that of `rambo_sequence::sequences`. `OutOfMemory` where there is no room for it.
    pub fn sequences(&self, alloc: Global) -> Result<Vec<KeySequence>, Refusal>
        ensures given { IfOk result (λ s. s.items ≡ sequences_of self.now.events self.now.marks) }
        ensures refused { IfErr result (λ r. r ≡ Refusal.OutOfMemory) }
    {
        rambo_sequence::sequences(alloc, &self.history, self.marks.as_slice())
    }

    /// The sequence of one key.
    ///
    /// The time is that of `rambo_sequence::sequence`. `OutOfMemory` where there is no room for it.
    pub fn sequence(&self, alloc: Global, key: &[u8]) -> Result<Vec<CallId>, Refusal>
        ensures given { IfOk result (λ s. s.items ≡ sequence_of self.now.events self.now.marks key.now) }
        ensures refused { IfErr result (λ r. r ≡ Refusal.OutOfMemory) }
    {
        rambo_sequence::sequence(alloc, &self.history, self.marks.as_slice(), key)
    }

    /// One order of the calls of all keys, made from the sequence of each. No call stands twice in these.
    ///
    /// The time is that of `rambo_sequence::one_order`. `OutOfMemory` where there is no room for it.
    pub fn order(&self, alloc: Global, sequences: &[KeySequence]) -> Result<Vec<CallId>, Refusal>
        requires { NoTwice (all_calls sequences.now) }
        ensures given { IfOk result (λ o. o.items ≡ order_of self.now.events sequences.now) }
        ensures refused { IfErr result (λ r. r ≡ Refusal.OutOfMemory) }
    {
        rambo_sequence::one_order(alloc, &self.history, sequences)
    }
}
