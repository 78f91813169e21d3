//! Histories.
ghost use Rattle.std.specs.Prelude.{◌≡◌, ◌≤◌, ◌<◌, ◌+◌, ◌++◌, ◌∷◌, [], None, IsOk, OnOk, OnErr, IfErr, ◌^◌, length, Some};
ghost use Rattle.std.specs.List.{slice_get};
ghost use Rattle.std.specs.Option.{option_copied, option_map, IfSome};
ghost use Rattle.rambo_history.specs.Faults.{fault_of, IsFault};
ghost use Rattle.rambo_history.specs.Forms.{IsWellFormed};
ghost use Rattle.rambo_history.specs.Histories.{call_in, answer_in, called_at, answered_at};
ghost use Rattle.rambo_history.specs.Looks.{op_of, answer_of};
ghost use Rattle.rambo_history.specs.Places.{places_in, places_of};

use crate::call_places::CallPlaces;
use crate::entry::Entry;
use crate::event::{CallId, Event};
use crate::fault::HistoryFault;
use crate::operation::{Answer, Op};
use crate::spot::Spot;
use rambo_names::Name;
use std::alloc::{AllocError, Global};
use std::marker::Model;

/// The calls and answers of a run, in order: each call occurs once, and each answer once, after its call and of its
/// kind.
///
/// A call and its answer are found by the call's name and number in constant time.
pub struct History {
    events: Vec<Event>,
    places: CallPlaces,
}

// By hand, so that those who drop it needn't follow all that is in it.
impl Drop for History {
    fn drop(self) {
        let History {
            events: _events,
            places: _places,
        } = self;
    }
}

impl Model for History {
    ghost use Rattle.std.specs.Prelude.{◌-◌, min, length};
    ghost use Rattle.std.specs.Vec.{vec_capacity, vec_len};
    ghost use Rattle.rambo_history.specs.HistoryStates.{HistoryState};
    ghost use Rattle.rambo_history.specs.Places.{IsHistory};

    ghost Value = { HistoryState };

    ghost view = { λ h. record { events = h.events.items; room = min (vec_capacity h.events - vec_len h.events) h.places.room } };

    ghost invariant = { λ h. IsHistory h.events.items h.places };
}

impl History {
    /// A history of no event, which allocates nothing.
    pub fn new(alloc: Global) -> History
        ensures { result.events ≡ [] }
    {
        History {
            events: Vec::new(alloc),
            places: CallPlaces::new(alloc),
        }
    }

    /// The events, in order.
    pub fn events(&self) -> &[Event]
        ensures events { result.now ≡ self.now.events }
        ensures well_formed { IsWellFormed self.now.events }
        ensures fits { length self.now.events < 2 ^ 63 }
    {
        self.events.as_slice()
    }

    /// What a call asked, if the history has the call.
    pub fn call(&self, id: &CallId) -> Option<&Op>
        ensures { option_copied result ≡ call_in self.now.events id.now }
    {
        let places = self.places_of(id)?;
        op_at(self.events(), places.called)
    }

    /// The answer of a call, if the history has it.
    pub fn answer(&self, id: &CallId) -> Option<&Answer>
        ensures { option_copied result ≡ answer_in self.now.events id.now }
    {
        let place = self.answered_at(id)?;
        answer_at(self.events(), place)
    }

    /// The place of a call in the list of events, from 0 on, if the history has the call.
    pub fn called_at(&self, id: &CallId) -> Option<usize>
        ensures { result ≡ called_at self.now.events id.now }
    {
        let places = self.places_of(id)?;
        Some(places.called)
    }

    /// The place of a call's answer in the list of events, from 0 on, if the history has the answer.
    pub fn answered_at(&self, id: &CallId) -> Option<usize>
        ensures { result ≡ answered_at self.now.events id.now }
    {
        let places = self.places_of(id)?;
        places.answered()
    }

    /// What a call asked, and its answer if there is one, if the history has the call.
    pub fn exchange(&self, id: &CallId) -> Option<(&Op, Option<&Answer>)>
        ensures op { option_map (λ e. e.0.now) result ≡ call_in self.now.events id.now }
        ensures answer { IfSome result (λ e. option_copied e.1 ≡ answer_in self.now.events id.now) }
    {
        let entry = self.entry(id)?;
        Some((entry.op, entry.answer))
    }

    /// A call with all that the history has about it, if it has the call.
    pub fn entry(&self, id: &CallId) -> Option<Entry<'_>>
        ensures op { option_map (λ e. e.op.now) result ≡ call_in self.now.events id.now }
        ensures answer { IfSome result (λ e. option_copied e.answer ≡ answer_in self.now.events id.now) }
        ensures called { IfSome result (λ e. called_at self.now.events id.now ≡ Some e.called) }
        ensures answered { IfSome result (λ e. e.answered ≡ answered_at self.now.events id.now) }
        ensures within { IfSome result (λ e. e.called < length self.now.events) }
        ensures well_formed { IsWellFormed self.now.events }
    {
        let places = self.places_of(id)?;
        let events = self.events();
        let op = op_at(events, places.called)?;
        let answered = places.answered();
        let answer = match answered {
            Some(place) => answer_at(events, place),
            None => None,
        };
        Some(Entry {
            op,
            answer,
            called: places.called,
            answered,
        })
    }

    /// The allocator of what belongs to the history.
    pub fn allocator(&self) -> Global {
        *self.events.allocator()
    }

    /// The places of a call and of its answer, if the history has the call.
    pub fn places_of(&self, id: &CallId) -> Option<&Spot>
        ensures places { option_map places_of (option_copied result) ≡ places_in self.now.events id.now }
        ensures well_formed { IsWellFormed self.now.events }
    {
        self.places.get(id)
    }

    /// Why an event can't be appended, if it can't.
    pub fn fault(&self, event: &Event) -> Option<HistoryFault>
        ensures { result ≡ fault_of self.now.events event.now }
    {
        match event {
            Event::Call(id, _) => match self.call(id) {
                Some(_) => Some(HistoryFault::CalledTwice),
                None => None,
            },
            Event::Answer(id, answer) => match self.exchange(id) {
                Some((op, None)) if answer.fits(op) => None,
                Some((_, None)) => Some(HistoryFault::WrongKind),
                _ => Some(HistoryFault::NotOpen),
            },
        }
    }

    /// Makes room for some more events, so that as many can be pushed without allocating.
    pub fn reserve(&mut self, additional: usize) -> Result<(), AllocError>
        ensures events { self.new.events ≡ self.old.events }
        ensures room { self.old.room ≤ self.new.room }
        ensures ok { OnOk result (additional ≤ self.new.room) }
        ensures succeeds { additional ≤ self.old.room → IsOk result }
    {
        self.events.reserve(additional)?;
        self.places.reserve(additional)
    }

    /// Makes it likely that the next call of a name takes less memory, and is found sooner, once it is pushed
    /// where room was made for it. Nothing else depends on it.
    ///
    /// An error where there is no memory for that; `push` does without, and calls this itself.
    pub fn prepare(&mut self, name: Name) -> Result<(), AllocError>
        ensures { self.new ≡ self.old }
    {
        self.places.prepare(name)
    }

    /// Appends an event.
    ///
    /// `CalledTwice` where the history has this call. `NotOpen` where it doesn't have the answer's call, or has its
    /// answer. `WrongKind` where the call asked for another kind of answer. `OutOfMemory` where none of these holds,
    /// and no room was made and none can be allocated.
    pub fn push(&mut self, event: Event) -> Result<(), HistoryFault>
        ensures ok { OnOk result ((fault_of self.old.events event ≡ None) × (self.new.events ≡ self.old.events ++ event ∷ [])) }
        ensures err { OnErr result ((self.new.events ≡ self.old.events) × (self.old.room ≤ self.new.room)) }
        ensures fault { IfErr result (IsFault (fault_of self.old.events event) self.old.room) }
        ensures room { self.old.room ≤ self.new.room + 1 }
    {
        if let Some(fault) = self.fault(&event) {
            return Err(fault);
        }
        if let Event::Call(id, _) = &event {
            // Without the room that it makes, the call's place takes more memory.
            let _ = self.prepare(id.name);
        }
        self.reserve(1)?;
        self.push_reserved(event);
        Ok(())
    }

    /// Appends an event that has no fault, where room was made for it. It allocates nothing.
    pub fn push_reserved(&mut self, event: Event)
        requires room { 0 < self.old.room }
        requires fits { fault_of self.old.events event ≡ None }
        ensures events { self.new.events ≡ self.old.events ++ event ∷ [] }
        ensures room { self.old.room ≤ self.new.room + 1 }
    {
        self.places.take(&event, self.events.len());
        self.events.push_reserved(event);
    }
}

// What was asked at a place.
fn op_at(events: &[Event], place: usize) -> Option<&Op>
    ensures { option_copied result ≡ op_of (slice_get events.now place) }
{
    match events.get(place)? {
        Event::Call(_, op) => Some(op),
        Event::Answer(_, _) => None,
    }
}

// What was answered at a place.
fn answer_at(events: &[Event], place: usize) -> Option<&Answer>
    ensures { option_copied result ≡ answer_of (slice_get events.now place) }
{
    match events.get(place)? {
        Event::Call(_, _) => None,
        Event::Answer(_, answer) => Some(answer),
    }
}
