//! The places of the calls of a history.
ghost use Rattle.std.specs.Prelude.{◌≡◌, ◌≤◌, ◌<◌, ◌+◌, ◌^◌, ℕ, [], length, get_or, None, is_some, if◌then◌else◌, IsOk, OnOk};
ghost use Rattle.std.specs.Bool.{MatchBool};
ghost use Rattle.std.specs.Map.{lookup};
ghost use Rattle.std.specs.HashMap.{spare};
ghost use Rattle.std.specs.Option.{option_copied, option_map};
ghost use Rattle.rambo_history.specs.declared.event.CallId.{CallId};
ghost use Rattle.rambo_history.specs.Calls.{same_call};
ghost use Rattle.rambo_history.specs.Places.{listed, answered_spot, spot_of, KeepsSpots, FitsSpots, TakesCall, TakesAnswer, TakesEvent};

use crate::call_list::CallList;
use crate::event::{CallId, Event};
use crate::spot::Spot;
use rambo_names::Name;
use std::alloc::{AllocError, Global};
use std::collections::HashMap;
use std::marker::Model;

/// The places of the calls of a history and of their answers.
///
/// The calls of a name that come with the numbers 1, 2, 3 and so on, as a run makes them, are in a list for that name.
/// All others are in a map. So a call is found in constant time. Memory grows with the number of calls, whatever their
/// numbers are.
#[derive(Drop)]
pub(crate) struct CallPlaces {
    // By the number of the name.
    lists: Vec<CallList>,
    others: HashMap<CallId, Spot>,
}

impl Model for CallPlaces {
    ghost use Rattle.std.specs.HashMap.{spare};
    ghost use Rattle.rambo_history.specs.Places.{PlacesState};

    ghost Value = { PlacesState };

    ghost view = { λ p. record { lists = p.lists.items; others = p.others.entries; room = spare p.others } };
}

impl CallPlaces {
    // Of no call. It allocates nothing.
    pub(crate) fn new(alloc: Global) -> CallPlaces
        ensures { (q : CallId) → spot_of result q ≡ None }
    {
        CallPlaces {
            lists: Vec::new(alloc),
            others: HashMap::new(alloc),
        }
    }

    // The places of a call and its answer.
    pub(crate) fn get(&self, id: &CallId) -> Option<&Spot>
        ensures { option_copied result ≡ spot_of self.now id.now }
    {
        match self.listed(id) {
            Some(spot) => Some(spot),
            None => other(&self.others, id),
        }
    }

    // The places of a call, if it is in the list of its name.
    fn listed(&self, id: &CallId) -> Option<&Spot>
        ensures { option_copied result ≡ listed self.now.lists id.now }
    {
        let list = self.lists.get(id.name.number() as usize)?;
        list.get(id.number)
    }

    // Makes room for some more calls, so that as many can be taken without allocating.
    pub(crate) fn reserve(&mut self, additional: usize) -> Result<(), AllocError>
        ensures spots { KeepsSpots self.old self.new }
        ensures room { self.old.room ≤ self.new.room }
        ensures ok { OnOk result (additional ≤ self.new.room) }
        ensures succeeds { additional ≤ self.old.room → IsOk result }
    {
        self.others.reserve(additional)
    }

    // Makes room for one more call in the list of a name.
    pub(crate) fn prepare(&mut self, name: Name) -> Result<(), AllocError>
        ensures spots { KeepsSpots self.old self.new }
        ensures room { self.new.room ≡ self.old.room }
    {
        let index = name.number() as usize;
        widen(&mut self.lists, index)?;
        self.lists[index].prepare()
    }

    // Notes that an event is at a place.
    pub(crate) fn take(&mut self, event: &Event, place: usize)
        requires room { 0 < self.old.room }
        requires fits { FitsSpots event.now self.old }
        ensures spots { TakesEvent event.now place self.old self.new }
        ensures room { self.old.room ≤ self.new.room + 1 }
    {
        match event {
            Event::Call(id, _) => self.call(id, place),
            Event::Answer(id, _) => self.answer(id, place),
        }
    }

    // A call was made at a place.
    fn call(&mut self, id: &CallId, place: usize)
        requires room { 0 < self.old.room }
        requires new { spot_of self.old id.now ≡ None }
        ensures spots { TakesCall id.now place self.old self.new }
        ensures room { self.old.room ≤ self.new.room + 1 }
    {
        let spot = Spot {
            called: place,
            answered: 0,
        };
        if !push_listed(&mut self.lists, id, spot) {
            put_other(&mut self.others, id, spot);
        }
    }

    // A call was answered at a place.
    fn answer(&mut self, id: &CallId, place: usize)
        ensures spots { TakesAnswer id.now place self.old self.new }
        ensures room { self.new.room ≡ self.old.room }
    {
        if !answer_listed(&mut self.lists, id, place) {
            answer_other(&mut self.others, id, place);
        }
    }
}

// Adds empty lists, until there is one at an index.
fn widen(lists: &mut Vec<CallList>, index: usize) -> Result<(), AllocError>
    requires { index < 2 ^ 63 }
    ensures lists { (n : ℕ) → get_or lists.new.items n [] ≡ get_or lists.old.items n [] }
    ensures wide { OnOk result (index < length lists.new.items) }
{
    let alloc = *lists.allocator();
    while lists.len() <= index {
        lists.push(CallList::new(alloc))?;
    }
    Ok(())
}

// Puts a call into the list of its name, if it is the next there and there is room. Returns whether it did.
fn push_listed(lists: &mut Vec<CallList>, id: &CallId, spot: Spot) -> bool
    ensures { MatchBool result ((q : CallId) → listed lists.new.items q ≡ (if same_call id.now q then Some spot else listed lists.old.items q)) (lists.new.items ≡ lists.old.items) }
{
    let index = id.name.number() as usize;
    index < lists.len() && lists[index].push(id.number, spot)
}

// Puts the place of an answer to its call, if that is in the list of its name. Returns whether it is.
fn answer_listed(lists: &mut Vec<CallList>, id: &CallId, place: usize) -> bool
    ensures has { result ≡ is_some (listed lists.old.items id.now) }
    ensures spots { (q : CallId) → listed lists.new.items q ≡ (if same_call id.now q then option_map (answered_spot place) (listed lists.old.items id.now) else listed lists.old.items q) }
{
    let index = id.name.number() as usize;
    index < lists.len() && lists[index].answer(id.number, place)
}

// The places of a call, if it is in a map. Maps seldom have any.
fn other<'a>(others: &'a HashMap<CallId, Spot>, id: &CallId) -> Option<&'a Spot>
    ensures { option_copied result ≡ lookup (same_call id.now) others.now.entries }
{
    if others.is_empty() {
        return None;
    }
    others.get(id)
}

// Puts a call into a map.
fn put_other(others: &mut HashMap<CallId, Spot>, id: &CallId, spot: Spot)
    requires { 0 < spare others.old }
    ensures spots { (q : CallId) → lookup (same_call q) others.new.entries ≡ (if same_call id.now q then Some spot else lookup (same_call q) others.old.entries) }
    ensures room { spare others.old ≤ spare others.new + 1 }
{
    let _ = others.insert(*id, spot);
}

// Puts the place of an answer to its call, if that is in a map.
fn answer_other(others: &mut HashMap<CallId, Spot>, id: &CallId, place: usize)
    ensures spots { (q : CallId) → lookup (same_call q) others.new.entries ≡ (if same_call id.now q then option_map (answered_spot place) (lookup (same_call id.now) others.old.entries) else lookup (same_call q) others.old.entries) }
    ensures room { spare others.new ≡ spare others.old }
{
    if let Some(spot) = others.get_mut(id) {
        spot.answered = place;
    }
}
