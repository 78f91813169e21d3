//! One order of the calls of all keys.
ghost use Rattle.std.specs.Prelude.{◌≡◌, ◌++◌, ◌-◌, ◌<◌, [], None, IfOk, IfErr, OnOk, map, length, take, drop, get_or, slice_set};
ghost use Rattle.std.specs.Map.{lookup};
ghost use Rattle.rambo_history.specs.Calls.{same_call};
ghost use Rattle.rambo_history.specs.declared.event.CallId.{CallId};
ghost use Rattle.rambo_sequence.specs.CallPlaces.{noted, all_noted, lists, joined};
ghost use Rattle.rambo_sequence.specs.StoreOrders.{NoTwice, all_calls, order_of};

use crate::key_sequence::KeySequence;
use rambo_history::{CallId, Event, History};
use rambo_names::Refusal;
use std::alloc::Global;
use std::collections::HashMap;

/// The place of a call.
#[derive(Clone, Copy)]
struct Place {
    // The number of its sequence, from 0 on.
    sequence: usize,
    // How many calls come after it there.
    behind: usize,
}

/// One order of the calls of all sequences. No call may occur twice in these, and they come in the byte order of their
/// keys. Next is always the first call left of some sequence: of the one whose calls left include the one that was
/// answered first. Once no call left has an answer, the sequences follow one after another.
///
/// The time is linear in the number of events and of calls. `OutOfMemory` where there is no room for it.
pub fn one_order(
    alloc: Global,
    history: &History,
    sequences: &[KeySequence],
) -> Result<Vec<CallId>, Refusal>
    requires { NoTwice (all_calls sequences.now) }
    ensures given { IfOk result (λ order. order.items ≡ order_of history.now.events sequences.now) }
    ensures refused { IfErr result (λ r. r ≡ Refusal.OutOfMemory) }
{
    let places = places_of(alloc, sequences)?;
    let mut left = calls_of(alloc, sequences)?;
    let mut order = Vec::new(alloc);
    let mut events = history.events();
    while let Some((event, others)) = events.split_first() {
        if let Event::Answer(id, _) = event {
            if let Some(place) = places.get(id) {
                give(&mut order, &mut left, *place)?;
            }
        }
        events = others;
    }
    give_all(&mut order, left.as_slice())?;
    Ok(order)
}

// The calls of each sequence.
fn calls_of(alloc: Global, sequences: &[KeySequence]) -> Result<Vec<&[CallId]>, Refusal>
    ensures calls { IfOk result (λ left. lists left.items ≡ map (λ s. s.calls) sequences.now) }
    ensures refused { IfErr result (λ r. r ≡ Refusal.OutOfMemory) }
{
    let mut left = Vec::with_capacity(alloc, sequences.len())?;
    for sequence in sequences {
        left.push(sequence.calls.as_slice())?;
    }
    Ok(left)
}

// Gives what is left of a sequence up to a place, if that wasn't given.
fn give(order: &mut Vec<CallId>, left: &mut Vec<&[CallId]>, place: Place) -> Result<(), Refusal>
    requires { place.sequence < length left.old.items }
    ensures given { OnOk result (let calls = get_or (lists left.old.items) place.sequence [] in order.new.items ≡ order.old.items ++ take (length calls - place.behind) calls) }
    ensures left { OnOk result (let calls = get_or (lists left.old.items) place.sequence [] in lists left.new.items ≡ slice_set (lists left.old.items) place.sequence (drop (length calls - place.behind) calls)) }
    ensures refused { IfErr result (λ r. r ≡ Refusal.OutOfMemory) }
{
    let calls = left[place.sequence];
    let (given, rest) = calls.split_at(calls.len().saturating_sub(place.behind));
    order.extend_from_slice(given)?;
    left[place.sequence] = rest;
    Ok(())
}

// Gives all that is left.
fn give_all(order: &mut Vec<CallId>, left: &[&[CallId]]) -> Result<(), Refusal>
    ensures given { OnOk result (order.new.items ≡ order.old.items ++ joined (lists left.now)) }
    ensures refused { IfErr result (λ r. r ≡ Refusal.OutOfMemory) }
{
    for calls in left {
        order.extend_from_slice(calls)?;
    }
    Ok(())
}

// The places of the calls of all sequences.
fn places_of(alloc: Global, sequences: &[KeySequence]) -> Result<HashMap<CallId, Place>, Refusal>
    ensures places { IfOk result (λ places. (c : CallId) → lookup (same_call c) places.entries ≡ all_noted 0 sequences.now c None) }
    ensures refused { IfErr result (λ r. r ≡ Refusal.OutOfMemory) }
{
    let mut places = HashMap::new(alloc);
    let mut number = 0;
    let mut rest = sequences;
    while let Some((sequence, others)) = rest.split_first() {
        note(&mut places, number, sequence.calls.as_slice())?;
        number += 1;
        rest = others;
    }
    Ok(places)
}

// Notes the places of the calls of a sequence.
fn note(
    places: &mut HashMap<CallId, Place>,
    sequence: usize,
    calls: &[CallId],
) -> Result<(), Refusal>
    ensures places { OnOk result ((c : CallId) → lookup (same_call c) places.new.entries ≡ noted sequence calls.now c (lookup (same_call c) places.old.entries)) }
    ensures refused { IfErr result (λ r. r ≡ Refusal.OutOfMemory) }
{
    let mut rest = calls;
    while let Some((id, others)) = rest.split_first() {
        let place = Place {
            sequence,
            behind: others.len(),
        };
        places.insert(*id, place)?;
        rest = others;
    }
    Ok(())
}
