//! Whether an order keeps each rule of a proper order.
ghost use Rattle.std.specs.Prelude.{◌≡◌, Some};
ghost use Rattle.std.specs.Option.{option_copied};
ghost use Rattle.rambo_history.specs.Forms.{IsWellFormed};
ghost use Rattle.rambo_history.specs.Histories.{is_before};
ghost use Rattle.rambo_history.specs.Proper.{after_op, held_after};
ghost use Rattle.rambo_atomic.specs.Scopes.{within};
ghost use Rattle.rambo_atomic.specs.Tests.{is_due, has_entry, is_complete, is_distinct, is_own, has_no_stranger, tells, all_told, none_held, keeps_real_time};

use crate::scope::Scope;
use rambo_history::{Answer, CallId, Event, History, Op};
use rambo_names::Bytes;

// Whether this is where an answered call of those within was made.
fn is_due(history: &History, scope: Scope, event: &Event) -> bool
    ensures { result ≡ is_due history.now.events (within scope.entry) event.now }
{
    match event {
        Event::Call(id, op) => scope.has(op) && history.answer(id).is_some(),
        Event::Answer(_, _) => false,
    }
}

// Whether the call that was made there is in the order.
fn has_entry(order: &[CallId], event: &Event) -> bool
    ensures { result ≡ has_entry order.now event.now }
{
    match event {
        Event::Call(id, _) => order.contains(id),
        Event::Answer(_, _) => false,
    }
}

// Whether each answered call of those within is in the order.
pub(crate) fn is_complete(history: &History, scope: Scope, order: &[CallId]) -> bool
    ensures test { result ≡ is_complete history.now.events (within scope.entry) order.now history.now.events }
    ensures well_formed { IsWellFormed history.now.events }
{
    let events = history.events();
    events.iter().all(|event| !is_due(history, scope, event) || has_entry(order, event))
}

// Whether no call occurs twice.
pub(crate) fn is_distinct(order: &[CallId]) -> bool
    ensures { result ≡ is_distinct order.now }
{
    let mut rest = order;
    while let Some((id, others)) = rest.split_first() {
        if others.contains(id) {
            return false;
        }
        rest = others;
    }
    true
}

// Whether a call is one of those within, and was answered if it is a get.
fn is_own(history: &History, scope: Scope, id: &CallId) -> bool
    ensures { result ≡ is_own history.now.events (within scope.entry) id.now }
{
    match history.exchange(id) {
        None => false,
        Some((op, answer)) => scope.has(op) && (!op.is_get() || answer.is_some()),
    }
}

// Whether each entry is a call of those within, and a get only if it was answered.
pub(crate) fn has_no_stranger(history: &History, scope: Scope, order: &[CallId]) -> bool
    ensures { result ≡ has_no_stranger history.now.events (within scope.entry) order.now }
{
    order.iter().all(|id| is_own(history, scope, id))
}

// Whether an answer is what a key holds.
pub(crate) fn tells(held: Option<&Bytes>, answer: Option<&Answer>) -> bool
    ensures { result ≡ tells (option_copied held.entry) (option_copied answer.entry) }
{
    match (held, answer) {
        (None, Some(Answer::Nil)) => true,
        (Some(value), Some(Answer::Value(told))) => value.as_slice() == told.as_slice(),
        _ => false,
    }
}

// What an ordinary map holds at a key after an operation.
fn after_op<'a>(key: &[u8], op: &'a Op, held: Option<&'a Bytes>) -> Option<&'a Bytes>
    ensures { option_copied result ≡ after_op key.now (Some op.now) (option_copied held.entry) }
{
    match op {
        Op::Set(set, value) if set.as_slice() == key => Some(value),
        _ => held,
    }
}

// What an ordinary map, empty at first, holds at a key after the calls of an order.
fn held_after<'a>(history: &'a History, key: &[u8], order: &[CallId]) -> Option<&'a Bytes>
    ensures { option_copied result ≡ held_after history.now.events key.now order.now }
{
    let mut held = None;
    let mut rest = order;
    while let Some((id, others)) = rest.split_first() {
        if let Some((op, _)) = history.exchange(id) {
            held = after_op(key, op, held);
        }
        rest = others;
    }
    held
}

// Whether each get of an order answers the latest set of its key before it, or nil.
pub(crate) fn answers_latest(history: &History, order: &[CallId]) -> bool
    ensures { result ≡ all_told history.now.events none_held order.now }
{
    let mut count = 0;
    while let Some(id) = order.get(count) {
        if let Some((Op::Get(key), answer)) = history.exchange(id) {
            if !tells(held_after(history, key.as_slice(), &order[..count]), answer) {
                return false;
            }
        }
        count += 1;
    }
    true
}

// Whether an answer is before a place.
fn is_before(place: usize, answered: Option<usize>) -> bool
    ensures { result ≡ is_before place answered }
{
    match answered {
        Some(answered) => answered < place,
        None => false,
    }
}

// Whether no call comes after one that was made after it was answered.
pub(crate) fn keeps_real_time(history: &History, order: &[CallId]) -> bool
    ensures { result ≡ keeps_real_time history.now.events 0 order.now }
{
    // The latest place of a call so far.
    let mut latest = 0;
    let mut rest = order;
    while let Some((id, others)) = rest.split_first() {
        if let Some(places) = history.places_of(id) {
            if is_before(latest, places.answered()) {
                return false;
            }
            latest = latest.max(places.called);
        }
        rest = others;
    }
    true
}
