//! Sets that give their key a value for a second time.
ghost use Rattle.std.specs.Prelude.{◌≡◌, ◌&&◌, ◌||◌, not, ℕ, List, IfOk, IfErr, OnOk};
ghost use Rattle.std.specs.Str.{bytes_eq};
ghost use Rattle.rambo_history.specs.declared.event.Event.{Event as AnyEvent};
ghost use Rattle.rambo_placing.specs.Tables.{HasValues, is_written};
ghost use Rattle.rambo_placing.specs.Values.{IsFirstRepeated, is_repeated, sets_to};

use indexmap::{IndexMap, IndexSet};
use rambo_history::{Event, History, Op};
use rambo_names::{Bytes, Refusal};
use std::alloc::Global;

/// The place in the list of events of the first set that gives its key a value that a set before it gave it, if there is one.
/// The time is linear in the history's length.
///
/// `OutOfMemory` where there is no room for the values of each key.
pub fn first_repeated_value(history: &History) -> Result<Option<usize>, Refusal>
    ensures found { IfOk result (IsFirstRepeated history.now.events) }
    ensures refused { IfErr result (λ r. r ≡ Refusal.OutOfMemory) }
{
    let alloc = history.allocator();
    let mut written = IndexMap::new(alloc);
    for (place, event) in history.events().iter().enumerate() {
        if is_repeated(alloc, &mut written, event)? {
            return Ok(Some(place));
        }
    }
    Ok(None)
}

// Whether an event is a set that gives its key a value that it was given already. It is noted.
fn is_repeated(
    alloc: Global,
    written: &mut IndexMap<Bytes, IndexSet<Bytes>>,
    event: &Event,
) -> Result<bool, Refusal>
    ensures repeated { IfOk result (λ again. (front : List AnyEvent) → HasValues front written.old.entries → again ≡ is_repeated front event.now) }
    ensures noted { OnOk result ((key value : List ℕ) → is_written written.new.entries key value ≡ (sets_to key value event.now || is_written written.old.entries key value)) }
    ensures refused { IfErr result (λ r. r ≡ Refusal.OutOfMemory) }
{
    match event {
        Event::Call(_, Op::Set(key, value)) => Ok(!note(alloc, written, key, value)?),
        _ => Ok(false),
    }
}

// Notes the value of a key, and tells whether it is new.
fn note(
    alloc: Global,
    written: &mut IndexMap<Bytes, IndexSet<Bytes>>,
    key: &Bytes,
    value: &Bytes,
) -> Result<bool, Refusal>
    ensures new { IfOk result (λ new. new ≡ not (is_written written.old.entries key.now value.now)) }
    ensures noted { OnOk result ((k v : List ℕ) → is_written written.new.entries k v ≡ ((bytes_eq key.now k && bytes_eq value.now v) || is_written written.old.entries k v)) }
    ensures refused { IfErr result (λ r. r ≡ Refusal.OutOfMemory) }
{
    if let Some(values) = written.get_mut(key) {
        return Ok(values.insert(value.clone()?)?);
    }
    let mut values = IndexSet::new(alloc);
    values.insert(value.clone()?)?;
    written.insert(key.clone()?, values)?;
    Ok(true)
}
