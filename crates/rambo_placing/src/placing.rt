//! Putting gets into orders.
ghost use Rattle.std.specs.Prelude.{◌≡◌, ◌++◌, ℕ, List, Option, IfOk, IfErr, OnOk};
ghost use Rattle.rambo_history.specs.Histories.{call_in};
ghost use Rattle.rambo_placing.specs.Placings.{gets_of, in_place, readers, with_gets};
ghost use Rattle.rambo_placing.specs.Tables.{told_at};

use crate::gets::gets_of_keys;
use crate::readers::Readers;
use indexmap::IndexMap;
use rambo_history::{CallId, History, Op};
use rambo_names::{Bytes, Refusal};
use std::marker::Model;

/// Puts the gets of one history into orders of its calls.
#[derive(Drop)]
pub struct Placing<'a> {
    history: &'a History,
    // The gets of each key, as they were called.
    gets: IndexMap<Bytes, Vec<CallId>>,
}

impl<'a> Model for Placing<'a> {
    ghost use Rattle.std.specs.Prelude.{List};
    ghost use Rattle.rambo_history.specs.declared.event.Event.{Event};
    ghost use Rattle.rambo_placing.specs.Tables.{HasGets};

    ghost Value = { List Event };

    ghost view = { λ p. p.history.now.events };

    ghost invariant = { λ p. HasGets p.history.now.events p.gets.entries };
}

impl<'a> Placing<'a> {
    /// What puts this history's gets into orders. The time is linear in the history's length.
    ///
    /// `OutOfMemory` where there is no room for the gets of each key.
    pub fn new(history: &'a History) -> Result<Placing<'a>, Refusal>
        ensures made { IfOk result (λ placing. placing ≡ history.now.events) }
        ensures refused { IfErr result (λ r. r ≡ Refusal.OutOfMemory) }
    {
        let gets = gets_of_keys(history)?;
        Ok(Placing { history, gets })
    }

    /// An order with the answered gets of the key in their places: first those that were answered nil, and behind each set
    /// of the key those that were answered its value, each as they were called. A get that was answered a value that no set of
    /// the order gives the key is left out. Gets of the key that the order has itself aren't kept where they stand; all its
    /// other entries are.
    ///
    /// The time is linear in the lengths of the order and of the result, and in the number of the key's gets.
    /// `OutOfMemory` where there is no room for the result, or for the key's gets by their values.
    pub fn with_gets(&self, key: &Bytes, order: &[CallId]) -> Result<Vec<CallId>, Refusal>
        ensures placed { IfOk result (λ placed. placed.items ≡ with_gets self.now key.now order.now) }
        ensures refused { IfErr result (λ r. r ≡ Refusal.OutOfMemory) }
    {
        let readers = Readers::of(self.history, self.gets_of(key))?;
        let mut placed = Vec::new(self.history.allocator());
        placed.extend_from_slice(readers.get(None))?;
        for id in order {
            place(self.history, &readers, key, id, &mut placed)?;
        }
        Ok(placed)
    }

    // The gets of a key, as they were called.
    fn gets_of(&self, key: &Bytes) -> &[CallId]
        ensures { result.now ≡ gets_of key.now self.now }
    {
        match self.gets.get(key) {
            Some(calls) => calls.as_slice(),
            None => &[],
        }
    }
}

// Appends what stands in the place of an entry of the key's order.
fn place(
    history: &History,
    of_key: &Readers,
    key: &Bytes,
    id: &CallId,
    placed: &mut Vec<CallId>,
) -> Result<(), Refusal>
    requires { (held : Option (List ℕ)) → told_at of_key.now held ≡ readers history.now.events key.now held }
    ensures placed { OnOk result (placed.new.items ≡ placed.old.items ++ in_place history.now.events key.now id.now (call_in history.now.events id.now)) }
    ensures refused { IfErr result (λ r. r ≡ Refusal.OutOfMemory) }
{
    match history.call(id) {
        Some(op) if op.key().as_slice() == key.as_slice() => {
            if let Op::Set(_, value) = op {
                placed.push(*id)?;
                placed.extend_from_slice(of_key.get(Some(value)))?;
            }
        }
        _ => placed.push(*id)?,
    }
    Ok(())
}
