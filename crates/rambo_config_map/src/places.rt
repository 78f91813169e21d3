//! Configurations of a row of places.
ghost use Rattle.std.specs.Prelude.{◌≡◌, ◌≤◌, ◌+◌, ◌-◌, ◌++◌, ◌∷◌, [], drop, length, slice_get, IsTrue, ◌↔◌, IsOk, IfErr, IfOk, OnOk, OnErr};
ghost use Rattle.std.specs.List.{list_all};
ghost use Rattle.smallvec.specs.SmallVec.{HasRoomFor};
ghost use Rattle.rambo_config_map.specs.Rows.{slot_has_quorum};

use rambo_names::{Members, Quorums, Refusal};
use smallvec::SmallVec;
use std::alloc::Global;
use std::marker::Model;

/// The configurations of consecutive places. Up to eight are stored inline.
#[derive(Drop)]
pub struct Places<Q: Quorums> {
    // A slot holds a default before it is filled, which a configuration doesn't have.
    slots: SmallVec<Option<Q>, 8>,
}

impl<Q: Quorums> Model for Places<Q> {
    ghost use Rattle.std.specs.Prelude.{◌≡◌, ◌≤◌, List, map, Some};
    ghost use Rattle.std.specs.Coded.{codes};
    ghost use Rattle.rambo_config_map.specs.Rows.{filled, RowState};

    ghost Value = { RowState Q };

    ghost coded = { Prim.hlevel (codes, Q.code) };

    ghost view = { λ p. record { configs = filled p.slots.items; capacity = p.slots.capacity } };

    ghost invariant = { λ p. (8 ≤ p.slots.capacity) × (p.slots.items ≡ map Some (filled p.slots.items)) };
}

impl<Q: Quorums> Places<Q> {
    /// A row of no configuration.
    pub fn new(alloc: Global) -> Self
        ensures configs { result.configs ≡ [] }
        ensures inline { result.capacity ≡ 8 }
    {
        Places {
            slots: SmallVec::new(alloc),
        }
    }

    /// A row of one configuration.
    pub fn one(alloc: Global, config: Q) -> Self
        ensures configs { result.configs ≡ config ∷ [] }
        ensures inline { result.capacity ≡ 8 }
    {
        let mut slots = SmallVec::new(alloc);
        slots.push_reserved(Some(config));
        Places { slots }
    }

    /// The allocator for more than eight.
    pub fn alloc(&self) -> Global {
        *self.slots.allocator()
    }

    /// How many configurations there are.
    pub fn len(&self) -> usize
        ensures { result ≡ length self.now.configs }
    {
        self.slots.len()
    }

    /// The configuration at an index, if there is one.
    pub fn get(&self, index: usize) -> Option<Q>
        ensures { result ≡ slice_get self.now.configs index }
    {
        match self.slots.as_slice().get(index) {
            Some(slot) => *slot,
            None => None,
        }
    }

    /// Whether these names contain a quorum of every configuration.
    pub fn have_quorums(&self, who: Members) -> bool
        ensures { result ≡ list_all (λ q. Q.system.is_quorum q who) self.now.configs }
    {
        all_have_quorums(self.slots.as_slice(), who)
    }

    /// Whether another row has the same configurations.
    pub fn same(&self, other: &Places<Q>) -> bool
        ensures { IsTrue result ↔ (self.now.configs ≡ other.now.configs) }
    {
        self.slots.as_slice() == other.slots.as_slice()
    }

    /// A copy, which allocates only for more than eight configurations.
    ///
    /// Refused with `OutOfMemory` where there is no memory for that.
    pub fn copy(&self) -> Result<Self, Refusal>
        ensures ok { IfOk result (λ p. p.configs ≡ self.now.configs) }
        ensures refused { IfErr result (λ r. r ≡ Refusal.OutOfMemory) }
        ensures succeeds { length self.now.configs ≤ 8 → IsOk result }
        ensures room { IfOk result (λ p. 8 ≤ p.capacity) }
        ensures inline { length self.now.configs ≤ 8 → IfOk result (λ p. p.capacity ≡ 8) }
    {
        let slots = SmallVec::from_slice(*self.slots.allocator(), self.slots.as_slice())?;
        Ok(Places { slots })
    }

    /// A copy of at most eight configurations, which allocates nothing.
    pub fn copy_inline(&self) -> Self
        requires { length self.now.configs ≤ 8 }
        ensures configs { result.configs ≡ self.now.configs }
        ensures inline { result.capacity ≡ 8 }
    {
        // (slot by slot: eight slots at once would be cleared first)
        let mut slots = SmallVec::new(*self.slots.allocator());
        append_slots(&mut slots, self.slots.as_slice());
        Places { slots }
    }

    /// Takes another row's configurations, at most eight, in place of its own. It allocates nothing.
    pub fn refill(&mut self, other: &Places<Q>)
        requires { length other.now.configs ≤ 8 }
        ensures configs { self.new.configs ≡ other.now.configs }
        ensures capacity { self.new.capacity ≡ self.old.capacity }
    {
        self.slots.clear();
        append_slots(&mut self.slots, other.slots.as_slice());
    }

    /// Drops the first configurations.
    pub fn forget(&mut self, count: usize)
        ensures configs { self.new.configs ≡ drop count self.old.configs }
        ensures capacity { self.new.capacity ≡ self.old.capacity }
    {
        if count == 0 {
            return;
        }
        let slots = self.slots.as_mut_slice();
        let len = slots.len();
        let start = count.min(len);
        slots.rotate_left(start);
        self.slots.truncate(len - start);
    }

    /// Makes room for this many more configurations. It allocates only where there is no room yet.
    ///
    /// Refused with `OutOfMemory` where there is no memory for them. The row is then unchanged.
    pub fn reserve(&mut self, additional: usize) -> Result<(), Refusal>
        ensures configs { self.new.configs ≡ self.old.configs }
        ensures ok { OnOk result (length self.old.configs + additional ≤ self.new.capacity) }
        ensures err { OnErr result (self.new ≡ self.old) }
        ensures refused { IfErr result (λ r. r ≡ Refusal.OutOfMemory) }
        ensures succeeds { length self.old.configs + additional ≤ self.old.capacity → IsOk result }
        ensures had_room { length self.old.configs + additional ≤ self.old.capacity → self.new ≡ self.old }
        ensures capacity { self.old.capacity ≤ self.new.capacity }
    {
        self.slots.reserve(additional)?;
        Ok(())
    }

    /// Appends a configuration, where there is room for it inline.
    pub fn push(&mut self, config: Q)
        requires { length self.old.configs + 1 ≤ 8 }
        ensures configs { self.new.configs ≡ self.old.configs ++ config ∷ [] }
        ensures capacity { self.new.capacity ≡ self.old.capacity }
    {
        self.slots.push_reserved(Some(config));
    }

    /// Appends another row's configurations from an index on. It allocates only where there is no room.
    ///
    /// Refused with `OutOfMemory` where there is no memory for that. The row is then unchanged.
    pub fn extend(&mut self, other: &Places<Q>, from: usize) -> Result<(), Refusal>
        ensures ok { OnOk result (self.new.configs ≡ self.old.configs ++ drop from other.now.configs) }
        ensures err { OnErr result (self.new ≡ self.old) }
        ensures refused { IfErr result (λ r. r ≡ Refusal.OutOfMemory) }
        ensures succeeds { length self.old.configs + (length other.now.configs - from) ≤ self.old.capacity
            → IsOk result }
        ensures had_room { length self.old.configs + (length other.now.configs - from) ≤ self.old.capacity
            → self.new.capacity ≡ self.old.capacity }
        ensures capacity { self.old.capacity ≤ self.new.capacity }
    {
        let slots = other.slots.as_slice();
        let start = from.min(slots.len());
        let more = &slots[start..];
        if more.is_empty() {
            return Ok(());
        }
        self.slots.reserve(more.len())?;
        append_slots(&mut self.slots, more);
        Ok(())
    }

    /// Appends another row's configurations from an index on, where all of them fit inline.
    pub fn append(&mut self, other: &Places<Q>, from: usize)
        requires { length self.old.configs + (length other.now.configs - from) ≤ 8 }
        ensures configs { self.new.configs ≡ self.old.configs ++ drop from other.now.configs }
        ensures capacity { self.new.capacity ≡ self.old.capacity }
    {
        // The value itself has room for eight.
        let _ = &self.slots;
        if self.extend(other, from).is_err() {
            unreachable!();
        }
    }
}

// Appends slots for which there is room.
// (a call of its own, since a row seldom grows)
#[inline(never)]
fn append_slots<Q: Quorums>(slots: &mut SmallVec<Option<Q>, 8>, more: &[Option<Q>])
    requires { HasRoomFor slots.old (length more.now) }
    ensures items { slots.new.items ≡ slots.old.items ++ more.now }
    ensures capacity { slots.new.capacity ≡ slots.old.capacity }
{
    for slot in more {
        slots.push_reserved(*slot);
    }
}

fn has_quorum<Q: Quorums>(slot: &Option<Q>, who: Members) -> bool
    ensures { result ≡ slot_has_quorum Q.system who slot.now }
{
    match slot {
        Some(config) => config.is_quorum(who),
        None => true,
    }
}

fn all_have_quorums<Q: Quorums>(slots: &[Option<Q>], who: Members) -> bool
    ensures { result ≡ list_all (slot_has_quorum Q.system who) slots.now }
{
    slots.iter().all(|slot| has_quorum(slot, who))
}
