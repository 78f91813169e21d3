//! Phases.
ghost use Rattle.std.specs.Prelude.{◌≡◌, ◌≤◌, ◌+◌, ◌-◌, ◌^◌, min, length, IsTrue, ◌↔◌, IsOk, IfErr, IfOk, OnOk, OnErr};
ghost use Rattle.rambo_phase.specs.Phases.{unbegun, started, after_letter, heard_as, above, needed, is_met};

use crate::heard::Heard;
use rambo_config_map::{ConfigMap, Places};
use rambo_names::{Members, Name, Quorums, Refusal};
use std::alloc::Global;
use std::marker::Model;

/// A phase of a read or a write (Attiya, Bar-Noy and Dolev, "Sharing Memory Robustly in Message-Passing Systems", JACM
/// 1995; Lynch and Shvartsman, "RAMBO", DISC 2002). It has its number, the configurations of the places from `lo` on,
/// and who replied.
///
/// A phase of up to eight configurations is stored inline, and allocates nothing.
#[derive(Drop)]
pub struct Phase<Q: Quorums> {
    number: u64,
    lo: u64,
    places: Places<Q>,
    repliers: Members,
}

impl<Q: Quorums> Model for Phase<Q> {
    ghost use Rattle.std.specs.Prelude.{◌≡◌, ◌≤◌, ◌+◌, ◌^◌, length};
    ghost use Rattle.std.specs.Coded.{codes};
    ghost use Rattle.rambo_names.specs.Names.{names_code};
    ghost use Rattle.rambo_phase.specs.Phases.{KeptPhase};

    ghost Value = { KeptPhase Q };

    ghost coded = { Prim.hlevel (codes, names_code, Q.code) };

    ghost view = { λ p. record { state = record { number = p.number; lo = p.lo; configs = p.places.configs; repliers = p.repliers }; capacity = p.places.capacity } };

    ghost invariant = { λ p. (p.lo + length p.places.configs ≤ 2 ^ 64) × (8 ≤ p.places.capacity) };
}

// The greatest number of configurations that are stored inline.
const INSIDE: usize = 8;

impl<Q: Quorums> Phase<Q> {
    /// A phase of node `me` begins with the configurations of its map, and the node replies to itself.
    pub fn start(number: u64, map: &ConfigMap<Q>, me: Name) -> Self
        ensures state { result.state ≡ started number map.now me }
        ensures inline { result.capacity ≡ 8 }
    {
        let mut phase = Phase::new(map.places().alloc());
        phase.begin(number, map, me);
        phase
    }

    /// A phase that has not begun: of no configuration, to which nobody replied.
    pub fn new(alloc: Global) -> Self
        ensures state { result.state ≡ unbegun }
        ensures inline { result.capacity ≡ 8 }
    {
        Phase {
            number: 0,
            lo: 0,
            places: Places::new(alloc),
            repliers: Members::empty(),
        }
    }

    /// What `start` does, in the place of an earlier phase, so that no phase is moved. It allocates nothing.
    pub fn begin(&mut self, number: u64, map: &ConfigMap<Q>, me: Name)
        ensures state { self.new.state ≡ started number map.now me }
        ensures capacity { self.new.capacity ≡ self.old.capacity }
    {
        self.number = number;
        self.lo = map.floor();
        self.places.refill(map.places());
        self.repliers = Members::empty().with(me);
    }

    /// Its number, which a sender has heard of before it replies.
    pub fn number(&self) -> u64
        ensures { result ≡ self.now.state.number }
    {
        self.number
    }

    /// What a letter is to the phase, if its sender had heard of the number `heard` and had this map.
    pub fn would_hear(&self, heard: u64, map: &ConfigMap<Q>) -> Heard
        ensures { result ≡ heard_as self.now.state heard map.now }
    {
        if heard < self.number {
            return Heard::Old;
        }
        if map.floor() <= self.lo.saturating_add(self.places.len() as u64) {
            Heard::Counted
        } else {
            Heard::Restart
        }
    }

    /// Makes room for the configurations that a map has above the phase, so that hearing that map can't fail.
    ///
    /// Refused with `OutOfMemory` where there is no memory for them. The phase is then unchanged.
    pub fn reserve(&mut self, map: &ConfigMap<Q>) -> Result<(), Refusal>
        ensures state { self.new.state ≡ self.old.state }
        ensures ok { OnOk result (needed self.old.state map.now ≤ self.new.capacity) }
        ensures err { OnErr result (self.new ≡ self.old) }
        ensures refused { IfErr result (λ r. r ≡ Refusal.OutOfMemory) }
        ensures succeeds { needed self.old.state map.now ≤ self.old.capacity → IsOk result }
        ensures had_room { needed self.old.state map.now ≤ self.old.capacity → self.new ≡ self.old }
        ensures capacity { self.old.capacity ≤ self.new.capacity }
    {
        let row = map.places();
        if self.places.len().saturating_add(row.len()) <= INSIDE {
            return Ok(());
        }
        let more = row.len().saturating_sub(self.known(map));
        self.places.reserve(more)
    }

    /// Hears a letter from a node: a reply adds what the map has above the phase, and the node to those that replied.
    /// Otherwise nothing changes.
    ///
    /// Refused with `OutOfMemory` where there is no memory for the configurations of a reply. The phase is then
    /// unchanged.
    pub fn hear(&mut self, from: Name, heard: u64, map: &ConfigMap<Q>) -> Result<Heard, Refusal>
        ensures ok { OnOk result (self.new.state ≡ after_letter self.old.state heard map.now from) }
        ensures answer { IfOk result (λ answer. answer ≡ heard_as self.old.state heard map.now) }
        ensures no_reply { (heard_as self.old.state heard map.now ≡ Heard.Counted → ⊥)
            → IsOk result × (self.new ≡ self.old) }

        // It fails only when memory runs out, and then nothing changes.
        ensures err { OnErr result (self.new ≡ self.old) }
        ensures refused { IfErr result (λ r. r ≡ Refusal.OutOfMemory) }
        ensures succeeds { needed self.old.state map.now ≤ self.old.capacity → IsOk result }

        // It allocates nothing where there is room, and for eight configurations there always is.
        ensures had_room { needed self.old.state map.now ≤ self.old.capacity
            → self.new.capacity ≡ self.old.capacity }
        ensures eight { 8 ≤ self.old.capacity }
        ensures capacity { self.old.capacity ≤ self.new.capacity }
    {
        let answer = self.would_hear(heard, map);
        if answer == Heard::Counted {
            let known = self.known(map);
            self.places.extend(map.places(), known)?;
            self.repliers = self.repliers.with(from);
        }
        Ok(answer)
    }

    /// Whether the nodes that replied contain a quorum of every configuration in the phase.
    pub fn met(&self) -> bool
        ensures { result ≡ is_met Q.system self.now.state }
    {
        self.places.have_quorums(self.repliers)
    }

    /// Whether another phase has the same number, configurations and repliers.
    pub fn same(&self, other: &Phase<Q>) -> bool
        ensures { IsTrue result ↔ (self.now.state ≡ other.now.state) }
    {
        self.number == other.number
            && self.lo == other.lo
            && are_same(self.repliers, other.repliers)
            && self.places.same(&other.places)
    }

    /// A copy, which allocates only for more than eight configurations.
    ///
    /// Refused with `OutOfMemory` where there is no memory for that.
    pub fn copy(&self) -> Result<Self, Refusal>
        ensures ok { IfOk result (λ copy. copy.state ≡ self.now.state) }
        ensures refused { IfErr result (λ r. r ≡ Refusal.OutOfMemory) }
        ensures succeeds { length self.now.state.configs ≤ 8 → IsOk result }
        ensures room { IfOk result (λ copy. 8 ≤ copy.capacity) }
        ensures inline { length self.now.state.configs ≤ 8 → IfOk result (λ copy. copy.capacity ≡ 8) }
    {
        Ok(Phase {
            number: self.number,
            lo: self.lo,
            places: self.places.copy()?,
            repliers: self.repliers,
        })
    }

    // How many configurations of a map, from its floor on, are at places below the end of the phase. It stops at the
    // greatest number, which is past the end of every map.
    fn known(&self, map: &ConfigMap<Q>) -> usize
        ensures { result ≡ min (above self.now.state - map.now.floor) (2 ^ 64 - 1) }
    {
        let floor = map.floor();
        let before = self.lo.saturating_sub(floor) as usize;
        let after = floor.saturating_sub(self.lo) as usize;
        before
            .saturating_add(self.places.len())
            .saturating_sub(after)
    }
}

// Whether two sets have the same names.
fn are_same(names: Members, others: Members) -> bool
    ensures { IsTrue result ↔ (names ≡ others) }
{
    names == others
}
