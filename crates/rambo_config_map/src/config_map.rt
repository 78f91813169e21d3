//! Configuration maps.
ghost use Rattle.std.specs.Prelude.{◌≡◌, ◌≤◌, ◌+◌, ◌^◌, length, IsTrue, ◌↔◌, OnOk, OnErr};
ghost use Rattle.rambo_config_map.specs.Maps.{first_map, merged_map, learnt, without_lowest, top_of, entry_at, learn_answer, remove_answer};

use crate::entry::Entry;
use crate::places::Places;
use rambo_names::{Quorums, Refusal};
use std::alloc::Global;
use std::marker::Model;

/// Which configuration is in use at which place: a chain of configurations, of which the oldest are
/// removed and one to eight are active (Lynch and Shvartsman, "RAMBO", DISC 2002).
///
/// Places are the numbers of a `u64`. A map is stored inline, and allocates nothing.
#[derive(Drop)]
pub struct ConfigMap<Q: Quorums> {
    floor: u64,
    places: Places<Q>,
}

impl<Q: Quorums> Model for ConfigMap<Q> {
    ghost use Rattle.std.specs.Prelude.{◌≡◌, ◌≤◌, ◌<◌, ◌+◌, ◌^◌, length};
    ghost use Rattle.std.specs.Coded.{codes};
    ghost use Rattle.rambo_config_map.specs.Maps.{MapState};

    ghost Value = { MapState Q };

    ghost coded = { Prim.hlevel (codes, Q.code) };

    ghost view = { λ m. record { floor = m.floor; configs = m.places.configs } };

    ghost invariant = { λ m. (1 ≤ length m.places.configs) × (length m.places.configs ≤ 8) × (m.floor + length m.places.configs ≤ 2 ^ 64) × (m.places.capacity ≡ 8) };
}

// How many places are active at most.
const ACTIVE_LIMIT: usize = 8;

impl<Q: Quorums> ConfigMap<Q> {
    /// The map of a configuration at place 0.
    pub fn new(alloc: Global, config: Q) -> Self
        ensures { result ≡ first_map config }
    {
        ConfigMap {
            floor: 0,
            places: Places::one(alloc, config),
        }
    }

    /// The lowest active place.
    pub fn floor(&self) -> u64
        ensures { result ≡ self.now.floor }
    {
        self.floor
    }

    /// The last active place.
    pub fn top(&self) -> u64
        ensures { result ≡ top_of self.now }
    {
        self.floor + (self.places.len() as u64 - 1)
    }

    /// The configurations of the active places, from the floor on. They are always stored inline, where there is room
    /// for eight.
    pub fn places(&self) -> &Places<Q>
        ensures row { result.now.configs ≡ self.now.configs }
        ensures inline { result.now.capacity ≡ 8 }
        ensures not_empty { 1 ≤ length self.now.configs }
        ensures at_most_eight { length self.now.configs ≤ 8 }
        ensures in_range { self.now.floor + length self.now.configs ≤ 2 ^ 64 }
    {
        &self.places
    }

    /// What the map has at a place.
    pub fn entry(&self, place: u64) -> Entry<Q>
        ensures { result ≡ entry_at self.now place }
    {
        if place < self.floor {
            return Entry::Removed;
        }
        match self.places.get((place - self.floor) as usize) {
            Some(config) => Entry::Active(config),
            None => Entry::Unknown,
        }
    }

    /// Whether another map says the same of each place.
    pub fn same(&self, other: &ConfigMap<Q>) -> bool
        ensures { IsTrue result ↔ (self.now ≡ other.now) }
    {
        self.floor == other.floor && self.places.same(&other.places)
    }

    /// A copy.
    pub fn copy(&self) -> Self
        ensures { result ≡ self.now }
    {
        ConfigMap {
            floor: self.floor,
            places: self.places.copy_inline(),
        }
    }

    /// Merges another map into this one. Each place becomes the greater one of unknown, active and removed. Where both
    /// are active, this map's own configuration remains.
    pub fn merge(&mut self, other: &ConfigMap<Q>)
        ensures { self.new ≡ merged_map self.old other.now }
    {
        if other.floor <= self.floor && other.top() <= self.top() {
            return;
        }
        self.take_new(other);
    }

    /// Puts a configuration at the place above the top, and returns that place.
    ///
    /// Refused with `TooManyActive` where eight places are active, and else with `NumbersSpent` where the top is the
    /// greatest number. The map is then unchanged.
    pub fn learn(&mut self, config: Q) -> Result<u64, Refusal>
        ensures answer { result ≡ learn_answer self.old }
        ensures ok { OnOk result (self.new ≡ learnt self.old config) }
        ensures err { OnErr result (self.new ≡ self.old) }
    {
        if self.places.len() == ACTIVE_LIMIT {
            return Err(Refusal::TooManyActive);
        }
        let place = self.top().checked_add(1).ok_or(Refusal::NumbersSpent)?;
        self.places.push(config);
        Ok(place)
    }

    /// Removes the configuration at the lowest active place, and returns that place.
    ///
    /// Refused with `NothingToCollect` where only one place is active. The map is then unchanged.
    pub fn remove_lowest(&mut self) -> Result<u64, Refusal>
        ensures answer { result ≡ remove_answer self.old }
        ensures ok { OnOk result (self.new ≡ without_lowest self.old) }
        ensures err { OnErr result (self.new ≡ self.old) }
    {
        if self.places.len() == 1 {
            return Err(Refusal::NothingToCollect);
        }
        let place = self.floor;
        self.places.forget(1);
        self.floor = place + 1;
        Ok(place)
    }
}

impl<Q: Quorums> ConfigMap<Q> {
    // Takes from another map what it knows beyond this one. (a function of its own: most maps that are heard have
    // nothing new, and then little is done)
    #[inline(never)]
    fn take_new(&mut self, other: &ConfigMap<Q>)
        ensures { self.new ≡ merged_map self.old other.now }
    {
        let floor = self.floor.max(other.floor);
        self.places.forget((floor - self.floor) as usize);
        self.floor = floor;
        let held = ((floor - other.floor) as usize).saturating_add(self.places.len());
        self.places.append(&other.places, held);
    }
}
