//! Collections.
ghost use Rattle.std.specs.Prelude.{◌≡◌, IfOk, IfErr};
ghost use Rattle.rambo_gc.specs.Collections.{open_answer, heard as heard_from, is_met, move_of, advance_answer, advanced};

use crate::gc_move::GcMove;
use crate::stage::Stage;
use rambo_config_map::{ConfigMap, Entry};
use rambo_names::{Members, Name, Quorums, Refusal};
use std::marker::Model;

/// A node's collection of one place. It asks a quorum of the configuration there, then under a new number one of the
/// next place's. Then the place can be removed (Lynch and Shvartsman, "RAMBO", DISC 2002).
#[derive(Clone, Copy)]
pub struct Collection {
    node: Name,
    place: u64,
    number: u64,
    stage: Stage,
    repliers: Members,
}

impl Model for Collection {
    ghost use Rattle.std.specs.Prelude.{◌<◌, ◌+◌, ◌^◌};
    ghost use Rattle.std.specs.Coded.{codes};
    ghost use Rattle.rambo_names.specs.Names.{names_code};
    ghost use Rattle.rambo_gc.specs.Collections.{CollectionState};

    ghost Value = { CollectionState };

    ghost coded = { Prim.hlevel (codes, names_code) };

    ghost view = { λ c. record { node = c.node; place = c.place; number = c.number; stage = c.stage; repliers = c.repliers } };

    ghost invariant = { λ c. c.place + 1 < 2 ^ 64 };

    ghost inverse = { λ g. record { node = g.node; place = g.place; number = g.number; stage = g.stage; repliers = g.repliers } };
}

impl Collection {
    /// Node `me` begins to collect the lowest active place of its map, under a number, and replies to itself.
    ///
    /// `NothingToCollect` exactly where only one place is active.
    pub fn open<Q: Quorums>(
        map: &ConfigMap<Q>,
        number: u64,
        me: Name,
    ) -> Result<Collection, Refusal>
        ensures { result ≡ open_answer map.now number me }
    {
        if map.places().len() == 1 {
            return Err(Refusal::NothingToCollect);
        }
        Ok(Collection {
            node: me,
            place: map.floor(),
            number,
            stage: Stage::First,
            repliers: Members::empty().with(me),
        })
    }

    /// The place that it wants removed.
    pub fn place(&self) -> u64
        ensures { result ≡ self.now.place }
    {
        self.place
    }

    /// The phase number under which it asks.
    pub fn number(&self) -> u64
        ensures { result ≡ self.now.number }
    {
        self.number
    }

    /// Hears a letter of a node that had heard the number `heard`: it is a reply where that is at least the
    /// collection's own number.
    pub fn hear(&mut self, from: Name, heard: u64)
        ensures { self.new ≡ heard_from self.old from heard }
    {
        if self.number <= heard {
            self.repliers = self.repliers.with(from);
        }
    }

    /// What an advance would do, given the node's map, if it wouldn't be refused.
    pub fn would_advance<Q: Quorums>(&self, map: &ConfigMap<Q>) -> Option<GcMove>
        ensures { result ≡ move_of Q.system map.now self.now }
    {
        if self.place < map.floor() {
            return Some(GcMove::Done);
        }
        if !self.is_met(map) {
            return None;
        }
        match self.stage {
            Stage::First => Some(GcMove::Propagating),
            Stage::Second => Some(GcMove::Done),
        }
    }

    /// Advances, given the node's map. Where the first quorum has replied, the second stage begins under a new number,
    /// with the node's own reply alone. Where the second has replied, or the place is removed already, the collection
    /// is done: its owner drops it, and removes the place if it is still active.
    ///
    /// `NotYet` exactly where the place isn't removed and its quorum hasn't replied. The collection is then unchanged.
    pub fn advance<Q: Quorums>(
        &mut self,
        map: &ConfigMap<Q>,
        number: u64,
    ) -> Result<GcMove, Refusal>
        ensures answer { result ≡ advance_answer (move_of Q.system map.now self.old) }
        ensures state { self.new ≡ advanced Q.system map.now number self.old }
    {
        let next = self.would_advance(map).ok_or(Refusal::NotYet)?;
        if next == GcMove::Propagating {
            self.number = number;
            self.stage = Stage::Second;
            self.repliers = Members::empty().with(self.node);
        }
        Ok(next)
    }

    // Whether the repliers contain a quorum of the configuration that is asked.
    fn is_met<Q: Quorums>(&self, map: &ConfigMap<Q>) -> bool
        ensures { result ≡ is_met Q.system map.now self.now }
    {
        let asked = match self.stage {
            Stage::First => self.place,
            Stage::Second => self.place + 1,
        };
        match map.entry(asked) {
            Entry::Active(config) => config.is_quorum(self.repliers),
            Entry::Unknown | Entry::Removed => false,
        }
    }
}
