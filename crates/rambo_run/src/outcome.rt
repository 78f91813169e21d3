//! What a run gives.

use rambo_history::{CallId, History};
use rambo_names::{Name, Quorums, Refusal};
use rambo_node::{Effect, Step};
use rambo_sequence::KeySequence;
use std::marker::Model;

/// What an outcome says of a node's configuration map.
#[derive(Drop)]
pub struct NodeMap<Q: Quorums> {
    pub name: Name,
    /// The lowest place that isn't removed.
    pub floor: u64,
    /// The configurations from there on.
    pub active: Vec<Q>,
}

impl<Q: Quorums> Model for NodeMap<Q> {
    ghost use Rattle.std.specs.Coded.{codes};
    ghost use Rattle.rambo_run.specs.Runs.{MapOf};

    ghost Value = { MapOf Q };

    ghost coded = { Prim.hlevel (codes, Q.code) };

    ghost view = { λ m. record { name = m.name; floor = m.floor; active = m.active.items } };
}

/// What a run gives. It has the effect or refusal of each step, and the history. It has the sequence of each key that
/// has one, keys in byte order, and the one order of the calls of all keys. And it has the map of each node that isn't
/// idle, in ascending order of name.
#[derive(Drop)]
pub struct Outcome<Q: Quorums> {
    pub effects: Vec<Result<Effect<Q>, Refusal>>,
    pub history: History,
    pub sequences: Vec<KeySequence>,
    pub order: Vec<CallId>,
    pub maps: Vec<NodeMap<Q>>,
}

impl<Q: Quorums> Model for Outcome<Q> {
    ghost use Rattle.std.specs.Coded.{codes};
    ghost use Rattle.rambo_run.specs.Runs.{OutcomeState};

    ghost Value = { OutcomeState Q };

    ghost coded = { Prim.hlevel (codes, Q.code) };

    ghost view = { λ o. record { effects = o.effects.items; history = o.history.events; sequences = o.sequences.items; order = o.order.items; maps = o.maps.items } };
}
