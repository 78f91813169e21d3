//! What a collection has asked when it moves on.
ghost use Rattle.std.specs.Prelude.{◌≡◌, ℕ, Some};
ghost use Rattle.rambo_config_map.specs.Maps.{MapState};
ghost use Rattle.rambo_gc.specs.Collections.{CollectionState, move_of};
ghost use Rattle.rambo_gc.specs.Turns.{HasFirstQuorum, IsOver};

use crate::gc_move::GcMove;
use rambo_names::Quorums;

/// The laws of an advance, for readers and proofs; at run time it does nothing.
///
/// The second stage begins only where the first one's repliers contain a quorum of the configuration at the
/// collection's place. The collection is done only where the second one's contain a quorum of the next place's, or the
/// place is removed already.
pub fn collecting_laws<Q: Quorums>()
    ensures second { (m : MapState Q) (g : CollectionState) → move_of Q.system m g ≡ Some GcMove.Propagating
        → HasFirstQuorum Q.system m g }
    ensures done { (m : MapState Q) (g : CollectionState) → move_of Q.system m g ≡ Some GcMove.Done → IsOver Q.system m g }
{}
