//! What merging means.
ghost use Rattle.rambo_config_map.specs.Maps.{MapState, merged_map};
ghost use Rattle.rambo_config_map.specs.Merging.{HasGreaterEntries, HasActive, HasGreaterTop, IsNoLonger};

use rambo_names::Quorums;

/// The laws of merging, for readers and proofs; at run time it does nothing.
///
/// At each place the merged map has the greater entry of unknown < active < removed, and its own where both are active.
/// It has the greater top, no more active places than the map with that top, and is never empty.
pub fn merging_laws<Q: Quorums>()
    ensures entries { (a b : MapState Q) → HasGreaterEntries a b }
    ensures top { (a b : MapState Q) → HasActive a → HasActive b → HasGreaterTop a b }
    ensures no_longer { (a b : MapState Q) → HasActive a → HasActive b → IsNoLonger a b }
    ensures not_empty { (a b : MapState Q) → HasActive a → HasActive b → HasActive (merged_map a b) }
{}
