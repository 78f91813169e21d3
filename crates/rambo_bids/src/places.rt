//! Places of a map.
ghost use Rattle.std.specs.Prelude.{◌≡◌, ◌≤◌, ◌+◌, nat_eq, nat_lt, length};
ghost use Rattle.rambo_config_map.specs.Maps.{active_at, end_of};

use rambo_config_map::{ConfigMap, Entry};
use rambo_names::Quorums;

/// The last place that a map knows.
pub fn top_of<Q: Quorums>(map: &ConfigMap<Q>) -> u64
    ensures next { end_of map.now ≡ result + 1 }
    ensures active { 1 ≤ length map.now.configs }
{
    map.floor() + (map.places().len() as u64 - 1)
}

/// Whether a map knows a place.
pub fn is_known<Q: Quorums>(map: &ConfigMap<Q>, place: u64) -> bool
    ensures { result ≡ nat_lt place (end_of map.now) }
{
    place <= top_of(map)
}

/// The configuration that is active at a place of a map, or none where the place is removed or unknown.
pub fn active_at<Q: Quorums>(map: &ConfigMap<Q>, place: u64) -> Option<Q>
    ensures { result ≡ active_at map.now place }
{
    match map.entry(place) {
        Entry::Active(config) => Some(config),
        Entry::Unknown | Entry::Removed => None,
    }
}

// Whether a place is the first unknown one of a map.
pub(crate) fn is_next<Q: Quorums>(map: &ConfigMap<Q>, place: u64) -> bool
    ensures { result ≡ nat_eq place (end_of map.now) }
{
    let top = top_of(map);
    top < place && place - top == 1
}
