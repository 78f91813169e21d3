//! What threads share of a node.
ghost use Rattle.std.specs.Prelude.{◌≡◌, vec_len};

use rambo_names::{Members, Name, Refusal};
use std::alloc::Global;
use std::sync::atomic::{AtomicU64, Ordering};

// How many names there are.
const NAMES: u64 = 64;

/// A time that never comes.
pub(crate) const NEVER: u64 = u64::MAX;

/// What threads share of a node, beside its keeper and its outbox.
#[derive(Drop)]
pub(crate) struct Room {
    /// When the node is to be visited again at the latest.
    pub(crate) wake: AtomicU64,
    /// Which client workers wait until the node is left, by bits.
    pub(crate) callers: AtomicU64,
    /// Which client workers wait until the node has room for a call, by bits.
    pub(crate) seekers: AtomicU64,
}

/// A room for each name.
#[derive(Drop)]
pub(crate) struct Rooms {
    rooms: Vec<Room>,
    ghost all: { vec_len rooms ≡ 64 },
}

impl Rooms {
    pub(crate) fn new(alloc: Global) -> Result<Rooms, Refusal> {
        let mut rooms = Vec::new(alloc);
        for number in 0..NAMES {
            rooms.push(Room {
                wake: AtomicU64::new(NEVER),
                callers: AtomicU64::new(0),
                seekers: AtomicU64::new(0),
            })?;
        }
        Ok(Rooms { rooms })
    }

    /// The room of a name.
    pub(crate) fn of(&self, name: Name) -> &Room {
        &self.rooms[name.number() as usize - 1]
    }
}

/// The bit of a name.
pub(crate) fn bit(name: Name) -> u64 {
    1 << (name.number() - 1)
}

/// The bits of these names.
pub(crate) fn bits_of(names: Members) -> u64 {
    let mut bits = 0;
    for name in names.iter() {
        bits |= bit(name);
    }
    bits
}

/// The lowest name of these bits.
pub(crate) fn lowest(bits: u64) -> Option<Name> {
    let place = u64::from(bits.trailing_zeros());
    Name::new(place.wrapping_add(1)).ok()
}
