//! Connections whose peer sends no more.

use std::alloc::{AllocError, Global};
use std::time::Duration;

// How many milliseconds a command is still waited for once the peer sends no more.
const GRACE: u64 = 200;

/// A connection whose peer sends no more, while a command of it is under way.
#[derive(Clone, Copy)]
pub(crate) struct Left {
    pub(crate) at: usize,
    pub(crate) serial: u64,
    /// When it is given up.
    pub(crate) due: u64,
}

/// The connections whose peers send no more, while a command of each is under way. Those that were noted first are due
/// first.
#[derive(Drop)]
pub(crate) struct Leaving {
    list: Vec<Left>,
}

impl Leaving {
    pub(crate) fn new(alloc: Global) -> Leaving {
        Leaving {
            list: Vec::new(alloc),
        }
    }

    /// Makes room for this many more.
    pub(crate) fn reserve(&mut self, count: usize) -> Result<(), AllocError> {
        self.list.reserve(count)
    }

    /// How many there are.
    pub(crate) fn len(&self) -> usize {
        self.list.len()
    }

    /// Whether there is none.
    pub(crate) fn is_empty(&self) -> bool {
        self.list.is_empty()
    }

    /// That at a place.
    pub(crate) fn get(&self, place: usize) -> Option<Left> {
        self.list.get(place).copied()
    }

    /// Notes that the peer of a connection sends no more, while its command of this number is under way.
    pub(crate) fn note(&mut self, at: usize, serial: u64, now: u64) {
        let due = now.saturating_add(GRACE);
        let _ = self.list.push(Left { at, serial, due }).is_ok();
    }

    /// Removes the one at a place.
    pub(crate) fn remove(&mut self, place: usize) {
        if place < self.list.len() {
            let _left = self.list.remove(place);
        }
    }

    /// How long it is until the first is due. None where there is none.
    pub(crate) fn patience(&self, now: u64) -> Option<Duration> {
        let first = self.list.first()?;
        let rest = first.due.saturating_sub(now).saturating_add(1);
        Some(Duration::from_millis(rest))
    }
}
