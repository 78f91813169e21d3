//! What a thread does at the nodes.

use crate::hub::Hub;
use crate::room::{NEVER, bit, bits_of, lowest};
use rambo_names::{Name, Refusal, Weighted};
use rambo_post::{Gate, Terms, Waiter};
use rambo_scribe::Starts;
use std::alloc::Global;
use std::mem;
use std::sync::Wait;
use std::sync::atomic::Ordering;
use std::time::Clock;

/// What a thread carries from the nodes that it visits to those who wait.
#[derive(Drop)]
pub(crate) struct Hands {
    given: Vec<Waiter>,
    // Whose hands they are: the place of a client worker, or `NOBODY`.
    place: u32,
    /// The waiters of its own connections for whom there is an answer.
    pub(crate) own: Vec<Waiter>,
    // Whether there was no room for one of these.
    missed: bool,
}

/// In the place of a client worker: it is another thread.
pub(crate) const NOBODY: u32 = u32::MAX;

impl Hands {
    pub(crate) fn new(alloc: Global, place: u32) -> Hands {
        Hands {
            given: Vec::new(alloc),
            place,
            own: Vec::new(alloc),
            missed: false,
        }
    }

    /// Whether there was no room for one of its own since this was last asked.
    pub(crate) fn take_missed(&mut self) -> bool {
        mem::replace(&mut self.missed, false)
    }
}

impl<J: Terms<Weighted> + Starts> Hub<J> {
    /// Notes that there is something to do at a node.
    pub(crate) fn point_at(&self, name: Name) {
        self.pending.fetch_or(bit(name), Ordering::SeqCst);
    }

    /// The names whose nodes may be visited now, by bits: those where there is something to do and those of `beside`,
    /// if no thread is there. None where the server is to end or the book is full.
    pub(crate) fn free(&self, beside: u64) -> u64 {
        if self.is_closing() || self.is_full() {
            return 0;
        }
        (self.pending.load(Ordering::SeqCst) | beside) & !self.visited.load(Ordering::SeqCst)
    }

    /// Enters a node, unless a thread is there. Returns whether it did.
    pub(crate) fn enter(&self, name: Name) -> bool {
        self.visited.fetch_or(bit(name), Ordering::SeqCst) & bit(name) == 0
    }

    /// Leaves a node, and wakes those who wait for that.
    pub(crate) fn leave(&self, name: Name) {
        self.visited.fetch_and(!bit(name), Ordering::SeqCst);
        self.ring_some(self.rooms.of(name).callers.swap(0, Ordering::SeqCst));
    }

    // Wakes the client workers at these places, by bits.
    fn ring_some(&self, places: u64) {
        let mut rest = places;
        for station in self.stations.as_slice() {
            if rest == 0 {
                return;
            }
            if rest & 1 == 1 {
                station.alarm.ring();
            }
            rest >>= 1;
        }
    }

    /// Has a client worker woken once a node is left.
    pub(crate) fn await_leave(&self, name: Name, place: u32) {
        let callers = &self.rooms.of(name).callers;
        callers.fetch_or(1u64.wrapping_shl(place), Ordering::SeqCst);
    }

    /// Has a client worker woken once a node has room for a call.
    pub(crate) fn await_room(&self, name: Name, place: u32) {
        let seekers = &self.rooms.of(name).seekers;
        seekers.fetch_or(1u64.wrapping_shl(place), Ordering::SeqCst);
    }

    /// A client worker no longer wants room at a node.
    pub(crate) fn leave_room(&self, name: Name, place: u32) {
        let seekers = &self.rooms.of(name).seekers;
        seekers.fetch_and(!1u64.wrapping_shl(place), Ordering::SeqCst);
    }

    /// Visits each node where there is something to do and no thread is, until there is none.
    pub(crate) fn work<R: Wait + Clock, G: Gate>(&self, rt: &R, gate: &G, hands: &mut Hands) {
        for _ in rt.forever() {
            let Some(name) = lowest(self.free(0)) else {
                return;
            };
            if self.enter(name) {
                let _ = self.visit(rt, gate, name, hands);
                self.leave(name);
            }
        }
    }

    /// Does what there is to do at a node that was entered, and tells those who are given an answer.
    ///
    /// `OutOfMemory` where memory is out. What was left is done a moment later.
    pub(crate) fn visit<R: Wait + Clock, G: Gate>(
        &self,
        rt: &R,
        gate: &G,
        name: Name,
        hands: &mut Hands,
    ) -> Result<(), Refusal> {
        self.pending.fetch_and(!bit(name), Ordering::SeqCst);
        let seekers = &self.rooms.of(name).seekers;
        let wants_room = seekers.load(Ordering::SeqCst) != 0;
        let now = self.now(rt);
        let given = &mut hands.given;
        let visited = self.post.visit(rt, gate, name, now, wants_room, given);
        let written = bits_of(visited.written);
        self.pending.fetch_or(written, Ordering::SeqCst);
        self.set_wake(rt, name, visited.wake);
        if wants_room && visited.has_room {
            self.ring_some(seekers.swap(0, Ordering::SeqCst));
        }
        self.tell(rt, hands);
        match visited.left {
            None => Ok(()),
            Some(Refusal::HistoryFull) => {
                self.fill();
                Ok(())
            }
            Some(refusal) => Err(refusal),
        }
    }

    // Has a node visited again at this time, if at any.
    fn set_wake<R: Wait>(&self, rt: &R, name: Name, wake: Option<u64>) {
        let wake = wake.unwrap_or(NEVER);
        self.rooms.of(name).wake.store(wake, Ordering::SeqCst);
        if wake < self.sleeps_until.load(Ordering::SeqCst) {
            self.timer.ring(rt);
        }
    }

    // Tells those who waited that there is an answer.
    fn tell<R: Wait>(&self, rt: &R, hands: &mut Hands) {
        for _ in rt.forever() {
            let Some(who) = hands.given.pop() else {
                return;
            };
            if who.client == hands.place {
                hands.missed |= hands.own.push(who).is_err();
            } else if let Some(station) = self.stations.get(who.client as usize) {
                station.leave_word(rt, who);
            }
        }
    }
}
