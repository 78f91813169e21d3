//! The timer, which visits nodes that are due.

use crate::hub::Hub;
use crate::room::NEVER;
use crate::visits::{Hands, NOBODY};
use rambo_names::{Name, Weighted};
use rambo_post::{Gate, Terms};
use rambo_scribe::Starts;
use std::alloc::Global;
use std::sync::Wait;
use std::sync::atomic::Ordering;
use std::time::Clock;

impl<J: Terms<Weighted> + Starts> Hub<J> {
    /// The work of the timer's thread, until the server is to end. It visits the nodes that are due, and sleeps until
    /// the next one is.
    pub(crate) fn keep_time<R: Wait + Clock, G: Gate>(&self, rt: &R, gate: &G, alloc: Global) {
        let mut hands = Hands::new(alloc, NOBODY);
        for _ in rt.forever() {
            if self.is_closing() {
                return;
            }
            self.point_at_due(self.now(rt));
            self.work(rt, gate, &mut hands);
            self.sleep(rt);
        }
    }

    // Notes that there is something to do at each node that is due.
    fn point_at_due(&self, now: u64) {
        for number in 1..65u64 {
            if let Ok(name) = Name::new(number) {
                let room = self.rooms.of(name);
                let wake = room.wake.load(Ordering::SeqCst);
                if wake <= now {
                    self.point_at(name);
                    let _ = room
                        .wake
                        .compare_exchange(wake, NEVER, Ordering::SeqCst, Ordering::SeqCst);
                }
            }
        }
    }

    // Sleeps until the next node is due, or the bell rings. A thread that sets an earlier time meanwhile either rings
    // or is seen here.
    fn sleep<R: Wait + Clock>(&self, rt: &R) {
        let due = self.next_due();
        self.sleeps_until.store(due, Ordering::SeqCst);
        if self.next_due() < due {
            return;
        }
        if due == NEVER {
            self.timer.wait(rt);
        } else {
            let now = self.now(rt);
            if now < due {
                self.timer.wait_for(rt, due.wrapping_sub(now));
            }
        }
    }

    // When the next node is due.
    fn next_due(&self) -> u64 {
        let mut due = NEVER;
        for number in 1..65u64 {
            if let Ok(name) = Name::new(number) {
                due = due.min(self.rooms.of(name).wake.load(Ordering::SeqCst));
            }
        }
        due
    }
}
