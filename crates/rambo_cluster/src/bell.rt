//! What wakes a thread that waits for nothing else.

use std::sync::{Condvar, CondvarTimeouts, Mutex, Wait};
use std::time::{Clock, Duration};

/// A bell that one thread waits for. A ring says only that there may be something to do.
#[derive(Drop)]
pub(crate) struct Bell {
    rung: Mutex<bool>,
    moved: Condvar,
}

impl Bell {
    pub(crate) fn new() -> Bell {
        Bell {
            rung: Mutex::new(false),
            moved: Condvar::new(),
        }
    }

    /// Rings it. The thread that waits for it wakes, or else its next wait is over at once.
    pub(crate) fn ring<R: Wait>(&self, rt: &R) {
        *self.rung.lock(rt) = true;
        self.moved.notify_one();
    }

    /// Sleeps until it rings.
    pub(crate) fn wait<R: Wait>(&self, rt: &R) {
        let mut rung = self.moved.wait_while(rt, self.rung.lock(rt), |rung| !*rung);
        *rung = false;
    }

    /// Sleeps until it rings, but at most for this many milliseconds.
    pub(crate) fn wait_for<R: Wait + Clock>(&self, rt: &R, millis: u64) {
        let (mut rung, _) = self.moved.wait_timeout_while(
            rt,
            self.rung.lock(rt),
            Duration::from_millis(millis),
            |rung| !*rung,
        );
        *rung = false;
    }
}
