//! The trace is written while clients are served.

use crate::hub::{Hub, MANY};
use rambo_archive::Durable;
use rambo_names::Weighted;
use rambo_post::Terms;
use rambo_scribe::{Scribe, Starts};
use std::alloc::Global;
use std::sync::Wait;
use std::sync::atomic::Ordering;
use std::time::Clock;

// How many milliseconds pass before the steps at hand are written, unless there are many.
const PAUSE: u64 = 10;

impl<J: Terms<Weighted> + Starts> Hub<J> {
    /// Writes down the steps as they are done, until the server is to end. Where they can't be written, it has the server end.
    pub(crate) fn write_down<W: Durable + Drop, R: Wait + Clock>(
        &self,
        rt: &R,
        alloc: Global,
        scribe: &mut Scribe<J, W>,
    ) {
        let mut kept = self.kept(rt);
        for _ in rt.forever() {
            if self.has_closed(kept.syncs()) {
                return;
            }
            let count = scribe.go_on(rt, alloc, &self.post, &mut kept);
            self.trace_bytes.store(scribe.bytes(), Ordering::SeqCst);
            self.publish(rt, &mut kept);
            if scribe.fault().is_some() {
                return self.fail(rt);
            }
            if count < MANY {
                self.scribe.wait_for(rt, PAUSE);
            }
        }
    }
}
