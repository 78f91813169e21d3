//! What all threads of a server share.
ghost use Rattle.std.specs.Prelude.{◌≡◌, Some, OnOk, OnErr, IfOk, IfErr};
ghost use mathlib.Core.List.{IsPrefix};
ghost use Rattle.rambo_names.specs.Weights.{Weights, weighted_majorities};
ghost use Rattle.rambo_node.specs.declared.effect.Effect.{Effect};
ghost use Rattle.rambo_pass.specs.Passes.{Acted, WhyUndone};

use crate::bell::Bell;
use crate::fault::ServeFault;
use crate::room::{NEVER, Rooms, bit};
use crate::station::Station;
use rambo_commands::Report;
use rambo_names::{Members, Name, Quorums, Refusal, Weighted};
use rambo_post::{Pass, Post, Terms};
use rambo_run::Step;
use rambo_scribe::{Kept, Starts};
use rambo_tag::Registers;
use std::alloc::Global;
use std::hash::RandomState;
use std::sync::atomic::{AtomicBool, AtomicU64, Ordering};
use std::sync::{Mutex, Wait};
use std::time::{Clock, Instant};

/// Where this many steps are at hand they are drawn at once.
pub(crate) const MANY: usize = 1024;

// Where this many are, no further call is made before.
const TOO_MANY: usize = 65_536;

/// The copies of a node, with a seeded hash: keys that a client chose can't make look-ups slow.
pub type Copies = Registers<RandomState>;

/// What all threads of a server share: the post, and what wakes them to look at it.
#[derive(Drop)]
pub(crate) struct Hub<J: Terms<Weighted> + Starts> {
    pub(crate) post: Post<J, Weighted, Copies>,
    founders: Weighted,
    // How many steps the book takes in all, and whether these are drawn.
    capacity: usize,
    draws: bool,
    /// The lowest founder.
    pub(crate) first: Name,
    pub(crate) rooms: Rooms,
    /// Each client worker has one.
    pub(crate) stations: Vec<Station>,
    /// The names whose nodes have something to do, by bits.
    pub(crate) pending: AtomicU64,
    /// The names whose nodes a thread is visiting, by bits.
    pub(crate) visited: AtomicU64,
    /// The names whose nodes have stopped, by bits.
    stopped: AtomicU64,
    /// What wakes the timer's thread, which visits nodes that are due; and until when that thread sleeps.
    pub(crate) timer: Bell,
    pub(crate) sleeps_until: AtomicU64,
    /// What wakes the thread that writes the trace.
    pub(crate) scribe: Bell,
    /// How many bytes of the trace were written.
    pub(crate) trace_bytes: AtomicU64,
    // The steps whose trace the medium keeps, where replies wait for that; and how many they are.
    kept: Mutex<Kept<J>>,
    kept_count: AtomicU64,
    // How many client workers are at work.
    workers: AtomicU64,
    /// How many connections are served.
    connections: AtomicU64,
    // How many calls wait for their answer, and how many were answered.
    calls: AtomicU64,
    operations: AtomicU64,
    begun: Instant,
    is_closing: AtomicBool,
    is_full: AtomicBool,
    has_failed: AtomicBool,
}

impl<J: Terms<Weighted> + Starts> Hub<J> {
    /// What threads share of this post, whose nodes have nothing to do yet. It takes so many steps in all, which are drawn or
    /// aren't.
    pub(crate) fn new(
        alloc: Global,
        post: Post<J, Weighted, Copies>,
        kept: Kept<J>,
        founders: Weighted,
        capacity: usize,
        draws: bool,
        first: Name,
        stations: Vec<Station>,
        begun: Instant,
    ) -> Result<Hub<J>, ServeFault>
        ensures first { IfOk result (λ h. h.first ≡ first) }
        ensures stations { IfOk result (λ h. h.stations ≡ stations) }
        ensures fault { IfErr result (λ f. f ≡ ServeFault.Memory) }
    {
        Ok(Hub {
            post,
            founders,
            capacity,
            draws,
            first,
            rooms: Rooms::new(alloc)?,
            stations,
            pending: AtomicU64::new(0),
            visited: AtomicU64::new(0),
            stopped: AtomicU64::new(0),
            timer: Bell::new(),
            sleeps_until: AtomicU64::new(NEVER),
            scribe: Bell::new(),
            trace_bytes: AtomicU64::new(0),
            kept: Mutex::new(kept),
            kept_count: AtomicU64::new(0),
            workers: AtomicU64::new(0),
            connections: AtomicU64::new(0),
            calls: AtomicU64::new(0),
            operations: AtomicU64::new(0),
            begun,
            is_closing: AtomicBool::new(false),
            is_full: AtomicBool::new(false),
            has_failed: AtomicBool::new(false),
        })
    }

    /// Notes that these nodes have stopped, and that each node may have something to do.
    pub(crate) fn rouse(&self, stopped: Members) {
        let mut names = 0;
        for name in stopped.iter() {
            names |= bit(name);
        }
        self.stopped.store(names, Ordering::SeqCst);
        self.pending.store(u64::MAX, Ordering::SeqCst);
    }

    /// What the medium of the trace keeps.
    pub(crate) fn kept<R: Wait>(&self, rt: &R) -> Kept<J> {
        self.kept.lock(rt).again(rt, &self.post)
    }

    /// What the medium keeps, where that is more.
    pub(crate) fn renew<R: Wait>(&self, rt: &R, kept: &mut Kept<J>) {
        if self.kept_count.load(Ordering::SeqCst) != kept.count() as u64 {
            *kept = self.kept(rt);
        }
    }

    /// Notes what the medium keeps, and if that is more than before, wakes all client workers.
    pub(crate) fn publish<R: Wait>(&self, rt: &R, kept: &mut Kept<J>) {
        let count = kept.count() as u64;
        if count == self.kept_count.load(Ordering::SeqCst) {
            return;
        }
        *self.kept.lock(rt) = kept.again(rt, &self.post);
        self.kept_count.store(count, Ordering::SeqCst);
        self.ring_all();
    }

    /// Counts one client worker more that is at work.
    pub(crate) fn begin_work(&self) {
        self.workers.fetch_add(1, Ordering::SeqCst);
    }

    /// Counts one less.
    pub(crate) fn end_work<R: Wait>(&self, rt: &R) {
        self.workers.fetch_sub(1, Ordering::SeqCst);
        self.scribe.ring(rt);
    }

    /// Whether the server is to end, and no client worker waits any more for what the medium keeps.
    pub(crate) fn has_closed(&self, syncs: bool) -> bool {
        self.is_closing() && (!syncs || self.workers.load(Ordering::SeqCst) == 0)
    }

    /// How many milliseconds the server has run.
    pub(crate) fn now<R: Clock>(&self, rt: &R) -> u64 {
        match Instant::now(rt) {
            Ok(now) => {
                let millis = now.saturating_duration_since(self.begun).as_millis();
                u64::try_from(millis).unwrap_or(u64::MAX)
            }
            Err(_) => 0,
        }
    }

    /// The node that a connection uses at first: the lowest founder that wasn't stopped, or the lowest of all if each
    /// was.
    pub(crate) fn first_node(&self) -> Name {
        let stopped = self.stopped.load(Ordering::SeqCst);
        for name in self.founders.members().iter() {
            if stopped & bit(name) == 0 {
                return name;
            }
        }
        self.first
    }

    /// Counts one connection more, unless there are `most`. Returns whether it did.
    pub(crate) fn let_in(&self, most: u64) -> bool {
        if self.connections.load(Ordering::SeqCst) >= most {
            return false;
        }
        self.connections.fetch_add(1, Ordering::SeqCst);
        true
    }

    /// Counts one connection less.
    pub(crate) fn let_out(&self) {
        self.connections.fetch_sub(1, Ordering::SeqCst);
    }

    /// Counts one call more that waits for its answer.
    pub(crate) fn note_call(&self) {
        self.calls.fetch_add(1, Ordering::SeqCst);
    }

    /// Counts one call less that waits, and if it was answered one operation more.
    pub(crate) fn note_end(&self, is_answered: bool) {
        self.calls.fetch_sub(1, Ordering::SeqCst);
        if is_answered {
            self.operations.fetch_add(1, Ordering::SeqCst);
        }
    }

    /// Whether so many steps are at hand that no further call is made before they were drawn. Where there are many, their
    /// drawer is woken.
    pub(crate) fn is_held<R: Wait>(&self, rt: &R) -> bool {
        if !self.draws {
            return false;
        }
        let at_hand = self.post.at_hand(rt);
        if at_hand >= MANY {
            self.scribe.ring(rt);
        }
        at_hand >= TOO_MANY
    }

    /// The founders.
    pub(crate) fn founders(&self) -> Weighted {
        self.founders
    }

    /// The counts of the server.
    pub(crate) fn report<R: Wait>(&self, rt: &R) -> Report {
        let counts = self.post.counts(rt);
        Report {
            steps: counts.steps as u64,
            steps_at_hand: counts.at_hand as u64,
            steps_at_most: self.capacity as u64,
            letters_kept: counts.letters as u64,
            calls_open: self.calls.load(Ordering::SeqCst),
            trace_bytes: self.trace_bytes.load(Ordering::SeqCst),
            connections: self.connections.load(Ordering::SeqCst),
            operations: self.operations.load(Ordering::SeqCst),
        }
    }

    /// Whether the server is to end.
    pub(crate) fn is_closing(&self) -> bool {
        self.is_closing.load(Ordering::SeqCst)
    }

    /// Whether the trace can't be written any more.
    pub(crate) fn has_failed(&self) -> bool {
        self.has_failed.load(Ordering::SeqCst)
    }

    /// Whether a visit found the book full.
    pub(crate) fn is_full(&self) -> bool {
        self.is_full.load(Ordering::SeqCst)
    }

    /// Has a node take a step that a client asks for, and notes that there is something to do at it. Refused as the
    /// post refuses it.
    pub(crate) fn change<R: Wait>(
        &self,
        rt: &R,
        pass: &mut Pass<J, Weighted>,
        name: Name,
        step: Step<Weighted>,
    ) -> Result<(), Refusal>
        ensures acted { OnOk result ((f : Weights) → J.founders ≡ Some f → (e : Effect Weights) × Acted weighted_majorities f pass.old pass.new step e) }
        ensures begins { IsPrefix pass.old.seen pass.new.seen }
        ensures err { OnErr result (pass.new.mine ≡ pass.old.mine) }
        ensures cause { IfErr result (λ r. (f : Weights) → J.founders ≡ Some f → WhyUndone weighted_majorities f J.endless J.capacity pass.old pass.new step r) }
    {
        let stops = matches!(step, Step::Stop(_));
        let _effect = self.post.act(rt, pass, step)?;
        if stops {
            self.stopped.fetch_or(bit(name), Ordering::SeqCst);
        }
        self.point_at(name);
        Ok(())
    }

    // Wakes all client workers.
    fn ring_all(&self) {
        for station in self.stations.as_slice() {
            station.alarm.ring();
        }
    }

    /// Notes that the book is full, and wakes all client workers.
    pub(crate) fn fill(&self) {
        if !self.is_full.swap(true, Ordering::SeqCst) {
            self.ring_all();
        }
    }

    /// Notes that the server is to end, and wakes the client workers and the timer's thread. No further command is
    /// carried out.
    pub(crate) fn close<R: Wait>(&self, rt: &R) {
        self.is_closing.store(true, Ordering::SeqCst);
        self.ring_all();
        self.timer.ring(rt);
        self.scribe.ring(rt);
    }

    /// Notes that the trace can't be written any more, so that the server is to end. A client worker writes no reply from its
    /// next round on.
    pub(crate) fn fail<R: Wait>(&self, rt: &R) {
        self.has_failed.store(true, Ordering::SeqCst);
        self.close(rt);
    }
}
