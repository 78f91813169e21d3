//! What a client worker has from the start, and what other threads know of it.
ghost use Rattle.std.specs.Prelude.{◌≡◌, length, vec_len, IfOk};

use crate::alarm::Alarm;
use crate::fault::ServeFault;
use crate::session::Ticket;
use crossbeam_channel::{Receiver, Sender, bounded};
use mio::{Events, Poll, Token};
use rambo_post::Waiter;
use std::alloc::Global;
use std::collections::VecDeque;
use std::net::{Net, TcpStream};
use std::sync::atomic::{AtomicBool, Ordering};
use std::sync::{Mutex, Wait};

/// The token of a client worker's alarm, among those of its sockets.
pub(crate) const ALARM: usize = usize::MAX;

// How many bytes are read at once.
const PIECE: usize = 16 * 1024;

// How many events are reported at once.
const EVENTS: usize = 1024;

// How many sockets may wait for a client worker.
const WAITING: usize = 64;

/// What other threads know of a client worker: how to wake it, and what they leave for it.
#[derive(Drop)]
pub(crate) struct Station {
    pub(crate) alarm: Alarm,
    given: Mutex<Vec<Waiter>>,
    // Whether there was no room to note such a waiter, so that the worker has to look at all who wait.
    missed: AtomicBool,
}

impl Station {
    /// The station of the worker that waits by this poll.
    pub(crate) fn new(alloc: Global, poll: &Poll) -> Result<Station, ServeFault> {
        Ok(Station {
            alarm: Alarm::new(poll.registry(), Token(ALARM))?,
            given: Mutex::new(Vec::new(alloc)),
            missed: AtomicBool::new(false),
        })
    }

    /// Notes that there is an answer for this waiter, and wakes the worker.
    pub(crate) fn leave_word<R: Wait>(&self, rt: &R, who: Waiter) {
        if self.given.lock(rt).push(who).is_err() {
            self.missed.store(true, Ordering::SeqCst);
        }
        self.alarm.ring();
    }

    /// Takes out one of the waiters for whom there is an answer.
    pub(crate) fn take<R: Wait>(&self, rt: &R) -> Option<Waiter> {
        self.given.lock(rt).pop()
    }

    /// Whether there was no room to note a waiter since this was last asked.
    pub(crate) fn take_missed(&self) -> bool {
        self.missed.swap(false, Ordering::SeqCst)
    }
}

/// What a client worker has from the start: what it waits by, what it reads into, and where sockets come from.
#[derive(Drop)]
pub(crate) struct Seat {
    pub(crate) poll: Poll,
    pub(crate) events: Events,
    pub(crate) piece: Vec<u8>,
    /// Its worker takes this, so that no socket is handed to it once it has ended.
    pub(crate) streams: Option<Receiver<TcpStream>>,
    /// For each of the names 1, 2, .. the commands that wait for its node, the oldest first.
    pub(crate) queues: Vec<VecDeque<Ticket>>,
}

impl Seat {
    fn new<R: Net>(
        rt: &R,
        alloc: Global,
        streams: Receiver<TcpStream>,
    ) -> Result<Seat, ServeFault> {
        let mut piece = Vec::new(alloc);
        piece.resize(PIECE, 0u8)?;
        let mut queues = Vec::new(alloc);
        for number in 0..64u64 {
            queues.push(VecDeque::new(alloc))?;
        }
        Ok(Seat {
            poll: Poll::new(rt)?,
            events: Events::with_capacity(alloc, EVENTS)?,
            piece,
            streams: Some(streams),
            queues,
        })
    }
}

/// This many seats, and for each where its sockets are sent to.
pub(crate) fn seats_of<R: Net>(
    rt: &R,
    alloc: Global,
    count: usize,
) -> Result<(Vec<Seat>, Vec<Sender<TcpStream>>), ServeFault> {
    let mut seats = Vec::new(alloc);
    let mut to = Vec::new(alloc);
    for _ in 0..count {
        let (sender, receiver) = bounded(alloc, WAITING)?;
        seats.push(Seat::new(rt, alloc, receiver)?)?;
        to.push(sender)?;
    }
    Ok((seats, to))
}

/// A station for each of these seats.
pub(crate) fn stations_of(alloc: Global, seats: &[Seat]) -> Result<Vec<Station>, ServeFault>
    ensures count { IfOk result (λ s. vec_len s ≡ length seats.now) }
{
    let mut stations = Vec::new(alloc);
    for place in 0..seats.len() {
        stations.push(Station::new(alloc, &seats[place].poll)?)?;
    }
    Ok(stations)
}
