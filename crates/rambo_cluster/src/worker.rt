//! A client worker: one thread that serves many connections.

use crate::guest::{Guest, Wait};
use crate::hub::Hub;
use crate::leaving::Leaving;
use crate::room::{bit, lowest};
use crate::session::{Flow, Session};
use crate::station::{Seat, Station};
use crate::visits::Hands;
use crossbeam_channel::Receiver;
use mio::net::TcpStream;
use mio::{Events, Interest, Poll, Token};
use rambo_names::{Name, Refusal, Weighted};
use rambo_post::{Gate, Pass, Terms, Waiter};
use rambo_scribe::{Kept, Starts};
use slab::Slab;
use std::alloc::{AllocError, Global};
use std::sync::Wait as Waits;
use std::time::{Clock, Duration, Instant};
use std::{mem, net, thread};

// At most this many rounds are made without a look for events, while there is something else to do.
const ROUNDS: u64 = 16;

// How often a worker looks for events before it sleeps, if its last sleep was short; and of fewer than how many
// microseconds that is.
const LOOKS: u64 = 100;

const SHORT: u64 = 60;

// How many milliseconds pass before it looks again whether calls can be made that were held back.
const HELD: u64 = 5;

// How often it looks whether its last replies may be written, and how many milliseconds pass meanwhile.
const TRIES: u64 = 10_000;

const PAUSE: u64 = 1;

/// A client worker.
#[derive(Drop)]
pub(crate) struct Worker<'h, J: Terms<Weighted> + Starts, G: Gate, R> {
    session: Session<'h, J, G, R>,
    station: &'h Station,
    poll: &'h mut Poll,
    events: &'h mut Events,
    streams: Receiver<net::TcpStream>,
    // What is read into.
    piece: &'h mut Vec<u8>,
    guests: Slab<Guest>,
    // The connections that may go on, and those of them that do now.
    ready: Vec<usize>,
    going: Vec<usize>,
    // The connections that have replies to write.
    unwritten: Vec<usize>,
    // The connections whose peers send no more, while a command is under way.
    leaving: Leaving,
    hands: Hands,
    // How many rounds were made since it last looked for events.
    rounds: u64,
    // How often it looks for events before it sleeps.
    looks: u64,
    // Whether those who wait were told that the book is full.
    has_told_full: bool,
}

/// What a client worker does, until the server is to end. Returns whether a client of its own asked for that.
pub(crate) fn serve_connections<J: Terms<Weighted> + Starts, G: Gate, R: Waits + Clock>(
    rt: &R,
    gate: &G,
    alloc: Global,
    hub: &Hub<J>,
    pass: &mut Pass<J, Weighted>,
    kept: &mut Kept<J>,
    seat: &mut Seat,
    place: u32,
) -> bool {
    let Some(station) = hub.stations.get(place as usize) else {
        return false;
    };
    let Seat {
        poll,
        events,
        piece,
        streams,
        queues,
    } = seat;
    let Some(streams) = streams.take() else {
        return false;
    };
    let mut worker = Worker {
        session: Session::new(rt, alloc, gate, hub, pass, kept, queues, place),
        station,
        poll,
        events,
        streams,
        piece,
        guests: Slab::new(alloc),
        ready: Vec::new(alloc),
        going: Vec::new(alloc),
        unwritten: Vec::new(alloc),
        leaving: Leaving::new(alloc),
        hands: Hands::new(alloc, place),
        rounds: 0,
        looks: 0,
        has_told_full: false,
    };
    worker.run() == Flow::EndsAll
}

// Rounds.
impl<'h, J: Terms<Weighted> + Starts, G: Gate, R: Waits + Clock> Worker<'h, J, G, R> {
    // Serves until the server is to end, or a client of its own asks for that.
    fn run(&mut self) -> Flow {
        let rt = self.session.rt;
        for _ in rt.forever() {
            if self.session.hub.has_failed() {
                return Flow::Waits;
            }
            if self.session.hub.is_closing() {
                self.write_last();
                return Flow::Waits;
            }
            self.wait();
            if self.serve_ready() == Flow::EndsAll {
                self.write_last();
                return Flow::EndsAll;
            }
            self.visit_nodes();
            self.take_given();
            self.tell_full();
            self.give_up_left();
        }
        Flow::Waits
    }

    // Whether there is something to do without a further event.
    fn is_busy(&self) -> bool {
        !self.ready.is_empty()
            || self.station.alarm.has_rung()
            || self.session.hub.free(self.session.wanted()) != 0
    }

    // Waits for events where there is nothing else to do, and notes which connections may go on.
    fn wait(&mut self) {
        self.rounds = self.rounds.wrapping_add(1);
        if self.rounds < ROUNDS && self.is_busy() {
            self.hear_alarm();
            return;
        }
        self.rounds = 0;
        self.session.look_at_hand();
        self.write_replies();
        if self.is_busy() {
            self.look();
        } else if !self.look_often() {
            self.sleep();
        }
        self.hear_alarm();
        self.note_events();
    }

    // If its alarm rang, takes the sockets that came, and looks again for room at nodes that had none.
    fn hear_alarm(&mut self) {
        if self.station.alarm.forget() {
            self.session.blocked = 0;
            self.take_sockets();
        }
    }

    // Looks for events.
    fn look(&mut self) {
        let _ = self.poll.poll(self.events, Some(Duration::ZERO));
    }

    // Looks for events some times, if its last sleep was short. Returns whether there is something to do.
    fn look_often(&mut self) -> bool {
        for _ in 0..self.looks {
            self.look();
            if !self.events.is_empty() || self.is_busy() {
                return true;
            }
        }
        false
    }

    // How long it sleeps at most: until a connection is to be given up, and only for a while where calls are held back.
    fn patience(&self) -> Option<Duration> {
        let patience = self.leaving.patience(self.session.hub.now(self.session.rt));
        if !self.session.is_held_back() {
            return patience;
        }
        let while_held = Duration::from_millis(HELD);
        match patience {
            Some(patience) if patience < while_held => Some(patience),
            _ => Some(while_held),
        }
    }

    // Sleeps until there is an event, or a connection is to be given up. After a short sleep it looks for events some
    // times before the next one.
    fn sleep(&mut self) {
        let rt = self.session.rt;
        let may_sleep = self.station.alarm.lie_down();
        let timeout = if may_sleep && !self.is_busy() {
            self.patience()
        } else {
            Some(Duration::ZERO)
        };
        let before = Instant::now(rt);
        let _ = self.poll.poll(self.events, timeout);
        self.station.alarm.get_up();
        if let (Ok(before), Ok(after)) = (before, Instant::now(rt)) {
            let slept = after.saturating_duration_since(before);
            self.looks = if slept < Duration::from_micros(SHORT) {
                LOOKS
            } else {
                0
            };
        }
    }

    // Notes which connections may go on.
    fn note_events(&mut self) {
        let Worker {
            events,
            guests,
            ready,
            ..
        } = self;
        for event in events.iter() {
            let at = event.token().0;
            if let Some(guest) = guests.get_mut(at) {
                let has_end = event.is_read_closed() || event.is_error();
                if event.is_readable() || has_end {
                    guest.may_read(has_end);
                }
                make_ready(ready, guest, at);
            }
        }
        events.clear();
    }
}

// Sockets.
impl<'h, J: Terms<Weighted> + Starts, G: Gate, R: Waits + Clock> Worker<'h, J, G, R> {
    // Takes the sockets that came.
    fn take_sockets(&mut self) {
        let rt = self.session.rt;
        for _ in rt.forever() {
            let Ok(stream) = self.streams.try_recv(rt) else {
                return;
            };
            if !self.add(stream) {
                self.session.hub.let_out();
            }
        }
    }

    // Serves a socket from now on, if there is room for it. Returns whether it does.
    fn add(&mut self, stream: net::TcpStream) -> bool {
        // (it is tried twice, since memory that is out may be there a moment later)
        if self.make_room().is_err() && self.make_room().is_err() {
            return false;
        }
        if stream.set_nonblocking(true).is_err() {
            return false;
        }
        let _ = stream.set_nodelay(true);
        let stream = TcpStream::from_std(stream);
        let node = self.session.hub.first_node();
        let guest = Guest::new(self.session.alloc, stream, node);
        let Ok(at) = self.guests.insert(guest) else {
            return false;
        };
        let Some(guest) = self.guests.get_mut(at) else {
            return false;
        };
        match u32::try_from(at) {
            Ok(number) => guest.number = number,
            Err(_) => guest.break_off(),
        }
        let both = Interest::READABLE | Interest::WRITABLE;
        let registry = self.poll.registry();
        if registry
            .register(&mut guest.stream, Token(at), both)
            .is_err()
        {
            guest.break_off();
        }
        make_ready(&mut self.ready, guest, at);
        true
    }

    // Makes room for one connection more in all lists of them.
    fn make_room(&mut self) -> Result<(), AllocError> {
        let count = self.guests.len().saturating_add(1);
        self.guests.reserve(1)?;
        self.ready.reserve(count)?;
        self.going.reserve(count)?;
        self.unwritten.reserve(count)?;
        self.leaving.reserve(count)
    }

    // Goes on with the connections that may.
    fn serve_ready(&mut self) -> Flow {
        mem::swap(&mut self.ready, &mut self.going);
        for _ in 0..self.going.len() {
            if let Some(at) = self.going.pop() {
                if self.go_on(at) == Flow::EndsAll {
                    return Flow::EndsAll;
                }
            }
        }
        Flow::Waits
    }

    // Goes on with the connection at a place. Its replies are written at once where no command of it is under way.
    fn go_on(&mut self, at: usize) -> Flow {
        let Some(guest) = self.guests.get_mut(at) else {
            return Flow::Waits;
        };
        guest.is_ready = false;
        let flow = self.session.go_on(at, guest, self.piece.as_mut_slice());
        if flow == Flow::GoesOn {
            make_ready(&mut self.ready, guest, at);
        }
        if !guest.connection.is_waiting() {
            let _ = self.session.write_some(guest);
        } else if guest.is_half() && guest.left != guest.serial {
            guest.left = guest.serial;
            let now = self.session.hub.now(self.session.rt);
            self.leaving.note(at, guest.serial, now);
        }
        make_unwritten(&mut self.unwritten, guest, at);
        self.close_if_over(at);
        flow
    }

    // Closes the connection at a place if it is over.
    fn close_if_over(&mut self, at: usize) {
        let Some(guest) = self.guests.get_mut(at) else {
            return;
        };
        if guest.is_over() {
            self.session.give_up(at, guest);
            let _closed = self.guests.try_remove(at);
            self.session.hub.let_out();
        }
    }

    // Gives up connections whose peers send no more, where it is time, or where their call can't be made at once.
    fn give_up_left(&mut self) {
        if self.leaving.is_empty() {
            return;
        }
        let now = self.session.hub.now(self.session.rt);
        let mut place = 0usize;
        for _ in 0..self.leaving.len() {
            let Some(left) = self.leaving.get(place) else {
                return;
            };
            if self.is_given_up(left.at, left.serial, left.due <= now) {
                self.leaving.remove(place);
                self.close_if_over(left.at);
            } else {
                place = place.wrapping_add(1);
            }
        }
    }

    // Breaks off the connection at a place if its time is over, or its call isn't made yet. Returns whether it needn't
    // be noted any more.
    fn is_given_up(&mut self, at: usize, serial: u64, is_due: bool) -> bool {
        let Some(guest) = self.guests.get_mut(at) else {
            return true;
        };
        if guest.serial != serial || !guest.connection.is_waiting() {
            return true;
        }
        let is_queued = matches!(guest.wait, Wait::Room(_, _));
        if is_due || is_queued {
            guest.break_off();
        }
        is_due || is_queued
    }

    // Writes the replies that are there, if they may be written.
    fn write_replies(&mut self) {
        if self.unwritten.is_empty() || !self.session.may_reply() {
            return;
        }
        for _ in 0..self.unwritten.len() {
            if let Some(at) = self.unwritten.pop() {
                self.write_replies_of(at);
                self.close_if_over(at);
            }
        }
    }

    // Writes the replies of the connection at a place. If it took on no command since too many replies waited, it may
    // go on then.
    fn write_replies_of(&mut self, at: usize) {
        if let Some(guest) = self.guests.get_mut(at) {
            guest.is_unwritten = false;
            let wanted = guest.connection.wants_input();
            if !self.session.write_some(guest) {
                make_unwritten(&mut self.unwritten, guest, at);
            }
            if !wanted && guest.connection.wants_input() {
                make_ready(&mut self.ready, guest, at);
            }
        }
    }

    // Writes the last replies, once they may be written.
    fn write_last(&mut self) {
        for _ in 0..TRIES {
            self.write_replies();
            if self.unwritten.is_empty() || self.session.hub.has_failed() {
                return;
            }
            thread::sleep(self.session.rt, Duration::from_millis(PAUSE));
        }
    }
}

// Nodes.
impl<'h, J: Terms<Weighted> + Starts, G: Gate, R: Waits + Clock> Worker<'h, J, G, R> {
    // Visits the nodes where there is something to do or a call to make, and where no thread is.
    fn visit_nodes(&mut self) {
        let rt = self.session.rt;
        for _ in rt.forever() {
            let Some(name) = lowest(self.session.hub.free(self.session.wanted())) else {
                break;
            };
            if self.session.hub.enter(name) {
                self.visit(name);
            }
        }
        self.await_others();
    }

    // Makes the calls that wait for a node that was entered, and visits it.
    fn visit(&mut self, name: Name) {
        let hub = self.session.hub;
        self.call_all(name);
        let visited = hub.visit(self.session.rt, self.session.gate, name, &mut self.hands);
        hub.leave(name);
        if let Err(refusal) = visited {
            self.refuse_at(name, refusal);
        }
    }

    // Has itself woken once the nodes are left for which commands wait.
    fn await_others(&mut self) {
        let mut rest = self.session.wanted();
        for _ in 0..64u64 {
            let Some(name) = lowest(rest) else {
                return;
            };
            rest &= !bit(name);
            self.session.hub.await_leave(name, self.session.place);
        }
    }

    // Makes the calls that wait for a node, while that has room.
    fn call_all(&mut self, name: Name) {
        let rt = self.session.rt;
        for _ in rt.forever() {
            let Some(ticket) = self.session.first(name) else {
                return;
            };
            if let Some(guest) = self.guests.get_mut(ticket.at) {
                if guest.serial == ticket.serial {
                    if !self.session.call(guest) {
                        return self.session.block(name);
                    }
                    if !guest.connection.is_waiting() {
                        make_ready(&mut self.ready, guest, ticket.at);
                    }
                }
            }
            self.session.drop_first(name);
        }
    }

    // Takes the answers that are there.
    fn take_given(&mut self) {
        let rt = self.session.rt;
        for _ in rt.forever() {
            let Some(who) = self.next_given() else {
                break;
            };
            self.settle(who);
        }
        if self.hands.take_missed() | self.station.take_missed() {
            self.settle_all();
        }
    }

    // A waiter of its own for whom there is an answer.
    fn next_given(&mut self) -> Option<Waiter> {
        match self.hands.own.pop() {
            Some(who) => Some(who),
            None => self.station.take(self.session.rt),
        }
    }

    // Takes the answer for the connection that waited, if it still waits.
    fn settle(&mut self, who: Waiter) {
        let at = who.connection as usize;
        if let Some(guest) = self.guests.get_mut(at) {
            if guest.serial == who.serial {
                self.session.settle(guest, None);
                make_ready(&mut self.ready, guest, at);
            }
        }
    }

    // Takes the answers that are there for all that wait.
    fn settle_all(&mut self) {
        for at in 0..self.guests.capacity() {
            if let Some(guest) = self.guests.get_mut(at) {
                self.session.settle(guest, None);
                make_ready(&mut self.ready, guest, at);
            }
        }
    }

    // Refuses all that wait for an answer at a node where memory is out.
    fn refuse_at(&mut self, name: Name, refusal: Refusal) {
        for at in 0..self.guests.capacity() {
            if let Some(guest) = self.guests.get_mut(at) {
                if waits_at(&guest.wait, name) {
                    self.session.refuse_waiting(guest, refusal);
                    make_ready(&mut self.ready, guest, at);
                }
            }
        }
    }

    // Refuses all that wait, once the book is full. What comes later is refused at once.
    fn tell_full(&mut self) {
        if self.has_told_full || !self.session.hub.is_full() {
            return;
        }
        self.has_told_full = true;
        for at in 0..self.guests.capacity() {
            if let Some(guest) = self.guests.get_mut(at) {
                self.session.refuse_waiting(guest, Refusal::HistoryFull);
                self.session.refuse_queued(at, guest, Refusal::HistoryFull);
                make_ready(&mut self.ready, guest, at);
            }
        }
    }
}

// Notes that the connection at a place may go on.
fn make_ready(ready: &mut Vec<usize>, guest: &mut Guest, at: usize) {
    if !guest.is_ready {
        guest.is_ready = ready.push(at).is_ok();
    }
}

// Notes the connection at a place, if it has replies to write.
fn make_unwritten(unwritten: &mut Vec<usize>, guest: &mut Guest, at: usize) {
    if !guest.is_unwritten && !guest.connection.out().is_empty() {
        guest.is_unwritten = unwritten.push(at).is_ok();
    }
}

// Whether an answer is waited for, of a call at a node.
fn waits_at(wait: &Wait, name: Name) -> bool {
    match wait {
        Wait::Answer(id) => id.name == name,
        _ => false,
    }
}
