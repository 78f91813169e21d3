//! What a client worker does for its connections.

use crate::asking::asked_of;
use crate::guest::{Came, Guest, Wait};
use crate::hub::Hub;
use crate::room::bit;
use rambo_commands::{Request, ServerRequest, map_reply, report_reply, telling};
use rambo_config_map::ConfigMap;
use rambo_connection::Next;
use rambo_history::{CallId, Op};
use rambo_names::{Name, Refusal, Weighted};
use rambo_post::{Gate, Pass, Terms, Waiter};
use rambo_resp::Reply;
use rambo_scribe::{Kept, Starts};
use std::alloc::Global;
use std::collections::VecDeque;
use std::sync::Wait as Waits;
use std::time::Clock;

// At most this many commands of a connection are taken on before others have their turn.
const TURN: u64 = 256;

// How often in a row a connection may lack room for a reply before it is broken off.
const LACKS: u64 = 1000;

/// How a server goes on after a command.
#[derive(Clone, Copy, PartialEq, Eq)]
pub(crate) enum Flow {
    /// The connection waits for something.
    Waits,
    /// It has more to do.
    GoesOn,
    /// The server ends.
    EndsAll,
}

/// A command that waits for its node.
#[derive(Clone, Copy)]
pub(crate) struct Ticket {
    /// Which connection's.
    pub(crate) at: usize,
    /// Its number among those of the worker.
    pub(crate) serial: u64,
}

/// Who serves connections: a client worker's place and pass, and the commands that wait for a node.
#[derive(Drop)]
pub(crate) struct Session<'h, J: Terms<Weighted> + Starts, G: Gate, R> {
    pub(crate) rt: &'h R,
    pub(crate) alloc: Global,
    pub(crate) gate: &'h G,
    pub(crate) hub: &'h Hub<J>,
    pub(crate) pass: &'h mut Pass<J, Weighted>,
    pub(crate) place: u32,
    // For each of the names 1, 2, .. the commands that wait for its node, the oldest first.
    queues: &'h mut Vec<VecDeque<Ticket>>,
    // How many commands have waited for a node.
    serial: u64,
    /// The names for whose nodes commands wait, by bits.
    pub(crate) asks: u64,
    /// Those of these names whose nodes had no room.
    pub(crate) blocked: u64,
    // Whether no call is made now, since too many steps are to be written.
    is_held: bool,
    // What the medium of the trace keeps, as far as it is known here.
    kept: &'h mut Kept<J>,
}

impl<'h, J: Terms<Weighted> + Starts, G: Gate, R: Waits + Clock> Session<'h, J, G, R> {
    /// The session of the worker at a place.
    pub(crate) fn new(
        rt: &'h R,
        alloc: Global,
        gate: &'h G,
        hub: &'h Hub<J>,
        pass: &'h mut Pass<J, Weighted>,
        kept: &'h mut Kept<J>,
        queues: &'h mut Vec<VecDeque<Ticket>>,
        place: u32,
    ) -> Session<'h, J, G, R> {
        Session {
            rt,
            alloc,
            gate,
            hub,
            pass,
            place,
            queues,
            serial: 0,
            asks: 0,
            blocked: 0,
            is_held: false,
            kept,
        }
    }

    /// Whether replies may be written: where they wait for the medium, it keeps the trace of all that was seen here. Where it
    /// doesn't, the thread that writes the trace is woken.
    pub(crate) fn may_reply(&mut self) -> bool {
        self.hub.renew(self.rt, self.kept);
        let may = self.kept.covers(self.rt, &self.hub.post, self.pass);
        if !may {
            self.hub.scribe.ring(self.rt);
        }
        may
    }

    /// Writes as much of the replies of a connection as its socket takes, if they may be written. Returns whether they may.
    pub(crate) fn write_some(&mut self, guest: &mut Guest) -> bool {
        let may = self.kept.covers(self.rt, &self.hub.post, self.pass);
        if may {
            guest.write_some(self.pass, self.kept);
        }
        may
    }

    /// Goes on with the connection at a place: takes on its commands until one has to wait, and reads what more there is.
    pub(crate) fn go_on(&mut self, at: usize, guest: &mut Guest, piece: &mut [u8]) -> Flow {
        for _ in 0..TURN {
            match guest.connection.next() {
                Ok(Next::Asks(request)) => {
                    guest.lacks = 0;
                    self.begin(at, guest, &request);
                }
                Ok(Next::Replied) => {}
                Ok(Next::Waits) => match guest.read_some(piece) {
                    Came::Some => {}
                    Came::Nothing | Came::End => return Flow::Waits,
                },
                Ok(Next::Ends) => {
                    guest.end();
                    return Flow::Waits;
                }
                Ok(Next::EndsAll) => {
                    guest.end();
                    return Flow::EndsAll;
                }
                Err(_) => return self.lack_room(guest),
            }
        }
        Flow::GoesOn
    }

    // There is no room for a reply. Replies that are there are written first. Where there are none it is tried again
    // some times, and then the connection is broken off.
    fn lack_room(&self, guest: &mut Guest) -> Flow {
        if !guest.connection.out().is_empty() {
            return Flow::Waits;
        }
        guest.lacks = guest.lacks.wrapping_add(1);
        if guest.lacks < LACKS {
            return Flow::GoesOn;
        }
        guest.break_off();
        Flow::Waits
    }

    // Does what a command asks the server for, or has it wait for that.
    fn begin(&mut self, at: usize, guest: &mut Guest, request: &ServerRequest) {
        match request {
            ServerRequest::Common(common) => self.begin_common(at, guest, common),
            ServerRequest::Config => self.tell_map(guest),
            ServerRequest::Info => self.tell_report(guest),
            _ => self.change(guest, request),
        }
    }

    // Does what any client may ask for. That is an operation, since the connection itself replies to all else.
    fn begin_common(&mut self, at: usize, guest: &mut Guest, request: &Request) {
        if let Request::Does(op) = request {
            match op.clone() {
                Ok(op) => self.queue(at, guest, op),
                Err(refusal) => guest.connection.refuse(refusal),
            }
        }
    }

    // Has a node take the step that a command asks for.
    fn change(&mut self, guest: &mut Guest, request: &ServerRequest) {
        let Some((name, step)) = asked_of(guest.connection.node(), request) else {
            return;
        };
        match self.hub.change(self.rt, self.pass, name, step) {
            Ok(()) => guest.connection.answer(&Reply::Ok),
            Err(refusal) => guest.connection.refuse(refusal),
        }
    }

    // Tells the map of the node that a connection uses.
    fn tell_map(&mut self, guest: &mut Guest) {
        let map = self.hub.post.map(self.rt, guest.connection.node());
        match map_told(self.alloc, &map) {
            Ok(reply) => guest.connection.answer(&reply),
            Err(refusal) => guest.connection.refuse(refusal),
        }
    }

    // Tells the counts of the server, and the map of the node that a connection uses.
    fn tell_report(&mut self, guest: &mut Guest) {
        let report = self.hub.report(self.rt);
        let map = self.hub.post.map(self.rt, guest.connection.node());
        let founders = self.hub.founders();
        let told = configs_of(self.alloc, &map).and_then(|configs| {
            report_reply(
                self.alloc,
                &report,
                founders,
                map.floor(),
                configs.as_slice(),
            )
        });
        match told {
            Ok(reply) => guest.connection.answer(&reply),
            Err(refusal) => guest.connection.refuse(refusal),
        }
    }

    // The command of a connection waits for the node that it uses.
    fn queue(&mut self, at: usize, guest: &mut Guest, op: Op) {
        let name = guest.connection.node();
        if self.hub.is_full() {
            return guest.connection.refuse(Refusal::HistoryFull);
        }
        self.serial = self.serial.wrapping_add(1);
        let ticket = Ticket {
            at,
            serial: self.serial,
        };
        let Some(queue) = self.queues.get_mut(name.number() as usize - 1) else {
            return;
        };
        if queue.push_back(ticket).is_err() {
            return guest.connection.refuse(Refusal::OutOfMemory);
        }
        guest.serial = ticket.serial;
        guest.wait = Wait::Room(name, op);
        self.asks |= bit(name);
    }

    /// The command that has waited for a node for the longest time.
    pub(crate) fn first(&self, name: Name) -> Option<Ticket> {
        self.queues
            .get(name.number() as usize - 1)?
            .front()
            .copied()
    }

    /// Takes that command out of its queue.
    pub(crate) fn drop_first(&mut self, name: Name) {
        if let Some(queue) = self.queues.get_mut(name.number() as usize - 1) {
            let _ = queue.pop_front();
        }
        self.note_queue(name);
    }

    // Takes the commands of the connection at a place out of the queue of a node.
    fn drop_all_of(&mut self, name: Name, at: usize) {
        if let Some(queue) = self.queues.get_mut(name.number() as usize - 1) {
            queue.retain(|ticket| ticket.at != at);
        }
        self.note_queue(name);
    }

    // Notes that no room is wanted at a node for which no command waits any more.
    fn note_queue(&mut self, name: Name) {
        if self.first(name).is_some() {
            return;
        }
        self.asks &= !bit(name);
        if self.blocked & bit(name) != 0 {
            self.blocked &= !bit(name);
            self.hub.leave_room(name, self.place);
        }
    }

    /// Notes that a node has no room for a call. The commands that wait for it are tried again once it has.
    pub(crate) fn block(&mut self, name: Name) {
        self.blocked |= bit(name);
        self.hub.await_room(name, self.place);
    }

    /// Looks whether calls can be made now.
    pub(crate) fn look_at_hand(&mut self) {
        self.is_held = self.hub.is_held(self.rt);
    }

    /// Whether commands wait since too many steps are to be written.
    pub(crate) fn is_held_back(&self) -> bool {
        self.is_held && self.asks != 0
    }

    /// The names of the nodes that commands wait for and that may have room, by bits. None where no call can be made now.
    pub(crate) fn wanted(&self) -> u64 {
        if self.is_held {
            return 0;
        }
        self.asks & !self.blocked
    }

    /// Makes the call that a connection waits to make. Returns false where its node has no room, so that it still
    /// waits.
    pub(crate) fn call(&mut self, guest: &mut Guest) -> bool {
        let Wait::Room(name, op) = &guest.wait else {
            return true;
        };
        let name = *name;
        let Ok(op) = op.clone() else {
            self.refuse(guest, Refusal::OutOfMemory);
            return true;
        };
        let who = Waiter {
            client: self.place,
            connection: guest.number,
            serial: guest.serial,
        };
        match self.hub.post.ask(self.rt, self.pass, name, op, who) {
            Ok(asked) if asked.is_awaited => {
                self.hub.note_call();
                guest.wait = Wait::Answer(asked.id);
            }
            Ok(asked) => {
                self.forget(&asked.id);
                self.refuse(guest, Refusal::OutOfMemory);
            }
            Err(Refusal::Busy) => return false,
            Err(refusal) => self.refuse(guest, refusal),
        }
        true
    }

    // Refuses the command that is under way.
    fn refuse(&self, guest: &mut Guest, refusal: Refusal) {
        guest.wait = Wait::Nothing;
        guest.connection.refuse(refusal);
    }

    /// Takes the answer that a connection waits for, if there is one. Else its command is refused, if a refusal is
    /// given.
    pub(crate) fn settle(&mut self, guest: &mut Guest, or: Option<Refusal>) {
        let Some(id) = awaited(&guest.wait) else {
            return;
        };
        match self.hub.post.take_answer(self.rt, self.pass, id) {
            Ok(Some(answer)) => {
                guest.wait = Wait::Nothing;
                self.hub.note_end(true);
                guest.connection.answer(&telling(answer));
            }
            Ok(None) => {
                if let Some(refusal) = or {
                    self.withdraw(&id);
                    self.refuse(guest, refusal);
                }
            }
            Err(refusal) => {
                self.withdraw(&id);
                self.refuse(guest, refusal);
            }
        }
    }

    // Nobody waits for the answer of a call any more.
    fn withdraw(&mut self, id: &CallId) {
        self.hub.note_end(false);
        self.forget(id);
    }

    // Nobody takes the answer of a call any more.
    fn forget(&mut self, id: &CallId) {
        let _did_wait = self.hub.post.withdraw(self.rt, self.pass, id);
    }

    /// The same with a refusal. Nobody waits for the call of the connection any more.
    pub(crate) fn refuse_waiting(&mut self, guest: &mut Guest, refusal: Refusal) {
        if let Wait::Answer(id) = &guest.wait {
            let name = id.name;
            self.settle(guest, Some(refusal));
            self.leave(name, guest.number);
        }
    }

    /// Refuses the command of the connection at a place, if it waits for its node.
    pub(crate) fn refuse_queued(&mut self, at: usize, guest: &mut Guest, refusal: Refusal) {
        if let Wait::Room(name, _) = &guest.wait {
            let name = *name;
            self.refuse(guest, refusal);
            self.drop_all_of(name, at);
        }
    }

    /// The connection at a place has gone. A call that it waits to make is never made, and nobody waits any more for
    /// one that was made.
    pub(crate) fn give_up(&mut self, at: usize, guest: &mut Guest) {
        if let Some(id) = awaited(&guest.wait) {
            self.withdraw(&id);
            self.leave(id.name, guest.number);
        } else if let Wait::Room(name, _) = &guest.wait {
            self.drop_all_of(*name, at);
        }
        guest.wait = Wait::Nothing;
    }

    // The connection of this number no longer waits at a node.
    fn leave(&self, name: Name, number: u32) {
        self.hub.post.give_up(self.rt, name, self.place, number);
    }
}

// The call whose answer is waited for, if one is.
fn awaited(wait: &Wait) -> Option<CallId> {
    match wait {
        Wait::Answer(id) => Some(*id),
        _ => None,
    }
}

fn map_told(alloc: Global, map: &ConfigMap<Weighted>) -> Result<Reply, Refusal> {
    let configs = configs_of(alloc, map)?;
    map_reply(alloc, map.floor(), configs.as_slice())
}

// The configurations of a map that weren't removed.
fn configs_of(alloc: Global, map: &ConfigMap<Weighted>) -> Result<Vec<Weighted>, Refusal> {
    let mut configs = Vec::new(alloc);
    for place in 0..map.places().len() {
        if let Some(config) = map.places().get(place) {
            configs.push(config)?;
        }
    }
    Ok(configs)
}
