//! A connection and its socket.
ghost use Rattle.std.specs.Prelude.{◌≡◌, true};
ghost use mathlib.Core.List.{IsPrefix};

use mio::net::TcpStream;
use rambo_connection::Connection;
use rambo_history::{CallId, Op};
use rambo_names::{Name, Weighted};
use rambo_post::{Pass, Terms};
use rambo_scribe::{Kept, Starts};
use std::alloc::Global;
use std::io::{ErrorKind, Read, Write};

// How often a read or a write is tried that is interrupted each time.
const TRIES: u64 = 1000;

/// What the command waits for that is under way on a connection.
#[derive(Drop)]
pub(crate) enum Wait {
    /// Nothing: none is under way.
    Nothing,
    /// That the node is free and has room for this call.
    Room(Name, Op),
    /// The answer of this call.
    Answer(CallId),
}

/// A connection that is served, and its socket.
#[derive(Drop)]
pub(crate) struct Guest {
    pub(crate) stream: TcpStream,
    pub(crate) connection: Connection,
    pub(crate) wait: Wait,
    /// Its number among the connections of its worker.
    pub(crate) number: u32,
    /// The number of its last operation, among those of its worker.
    pub(crate) serial: u64,
    // Whether it is in its worker's list of those that may go on, and in that of those that have replies to write.
    pub(crate) is_ready: bool,
    pub(crate) is_unwritten: bool,
    // The number of the operation for which its worker noted that the peer sends no more.
    pub(crate) left: u64,
    /// How often in a row there was no room for a reply.
    pub(crate) lacks: u64,
    // Whether there may be something to read, and whether its end came too.
    reads: bool,
    has_end: bool,
    // Whether the peer sends no more.
    is_half: bool,
    // Whether its socket failed.
    is_broken: bool,
    // Whether no further command is taken on.
    ends: bool,
}

/// What a read gave.
#[derive(Clone, Copy, PartialEq, Eq)]
pub(crate) enum Came {
    /// Some bytes.
    Some,
    /// Nothing yet.
    Nothing,
    /// The peer sends no more.
    End,
}

impl Guest {
    /// A connection whose commands go to this node at first.
    pub(crate) fn new(alloc: Global, stream: TcpStream, node: Name) -> Guest {
        Guest {
            stream,
            connection: Connection::new(alloc, node),
            wait: Wait::Nothing,
            number: 0,
            serial: 0,
            is_ready: false,
            is_unwritten: false,
            left: 0,
            lacks: 0,
            reads: true,
            has_end: false,
            is_half: false,
            is_broken: false,
            ends: false,
        }
    }

    /// There may be something to read, perhaps its end.
    pub(crate) fn may_read(&mut self, has_end: bool) {
        self.reads = true;
        self.has_end |= has_end;
    }

    /// Takes on no further command.
    pub(crate) fn end(&mut self) {
        self.ends = true;
    }

    /// Breaks it off, as it can't go on.
    pub(crate) fn break_off(&mut self) {
        self.is_broken = true;
    }

    /// Whether the peer sends no more. It may still wait for replies.
    pub(crate) fn is_half(&self) -> bool {
        self.is_half
    }

    /// Whether it is over: its socket failed, or it ends and all is written, and no command is under way.
    pub(crate) fn is_over(&self) -> bool {
        self.is_broken
            || ((self.ends || self.is_half)
                && !self.connection.is_waiting()
                && self.connection.out().is_empty())
    }

    /// Reads what came, if more is wanted.
    pub(crate) fn read_some(&mut self, piece: &mut [u8]) -> Came {
        if !self.reads || self.is_half || self.is_broken || !self.connection.wants_input() {
            return Came::Nothing;
        }
        let came = self.read_once(piece);
        if came == Came::End {
            self.is_half = true;
        }
        came
    }

    fn read_once(&mut self, piece: &mut [u8]) -> Came {
        for _ in 0..TRIES {
            match self.stream.read(piece) {
                Ok(0) => return Came::End,
                Ok(count) => {
                    if count < piece.len() {
                        // (there is no more for now, but perhaps the end)
                        self.reads = self.has_end;
                    }
                    if count <= piece.len() {
                        self.connection.feed(&piece[..count]);
                    }
                    return Came::Some;
                }
                Err(error) => match error.kind() {
                    ErrorKind::Interrupted => {}
                    ErrorKind::WouldBlock => {
                        self.reads = false;
                        return Came::Nothing;
                    }
                    _ => {
                        self.is_broken = true;
                        return Came::Nothing;
                    }
                },
            }
        }
        Came::Nothing
    }

    /// Writes as much of the replies as the socket takes. Where replies wait for the medium, it keeps the trace of all that
    /// their client has seen.
    pub(crate) fn write_some<J: Terms<Weighted> + Starts>(
        &mut self,
        _pass: &Pass<J, Weighted>,
        _kept: &Kept<J>,
    )
        requires { J.syncs ≡ true → IsPrefix _pass.now.seen _kept.now }
    {
        for _ in 0..TRIES {
            if self.is_broken || self.connection.out().is_empty() {
                return;
            }
            match self.stream.write(self.connection.out()) {
                Ok(0) => self.is_broken = true,
                Ok(count) => self.connection.written(count),
                Err(error) => match error.kind() {
                    ErrorKind::Interrupted => {}
                    ErrorKind::WouldBlock => return,
                    _ => self.is_broken = true,
                },
            }
        }
    }
}
