//! Connections.
ghost use Rattle.std.specs.Prelude.{◌≡◌, Some, false, take, drop, IfOk, IfErr, OnErr};
ghost use Rattle.std.specs.Bool.{OnTrue, OnFalse};
ghost use Rattle.std.specs.Option.{is_some};
ghost use Rattle.rambo_connection.specs.Connections.{IsFree, Using, fresh, replied, owing, wants_input};
ghost use Rattle.rambo_connection.specs.Events.{Fed, Written, Happens, Goes, TakesOn, EndingAll, Answers, Refuses};

use crate::incoming::Incoming;
use crate::next::Next;
use crate::outgoing::append_fault;
use bytes::BytesMut;
use rambo_commands::{Request, ServerRequest, append_refusal, append_reply};
use rambo_names::{Name, Refusal};
use rambo_resp::{Command, Reply};
use std::alloc::Global;
use std::marker::Model;

/// Where this many bytes wait to be written, no further command is taken on.
const ENOUGH: usize = 64 * 1024;

/// Room for this many bytes is made before a command is taken on: as many as the longest refusal takes, or more.
const ROOM: usize = 64;

/// A connection without its socket.
///
/// Its commands are taken on one after another, in the order of the stream: the next one when the one before it was
/// replied to. What needs no node is replied to at once. The replies come in that order. After the reply to a fault of
/// the stream, or to `SHUTDOWN`, nothing is taken on. A connection that is given up is dropped: `is_waiting` says
/// whether the server was asked for a command of it, which is then to be given up too.
#[derive(Drop)]
pub struct Connection {
    alloc: Global,
    node: Name,
    incoming: Incoming,
    under_way: Option<Command>,
    out: BytesMut,
    owed: Option<Refusal>,
    ended: bool,
}

impl Model for Connection {
    ghost use Rattle.rambo_connection.specs.Connections.{ConnectionState};

    ghost Value = { ConnectionState };

    ghost view = { λ c. record { node = c.node; incoming = c.incoming; under_way = c.under_way; out = c.out.items; owed = c.owed; ended = c.ended } };
}

impl Connection {
    /// A connection of which nothing has come, and whose commands go to this node at first. It allocates nothing yet.
    pub fn new(alloc: Global, node: Name) -> Connection
        ensures { result ≡ fresh node }
    {
        Connection {
            alloc,
            node,
            incoming: Incoming::new(alloc),
            under_way: None,
            out: BytesMut::new(alloc),
            owed: None,
            ended: false,
        }
    }

    /// The node that its commands go to.
    pub fn node(&self) -> Name
        ensures { result ≡ self.now.node }
    {
        self.node
    }

    /// Whether a command is in progress: the server was asked for it, and its reply hasn't come.
    pub fn is_waiting(&self) -> bool
        ensures { result ≡ is_some self.now.under_way }
    {
        self.under_way.is_some()
    }

    /// Whether more bytes should be read: none once it ends, while a whole command waits, or while 65,536 bytes or more are to
    /// be written.
    pub fn wants_input(&mut self) -> bool
        ensures told { result ≡ wants_input self.old }
        ensures kept { self.new ≡ self.old }
    {
        !self.ended && self.out.len() < ENOUGH && !self.incoming.has_command()
    }

    /// The next piece of its stream comes, of any length.
    pub fn feed(&mut self, piece: &[u8])
        ensures { Happens (Fed piece.now) self.old self.new }
    {
        self.incoming.feed(piece);
    }

    /// The next thing to do: at most one command is taken on.
    ///
    /// `OutOfMemory` where there is no room for a refusal. Then nothing was done, and it can be asked again.
    pub fn next(&mut self) -> Result<Next, Refusal>
        ensures ok { IfOk result (λ n. Goes n self.old self.new) }
        ensures err { OnErr result (self.new ≡ self.old) }
        ensures refused { IfErr result (λ r. r ≡ Refusal.OutOfMemory) }
    {
        if self.ended {
            return Ok(Next::Ends);
        }
        if self.under_way.is_some() || self.out.len() >= ENOUGH {
            return Ok(Next::Waits);
        }
        self.out.reserve(ROOM)?;
        if let Some(refusal) = self.owed {
            append_refusal(refusal, &mut self.out)?;
            self.owed = None;
            return Ok(Next::Replied);
        }
        self.begin()
    }

    // Takes on the next command, if there is one, or tells the fault of the stream.
    fn begin(&mut self) -> Result<Next, Refusal>
        requires { IsFree self.old }
        ensures ok { IfOk result (λ n. Goes n self.old self.new) }
        ensures err { OnErr result (self.new ≡ self.old) }
        ensures refused { IfErr result (λ r. r ≡ Refusal.OutOfMemory) }
    {
        match self.incoming.next() {
            Ok(Some(command)) => Ok(self.take_on(command)),
            Ok(None) => Ok(Next::Waits),
            Err(fault) => {
                append_fault(fault, &mut self.out)?;
                self.ended = true;
                Ok(Next::Ends)
            }
        }
    }

    // Takes on a command.
    fn take_on(&mut self, command: Command) -> Next
        requires goes_on { self.old.ended ≡ false }
        ensures { TakesOn command result self.old self.new }
    {
        let Ok(request) = ServerRequest::of(self.alloc, &command) else {
            self.owed = Some(Refusal::OutOfMemory);
            return Next::Replied;
        };
        match &request {
            ServerRequest::Common(common) => match common {
                Request::Says(words) => {
                    self.say(words);
                    Next::Replied
                }
                Request::Does(_) => self.ask(command, request),
            },
            ServerRequest::Use(node) => {
                self.use_node(*node);
                Next::Replied
            }
            ServerRequest::Shutdown => self.end_all(),
            _ => self.ask(command, request),
        }
    }

    // The server is asked for a command.
    fn ask(&mut self, command: Command, request: ServerRequest) -> Next
        ensures asks { result ≡ Next.Asks request }
        ensures under_way { self.new ≡ record self.old { under_way = Some command } }
    {
        self.under_way = Some(command);
        Next::Asks(request)
    }

    // Uses another node, and tells that.
    fn use_node(&mut self, node: Name)
        ensures { Using node self.old self.new }
    {
        if self.say(&Reply::Ok) {
            self.node = node;
        }
    }

    // Ends, and tells that.
    fn end_all(&mut self) -> Next
        requires { self.old.ended ≡ false }
        ensures { EndingAll result self.old self.new }
    {
        if self.say(&Reply::Ok) {
            self.ended = true;
            Next::EndsAll
        } else {
            Next::Replied
        }
    }

    // Puts a reply behind the others. Where there is no memory for it, a refusal is owed.
    fn say(&mut self, reply: &Reply) -> bool
        ensures yes { OnTrue result (self.new ≡ replied reply.now self.old) }
        ensures no { OnFalse result (self.new ≡ owing Refusal.OutOfMemory self.old) }
    {
        let told = append_reply(reply, &mut self.out).is_ok();
        if !told {
            self.owed = Some(Refusal::OutOfMemory);
        }
        told
    }

    /// The reply to the command under way comes. Without one nothing happens.
    ///
    /// Where there is no memory for it, the reply is a refusal by `OutOfMemory`, which the next call of `next` writes.
    pub fn answer(&mut self, reply: &Reply)
        ensures { Answers reply.now self.old self.new }
    {
        if self.under_way.is_some() {
            self.under_way = None;
            self.say(reply);
        }
    }

    /// The command under way is refused. Without one nothing happens.
    ///
    /// It allocates nothing, as room for it was made when the command was taken on. Were there none, it would be
    /// written later.
    pub fn refuse(&mut self, refusal: Refusal)
        ensures { Refuses refusal self.old self.new }
    {
        if self.under_way.is_some() {
            self.under_way = None;
            if append_refusal(refusal, &mut self.out).is_err() {
                self.owed = Some(refusal);
            }
        }
    }

    /// The bytes that are to be written.
    pub fn out(&self) -> &[u8]
        ensures { result.now ≡ self.now.out }
    {
        self.out.as_slice()
    }

    /// The first of these were written: this many, or all where there are fewer.
    pub fn written(&mut self, count: usize)
        ensures left { self.new ≡ record self.old { out = drop count self.old.out } }
        ensures written { Happens (Written (take count self.old.out)) self.old self.new }
    {
        if count < self.out.len() {
            self.out.advance(count);
        } else {
            self.out.clear();
        }
    }
}
