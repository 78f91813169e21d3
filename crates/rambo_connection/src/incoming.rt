//! What comes in.
ghost use Rattle.std.specs.Prelude.{◌≡◌, []};
ghost use Rattle.rambo_resp.specs.Decoders.{HasTaken, oldest, without_oldest};
ghost use Rattle.rambo_resp.specs.Streams.{open_at};
ghost use Rattle.rambo_connection.specs.Incoming.{Feeds, has_command};

use rambo_resp::{Command, Decoder, Fault};
use std::alloc::Global;
use std::marker::Model;

/// The commands of a stream of bytes that comes in pieces. It is known whether one waits.
#[derive(Drop)]
pub(crate) struct Incoming {
    decoder: Decoder,
    // The oldest command, where it was looked for.
    ahead: Option<Command>,
}

impl Model for Incoming {
    ghost use Rattle.rambo_resp.specs.Decoders.{DecoderState};

    ghost Value = { DecoderState };

    ghost use Rattle.rambo_connection.specs.Incoming.{behind};

    ghost view = { λ i. behind i.ahead i.decoder };
}

impl Incoming {
    /// Before any byte has come.
    pub(crate) fn new(alloc: Global) -> Self
        ensures empty { result ≡ record { waiting = []; ending = open_at [] 0 } }
        ensures taken { HasTaken result [] 0 }
    {
        Incoming {
            decoder: Decoder::new(alloc),
            ahead: None,
        }
    }

    /// A piece comes.
    pub(crate) fn feed(&mut self, piece: &[u8])
        ensures { Feeds self.old piece.now self.new }
    {
        let _ = self.decoder.feed(piece);
    }

    /// The oldest command, which is taken out; none where more is to come first; or the fault after the commands.
    pub(crate) fn next(&mut self) -> Result<Option<Command>, Fault>
        ensures given { result ≡ oldest self.old }
        ensures left { self.new ≡ without_oldest self.old }
    {
        match self.ahead.take() {
            Some(command) => Ok(Some(command)),
            None => self.decoder.next(),
        }
    }

    /// Whether a whole command waits.
    pub(crate) fn has_command(&mut self) -> bool
        ensures told { result ≡ has_command self.old }
        ensures kept { self.new ≡ self.old }
    {
        if self.ahead.is_none() {
            if let Ok(command) = self.decoder.next() {
                self.ahead = command;
            }
        }
        self.ahead.is_some()
    }
}
