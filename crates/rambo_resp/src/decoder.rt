//! Decoders.
ghost use Rattle.std.specs.Prelude.{◌≡◌, ◌≢◌, ◌++◌, ◌+◌, [], ℕ, ◌≤◌, List, length, IfOk, IfErr, IfNone, IfSome};
ghost use Rattle.rambo_resp.specs.Spellings.{command_spelling};
ghost use Rattle.rambo_resp.specs.BriefCommands.{IsBetween, IsBriefCommand, items_of, with_waiting};
ghost use Rattle.rambo_resp.specs.Decoders.{DecoderState, HasTaken, HasTakenFront, HasFailedWithin, HasNoneBegun, Takes, failed, oldest, without_oldest, given_by};
ghost use Rattle.rambo_resp.specs.Streams.{open_at, faulty};

use crate::brief_command::BriefCommand;
use crate::command::Command;
use crate::fault::Fault;
use crate::front::brief_command;
use crate::progress::Progress;
use std::alloc::Global;
use std::marker::Model;

/// Reads the commands of a stream of bytes that comes in pieces. What it gives depends on the stream alone, and not on
/// how it was cut.
///
/// Each byte is looked at a few times at most. The bytes of an item are copied once, or twice where they are at most 15
/// and the item doesn't lie in one piece.
#[derive(Drop)]
pub struct Decoder {
    progress: Progress,
    fault: Option<Fault>,
}

impl Model for Decoder {
    ghost use Rattle.std.specs.Prelude.{◌≡◌, Some};
    ghost use Rattle.rambo_resp.specs.Decoders.{DecoderState};

    ghost Value = { DecoderState };

    ghost use Rattle.rambo_resp.specs.Endings.{ending_of, reached};

    ghost view = { λ d. record { waiting = d.progress.waiting; ending = ending_of d.fault d.progress } };

    ghost invariant = { λ d. reached d.progress.rest ≡ Some d.progress.rest };
}

impl Decoder {
    /// A decoder before any byte of its stream.
    pub fn new(alloc: Global) -> Self
        ensures empty { result ≡ record { waiting = []; ending = open_at [] 0 } }
        ensures taken { HasTaken result [] 0 }
    {
        Decoder {
            progress: Progress::new(alloc),
            fault: None,
        }
    }

    /// Takes the next piece of the stream, of any length.
    ///
    /// A fault is answered where the stream with this piece has one, and `OutOfMemory` where memory ran out: then
    /// nothing of this piece is taken. Either is answered again from then on, after the commands that were whole before
    /// it.
    pub fn feed(&mut self, piece: &[u8]) -> Result<(), Fault>
        ensures taken { (stream : List ℕ) (given : ℕ) → HasTaken self.old stream given → Takes self.new (stream ++ piece.now) given result }
        ensures memory { IfErr result (λ f. f ≡ Fault.OutOfMemory → self.new ≡ failed self.old Fault.OutOfMemory) }
        ensures again { (fault : Fault) → self.old.ending ≡ faulty fault → (result ≡ Err fault) × (self.new ≡ self.old) }
    {
        if let Some(fault) = self.fault {
            return Err(fault);
        }
        let before = self.progress.count();
        let read = self.progress.read(piece);
        if let Err(fault) = read {
            let kept = match fault {
                Fault::OutOfMemory => before,
                _ => self.progress.count(),
            };
            self.progress.cut_back(kept);
            self.fault = Some(fault);
        }
        read
    }

    /// Takes of the next piece what belongs to the command that has begun, and returns what follows it: all of the piece
    /// where none has.
    ///
    /// A fault is answered where what is taken leads to one, and `OutOfMemory` where memory ran out. Either is answered
    /// again from then on, after the commands that were whole before it.
    pub fn feed_begun<'a>(&mut self, piece: &'a [u8]) -> Result<&'a [u8], Fault>
        ensures taken { (stream : List ℕ) (given : ℕ) → HasTaken self.old stream given → IfOk result (λ rest. HasTakenFront self.new stream piece.now rest.now given) }
        ensures whole { IfOk result (λ rest. 1 ≤ length rest.now → HasNoneBegun self.new.ending) }
        ensures fault { (stream : List ℕ) (given : ℕ) → HasTaken self.old stream given
            → IfErr result (λ f. f ≢ Fault.OutOfMemory → HasTaken self.new (stream ++ piece.now) given × (self.new.ending ≡ faulty f)) }
        ensures memory { (stream : List ℕ) (given : ℕ) → HasTaken self.old stream given → IfErr result (λ f. f ≡ Fault.OutOfMemory → HasFailedWithin self.new stream piece.now given) }
        ensures none { HasNoneBegun self.old.ending → self.new ≡ self.old }
    {
        let mut rest = piece;
        loop {
            let count = self.progress.begun(rest.len());
            if count == 0 {
                return Ok(rest);
            }
            self.feed(&rest[..count])?;
            rest = &rest[count..];
        }
    }

    /// Takes and gives the command that the next piece begins with, if that has two or three items of at most 99 bytes.
    /// What follows it in the piece isn't taken yet. It allocates nothing.
    ///
    /// None exactly where the piece doesn't begin with such a command, whole, or another one has begun or wasn't given yet,
    /// or the stream has a fault. Then nothing is taken.
    #[inline(always)]
    pub fn next_in<'a>(&mut self, piece: &'a [u8]) -> Option<(BriefCommand<'a>, &'a [u8])>
        ensures spelled { IfSome result (λ r. piece.now ≡ command_spelling (items_of r.0) ++ r.1.now) }
        ensures taken { (stream : List ℕ) (given : ℕ) → HasTaken self.old stream given
            → IfSome result (λ r. HasTaken (with_waiting self.new (items_of r.0)) (stream ++ command_spelling (items_of r.0)) given) }
        ensures given { IfSome result (λ _. (self.old.waiting ≡ []) × (self.new.waiting ≡ [])) }
        ensures unchanged { IfNone result (self.new ≡ self.old) }
        ensures none { IfNone result (IsBetween self.old → (items : List (List ℕ)) (rest : List ℕ) → IsBriefCommand items → piece.now ≢ command_spelling items ++ rest) }
    {
        if self.fault.is_some() || !self.progress.is_between() {
            return None;
        }
        let (command, rest) = brief_command(piece)?;
        self.progress.skip(piece.len() - rest.len());
        Some((command, rest))
    }

    /// Gives the oldest command that wasn't given yet, which is moved out. It allocates nothing.
    ///
    /// None where more of the stream is to come first, and the fault of the stream after its commands.
    pub fn next(&mut self) -> Result<Option<Command>, Fault>
        ensures given { result ≡ oldest self.old }
        ensures left { self.new ≡ without_oldest self.old }
        ensures counted { (stream : List ℕ) (given : ℕ) → HasTaken self.old stream given → HasTaken self.new stream (given + given_by (oldest self.old)) }
    {
        match (self.progress.take_oldest(), self.fault) {
            (None, Some(fault)) => Err(fault),
            (command, _) => Ok(command),
        }
    }
}
