//! The text of what a run gives, but for its history.
ghost use Rattle.std.specs.Prelude.{◌≡◌, ◌++◌, IfOk, IfErr, OnOk, OnErr, vec_capacity};
ghost use Rattle.std.specs.Io.KnownBytes.{Appends};
ghost use Rattle.rambo_atomic.specs.Streams.{Begins, counted};
ghost use Rattle.rambo_atomic.specs.declared.whole.StreamFault.TheVariants as fault;
ghost use Rattle.rambo_text.specs.Versions.{head_text};
ghost use Rattle.rambo_outcome.specs.Notes.{HasRoom, Moves, told_text, woven};

use crate::notes::Notes;
use crate::outcome::write_head;
use crate::pieces::{make_room, write_bytes, write_woven};
use rambo_atomic::{Sink, StreamFault, write_all};
use rambo_history::{Event, History};
use rambo_names::Refusal;
use rambo_text::Version;
use std::alloc::Global;
use std::marker::Model;

/// What is told of a run that ended, but for its calls and answers, which are in its history. All memory that writing the
/// text takes is taken.
pub struct Told {
    piece: Vec<u8>,
    notes: Notes,
    tail: Vec<u8>,
}

// By hand, so that those who drop it needn't follow all that is in it.
impl Drop for Told {
    fn drop(self) {
        let Told {
            piece: _piece,
            notes: _notes,
            tail: _tail,
        } = self;
    }
}

impl Model for Told {
    ghost use Rattle.std.specs.Prelude.{vec_capacity};
    ghost use Rattle.rambo_outcome.specs.Notes.{ToldState};

    ghost Value = { ToldState };

    ghost view = { λ t. record { head = t.piece.items; notes = t.notes; tail = t.tail.items; room = vec_capacity t.piece } };
}

impl Told {
    /// What is told of a run with this history: its notes, and the lines that come after those of its steps.
    ///
    /// `OutOfMemory` where there is no room to write their text in pieces.
    pub fn new(
        alloc: Global,
        version: Version,
        history: &History,
        notes: Notes,
        tail: Vec<u8>,
    ) -> Result<Told, Refusal>
        ensures head { IfOk result (λ t. t.head ≡ head_text version) }
        ensures notes { IfOk result (λ t. t.notes ≡ notes) }
        ensures tail { IfOk result (λ t. t.tail ≡ tail.items) }
        ensures room { IfOk result (λ t. HasRoom t.room history.now.events) }
        ensures refused { IfErr result (λ r. r ≡ Refusal.OutOfMemory) }
    {
        let piece = piece_for(alloc, version, history.events())?;
        Ok(Told { piece, notes, tail })
    }

    /// Writes the text, piece by piece. It allocates nothing.
    ///
    /// `Write` where the writer fails; then a prefix of the text was written.
    pub fn write<W: Sink>(mut self, history: &History, writer: &mut W) -> Result<(), StreamFault>
        requires room { HasRoom self.room history.now.events }
        ensures ok { OnOk result (Appends (W.taken writer.old) (W.taken writer.new) (told_text history.now.events self)) }
        ensures err { OnErr result (Begins (W.taken writer.old) (W.taken writer.new) (told_text history.now.events self)) }
        ensures fine { OnOk result (W.failures writer.new ≡ W.failures writer.old) }
        ensures fault { IfErr result (λ f. (f ≡ fault.Write) × (W.failures writer.new ≡ counted (W.failures writer.old))) }
    {
        write_all_told(
            history.events(),
            &self.notes,
            self.tail.as_slice(),
            &mut self.piece,
            writer,
        )
    }
}

// An empty text, but for the line that gives the version, which has room for a piece.
fn piece_for(alloc: Global, version: Version, events: &[Event]) -> Result<Vec<u8>, Refusal>
    ensures head { IfOk result (λ piece. piece.items ≡ head_text version) }
    ensures room { IfOk result (λ piece. HasRoom (vec_capacity piece) events.now) }
    ensures refused { IfErr result (λ r. r ≡ Refusal.OutOfMemory) }
{
    let mut piece = Vec::new(alloc);
    write_head(version, &mut piece)?;
    make_room(events, &mut piece)?;
    Ok(piece)
}

// Writes a piece and all that comes after it.
fn write_all_told<W: Sink>(
    events: &[Event],
    notes: &Notes,
    tail: &[u8],
    piece: &mut Vec<u8>,
    writer: &mut W,
) -> Result<(), StreamFault>
    requires room { HasRoom (vec_capacity piece.old) events.now }
    ensures ok { OnOk result (Appends (W.taken writer.old) (W.taken writer.new) (piece.old.items ++ (woven events.now notes.now ++ tail.now))) }
    ensures err { OnErr result (Begins (W.taken writer.old) (W.taken writer.new) (piece.old.items ++ (woven events.now notes.now ++ tail.now))) }
    ensures fine { OnOk result (W.failures writer.new ≡ W.failures writer.old) }
    ensures fault { IfErr result (λ f. (f ≡ fault.Write) × (W.failures writer.new ≡ counted (W.failures writer.old))) }
{
    write_woven(events, notes, piece, writer)?;
    write_bytes(tail, piece, writer)?;
    write_all(writer, piece.as_slice())
}
