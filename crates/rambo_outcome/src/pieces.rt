//! Texts that are written piece by piece.
ghost use Rattle.std.specs.Prelude.{◌≡◌, ◌⊎◌, ◌≤◌, ◌<◌, ◌+◌, ◌*◌, ◌++◌, [], List, ℕ, Option, IfOk, IfErr, OnOk, OnErr, vec_len, vec_capacity};
ghost use Rattle.std.specs.Io.KnownBytes.{Appends};
ghost use Rattle.rambo_atomic.specs.Streams.{Begins, counted};
ghost use Rattle.rambo_atomic.specs.declared.whole.StreamFault.TheVariants as fault;
ghost use Rattle.rambo_outcome.specs.Notes.{HasRoom, Moves, events_text, woven, most_bytes};

use crate::event_line::{event_bytes, push_event, room_for};
use crate::notes::Notes;
use rambo_atomic::{Sink, StreamFault, write_all};
use rambo_history::Event;
use rambo_names::Refusal;
use rambo_text::push_bytes;

// Once a piece of the text has so many bytes it is written.
const PIECE: usize = 64 * 1024;

/// Makes room in a piece for the longest line of some events, whenever it is short of so many bytes that it is written.
///
/// `OutOfMemory` where there is none; the piece is then unchanged.
pub(crate) fn make_room(events: &[Event], piece: &mut Vec<u8>) -> Result<(), Refusal>
    ensures items { piece.new.items ≡ piece.old.items }
    ensures room { OnOk result (HasRoom (vec_capacity piece.new) events.now) }
    ensures refused { IfErr result (λ r. r ≡ Refusal.OutOfMemory) }
{
    piece.reserve(PIECE + room_for(most_bytes_of(events))?)?;
    Ok(())
}

// The most bytes of keys and values that the line of one of some events spells.
fn most_bytes_of(events: &[Event]) -> usize
    ensures { result ≡ most_bytes events.now }
{
    let mut most = 0;
    for event in events {
        let bytes = event_bytes(event);
        if bytes > most {
            most = bytes;
        }
    }
    most
}

/// Writes a piece and the lines of some events after it. The end may stay in the piece. It allocates nothing.
///
/// `Write` where the writer fails.
pub(crate) fn write_events<W: Sink>(
    events: &[Event],
    piece: &mut Vec<u8>,
    writer: &mut W,
) -> Result<(), StreamFault>
    requires room { HasRoom (vec_capacity piece.old) events.now }
    ensures ok { OnOk result (Moves (W.taken writer.old) (W.taken writer.new) (piece.old.items ++ events_text events.now) piece.new.items) }
    ensures err { OnErr result (Begins (W.taken writer.old) (W.taken writer.new) (piece.old.items ++ events_text events.now)) }
    ensures capacity { vec_capacity piece.old ≤ vec_capacity piece.new }
    ensures fine { OnOk result (W.failures writer.new ≡ W.failures writer.old) }
    ensures fault { IfErr result (λ f. (f ≡ fault.Write) × (W.failures writer.new ≡ counted (W.failures writer.old))) }
{
    for event in events {
        write_if_long(piece, writer)?;
        push_event(event, piece);
    }
    Ok(())
}

/// Writes a piece and some bytes after it. The end may stay in the piece. It allocates nothing.
///
/// `Write` where the writer fails.
pub(crate) fn write_bytes<W: Sink>(
    bytes: &[u8],
    piece: &mut Vec<u8>,
    writer: &mut W,
) -> Result<(), StreamFault>
    ensures ok { OnOk result (Moves (W.taken writer.old) (W.taken writer.new) (piece.old.items ++ bytes.now) piece.new.items) }
    ensures err { OnErr result (Begins (W.taken writer.old) (W.taken writer.new) (piece.old.items ++ bytes.now)) }
    ensures capacity { vec_capacity piece.old ≤ vec_capacity piece.new }
    ensures fine { OnOk result (W.failures writer.new ≡ W.failures writer.old) }
    ensures fault { IfErr result (λ f. (f ≡ fault.Write) × (W.failures writer.new ≡ counted (W.failures writer.old))) }
{
    if piece.capacity() - piece.len() < bytes.len() {
        write_piece(piece, writer)?;
        return write_all(writer, bytes);
    }
    push_bytes(bytes, piece);
    Ok(())
}

// Writes a piece that has grown long, and empties it then.
#[inline(always)]
fn write_if_long<W: Sink>(piece: &mut Vec<u8>, writer: &mut W) -> Result<(), StreamFault>
    ensures ok { OnOk result (Moves (W.taken writer.old) (W.taken writer.new) piece.old.items piece.new.items) }
    ensures err { OnErr result (Begins (W.taken writer.old) (W.taken writer.new) piece.old.items) }
    ensures short { OnOk result (vec_len piece.new < 65536) }
    ensures capacity { vec_capacity piece.new ≡ vec_capacity piece.old }
    ensures fine { OnOk result (W.failures writer.new ≡ W.failures writer.old) }
    ensures fault { IfErr result (λ f. (f ≡ fault.Write) × (W.failures writer.new ≡ counted (W.failures writer.old))) }
{
    if piece.len() < PIECE {
        return Ok(());
    }
    write_piece(piece, writer)
}

// Writes a piece, and empties it then.
#[inline(never)]
fn write_piece<W: Sink>(piece: &mut Vec<u8>, writer: &mut W) -> Result<(), StreamFault>
    ensures ok { OnOk result (Moves (W.taken writer.old) (W.taken writer.new) piece.old.items piece.new.items) }
    ensures empty { OnOk result (piece.new.items ≡ []) }
    ensures err { OnErr result (Begins (W.taken writer.old) (W.taken writer.new) piece.old.items) }
    ensures short { OnOk result (vec_len piece.new < 65536) }
    ensures capacity { vec_capacity piece.new ≡ vec_capacity piece.old }
    ensures fine { OnOk result (W.failures writer.new ≡ W.failures writer.old) }
    ensures fault { IfErr result (λ f. (f ≡ fault.Write) × (W.failures writer.new ≡ counted (W.failures writer.old))) }
{
    write_all(writer, piece.as_slice())?;
    piece.clear();
    Ok(())
}

/// Writes a piece, and the lines of some events after it with notes between them. The end may stay in the piece. It
/// allocates nothing.
///
/// `Write` where the writer fails.
pub(crate) fn write_woven<W: Sink>(
    events: &[Event],
    notes: &Notes,
    piece: &mut Vec<u8>,
    writer: &mut W,
) -> Result<(), StreamFault>
    requires room { HasRoom (vec_capacity piece.old) events.now }
    ensures ok { OnOk result (Moves (W.taken writer.old) (W.taken writer.new) (piece.old.items ++ woven events.now notes.now) piece.new.items) }
    ensures err { OnErr result (Begins (W.taken writer.old) (W.taken writer.new) (piece.old.items ++ woven events.now notes.now)) }
    ensures fine { OnOk result (W.failures writer.new ≡ W.failures writer.old) }
    ensures fault { IfErr result (λ f. (f ≡ fault.Write) × (W.failures writer.new ≡ counted (W.failures writer.old))) }
{
    let mut rest = events;
    let mut text = notes.text.as_slice();
    for note in &notes.notes {
        let (front, behind) = rest.split_at(note.events.min(rest.len()));
        let (line, others) = text.split_at(note.len);
        write_note(front, line, piece, writer)?;
        rest = behind;
        text = others;
    }
    write_events(rest, piece, writer)
}

// Writes a piece, the lines of some events after it, and other bytes after these.
fn write_note<W: Sink>(
    front: &[Event],
    line: &[u8],
    piece: &mut Vec<u8>,
    writer: &mut W,
) -> Result<(), StreamFault>
    requires room { HasRoom (vec_capacity piece.old) front.now }
    ensures ok { OnOk result (Moves (W.taken writer.old) (W.taken writer.new) (piece.old.items ++ (events_text front.now ++ line.now)) piece.new.items) }
    ensures err { OnErr result (Begins (W.taken writer.old) (W.taken writer.new) (piece.old.items ++ (events_text front.now ++ line.now))) }
    ensures capacity { vec_capacity piece.old ≤ vec_capacity piece.new }
    ensures fine { OnOk result (W.failures writer.new ≡ W.failures writer.old) }
    ensures fault { IfErr result (λ f. (f ≡ fault.Write) × (W.failures writer.new ≡ counted (W.failures writer.old))) }
{
    write_events(front, piece, writer)?;
    write_bytes(line, piece, writer)
}
