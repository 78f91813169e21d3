//! Whether a row came out as it is wanted.
ghost use Rattle.std.specs.Prelude.{◌≡◌, ◌≤◌, ◌++◌, None, true, false, codes, IfOk, IfSome, IsTrue, OnOk, Ok as AnOk, List, ℕ};
ghost use Rattle.rambo_names.specs.Names.{count_of};
ghost use Rattle.rambo_names.specs.Weights.{members_of};
ghost use Rattle.rambo_names.specs.Signs.{conf_text};
ghost use Rattle.rambo_client.specs.Talks.{Served};
ghost use Rattle.rambo_check.specs.Checks.{IsChecked};
ghost use Rattle.rambo_rows.specs.Rows.{IsServed, Shows};
ghost use Rattle.rambo_steps.specs.Replays.{IsReplay, Replays};

use crate::row::{LOCAL, Row};
use rambo_atomic::{Sink, Source, Tape};
use rambo_local::{LocalFault, local};
use rambo_names::{Quorums, Weighted, read_conf};
use rambo_script::{ReplayFault, check_text, replay};
use std::alloc::{AllocError, Global};

// How many bytes a call of a reader or of a writer moves at most: so commands and lines are cut anywhere.
const READ_PIECE: usize = 7;

const WRITE_PIECE: usize = 5;

/// Runs a row, and returns whether it wrote and ended as the row wants. A row of any other word is wrong.
pub fn is_right(alloc: Global, row: Row) -> Result<bool, AllocError>
    ensures { IfOk result (λ right. IsTrue right → Shows row.entry.word.now row.entry.ending.now row.entry.input.items row.entry.output.items) }
{
    if row.word == b"replay".as_slice() {
        return is_right_replay(alloc, row);
    }
    if row.word == b"check".as_slice() {
        return is_right_check(alloc, row);
    }
    match founders_of(row.word) {
        Some(founders) => is_right_local(alloc, founders, row),
        None => Ok(false),
    }
}

// Where it is done and right, the wanted output is the text of the run of the script.
fn is_right_replay(alloc: Global, row: Row) -> Result<bool, AllocError>
    ensures done { IfOk result (λ right. IsTrue right → row.entry.ending.now ≡ codes "done" → IsReplay row.entry.input.items row.entry.output.items) }
{
    let mut reader = Tape::new(row.input).in_pieces(READ_PIECE);
    let mut writer = Tape::new(Vec::new(alloc)).in_pieces(WRITE_PIECE);
    let ended = replay_all(alloc, &mut reader, &mut writer);
    is_wanted(
        alloc,
        ended,
        row.ending,
        writer.bytes(),
        row.output.as_slice(),
    )
}

// A replay that answers yes where it is done.
fn replay_all<R: Source, W: Sink>(
    alloc: Global,
    reader: &mut R,
    writer: &mut W,
) -> Result<bool, ReplayFault>
    ensures { OnOk result (Replays (R.left reader.old) (W.taken writer.old) (W.taken writer.new)) }
{
    replay(alloc, reader, writer)?;
    Ok(true)
}

// Where it is done or said no, and right, the wanted output is the verdicts on the text.
fn is_right_check(alloc: Global, row: Row) -> Result<bool, AllocError>
    ensures done { IfOk result (λ right. IsTrue right → row.entry.ending.now ≡ codes "done" → IsChecked false row.entry.input.items row.entry.output.items true) }
    ensures no { IfOk result (λ right. IsTrue right → row.entry.ending.now ≡ codes "no" → IsChecked false row.entry.input.items row.entry.output.items false) }
{
    let mut reader = Tape::new(row.input).in_pieces(READ_PIECE);
    let mut writer = Tape::new(Vec::new(alloc)).in_pieces(WRITE_PIECE);
    let ended = check_text(alloc, false, &mut reader, &mut writer);
    is_wanted(
        alloc,
        ended,
        row.ending,
        writer.bytes(),
        row.output.as_slice(),
    )
}

// The founders of the store that a word has a client served by, if it does.
fn founders_of(word: &[u8]) -> Option<Weighted>
    ensures some { IfSome result (λ founders. 1 ≤ count_of (members_of founders)) }
    ensures founders { IfSome result (λ founders. word.now ≡ codes "local " ++ conf_text founders) }
{
    let founders = read_conf(word.strip_prefix(LOCAL)?)?;
    if founders.members().count() == 0 {
        return None;
    }
    Some(founders)
}

// Where it is done and right, the wanted output is what an ordinary map replies to the commands of the input.
fn is_right_local(alloc: Global, founders: Weighted, row: Row) -> Result<bool, AllocError>
    requires { 1 ≤ count_of (members_of founders) }
    ensures done { IfOk result (λ right. IsTrue right → row.entry.ending.now ≡ codes "done" → IsServed founders row.entry.input.items row.entry.output.items) }
{
    let mut reader = Tape::new(row.input).in_pieces(READ_PIECE);
    let mut writer = Tape::new(Vec::new(alloc)).in_pieces(WRITE_PIECE);
    let ended = local_all(alloc, founders, &mut reader, &mut writer);
    is_wanted(
        alloc,
        ended,
        row.ending,
        writer.bytes(),
        row.output.as_slice(),
    )
}

// A client that is served, and answers yes where that is done.
fn local_all<R: Source, W: Sink>(
    alloc: Global,
    founders: Weighted,
    reader: &mut R,
    writer: &mut W,
) -> Result<bool, ReplayFault>
    requires { 1 ≤ count_of (members_of founders) }
    ensures { OnOk result (Served founders (R.left reader.old) (R.left reader.new) (W.taken writer.old) (W.taken writer.new)) }
{
    match local(alloc, founders, reader, writer) {
        Ok(()) => Ok(true),
        Err(LocalFault::Read) => Err(ReplayFault::Read),
        Err(LocalFault::Write) => Err(ReplayFault::Write),
        Err(LocalFault::Memory) => Err(ReplayFault::Memory),
    }
}

// Whether a run ended in these words, and wrote what is wanted.
fn is_wanted(
    alloc: Global,
    ended: Result<bool, ReplayFault>,
    words: &[u8],
    written: &[u8],
    wanted: &[u8],
) -> Result<bool, AllocError>
    ensures done { IfOk result (λ is. IsTrue is → words.now ≡ codes "done" → ended ≡ AnOk true) }
    ensures no { IfOk result (λ is. IsTrue is → words.now ≡ codes "no" → ended ≡ AnOk false) }
    ensures same { IfOk result (λ is. IsTrue is → written.now ≡ wanted.now) }
{
    if written != wanted {
        return Ok(false);
    }
    match words {
        b"done" => Ok(ended == Ok(true)),
        b"no" => Ok(ended == Ok(false)),
        words => match ended {
            Ok(_) => Ok(false),
            Err(fault) => Ok(format!(in alloc; "{fault}")?.as_bytes() == words),
        },
    }
}
