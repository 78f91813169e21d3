//! The text of an outcome.
ghost use Rattle.std.specs.Prelude.{◌≡◌, ◌++◌, ℕ, OnOk, OnErr, IfOk, IfErr, map};
ghost use Rattle.rambo_text.specs.Signs.{Grows};
ghost use Rattle.rambo_text.specs.Versions.{head_text};
ghost use Rattle.rambo_check.specs.Lines.{Ordered, items_text};
ghost use Rattle.rambo_outcome.specs.Outcomes.{step_items, steps_items, order_items, order_items_in, map_item, outcome_lines};

use crate::event_line::{append_answered, append_called};
use crate::line::{append_map, append_order, append_sequence};
use crate::step_line::write_other;
use rambo_history::{CallId, History};
use rambo_names::{Refusal, Weighted};
use rambo_node::Effect;
use rambo_run::{NodeMap, Outcome};
use rambo_sequence::KeySequence;
use rambo_text::Version;
use std::alloc::Global;

/// The text of an outcome: a line for each call, answer, ended collection, ended attempt and refusal, in the order of
/// the steps. Then come a line for each sequence, and one for each map. In version 2 the line `rambo 2` comes before
/// these. A line for the order of the calls of all keys comes before the maps, where that has a call.
///
/// `OutOfMemory` where there is no room for it.
pub fn outcome_text(
    alloc: Global,
    version: Version,
    outcome: &Outcome<Weighted>,
) -> Result<Vec<u8>, Refusal>
    ensures text { IfOk result (λ text. text.items ≡ outcome_lines version outcome.now) }
    ensures refused { IfErr result (λ r. r ≡ Refusal.OutOfMemory) }
{
    let mut out = Vec::new(alloc);
    write_head(version, &mut out)?;
    append_steps(outcome.effects.as_slice(), &outcome.history, &mut out)?;
    write_sequences(outcome.sequences.as_slice(), &mut out)?;
    write_order_in(version, outcome.order.as_slice(), &mut out)?;
    write_maps(outcome.maps.as_slice(), &mut out)?;
    Ok(out)
}

/// Appends the line that gives the version of a text. Version 1 has none.
///
/// `OutOfMemory` where the text can't grow; it is then unchanged.
pub(crate) fn write_head(version: Version, out: &mut Vec<u8>) -> Result<(), Refusal>
    ensures ok { OnOk result (out.new.items ≡ out.old.items ++ head_text version) }
    ensures err { OnErr result (out.new.items ≡ out.old.items) }
    ensures refused { IfErr result (λ r. r ≡ Refusal.OutOfMemory) }
{
    match version {
        Version::One => Ok(()),
        Version::Two => {
            out.extend_from_slice(b"rambo 2\n")?;
            Ok(())
        }
    }
}

// Appends the line of the order of all keys' calls, where a text of the version has one.
fn write_order_in(version: Version, calls: &[CallId], out: &mut Vec<u8>) -> Result<(), Refusal>
    ensures ok { OnOk result (out.new.items ≡ out.old.items ++ items_text (order_items_in version calls.now)) }
    ensures refused { IfErr result (λ r. r ≡ Refusal.OutOfMemory) }
{
    match version {
        Version::One => Ok(()),
        Version::Two => write_order(calls, out),
    }
}

/// Appends the line of the order of all keys' calls, or nothing where there is none.
///
/// `OutOfMemory` where the text can't grow; it is then unchanged.
pub fn write_order(calls: &[CallId], out: &mut Vec<u8>) -> Result<(), Refusal>
    ensures ok { OnOk result (out.new.items ≡ out.old.items ++ items_text (order_items calls.now)) }
    ensures err { OnErr result (out.new.items ≡ out.old.items) }
    ensures refused { IfErr result (λ r. r ≡ Refusal.OutOfMemory) }
{
    if calls.is_empty() {
        return Ok(());
    }
    let before = out.len();
    let written = append_order(calls, out);
    if written.is_err() {
        out.truncate(before);
    }
    written
}

// Appends what is told of the steps, or after a refusal some bytes.
fn append_steps(
    results: &[Result<Effect<Weighted>, Refusal>],
    history: &History,
    out: &mut Vec<u8>,
) -> Result<(), Refusal>
    ensures ok { OnOk result (out.new.items ≡ out.old.items ++ items_text (steps_items history.now.events 1 results.now)) }
    ensures err { OnErr result (Grows out.old.items out.new.items) }
    ensures refused { IfErr result (λ r. r ≡ Refusal.OutOfMemory) }
{
    for (place, told) in results.iter().enumerate() {
        write_step(place as u64 + 1, told, history, out)?;
    }
    Ok(())
}

// Appends what is reported of a step, by its number: the line of a call, an answer, an ended collection, an ended
// attempt or a refusal, or none. What a call asked is looked up in the history. A refusal leaves the text unchanged.
fn write_step(
    step: u64,
    told: &Result<Effect<Weighted>, Refusal>,
    history: &History,
    out: &mut Vec<u8>,
) -> Result<(), Refusal>
    ensures ok { OnOk result (out.new.items ≡ out.old.items ++ items_text (step_items history.now.events step told.now)) }
    ensures err { OnErr result (out.new.items ≡ out.old.items) }
    ensures refused { IfErr result (λ r. r ≡ Refusal.OutOfMemory) }
{
    match told {
        Ok(Effect::Called(id)) => match history.call(id) {
            Some(op) => append_called(id, op, out),
            None => Ok(()),
        },
        Ok(Effect::Answered(id, answer)) => append_answered(id, answer, out),
        Ok(
            Effect::Done
            | Effect::Sent(_)
            | Effect::Moved
            | Effect::Collected(_, _)
            | Effect::Decided(_, _),
        )
        | Err(_) => write_other(step, told, out),
    }
}

/// Appends a line for each sequence.
///
/// `OutOfMemory` where the text can't grow; it is then unchanged.
pub fn write_sequences(sequences: &[KeySequence], out: &mut Vec<u8>) -> Result<(), Refusal>
    ensures ok { OnOk result (out.new.items ≡ out.old.items ++ items_text (map Ordered sequences.now)) }
    ensures err { OnErr result (out.new.items ≡ out.old.items) }
    ensures refused { IfErr result (λ r. r ≡ Refusal.OutOfMemory) }
{
    let before = out.len();
    let written = append_sequences(sequences, out);
    if written.is_err() {
        out.truncate(before);
    }
    written
}

// Appends a line for each sequence, or after a refusal some bytes.
fn append_sequences(sequences: &[KeySequence], out: &mut Vec<u8>) -> Result<(), Refusal>
    ensures ok { OnOk result (out.new.items ≡ out.old.items ++ items_text (map Ordered sequences.now)) }
    ensures err { OnErr result (Grows out.old.items out.new.items) }
    ensures refused { IfErr result (λ r. r ≡ Refusal.OutOfMemory) }
{
    for sequence in sequences {
        append_sequence(sequence, out)?;
    }
    Ok(())
}

/// Appends a line for each map.
///
/// `OutOfMemory` where the text can't grow; it is then unchanged.
pub fn write_maps(maps: &[NodeMap<Weighted>], out: &mut Vec<u8>) -> Result<(), Refusal>
    ensures ok { OnOk result (out.new.items ≡ out.old.items ++ items_text (map map_item maps.now)) }
    ensures err { OnErr result (out.new.items ≡ out.old.items) }
    ensures refused { IfErr result (λ r. r ≡ Refusal.OutOfMemory) }
{
    let before = out.len();
    let written = append_maps(maps, out);
    if written.is_err() {
        out.truncate(before);
    }
    written
}

// Appends a line for each map, or after a refusal some bytes.
fn append_maps(maps: &[NodeMap<Weighted>], out: &mut Vec<u8>) -> Result<(), Refusal>
    ensures ok { OnOk result (out.new.items ≡ out.old.items ++ items_text (map map_item maps.now)) }
    ensures err { OnErr result (Grows out.old.items out.new.items) }
    ensures refused { IfErr result (λ r. r ≡ Refusal.OutOfMemory) }
{
    for node in maps {
        append_map(node, out)?;
    }
    Ok(())
}
