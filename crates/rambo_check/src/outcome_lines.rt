//! The text of an outcome.
ghost use Rattle.std.specs.Prelude.{◌≡◌, ◌++◌, ◌∷◌, [], map, ℕ, List, codes, option_map, IfOk, IfErr, OnOk};
ghost use Rattle.std.specs.Option.{option_copied};
ghost use Rattle.rambo_text.specs.Signs.{call_text};
ghost use Rattle.rambo_text.specs.Versions.{head_text};
ghost use Rattle.rambo_text.specs.Words.{more_words};
ghost use Rattle.rambo_check.specs.declared.order.Placed.{Placed as AnyPlaced};
ghost use Rattle.rambo_check.specs.Lines.{Happened, Ordered, answer_words, item_line, items_text, op_words};
ghost use Rattle.rambo_check.specs.Placings.{evidence_text, order_items};

use crate::evidence::Evidence;
use crate::order::Placed;
use indexmap::IndexMap;
use rambo_history::{Answer, CallId, Event, Op};
use rambo_names::{Bytes, Refusal};
use rambo_text::{Version, write_call, write_hex};
use std::alloc::Global;

/// The text of a version that tells the calls and answers, then the order of each key, and that of all keys if there is one.
///
/// `OutOfMemory` where there is no room for it.
pub(crate) fn outcome_lines(
    alloc: Global,
    version: Version,
    evidence: &Evidence,
) -> Result<Vec<u8>, Refusal>
    ensures text { IfOk result (λ text. text.items ≡ evidence_text version evidence.now) }
    ensures refused { IfErr result (λ r. r ≡ Refusal.OutOfMemory) }
{
    let mut out = Vec::new(alloc);
    write_head(version, &mut out)?;
    write_events(evidence.history().events(), &mut out)?;
    write_sequences(evidence.orders(), &mut out)?;
    write_order(evidence.told_order(), &mut out)?;
    Ok(out)
}

// Appends the line that tells the version, if one does.
fn write_head(version: Version, out: &mut Vec<u8>) -> Result<(), Refusal>
    ensures ok { OnOk result (out.new.items ≡ out.old.items ++ head_text version) }
    ensures refused { IfErr result (λ r. r ≡ Refusal.OutOfMemory) }
{
    match version {
        Version::One => {}
        Version::Two => out.extend_from_slice(b"rambo 2\n")?,
    }
    Ok(())
}

// Appends the lines of calls and answers.
fn write_events(events: &[Event], out: &mut Vec<u8>) -> Result<(), Refusal>
    ensures ok { OnOk result (out.new.items ≡ out.old.items ++ items_text (map Happened events.now)) }
    ensures refused { IfErr result (λ r. r ≡ Refusal.OutOfMemory) }
{
    let mut rest = events;
    while let Some((event, others)) = rest.split_first() {
        write_event(event, out)?;
        rest = others;
    }
    Ok(())
}

// Appends the line of a call or an answer.
fn write_event(event: &Event, out: &mut Vec<u8>) -> Result<(), Refusal>
    ensures ok { OnOk result (out.new.items ≡ out.old.items ++ item_line (Happened event.now)) }
    ensures refused { IfErr result (λ r. r ≡ Refusal.OutOfMemory) }
{
    match event {
        Event::Call(id, op) => {
            out.extend_from_slice(b"call ")?;
            write_call(id, out)?;
            write_op(op, out)?;
        }
        Event::Answer(id, answer) => {
            out.extend_from_slice(b"answer ")?;
            write_call(id, out)?;
            write_answer(answer, out)?;
        }
    }
    out.push(b'\n')?;
    Ok(())
}

// Appends what a call asks.
fn write_op(op: &Op, out: &mut Vec<u8>) -> Result<(), Refusal>
    ensures ok { OnOk result (out.new.items ≡ out.old.items ++ more_words (op_words op.now)) }
    ensures refused { IfErr result (λ r. r ≡ Refusal.OutOfMemory) }
{
    match op {
        Op::Get(key) => {
            out.extend_from_slice(b" get ")?;
            write_hex(key.as_slice(), out)?;
        }
        Op::Set(key, value) => {
            out.extend_from_slice(b" set ")?;
            write_hex(key.as_slice(), out)?;
            out.push(b' ')?;
            write_hex(value.as_slice(), out)?;
        }
    }
    Ok(())
}

// Appends what is answered.
fn write_answer(answer: &Answer, out: &mut Vec<u8>) -> Result<(), Refusal>
    ensures ok { OnOk result (out.new.items ≡ out.old.items ++ more_words (answer_words answer.now)) }
    ensures refused { IfErr result (λ r. r ≡ Refusal.OutOfMemory) }
{
    match answer {
        Answer::Ok => out.extend_from_slice(b" ok")?,
        Answer::Nil => out.extend_from_slice(b" nil")?,
        Answer::Value(value) => {
            out.extend_from_slice(b" value ")?;
            write_hex(value.as_slice(), out)?;
        }
    }
    Ok(())
}

// Appends the line of each key's order.
fn write_sequences(orders: &IndexMap<Bytes, Placed>, out: &mut Vec<u8>) -> Result<(), Refusal>
    ensures ok { OnOk result (out.new.items ≡ out.old.items ++ items_text (map (λ o. Ordered (record { key = o.0; calls = o.1.order })) orders.now.entries)) }
    ensures refused { IfErr result (λ r. r ≡ Refusal.OutOfMemory) }
{
    let mut rest = orders.as_slice();
    while let Some(((key, placed), others)) = rest.split_first() {
        write_sequence(key, placed.order.calls.as_slice(), out)?;
        rest = others;
    }
    Ok(())
}

// Appends the line of a key's order.
fn write_sequence(key: &Bytes, calls: &[CallId], out: &mut Vec<u8>) -> Result<(), Refusal>
    ensures ok { OnOk result (out.new.items ≡ out.old.items ++ item_line (Ordered (record { key = key.now; calls = calls.now }))) }
    ensures refused { IfErr result (λ r. r ≡ Refusal.OutOfMemory) }
{
    out.extend_from_slice(b"sequence ")?;
    write_hex(key.as_slice(), out)?;
    write_calls(calls, out)?;
    out.push(b'\n')?;
    Ok(())
}

// Appends the line of the order of all keys, if there is one.
fn write_order(order: Option<&Placed>, out: &mut Vec<u8>) -> Result<(), Refusal>
    ensures ok { OnOk result (out.new.items ≡ out.old.items ++ items_text (order_items (option_map (λ (p : AnyPlaced). p.order) (option_copied order.entry)))) }
    ensures refused { IfErr result (λ r. r ≡ Refusal.OutOfMemory) }
{
    if let Some(placed) = order {
        out.extend_from_slice(b"order")?;
        write_calls(placed.order.calls.as_slice(), out)?;
        out.push(b'\n')?;
    }
    Ok(())
}

// Appends calls, each after a space.
fn write_calls(calls: &[CallId], out: &mut Vec<u8>) -> Result<(), Refusal>
    ensures ok { OnOk result (out.new.items ≡ out.old.items ++ more_words (map call_text calls.now)) }
    ensures refused { IfErr result (λ r. r ≡ Refusal.OutOfMemory) }
{
    for id in calls {
        out.push(b' ')?;
        write_call(id, out)?;
    }
    Ok(())
}
