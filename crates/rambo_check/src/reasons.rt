//! The line that tells why an order was refused.
ghost use Rattle.std.specs.Prelude.{◌≡◌, ◌++◌, OnOk, IfErr};
ghost use Rattle.std.specs.List.{list_all};
ghost use Rattle.std.specs.Option.{option_copied};
ghost use Rattle.rambo_history.specs.Histories.{answer_in, call_in};
ghost use Rattle.rambo_check.specs.Reasons.{
  answer_line,
  call_line,
  is_plain,
  later_text,
  latest_text,
  line_text,
  missing_text,
  placed_text,
  reason_line,
  reason_text,
  shown,
  strange_text,
  stranger_text,
  told_text,
  value_text,
};

use crate::evidence::Evidence;
use rambo_atomic::Rule;
use rambo_history::{Answer, CallId, Op};
use rambo_names::{Bytes, Refusal};
use rambo_text::{write_call, write_hex, write_num};
use rambo_witness::is_of;

/// Appends the line that tells why an order of the key, or where no key is told of all keys, breaks a rule: by a call, and
/// another one if there is one.
///
/// `OutOfMemory` where there is no room for it.
pub(crate) fn write_reason(
    evidence: &Evidence,
    key: Option<&Bytes>,
    rule: Rule,
    id: &CallId,
    other: Option<&CallId>,
    out: &mut Vec<u8>,
) -> Result<(), Refusal>
    ensures ok { OnOk result (out.new.items ≡ out.old.items ++ reason_line evidence.now (option_copied key.entry) rule (record { call = id.now; other = option_copied other.entry })) }
    ensures refused { IfErr result (λ r. r ≡ Refusal.OutOfMemory) }
{
    out.extend_from_slice(b"  ")?;
    write_call(id, out)?;
    write_rule(evidence, key, rule, id, other, out)?;
    out.push(b'\n')?;
    Ok(())
}

// Appends what stands behind the call.
fn write_rule(
    evidence: &Evidence,
    key: Option<&Bytes>,
    rule: Rule,
    id: &CallId,
    other: Option<&CallId>,
    out: &mut Vec<u8>,
) -> Result<(), Refusal>
    ensures ok { OnOk result (out.new.items ≡ out.old.items ++ reason_text evidence.now (option_copied key.entry) rule (record { call = id.now; other = option_copied other.entry })) }
    ensures refused { IfErr result (λ r. r ≡ Refusal.OutOfMemory) }
{
    let line = evidence.order_line(key);
    match rule {
        Rule::Missing => {
            out.extend_from_slice(b" was answered")?;
            write_answer_line(evidence, id, out)?;
            write_missing(line, out)?;
        }
        Rule::Repeated => {
            out.extend_from_slice(b" stands twice in the order")?;
            write_placed(line, out)?;
        }
        Rule::Stranger => {
            out.extend_from_slice(b" stands in the order")?;
            write_placed(line, out)?;
            write_stranger(evidence, key, id, out)?;
        }
        Rule::WrongAnswer => {
            out.extend_from_slice(b" answered ")?;
            write_told(evidence.history().answer(id), out)?;
            write_answer_line(evidence, id, out)?;
            out.extend_from_slice(b",")?;
            write_latest(evidence, other, out)?;
        }
        Rule::OutOfOrder => {
            out.extend_from_slice(b" was answered")?;
            write_answer_line(evidence, id, out)?;
            write_later(evidence, other, out)?;
            out.extend_from_slice(b" and stands behind it")?;
            write_placed(line, out)?;
        }
    }
    Ok(())
}

// Appends what there is of an order in which an answered call is missing.
fn write_missing(line: Option<u64>, out: &mut Vec<u8>) -> Result<(), Refusal>
    ensures ok { OnOk result (out.new.items ≡ out.old.items ++ missing_text line) }
    ensures refused { IfErr result (λ r. r ≡ Refusal.OutOfMemory) }
{
    match line {
        Some(line) => {
            out.extend_from_slice(b" and isn't in the order")?;
            write_line(line, out)?;
        }
        None => out.extend_from_slice(b" and no order is told")?,
    }
    Ok(())
}

// Appends why a call may not stand in the order.
fn write_stranger(
    evidence: &Evidence,
    key: Option<&Bytes>,
    id: &CallId,
    out: &mut Vec<u8>,
) -> Result<(), Refusal>
    ensures ok { OnOk result (out.new.items ≡ out.old.items ++ stranger_text evidence.now (option_copied key.entry) id.now (call_in evidence.now.events id.now)) }
    ensures refused { IfErr result (λ r. r ≡ Refusal.OutOfMemory) }
{
    let Some(op) = evidence.history().call(id) else {
        out.extend_from_slice(b" and was never called")?;
        return Ok(());
    };
    write_strange(key, op, out)?;
    write_call_line(evidence, id, out)?;
    Ok(())
}

// Appends why what is asked there may not stand in the order.
fn write_strange(key: Option<&Bytes>, op: &Op, out: &mut Vec<u8>) -> Result<(), Refusal>
    ensures ok { OnOk result (out.new.items ≡ out.old.items ++ strange_text (option_copied key.entry) op.now) }
    ensures refused { IfErr result (λ r. r ≡ Refusal.OutOfMemory) }
{
    if is_of(key, op) {
        out.extend_from_slice(b" and is a get without an answer")?;
    } else {
        out.extend_from_slice(b" and is a call of ")?;
        write_shown(op.key().as_slice(), out)?;
    }
    Ok(())
}

// Appends what a get was told.
fn write_told(answer: Option<&Answer>, out: &mut Vec<u8>) -> Result<(), Refusal>
    ensures ok { OnOk result (out.new.items ≡ out.old.items ++ told_text (option_copied answer.entry)) }
    ensures refused { IfErr result (λ r. r ≡ Refusal.OutOfMemory) }
{
    match answer {
        None => out.extend_from_slice(b"nothing")?,
        Some(Answer::Ok) => out.extend_from_slice(b"ok")?,
        Some(Answer::Nil) => out.extend_from_slice(b"nil")?,
        Some(Answer::Value(value)) => write_shown(value.as_slice(), out)?,
    }
    Ok(())
}

// Appends which set is the latest before a get.
fn write_latest(evidence: &Evidence, set: Option<&CallId>, out: &mut Vec<u8>) -> Result<(), Refusal>
    ensures ok { OnOk result (out.new.items ≡ out.old.items ++ latest_text evidence.now (option_copied set.entry)) }
    ensures refused { IfErr result (λ r. r ≡ Refusal.OutOfMemory) }
{
    let Some(id) = set else {
        out.extend_from_slice(b" and no set stands before it")?;
        return Ok(());
    };
    out.extend_from_slice(b" and the latest set before it is ")?;
    write_call(id, out)?;
    write_value(evidence.history().call(id), out)?;
    write_call_line(evidence, id, out)?;
    Ok(())
}

// Appends the value that a set gives its key.
fn write_value(op: Option<&Op>, out: &mut Vec<u8>) -> Result<(), Refusal>
    ensures ok { OnOk result (out.new.items ≡ out.old.items ++ value_text (option_copied op.entry)) }
    ensures refused { IfErr result (λ r. r ≡ Refusal.OutOfMemory) }
{
    if let Some(op) = op {
        if let Op::Set(_, value) = op {
            out.extend_from_slice(b" of ")?;
            write_shown(value.as_slice(), out)?;
        }
    }
    Ok(())
}

// Appends which call was made behind the answer of what stands after it.
fn write_later(
    evidence: &Evidence,
    other: Option<&CallId>,
    out: &mut Vec<u8>,
) -> Result<(), Refusal>
    ensures ok { OnOk result (out.new.items ≡ out.old.items ++ later_text evidence.now (option_copied other.entry)) }
    ensures refused { IfErr result (λ r. r ≡ Refusal.OutOfMemory) }
{
    let Some(id) = other else {
        return Ok(());
    };
    out.extend_from_slice(b" before ")?;
    write_call(id, out)?;
    out.extend_from_slice(b" was called")?;
    write_call_line(evidence, id, out)?;
    Ok(())
}

// Appends the number of the line that tells a call.
fn write_call_line(evidence: &Evidence, id: &CallId, out: &mut Vec<u8>) -> Result<(), Refusal>
    ensures ok { OnOk result (out.new.items ≡ out.old.items ++ call_line evidence.now id.now) }
    ensures refused { IfErr result (λ r. r ≡ Refusal.OutOfMemory) }
{
    write_line(evidence.event_line(evidence.history().called_at(id)), out)
}

// Appends the number of the line that tells the answer of a call.
fn write_answer_line(evidence: &Evidence, id: &CallId, out: &mut Vec<u8>) -> Result<(), Refusal>
    ensures ok { OnOk result (out.new.items ≡ out.old.items ++ answer_line evidence.now id.now) }
    ensures refused { IfErr result (λ r. r ≡ Refusal.OutOfMemory) }
{
    write_line(evidence.event_line(evidence.history().answered_at(id)), out)
}

// Appends the number of the line that tells an order, if one does.
fn write_placed(line: Option<u64>, out: &mut Vec<u8>) -> Result<(), Refusal>
    ensures ok { OnOk result (out.new.items ≡ out.old.items ++ placed_text line) }
    ensures refused { IfErr result (λ r. r ≡ Refusal.OutOfMemory) }
{
    match line {
        Some(line) => write_line(line, out),
        None => Ok(()),
    }
}

// Appends the number of a line.
fn write_line(line: u64, out: &mut Vec<u8>) -> Result<(), Refusal>
    ensures ok { OnOk result (out.new.items ≡ out.old.items ++ line_text line) }
    ensures refused { IfErr result (λ r. r ≡ Refusal.OutOfMemory) }
{
    out.extend_from_slice(b" (line ")?;
    write_num(line, out)?;
    out.extend_from_slice(b")")?;
    Ok(())
}

/// Appends the sign of bytes, and where they are printable ASCII without a space or a quote, in quotes what they spell.
///
/// `OutOfMemory` where there is no room for it.
pub(crate) fn write_shown(bytes: &[u8], out: &mut Vec<u8>) -> Result<(), Refusal>
    ensures ok { OnOk result (out.new.items ≡ out.old.items ++ shown bytes.now) }
    ensures refused { IfErr result (λ r. r ≡ Refusal.OutOfMemory) }
{
    write_hex(bytes, out)?;
    if are_plain(bytes) {
        out.extend_from_slice(b" \"")?;
        out.extend_from_slice(bytes)?;
        out.push(b'"')?;
    }
    Ok(())
}

// Whether all bytes are printable ASCII, but no space and no quote.
fn are_plain(bytes: &[u8]) -> bool
    ensures { result ≡ list_all is_plain bytes.now }
{
    bytes.iter().all(|byte| is_plain(*byte))
}

// Whether a byte is printable ASCII, but no space and no quote.
fn is_plain(byte: u8) -> bool
    ensures { result ≡ is_plain byte }
{
    32 < byte && byte < 127 && byte != b'"'
}
