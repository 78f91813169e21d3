//! The lines of calls and answers.
ghost use Rattle.std.specs.Prelude.{◌≡◌, ◌+◌, ◌*◌, ◌≤◌, ◌++◌, IfOk, IfErr, OnOk, OnErr, vec_len, vec_capacity};
ghost use Rattle.rambo_history.specs.declared.event.Event.TheVariants as event;
ghost use Rattle.rambo_text.specs.Signs.{Grows};
ghost use Rattle.rambo_text.specs.Words.{more_words};
ghost use Rattle.rambo_check.specs.Lines.{Happened, op_words, answer_words, item_line};
ghost use Rattle.rambo_outcome.specs.Notes as notes;

use rambo_history::{Answer, CallId, Event, Op};
use rambo_names::Refusal;
use rambo_text::{push_bytes, push_call, push_hex};

// How many bytes the longest line of a call or an answer has, but for the digits of its key and its value.
const FRAME: usize = 40;

// The most bytes of keys and values for whose digits there may be room.
const MOST_BYTES: usize = 1 << 62;

/// How many bytes of keys and values the line of an event spells.
pub(crate) fn event_bytes(event: &Event) -> usize
    ensures { result ≡ notes.event_bytes event.now }
{
    match event {
        Event::Call(_, op) => op_bytes(op),
        Event::Answer(_, answer) => answer_bytes(answer),
    }
}

fn op_bytes(op: &Op) -> usize
    ensures { result ≡ notes.op_bytes op.now }
{
    match op {
        Op::Get(key) => key.len(),
        Op::Set(key, value) => key.as_slice().len() + value.as_slice().len(),
    }
}

fn answer_bytes(answer: &Answer) -> usize
    ensures { result ≡ notes.answer_bytes answer.now }
{
    match answer {
        Answer::Ok | Answer::Nil => 0,
        Answer::Value(value) => value.len(),
    }
}

/// How much room the line of an event takes that spells so many bytes of keys and values.
///
/// `OutOfMemory` where no memory has it.
pub(crate) fn room_for(bytes: usize) -> Result<usize, Refusal>
    ensures room { IfOk result (λ room. room ≡ 2 * bytes + 40) }
    ensures fits { OnOk result (bytes ≤ 4611686018427387904) }
    ensures refused { IfErr result (λ r. r ≡ Refusal.OutOfMemory) }
{
    if bytes > MOST_BYTES {
        return Err(Refusal::OutOfMemory);
    }
    Ok(2 * bytes + FRAME)
}

/// Appends the line of a call.
///
/// `OutOfMemory` where the text can't grow; it is then unchanged.
pub(crate) fn append_called(id: &CallId, op: &Op, out: &mut Vec<u8>) -> Result<(), Refusal>
    ensures ok { OnOk result (out.new.items ≡ out.old.items ++ item_line (Happened (event.Call id.now op.now))) }
    ensures err { OnErr result (out.new.items ≡ out.old.items) }
    ensures refused { IfErr result (λ r. r ≡ Refusal.OutOfMemory) }
{
    out.reserve(room_for(op_bytes(op))?)?;
    push_called(id, op, out);
    Ok(())
}

/// Appends the line of an answer.
///
/// `OutOfMemory` where the text can't grow; it is then unchanged.
pub(crate) fn append_answered(
    id: &CallId,
    answer: &Answer,
    out: &mut Vec<u8>,
) -> Result<(), Refusal>
    ensures ok { OnOk result (out.new.items ≡ out.old.items ++ item_line (Happened (event.Answer id.now answer.now))) }
    ensures err { OnErr result (out.new.items ≡ out.old.items) }
    ensures refused { IfErr result (λ r. r ≡ Refusal.OutOfMemory) }
{
    out.reserve(room_for(answer_bytes(answer))?)?;
    push_answered(id, answer, out);
    Ok(())
}

/// Appends the line of an event to a text that has room for it. It allocates nothing.
pub(crate) fn push_event(event: &Event, out: &mut Vec<u8>)
    requires { vec_len out.old + 2 * notes.event_bytes event.now + 40 ≤ vec_capacity out.old }
    ensures items { out.new.items ≡ out.old.items ++ item_line (Happened event.now) }
    ensures capacity { vec_capacity out.old ≤ vec_capacity out.new }
{
    match event {
        Event::Call(id, op) => push_called(id, op, out),
        Event::Answer(id, answer) => push_answered(id, answer, out),
    }
}

fn push_called(id: &CallId, op: &Op, out: &mut Vec<u8>)
    requires { vec_len out.old + 2 * notes.op_bytes op.now + 40 ≤ vec_capacity out.old }
    ensures items { out.new.items ≡ out.old.items ++ item_line (Happened (event.Call id.now op.now)) }
    ensures capacity { vec_capacity out.old ≤ vec_capacity out.new }
{
    push_bytes(b"call ", out);
    push_call(id, out);
    push_op(op, out);
    out.push_reserved(b'\n');
}

fn push_op(op: &Op, out: &mut Vec<u8>)
    requires { vec_len out.old + 2 * notes.op_bytes op.now + 8 ≤ vec_capacity out.old }
    ensures items { out.new.items ≡ out.old.items ++ more_words (op_words op.now) }
    ensures len { vec_len out.new ≤ vec_len out.old + 2 * notes.op_bytes op.now + 8 }
    ensures capacity { vec_capacity out.old ≤ vec_capacity out.new }
{
    match op {
        Op::Get(key) => {
            push_bytes(b" get ", out);
            push_hex(key.as_slice(), out);
        }
        Op::Set(key, value) => {
            push_bytes(b" set ", out);
            push_hex(key.as_slice(), out);
            out.push_reserved(b' ');
            push_hex(value.as_slice(), out);
        }
    }
}

fn push_answered(id: &CallId, answer: &Answer, out: &mut Vec<u8>)
    requires { vec_len out.old + 2 * notes.answer_bytes answer.now + 40 ≤ vec_capacity out.old }
    ensures items { out.new.items ≡ out.old.items ++ item_line (Happened (event.Answer id.now answer.now)) }
    ensures capacity { vec_capacity out.old ≤ vec_capacity out.new }
{
    push_bytes(b"answer ", out);
    push_call(id, out);
    push_answer(answer, out);
    out.push_reserved(b'\n');
}

fn push_answer(answer: &Answer, out: &mut Vec<u8>)
    requires { vec_len out.old + 2 * notes.answer_bytes answer.now + 8 ≤ vec_capacity out.old }
    ensures items { out.new.items ≡ out.old.items ++ more_words (answer_words answer.now) }
    ensures len { vec_len out.new ≤ vec_len out.old + 2 * notes.answer_bytes answer.now + 8 }
    ensures capacity { vec_capacity out.old ≤ vec_capacity out.new }
{
    match answer {
        Answer::Ok => push_bytes(b" ok", out),
        Answer::Nil => push_bytes(b" nil", out),
        Answer::Value(value) => {
            push_bytes(b" value ", out);
            push_hex(value.as_slice(), out);
        }
    }
}
