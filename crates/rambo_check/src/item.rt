//! Reading a line.
ghost use Rattle.std.specs.Prelude.{◌≡◌, false, ◌∷◌, codes, IfOk, IfErr, OnOk, ◌⊎◌};
ghost use Rattle.std.specs.Option.{option_copied};
ghost use Rattle.std.specs.Str.{bytes_eq};
ghost use Rattle.rambo_text.specs.declared.fault.Fault.TheVariants as fault;
ghost use Rattle.rambo_check.specs.Lines.{Item, Happened, Ordered, OrderedAll};
ghost use Rattle.rambo_check.specs.Items.{IsSpelling, IsPassed};
ghost use Rattle.rambo_check.specs.Plans.{call_plan, answer_plan, collected_plan, decided_plan, refused_plan, sequence_plan, order_plan, map_plan, tells_order, plan, FollowCalls, TellsBytesOrCalls, IsFaulty, IsLineFault};
ghost use Rattle.rambo_check.specs.Readings.{IsLineOf};

use crate::kept::Kept;
use crate::operands::{
    first_two, read_call_alone, read_call_and_bytes, read_call_and_pair, read_calls, read_confs,
};
use crate::order::Order;
use rambo_history::{Answer, Event, Op};
use rambo_names::{Bytes, read_num};
use rambo_text::{
    Fault, Version, next_word, read_hex, read_name, read_standing, three_words, two_words,
};
use std::alloc::Global;

/// What is kept of a line of a text of this version.
///
/// The first fault of the line: `UnknownWord`, then `WrongCount`, then `BadNumber` or `BadHex` at the first word that
/// isn't in its form; `OutOfMemory` where there is no room for its bytes or calls, and no fault comes before these.
pub(crate) fn read_line(alloc: Global, version: Version, line: &[u8]) -> Result<Kept, Fault>
    ensures kept { IfOk result (IsLineOf version line.now) }
    ensures fault { IfErr result (λ f. ((f ≡ fault.OutOfMemory) × TellsBytesOrCalls version line.now) ⊎ IsLineFault version line.now f) }
{
    let (first, more) = next_word(line);
    if first == b"call".as_slice() {
        return Ok(Kept::Happened(read_called(alloc, more)?));
    }
    if first == b"answer".as_slice() {
        return Ok(Kept::Happened(read_answered(alloc, more)?));
    }
    if first == b"sequence".as_slice() {
        let (key, order) = read_sequence(alloc, more)?;
        return Ok(Kept::Ordered(key, order));
    }
    if tells_order(version, first) {
        return Ok(Kept::OrderedAll(read_order(alloc, more)?));
    }
    read_passed(version, first, more)?;
    Ok(Kept::Nothing)
}

// Whether a line with this first word tells an order of the calls of all keys.
fn tells_order(version: Version, first: &[u8]) -> bool
    ensures { result ≡ tells_order version first.now }
{
    match version {
        Version::One => false,
        Version::Two => first == b"order".as_slice(),
    }
}

// Reads a line of which nothing is kept.
fn read_passed(version: Version, first: &[u8], more: Option<&[u8]>) -> Result<(), Fault>
    requires call { bytes_eq first.now (codes "call") ≡ false }
    requires answer { bytes_eq first.now (codes "answer") ≡ false }
    requires sequence { bytes_eq first.now (codes "sequence") ≡ false }
    requires order { tells_order version first.now ≡ false }
    ensures spelt { OnOk result ((i : Item) × IsPassed i × IsSpelling first.now (option_copied more.entry) i) }
    ensures fault { IfErr result (IsFaulty (λ words. plan version (first.now ∷ words)) (option_copied more.entry)) }
{
    if first == b"collected".as_slice() {
        return read_collected(more);
    }
    if first == b"decided".as_slice() {
        return read_decided(more);
    }
    if first == b"refused".as_slice() {
        return read_refused(more);
    }
    if first == b"map".as_slice() {
        return read_map(more);
    }
    Err(Fault::UnknownWord)
}

fn read_called(alloc: Global, more: Option<&[u8]>) -> Result<Event, Fault>
    ensures event { IfOk result (λ e. IsSpelling (codes "call") (option_copied more.entry) (Happened e)) }
    ensures fault { IfErr result (IsFaulty call_plan (option_copied more.entry)) }
{
    let Some((id, kind, more)) = first_two(more) else {
        return Err(Fault::WrongCount);
    };
    if kind == b"get".as_slice() {
        let (id, key) = read_call_and_bytes(alloc, id, more)?;
        return Ok(Event::Call(id, Op::Get(key)));
    }
    if kind == b"set".as_slice() {
        let (id, key, value) = read_call_and_pair(alloc, id, more)?;
        return Ok(Event::Call(id, Op::Set(key, value)));
    }
    Err(Fault::UnknownWord)
}

fn read_answered(alloc: Global, more: Option<&[u8]>) -> Result<Event, Fault>
    ensures event { IfOk result (λ e. IsSpelling (codes "answer") (option_copied more.entry) (Happened e)) }
    ensures fault { IfErr result (IsFaulty answer_plan (option_copied more.entry)) }
{
    let Some((id, kind, more)) = first_two(more) else {
        return Err(Fault::WrongCount);
    };
    if kind == b"ok".as_slice() {
        return Ok(Event::Answer(read_call_alone(id, more)?, Answer::Ok));
    }
    if kind == b"nil".as_slice() {
        return Ok(Event::Answer(read_call_alone(id, more)?, Answer::Nil));
    }
    if kind == b"value".as_slice() {
        let (id, value) = read_call_and_bytes(alloc, id, more)?;
        return Ok(Event::Answer(id, Answer::Value(value)));
    }
    Err(Fault::UnknownWord)
}

fn read_collected(more: Option<&[u8]>) -> Result<(), Fault>
    ensures spelt { OnOk result ((i : Item) × IsPassed i × IsSpelling (codes "collected") (option_copied more.entry) i) }
    ensures fault { IfErr result (IsFaulty collected_plan (option_copied more.entry)) }
{
    let Some((name, place)) = two_words(more) else {
        return Err(Fault::WrongCount);
    };
    let Some(_name) = read_name(name) else {
        return Err(Fault::BadNumber);
    };
    let Some(_place) = read_num(place) else {
        return Err(Fault::BadNumber);
    };
    Ok(())
}

fn read_decided(more: Option<&[u8]>) -> Result<(), Fault>
    ensures spelt { OnOk result ((i : Item) × IsPassed i × IsSpelling (codes "decided") (option_copied more.entry) i) }
    ensures fault { IfErr result (IsFaulty decided_plan (option_copied more.entry)) }
{
    let Some((name, place, standing)) = three_words(more) else {
        return Err(Fault::WrongCount);
    };
    let Some(_name) = read_name(name) else {
        return Err(Fault::BadNumber);
    };
    let Some(_place) = read_num(place) else {
        return Err(Fault::BadNumber);
    };
    let Some(_conf) = read_standing(standing) else {
        return Err(Fault::BadNumber);
    };
    Ok(())
}

fn read_refused(more: Option<&[u8]>) -> Result<(), Fault>
    ensures spelt { OnOk result ((i : Item) × IsPassed i × IsSpelling (codes "refused") (option_copied more.entry) i) }
    ensures fault { IfErr result (IsFaulty refused_plan (option_copied more.entry)) }
{
    let Some((step, number)) = two_words(more) else {
        return Err(Fault::WrongCount);
    };
    let Some(_step) = read_num(step) else {
        return Err(Fault::BadNumber);
    };
    let Some(_number) = read_num(number) else {
        return Err(Fault::BadNumber);
    };
    Ok(())
}

fn read_sequence(alloc: Global, more: Option<&[u8]>) -> Result<(Bytes, Order), Fault>
    ensures spelt { IfOk result (λ s. IsSpelling (codes "sequence") (option_copied more.entry) (Ordered (record { key = s.0; calls = s.1 }))) }
    ensures fault { IfErr result (IsFaulty sequence_plan (option_copied more.entry)) }
{
    let Some(rest) = more else {
        return Err(Fault::WrongCount);
    };
    let (key, more) = next_word(rest);
    let key = read_hex(alloc, key)?;
    let calls = read_calls(alloc, more)?;
    Ok((key, Order { calls }))
}

fn read_order(alloc: Global, more: Option<&[u8]>) -> Result<Order, Fault>
    ensures spelt { IfOk result (λ order. IsSpelling (codes "order") (option_copied more.entry) (OrderedAll order)) }
    ensures fault { IfErr result (λ f. ((f ≡ fault.OutOfMemory) × FollowCalls (option_copied more.entry)) ⊎ IsFaulty order_plan (option_copied more.entry) f) }
{
    let calls = read_calls(alloc, more)?;
    Ok(Order { calls })
}

fn read_map(more: Option<&[u8]>) -> Result<(), Fault>
    ensures spelt { OnOk result ((i : Item) × IsPassed i × IsSpelling (codes "map") (option_copied more.entry) i) }
    ensures fault { IfErr result (IsFaulty map_plan (option_copied more.entry)) }
{
    let Some((name, floor, more)) = first_two(more) else {
        return Err(Fault::WrongCount);
    };
    if more.is_none() {
        return Err(Fault::WrongCount);
    }
    let Some(_name) = read_name(name) else {
        return Err(Fault::BadNumber);
    };
    let Some(_floor) = read_num(floor) else {
        return Err(Fault::BadNumber);
    };
    read_confs(more)
}
