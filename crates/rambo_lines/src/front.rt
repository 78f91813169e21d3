//! Steps of the most frequent kinds at the front of a text, read in one pass with no search for the end of the line.
//!
//! What isn't read so is left to who reads lines.
ghost use Rattle.std.specs.Prelude.{◌≡◌, ◌∷◌, ◌++◌, codes, IfSome};
ghost use Rattle.std.specs.Int.{w32, w64, to_le_bytes};
ghost use Rattle.rambo_node.specs.declared.step.StepOf.TheVariants as step;
ghost use Rattle.rambo_lines.specs.Fronts.{BeginsWithStep, step_of};

use rambo_history::{CallId, Op};
use rambo_names::Name;
use rambo_text::{leading_call, leading_hex, leading_name, leading_num};

// The words `deliver`, `advance`, `get` and `set` with their spaces, and `send`, as numbers whose lowest byte is the first.
const DELIVER: u64 = 0x2072_6576_696c_6564;

const ADVANCE: u64 = 0x2065_636e_6176_6461;

const SEND: u32 = 0x646e_6573;

const GET: u32 = 0x2074_6567;

const SET: u32 = 0x2074_6573;

/// A step of one of the most frequent kinds that hold no bytes.
#[derive(Clone, Copy, PartialEq, Eq, Debug)]
pub enum Frequent {
    /// A node sends a letter to another.
    Send(Name, Name),
    /// A letter of this number comes to its addressee.
    Deliver(u64),
    /// A call goes on.
    Advance(CallId),
}

/// The step that the first line of a text tells, and the text after its line feed.
///
/// None where it has no line feed, or isn't of one of these kinds in its only spelling.
#[inline(always)]
pub fn frequent_step(text: &[u8]) -> Option<(Frequent, &[u8])>
    ensures { IfSome result (λ found. BeginsWithStep text.now (step_of found.0) found.1.now) }
{
    if let Some(more) = behind_eight(text, DELIVER) {
        return first_delivery(more);
    }
    if let Some(more) = behind_four(text, SEND) {
        return first_sending(more);
    }
    let more = behind_eight(text, ADVANCE)?;
    first_advance(more)
}

/// The call of an operation with short bytes that the first line of a text tells, and the text after its line feed.
///
/// None where it has no line feed, or isn't such a call in its only spelling.
#[inline(always)]
pub fn frequent_call(text: &[u8]) -> Option<(Name, Op, &[u8])>
    ensures { IfSome result (λ found. BeginsWithStep text.now (step.Call found.0 found.1) found.2.now) }
{
    if let Some(more) = behind_four(text, GET) {
        return first_get(more);
    }
    let more = behind_four(text, SET)?;
    first_set(more)
}

// The delivery that a text tells after its first word.
#[inline(always)]
fn first_delivery(more: &[u8]) -> Option<(Frequent, &[u8])>
    ensures { IfSome result (λ found. BeginsWithStep (codes "deliver " ++ more.now) (step_of found.0) found.1.now) }
{
    let (letter, behind) = leading_num(more)?;
    let rest = behind_byte(behind, b'\n')?;
    Some((Frequent::Deliver(letter), rest))
}

// The sending that a text tells after its first word.
#[inline(always)]
fn first_sending(more: &[u8]) -> Option<(Frequent, &[u8])>
    ensures { IfSome result (λ found. BeginsWithStep (codes "send" ++ more.now) (step_of found.0) found.1.now) }
{
    let names = behind_byte(more, b' ')?;
    let Some(sender) = leading_name(names) else {
        return None;
    };
    let (from, behind_from) = sender;
    let name = behind_byte(behind_from, b' ')?;
    let Some(addressee) = leading_name(name) else {
        return None;
    };
    let (to, behind) = addressee;
    let rest = behind_byte(behind, b'\n')?;
    Some((Frequent::Send(from, to), rest))
}

// The advance of a call that a text tells after its first word.
#[inline(always)]
fn first_advance(more: &[u8]) -> Option<(Frequent, &[u8])>
    ensures { IfSome result (λ found. BeginsWithStep (codes "advance " ++ more.now) (step_of found.0) found.1.now) }
{
    let Some((id, behind)) = leading_call(more) else {
        return None;
    };
    let rest = behind_byte(behind, b'\n')?;
    Some((Frequent::Advance(id), rest))
}

// The get that a text tells after its first word.
#[inline(always)]
fn first_get(more: &[u8]) -> Option<(Name, Op, &[u8])>
    ensures { IfSome result (λ found. BeginsWithStep (codes "get " ++ more.now) (step.Call found.0 found.1) found.2.now) }
{
    let Some(front) = leading_name(more) else {
        return None;
    };
    let (name, behind_name) = front;
    let word = behind_byte(behind_name, b' ')?;
    let Some((key, behind)) = leading_hex(word) else {
        return None;
    };
    let rest = behind_byte(behind, b'\n')?;
    Some((name, Op::Get(key), rest))
}

// The set that a text tells after its first word.
#[inline(always)]
fn first_set(more: &[u8]) -> Option<(Name, Op, &[u8])>
    ensures { IfSome result (λ found. BeginsWithStep (codes "set " ++ more.now) (step.Call found.0 found.1) found.2.now) }
{
    let Some(front) = leading_name(more) else {
        return None;
    };
    let (name, behind_name) = front;
    let words = behind_byte(behind_name, b' ')?;
    let Some((key, behind_key)) = leading_hex(words) else {
        return None;
    };
    let word = behind_byte(behind_key, b' ')?;
    let Some((value, behind)) = leading_hex(word) else {
        return None;
    };
    let rest = behind_byte(behind, b'\n')?;
    Some((name, Op::Set(key, value), rest))
}

// What stands behind the eight bytes of a number that a text begins with.
#[inline(always)]
fn behind_eight(text: &[u8], word: u64) -> Option<&[u8]>
    ensures { IfSome result (λ rest. text.now ≡ to_le_bytes w64 word ++ rest.now) }
{
    let (eight, more) = text.split_first_chunk::<8>()?;
    if u64::from_le_bytes(*eight) == word {
        Some(more)
    } else {
        None
    }
}

// What stands behind the four bytes of a number that a text begins with.
#[inline(always)]
fn behind_four(text: &[u8], word: u32) -> Option<&[u8]>
    ensures { IfSome result (λ rest. text.now ≡ to_le_bytes w32 word ++ rest.now) }
{
    let (four, more) = text.split_first_chunk::<4>()?;
    if u32::from_le_bytes(*four) == word {
        Some(more)
    } else {
        None
    }
}

// What stands after a byte that a text begins with.
#[inline(always)]
fn behind_byte(text: &[u8], byte: u8) -> Option<&[u8]>
    ensures { IfSome result (λ rest. text.now ≡ byte ∷ rest.now) }
{
    match text {
        [first, rest @ ..] if *first == byte => Some(rest),
        _ => None,
    }
}
