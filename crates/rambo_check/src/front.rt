//! Calls and answers at the front of a text, read in one pass with no search for the end of the line.
//!
//! What isn't read so is left to who reads lines.
ghost use Rattle.std.specs.Prelude.{◌≡◌, ◌∷◌, ◌++◌, codes, IfSome};
ghost use Rattle.std.specs.Int.{w32, to_le_bytes};
ghost use Rattle.rambo_text.specs.Signs.{IsOp};
ghost use Rattle.rambo_text.specs.Words.{more_words};
ghost use Rattle.rambo_check.specs.Fronts.{BeginsWithItem};
ghost use Rattle.rambo_check.specs.Items.{IsAnswer};
ghost use Rattle.rambo_check.specs.Lines.{Happened, op_words, answer_words};

use rambo_history::{Answer, Event, Op};
use rambo_text::{leading_call, leading_hex};

// The word `call`, the front of `answer`, ` get`, ` set`, ` nil`, the front of ` value`, and ` ok` with its line feed, as
// numbers whose lowest byte is the first.
const CALL: u32 = 0x6c6c_6163;

const ANSWER: u32 = 0x7773_6e61;

const GET: u32 = 0x7465_6720;

const SET: u32 = 0x7465_7320;

const OK: u32 = 0x0a6b_6f20;

const NIL: u32 = 0x6c69_6e20;

const VALUE: u32 = 0x6c61_7620;

/// The call with short bytes, or the answer with none or short ones, that the first line of a text tells, and the text
/// after its line feed.
///
/// None where it has no line feed, or isn't such a line in its only spelling.
#[inline(always)]
pub(crate) fn frequent_event(text: &[u8]) -> Option<(Event, &[u8])>
    ensures { IfSome result (λ found. BeginsWithItem text.now (Happened found.0) found.1.now) }
{
    if let Some(words) = behind_call(text) {
        return first_call(words);
    }
    let words = behind_answer(text)?;
    first_answer(words)
}

// The call that a text tells after its first word.
#[inline(always)]
fn first_call(words: &[u8]) -> Option<(Event, &[u8])>
    ensures { IfSome result (λ found. BeginsWithItem (codes "call " ++ words.now) (Happened found.0) found.1.now) }
{
    let Some((id, behind)) = leading_call(words) else {
        return None;
    };
    let Some(front) = first_op(behind) else {
        return None;
    };
    let (op, rest) = front;
    Some((Event::Call(id, op), rest))
}

// The answer that a text tells after its first word.
#[inline(always)]
fn first_answer(words: &[u8]) -> Option<(Event, &[u8])>
    ensures { IfSome result (λ found. BeginsWithItem (codes "answer " ++ words.now) (Happened found.0) found.1.now) }
{
    let Some((id, behind)) = leading_call(words) else {
        return None;
    };
    let Some(front) = first_answered(behind) else {
        return None;
    };
    let (answer, rest) = front;
    Some((Event::Answer(id, answer), rest))
}

// The operation that a text tells after its call, with the space before it, and the text after the line feed.
#[inline(always)]
fn first_op(text: &[u8]) -> Option<(Op, &[u8])>
    ensures { IfSome result (λ found. IsOp found.0 × (text.now ≡ more_words (op_words found.0) ++ 10 ∷ found.1.now)) }
{
    if let Some(more) = behind_four(text, GET) {
        return first_get(more);
    }
    let more = behind_four(text, SET)?;
    first_set(more)
}

// The get that a text tells after its word.
#[inline(always)]
fn first_get(more: &[u8]) -> Option<(Op, &[u8])>
    ensures { IfSome result (λ found. IsOp found.0 × (codes " get" ++ more.now ≡ more_words (op_words found.0) ++ 10 ∷ found.1.now)) }
{
    let word = behind_byte(more, b' ')?;
    let Some((key, behind)) = leading_hex(word) else {
        return None;
    };
    let rest = behind_byte(behind, b'\n')?;
    Some((Op::Get(key), rest))
}

// The set that a text tells after its word.
#[inline(always)]
fn first_set(more: &[u8]) -> Option<(Op, &[u8])>
    ensures { IfSome result (λ found. IsOp found.0 × (codes " set" ++ more.now ≡ more_words (op_words found.0) ++ 10 ∷ found.1.now)) }
{
    let words = behind_byte(more, b' ')?;
    let Some((key, behind_key)) = leading_hex(words) else {
        return None;
    };
    let word = behind_byte(behind_key, b' ')?;
    let Some((value, behind)) = leading_hex(word) else {
        return None;
    };
    let rest = behind_byte(behind, b'\n')?;
    Some((Op::Set(key, value), rest))
}

// What is answered, as a text tells it after its call, with the space before it, and the text after the line feed.
#[inline(always)]
fn first_answered(text: &[u8]) -> Option<(Answer, &[u8])>
    ensures { IfSome result (λ found. IsAnswer found.0 × (text.now ≡ more_words (answer_words found.0) ++ 10 ∷ found.1.now)) }
{
    if let Some(rest) = behind_four(text, OK) {
        return Some((Answer::Ok, rest));
    }
    if let Some(more) = behind_four(text, VALUE) {
        return first_value(more);
    }
    let more = behind_four(text, NIL)?;
    let rest = behind_byte(more, b'\n')?;
    Some((Answer::Nil, rest))
}

// The value that is answered, as a text tells it after the first three bytes of the word.
#[inline(always)]
fn first_value(more: &[u8]) -> Option<(Answer, &[u8])>
    ensures { IfSome result (λ found. IsAnswer found.0 × (codes " val" ++ more.now ≡ more_words (answer_words found.0) ++ 10 ∷ found.1.now)) }
{
    let word = match more {
        [b'u', b'e', b' ', word @ ..] => word,
        _ => return None,
    };
    let Some((value, behind)) = leading_hex(word) else {
        return None;
    };
    let rest = behind_byte(behind, b'\n')?;
    Some((Answer::Value(value), rest))
}

// What stands behind the word `call` and a space, which a text begins with.
#[inline(always)]
fn behind_call(text: &[u8]) -> Option<&[u8]>
    ensures { IfSome result (λ words. text.now ≡ codes "call " ++ words.now) }
{
    let more = behind_four(text, CALL)?;
    behind_byte(more, b' ')
}

// What stands behind the word `answer` and a space, which a text begins with.
#[inline(always)]
fn behind_answer(text: &[u8]) -> Option<&[u8]>
    ensures { IfSome result (λ words. text.now ≡ codes "answer " ++ words.now) }
{
    match behind_four(text, ANSWER)? {
        [b'e', b'r', b' ', words @ ..] => Some(words),
        _ => None,
    }
}

// What stands behind the four bytes of a number that a text begins with.
#[inline(always)]
fn behind_four(text: &[u8], word: u32) -> Option<&[u8]>
    ensures { IfSome result (λ rest. text.now ≡ to_le_bytes w32 word ++ rest.now) }
{
    let (four, more) = text.split_first_chunk::<4>()?;
    if u32::from_le_bytes(*four) == word {
        Some(more)
    } else {
        None
    }
}

// What stands after a byte that a text begins with.
#[inline(always)]
fn behind_byte(text: &[u8], byte: u8) -> Option<&[u8]>
    ensures { IfSome result (λ rest. text.now ≡ byte ∷ rest.now) }
{
    match text {
        [first, rest @ ..] if *first == byte => Some(rest),
        _ => None,
    }
}
