//! Reading signs.
ghost use Rattle.std.specs.Prelude.{◌≡◌, ◌≢◌, ◌⊎◌, ℕ, List, [], ◌∷◌, ◌++◌, length, take, ◌<◌, ◌≤◌, ◌/◌, ◌%◌, decimal, Option, IfSome, IfNone, IfOk, IfErr};
ghost use Rattle.rambo_names.specs.Names.{IsName};
ghost use Rattle.rambo_names.specs.Weights.{Weights};
ghost use Rattle.rambo_history.specs.declared.event.CallId.{CallId};
ghost use Rattle.rambo_text.specs.Signs.{digit_of, pairs_text, hex_text, call_text, standing_text, IsCall, AreBytes, HasNoPair};

use crate::fault::Fault;
use crate::lanes::bytes_of;
use crate::leading::{leading_call, leading_name};
use crate::numbers::number_of;
use rambo_history::CallId;
use rambo_names::{Bytes, Name, Weighted, read_conf};
use std::alloc::Global;

/// The name that a word spells: a number from 1 to 64 in plain decimal.
///
/// None where it spells no name.
pub fn read_name(word: &[u8]) -> Option<Name>
    ensures found { IfSome result (λ n. IsName n × (word.now ≡ decimal n)) }
    ensures none { IfNone result ((n : ℕ) → IsName n → word.now ≢ decimal n) }
{
    let Some(front) = leading_name(word) else {
        return None;
    };
    let (name, rest) = front;
    if rest.is_empty() { Some(name) } else { None }
}

/// The call that a word spells: a name, a dot, and a number from 1, both in plain decimal.
///
/// None where it spells no call.
pub fn read_call(word: &[u8]) -> Option<CallId>
    ensures found { IfSome result (λ c. IsCall c × (word.now ≡ call_text c)) }
    ensures none { IfNone result ((c : CallId) → IsCall c → word.now ≢ call_text c) }
{
    let Some((call, rest)) = leading_call(word) else {
        return None;
    };
    if rest.is_empty() { Some(call) } else { None }
}

/// What a word says of a place: the configuration there, or none for the word `removed`.
///
/// None where it says neither.
pub fn read_standing(word: &[u8]) -> Option<Option<Weighted>>
    ensures found { IfSome result (λ conf. word.now ≡ standing_text conf) }
    ensures none { IfNone result ((conf : Option Weights) → word.now ≢ standing_text conf) }
{
    if word == b"removed".as_slice() {
        return Some(None);
    }
    read_conf(word).map(Some)
}

/// The bytes that a word spells: pairs of digits, `0` to `9` and `a` to `f`, or a dash for no bytes.
///
/// `BadHex` where it spells no bytes, and `OutOfMemory` where there is no room for them.
pub fn read_hex(alloc: Global, word: &[u8]) -> Result<Bytes, Fault>
    ensures found { IfOk result (λ bs. AreBytes bs × (word.now ≡ hex_text bs)) }
    ensures fault { IfErr result (λ f. (f ≡ Fault.OutOfMemory)
        ⊎ ((f ≡ Fault.BadHex) × ((bs : List ℕ) → AreBytes bs → word.now ≢ hex_text bs))) }
{
    if word == b"-".as_slice() {
        return Ok(Bytes::short([0; Bytes::SHORT], 0));
    }
    if word.is_empty() {
        return Err(Fault::BadHex);
    }
    if word.len() <= 2 * Bytes::SHORT {
        return read_short(word);
    }
    shared(read_pairs(alloc, word)?)
}

// At most 15 bytes that pairs of digits spell. They allocate nothing.
fn read_short(word: &[u8]) -> Result<Bytes, Fault>
    requires { length word.now ≤ 30 }
    ensures found { IfOk result (λ bs. AreBytes bs × (word.now ≡ pairs_text bs)) }
    ensures fault { IfErr result (λ f. (f ≡ Fault.BadHex) × ((bs : List ℕ) → AreBytes bs → word.now ≢ pairs_text bs)) }
{
    let mut bytes = [0; Bytes::SHORT];
    let (length, rest) = short_front(word, &mut bytes);
    if rest.is_empty() {
        Ok(Bytes::short(bytes, length))
    } else {
        Err(Fault::BadHex)
    }
}

/// The bytes, at most 15 and one at least, that pairs of digits at the front of a line spell, as many as there are, and
/// what stands after them. They allocate nothing.
///
/// None where no pair of digits stands at the front.
#[inline(always)]
pub fn leading_hex(line: &[u8]) -> Option<(Bytes, &[u8])>
    ensures bytes { IfSome result (λ r. AreBytes r.0 × (length r.0 ≤ 15)) }
    ensures found { IfSome result (λ r. line.now ≡ hex_text r.0 ++ r.1.now) }
    ensures none { IfNone result (HasNoPair line.now) }
{
    let mut bytes = [0; Bytes::SHORT];
    let (length, rest) = short_front(line, &mut bytes);
    if length == 0 {
        return None;
    }
    Some((Bytes::short(bytes, length), rest))
}

// Puts the bytes that pairs of digits at the front of a text spell, as many as there are, but at most 15, at the front of
// others: how many they are, and what stands behind the digits.
#[inline(always)]
fn short_front<'a>(text: &'a [u8], bytes: &mut [u8; Bytes::SHORT]) -> (usize, &'a [u8])
    ensures few { (result.0 ≤ 15) × (length (take result.0 bytes.new) ≡ result.0) }
    ensures bytes { AreBytes (take result.0 bytes.new) }
    ensures whole { text.now ≡ pairs_text (take result.0 bytes.new) ++ result.1.now }
    ensures all { (result.0 ≡ 15) ⊎ HasNoPair result.1.now }
{
    let mut length = 0;
    let mut rest = text;
    while length < Bytes::SHORT {
        let Some((byte, others)) = first_byte(rest) else {
            return (length, rest);
        };
        bytes[length] = byte;
        length += 1;
        rest = others;
    }
    (length, rest)
}

// The bytes of a buffer.
fn shared(items: Vec<u8>) -> Result<Bytes, Fault>
    ensures bytes { IfOk result (λ bs. bs ≡ items.items) }
    ensures fault { IfErr result (λ f. f ≡ Fault.OutOfMemory) }
{
    Bytes::from_vec(items).map_err(|_| Fault::OutOfMemory)
}

// The bytes that pairs of digits spell.
fn read_pairs(alloc: Global, word: &[u8]) -> Result<Vec<u8>, Fault>
    ensures found { IfOk result (λ bs. AreBytes bs.items × (word.now ≡ pairs_text bs.items)) }
    ensures fault { IfErr result (λ f. (f ≡ Fault.OutOfMemory)
        ⊎ ((f ≡ Fault.BadHex) × ((bs : List ℕ) → AreBytes bs → word.now ≢ pairs_text bs))) }
{
    let mut bytes = Vec::with_capacity(alloc, word.len() / 2)?;
    let mut rest = word;
    while let Some((digits, others)) = rest.split_first_chunk::<32>() {
        let Some(sixteen) = bytes_of(digits) else {
            return Err(Fault::BadHex);
        };
        bytes.extend_from_slice(&sixteen)?;
        rest = others;
    }
    while let Some((byte, others)) = first_byte(rest) {
        bytes.push_reserved(byte);
        rest = others;
    }
    if rest.is_empty() {
        Ok(bytes)
    } else {
        Err(Fault::BadHex)
    }
}

// The byte of the pair of digits at the front of a text, and what stands after it.
#[inline(always)]
fn first_byte(text: &[u8]) -> Option<(u8, &[u8])>
    ensures found { IfSome result (λ r. (r.0 < 256) × (text.now ≡ pairs_text (r.0 ∷ []) ++ r.1.now)) }
    ensures none { IfNone result (HasNoPair text.now) }
{
    match text {
        [high, low, rest @ ..] => {
            let byte = byte_of(*high, *low)?;
            Some((byte, rest))
        }
        _ => None,
    }
}

// The byte of two digits.
fn byte_of(high: u8, low: u8) -> Option<u8>
    ensures found { IfSome result (λ b. (b < 256) × (high ≡ digit_of (b / 16)) × (low ≡ digit_of (b % 16))) }
    ensures none { IfNone result ((b : ℕ) → b < 256 → high ≡ digit_of (b / 16) → low ≢ digit_of (b % 16)) }
{
    let high = number_of(high)?;
    let low = number_of(low)?;
    Some(high * 16 + low)
}
