//! The sign of a configuration: its members with their weights.
ghost use Rattle.std.specs.Prelude.{◌≡◌, ◌≢◌, ◌+◌, ◌++◌, ℕ, List, ◌<◌, ◌≤◌, decimal, IfSome, IfNone, MatchBool, MatchOption, OnOk, OnErr, IfErr};
ghost use Rattle.rambo_names.specs.Signs.{conf_text, member_text, weight_text, before, IsConf, IsEnd, IsWeight};
ghost use Rattle.rambo_names.specs.Weights.{Weights};

use crate::members::Members;
use crate::name::Name;
use crate::quorums::Quorums;
use crate::refusal::Refusal;
use crate::signs::leading_num;
use crate::weighted::Weighted;
use itoa::Buffer;
use std::alloc::{AllocError, Allocator};

/// The configuration that the bytes spell: `-` for the one with no member, else its members in strictly ascending
/// order, joined by commas. A member is its name, 1 to 64 in plain decimal, then a colon and its weight, 2 to 15. The
/// colon and the weight are left out where that is 1.
///
/// None where they spell no configuration.
pub fn read_conf(bytes: &[u8]) -> Option<Weighted>
    ensures found { IfSome result (λ c. bytes.now ≡ conf_text c) }
    ensures names { IfSome result (λ c. IsConf c) }
    ensures none { IfNone result ((c : Weights) → bytes.now ≢ conf_text c) }
{
    let mut conf = Weighted::of(Members::empty());
    if bytes == b"-".as_slice() {
        return Some(conf);
    }
    let mut first = true;
    let mut rest = bytes;
    for place in 0u32..64 {
        if let Some((weight, others)) = after_member(rest, first, place) {
            conf.put(Name::at(place), weight);
            first = false;
            rest = others;
        }
    }
    if first || !rest.is_empty() {
        None
    } else {
        Some(conf)
    }
}

// The weight of a member, and what follows it, where the text begins with it, with a comma before it unless it is the
// first.
fn after_member(text: &[u8], first: bool, place: u32) -> Option<(u8, &[u8])>
    requires { place < 64 }
    ensures found { IfSome result (λ r. IsWeight r.0 × (text.now ≡ before first ++ member_text (place + 1) r.0 ++ r.1.now) × IsEnd r.1.now) }
    ensures none { IfNone result ((w : ℕ) (r : List ℕ) → IsWeight w → IsEnd r → text.now ≢ before first ++ member_text (place + 1) w ++ r) }
{
    let Some(begun) = after_comma(text, first) else {
        return None;
    };
    let mut buffer = Buffer::new();
    let Some(behind) = after_front(begun, buffer.format(place + 1).as_bytes()) else {
        return None;
    };
    after_weight(behind)
}

fn after_comma(text: &[u8], first: bool) -> Option<&[u8]>
    ensures found { IfSome result (λ r. text.now ≡ before first ++ r.now) }
    ensures none { IfNone result ((r : List ℕ) → text.now ≢ before first ++ r) }
{
    if first {
        return Some(text);
    }
    match text {
        [b',', rest @ ..] => Some(rest),
        _ => None,
    }
}

fn after_front<'a>(text: &'a [u8], front: &[u8]) -> Option<&'a [u8]>
    ensures { MatchOption result ((r : List ℕ) → text.now ≢ front.now ++ r) (λ r. text.now ≡ front.now ++ r.now) }
{
    text.strip_prefix(front)
}

// The weight after a name, and what follows it.
fn after_weight(text: &[u8]) -> Option<(u8, &[u8])>
    ensures found { IfSome result (λ r. IsWeight r.0 × (text.now ≡ weight_text r.0 ++ r.1.now) × IsEnd r.1.now) }
    ensures none { IfNone result ((w : ℕ) (r : List ℕ) → IsWeight w → IsEnd r → text.now ≢ weight_text w ++ r) }
{
    match text {
        [b':', digits @ ..] => written_weight(digits),
        _ => { if ends(text) { Some((1, text)) } else { None } }
    }
}

// The weight whose digits these are, 2 to 15, and what follows it.
fn written_weight(digits: &[u8]) -> Option<(u8, &[u8])>
    ensures found { IfSome result (λ r. (2 ≤ r.0) × (r.0 ≤ 15) × (digits.now ≡ decimal r.0 ++ r.1.now) × IsEnd r.1.now) }
    ensures none { IfNone result ((w : ℕ) (r : List ℕ) → 2 ≤ w → w ≤ 15 → IsEnd r → digits.now ≢ decimal w ++ r) }
{
    let (weight, rest) = leading_num(digits)?;
    if 2 <= weight && weight <= 15 && ends(rest) {
        Some((weight as u8, rest))
    } else {
        None
    }
}

// Whether a member may end before a text.
fn ends(text: &[u8]) -> bool
    ensures { MatchBool result (IsEnd text.now) (¬ (IsEnd text.now)) }
{
    match text.split_first() {
        None => true,
        Some((byte, _)) => *byte == b',',
    }
}

/// Appends the one spelling of a configuration: `-` where it has no member, else its members in ascending order, joined
/// by commas. A member is its name in plain decimal, then a colon and its weight, which are left out where that is 1.
///
/// `OutOfMemory` where the text can't grow; it is then unchanged.
pub fn write_conf<A: Allocator>(conf: &Weighted, out: &mut Vec<u8, A>) -> Result<(), Refusal>
    ensures ok { OnOk result (out.new.items ≡ out.old.items ++ conf_text conf.now) }
    ensures err { OnErr result (out.new.items ≡ out.old.items) }
    ensures refused { IfErr result (λ r. r ≡ Refusal.OutOfMemory) }
{
    let before = out.len();
    let written = append_conf(conf, out);
    if written.is_err() {
        out.truncate(before);
    }
    written
}

// Appends the text of a configuration, or after a refusal a prefix of it.
fn append_conf<A: Allocator>(conf: &Weighted, out: &mut Vec<u8, A>) -> Result<(), Refusal>
    ensures ok { OnOk result (out.new.items ≡ out.old.items ++ conf_text conf.now) }
    ensures err { OnErr result ((more : List ℕ) × (out.new.items ≡ out.old.items ++ more)) }
    ensures refused { IfErr result (λ r. r ≡ Refusal.OutOfMemory) }
{
    let mut first = true;
    for name in conf.members().iter() {
        if !first {
            out.push(b',')?;
        }
        first = false;
        append_member(name, conf.weight(name), out)?;
    }
    if first {
        out.push(b'-')?;
    }
    Ok(())
}

// Appends the text of a member, or after a refusal a prefix of it.
fn append_member<A: Allocator>(name: Name, weight: u8, out: &mut Vec<u8, A>) -> Result<(), Refusal>
    ensures ok { OnOk result (out.new.items ≡ out.old.items ++ member_text name weight) }
    ensures err { OnErr result ((more : List ℕ) × (out.new.items ≡ out.old.items ++ more)) }
    ensures refused { IfErr result (λ r. r ≡ Refusal.OutOfMemory) }
{
    append_number(name.number(), out)?;
    if weight != 1 {
        out.push(b':')?;
        append_number(weight.into(), out)?;
    }
    Ok(())
}

// Appends a number in plain decimal.
fn append_number<A: Allocator>(number: u64, out: &mut Vec<u8, A>) -> Result<(), Refusal>
    ensures ok { OnOk result (out.new.items ≡ out.old.items ++ decimal number) }
    ensures err { OnErr result (out.new.items ≡ out.old.items) }
    ensures refused { IfErr result (λ r. r ≡ Refusal.OutOfMemory) }
{
    let mut buffer = Buffer::new();
    out.extend_from_slice(buffer.format(number).as_bytes())?;
    Ok(())
}
