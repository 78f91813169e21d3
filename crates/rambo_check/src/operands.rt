//! Reading the words that follow the first of a line.
ghost use Rattle.std.specs.Prelude.{◌≡◌, ◌≢◌, ◌⊎◌, ℕ, ◌<◌, [], ◌∷◌, List, Option, MatchOption, map, All, length, IfOk, IfErr, IfSome, IfNone, OnOk};
ghost use Rattle.std.specs.Option.{option_copied};
ghost use Rattle.rambo_names.specs.Weights.{Weights};
ghost use Rattle.rambo_names.specs.Signs.{conf_text};
ghost use Rattle.rambo_history.specs.declared.event.CallId.{CallId};
ghost use Rattle.rambo_text.specs.declared.fault.Fault.TheVariants as fault;
ghost use Rattle.rambo_text.specs.Forms.{Num, Name, Conf, Call, Hex};
ghost use Rattle.rambo_text.specs.Signs.{call_text, hex_text, IsCall, AreBytes};
ghost use Rattle.rambo_text.specs.Words.{AreMore, IsFirstWord};
ghost use Rattle.rambo_check.specs.Plans.{Forms, each, FollowCalls, IsFaulty};

use rambo_history::CallId;
use rambo_names::{Bytes, read_conf};
use rambo_text::{Fault, leading_call, next_word, one_word, read_call, read_hex, two_words};
use std::alloc::Global;

/// The first two words that follow, and what follows them.
///
/// None where there are fewer.
pub(crate) fn first_two(more: Option<&[u8]>) -> Option<(&[u8], &[u8], Option<&[u8]>)>
    ensures found { IfSome result (λ r. (words : List (List ℕ)) → AreMore (option_copied r.2) words
        → AreMore (option_copied more.entry) (r.0.now ∷ r.1.now ∷ words)) }
    ensures none { IfNone result ((words : List (List ℕ)) × AreMore (option_copied more.entry) words × (length words < 2)) }
{
    let (first, more) = next_word(more?);
    let (second, more) = next_word(more?);
    Some((first, second, more))
}

/// A call, with nothing after it.
pub(crate) fn read_call_alone(id: &[u8], more: Option<&[u8]>) -> Result<CallId, Fault>
    ensures call { IfOk result (λ c. IsCall c × (id.now ≡ call_text c)) }
    ensures none { OnOk result (AreMore (option_copied more.entry) []) }
    ensures fault { IfErr result (IsFaulty (λ ws. Forms (Call ∷ []) (id.now ∷ ws)) (option_copied more.entry)) }
{
    if more.is_some() {
        return Err(Fault::WrongCount);
    }
    read_call(id).ok_or(Fault::BadNumber)
}

/// A call, and the bytes after it.
///
/// `OutOfMemory` where there is no room for the bytes, and no fault comes before them.
pub(crate) fn read_call_and_bytes(
    alloc: Global,
    id: &[u8],
    more: Option<&[u8]>,
) -> Result<(CallId, Bytes), Fault>
    ensures call { IfOk result (λ r. IsCall r.0 × (id.now ≡ call_text r.0)) }
    ensures bytes { IfOk result (λ r. AreBytes r.1 × AreMore (option_copied more.entry) (hex_text r.1 ∷ [])) }
    ensures fault { IfErr result (IsFaulty (λ ws. Forms (Call ∷ Hex ∷ []) (id.now ∷ ws)) (option_copied more.entry)) }
{
    let Some(bytes) = one_word(more) else {
        return Err(Fault::WrongCount);
    };
    let Some(id) = read_call(id) else {
        return Err(Fault::BadNumber);
    };
    let bytes = read_hex(alloc, bytes)?;
    Ok((id, bytes))
}

/// A call, and the two spellings of bytes after it.
///
/// `OutOfMemory` where there is no room for the bytes, and no fault comes before them.
pub(crate) fn read_call_and_pair(
    alloc: Global,
    id: &[u8],
    more: Option<&[u8]>,
) -> Result<(CallId, Bytes, Bytes), Fault>
    ensures call { IfOk result (λ r. IsCall r.0 × (id.now ≡ call_text r.0)) }
    ensures bytes { IfOk result (λ r. AreBytes r.1 × AreBytes r.2 × AreMore (option_copied more.entry) (hex_text r.1 ∷ hex_text r.2 ∷ [])) }
    ensures fault { IfErr result (IsFaulty (λ ws. Forms (Call ∷ Hex ∷ Hex ∷ []) (id.now ∷ ws)) (option_copied more.entry)) }
{
    let Some((first, second)) = two_words(more) else {
        return Err(Fault::WrongCount);
    };
    let Some(id) = read_call(id) else {
        return Err(Fault::BadNumber);
    };
    let first = read_hex(alloc, first)?;
    let second = read_hex(alloc, second)?;
    Ok((id, first, second))
}

/// Any number of calls.
///
/// `OutOfMemory` where there is no room for a call, and no fault comes before it.
#[inline(always)]
pub(crate) fn read_calls(alloc: Global, more: Option<&[u8]>) -> Result<Vec<CallId>, Fault>
    ensures calls { IfOk result (λ cs. All IsCall cs.items × AreMore (option_copied more.entry) (map call_text cs.items)) }
    ensures fault { IfErr result (λ f. ((f ≡ fault.OutOfMemory) × FollowCalls (option_copied more.entry))
        ⊎ IsFaulty (λ ws. Forms (each Call ws) ws) (option_copied more.entry) f) }
{
    let mut calls = Vec::new(alloc);
    let mut more = more;
    while let Some(rest) = more {
        let Some((id, others)) = next_call(rest) else {
            return Err(Fault::BadNumber);
        };
        calls.push(id)?;
        more = others;
    }
    Ok(calls)
}

// The call that is the first word of a line, and what follows the space after it.
//
// None where the first word is no call.
#[inline(always)]
fn next_call(line: &[u8]) -> Option<(CallId, Option<&[u8]>)>
    ensures found { IfSome result (λ r. IsCall r.0 × IsFirstWord line.now (call_text r.0) (option_copied r.1)) }
    ensures none { IfNone result ((c : CallId) (more : Option (List ℕ)) → IsCall c → ¬ (IsFirstWord line.now (call_text c) more)) }
{
    let Some((id, behind)) = leading_call(line) else {
        return None;
    };
    let more = behind_word(behind)?;
    Some((id, more))
}

// What follows a word and the space after it, where the word ends where this text begins: none at the end of the text.
//
// None where the word doesn't end there.
#[inline(always)]
fn behind_word(text: &[u8]) -> Option<Option<&[u8]>>
    ensures found { IfSome result (λ more. MatchOption (option_copied more) (text.now ≡ []) (λ rest. text.now ≡ 32 ∷ rest)) }
    ensures none { IfNone result ((text.now ≢ []) × ((rest : List ℕ) → text.now ≢ 32 ∷ rest)) }
{
    match text {
        [] => Some(None),
        [b' ', rest @ ..] => Some(Some(rest)),
        _ => None,
    }
}

/// Any number of configurations.
pub(crate) fn read_confs(more: Option<&[u8]>) -> Result<(), Fault>
    ensures confs { OnOk result ((confs : List Weights) × AreMore (option_copied more.entry) (map conf_text confs)) }
    ensures fault { IfErr result (IsFaulty (λ ws. Forms (each Conf ws) ws) (option_copied more.entry)) }
{
    let mut more = more;
    while let Some(rest) = more {
        let (word, others) = next_word(rest);
        let Some(_conf) = read_conf(word) else {
            return Err(Fault::BadNumber);
        };
        more = others;
    }
    Ok(())
}
