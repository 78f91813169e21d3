//! The text of verdicts.
ghost use Rattle.std.specs.Prelude.{◌≡◌, ◌++◌, [], ◌∷◌, Some, IfOk, IfErr, OnOk};
ghost use Rattle.rambo_text.specs.Words.{words_text};
ghost use Rattle.rambo_check.specs.Verdicts.{is_yes, all_yes, yes_to_all, verdict_words, verdicts_text, order_verdict_text};

use indexmap::IndexMap;
use rambo_atomic::Verdict;
use rambo_names::{Bytes, Refusal};
use rambo_text::{write_hex, write_num};
use std::alloc::Global;

/// A line for each verdict, and one for that on the order of all keys, where there is one.
///
/// `OutOfMemory` where there is no room for them.
pub(crate) fn verdict_lines(
    alloc: Global,
    verdicts: &IndexMap<Bytes, Verdict>,
    on_all: Option<Verdict>,
) -> Result<Vec<u8>, Refusal>
    ensures text { IfOk result (λ text. text.items ≡ verdicts_text verdicts.now.entries ++ order_verdict_text on_all) }
    ensures refused { IfErr result (λ r. r ≡ Refusal.OutOfMemory) }
{
    let mut lines = verdict_text(alloc, verdicts)?;
    if let Some(verdict) = on_all {
        write_order_verdict(verdict, &mut lines)?;
    }
    Ok(lines)
}

// A line for each verdict.
fn verdict_text(alloc: Global, verdicts: &IndexMap<Bytes, Verdict>) -> Result<Vec<u8>, Refusal>
    ensures text { IfOk result (λ text. text.items ≡ verdicts_text verdicts.now.entries) }
    ensures refused { IfErr result (λ r. r ≡ Refusal.OutOfMemory) }
{
    let mut out = Vec::new(alloc);
    let mut rest = verdicts.as_slice();
    while let Some(((key, verdict), others)) = rest.split_first() {
        write_verdict(key, *verdict, &mut out)?;
        rest = others;
    }
    Ok(out)
}

/// Whether each verdict is yes.
pub(crate) fn all_yes(verdicts: &IndexMap<Bytes, Verdict>) -> bool
    ensures { result ≡ all_yes verdicts.now.entries }
{
    let mut rest = verdicts.as_slice();
    while let Some(((_key, verdict), others)) = rest.split_first() {
        if !is_yes(*verdict) {
            return false;
        }
        rest = others;
    }
    true
}

/// Whether the verdict on the order of all keys is yes. It is where there is none.
pub(crate) fn yes_to_all(on_all: Option<Verdict>) -> bool
    ensures { result ≡ yes_to_all on_all }
{
    match on_all {
        Some(verdict) => is_yes(verdict),
        None => true,
    }
}

// Whether a verdict is yes.
fn is_yes(verdict: Verdict) -> bool
    ensures { result ≡ is_yes verdict }
{
    match verdict {
        Verdict::Yes => true,
        Verdict::No(_) => false,
    }
}

/// Appends the line of the verdict on the order of all keys.
///
/// `OutOfMemory` where there is no room for it.
pub(crate) fn write_order_verdict(verdict: Verdict, out: &mut Vec<u8>) -> Result<(), Refusal>
    ensures ok { OnOk result (out.new.items ≡ out.old.items ++ order_verdict_text (Some verdict)) }
    ensures refused { IfErr result (λ r. r ≡ Refusal.OutOfMemory) }
{
    match verdict {
        Verdict::Yes => out.extend_from_slice(b"yes order")?,
        Verdict::No(rule) => {
            out.extend_from_slice(b"no order ")?;
            write_num(rule.number(), out)?;
        }
    }
    out.push(b'\n')?;
    Ok(())
}

// Appends the line of a verdict.
fn write_verdict(key: &Bytes, verdict: Verdict, out: &mut Vec<u8>) -> Result<(), Refusal>
    ensures ok { OnOk result (out.new.items ≡ out.old.items ++ (words_text (verdict_words key.now verdict) ++ 10 ∷ [])) }
    ensures refused { IfErr result (λ r. r ≡ Refusal.OutOfMemory) }
{
    match verdict {
        Verdict::Yes => {
            out.extend_from_slice(b"yes ")?;
            write_hex(key.as_slice(), out)?;
        }
        Verdict::No(rule) => {
            out.extend_from_slice(b"no ")?;
            write_hex(key.as_slice(), out)?;
            out.push(b' ')?;
            write_num(rule.number(), out)?;
        }
    }
    out.push(b'\n')?;
    Ok(())
}
