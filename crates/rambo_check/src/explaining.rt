//! The lines of verdicts, and behind each no why.
ghost use Rattle.std.specs.Prelude.{◌≡◌, ◌++◌, ℕ, List, None, Some, true, IfErr, IfOk, IfSome, OnOk};
ghost use Rattle.std.specs.Option.{option_copied};
ghost use Rattle.rambo_check.specs.Checks.{IsWritten};
ghost use Rattle.rambo_check.specs.Reasons.{AreExplained, IsExplainedOnAll, IsReason, IsVerdictWithin, order_within, shown_verdict};
ghost use Rattle.rambo_check.specs.Verdicts.{AreVerdicts};
ghost use Rattle.rambo_witness.specs.Witnesses.{Decides};

use crate::evidence::Evidence;
use crate::reasons::{write_reason, write_shown};
use crate::verdict_text::write_order_verdict;
use indexmap::IndexMap;
use rambo_atomic::{Rule, Verdict};
use rambo_history::CallId;
use rambo_names::{Bytes, Refusal};
use rambo_text::write_num;
use rambo_witness::{Witness, Witnesses};
use std::alloc::Global;

/// The line of each verdict, and of that on the order of all keys, where there is one; and behind each no the line that tells
/// why.
///
/// `OutOfMemory` where there is no room for them, or for what finds the witnesses.
pub(crate) fn explained_lines(
    alloc: Global,
    evidence: &Evidence,
    verdicts: &IndexMap<Bytes, Verdict>,
    on_all: Option<Verdict>,
) -> Result<Vec<u8>, Refusal>
    requires right { AreVerdicts evidence.now verdicts.now.entries }
    requires on_all { IfSome on_all (IsVerdictWithin evidence.now None) }
    ensures text { IfOk result (λ text. IsWritten true evidence.now verdicts.now.entries on_all text.items) }
    ensures refused { IfErr result (λ r. r ≡ Refusal.OutOfMemory) }
{
    let mut witnesses = Witnesses::new(evidence.history());
    let mut lines = explained_text(alloc, &mut witnesses, evidence, verdicts)?;
    if let Some(verdict) = on_all {
        explain_all(&mut witnesses, evidence, verdict, &mut lines)?;
    }
    Ok(lines)
}

// The line of each verdict, and behind each no the line that tells why.
fn explained_text(
    alloc: Global,
    witnesses: &mut Witnesses,
    evidence: &Evidence,
    verdicts: &IndexMap<Bytes, Verdict>,
) -> Result<Vec<u8>, Refusal>
    requires history { witnesses.old ≡ evidence.now.events }
    requires right { AreVerdicts evidence.now verdicts.now.entries }
    ensures text { IfOk result (λ text. AreExplained evidence.now verdicts.now.entries text.items) }
    ensures refused { IfErr result (λ r. r ≡ Refusal.OutOfMemory) }
    ensures same { witnesses.new ≡ witnesses.old }
{
    let mut out = Vec::new(alloc);
    let mut rest = verdicts.as_slice();
    while let Some(((key, verdict), others)) = rest.split_first() {
        write_shown_verdict(key, *verdict, &mut out)?;
        explain(witnesses, evidence, Some(key), *verdict, &mut out)?;
        rest = others;
    }
    Ok(out)
}

// Appends the line of the verdict on the order of all keys, and if it is no the line that tells why.
fn explain_all(
    witnesses: &mut Witnesses,
    evidence: &Evidence,
    verdict: Verdict,
    out: &mut Vec<u8>,
) -> Result<(), Refusal>
    requires history { witnesses.old ≡ evidence.now.events }
    requires right { IsVerdictWithin evidence.now None verdict }
    ensures told { OnOk result ((text : List ℕ) × IsExplainedOnAll evidence.now (Some verdict) text × (out.new.items ≡ out.old.items ++ text)) }
    ensures refused { IfErr result (λ r. r ≡ Refusal.OutOfMemory) }
    ensures same { witnesses.new ≡ witnesses.old }
{
    write_order_verdict(verdict, out)?;
    explain(witnesses, evidence, None, verdict, out)
}

// Appends the line that tells why, after a no.
fn explain(
    witnesses: &mut Witnesses,
    evidence: &Evidence,
    key: Option<&Bytes>,
    verdict: Verdict,
    out: &mut Vec<u8>,
) -> Result<(), Refusal>
    requires history { witnesses.old ≡ evidence.now.events }
    requires right { IsVerdictWithin evidence.now (option_copied key) verdict }
    ensures told { OnOk result ((reason : List ℕ) × IsReason evidence.now (option_copied key.entry) verdict reason × (out.new.items ≡ out.old.items ++ reason)) }
    ensures refused { IfErr result (λ r. r ≡ Refusal.OutOfMemory) }
    ensures same { witnesses.new ≡ witnesses.old }
{
    let Verdict::No(rule) = verdict else {
        return Ok(());
    };
    let Some(witness) = witness(witnesses, evidence, key, rule)? else {
        return Ok(());
    };
    let Witness { call, other } = witness;
    write_reason(evidence, key, rule, &call, other.as_ref(), out)
}

// The first witness that the order of the key, or where no key is told that of all keys, breaks a rule.
fn witness(
    witnesses: &mut Witnesses,
    evidence: &Evidence,
    key: Option<&Bytes>,
    rule: Rule,
) -> Result<Option<Witness>, Refusal>
    requires history { witnesses.old ≡ evidence.now.events }
    ensures found { IfOk result (Decides rule evidence.now.events (option_copied key.entry) (order_within evidence.now (option_copied key.entry))) }
    ensures refused { IfErr result (λ r. r ≡ Refusal.OutOfMemory) }
    ensures same { witnesses.new ≡ witnesses.old }
{
    let order = order(evidence, key);
    match key {
        Some(key) => witnesses.of_key(rule, key, order),
        None => witnesses.of_all(rule, order),
    }
}

// The order of the key, or where no key is told that of all keys.
fn order<'a>(evidence: &'a Evidence, key: Option<&Bytes>) -> &'a [CallId]
    ensures { result.now ≡ order_within evidence.now (option_copied key.entry) }
{
    match key {
        Some(key) => evidence.order(key),
        None => evidence.store_order(),
    }
}

// Appends the line of a verdict, with what the key spells.
fn write_shown_verdict(key: &Bytes, verdict: Verdict, out: &mut Vec<u8>) -> Result<(), Refusal>
    ensures ok { OnOk result (out.new.items ≡ out.old.items ++ shown_verdict key.now verdict) }
    ensures refused { IfErr result (λ r. r ≡ Refusal.OutOfMemory) }
{
    match verdict {
        Verdict::Yes => {
            out.extend_from_slice(b"yes ")?;
            write_shown(key.as_slice(), out)?;
        }
        Verdict::No(rule) => {
            out.extend_from_slice(b"no ")?;
            write_shown(key.as_slice(), out)?;
            out.extend_from_slice(b" ")?;
            write_num(rule.number(), out)?;
        }
    }
    out.push(b'\n')?;
    Ok(())
}
