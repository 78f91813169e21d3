//! Checking an outcome text.
ghost use Rattle.std.specs.Prelude.{◌≡◌, ◌≢◌, ℕ, Bool, List, None, IfOk, IfErr, IfSome, OnOk};
ghost use Rattle.std.specs.Io.KnownBytes.{Appends, IsAtEnd};
ghost use Rattle.rambo_atomic.specs.Streams.{counted, Begins};
ghost use Rattle.rambo_text.specs.declared.fault.ReplayFault.TheVariants as fault;
ghost use Rattle.rambo_text.specs.declared.fault.ScriptFault.{ScriptFault};
ghost use Rattle.rambo_check.specs.Checks.{IsLeft, IsJudged, IsChecked, IsWritten};
ghost use Rattle.rambo_check.specs.Reasons.{IsVerdictWithin};
ghost use Rattle.rambo_check.specs.Texts.{IsFaultIn};
ghost use Rattle.rambo_check.specs.Verdicts.{AreVerdicts, IsVerdictOnAll};

use crate::evidence::Evidence;
use crate::explaining::explained_lines;
use crate::judging::judge_each;
use crate::text::read_outcome;
use crate::verdict_text::{all_yes, verdict_lines, yes_to_all};
use indexmap::IndexMap;
use rambo_atomic::{Checker, Sink, Source, Verdict, write_all};
use rambo_names::{Bytes, Refusal};
use rambo_text::{ReplayFault, Version};
use std::alloc::Global;

/// Reads an outcome text of either version to its end. Writes a line for each key that has a call or a sequence there,
/// in byte order: `yes` where the sequence explains the key's calls and answers, and else `no` with the least rule that
/// it breaks. In version 2 a last line says the same of the order of all keys. Returns whether each is yes.
///
/// Where `why` is asked for, a line behind each `no` names the first witness that the rule is broken, and the lines of the text
/// that tell of it; and keys that are printable ASCII without a space or a quote are told in quotes as well.
///
/// `Script` at the first faulty line, with the first fault there, or where memory ran out while it was read. `Read` and
/// `Write` where that stream failed, and `Memory` where memory ran out elsewhere. Nothing was written then, except that
/// after `Write` a prefix of the lines was.
pub fn check_text<R: Source, W: Sink>(
    alloc: Global,
    why: bool,
    reader: &mut R,
    writer: &mut W,
) -> Result<bool, ReplayFault>
    ensures checked { IfOk result (λ all. (text : List ℕ) × (written : List ℕ) × IsLeft (R.left reader.old) text
        × IsChecked why text written all × Appends (W.taken writer.old) (W.taken writer.new) written) }
    ensures end { OnOk result (IsAtEnd (R.left reader.new)) }
    ensures fine { OnOk result ((R.failures reader.new ≡ R.failures reader.old) × (W.failures writer.new ≡ W.failures writer.old)) }
    ensures script { IfErr result (λ f. (g : ScriptFault) → f ≡ fault.Script g
        → (text : List ℕ) × IsLeft (R.left reader.old) text × IsFaultIn text g × IsAtEnd (R.left reader.new)) }
    ensures read { IfErr result (λ f. f ≡ fault.Read → R.failures reader.new ≡ counted (R.failures reader.old)) }
    ensures other { IfErr result (λ f. f ≢ fault.Read → R.failures reader.new ≡ R.failures reader.old) }
    ensures write { IfErr result (λ f. f ≡ fault.Write → (W.failures writer.new ≡ counted (W.failures writer.old))
        × ((text : List ℕ) × (written : List ℕ) × (all : Bool) × IsLeft (R.left reader.old) text
        × IsChecked why text written all × Begins (W.taken writer.old) (W.taken writer.new) written)) }
    ensures unwritten { IfErr result (λ f. f ≢ fault.Write → writer.new ≡ writer.old) }
{
    let (lines, all) = judged_text(alloc, why, reader)?;
    write_all(writer, lines.as_slice())?;
    Ok(all)
}

// The lines for what the text that a source has left tells, and whether each is yes. The text is read to its end.
fn judged_text<R: Source>(
    alloc: Global,
    why: bool,
    reader: &mut R,
) -> Result<(Vec<u8>, bool), ReplayFault>
    ensures judged { IfOk result (λ r. (text : List ℕ) × IsLeft (R.left reader.old) text × IsChecked why text r.0.items r.1) }
    ensures end { OnOk result (IsAtEnd (R.left reader.new)) }
    ensures fine { OnOk result (R.failures reader.new ≡ R.failures reader.old) }
    ensures script { IfErr result (λ f. (g : ScriptFault) → f ≡ fault.Script g
        → (text : List ℕ) × IsLeft (R.left reader.old) text × IsFaultIn text g × IsAtEnd (R.left reader.new)) }
    ensures read { IfErr result (λ f. f ≡ fault.Read → R.failures reader.new ≡ counted (R.failures reader.old)) }
    ensures other { IfErr result (λ f. f ≢ fault.Read → R.failures reader.new ≡ R.failures reader.old) }
    ensures unwritten { IfErr result (λ f. f ≢ fault.Write) }
{
    let mut evidence = Evidence::new(alloc);
    let version = read_outcome(alloc, reader, &mut evidence)?;
    match judged_lines(alloc, why, version, &evidence) {
        Ok(judged) => Ok(judged),
        Err(_) => Err(ReplayFault::Memory),
    }
}

/// The lines for what was told, and whether each is yes.
///
/// `OutOfMemory` where there is no room for them, or for what judging takes.
pub(crate) fn judged_lines(
    alloc: Global,
    why: bool,
    version: Version,
    evidence: &Evidence,
) -> Result<(Vec<u8>, bool), Refusal>
    ensures judged { IfOk result (λ r. IsJudged why version evidence.now r.0.items r.1) }
{
    let checker = Checker::new(evidence.history())?;
    let mut verdicts = IndexMap::new(alloc);
    judge_each(&checker, evidence, &mut verdicts)?;
    let on_all = judge_order(version, &checker, evidence)?;
    let lines = written_lines(alloc, why, evidence, &verdicts, on_all)?;
    let each_yes = all_yes(&verdicts);
    let order_yes = yes_to_all(on_all);
    Ok((lines, each_yes && order_yes))
}

// The lines for the verdicts on each key and on the order of all, and if it is asked for, why.
fn written_lines(
    alloc: Global,
    why: bool,
    evidence: &Evidence,
    verdicts: &IndexMap<Bytes, Verdict>,
    on_all: Option<Verdict>,
) -> Result<Vec<u8>, Refusal>
    requires right { AreVerdicts evidence.now verdicts.now.entries }
    requires on_all { IfSome on_all (IsVerdictWithin evidence.now None) }
    ensures { IfOk result (λ lines. IsWritten why evidence.now verdicts.now.entries on_all lines.items) }
{
    if why {
        explained_lines(alloc, evidence, verdicts, on_all)
    } else {
        verdict_lines(alloc, verdicts, on_all)
    }
}

// The verdict on the order of all keys, where a text of the version has one.
fn judge_order(
    version: Version,
    checker: &Checker,
    evidence: &Evidence,
) -> Result<Option<Verdict>, Refusal>
    requires { checker.now ≡ evidence.now.events }
    ensures judged { IfOk result (IsVerdictOnAll version evidence.now) }
{
    match version {
        Version::One => Ok(None),
        Version::Two => Ok(Some(checker.judge_all(evidence.store_order())?)),
    }
}
