//! Checking an outcome text whose sequences have the sets alone.
ghost use Rattle.std.specs.Prelude.{◌≡◌, ◌≢◌, ◌⊎◌, ℕ, Bool, List, IfOk, IfErr, OnOk};
ghost use Rattle.std.specs.Io.KnownBytes.{Appends, IsAtEnd};
ghost use Rattle.rambo_atomic.specs.Streams.{counted, Begins};
ghost use Rattle.rambo_placing.specs.Values.{HasOwnValues};
ghost use Rattle.rambo_text.specs.declared.fault.ReplayFault.TheVariants as fault;
ghost use Rattle.rambo_text.specs.declared.fault.ScriptFault.{ScriptFault};
ghost use Rattle.rambo_text.specs.declared.version.Version.{Version as AnyVersion};
ghost use Rattle.rambo_check.specs.Checks.{IsLeft};
ghost use Rattle.rambo_check.specs.EvidenceStates.{EvidenceState};
ghost use Rattle.rambo_check.specs.Placings.{IsPlaced, IsRepeated, IsRepeatedIn, IsToldAs, with_gets_placed};
ghost use Rattle.rambo_check.specs.Texts.{IsFaultIn};

use crate::checking::judged_lines;
use crate::evidence::Evidence;
use crate::outcome_lines::outcome_lines;
use crate::text::read_outcome;
use rambo_atomic::{Sink, Source, write_all};
use rambo_names::Refusal;
use rambo_placing::first_repeated_value;
use rambo_text::{Fault, ReplayFault, ScriptFault, Version};
use std::alloc::Global;

/// What is written of an outcome text once the gets are in their places.
#[derive(Clone, Copy, PartialEq, Eq, Debug)]
pub enum Telling {
    /// A line for each verdict.
    Verdicts,
    /// A line for each verdict, and behind each no one that names the first witness.
    Reasons,
    /// The outcome text: its calls and answers, then each key's sequence with the gets in their places, and in version 2 the
    /// order of all keys, if the text has one.
    Outcome,
}

/// Reads an outcome text of either version to its end, and puts the answered gets of each key that has a sequence in their
/// places there: those that were answered nil first, and behind each set those that were answered its value, each as they were
/// called. A get that was answered another value has no place. Then writes what is asked for: the verdicts as `check_text`
/// does, or the text that has these sequences. Returns whether each verdict is yes, and true where none is asked for.
///
/// `Script` at the first faulty line, with the first fault there; or where there is none with `BadHistory` at the line of the
/// first set that gives its key a value that a set before it gave it; or where memory ran out while the text was read. `Read`
/// and `Write` where that stream failed, and `Memory` where memory ran out elsewhere. Nothing was written then, except that
/// after `Write` a prefix of what is asked for was.
pub fn place_text<R: Source, W: Sink>(
    alloc: Global,
    telling: Telling,
    reader: &mut R,
    writer: &mut W,
) -> Result<bool, ReplayFault>
    ensures placed { IfOk result (λ all. (text : List ℕ) × (written : List ℕ) × IsLeft (R.left reader.old) text
        × IsPlaced telling text written all × Appends (W.taken writer.old) (W.taken writer.new) written) }
    ensures end { OnOk result (IsAtEnd (R.left reader.new)) }
    ensures fine { OnOk result ((R.failures reader.new ≡ R.failures reader.old) × (W.failures writer.new ≡ W.failures writer.old)) }
    ensures script { IfErr result (λ f. (g : ScriptFault) → f ≡ fault.Script g
        → (text : List ℕ) × IsLeft (R.left reader.old) text × (IsFaultIn text g ⊎ IsRepeatedIn text g) × IsAtEnd (R.left reader.new)) }
    ensures read { IfErr result (λ f. f ≡ fault.Read → R.failures reader.new ≡ counted (R.failures reader.old)) }
    ensures other { IfErr result (λ f. f ≢ fault.Read → R.failures reader.new ≡ R.failures reader.old) }
    ensures write { IfErr result (λ f. f ≡ fault.Write → (W.failures writer.new ≡ counted (W.failures writer.old))
        × ((text : List ℕ) × (written : List ℕ) × (all : Bool) × IsLeft (R.left reader.old) text
        × IsPlaced telling text written all × Begins (W.taken writer.old) (W.taken writer.new) written)) }
    ensures unwritten { IfErr result (λ f. f ≢ fault.Write → writer.new ≡ writer.old) }
{
    let (lines, all) = placed_text(alloc, telling, reader)?;
    write_all(writer, lines.as_slice())?;
    Ok(all)
}

// What is to be written of the text that a source has left, and whether each verdict is yes. The text is read to its end.
fn placed_text<R: Source>(
    alloc: Global,
    telling: Telling,
    reader: &mut R,
) -> Result<(Vec<u8>, bool), ReplayFault>
    ensures placed { IfOk result (λ r. (text : List ℕ) × IsLeft (R.left reader.old) text × IsPlaced telling text r.0.items r.1) }
    ensures end { OnOk result (IsAtEnd (R.left reader.new)) }
    ensures fine { OnOk result (R.failures reader.new ≡ R.failures reader.old) }
    ensures script { IfErr result (λ f. (g : ScriptFault) → f ≡ fault.Script g
        → (text : List ℕ) × IsLeft (R.left reader.old) text × (IsFaultIn text g ⊎ IsRepeatedIn text g) × IsAtEnd (R.left reader.new)) }
    ensures read { IfErr result (λ f. f ≡ fault.Read → R.failures reader.new ≡ counted (R.failures reader.old)) }
    ensures other { IfErr result (λ f. f ≢ fault.Read → R.failures reader.new ≡ R.failures reader.old) }
    ensures unwritten { IfErr result (λ f. f ≢ fault.Write) }
{
    let mut evidence = Evidence::new(alloc);
    let version = read_outcome(alloc, reader, &mut evidence)?;
    told_placed(alloc, telling, version, &mut evidence)
}

// What is to be written of what was told, once the gets are put in their places, and whether each verdict is yes.
fn told_placed(
    alloc: Global,
    telling: Telling,
    version: Version,
    evidence: &mut Evidence,
) -> Result<(Vec<u8>, bool), ReplayFault>
    ensures own { OnOk result (HasOwnValues evidence.old.events) }
    ensures told { IfOk result (λ r. IsToldAs telling version (with_gets_placed evidence.old) r.0.items r.1) }
    ensures script { IfErr result (λ f. (g : ScriptFault) → f ≡ fault.Script g → IsRepeated evidence.old g) }
    ensures unread { IfErr result (λ f. f ≢ fault.Read) }
    ensures unwritten { IfErr result (λ f. f ≢ fault.Write) }
{
    expect_own_values(evidence)?;
    match told_lines(alloc, telling, version, evidence) {
        Ok(told) => Ok(told),
        Err(_) => Err(ReplayFault::Memory),
    }
}

// A fault at the first set that gives its key a value that a set before it gave it.
fn expect_own_values(evidence: &Evidence) -> Result<(), ReplayFault>
    ensures own { OnOk result (HasOwnValues evidence.now.events) }
    ensures script { IfErr result (λ f. (g : ScriptFault) → f ≡ fault.Script g → IsRepeated evidence.now g) }
    ensures unread { IfErr result (λ f. f ≢ fault.Read) }
    ensures unwritten { IfErr result (λ f. f ≢ fault.Write) }
{
    match first_repeated_value(evidence.history()) {
        Ok(None) => Ok(()),
        Ok(Some(place)) => {
            let line = evidence.event_line(Some(place));
            Err(ReplayFault::Script(ScriptFault {
                fault: Fault::BadHistory,
                line,
            }))
        }
        Err(_) => Err(ReplayFault::Memory),
    }
}

// What is to be written, once the gets are put in their places, and whether each verdict is yes.
fn told_lines(
    alloc: Global,
    telling: Telling,
    version: Version,
    evidence: &mut Evidence,
) -> Result<(Vec<u8>, bool), Refusal>
    ensures told { IfOk result (λ r. IsToldAs telling version (with_gets_placed evidence.old) r.0.items r.1) }
{
    evidence.place_gets()?;
    match telling {
        Telling::Verdicts => judged_lines(alloc, false, version, evidence),
        Telling::Reasons => judged_lines(alloc, true, version, evidence),
        Telling::Outcome => {
            let lines = outcome_lines(alloc, version, evidence)?;
            Ok((lines, true))
        }
    }
}
