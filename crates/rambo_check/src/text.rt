//! Reading an outcome text.
ghost use Rattle.std.specs.Prelude.{◌≡◌, ◌≢◌, ◌++◌, ◌+◌, ◌<◌, ◌^◌, ℕ, List, [], false, IfOk, IfErr, OnOk, OnErr};
ghost use Rattle.std.specs.Io.KnownBytes.{IsAtEnd};
ghost use Rattle.rambo_atomic.specs.Streams.{counted};
ghost use Rattle.rambo_atomic.specs.Unreads.{KnowsEnd};
ghost use Rattle.rambo_text.specs.declared.fault.ReplayFault.TheVariants as fault;
ghost use Rattle.rambo_text.specs.declared.fault.ScriptFault.{ScriptFault};
ghost use Rattle.rambo_text.specs.declared.version.Version.TheVariants as versions;
ghost use Rattle.rambo_text.specs.Versions.{IsBadHead, IsBehindHead, in_whole};
ghost use Rattle.rambo_text.specs.Words.{IsFirstLine, AreWords};
ghost use Rattle.rambo_check.specs.Checks.{IsLeft};
ghost use Rattle.rambo_check.specs.Lines.{Item, item_words};
ghost use Rattle.rambo_check.specs.Items.{IsItem, IsLineIn};
ghost use Rattle.rambo_check.specs.EvidenceStates.{no_evidence, with_item, IsBadItem};
ghost use Rattle.rambo_check.specs.Readings.{IsMore, TakesHead, TakesLine};
ghost use Rattle.rambo_check.specs.Texts.{IsTold, IsToldIn, IsFaultBehind, IsTextFault, IsHeadFault, IsFaultIn};

use crate::evidence::Evidence;
use crate::front::frequent_event;
use crate::item::read_line;
use crate::kept::Kept;
use rambo_atomic::{Source, Unread};
use rambo_text::{Fault, ReplayFault, ScriptFault, Version, next_line};
use std::alloc::Global;

/// Takes in what the text that a source has left says, and returns its version; or its first faulty line and the first
/// fault there. The text is read to its end, and never held as a whole.
///
/// `Script` with `OutOfMemory` where there is no room for what the line says, and it has no fault before that, `Read`
/// where the source fails, and `Memory` where there is no room for the line itself.
pub(crate) fn read_outcome<R: Source>(
    alloc: Global,
    reader: &mut R,
    evidence: &mut Evidence,
) -> Result<Version, ReplayFault>
    requires none { evidence.old ≡ no_evidence versions.One }
    ensures told { IfOk result (λ version. (text : List ℕ) × IsLeft (R.left reader.old) text × IsToldIn version text evidence.new) }
    ensures end { OnOk result (IsAtEnd (R.left reader.new)) }
    ensures fine { OnOk result (R.failures reader.new ≡ R.failures reader.old) }
    ensures script { IfErr result (λ f. (g : ScriptFault) → f ≡ fault.Script g
        → (text : List ℕ) × IsLeft (R.left reader.old) text × IsFaultIn text g × IsAtEnd (R.left reader.new)) }
    ensures read { IfErr result (λ f. f ≡ fault.Read → R.failures reader.new ≡ counted (R.failures reader.old)) }
    ensures other { IfErr result (λ f. f ≢ fault.Read → R.failures reader.new ≡ R.failures reader.old) }
    ensures unwritten { IfErr result (λ f. f ≢ fault.Write) }
{
    let mut unread = Unread::new(alloc);
    let version = read_version(reader, &mut unread)?;
    evidence.begin(version);
    read_behind(alloc, version, reader, &mut unread, evidence)?;
    Ok(version)
}

// The version of the text that a source has left. Of it the line that tells the version is used, and no more.
fn read_version<R: Source>(reader: &mut R, unread: &mut Unread) -> Result<Version, ReplayFault>
    requires { unread.old ≡ record { held = []; ended = false } }
    ensures knows { KnowsEnd unread.new (R.left reader.new) }
    ensures head { IfOk result (λ version. (more : List ℕ) → IsMore unread.new (R.left reader.new) more
        → (text : List ℕ) × IsLeft (R.left reader.old) text × IsBehindHead version text (unread.new.held ++ more)) }
    ensures fine { OnOk result (R.failures reader.new ≡ R.failures reader.old) }
    ensures script { IfErr result (λ f. (g : ScriptFault) → f ≡ fault.Script g
        → (text : List ℕ) × IsLeft (R.left reader.old) text × IsHeadFault text g × IsAtEnd (R.left reader.new)) }
    ensures read { IfErr result (λ f. f ≡ fault.Read → R.failures reader.new ≡ counted (R.failures reader.old)) }
    ensures other { IfErr result (λ f. f ≢ fault.Read → R.failures reader.new ≡ R.failures reader.old) }
    ensures unwritten { IfErr result (λ f. f ≢ fault.Write) }
{
    if !unread.find_line(reader)? {
        return Ok(Version::One);
    }
    match take_head(unread) {
        Ok(version) => Ok(version),
        Err(fault) => {
            unread.read_rest(reader)?;
            Err(ReplayFault::Script(ScriptFault { fault, line: 1 }))
        }
    }
}

// The version that the first line that is held tells. A line that tells version 2 is forgotten.
fn take_head(unread: &mut Unread) -> Result<Version, Fault>
    ensures taken { IfOk result (λ version. TakesHead version unread.old.held unread.new.held) }
    ensures ended { unread.new.ended ≡ unread.old.ended }
    ensures kept { OnErr result (unread.new ≡ unread.old) }
    ensures fault { IfErr result (λ f. (line : List ℕ) × (rest : List ℕ) × IsFirstLine unread.old.held line rest × IsBadHead line f) }
{
    let held = unread.as_slice();
    let (line, rest) = next_line(held);
    match Version::told_by(line)? {
        Version::One => Ok(Version::One),
        Version::Two => {
            let used = held.len() - rest.len();
            unread.forget(used);
            Ok(Version::Two)
        }
    }
}

// Takes up what the text of a version tells after its head: what is held, and what the source has left.
fn read_behind<R: Source>(
    alloc: Global,
    version: Version,
    reader: &mut R,
    unread: &mut Unread,
    evidence: &mut Evidence,
) -> Result<(), ReplayFault>
    requires knows { KnowsEnd unread.old (R.left reader.old) }
    requires none { evidence.old ≡ no_evidence version }
    ensures told { OnOk result ((more : List ℕ) × IsMore unread.old (R.left reader.old) more × IsTold version (unread.old.held ++ more) evidence.new) }
    ensures end { OnOk result (IsAtEnd (R.left reader.new)) }
    ensures fine { OnOk result (R.failures reader.new ≡ R.failures reader.old) }
    ensures script { IfErr result (λ f. (g : ScriptFault) → f ≡ fault.Script g
        → (more : List ℕ) × (h : ScriptFault) × IsMore unread.old (R.left reader.old) more × IsTextFault version (unread.old.held ++ more) h
        × (g ≡ in_whole version h) × IsAtEnd (R.left reader.new)) }
    ensures read { IfErr result (λ f. f ≡ fault.Read → R.failures reader.new ≡ counted (R.failures reader.old)) }
    ensures other { IfErr result (λ f. f ≢ fault.Read → R.failures reader.new ≡ R.failures reader.old) }
    ensures unwritten { IfErr result (λ f. f ≢ fault.Write) }
{
    let mut line = version.head_lines();
    while unread.find_line(reader)? {
        if line == u64::MAX {
            return Err(ReplayFault::Memory);
        }
        line += 1;
        if let Err(fault) = take_first(alloc, version, unread, evidence) {
            unread.read_rest(reader)?;
            return Err(ReplayFault::Script(ScriptFault { fault, line }));
        }
    }
    Ok(())
}

// Takes up what the first line that is held tells, and forgets the line.
fn take_first(
    alloc: Global,
    version: Version,
    unread: &mut Unread,
    evidence: &mut Evidence,
) -> Result<(), Fault>
    requires fits { evidence.old.lines + 1 < 2 ^ 64 }
    ensures taken { OnOk result (TakesLine version unread.old.held unread.new.held evidence.old evidence.new) }
    ensures ended { unread.new.ended ≡ unread.old.ended }
    ensures kept { OnErr result (unread.new ≡ unread.old) }
    ensures fault { IfErr result (λ f. (line : List ℕ) × (rest : List ℕ) × IsFirstLine unread.old.held line rest × IsFaultBehind version evidence.old line f) }
{
    let held = unread.as_slice();
    let rest = take_front(alloc, version, held, evidence)?;
    let used = held.len() - rest.len();
    unread.forget(used);
    Ok(())
}

// Takes up what the first line of a text tells, and returns the text after its line feed.
#[inline(always)]
fn take_front<'a>(
    alloc: Global,
    version: Version,
    text: &'a [u8],
    evidence: &mut Evidence,
) -> Result<&'a [u8], Fault>
    requires fits { evidence.old.lines + 1 < 2 ^ 64 }
    ensures taken { IfOk result (λ rest. TakesLine version text.now rest.now evidence.old evidence.new) }
    ensures fault { IfErr result (λ f. (line : List ℕ) × (rest : List ℕ) × IsFirstLine text.now line rest × IsFaultBehind version evidence.old line f) }
{
    if let Some((event, rest)) = frequent_event(text) {
        evidence.push(event)?;
        return Ok(rest);
    }
    let (line, rest) = next_line(text);
    take_line(alloc, version, line, evidence)?;
    Ok(rest)
}

// Takes up what a line tells.
fn take_line(
    alloc: Global,
    version: Version,
    line: &[u8],
    evidence: &mut Evidence,
) -> Result<(), Fault>
    requires fits { evidence.old.lines + 1 < 2 ^ 64 }
    ensures taken { OnOk result ((i : Item) × IsItem i × IsLineIn version i × AreWords line.now (item_words i) × (¬ (IsBadItem evidence.old i))
        × (evidence.new ≡ with_item evidence.old i)) }
    ensures fault { IfErr result (IsFaultBehind version evidence.old line.now) }
{
    match read_line(alloc, version, line)? {
        Kept::Happened(event) => evidence.push(event),
        Kept::Ordered(key, order) => evidence.put(key, order),
        Kept::OrderedAll(order) => evidence.put_order(order),
        Kept::Nothing => {
            evidence.pass();
            Ok(())
        }
    }
}
