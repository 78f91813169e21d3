//! From a script to the text of what its run gives.
ghost use Rattle.std.specs.Prelude.{◌≡◌, ◌≢◌, ◌⊎◌, ◌++◌, ℕ, List, [], true, false, OnOk, OnErr, IfOk, IfErr};
ghost use Rattle.std.specs.Io.KnownBytes.{Appends, IsAtEnd};
ghost use Rattle.rambo_atomic.specs.Streams.{Begins, counted};
ghost use Rattle.rambo_atomic.specs.declared.whole.StreamFault.TheVariants as stream;
ghost use Rattle.rambo_atomic.specs.Unreads.{KnowsEnd, TakesIn, HasFeed};
ghost use Rattle.rambo_text.specs.declared.fault.ScriptFault.{ScriptFault};
ghost use Rattle.rambo_text.specs.Versions.{IsBehindHead};
ghost use Rattle.rambo_check.specs.Checks.{IsLeft};
ghost use Rattle.rambo_check.specs.Readings.{IsMore};
ghost use Rattle.rambo_lines.specs.Versions.{IsHeadFault};
ghost use Rattle.rambo_outcome.specs.Notes.{HasRoom, told_text};
ghost use Rattle.rambo_steps.specs.Replays.{IsReplay, Replays, Leaves, GivesUp, reads_failed, writes_failed};
ghost use Rattle.rambo_steps.specs.Runs.{IsFounded, GivesUpBehind, IsOfWhole, FoundsNone};

use rambo_atomic::{Sink, Source, StreamFault, Unread};
use rambo_lines::read_head;
use rambo_names::Weighted;
use rambo_outcome::Told;
use rambo_run::Run;
use rambo_steps::{founders_in, in_memory, run_through, told_at_end};
use rambo_tag::Registers;
use rambo_text::{ReplayFault, Version};
use rambo_world::Running;
use std::alloc::Global;
use std::hash::{BuildHasherDefault, FoldHasher};

// A run over weighted majorities.
type WeightedRun = Running<Weighted, Registers<BuildHasherDefault<FoldHasher>>>;

/// Reads a script of either version, runs it over weighted majorities, and writes the text of what the run gives, in the
/// script's version.
///
/// The whole input is read and run before the first byte is written. It is read piece by piece, and each step is taken
/// as its line is read: neither the input nor the steps nor what they did are kept. `Script` where the input is no
/// script, or where there is no room for the bytes of a get or a set; `Read` and `Write` where a call of that stream
/// fails; `Memory` where there is no room for a piece of the input, the run or its text. After `Write` a prefix of the
/// text was written, and after another fault nothing.
pub fn replay<R: Source, W: Sink>(
    alloc: Global,
    reader: &mut R,
    writer: &mut W,
) -> Result<(), ReplayFault>
    ensures end { OnOk result (IsAtEnd (R.left reader.new)) }
    ensures written { OnOk result (Replays (R.left reader.old) (W.taken writer.old) (W.taken writer.new)) }
    ensures fine_reader { OnOk result (R.failures reader.new ≡ R.failures reader.old) }
    ensures fine_writer { OnOk result (W.failures writer.new ≡ W.failures writer.old) }
    ensures left { IfErr result (λ f. Leaves f (R.left reader.old) (W.taken writer.old) (W.taken writer.new)) }
    ensures reads { IfErr result (λ f. R.failures reader.new ≡ reads_failed f (R.failures reader.old)) }
    ensures writes { IfErr result (λ f. W.failures writer.new ≡ writes_failed f (W.failures writer.old)) }
{
    let ended = replayed(alloc, reader)?;
    ended.write(writer)?;
    Ok(())
}

// A run that ended, and what is told of it besides its history.
struct EndedRun {
    running: WeightedRun,
    told: Told,
}

// By hand, so that those who drop it needn't follow all that is in it.
impl Drop for EndedRun {
    fn drop(self) {
        let EndedRun {
            running: _running,
            told: _told,
        } = self;
    }
}

impl EndedRun {
    // Writes the text of what the run gives, piece by piece. It allocates nothing.
    fn write<W: Sink>(self, writer: &mut W) -> Result<(), StreamFault>
        requires room { HasRoom self.told.room self.running.state.history }
        ensures ok { OnOk result (Appends (W.taken writer.old) (W.taken writer.new) (told_text self.running.state.history self.told)) }
        ensures err { OnErr result (Begins (W.taken writer.old) (W.taken writer.new) (told_text self.running.state.history self.told)) }
        ensures fine { OnOk result (W.failures writer.new ≡ W.failures writer.old) }
        ensures fault { IfErr result (λ f. (f ≡ stream.Write) × (W.failures writer.new ≡ counted (W.failures writer.old))) }
    {
        let EndedRun { running, told } = self;
        told.write(running.history(), writer)
    }
}

// The run of the script that a reader has left, and what is told of it. The script is read to its end, also after a fault
// of it, and never held as a whole.
fn replayed<R: Source>(alloc: Global, reader: &mut R) -> Result<EndedRun, ReplayFault>
    ensures ok { IfOk result (λ r. (bytes : List ℕ) × IsLeft (R.left reader.old) bytes × IsReplay bytes (told_text r.running.state.history r.told)) }
    ensures room { IfOk result (λ r. HasRoom r.told.room r.running.state.history) }
    ensures end { OnOk result (IsAtEnd (R.left reader.new)) }
    ensures fine { OnOk result (R.failures reader.new ≡ R.failures reader.old) }
    ensures script { IfErr result (λ f. (g : ScriptFault) → f ≡ ReplayFault.Script g → (bytes : List ℕ) × IsLeft (R.left reader.old) bytes × GivesUp bytes f) }
    ensures reads { IfErr result (λ f. R.failures reader.new ≡ reads_failed f (R.failures reader.old)) }
    ensures unwritten { IfErr result (λ f. f ≢ ReplayFault.Write) }
{
    let mut unread = Unread::new(alloc);
    let version = read_version(reader, &mut unread)?;
    let mut running = founded(alloc, version, reader, &mut unread)?;
    let told = run_through(alloc, version, reader, &mut unread, &mut running)?;
    Ok(EndedRun { running, told })
}

// The version of the script that a reader has left. Of it the line that tells the version is used, and no more.
fn read_version<R: Source>(reader: &mut R, unread: &mut Unread) -> Result<Version, ReplayFault>
    requires { unread.old ≡ record { held = []; ended = false } }
    ensures knows { OnOk result (KnowsEnd unread.new (R.left reader.new)) }
    ensures head { IfOk result (λ version. (more : List ℕ) → IsMore unread.new (R.left reader.new) more
        → (bytes : List ℕ) × IsLeft (R.left reader.old) bytes × IsBehindHead version bytes (unread.new.held ++ more)) }
    ensures fine { OnOk result (R.failures reader.new ≡ R.failures reader.old) }
    ensures script { IfErr result (λ f. (g : ScriptFault) → f ≡ ReplayFault.Script g → (bytes : List ℕ) × IsLeft (R.left reader.old) bytes × GivesUp bytes f) }
    ensures reads { IfErr result (λ f. R.failures reader.new ≡ reads_failed f (R.failures reader.old)) }
    ensures unwritten { IfErr result (λ f. f ≢ ReplayFault.Write) }
{
    unread.find_line(reader)?;
    match take_head(unread) {
        Ok(version) => Ok(version),
        Err(fault) => Err(told_at_end(fault, unread, reader)),
    }
}

// The version that the first line that is held tells. A line that tells version 2 is forgotten.
fn take_head(unread: &mut Unread) -> Result<Version, ReplayFault>
    ensures head { IfOk result (λ version. IsBehindHead version unread.old.held unread.new.held) }
    ensures ended { unread.new.ended ≡ unread.old.ended }
    ensures kept { OnErr result (unread.new ≡ unread.old) }
    ensures fault { IfErr result (λ f. (g : ScriptFault) × (f ≡ ReplayFault.Script g) × IsHeadFault unread.old.held g) }
{
    let held = unread.as_slice();
    let (version, behind) = read_head(held)?;
    let used = held.len() - behind.len();
    unread.forget(used);
    Ok(version)
}

// The run of the founders that the first line behind the head tells, before any step. The line is held then.
fn founded<R: Source>(
    alloc: Global,
    version: Version,
    reader: &mut R,
    unread: &mut Unread,
) -> Result<WeightedRun, ReplayFault>
    requires knows { KnowsEnd unread.old (R.left reader.old) }
    ensures knows { OnOk result (KnowsEnd unread.new (R.left reader.new)) }
    ensures held { OnOk result (TakesIn (R.left reader.old) (R.left reader.new) unread.old.held unread.new.held) }
    ensures same { OnOk result (unread.old.ended ≡ true → unread.new ≡ unread.old) }
    ensures line { OnOk result (HasFeed unread.new.held ⊎ (unread.new.ended ≡ true)) }
    ensures founded { IfOk result (λ r. IsFounded unread.new.held r) }
    ensures fine { OnOk result (R.failures reader.new ≡ R.failures reader.old) }
    ensures script { IfErr result (λ f. (g : ScriptFault) → f ≡ ReplayFault.Script g → IsOfWhole (λ bytes. GivesUpBehind version bytes f) unread.old (R.left reader.old)) }
    ensures reads { IfErr result (λ f. R.failures reader.new ≡ reads_failed f (R.failures reader.old)) }
    ensures unwritten { IfErr result (λ f. f ≢ ReplayFault.Write) }
{
    unread.find_line(reader)?;
    match founded_by(alloc, version, unread.as_slice()) {
        Ok(running) => Ok(running),
        Err(fault) => Err(told_at_end(fault, unread, reader)),
    }
}

// The run of the founders that the first line tells, before any step.
fn founded_by(alloc: Global, version: Version, input: &[u8]) -> Result<WeightedRun, ReplayFault>
    ensures founded { IfOk result (λ r. IsFounded input.now r) }
    ensures fault { IfErr result (λ f. FoundsNone version input.now f) }
{
    let founders = founders_in(version, input)?;
    let replica = Registers::new(alloc, BuildHasherDefault::<FoldHasher>::new());
    in_memory(Running::new(alloc, founders, &replica))
}
