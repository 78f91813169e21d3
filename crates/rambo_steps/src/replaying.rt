//! Scripts over a run of any kind.
ghost use Rattle.std.specs.Prelude.{◌≡◌, ◌≢◌, ◌⊎◌, ◌<◌, ◌++◌, ◌∷◌, ℕ, List, [], true, length, Ok, IsOk, OnOk, OnErr, IfOk, IfErr};
ghost use Rattle.std.specs.Io.KnownBytes.{IsAtEnd};
ghost use Rattle.rambo_atomic.specs.Unreads.{KnowsEnd, HasFeed};
ghost use Rattle.rambo_text.specs.declared.fault.ScriptFault.{ScriptFault};
ghost use Rattle.rambo_text.specs.Words.{IsFirstLine};
ghost use Rattle.rambo_steps.specs.Replays.{reads_failed};
ghost use Rattle.rambo_names.specs.Refusals.{number_of};
ghost use Rattle.rambo_node.specs.declared.step.StepOf.TheVariants as step;
ghost use Rattle.rambo_check.specs.Lines.{Refused, items_text};
ghost use Rattle.rambo_outcome.specs.Outcomes.{order_items_in};
ghost use Rattle.rambo_outcome.specs.Notes.{HasRoom, noted, told_text};
ghost use Rattle.rambo_sequence.specs.StoreOrders.{NoTwice, all_calls, order_of};
ghost use Rattle.rambo_lines.specs.Faults.{IsFaultyStep};
ghost use Rattle.rambo_lines.specs.Fronts.{step_of};
ghost use Rattle.rambo_steps.specs.Runs.{TellsFounders, IsFounded, Takes, TakesStep, Tells, IsReplayBehind, GivesUpBehind, ended, IsFaultAt, TakesFirst, IsFirstFaultAt, IsOfWhole, FoundsNone};

use rambo_atomic::{Source, Unread};
use rambo_history::{CallId, History, Op};
use rambo_lines::{
    Frequent, Place, at_line, frequent_call, frequent_step, read_founders, read_step,
};
use rambo_names::{Name, Refusal, Weighted};
use rambo_outcome::{Notes, Told, write_maps, write_order, write_sequences};
use rambo_run::{Run, Step};
use rambo_sequence::{KeySequence, one_order};
use rambo_text::{ReplayFault, Version, next_line};
use std::alloc::Global;

/// The founders on the first line after the head of a script.
///
/// `Script` where that line is faulty.
pub fn founders_in(version: Version, input: &[u8]) -> Result<Weighted, ReplayFault>
    ensures founders { IfOk result (λ c. TellsFounders input.now c) }
    ensures fault { IfErr result (λ f. FoundsNone version input.now f) }
    ensures told { IfErr result (λ f. f ≢ ReplayFault.Memory) }
{
    let (line, _) = next_line(input);
    let founders = at_line(Place::first(version).line, read_founders(line))?;
    Ok(founders)
}

/// Takes the steps that the lines after that of the founders tell: what is told of the run, in the version of the script,
/// of which what is held and what the reader has left is what stands behind the head. With the run's history it is the
/// text of what the run gives.
///
/// The first line is held whole, and the run is that of its founders, before any step. The script is read piece by
/// piece, and no more of it is held than the lines of a piece. `Script` where a line after theirs is faulty, or where
/// there is no room for the bytes of a get or a set; `Memory` where there is no room for a piece, the run or its text;
/// `Read` where the reader fails. Of a script with a faulty line the rest is read too, for the reader's failures alone.
/// What the run is afterwards, the contract does not say.
pub fn run_through<S: Source, R: Run<Weighted>>(
    alloc: Global,
    version: Version,
    reader: &mut S,
    unread: &mut Unread,
    running: &mut R,
) -> Result<Told, ReplayFault>
    requires knows { KnowsEnd unread.old (S.left reader.old) }
    requires line { HasFeed unread.old.held ⊎ (unread.old.ended ≡ true) }
    requires founded { IsFounded unread.old.held (R.running running.old) }
    ensures ok { IfOk result (λ told. IsOfWhole (λ bytes. IsReplayBehind version bytes (told_text (R.running running.new).state.history told)) unread.old (S.left reader.old)) }
    ensures room { IfOk result (λ told. HasRoom told.room (R.running running.new).state.history) }
    ensures end { OnOk result (IsAtEnd (S.left reader.new)) }
    ensures fine { OnOk result (S.failures reader.new ≡ S.failures reader.old) }
    ensures script { IfErr result (λ f. (g : ScriptFault) → f ≡ ReplayFault.Script g → IsOfWhole (λ bytes. GivesUpBehind version bytes f) unread.old (S.left reader.old)) }
    ensures reads { IfErr result (λ f. S.failures reader.new ≡ reads_failed f (S.failures reader.old)) }
    ensures unwritten { IfErr result (λ f. f ≢ ReplayFault.Write) }
{
    let mut notes = Notes::new(alloc);
    forget_line(unread);
    let mut place = Place::first(version);
    while unread.find_line(reader)? {
        if place.line == u64::MAX {
            return Err(ReplayFault::Memory);
        }
        place = place.next();
        if let Err(fault) = take_held(alloc, place, unread, running, &mut notes) {
            return Err(told_at_end(fault, unread, reader));
        }
    }
    told_of(alloc, version, running, notes)
}

/// The fault that is told where what was read of a script has this one: the script is read to its end before, and where
/// that fails its own fault is told.
#[inline(never)]
pub fn told_at_end<S: Source>(
    fault: ReplayFault,
    unread: &mut Unread,
    reader: &mut S,
) -> ReplayFault
    requires knows { KnowsEnd unread.old (S.left reader.old) }
    requires own { (fault ≢ ReplayFault.Read) × (fault ≢ ReplayFault.Write) }
    ensures kept { (g : ScriptFault) → result ≡ ReplayFault.Script g → result ≡ fault }
    ensures reads { S.failures reader.new ≡ reads_failed result (S.failures reader.old) }
    ensures unwritten { result ≢ ReplayFault.Write }
{
    match unread.read_rest(reader) {
        Ok(()) => fault,
        Err(stream) => ReplayFault::from(stream),
    }
}

// Forgets the first line that is held.
fn forget_line(unread: &mut Unread)
    ensures line { (line : List ℕ) × IsFirstLine unread.old.held line unread.new.held }
    ensures ended { unread.new.ended ≡ unread.old.ended }
{
    let held = unread.as_slice();
    let (_, rest) = next_line(held);
    let used = held.len() - rest.len();
    unread.forget(used);
}

// Takes the step that the first line that is held tells, which stands at a place, notes what is told of it, and forgets
// the line.
#[inline(always)]
fn take_held<R: Run<Weighted>>(
    alloc: Global,
    place: Place,
    unread: &mut Unread,
    running: &mut R,
    notes: &mut Notes,
) -> Result<(), ReplayFault>
    requires { unread.old.held ≢ [] }
    ensures taken { OnOk result (TakesFirst unread.old.held place.step (R.running running.old) (R.running running.new) notes.old notes.new unread.new.held) }
    ensures ended { unread.new.ended ≡ unread.old.ended }
    ensures less { OnOk result (length unread.new.held < length unread.old.held) }
    ensures kept { OnErr result (unread.new ≡ unread.old) }
    ensures fault { IfErr result (λ f. IsFirstFaultAt place.line unread.old.held f) }
{
    let held = unread.as_slice();
    let rest = take_first(alloc, place, held, running, notes)?;
    let used = held.len() - rest.len();
    unread.forget(used);
    Ok(())
}

// Takes the step that the first of some lines tells, which stands at a place, and notes what is told of it: the lines
// after it.
#[inline(always)]
fn take_first<'a, R: Run<Weighted>>(
    alloc: Global,
    place: Place,
    lines: &'a [u8],
    running: &mut R,
    notes: &mut Notes,
) -> Result<&'a [u8], ReplayFault>
    ensures taken { IfOk result (λ rest. TakesFirst lines.now place.step (R.running running.old) (R.running running.new) notes.old notes.new rest.now) }
    ensures fault { IfErr result (λ f. IsFirstFaultAt place.line lines.now f) }
{
    if let Some((step, rest)) = frequent_step(lines) {
        take_frequent(place, step, running, notes)?;
        return Ok(rest);
    }
    if let Some((name, op, rest)) = frequent_call(lines) {
        take_call(place, name, op, running, notes)?;
        return Ok(rest);
    }
    let (line, rest) = next_line(lines);
    take_line(alloc, place, line, running, notes)?;
    Ok(rest)
}

// Takes a step of a frequent kind, and notes what is told of it.
#[inline(always)]
fn take_frequent<R: Run<Weighted>>(
    place: Place,
    step: Frequent,
    running: &mut R,
    notes: &mut Notes,
) -> Result<(), ReplayFault>
    ensures taken { OnOk result (Takes (step_of step) place.step (R.running running.old) (R.running running.new) notes.old notes.new) }
    ensures fault { IfErr result (λ f. f ≡ ReplayFault.Memory) }
{
    match step {
        Frequent::Send(from, to) => take_send(place, from, to, running, notes),
        Frequent::Deliver(letter) => take_deliver(place, letter, running, notes),
        Frequent::Advance(id) => take_advance(place, id, running, notes),
    }
}

// Takes a sending, and notes what is told of it.
#[inline(always)]
fn take_send<R: Run<Weighted>>(
    place: Place,
    from: Name,
    to: Name,
    running: &mut R,
    notes: &mut Notes,
) -> Result<(), ReplayFault>
    ensures taken { OnOk result (Takes (step.Send from to) place.step (R.running running.old) (R.running running.new) notes.old notes.new) }
    ensures fault { IfErr result (λ f. f ≡ ReplayFault.Memory) }
{
    match in_memory(running.send(from, to))? {
        Ok(_) => Ok(()),
        Err(refusal) => note_refused(place, refusal, running.history(), notes),
    }
}

// Takes a delivery, and notes what is told of it.
#[inline(always)]
fn take_deliver<R: Run<Weighted>>(
    place: Place,
    letter: u64,
    running: &mut R,
    notes: &mut Notes,
) -> Result<(), ReplayFault>
    ensures taken { OnOk result (Takes (step.Deliver letter) place.step (R.running running.old) (R.running running.new) notes.old notes.new) }
    ensures fault { IfErr result (λ f. f ≡ ReplayFault.Memory) }
{
    match in_memory(running.deliver(letter))? {
        Ok(()) => Ok(()),
        Err(refusal) => note_refused(place, refusal, running.history(), notes),
    }
}

// Takes the advance of a call, and notes what is told of it.
#[inline(always)]
fn take_advance<R: Run<Weighted>>(
    place: Place,
    id: CallId,
    running: &mut R,
    notes: &mut Notes,
) -> Result<(), ReplayFault>
    ensures taken { OnOk result (Takes (step.Advance id) place.step (R.running running.old) (R.running running.new) notes.old notes.new) }
    ensures fault { IfErr result (λ f. f ≡ ReplayFault.Memory) }
{
    match in_memory(running.advance(id))? {
        Ok(_) => Ok(()),
        Err(refusal) => note_refused(place, refusal, running.history(), notes),
    }
}

// Takes the step that the line at a place tells, and notes what is told of it.
#[inline(never)]
fn take_line<R: Run<Weighted>>(
    alloc: Global,
    place: Place,
    line: &[u8],
    running: &mut R,
    notes: &mut Notes,
) -> Result<(), ReplayFault>
    ensures taken { OnOk result (TakesStep line.now place.step (R.running running.old) (R.running running.new) notes.old notes.new) }
    ensures fault { IfErr result (λ f. IsFaultAt (place.line) (IsFaultyStep line.now) f) }
{
    let step = at_line(place.line, read_step(alloc, line))?;
    take_step(place, &step, running, notes)
}

// Takes the call of an operation, and notes what is told of it.
fn take_call<R: Run<Weighted>>(
    place: Place,
    name: Name,
    op: Op,
    running: &mut R,
    notes: &mut Notes,
) -> Result<(), ReplayFault>
    ensures taken { OnOk result (Takes (step.Call name op) place.step (R.running running.old) (R.running running.new) notes.old notes.new) }
    ensures fault { IfErr result (λ f. f ≡ ReplayFault.Memory) }
{
    match in_memory(running.call(name, op))? {
        Ok(_) => Ok(()),
        Err(refusal) => note_refused(place, refusal, running.history(), notes),
    }
}

// Notes that a step was refused, after which the run has this history.
#[inline(never)]
fn note_refused(
    place: Place,
    refusal: Refusal,
    history: &History,
    notes: &mut Notes,
) -> Result<(), ReplayFault>
    ensures ok { OnOk result (notes.new ≡ noted notes.old (length history.now.events) (Refused place.step (number_of refusal) ∷ [])) }
    ensures fault { IfErr result (λ f. f ≡ ReplayFault.Memory) }
{
    in_memory(notes.add(place.step, &Err(refusal), history))
}

// Takes a step of any kind, and notes what is told of it.
fn take_step<R: Run<Weighted>>(
    place: Place,
    step: &Step<Weighted>,
    running: &mut R,
    notes: &mut Notes,
) -> Result<(), ReplayFault>
    ensures taken { OnOk result (Takes step.now place.step (R.running running.old) (R.running running.new) notes.old notes.new) }
    ensures fault { IfErr result (λ f. f ≡ ReplayFault.Memory) }
{
    let told = in_memory(running.take(step))?;
    in_memory(notes.add(place.step, &told, running.history()))
}

// What is told of a run, with these notes.
fn told_of<R: Run<Weighted>>(
    alloc: Global,
    version: Version,
    running: &R,
    notes: Notes,
) -> Result<Told, ReplayFault>
    ensures ok { IfOk result (λ told. Tells version (R.running running.now).state notes told) }
    ensures fault { IfErr result (λ f. f ≡ ReplayFault.Memory) }
{
    let mut tail = Vec::new(alloc);
    end(alloc, version, running, &mut tail)?;
    in_memory(Told::new(alloc, version, running.history(), notes, tail))
}

// Appends the sequences, the order of all keys and the maps of a run.
fn end<R: Run<Weighted>>(
    alloc: Global,
    version: Version,
    running: &R,
    text: &mut Vec<u8>,
) -> Result<(), ReplayFault>
    ensures ok { OnOk result (text.new.items ≡ ended version (R.running running.now).state text.old.items) }
    ensures fault { IfErr result (λ f. f ≡ ReplayFault.Memory) }
{
    let sequences = in_memory(running.sequences(alloc))?;
    in_memory(write_sequences(sequences.as_slice(), text))?;
    write_order_of(
        alloc,
        version,
        running.history(),
        sequences.as_slice(),
        text,
    )?;
    let maps = in_memory(running.maps(alloc))?;
    in_memory(write_maps(maps.as_slice(), text))
}

// Appends the one order of all keys' calls, where a text of the version has it.
fn write_order_of(
    alloc: Global,
    version: Version,
    history: &History,
    sequences: &[KeySequence],
    text: &mut Vec<u8>,
) -> Result<(), ReplayFault>
    requires { NoTwice (all_calls sequences.now) }
    ensures ok { OnOk result (text.new.items ≡ text.old.items ++ items_text (order_items_in version (order_of history.now.events sequences.now))) }
    ensures fault { IfErr result (λ f. f ≡ ReplayFault.Memory) }
{
    match version {
        Version::One => Ok(()),
        Version::Two => {
            let order = in_memory(one_order(alloc, history, sequences))?;
            in_memory(write_order(order.as_slice(), text))
        }
    }
}

/// The same, where a refusal can only be `OutOfMemory`.
pub fn in_memory<T>(told: Result<T, Refusal>) -> Result<T, ReplayFault>
    ensures ok { IfOk result (λ x. told ≡ Ok x) }
    ensures fault { IfErr result (λ f. f ≡ ReplayFault.Memory) }
    ensures succeeds { IsOk told → IsOk result }
{
    told.map_err(|_| ReplayFault::Memory)
}
