//! The steps of a trace.
ghost use Rattle.std.specs.Prelude.{◌≡◌, ◌+◌, ◌<◌, ◌^◌, ◌∷◌, ◌++◌, [], length, IfOk, IfErr, OnOk, OnErr, MatchOption};
ghost use Rattle.std.specs.Io.KnownBytes.{IsAtEnd};
ghost use Rattle.rambo_atomic.specs.Unreads.{KnowsEnd};
ghost use Rattle.rambo_text.specs.Words.{Lacks};
ghost use Rattle.rambo_names.specs.declared.refusal.Refusal.{Refusal};
ghost use Rattle.rambo_lines.specs.Fronts.{BeginsWithStep, step_of};
ghost use Rattle.rambo_retrace.specs.Retraces.{Retraces, RefusedBy, StopsAt, TakesFirst, StopsAtFirst, retraced, reads_failed};
ghost use Rattle.rambo_retrace.specs.declared.fault.RetraceFault.TheVariants as fault;

use crate::fault::RetraceFault;
use crate::lines::{used_of, whole_line};
use crate::taker::Taker;
use rambo_atomic::{Source, Unread};
use rambo_lines::{Frequent, at_line, frequent_call, frequent_step, read_step};
use rambo_names::{Refusal, Weighted};
use rambo_run::Step;
use std::alloc::Global;

// Once so many bytes of lines were read, no further line is.
const BYTE_LIMIT: u64 = 1 << 63;

/// What was read of the steps of a trace.
#[derive(Clone, Copy, PartialEq, Eq, Debug)]
pub struct Retraced {
    /// How many steps it has.
    pub steps: u64,
    /// How many bytes their lines have.
    pub bytes: u64,
    /// How many bytes a last line has that lacks its line feed. Its step wasn't taken.
    pub torn: u64,
}

/// Takes the steps that the lines of a trace tell, of which some bytes are held and the reader has the rest, from the
/// third line on.
///
/// The trace is read piece by piece, and no more of it is held than the lines of a piece. `Script` at the first line
/// that tells no step, or where there is no room for the bytes of a get or a set; `Refused` at the first whose step
/// isn't taken; `Read` where the reader fails, and `Memory` where there is no room for a piece. The steps of the lines
/// before were taken then. A last line without its line feed is never faulty.
pub fn retrace<S: Source, T: Taker>(
    alloc: Global,
    unread: &mut Unread,
    reader: &mut S,
    taker: &mut T,
) -> Result<Retraced, RetraceFault>
    requires { KnowsEnd unread.old (S.left reader.old) }
    ensures ok { IfOk result (λ r. (on : Retraces (T.steps taker.old) (T.steps taker.new) (S.left reader.old) (S.left reader.new) unread.old.held unread.new.held)
        × (r ≡ retraced on.steps unread.new.held)) }
    ensures torn { OnOk result (Lacks 10 unread.new.held) }
    ensures end { OnOk result (IsAtEnd (S.left reader.new)) }
    ensures fine { OnOk result (S.failures reader.new ≡ S.failures reader.old) }
    ensures few { IfOk result (λ r. r.steps + 3 < 2 ^ 64) }
    ensures err { IfErr result (λ f. (on : Retraces (T.steps taker.old) (T.steps taker.new) (S.left reader.old) (S.left reader.new) unread.old.held unread.new.held)
        × StopsAt (RefusedBy T.steps T.refuses (T.steps taker.new)) (length on.steps + 3) unread.new.held f) }
    ensures reads { IfErr result (λ f. S.failures reader.new ≡ reads_failed f (S.failures reader.old)) }
{
    let mut steps = 0;
    let mut bytes = 0;
    while unread.find_line(reader)? {
        if BYTE_LIMIT <= bytes {
            return Err(RetraceFault::Memory);
        }
        let Some(used) = take_first(alloc, steps + 3, unread.as_slice(), taker)? else {
            let torn = unread.as_slice().len() as u64;
            return Ok(Retraced { steps, bytes, torn });
        };
        unread.forget(used);
        steps += 1;
        bytes += used as u64;
    }
    Ok(Retraced {
        steps,
        bytes,
        torn: 0,
    })
}

// Takes the step that the first of some lines tells, which has this number: how many bytes the line has with its line
// feed. None where it lacks that; then nothing was taken.
#[inline(always)]
fn take_first<T: Taker>(
    alloc: Global,
    number: u64,
    lines: &[u8],
    taker: &mut T,
) -> Result<Option<usize>, RetraceFault>
    ensures taken { IfOk result (λ found. MatchOption found (Lacks 10 lines.now × (T.steps taker.new ≡ T.steps taker.old)) (λ used. TakesFirst lines.now used (T.steps taker.old) (T.steps taker.new))) }
    ensures kept { OnErr result (T.steps taker.new ≡ T.steps taker.old) }
    ensures fault { IfErr result (λ f. StopsAtFirst (T.refuses taker.old) number lines.now f) }
{
    if let Some((step, rest)) = frequent_step(lines) {
        return give_first(number, whole_step(step), lines, rest, taker);
    }
    if let Some((name, op, rest)) = frequent_call(lines) {
        return give_first(number, Step::Call(name, op), lines, rest, taker);
    }
    take_line(alloc, number, lines, taker)
}

// The same where that step is known, and what stands behind its line.
#[inline(always)]
fn give_first<T: Taker>(
    number: u64,
    step: Step<Weighted>,
    lines: &[u8],
    rest: &[u8],
    taker: &mut T,
) -> Result<Option<usize>, RetraceFault>
    requires { BeginsWithStep lines.now step rest.now }
    ensures taken { IfOk result (λ found. MatchOption found (Lacks 10 lines.now × (T.steps taker.new ≡ T.steps taker.old)) (λ used. TakesFirst lines.now used (T.steps taker.old) (T.steps taker.new))) }
    ensures kept { OnErr result (T.steps taker.new ≡ T.steps taker.old) }
    ensures fault { IfErr result (λ f. StopsAtFirst (T.refuses taker.old) number lines.now f) }
{
    let Some(used) = used_of(lines, rest) else {
        return Ok(None);
    };
    give(number, step, taker)?;
    Ok(Some(used))
}

// The same of a step of any kind.
#[inline(never)]
fn take_line<T: Taker>(
    alloc: Global,
    number: u64,
    lines: &[u8],
    taker: &mut T,
) -> Result<Option<usize>, RetraceFault>
    ensures taken { IfOk result (λ found. MatchOption found (Lacks 10 lines.now × (T.steps taker.new ≡ T.steps taker.old)) (λ used. TakesFirst lines.now used (T.steps taker.old) (T.steps taker.new))) }
    ensures kept { OnErr result (T.steps taker.new ≡ T.steps taker.old) }
    ensures fault { IfErr result (λ f. StopsAtFirst (T.refuses taker.old) number lines.now f) }
{
    let Some((line, used)) = whole_line(lines) else {
        return Ok(None);
    };
    let step = at_line(number, read_step(alloc, line))?;
    give(number, step, taker)?;
    Ok(Some(used))
}

// Gives a taker the step of the line of a number.
#[inline(always)]
fn give<T: Taker>(number: u64, step: Step<Weighted>, taker: &mut T) -> Result<(), RetraceFault>
    ensures taken { OnOk result (T.steps taker.new ≡ T.steps taker.old ++ step ∷ []) }
    ensures kept { OnErr result (T.steps taker.new ≡ T.steps taker.old) }
    ensures fault { IfErr result (λ f. (r : Refusal) × (f ≡ fault.Refused number r) × T.refuses taker.old step r) }
{
    taker
        .take(step)
        .map_err(|refusal| RetraceFault::Refused(number, refusal))
}

// The step of a frequent kind.
#[inline(always)]
fn whole_step(step: Frequent) -> Step<Weighted>
    ensures { result ≡ step_of step }
{
    match step {
        Frequent::Send(from, to) => Step::Send(from, to),
        Frequent::Deliver(letter) => Step::Deliver(letter),
        Frequent::Advance(id) => Step::Advance(id),
    }
}
