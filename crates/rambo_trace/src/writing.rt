//! Writing the script of a run as it is spelt.
ghost use Rattle.std.specs.Prelude.{◌≡◌, ◌⊎◌, ◌++◌, ◌∷◌, [], ℕ, List, Option, Ok, OnOk, OnErr, IfOk, IfErr};
ghost use Rattle.std.specs.Io.KnownBytes.{Appends};
ghost use Rattle.rambo_atomic.specs.Streams.{Begins, counted};
ghost use Rattle.rambo_atomic.specs.declared.whole.StreamFault.TheVariants as fault;
ghost use Rattle.rambo_text.specs.declared.version.Version.TheVariants.{Two};
ghost use Rattle.rambo_text.specs.Versions.{head_text};
ghost use Rattle.rambo_lines.specs.Scripts.{founders_line, steps_text};
ghost use Rattle.rambo_names.specs.Weights.{Weights};
ghost use Rattle.rambo_node.specs.Steps.{Step};
ghost use Rattle.rambo_trace.specs.Traces.{Moves, trace_text};

use rambo_atomic::{Sink, StreamFault, write_all};
use rambo_lines::step_text;
use rambo_names::{Refusal, Weighted, write_conf};
use rambo_run::Step;
use std::alloc::Global;

/// Once a piece of the text has this many bytes it is written.
const PIECE: usize = 64 * 1024;

/// Writes the script of these founders and steps in version 2, piece by piece.
///
/// `Write` where the writer fails, and `Memory` where there is no room for a line; after both a prefix of the script
/// was written.
pub fn write_trace<W: Sink>(
    alloc: Global,
    founders: Weighted,
    steps: &[Step<Weighted>],
    writer: &mut W,
) -> Result<(), StreamFault>
    ensures ok { OnOk result (Appends (W.taken writer.old) (W.taken writer.new) (trace_text founders steps.now)) }
    ensures err { OnErr result (Begins (W.taken writer.old) (W.taken writer.new) (trace_text founders steps.now)) }
    ensures fine { OnOk result (W.failures writer.new ≡ W.failures writer.old) }
    ensures fault { IfErr result (λ f. ((f ≡ fault.Write) × (W.failures writer.new ≡ counted (W.failures writer.old)))
        ⊎ ((f ≡ fault.Memory) × (W.failures writer.new ≡ W.failures writer.old))) }
{
    let mut piece = Vec::new(alloc);
    in_memory(founders_text(founders, &mut piece))?;
    write_rest(piece, steps, writer)
}

/// Writes the beginning of a script of these founders in version 2, before any step.
///
/// `Write` where the writer fails, and `Memory` where there is no room for a line; after both a prefix of it was written.
pub fn write_head<W: Sink>(
    alloc: Global,
    founders: Weighted,
    writer: &mut W,
) -> Result<(), StreamFault>
    ensures ok { OnOk result (Appends (W.taken writer.old) (W.taken writer.new) (trace_text founders [])) }
    ensures err { OnErr result (Begins (W.taken writer.old) (W.taken writer.new) (trace_text founders [])) }
    ensures fine { OnOk result (W.failures writer.new ≡ W.failures writer.old) }
    ensures fault { IfErr result (λ f. ((f ≡ fault.Write) × (W.failures writer.new ≡ counted (W.failures writer.old)))
        ⊎ ((f ≡ fault.Memory) × (W.failures writer.new ≡ W.failures writer.old))) }
{
    write_trace(alloc, founders, &[], writer)
}

/// Writes the lines of these steps, piece by piece: a trace that was written so far goes on by them.
///
/// `Write` where the writer fails, and `Memory` where there is no room for a line; after both a prefix of the lines was
/// written.
pub fn write_more<W: Sink>(
    alloc: Global,
    steps: &[Step<Weighted>],
    writer: &mut W,
) -> Result<(), StreamFault>
    ensures ok { OnOk result (Appends (W.taken writer.old) (W.taken writer.new) (steps_text steps.now)) }
    ensures err { OnErr result (Begins (W.taken writer.old) (W.taken writer.new) (steps_text steps.now)) }
    ensures fine { OnOk result (W.failures writer.new ≡ W.failures writer.old) }
    ensures fault { IfErr result (λ f. ((f ≡ fault.Write) × (W.failures writer.new ≡ counted (W.failures writer.old)))
        ⊎ ((f ≡ fault.Memory) × (W.failures writer.new ≡ W.failures writer.old))) }
    ensures goes_on { (start : Option (List ℕ)) (founders : Weights) (before : List (Step Weights)) → Appends start (W.taken writer.old) (trace_text founders before)
        → OnOk result (Appends start (W.taken writer.new) (trace_text founders (before ++ steps.now))) }
    ensures stops { (start : Option (List ℕ)) (founders : Weights) (before : List (Step Weights)) → Appends start (W.taken writer.old) (trace_text founders before)
        → OnErr result (Begins start (W.taken writer.new) (trace_text founders (before ++ steps.now))) }
{
    write_rest(Vec::new(alloc), steps, writer)
}

// Writes a piece, and the lines of these steps after it.
fn write_rest<W: Sink>(
    mut piece: Vec<u8>,
    steps: &[Step<Weighted>],
    writer: &mut W,
) -> Result<(), StreamFault>
    ensures ok { OnOk result (Appends (W.taken writer.old) (W.taken writer.new) (piece.items ++ steps_text steps.now)) }
    ensures err { OnErr result (Begins (W.taken writer.old) (W.taken writer.new) (piece.items ++ steps_text steps.now)) }
    ensures fine { OnOk result (W.failures writer.new ≡ W.failures writer.old) }
    ensures fault { IfErr result (λ f. ((f ≡ fault.Write) × (W.failures writer.new ≡ counted (W.failures writer.old)))
        ⊎ ((f ≡ fault.Memory) × (W.failures writer.new ≡ W.failures writer.old))) }
{
    for step in steps {
        in_memory(step_text(step, &mut piece))?;
        write_if_long(&mut piece, writer)?;
    }
    write_all(writer, piece.as_slice())
}

// Writes a piece that has grown long, and empties it then.
fn write_if_long<W: Sink>(piece: &mut Vec<u8>, writer: &mut W) -> Result<(), StreamFault>
    ensures ok { OnOk result (Moves (W.taken writer.old) (W.taken writer.new) piece.old.items piece.new.items) }
    ensures err { OnErr result (Begins (W.taken writer.old) (W.taken writer.new) piece.old.items) }
    ensures fine { OnOk result (W.failures writer.new ≡ W.failures writer.old) }
    ensures fault { IfErr result (λ f. (f ≡ fault.Write) × (W.failures writer.new ≡ counted (W.failures writer.old))) }
{
    if piece.len() < PIECE {
        return Ok(());
    }
    write_all(writer, piece.as_slice())?;
    piece.clear();
    Ok(())
}

// Appends the lines that tell the version and the founders.
fn founders_text(founders: Weighted, out: &mut Vec<u8>) -> Result<(), Refusal>
    ensures ok { OnOk result (out.new.items ≡ out.old.items ++ (head_text Two ++ (founders_line founders ++ 10 ∷ []))) }
{
    out.extend_from_slice(b"rambo 2\nfounders ")?;
    write_conf(&founders, out)?;
    out.push(b'\n')?;
    Ok(())
}

// What was asked for, where there was room for it.
fn in_memory<T>(told: Result<T, Refusal>) -> Result<T, StreamFault>
    ensures ok { IfOk result (λ x. told ≡ Ok x) }
    ensures fault { IfErr result (λ f. f ≡ fault.Memory) }
{
    told.map_err(|_| StreamFault::Memory)
}
