//! The founders of a trace.
ghost use Rattle.std.specs.Prelude.{◌≡◌, ◌⊎◌, ◌+◌, ◌∷◌, ◌++◌, [], length, IfOk, IfErr, OnOk, OnErr};
ghost use Rattle.std.specs.Io.KnownBytes.{IsAtEnd};
ghost use Rattle.rambo_atomic.specs.Unreads.{KnowsEnd, TakesIn, HasFeed};
ghost use Rattle.rambo_text.specs.declared.fault.ScriptFault.{ScriptFault};
ghost use Rattle.rambo_text.specs.declared.version.Version.TheVariants.{Two};
ghost use Rattle.rambo_text.specs.Versions.{head_text};
ghost use Rattle.rambo_lines.specs.Scripts.{AreFounders, founders_line};
ghost use Rattle.rambo_trace.specs.Traces.{trace_text};
ghost use Rattle.rambo_retrace.specs.Retraces.{IsUnrefused, TellsNoHead, TellsNone, FoundsNone, reads_failed};
ghost use Rattle.rambo_retrace.specs.declared.fault.RetraceFault.TheVariants as fault;

use crate::fault::RetraceFault;
use crate::lines::whole_line;
use rambo_atomic::{Source, Unread};
use rambo_lines::{at_line, read_founders};
use rambo_names::Weighted;
use rambo_text::{Fault, ScriptFault};

/// What the first two lines of a trace tell.
#[derive(Clone, Copy, PartialEq, Eq, Debug)]
pub struct Founded {
    pub founders: Weighted,
    /// How many bytes the two lines have.
    pub bytes: u64,
}

/// Reads the first two lines of a trace, which tell its version and its founders. No more of it is used.
///
/// `Script` where the first line isn't `rambo 2` or the second tells no founders, each with its line feed; `Read` where
/// the reader fails, and `Memory` where there is no room for a piece.
pub fn retrace_founders<S: Source>(
    unread: &mut Unread,
    reader: &mut S,
) -> Result<Founded, RetraceFault>
    requires { KnowsEnd unread.old (S.left reader.old) }
    ensures knows { KnowsEnd unread.new (S.left reader.new) }
    ensures founders { IfOk result (λ r. AreFounders r.founders) }
    ensures head { IfOk result (λ r. TakesIn (S.left reader.old) (S.left reader.new) unread.old.held (trace_text r.founders [] ++ unread.new.held)) }
    ensures bytes { IfOk result (λ r. r.bytes ≡ length (trace_text r.founders [])) }
    ensures fine { OnOk result (S.failures reader.new ≡ S.failures reader.old) }
    ensures script { IfErr result (λ f. (g : ScriptFault) → f ≡ fault.Script g → TellsNone (S.left reader.old) (S.left reader.new) unread.old.held unread.new.held g) }
    ensures whole { IfErr result (λ f. (g : ScriptFault) → f ≡ fault.Script g → HasFeed unread.new.held ⊎ IsAtEnd (S.left reader.new)) }
    ensures unrefused { IfErr result IsUnrefused }
    ensures reads { IfErr result (λ f. S.failures reader.new ≡ reads_failed f (S.failures reader.old)) }
{
    unread.find_line(reader)?;
    let head = forget_head(unread)?;
    unread.find_line(reader)?;
    let (founders, used) = take_founders(unread)?;
    Ok(Founded {
        founders,
        bytes: (head + used) as u64,
    })
}

// Forgets the line that tells the version, where it is held first: how many bytes it has with its line feed.
fn forget_head(unread: &mut Unread) -> Result<usize, ScriptFault>
    ensures ended { unread.new.ended ≡ unread.old.ended }
    ensures head { OnOk result (unread.old.held ≡ head_text Two ++ unread.new.held) }
    ensures used { IfOk result (λ used. used ≡ length (head_text Two)) }
    ensures kept { OnErr result (unread.new ≡ unread.old) }
    ensures fault { IfErr result (λ g. (g ≡ record { fault = Fault.NoFounders; line = 1 }) × TellsNoHead unread.old.held) }
{
    let held = unread.as_slice();
    let Some((line, used)) = whole_line(held) else {
        return Err(no_founders(1));
    };
    if line != b"rambo 2".as_slice() {
        return Err(no_founders(1));
    }
    unread.forget(used);
    Ok(used)
}

// Forgets the line that tells founders, where it is held first: the founders, and how many bytes it has with its line feed.
fn take_founders(unread: &mut Unread) -> Result<(Weighted, usize), ScriptFault>
    ensures ended { unread.new.ended ≡ unread.old.ended }
    ensures founders { IfOk result (λ r. AreFounders r.0 × (unread.old.held ≡ founders_line r.0 ++ 10 ∷ unread.new.held)) }
    ensures used { IfOk result (λ r. r.1 ≡ length (founders_line r.0) + 1) }
    ensures kept { OnErr result (unread.new ≡ unread.old) }
    ensures fault { IfErr result (λ g. (g.line ≡ 2) × FoundsNone unread.old.held g.fault) }
{
    let held = unread.as_slice();
    let Some((line, used)) = whole_line(held) else {
        return Err(no_founders(2));
    };
    let founders = at_line(2, read_founders(line))?;
    unread.forget(used);
    Ok((founders, used))
}

// The line of this number tells no founders.
fn no_founders(line: u64) -> ScriptFault
    ensures { result ≡ record { fault = Fault.NoFounders; line = line } }
{
    ScriptFault {
        fault: Fault::NoFounders,
        line,
    }
}
