//! The version of a script.
ghost use Rattle.std.specs.Prelude.{IfOk, IfErr};
ghost use Rattle.rambo_text.specs.Versions.{IsFirstOf, IsBehindHead, TellNoVersion};
ghost use Rattle.rambo_lines.specs.Faults.{IsLineFault};
ghost use Rattle.rambo_lines.specs.Versions.{IsHeadFault};

use crate::script::{LINE_LIMIT, at_line};
use rambo_text::{Fault, ScriptFault, Version, next_line};

/// The version of a script, and what is after the line that gives it.
///
/// A text of version 1 has no such line. `LineTooLong` where the first line is too long; else `WrongCount` or
/// `BadNumber` where its first word is `rambo`, and it gives no version.
pub fn read_head(text: &[u8]) -> Result<(Version, &[u8]), ScriptFault>
    ensures found { IfOk result (λ found. IsBehindHead found.0 text.now found.1.now) }
    ensures fault { IfErr result (λ f. IsHeadFault text.now f) }
{
    let (line, rest) = next_line(text);
    let version = at_line(1, version_of(line))?;
    match version {
        Version::One => Ok((version, text)),
        Version::Two => Ok((version, rest)),
    }
}

// The version that the first line of a script tells.
fn version_of(line: &[u8]) -> Result<Version, Fault>
    ensures found { IfOk result (λ version. IsFirstOf version line.now) }
    ensures fault { IfErr result (λ f. IsLineFault TellNoVersion line.now f) }
{
    if line.len() > LINE_LIMIT {
        return Err(Fault::LineTooLong);
    }
    Version::told_by(line)
}
