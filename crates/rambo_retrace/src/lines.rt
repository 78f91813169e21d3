//! Lines that have their line feed.
ghost use Rattle.std.specs.Prelude.{◌≡◌, ℕ, List, length, IfSome, IfNone};
ghost use Rattle.rambo_text.specs.Words.{IsFirstLine, Lacks};
ghost use Rattle.rambo_retrace.specs.Retraces.{IsWholeLine, IsUsed};

use rambo_text::next_line;

/// The first line of some bytes, and how many it has with its line feed. None where it lacks that.
pub(crate) fn whole_line(bytes: &[u8]) -> Option<(&[u8], usize)>
    ensures found { IfSome result (λ found. (rest : List ℕ) × IsWholeLine bytes.now found.0.now rest × IsUsed found.0.now found.1) }
    ensures torn { IfNone result (Lacks 10 bytes.now) }
{
    let (line, rest) = next_line(bytes);
    let used = used_of(bytes, rest)?;
    Some((line, used))
}

/// How many bytes the first line has with its line feed, where this is behind it. None where it lacks that.
#[inline(always)]
pub(crate) fn used_of(bytes: &[u8], rest: &[u8]) -> Option<usize>
    requires { (line : List ℕ) × IsFirstLine bytes.now line rest.now }
    ensures found { IfSome result (λ used. (line : List ℕ) × IsWholeLine bytes.now line rest.now × IsUsed line used) }
    ensures torn { IfNone result (Lacks 10 bytes.now) }
{
    let used = bytes.len() - rest.len();
    if 0 < used && bytes[used - 1] == b'\n' {
        return Some(used);
    }
    None
}
