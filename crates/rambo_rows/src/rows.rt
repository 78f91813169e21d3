//! All rows of a text.
ghost use Rattle.std.specs.Prelude.{◌≡◌, ℕ, List, IfOk, OnOk, IfSome};
ghost use Rattle.std.specs.Io.KnownBytes.{Appends, IsAtEnd};
ghost use Rattle.rambo_rows.specs.Reports.{IsReport, is_note};

use crate::judging::is_right;
use crate::row::read_row;
use crate::tally::Tally;
use rambo_atomic::{Sink, Source, StreamFault, read_all, write_all};
use std::alloc::{AllocError, Global};

/// Reads rows, writes the name of each that is wrong and how many there are, and returns whether none is wrong and
/// there is a row at all.
///
/// All rows are read and run before the first byte is written.
pub fn judge_rows<R: Source, W: Sink>(
    alloc: Global,
    reader: &mut R,
    writer: &mut W,
) -> Result<bool, StreamFault>
    ensures told { IfOk result (λ green. (text : List ℕ) × (report : List ℕ) × IfSome (R.left reader.old) (λ bytes. text ≡ bytes)
        × IsReport text report green × Appends (W.taken writer.old) (W.taken writer.new) report) }
    ensures end { OnOk result (IsAtEnd (R.left reader.new)) }
    ensures fine { OnOk result ((R.failures reader.new ≡ R.failures reader.old) × (W.failures writer.new ≡ W.failures writer.old)) }
{
    let text = read_all(alloc, reader)?;
    let (report, green) = judged(alloc, text.as_slice())?;
    write_all(writer, report.as_slice())?;
    Ok(green)
}

// What is reported of the rows of a text, and whether none is wrong and there is a row at all.
fn judged(alloc: Global, text: &[u8]) -> Result<(Vec<u8>, bool), AllocError>
    ensures { IfOk result (λ r. IsReport text.now r.0.items r.1) }
{
    let mut tally = Tally::new(alloc);
    let mut rest = text;
    while !rest.is_empty() {
        let (row, behind) = read_row(alloc, rest)?;
        rest = behind;
        let name = row.name;
        if !is_note(name) {
            let right = is_right(alloc, row)?;
            tally.add(name, right)?;
        }
    }
    tally.tell_total()?;
    let green = tally.is_green();
    Ok((tally.report, green))
}

// Whether a row of this name is a note.
fn is_note(name: &[u8]) -> bool
    ensures { result ≡ is_note name.now }
{
    name.starts_with(b"#")
}
