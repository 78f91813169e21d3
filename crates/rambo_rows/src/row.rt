//! How a row is written.
ghost use Rattle.std.specs.Prelude.{◌≡◌, ◌<◌, ◌++◌, length, IfOk, OnOk};
ghost use Rattle.rambo_rows.specs.RowTexts.{IsRow, line_end, tells};

use rambo_text::next_line;
use std::alloc::{AllocError, Global};

/// How the word of a row that has a client served begins; the founders follow.
pub const LOCAL: &[u8] = b"local ";

/// A script, an outcome text or the commands of a client, and the expected result.
#[derive(Drop)]
pub struct Row<'a> {
    /// What the row shows.
    pub name: &'a [u8],
    /// `replay`, `check`, or `local` and the founders.
    pub word: &'a [u8],
    pub input: Vec<u8>,
    /// The output that is wanted.
    pub output: Vec<u8>,
    /// How it must end: `done`, `no`, or the words of a fault.
    pub ending: &'a [u8],
}

/// The first row of a text that isn't empty, and the text after the empty line that follows it.
pub fn read_row(alloc: Global, text: &[u8]) -> Result<(Row<'_>, &[u8]), AllocError>
    requires { 0 < length text.now }
    ensures row { IfOk result (λ r. IsRow text.now (record { name = r.0.name.now; word = r.0.word.now; input = r.0.input.items; output = r.0.output.items; ending = r.0.ending.now }) r.1.now) }
    ensures shorter { IfOk result (λ r. length r.1.now < length text.now) }
{
    let (name, mut rest) = next_line(text);
    let mut row = Row {
        name,
        word: b"",
        input: Vec::new(alloc),
        output: Vec::new(alloc),
        ending: b"",
    };
    while !rest.is_empty() {
        let (line, behind) = next_line(rest);
        rest = behind;
        if line.is_empty() {
            return Ok((row, rest));
        }
        take_line(&mut row, line)?;
    }
    Ok((row, rest))
}

// Adds to a row what a line says.
fn take_line<'a>(row: &mut Row<'a>, line: &'a [u8]) -> Result<(), AllocError>
    ensures { OnOk result ((record { name = row.new.name.now; word = row.new.word.now; input = row.new.input.items; output = row.new.output.items; ending = row.new.ending.now })
        ≡ tells (record { name = row.old.name.now; word = row.old.word.now; input = row.old.input.items; output = row.old.output.items; ending = row.old.ending.now }) line.now) }
{
    let end = line_end(row.word);
    match line.split_first() {
        None => {}
        Some((b'>', text)) => add_line(&mut row.input, text, end)?,
        Some((b'~', text)) => row.input.extend_from_slice(text)?,
        Some((b'<', text)) => add_line(&mut row.output, text, end)?,
        Some((b'=', text)) => row.ending = text,
        Some((_, text)) => row.word = text,
    }
    Ok(())
}

// How the lines of a row of this word end: in CR LF where a client is served, else in a line feed.
fn line_end(word: &[u8]) -> &'static [u8]
    ensures { result.now ≡ line_end word.now }
{
    if word.starts_with(LOCAL) {
        b"\r\n"
    } else {
        b"\n"
    }
}

// Appends a line and its end.
fn add_line(lines: &mut Vec<u8>, line: &[u8], end: &[u8]) -> Result<(), AllocError>
    ensures { OnOk result (lines.new.items ≡ lines.old.items ++ line.now ++ end.now) }
{
    lines.extend_from_slice(line)?;
    lines.extend_from_slice(end)?;
    Ok(())
}
