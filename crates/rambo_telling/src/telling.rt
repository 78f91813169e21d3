//! What is reported to the user.
ghost use Rattle.std.specs.Prelude.{◌≡◌, ◌⊎◌, ◌++◌, [], ◌∷◌, codes, decimal, OnOk, OnErr};
ghost use Rattle.clap.specs.Words.{kind_of};
ghost use Rattle.rambo_atomic.specs.StreamFaults.{words_of};
ghost use Rattle.rambo_text.specs.Faults.{told};
ghost use Rattle.rambo_telling.specs.Telling.{
  Breaks,
  EndsAs,
  GivesUp,
  Takes,
  Tells,
  fault_line,
  listening_line,
  refused_line,
  resumed_line,
  socket_line,
  status_of,
  stream,
  torn_line,
};

use clap::Error;
use clap::error::ErrorKind;
use itoa::Buffer;
use rambo_atomic::{Sink, StreamFault, write_all};
use rambo_text::{ReplayFault, ScriptFault};
use std::alloc::Global;

/// The exit status of what was done.
pub const DONE: u8 = 0;

/// The exit status where a stream failed or memory ran out.
const FAILED: u8 = 1;

/// The exit status where the command line or the input is faulty.
const FAULTY: u8 = 2;

/// What is reported of a word that isn't text.
const NO_TEXT: &[u8] = b"error: invalid UTF-8 was detected in one or more arguments

Usage: rambo <COMMAND>

For more information, try '--help'.
";

/// Reports a fault in one line, and returns the exit status for it.
///
/// Where `errors` fails the rest of the line is lost. That is hidden on purpose: there is nowhere left to report it,
/// and the status is that of the fault all the same.
pub fn tell<E: Sink>(fault: ReplayFault, errors: &mut E) -> u8
    ensures status { result ≡ status_of fault }
    ensures line { Tells (fault_line fault) (stream E.taken E.failures errors.old errors.new) }
{
    match fault {
        ReplayFault::Script(fault) => {
            let _ = write_line(fault, errors);
            FAULTY
        }
        ReplayFault::Read => tell_stream(StreamFault::Read, errors),
        ReplayFault::Write => tell_stream(StreamFault::Write, errors),
        ReplayFault::Memory => tell_stream(StreamFault::Memory, errors),
    }
}

// Reports the fault of a stream, or that memory ran out.
fn tell_stream<E: Sink>(fault: StreamFault, errors: &mut E) -> u8
    ensures status { result ≡ 1 }
    ensures line { Tells (words_of fault ++ 10 ∷ []) (stream E.taken E.failures errors.old errors.new) }
{
    tell_failure(fault.words(), errors)
}

// Writes words as a line. It allocates nothing.
fn write_words<E: Sink>(words: &str, errors: &mut E) -> Result<(), StreamFault>
    ensures ok { OnOk result (Takes (words.now ++ 10 ∷ []) (stream E.taken E.failures errors.old errors.new)) }
    ensures err { OnErr result (Breaks (words.now ++ 10 ∷ []) (stream E.taken E.failures errors.old errors.new)) }
{
    write_all(errors, words.as_bytes())?;
    write_all(errors, b"\n")?;
    Ok(())
}

// Writes the line of a fault of a text. It allocates nothing.
fn write_line<E: Sink>(fault: ScriptFault, errors: &mut E) -> Result<(), StreamFault>
    ensures ok { OnOk result (Takes (told fault ++ 10 ∷ []) (stream E.taken E.failures errors.old errors.new)) }
    ensures err { OnErr result (Breaks (told fault ++ 10 ∷ []) (stream E.taken E.failures errors.old errors.new)) }
{
    write_two_numbers(
        "script fault S",
        fault.fault.number(),
        " at line ",
        fault.line,
        errors,
    )
}

// Writes a line of two numbers, with what stands before each of them. It allocates nothing.
fn write_two_numbers<E: Sink>(
    before: &str,
    first: u64,
    between: &str,
    second: u64,
    errors: &mut E,
) -> Result<(), StreamFault>
    ensures ok { OnOk result (Takes (before.now ++ decimal first ++ between.now ++ decimal second ++ 10 ∷ [])
        (stream E.taken E.failures errors.old errors.new)) }
    ensures err { OnErr result (Breaks (before.now ++ decimal first ++ between.now ++ decimal second ++ 10 ∷ [])
        (stream E.taken E.failures errors.old errors.new)) }
{
    write_number(before, first, errors)?;
    write_number(between, second, errors)?;
    write_all(errors, b"\n")?;
    Ok(())
}

// Writes a number between what stands before it and behind it. It allocates nothing.
fn write_number_between<E: Sink>(
    before: &str,
    number: u64,
    behind: &str,
    errors: &mut E,
) -> Result<(), StreamFault>
    ensures ok { OnOk result (Takes (before.now ++ decimal number ++ behind.now)
        (stream E.taken E.failures errors.old errors.new)) }
    ensures err { OnErr result (Breaks (before.now ++ decimal number ++ behind.now)
        (stream E.taken E.failures errors.old errors.new)) }
{
    write_number(before, number, errors)?;
    write_all(errors, behind.as_bytes())?;
    Ok(())
}

// Writes a number and what stands before it. It allocates nothing.
fn write_number<E: Sink>(before: &str, number: u64, errors: &mut E) -> Result<(), StreamFault>
    ensures ok { OnOk result (Takes (before.now ++ decimal number) (stream E.taken E.failures errors.old errors.new)) }
    ensures err { OnErr result (Breaks (before.now ++ decimal number) (stream E.taken E.failures errors.old errors.new)) }
{
    let mut buffer = Buffer::new();
    write_all(errors, before.as_bytes())?;
    write_all(errors, buffer.format(number).as_bytes())?;
    Ok(())
}

/// Reports what clap gives in place of a task, and returns the exit status for it.
///
/// - Help or the version goes to the writer: 0, and 1 where the writer failed.
/// - A mistake in the words goes to `errors`: 2.
/// - 1 where there was no room for it.
pub fn answer<W: Sink, E: Sink>(alloc: Global, error: &Error, writer: &mut W, errors: &mut E) -> u8
    ensures ends { GivesUp result (stream W.taken W.failures writer.old writer.new)
        (stream E.taken E.failures errors.old errors.new)
        ⊎ EndsAs (kind_of error.now) result (stream W.taken W.failures writer.old writer.new)
        (stream E.taken E.failures errors.old errors.new) }
    ensures memory { kind_of error.now ≡ ErrorKind.OutOfMemory
        → GivesUp result (stream W.taken W.failures writer.old writer.new)
        (stream E.taken E.failures errors.old errors.new) }
    ensures quiet { (result ≡ 0) ⊎ (result ≡ 3) → errors.new ≡ errors.old }
{
    if let ErrorKind::OutOfMemory = error.kind() {
        return tell(ReplayFault::Memory, errors);
    }
    let Ok(text) = format!(in alloc; "{error}") else {
        return tell(ReplayFault::Memory, errors);
    };
    if error.use_stderr() {
        let _ = write_all(errors, text.as_bytes());
        return FAULTY;
    }
    match write_all(writer, text.as_bytes()) {
        Ok(()) => DONE,
        Err(_) => tell(ReplayFault::Write, errors),
    }
}

/// Reports that a word of the command line isn't text, and returns the exit status for it.
pub fn tell_no_text<E: Sink>(errors: &mut E) -> u8
    ensures status { result ≡ 2 }
    ensures line { Tells NO_TEXT.now (stream E.taken E.failures errors.old errors.new) }
{
    let _ = write_all(errors, NO_TEXT);
    FAULTY
}

/// Reports that the founders on the command line aren't valid, and returns the exit status for it.
pub fn tell_bad_founders<E: Sink>(errors: &mut E) -> u8
    ensures status { result ≡ 2 }
    ensures line { Tells (codes "bad founders" ++ 10 ∷ []) (stream E.taken E.failures errors.old errors.new) }
{
    tell_mistake("bad founders", errors)
}

/// Reports a mistake in the command line in one line of these words, and returns the exit status for it.
pub fn tell_mistake<E: Sink>(words: &str, errors: &mut E) -> u8
    ensures status { result ≡ 2 }
    ensures line { Tells (words.now ++ 10 ∷ []) (stream E.taken E.failures errors.old errors.new) }
{
    report(words, FAULTY, errors)
}

/// Reports a failure in one line of these words, and returns the exit status for it.
pub fn tell_failure<E: Sink>(words: &str, errors: &mut E) -> u8
    ensures status { result ≡ 1 }
    ensures line { Tells (words.now ++ 10 ∷ []) (stream E.taken E.failures errors.old errors.new) }
{
    report(words, FAILED, errors)
}

// Reports words in a line, and returns the exit status that was passed.
fn report<E: Sink>(words: &str, status: u8, errors: &mut E) -> u8
    ensures same { result ≡ status }
    ensures line { Tells (words.now ++ 10 ∷ []) (stream E.taken E.failures errors.old errors.new) }
{
    let _ = write_words(words, errors);
    status
}

/// Reports that the step of a line of a trace was refused, and the number of the refusal, and returns the exit status for
/// it.
pub fn tell_refused<E: Sink>(number: u64, line: u64, errors: &mut E) -> u8
    ensures status { result ≡ 2 }
    ensures line { Tells (refused_line number line) (stream E.taken E.failures errors.old errors.new) }
{
    let _ = write_two_numbers("script fault refused ", number, " at line ", line, errors);
    FAULTY
}

/// Reports that a socket failed, and returns the exit status for it.
pub fn tell_socket<E: Sink>(errors: &mut E) -> u8
    ensures status { result ≡ 1 }
    ensures line { Tells socket_line (stream E.taken E.failures errors.old errors.new) }
{
    tell_failure("fault socket", errors)
}

/// Reports on which port a server listens, as far as `errors` takes it.
pub fn tell_listening<E: Sink>(port: u16, errors: &mut E)
    ensures line { Tells (listening_line port) (stream E.taken E.failures errors.old errors.new) }
{
    let _ = write_number_between("listening ", u64::from(port), "\n", errors);
}

/// Reports how many steps of its trace a server took when it went on from it, as far as `errors` takes it.
pub fn tell_resumed<E: Sink>(steps: u64, errors: &mut E)
    ensures line { Tells (resumed_line steps) (stream E.taken E.failures errors.old errors.new) }
{
    let _ = write_number_between("resumed ", steps, " steps\n", errors);
}

/// Reports how many bytes of a last line without a line feed were cut off, and the number of that line, as far as `errors`
/// takes it.
pub fn tell_torn<E: Sink>(bytes: u64, line: u64, errors: &mut E)
    ensures line { Tells (torn_line bytes line) (stream E.taken E.failures errors.old errors.new) }
{
    let _ = write_two_numbers("cut ", bytes, " bytes at line ", line, errors);
}
