//! The program's work over any streams.
ghost use Rattle.std.specs.Prelude.{◌≡◌, ◌≤◌, ◌⊎◌, ◌++◌, ◌∷◌, [], None, map};
ghost use Rattle.rambo_names.specs.Names.{count_of};
ghost use Rattle.rambo_names.specs.Weights.{members_of};
ghost use Rattle.rambo_command_line.specs.Clashes.{clash_of, words_of};
ghost use Rattle.rambo_command_line.specs.Lines.{Asks, AsksCheck, AsksLocal, AsksServe};
ghost use Rattle.clap.specs.Words.{kind_of};
ghost use Rattle.rambo_telling.specs.Telling.{EndsAs, GivesUp, Tells, stream};
ghost use Rattle.rambo_main.specs.Statuses.{
  AnswersTo,
  CheckTo,
  ChecksTo,
  JudgesTo,
  LocalTo,
  PlacesTo,
  ReplaysTo,
  ServeEnds,
  ServeTo,
  ServesTo,
  bad_founders,
  of_local,
  telling_of,
  verdict_status,
};
ghost use Rattle.rambo_command_line.specs.declared.line.Task.{Task as AnyTask};

use crate::loopback::serve_clients;
use clap::Error;
use clap::error::ErrorKind;
use rambo_atomic::{Sink, Source};
use rambo_check::{Telling, place_text};
use rambo_client::LocalFault;
use rambo_command_line::{Checking, Clash, Serving, Task, task_of};
use rambo_direct::local;
use rambo_names::Weighted;
use rambo_outcome::check_text;
use rambo_replay::replay;
use rambo_serving::Ending;
use rambo_telling::{DONE, answer, tell, tell_bad_founders, tell_mistake};
use rambo_text::ReplayFault;
use std::alloc::Global;
use std::convert::AsStr;
use std::fs::File;
use std::net::{Net, TcpListener, TcpStream};
use std::random::RandomSource;
use std::rt::Files;
use std::sync::Wait;
use std::thread::Threads;
use std::time::Clock;

/// The exit status of a check that said no for some key, or for the order of all keys.
const SAID_NO: u8 = 3;

/// Does what the words after the program's name ask for, and returns how that ended, with the writer. Sockets, threads and files
/// are the host's.
///
/// - 0: done. Of words that ask for no task, help or the version was written.
/// - 1: the reader, the writer, the server or the file of a trace failed or memory ran out.
/// - 2: the words ask for nothing that there is, the founders aren't valid, options don't go together, or the input is faulty.
/// - 3: the check said no for some key, or for the order of all keys.
///
/// After 1 and 2 the cause was reported to `errors`, as far as it took that. A failure of `errors` itself changes no
/// status: there is nowhere left to report it.
pub fn command<S: AsStr, H, R: Source, W: Sink + Drop + Send, E: Sink>(
    host: &H,
    alloc: Global,
    words: &[S],
    reader: &mut R,
    mut writer: W,
    errors: &mut E,
) -> (Ending, W)
where
    H: Net<Listener = TcpListener, Stream = TcpStream>
        + Threads
        + Wait
        + Clock
        + RandomSource
        + Sync
        + Files<File = File>,
    ensures replay { Asks (map S.text words.now) Task.Replay
        → ReplaysTo result.0.status (stream R.left R.failures reader.old reader.new)
        (stream W.taken W.failures writer result.1)
        (stream E.taken E.failures errors.old errors.new) }
    ensures check { AsksCheck (map S.text words.now)
        → CheckTo (map S.text words.now) result.0.status (stream R.left R.failures reader.old reader.new)
        (stream W.taken W.failures writer result.1)
        (stream E.taken E.failures errors.old errors.new) }
    ensures local { AsksLocal (map S.text words.now)
        → LocalTo (map S.text words.now) result.0.status (stream R.left R.failures reader.old reader.new)
        (stream W.taken W.failures writer result.1)
        (stream E.taken E.failures errors.old errors.new) }
    ensures serve { AsksServe (map S.text words.now)
        → ServeTo E.taken E.failures (map S.text words.now) result.0
        (stream W.taken W.failures writer result.1) errors.old errors.new × (reader.new ≡ reader.old) }
    ensures other { ((t : AnyTask) → ¬ (Asks (map S.text words.now) t))
        → AnswersTo (map S.text words.now) result.0.status (stream W.taken W.failures writer result.1)
        (stream E.taken E.failures errors.old errors.new) × (reader.new ≡ reader.old) }
    ensures quiet { ¬ (AsksServe (map S.text words.now)) → (result.0.status ≡ 0) ⊎ (result.0.status ≡ 3)
        → errors.new ≡ errors.old }
    ensures untraced { ¬ (AsksServe (map S.text words.now)) → result.0.trace ≡ None }
{
    match task_of(alloc, words) {
        Ok(Task::Replay) => (replayed(alloc, reader, &mut writer, errors), writer),
        Ok(Task::Check(checking)) => {
            (judged(alloc, checking, reader, &mut writer, errors), writer)
        }
        Ok(Task::Local(Some(founders))) => {
            (served(alloc, founders, reader, &mut writer, errors), writer)
        }
        Ok(Task::Local(None)) => (rejected(errors), writer),
        Ok(Task::Serve(serving)) => serve(host, alloc, &serving, writer, errors),
        Err(error) => (shown(alloc, &error, &mut writer, errors), writer),
    }
}

// Many clients are served, where there are founders and the options go together.
fn serve<H, W: Sink + Drop + Send, E: Sink>(
    host: &H,
    alloc: Global,
    serving: &Serving,
    writer: W,
    errors: &mut E,
) -> (Ending, W)
where
    H: Net<Listener = TcpListener, Stream = TcpStream>
        + Threads
        + Wait
        + Clock
        + RandomSource
        + Sync
        + Files<File = File>,
    ensures { ServeEnds E.taken E.failures serving.now (clash_of serving.now) serving.now.founders result.0
        (stream W.taken W.failures writer result.1) errors.old errors.new }
{
    if let Some(clash) = serving.clash() {
        return (clashing(clash, errors), writer);
    }
    match serving.founders {
        Some(founders) => serve_clients(host, alloc, founders, serving, writer, errors),
        None => (rejected(errors), writer),
    }
}

// Reports options that don't go together.
fn clashing<E: Sink>(clash: Clash, errors: &mut E) -> Ending
    ensures status { result.status ≡ 2 }
    ensures line { Tells (words_of clash ++ 10 ∷ []) (stream E.taken E.failures errors.old errors.new) }
    ensures untraced { result.trace ≡ None }
{
    Ending::of(tell_mistake(clash.words(), errors))
}

// Reports founders that aren't valid.
fn rejected<E: Sink>(errors: &mut E) -> Ending
    ensures status { result.status ≡ 2 }
    ensures line { Tells bad_founders (stream E.taken E.failures errors.old errors.new) }
    ensures untraced { result.trace ≡ None }
{
    Ending::of(tell_bad_founders(errors))
}

// What clap gives in place of a task is shown.
fn shown<W: Sink, E: Sink>(alloc: Global, error: &Error, writer: &mut W, errors: &mut E) -> Ending
    ensures ends { GivesUp result.status (stream W.taken W.failures writer.old writer.new)
        (stream E.taken E.failures errors.old errors.new)
        ⊎ EndsAs (kind_of error.now) result.status (stream W.taken W.failures writer.old writer.new)
        (stream E.taken E.failures errors.old errors.new) }
    ensures memory { kind_of error.now ≡ ErrorKind.OutOfMemory
        → GivesUp result.status (stream W.taken W.failures writer.old writer.new)
        (stream E.taken E.failures errors.old errors.new) }
    ensures quiet { (result.status ≡ 0) ⊎ (result.status ≡ 3) → errors.new ≡ errors.old }
    ensures untraced { result.trace ≡ None }
{
    Ending::of(answer(alloc, error, writer, errors))
}

// From a script to the text of what its run gives.
fn replayed<R: Source, W: Sink, E: Sink>(
    alloc: Global,
    reader: &mut R,
    writer: &mut W,
    errors: &mut E,
) -> Ending
    ensures ends { ReplaysTo result.status (stream R.left R.failures reader.old reader.new)
        (stream W.taken W.failures writer.old writer.new)
        (stream E.taken E.failures errors.old errors.new) }
    ensures quiet { (result.status ≡ 0) ⊎ (result.status ≡ 3) → errors.new ≡ errors.old }
    ensures untraced { result.trace ≡ None }
{
    match replay(alloc, reader, writer) {
        Ok(()) => Ending::of(DONE),
        Err(fault) => Ending::of(tell(fault, errors)),
    }
}

// From an outcome text to what is asked for.
fn judged<R: Source, W: Sink, E: Sink>(
    alloc: Global,
    checking: Checking,
    reader: &mut R,
    writer: &mut W,
    errors: &mut E,
) -> Ending
    ensures ends { JudgesTo checking result.status (stream R.left R.failures reader.old reader.new)
        (stream W.taken W.failures writer.old writer.new)
        (stream E.taken E.failures errors.old errors.new) }
    ensures quiet { (result.status ≡ 0) ⊎ (result.status ≡ 3) → errors.new ≡ errors.old }
    ensures untraced { result.trace ≡ None }
{
    match telling_of(checking) {
        Some(telling) => placed(alloc, telling, reader, writer, errors),
        None => checked(alloc, checking.why, reader, writer, errors),
    }
}

// What is asked for once the gets are in their places, if they are put there.
fn telling_of(checking: Checking) -> Option<Telling>
    ensures { result ≡ telling_of checking }
{
    if checking.print {
        return Some(Telling::Outcome);
    }
    if !checking.place {
        return None;
    }
    if checking.why {
        Some(Telling::Reasons)
    } else {
        Some(Telling::Verdicts)
    }
}

// From an outcome text to what is asked for once the gets are in their places.
fn placed<R: Source, W: Sink, E: Sink>(
    alloc: Global,
    telling: Telling,
    reader: &mut R,
    writer: &mut W,
    errors: &mut E,
) -> Ending
    ensures ends { PlacesTo telling result.status (stream R.left R.failures reader.old reader.new)
        (stream W.taken W.failures writer.old writer.new)
        (stream E.taken E.failures errors.old errors.new) }
    ensures quiet { (result.status ≡ 0) ⊎ (result.status ≡ 3) → errors.new ≡ errors.old }
    ensures untraced { result.trace ≡ None }
{
    match place_text(alloc, telling, reader, writer) {
        Ok(all) => said(all),
        Err(fault) => Ending::of(tell(fault, errors)),
    }
}

// From an outcome text to a verdict on each key, and if it is asked for, why.
fn checked<R: Source, W: Sink, E: Sink>(
    alloc: Global,
    why: bool,
    reader: &mut R,
    writer: &mut W,
    errors: &mut E,
) -> Ending
    ensures ends { ChecksTo why result.status (stream R.left R.failures reader.old reader.new)
        (stream W.taken W.failures writer.old writer.new)
        (stream E.taken E.failures errors.old errors.new) }
    ensures quiet { (result.status ≡ 0) ⊎ (result.status ≡ 3) → errors.new ≡ errors.old }
    ensures untraced { result.trace ≡ None }
{
    match check_text(alloc, why, reader, writer) {
        Ok(all) => said(all),
        Err(fault) => Ending::of(tell(fault, errors)),
    }
}

// How a check ends of which each verdict is yes, or some is no.
fn said(all: bool) -> Ending
    ensures status { result.status ≡ verdict_status all }
    ensures untraced { result.trace ≡ None }
{
    if all {
        Ending::of(DONE)
    } else {
        Ending::of(SAID_NO)
    }
}

// A client is served by a store of its own, which these founders found.
fn served<R: Source, W: Sink, E: Sink>(
    alloc: Global,
    founders: Weighted,
    reader: &mut R,
    writer: &mut W,
    errors: &mut E,
) -> Ending
    requires { 1 ≤ count_of (members_of founders) }
    ensures ends { ServesTo founders result.status (stream R.left R.failures reader.old reader.new)
        (stream W.taken W.failures writer.old writer.new)
        (stream E.taken E.failures errors.old errors.new) }
    ensures quiet { (result.status ≡ 0) ⊎ (result.status ≡ 3) → errors.new ≡ errors.old }
    ensures untraced { result.trace ≡ None }
{
    if let Err(fault) = local(alloc, founders, reader, writer) {
        return Ending::of(tell(told_as(fault), errors));
    }
    Ending::of(DONE)
}

// The same fault, in the words of a replay.
fn told_as(fault: LocalFault) -> ReplayFault
    ensures { result ≡ of_local fault }
{
    match fault {
        LocalFault::Read => ReplayFault::Read,
        LocalFault::Write => ReplayFault::Write,
        LocalFault::Memory => ReplayFault::Memory,
    }
}
