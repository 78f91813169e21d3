//! Many clients are served, and the trace stands in a file.
ghost use Rattle.std.specs.Prelude.{◌≡◌, [], false, IfSome};
ghost use Rattle.rambo_scribe.specs.Traced.{taken_by};
ghost use Rattle.rambo_telling.specs.Telling.{Tells, stream};
ghost use Rattle.rambo_main.specs.Files.{IsUnresumed, KeepsTo, LastsTo, retrace_line, retrace_status};

use crate::loopback::{bound, ended_by, options_of, unserved};
use rambo_archive::{Archive, open_trace};
use rambo_atomic::Sink;
use rambo_cluster::{ServeFault, Traced, serve_endless};
use rambo_command_line::Serving;
use rambo_lasting::{ResumeFault, Resumed, resume};
use rambo_names::Weighted;
use rambo_post::NoGate;
use rambo_retrace::RetraceFault;
use rambo_serving::Ending;
use rambo_telling::{tell, tell_failure, tell_listening, tell_mistake, tell_refused};
use rambo_text::ReplayFault;
use std::alloc::Global;
use std::fs::File;
use std::net::{Net, TcpListener, TcpStream};
use std::random::RandomSource;
use std::rt::Files;
use std::sync::Wait;
use std::thread::Threads;
use std::time::Clock;

/// Serves clients of a store on a port of 127.0.0.1, as it is asked, until one of them ends the server. The trace of its steps goes
/// to the file at this path, where it is asked so behind the steps that the file has.
///
/// The status is 0 where the trace is whole in the end. Else it is 1, or 2 where the file has no trace to go on from, and the
/// fault is reported in a line.
pub(crate) fn serve_in_file<R, E: Sink>(
    rt: &R,
    alloc: Global,
    founders: Weighted,
    serving: &Serving,
    path: &str,
    errors: &mut E,
) -> Ending
where
    R: Net<Listener = TcpListener, Stream = TcpStream>
        + Threads
        + Wait
        + Clock
        + RandomSource
        + Sync
        + Files<File = File>,
    ensures { LastsTo E.taken E.failures serving.now founders result errors.old errors.new }
{
    match open_trace(rt, path, serving.resumed) {
        Ok(file) => {
            let (ending, _file) = serve_filing(rt, alloc, founders, serving, file, errors);
            ending
        }
        Err(fault) => Ending::of(tell_failure(fault.words(), errors)),
    }
}

// The same with the file, of which nothing was read.
fn serve_filing<F: Archive + Drop + Send, R, E: Sink>(
    rt: &R,
    alloc: Global,
    founders: Weighted,
    serving: &Serving,
    file: F,
    errors: &mut E,
) -> (Ending, F)
where
    R: Net<Listener = TcpListener, Stream = TcpStream>
        + Threads
        + Wait
        + Clock
        + RandomSource
        + Sync,
    requires unread { F.left file ≡ F.taken file }
    requires empty { serving.now.resumed ≡ false → IfSome (F.taken file) (λ bytes. bytes ≡ []) }
    ensures { KeepsTo E.taken E.failures serving.now founders result.0 (taken_by F.taken F.failures file) (taken_by F.taken F.failures result.1) errors.old errors.new }
{
    let Ok((listener, port)) = bound(rt, serving.port) else {
        return (unserved(ServeFault::Socket, errors), file);
    };
    let options = options_of(founders, serving);
    if !serving.resumed {
        tell_listening(port, errors);
        let Traced { writer, ended } = serve_endless(rt, alloc, &listener, &options, &NoGate, file);
        let ending = match ended {
            Ok(fault) => ended_by(fault, errors),
            Err(fault) => unserved(fault, errors),
        };
        return (ending, writer);
    }
    let Resumed { file, ended } = resume(
        rt,
        alloc,
        &listener,
        port,
        &options,
        serving.founded,
        &NoGate,
        file,
        errors,
    );
    let ending = match ended {
        Ok(fault) => ended_by(fault, errors),
        Err(fault) => unresumed(fault, errors),
    };
    (ending, file)
}

// Reports why a server doesn't go on from a trace.
fn unresumed<E: Sink>(fault: ResumeFault, errors: &mut E) -> Ending
    ensures { IsUnresumed fault result (stream E.taken E.failures errors.old errors.new) }
{
    match fault {
        ResumeFault::Trace(fault) => Ending::of(tell_retrace(fault, errors)),
        ResumeFault::Founders => Ending::of(tell_mistake(
            "bad options: --founders aren't those of the trace",
            errors,
        )),
        ResumeFault::Uncut => Ending::of(tell(ReplayFault::Write, errors)),
        ResumeFault::Unserved(fault) => unserved(fault, errors),
    }
}

// Reports why a trace isn't taken.
fn tell_retrace<E: Sink>(fault: RetraceFault, errors: &mut E) -> u8
    ensures status { result ≡ retrace_status fault }
    ensures line { Tells (retrace_line fault) (stream E.taken E.failures errors.old errors.new) }
{
    match fault {
        RetraceFault::Read => tell(ReplayFault::Read, errors),
        RetraceFault::Memory => tell(ReplayFault::Memory, errors),
        RetraceFault::Script(fault) => tell(ReplayFault::Script(fault), errors),
        RetraceFault::Refused(line, refusal) => tell_refused(refusal.number(), line, errors),
    }
}
