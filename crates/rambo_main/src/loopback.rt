//! Many clients are served, on the sockets of this machine.
ghost use Rattle.std.specs.Prelude.{◌≡◌, ◌⊎◌, [], ◌∷◌, Option, IfOk};
ghost use Rattle.std.specs.Net.Addr.{ipv4_octets};
ghost use Rattle.std.specs.Net.Socket.{v4_ip, v4_port};
ghost use Rattle.rambo_telling.specs.Telling.{stream};
ghost use Rattle.rambo_serving.specs.Endings.{Fails};
ghost use Rattle.rambo_cluster.specs.declared.fault.ServeFault.{ServeFault as AnyServeFault};
ghost use Rattle.rambo_scribe.specs.declared.fault.TraceFault.{TraceFault as AnyTraceFault};
ghost use Rattle.rambo_main.specs.Endings.{Ends, ListensOn, server_line};
ghost use Rattle.rambo_main.specs.Servers.{GivesTo, Leaves, ServesTo, Traces, Unserved, WritesTo};

use crate::filing::serve_in_file;
use rambo_archive::Loose;
use rambo_atomic::{Sink, Wrapped};
use rambo_cluster::{Options, ServeFault, Traced, serve, serve_endless};
use rambo_command_line::Serving;
use rambo_names::Weighted;
use rambo_post::NoGate;
use rambo_scribe::TraceFault;
use rambo_serving::{Ending, write_steps};
use rambo_telling::{DONE, tell, tell_listening, tell_socket};
use rambo_text::ReplayFault;
use std::alloc::Global;
use std::fs::File;
use std::io;
use std::net::{Ipv4Addr, Net, SocketAddrV4, TcpListener, TcpStream};
use std::random::RandomSource;
use std::rt::Files;
use std::sync::Wait;
use std::thread::Threads;
use std::time::Clock;

/// Serves clients of a store of these founders on a port of 127.0.0.1, as it is asked, until one of them ends the
/// server. Then the trace of its steps is written, or where it is endless meanwhile, or never.
///
/// Where a file is named for the trace it goes there, and the writer takes nothing.
///
/// Once it listens, its port is reported to `errors`. The status is 0 where the trace was written whole. Else it is 1,
/// and the fault is reported in a line. After a fault of the writer, or out of memory, a prefix of the trace may be
/// written. The writer is given back.
pub(crate) fn serve_clients<R, W: Sink + Drop + Send, E: Sink>(
    rt: &R,
    alloc: Global,
    founders: Weighted,
    serving: &Serving,
    writer: W,
    errors: &mut E,
) -> (Ending, W)
where
    R: Net<Listener = TcpListener, Stream = TcpStream>
        + Threads
        + Wait
        + Clock
        + RandomSource
        + Sync
        + Files<File = File>,
    ensures { ServesTo E.taken E.failures serving.now founders result.0
        (stream W.taken W.failures writer result.1) errors.old errors.new }
{
    if let Some(path) = &serving.trace {
        let ending = serve_in_file(rt, alloc, founders, serving, path.as_str(), errors);
        return (ending, writer);
    }
    serve_to(rt, alloc, founders, serving, writer, errors)
}

// The same where no file is named.
fn serve_to<R, W: Sink + Drop + Send, E: Sink>(
    rt: &R,
    alloc: Global,
    founders: Weighted,
    serving: &Serving,
    writer: W,
    errors: &mut E,
) -> (Ending, W)
where
    R: Net<Listener = TcpListener, Stream = TcpStream>
        + Threads
        + Wait
        + Clock
        + RandomSource
        + Sync,
    ensures { WritesTo E.taken E.failures serving.now founders result.0
        (stream W.taken W.failures writer result.1) errors.old errors.new }
{
    match bound(rt, serving.port) {
        Ok((listener, port)) => {
            tell_listening(port, errors);
            served(rt, alloc, &listener, founders, serving, writer, errors)
        }
        Err(_) => (unserved(ServeFault::Socket, errors), writer),
    }
}

// The same on a listener, whose port is reported.
fn served<R, W: Sink + Drop + Send, E: Sink>(
    rt: &R,
    alloc: Global,
    listener: &TcpListener,
    founders: Weighted,
    serving: &Serving,
    mut writer: W,
    errors: &mut E,
) -> (Ending, W)
where
    R: Net<Listener = TcpListener, Stream = TcpStream>
        + Threads
        + Wait
        + Clock
        + RandomSource
        + Sync,
    ensures { GivesTo serving.now founders result.0 (stream W.taken W.failures writer result.1)
        (stream E.taken E.failures errors.old errors.new) }
{
    let options = options_of(founders, serving);
    if serving.endless && serving.untraced {
        return (drained(rt, alloc, listener, &options, errors), writer);
    }
    if serving.endless {
        return traced(rt, alloc, listener, &options, writer, errors);
    }
    let ending = bounded(rt, alloc, listener, &options, &mut writer, errors);
    (ending, writer)
}

// A server whose book has an end: its trace is written once it has ended.
fn bounded<R, W: Sink, E: Sink>(
    rt: &R,
    alloc: Global,
    listener: &TcpListener,
    options: &Options<Weighted>,
    writer: &mut W,
    errors: &mut E,
) -> Ending
where
    R: Net<Listener = TcpListener, Stream = TcpStream>
        + Threads
        + Wait
        + Clock
        + RandomSource
        + Sync,
    ensures { Leaves options.now.steps options.now.founders result (stream W.taken W.failures writer.old writer.new)
        (stream E.taken E.failures errors.old errors.new)
        ⊎ Unserved result (stream W.taken W.failures writer.old writer.new) (stream E.taken E.failures errors.old errors.new) }
{
    match serve(rt, alloc, listener, options, &NoGate) {
        Ok(left) => write_steps(alloc, options.founders, left.steps(), writer, errors),
        Err(fault) => unserved(fault, errors),
    }
}

// An endless server: its trace is written meanwhile.
fn traced<R, W: Sink + Drop + Send, E: Sink>(
    rt: &R,
    alloc: Global,
    listener: &TcpListener,
    options: &Options<Weighted>,
    writer: W,
    errors: &mut E,
) -> (Ending, W)
where
    R: Net<Listener = TcpListener, Stream = TcpStream>
        + Threads
        + Wait
        + Clock
        + RandomSource
        + Sync,
    ensures { Traces options.now.founders result.0 (stream W.taken W.failures writer result.1)
        (stream E.taken E.failures errors.old errors.new)
        ⊎ Unserved result.0 (stream W.taken W.failures writer result.1) (stream E.taken E.failures errors.old errors.new) }
{
    let writer = Loose::new(writer);
    let Traced { writer, ended } = serve_endless(rt, alloc, listener, options, &NoGate, writer);
    let writer = writer.into_inner();
    let ending = match ended {
        Ok(fault) => ended_by(fault, errors),
        Err(fault) => unserved(fault, errors),
    };
    (ending, writer)
}

// The same without a trace.
fn drained<R, E: Sink>(
    rt: &R,
    alloc: Global,
    listener: &TcpListener,
    options: &Options<Weighted>,
    errors: &mut E,
) -> Ending
where
    R: Net<Listener = TcpListener, Stream = TcpStream>
        + Threads
        + Wait
        + Clock
        + RandomSource
        + Sync,
    ensures { ((fault : Option AnyTraceFault) × Ends fault result (stream E.taken E.failures errors.old errors.new))
        ⊎ ((fault : AnyServeFault) × Fails (server_line fault) result (stream E.taken E.failures errors.old errors.new)) }
{
    let nowhere = Loose::new(Wrapped::new(io::sink()));
    match serve_endless(rt, alloc, listener, options, &NoGate, nowhere).ended {
        Ok(fault) => ended_by(fault, errors),
        Err(fault) => unserved(fault, errors),
    }
}

/// How a server ends whose trace is whole, or has this fault, which is reported.
pub(crate) fn ended_by<E: Sink>(fault: Option<TraceFault>, errors: &mut E) -> Ending
    ensures { Ends fault result (stream E.taken E.failures errors.old errors.new) }
{
    match fault {
        None => Ending::of(DONE),
        Some(TraceFault::Memory) => Ending::of(tell(ReplayFault::Memory, errors)),
        Some(TraceFault::Write | TraceFault::Drawn) => Ending::of(tell(ReplayFault::Write, errors)),
    }
}

/// What a server of these founders is started with.
pub(crate) fn options_of(founders: Weighted, serving: &Serving) -> Options<Weighted>
    ensures founders { result.founders ≡ founders }
    ensures clients { result.clients ≡ serving.now.clients }
    ensures connections { result.connections ≡ serving.now.connections }
    ensures steps { result.steps ≡ serving.now.steps }
    ensures lose { result.lose ≡ serving.now.lose }
    ensures twice { result.twice ≡ serving.now.twice }
    ensures syncs { result.syncs ≡ serving.now.synced }
{
    Options {
        founders,
        clients: serving.clients as usize,
        connections: serving.connections as usize,
        steps: serving.steps as usize,
        lose: serving.lose,
        twice: serving.twice,
        syncs: serving.synced,
    }
}

/// Reports why nothing was served.
pub(crate) fn unserved<E: Sink>(fault: ServeFault, errors: &mut E) -> Ending
    ensures { Fails (server_line fault) result (stream E.taken E.failures errors.old errors.new) }
{
    match fault {
        ServeFault::Socket => Ending::of(tell_socket(errors)),
        ServeFault::Memory => Ending::of(tell(ReplayFault::Memory, errors)),
    }
}

// Where a server listens that is asked for a port: at 127.0.0.1.
fn address_of(port: u16) -> SocketAddrV4
    ensures octets { ipv4_octets (v4_ip result) ≡ 127 ∷ 0 ∷ 0 ∷ 1 ∷ [] }
    ensures port { v4_port result ≡ port }
{
    SocketAddrV4::new(Ipv4Addr::new(127, 0, 0, 1), port)
}

/// A listener on a port of 127.0.0.1, or where it is 0 on one that the system chooses, and the port.
pub(crate) fn bound<R>(rt: &R, port: u16) -> io::Result<(TcpListener, u16)>
where
    R: Net<Listener = TcpListener, Stream = TcpStream>,
    ensures { IfOk result (λ made. ListensOn port made.1) }
{
    let listener = TcpListener::bind(rt, address_of(port))?;
    if port != 0 {
        return Ok((listener, port));
    }
    let port = listener.local_addr()?.port();
    Ok((listener, port))
}
