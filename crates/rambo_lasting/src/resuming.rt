//! A server goes on from a trace.
ghost use Rattle.std.specs.Prelude.{◌≡◌, ◌++◌, ◌+◌, ◌<◌, ◌^◌, [], ℕ, List, Option, None, Some, Ok, Err, true, length, if◌then◌else◌, IsErr, IfSome, IfOk, IfErr, OnOk};
ghost use Rattle.rambo_names.specs.Weights.{Weights};
ghost use Rattle.rambo_atomic.specs.Unreads.{KnowsEnd, TakesIn};
ghost use Rattle.rambo_node.specs.Steps.{Step as AnyStep};
ghost use Rattle.rambo_telling.specs.Telling.{Tells, listening_line, stream};
ghost use Rattle.rambo_trace.specs.Traces.{trace_text};
ghost use Rattle.rambo_retrace.specs.Retraces.{retraced};
ghost use Rattle.rambo_scribe.specs.Traced.{taken_by};
ghost use Rattle.rambo_lasting.specs.Resumings.{Announced, Announces, Begins, GoesOn, HoldsTrace, IsOfReading, Resumes, Unresumed, WhyUnresumed, emptied, failed_by, last};

use crate::cutting::cut_torn;
use crate::fault::ResumeFault;
use crate::taking::Taking;
use rambo_archive::{Archive, Holds, Reading};
use rambo_atomic::{Sink, Unread};
use rambo_cluster::{AHEAD, Copies, LAST, Options, ServeFault, Traced, serve_endless, serve_post};
use rambo_names::Weighted;
use rambo_post::{Actor, Gate, Post, Recovery, Terms};
use rambo_retrace::{Founded, RetraceFault, Retraced, retrace, retrace_founders};
use rambo_roll::Opened;
use rambo_run::Step;
use rambo_scribe::{Starts, TraceFault};
use rambo_telling::{tell_listening, tell_resumed, tell_torn};
use std::alloc::Global;
use std::hash::RandomState;
use std::marker::Brand;
use std::net::{Net, TcpListener, TcpStream};
use std::random::RandomSource;
use std::sync::Wait;
use std::thread::Threads;
use std::time::Clock;

/// What a server leaves that was to go on from a trace.
#[derive(Drop)]
pub struct Resumed<F: Archive + Drop> {
    /// The file of the trace.
    pub file: F,
    /// Why the trace isn't whole, if that is so; or why nobody was served.
    pub ended: Result<Option<TraceFault>, ResumeFault>,
}

/// Serves clients over the sockets of a listener as `serve_endless` does, from where the trace in a file ends: its steps are taken
/// first, and the trace of what is done then follows them. A last line that lacks its line feed is cut off. An empty file gets
/// a whole trace, of the options' founders.
///
/// How many bytes were cut off, how many steps were taken, and at which port it listens is told to `errors`.
///
/// `Trace` where the file can't be read, a line is faulty, or its step is refused in its turn; `Founders` where the options'
/// founders are asked for and aren't those of the trace; `Uncut` where the file can't be cut off. The file then stays as it
/// was. `Unserved` where a socket failed or memory ran out.
pub fn resume<F: Archive + Drop + Send, G: Gate, E: Sink, R>(
    rt: &R,
    alloc: Global,
    listener: &TcpListener,
    port: u16,
    options: &Options<Weighted>,
    asked: bool,
    gate: &G,
    file: F,
    errors: &mut E,
) -> Resumed<F>
where
    R: Net<Listener = TcpListener, Stream = TcpStream>
        + Threads
        + Wait
        + Clock
        + RandomSource
        + Sync,
    requires unread { F.left file ≡ F.taken file }
    ensures served { IfOk result.ended (λ fault. Resumes E.taken E.failures (taken_by F.taken F.failures file) (taken_by F.taken F.failures result.file) options.now.founders (if asked then Some options.now.founders else None) port fault errors.old errors.new) }
    ensures unserved { IfErr result.ended (Unresumed options.now.lose (if asked then Some options.now.founders else None) (taken_by F.taken F.failures file) (taken_by F.taken F.failures result.file)) }
    ensures told { IsErr result.ended → Announced E.taken E.failures (F.taken file) port errors.old errors.new }
{
    resume_held::<Brand, F, G, E, R>(
        rt, alloc, listener, port, options, asked, gate, file, errors,
    )
}

// The same with a file that holds this.
fn resume_held<K: Holds, F: Archive + Drop + Send, G: Gate, E: Sink, R>(
    rt: &R,
    alloc: Global,
    listener: &TcpListener,
    port: u16,
    options: &Options<Weighted>,
    asked: bool,
    gate: &G,
    file: F,
    errors: &mut E,
) -> Resumed<F>
where
    R: Net<Listener = TcpListener, Stream = TcpStream>
        + Threads
        + Wait
        + Clock
        + RandomSource
        + Sync,
    requires held { F.taken file ≡ K.held }
    requires unread { F.left file ≡ F.taken file }
    ensures served { IfOk result.ended (λ fault. Resumes E.taken E.failures (taken_by F.taken F.failures file) (taken_by F.taken F.failures result.file) options.now.founders (if asked then Some options.now.founders else None) port fault errors.old errors.new) }
    ensures unserved { IfErr result.ended (Unresumed options.now.lose (if asked then Some options.now.founders else None) (taken_by F.taken F.failures file) (taken_by F.taken F.failures result.file)) }
    ensures told { IsErr result.ended → Announced E.taken E.failures (F.taken file) port errors.old errors.new }
{
    let mut reading = Reading::<K, F>::new(file);
    let mut unread = Unread::new(alloc);
    match unread.find_line(&mut reading) {
        Ok(true) => {}
        Ok(false) => {
            let file = reading.into_inner();
            return begin(rt, alloc, listener, port, options, gate, file, errors);
        }
        Err(fault) => return given_up(reading, ResumeFault::Trace(RetraceFault::from(fault))),
    }
    let found = match retrace_founders(&mut unread, &mut reading) {
        Ok(found) => found,
        Err(fault) => return given_up(reading, ResumeFault::Trace(fault)),
    };
    if asked && found.founders != options.founders {
        return given_up(reading, ResumeFault::Founders);
    }
    go_on(
        rt, alloc, listener, port, options, gate, found, reading, unread, errors,
    )
}

// Nobody is served for this fault. The file holds what it held.
fn given_up<K: Holds, F: Archive + Drop>(reading: Reading<K, F>, fault: ResumeFault) -> Resumed<F>
    ensures file { F.taken result.file ≡ K.held }
    ensures failures { F.failures result.file ≡ F.failures reading }
    ensures fault { result.ended ≡ Err fault }
{
    Resumed {
        file: reading.into_inner(),
        ended: Err(fault),
    }
}

// A trace begins in an empty file.
fn begin<F: Archive + Drop + Send, G: Gate, E: Sink, R>(
    rt: &R,
    alloc: Global,
    listener: &TcpListener,
    port: u16,
    options: &Options<Weighted>,
    gate: &G,
    file: F,
    errors: &mut E,
) -> Resumed<F>
where
    R: Net<Listener = TcpListener, Stream = TcpStream>
        + Threads
        + Wait
        + Clock
        + RandomSource
        + Sync,
    requires { IfSome (F.taken file) (λ bytes. bytes ≡ []) }
    ensures served { IfOk result.ended (λ fault. Begins (taken_by F.taken F.failures file) (taken_by F.taken F.failures result.file) options.now.founders fault) }
    ensures told { Tells (listening_line port) (stream E.taken E.failures errors.old errors.new) }
    ensures unserved { IfErr result.ended (λ f. (lose : ℕ) (asked : Option Weights) → Unresumed lose asked (taken_by F.taken F.failures file) (taken_by F.taken F.failures result.file) f) }
{
    tell_listening(port, errors);
    resumed_by(serve_endless(rt, alloc, listener, options, gate, file))
}

// What a server leaves.
fn resumed_by<F: Archive + Drop>(traced: Traced<F>) -> Resumed<F>
    ensures file { result.file ≡ traced.writer }
    ensures ok { IfOk traced.ended (λ fault. result.ended ≡ Ok fault) }
    ensures err { IfErr traced.ended (λ f. result.ended ≡ Err (ResumeFault.Unserved f)) }
{
    let Traced { writer, ended } = traced;
    Resumed {
        file: writer,
        ended: match ended {
            Ok(fault) => Ok(fault),
            Err(fault) => Err(ResumeFault::Unserved(fault)),
        },
    }
}

// A server goes on from a trace of these founders, whose first two lines were read.
fn go_on<K: Holds, F: Archive + Drop + Send, G: Gate, E: Sink, R>(
    rt: &R,
    alloc: Global,
    listener: &TcpListener,
    port: u16,
    options: &Options<Weighted>,
    gate: &G,
    found: Founded,
    reading: Reading<K, F>,
    unread: Unread,
    errors: &mut E,
) -> Resumed<F>
where
    R: Net<Listener = TcpListener, Stream = TcpStream>
        + Threads
        + Wait
        + Clock
        + RandomSource
        + Sync,
    requires knows { KnowsEnd unread (F.left reading) }
    requires head { found.bytes ≡ length (trace_text found.founders []) }
    requires read { TakesIn K.held (F.left reading) [] (trace_text found.founders [] ++ unread.held) }
    ensures served { IfOk result.ended (λ fault. (on : GoesOn (record { bytes = K.held; failures = F.failures reading }) (taken_by F.taken F.failures result.file) (Some found.founders) fault)
        × Announces E.taken E.failures on.torn on.steps port errors.old errors.new) }
    ensures unserved { IfErr result.ended (λ f. (asked : Option Weights) → Unresumed options.now.lose asked (record { bytes = K.held; failures = F.failures reading }) (taken_by F.taken F.failures result.file) f) }
    ensures told { IsErr result.ended → Announced E.taken E.failures K.held port errors.old errors.new }
{
    let Founded { founders, bytes } = found;
    let Ok(opened) = Opened::new(alloc) else {
        return given_up(reading, ResumeFault::Unserved(ServeFault::Memory));
    };
    let hasher = match RandomState::new(rt) {
        Ok(hasher) => hasher,
        Err(error) => return given_up(reading, ResumeFault::Unserved(ServeFault::from(error))),
    };
    go_on_named::<Brand, K, F, G, E, R>(
        rt, alloc, listener, port, options, gate, opened, hasher, founders, LAST, bytes, reading,
        unread, errors,
    )
}

// The same by a post of this name.
fn go_on_named<
    J: Terms<Weighted> + Starts + Send + Sync,
    K: Holds,
    F: Archive + Drop + Send,
    G: Gate,
    E: Sink,
    R,
>(
    rt: &R,
    alloc: Global,
    listener: &TcpListener,
    port: u16,
    options: &Options<Weighted>,
    gate: &G,
    opened: Opened<Step<Weighted>, Actor>,
    hasher: RandomState,
    founders: Weighted,
    steps: usize,
    head: u64,
    mut reading: Reading<K, F>,
    unread: Unread,
    errors: &mut E,
) -> Resumed<F>
where
    R: Net<Listener = TcpListener, Stream = TcpStream>
        + Threads
        + Wait
        + Clock
        + RandomSource
        + Sync,
    requires name { opened ≡ J.table }
    requires founders { J.founders ≡ Some founders }
    requires last { steps ≡ last }
    requires capacity { steps ≡ J.capacity }
    requires endless { J.endless ≡ true }
    requires lose { options.now.lose ≡ J.lose }
    requires twice { options.now.twice ≡ J.twice }
    requires syncs { options.now.syncs ≡ J.syncs }
    requires head { head ≡ length (trace_text founders []) }
    requires before { J.before ≡ emptied (record { bytes = K.held; failures = F.failures reading }) }
    requires knows { KnowsEnd unread (F.left reading) }
    requires read { TakesIn K.held (F.left reading) [] (trace_text founders [] ++ unread.held) }
    ensures served { IfOk result.ended (λ fault. (on : GoesOn (record { bytes = K.held; failures = F.failures reading }) (taken_by F.taken F.failures result.file) (Some founders) fault)
        × Announces E.taken E.failures on.torn on.steps port errors.old errors.new) }
    ensures unserved { IfErr result.ended (λ f. (asked : Option Weights) → Unresumed options.now.lose asked (record { bytes = K.held; failures = F.failures reading }) (taken_by F.taken F.failures result.file) f) }
    ensures told { IsErr result.ended → Announced E.taken E.failures K.held port errors.old errors.new }
{
    let (recovery, read) = match read_back::<J, K, F>(
        alloc,
        opened,
        hasher,
        founders,
        steps,
        options,
        &mut reading,
        unread,
    ) {
        Ok(parts) => parts,
        Err(fault) => return given_up(reading, fault),
    };
    let file = reading.into_inner();
    serve_recovered(
        rt, alloc, listener, port, options, gate, founders, head, recovery, read, file, errors,
    )
}

// The nodes of a trace of these founders, whose first two lines were read, and what its other lines have.
fn read_back<J: Terms<Weighted>, K: Holds, F: Archive>(
    alloc: Global,
    opened: Opened<Step<Weighted>, Actor>,
    hasher: RandomState,
    founders: Weighted,
    steps: usize,
    options: &Options<Weighted>,
    reading: &mut Reading<K, F>,
    mut unread: Unread,
) -> Result<(Recovery<J, Weighted, Copies>, Retraced), ResumeFault>
    requires name { opened ≡ J.table }
    requires founders { J.founders ≡ Some founders }
    requires last { steps ≡ last }
    requires capacity { steps ≡ J.capacity }
    requires endless { J.endless ≡ true }
    requires lose { options.now.lose ≡ J.lose }
    requires twice { options.now.twice ≡ J.twice }
    requires knows { KnowsEnd unread (F.left reading.old) }
    requires read { TakesIn K.held (F.left reading.old) [] (trace_text founders [] ++ unread.held) }
    ensures held { IfOk result (λ r. (torn : List ℕ) × (r.1 ≡ retraced r.0 torn) × HoldsTrace K.held founders r.0 torn) }
    ensures few { IfOk result (λ r. r.1.steps + 3 < 2 ^ 64) }
    ensures fine { OnOk result (F.failures reading.new ≡ F.failures reading.old) }
    ensures failed { IfErr result (λ f. F.failures reading.new ≡ failed_by f (F.failures reading.old)) }
    ensures own { IfErr result IsOfReading }
    ensures why { IfErr result (λ f. (asked : Option Weights) → WhyUnresumed options.now.lose asked K.held f) }
{
    let copies = Copies::new(alloc, hasher);
    let made = Recovery::<J, Weighted, Copies>::new(
        alloc,
        opened,
        founders,
        steps,
        AHEAD,
        &copies,
        options.lose,
        options.twice,
    );
    let Ok(recovery) = made else {
        return Err(ResumeFault::Unserved(ServeFault::Memory));
    };
    let mut taking = Taking { recovery };
    match retrace(alloc, &mut unread, reading, &mut taking) {
        Ok(read) => Ok((taking.recovery, read)),
        Err(fault) => Err(ResumeFault::Trace(fault)),
    }
}

// A server goes on from these nodes, which stand where the trace in a file ends. What stands behind it is cut off first.
fn serve_recovered<
    J: Terms<Weighted> + Starts + Send + Sync,
    F: Archive + Drop + Send,
    G: Gate,
    E: Sink,
    R,
>(
    rt: &R,
    alloc: Global,
    listener: &TcpListener,
    port: u16,
    options: &Options<Weighted>,
    gate: &G,
    founders: Weighted,
    head: u64,
    mut recovery: Recovery<J, Weighted, Copies>,
    read: Retraced,
    mut file: F,
    errors: &mut E,
) -> Resumed<F>
where
    R: Net<Listener = TcpListener, Stream = TcpStream>
        + Threads
        + Wait
        + Clock
        + RandomSource
        + Sync,
    requires founders { J.founders ≡ Some founders }
    requires endless { J.endless ≡ true }
    requires syncs { options.now.syncs ≡ J.syncs }
    requires head { head ≡ length (trace_text founders []) }
    requires held { (torn : List ℕ) × (read ≡ retraced recovery torn) × HoldsTrace (F.taken file) founders recovery torn }
    requires few { read.steps + 3 < 2 ^ 64 }
    requires before { J.before ≡ emptied (taken_by F.taken F.failures file) }
    ensures served { IfOk result.ended (λ fault. (on : GoesOn (taken_by F.taken F.failures file) (taken_by F.taken F.failures result.file) (Some founders) fault)
        × Announces E.taken E.failures on.torn on.steps port errors.old errors.new) }
    ensures unserved { IfErr result.ended (λ f. (asked : Option Weights) → Unresumed options.now.lose asked (taken_by F.taken F.failures file) (taken_by F.taken F.failures result.file) f) }
    ensures told { IsErr result.ended → Announced E.taken E.failures (F.taken file) port errors.old errors.new }
{
    if let Err(fault) = cut_torn(head, &read, &mut file) {
        return Resumed {
            file,
            ended: Err(fault),
        };
    }
    let stopped = recovery.stopped();
    let Ok((post, drawn, shown)) = Post::recovered(alloc, recovery) else {
        return Resumed {
            file,
            ended: Err(ResumeFault::Unserved(ServeFault::Memory)),
        };
    };
    announce(&read, port, errors);
    resumed_by(serve_post(
        rt, alloc, listener, options, founders, gate, post, drawn, shown, stopped, file,
    ))
}

// Tells what was cut off of a trace, how many steps it has, and where the server listens.
fn announce<E: Sink>(read: &Retraced, port: u16, errors: &mut E)
    requires { read.now.steps + 3 < 2 ^ 64 }
    ensures { (steps : List (AnyStep Weights)) (torn : List ℕ) → read.now ≡ retraced steps torn
        → Announces E.taken E.failures torn steps port errors.old errors.new }
{
    if 0 < read.torn {
        tell_torn(read.torn, read.steps + 3, errors);
    }
    tell_resumed(read.steps, errors);
    tell_listening(port, errors);
}
