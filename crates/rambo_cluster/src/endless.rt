//! Serving clients without an end of the steps, which are written as they are done.
ghost use Rattle.std.specs.Prelude.{◌≡◌, List, Option, None, Some, is_some, true, false, IsOk, IfOk, IfErr, OnErr};
ghost use mathlib.Core.List.{IsPrefix};
ghost use Rattle.rambo_names.specs.Weights.{Weights, weighted_majorities};
ghost use Rattle.rambo_node.specs.Steps.{Step as AnyStep};
ghost use Rattle.rambo_run.specs.Legal.{IsLegal};
ghost use Rattle.rambo_scribe.specs.Traced.{HasWritten, Taken, taken_by};

use crate::fault::ServeFault;
use crate::hub::{Copies, Hub};
use crate::opening::{House, open_house};
use crate::options::Options;
use crate::running::run;
use rambo_archive::Durable;
use rambo_names::{Members, Weighted};
use rambo_post::{Actor, Drawn, Gate, Pass, Post, Shown, Terms};
use rambo_roll::Opened;
use rambo_run::Step;
use rambo_scribe::{Scribe, Starts, TraceFault};
use std::alloc::Global;
use std::hash::RandomState;
use std::marker::Brand;
use std::net::{Net, TcpListener, TcpStream};
use std::random::RandomSource;
use std::sync::{Mutex, Wait};
use std::thread::Threads;
use std::time::Clock;

/// How many steps are at hand at most, since they weren't written.
pub const AHEAD: usize = 131_072;

/// How many steps an endless server takes in all.
pub const LAST: usize = usize::MAX;

/// What a server leaves that wrote its steps as they were done.
#[derive(Drop)]
pub struct Traced<W: Durable + Drop> {
    /// The writer of the trace.
    pub writer: W,
    /// Why the trace isn't whole, if that is so; or why nobody was served, and nothing written.
    pub ended: Result<Option<TraceFault>, ServeFault>,
}

/// Serves clients over the sockets of a listener until one asks for the end, or the writer fails. Meanwhile the trace of all
/// steps is written. None of them was refused in its turn. Where the writer failed, or memory ran out for a line, a prefix of
/// the trace was written.
///
/// The options' number of steps isn't used. A socket that fails ends its own connection alone. `ServeFault` says for what
/// faults nobody is served.
pub fn serve_endless<W: Durable + Drop + Send, G: Gate, R>(
    rt: &R,
    alloc: Global,
    listener: &TcpListener,
    options: &Options<Weighted>,
    gate: &G,
    writer: W,
) -> Traced<W>
where
    R: Net<Listener = TcpListener, Stream = TcpStream>
        + Threads
        + Wait
        + Clock
        + RandomSource
        + Sync,
    ensures written { IfOk result.ended (λ fault. (steps : List (AnyStep Weights)) × IsLegal weighted_majorities options.now.founders steps
        × HasWritten (taken_by W.taken W.failures writer) (taken_by W.taken W.failures result.writer) options.now.founders steps fault) }
    ensures unwritten { OnErr result.ended (result.writer ≡ writer) }
{
    let opened = match Opened::new(alloc) {
        Ok(opened) => opened,
        Err(_) => {
            return Traced {
                writer,
                ended: Err(ServeFault::Memory),
            };
        }
    };
    serve_endless_named::<Brand, W, G, R>(
        rt,
        alloc,
        opened,
        listener,
        options,
        options.founders,
        LAST,
        gate,
        writer,
    )
}

// The same by a post of this name.
fn serve_endless_named<
    J: Terms<Weighted> + Starts + Send + Sync,
    W: Durable + Drop + Send,
    G: Gate,
    R,
>(
    rt: &R,
    alloc: Global,
    opened: Opened<Step<Weighted>, Actor>,
    listener: &TcpListener,
    options: &Options<Weighted>,
    founders: Weighted,
    steps: usize,
    gate: &G,
    writer: W,
) -> Traced<W>
where
    R: Net<Listener = TcpListener, Stream = TcpStream>
        + Threads
        + Wait
        + Clock
        + RandomSource
        + Sync,
    requires name { opened ≡ J.table }
    requires founders { J.founders ≡ Some founders }
    requires capacity { steps ≡ J.capacity }
    requires endless { J.endless ≡ true }
    requires lose { options.now.lose ≡ J.lose }
    requires twice { options.now.twice ≡ J.twice }
    requires syncs { options.now.syncs ≡ J.syncs }
    requires before { taken_by W.taken W.failures writer ≡ J.before }
    ensures written { IfOk result.ended (λ fault. (all : List (AnyStep Weights)) × IsLegal weighted_majorities founders all
        × HasWritten J.before (taken_by W.taken W.failures result.writer) founders all fault) }
    ensures unwritten { OnErr result.ended (result.writer ≡ writer) }
{
    match endless_house::<J, R>(rt, alloc, opened, listener, options, founders, steps) {
        Ok(house) => {
            let post = &house.hub.post;
            let scribe = Scribe::new(rt, alloc, post, founders, writer);
            let nothing = post.nothing_shown(rt);
            serve_house(
                rt, alloc, listener, options, founders, gate, house, scribe, nothing,
            )
        }
        Err(fault) => Traced {
            writer,
            ended: Err(fault),
        },
    }
}

/// Serves clients as `serve_endless` does, by a post that has taken steps before: all of them were shown and drawn, and stand in
/// the trace that the writer has, which goes on. These nodes have stopped.
pub fn serve_post<J: Terms<Weighted> + Starts + Send + Sync, W: Durable + Drop + Send, G: Gate, R>(
    rt: &R,
    alloc: Global,
    listener: &TcpListener,
    options: &Options<Weighted>,
    founders: Weighted,
    gate: &G,
    post: Post<J, Weighted, Copies>,
    drawn: Drawn<J, Step<Weighted>>,
    shown: Shown<J, Weighted>,
    stopped: Members,
    writer: W,
) -> Traced<W>
where
    R: Net<Listener = TcpListener, Stream = TcpStream>
        + Threads
        + Wait
        + Clock
        + RandomSource
        + Sync,
    requires founders { J.founders ≡ Some founders }
    requires endless { J.endless ≡ true }
    requires syncs { options.now.syncs ≡ J.syncs }
    requires shown { shown ≡ drawn }
    requires written { HasWritten J.before (taken_by W.taken W.failures writer) founders drawn None }
    ensures written { IfOk result.ended (λ fault. (all : List (AnyStep Weights)) × IsLegal weighted_majorities founders all × IsPrefix drawn all
        × HasWritten J.before (taken_by W.taken W.failures result.writer) founders all fault) }
    ensures unwritten { OnErr result.ended (result.writer ≡ writer) }
{
    match open_house(
        rt,
        alloc,
        post,
        listener,
        options,
        founders,
        LAST,
        true,
        options.syncs,
    ) {
        Ok(house) => {
            house.hub.rouse(stopped);
            let post = &house.hub.post;
            let scribe = Scribe::resumed(rt, alloc, post, founders, drawn, writer);
            serve_house(
                rt, alloc, listener, options, founders, gate, house, scribe, shown,
            )
        }
        Err(fault) => Traced {
            writer,
            ended: Err(fault),
        },
    }
}

// The threads of a house work until the server ends, and its scribe writes.
fn serve_house<J: Terms<Weighted> + Starts + Send + Sync, W: Durable + Drop + Send, G: Gate, R>(
    rt: &R,
    alloc: Global,
    listener: &TcpListener,
    options: &Options<Weighted>,
    founders: Weighted,
    gate: &G,
    house: House<J>,
    scribe: Scribe<J, W>,
    once: Shown<J, Weighted>,
) -> Traced<W>
where
    R: Net<Listener = TcpListener, Stream = TcpStream>
        + Threads
        + Wait
        + Clock
        + RandomSource
        + Sync,
    requires { J.founders ≡ Some founders }
    ensures written { IfOk result.ended (λ fault. (all : List (AnyStep Weights)) × IsLegal weighted_majorities founders all × IsPrefix once all
        × HasWritten J.before (taken_by W.taken W.failures result.writer) founders all fault) }
    ensures served { IsOk result.ended }
{
    let House {
        hub,
        mut passes,
        mut seats,
        to,
        own,
    } = house;
    let scribe = Some(Mutex::new(scribe));
    let all_run = run(
        rt,
        gate,
        alloc,
        &hub,
        listener,
        own,
        to,
        &mut seats,
        &mut passes,
        &scribe,
        options.connections as u64,
    );
    let Some(scribe) = scribe else { unreachable!() };
    let (writer, fault) = end(alloc, hub, passes, scribe.into_inner(), founders, once);
    Traced {
        writer,
        ended: Ok(fault_if(all_run, fault)),
    }
}

// What a server of an endless post has.
fn endless_house<J: Terms<Weighted> + Starts, R>(
    rt: &R,
    alloc: Global,
    opened: Opened<Step<Weighted>, Actor>,
    listener: &TcpListener,
    options: &Options<Weighted>,
    founders: Weighted,
    steps: usize,
) -> Result<House<J>, ServeFault>
where
    R: Net<Listener = TcpListener, Stream = TcpStream> + Wait + Clock + RandomSource,
    requires name { opened ≡ J.table }
    requires founders { J.founders ≡ Some founders }
    requires capacity { steps ≡ J.capacity }
    requires endless { J.endless ≡ true }
    requires lose { options.now.lose ≡ J.lose }
    requires twice { options.now.twice ≡ J.twice }
    requires syncs { options.now.syncs ≡ J.syncs }
{
    let hasher = RandomState::new(rt)?;
    let copies = Copies::new(alloc, hasher);
    let post = Post::<J, Weighted, Copies>::endless(
        alloc,
        opened,
        founders,
        steps,
        AHEAD,
        &copies,
        options.lose,
        options.twice,
    )?;
    open_house(
        rt,
        alloc,
        post,
        listener,
        options,
        founders,
        steps,
        true,
        options.syncs,
    )
}

// The post ends once no thread works any more, and the rest of its steps is written.
fn end<J: Terms<Weighted> + Starts, W: Durable + Drop>(
    alloc: Global,
    hub: Hub<J>,
    passes: Vec<Pass<J, Weighted>>,
    scribe: Scribe<J, W>,
    founders: Weighted,
    once: Shown<J, Weighted>,
) -> (W, Option<TraceFault>)
    requires { J.founders ≡ Some founders }
    ensures { (all : List (AnyStep Weights)) × IsLegal weighted_majorities founders all × IsPrefix once all × HasWritten J.before (taken_by W.taken W.failures result.0) founders all result.1 }
{
    let Hub { post, .. } = hub;
    scribe.end(alloc, post, passes, once).into_parts()
}

// Why a trace isn't whole: `Memory` where no thread could be started, unless there was a fault before.
fn fault_if(all_run: bool, fault: Option<TraceFault>) -> Option<TraceFault>
    ensures run { all_run ≡ true → result ≡ fault }
    ensures unrun { all_run ≡ false → is_some result ≡ true }
    ensures written { (old new : Taken) (f : Weights) (steps : List (AnyStep Weights)) → HasWritten old new f steps fault → HasWritten old new f steps result }
{
    match fault {
        None if !all_run => Some(TraceFault::Memory),
        _ => fault,
    }
}
