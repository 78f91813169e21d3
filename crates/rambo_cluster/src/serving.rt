//! Serving clients over sockets.
ghost use Rattle.std.specs.Prelude.{◌≡◌, ◌≤◌, Some, false, length, IfOk, IfErr, IfSome, All};
ghost use mathlib.Core.List.{IsPrefix};
ghost use Rattle.rambo_names.specs.Weights.{weighted_majorities};
ghost use Rattle.rambo_history.specs.Proper.{IsProperForAll};
ghost use Rattle.rambo_run.specs.Legal.{IsLegal};
ghost use Rattle.rambo_run.specs.Runs.{run, given_order};

use crate::fault::ServeFault;
use crate::hub::{Copies, Hub};
use crate::opening::{House, open_house};
use crate::options::Options;
use crate::running::run;
use rambo_archive::Loose;
use rambo_atomic::Tape;
use rambo_names::Weighted;
use rambo_post::{Actor, Closed, Gate, Left, Pass, Post, Terms};
use rambo_roll::Opened;
use rambo_run::Step;
use rambo_scribe::{Scribe, Starts};
use std::alloc::Global;
use std::hash::RandomState;
use std::marker::Brand;
use std::net::{Net, TcpListener, TcpStream};
use std::random::RandomSource;
use std::sync::{Mutex, Wait};
use std::thread::Threads;
use std::time::Clock;

/// Serves clients over the sockets of a listener until one asks for the end, and returns all steps. None of them was
/// refused in its turn, and there are at most as many as the options allow. It also returns one order of the calls of
/// all keys, which explains their answers together, or None where there is no room for it.
///
/// The options' `syncs` isn't used. A socket that fails ends its own connection alone. `ServeFault` says for what faults nobody is
/// served.
pub fn serve<G: Gate, R>(
    rt: &R,
    alloc: Global,
    listener: &TcpListener,
    options: &Options<Weighted>,
    gate: &G,
) -> Result<Left<Weighted>, ServeFault>
where
    R: Net<Listener = TcpListener, Stream = TcpStream>
        + Threads
        + Wait
        + Clock
        + RandomSource
        + Sync,
    ensures legal { IfOk result (λ l. IsLegal weighted_majorities options.now.founders l.steps) }
    ensures fits { IfOk result (λ l. length l.steps ≤ options.now.steps) }
    ensures order { IfOk result (λ l. IfSome l.order (λ o. o ≡ given_order (run weighted_majorities options.now.founders l.steps))) }
    ensures explained { IfOk result (λ l. IfSome l.order (λ o. IsProperForAll (run weighted_majorities options.now.founders l.steps).history o)) }
{
    let opened = Opened::new(alloc)?;
    serve_named::<Brand, G, R>(
        rt,
        alloc,
        opened,
        listener,
        options,
        options.founders,
        options.steps,
        gate,
    )
}

// The same by a post of this name: what it leaves once it is closed.
fn serve_named<J: Terms<Weighted> + Starts + Send + Sync, G: Gate, R>(
    rt: &R,
    alloc: Global,
    opened: Opened<Step<Weighted>, Actor>,
    listener: &TcpListener,
    options: &Options<Weighted>,
    founders: Weighted,
    steps: usize,
    gate: &G,
) -> Result<Left<Weighted>, ServeFault>
where
    R: Net<Listener = TcpListener, Stream = TcpStream>
        + Threads
        + Wait
        + Clock
        + RandomSource
        + Sync,
    requires name { opened ≡ J.table }
    requires founders { J.founders ≡ Some founders }
    requires capacity { steps ≡ J.capacity }
    requires endless { J.endless ≡ false }
    requires lose { options.now.lose ≡ J.lose }
    requires twice { options.now.twice ≡ J.twice }
    requires syncs { J.syncs ≡ false }
    ensures legal { IfOk result (λ l. IsLegal weighted_majorities founders l.steps) }
    ensures fits { IfOk result (λ l. length l.steps ≤ steps) }
    ensures order { IfOk result (λ l. IfSome l.order (λ o. o ≡ given_order (run weighted_majorities founders l.steps))) }
    ensures explained { IfOk result (λ l. IfSome l.order (λ o. IsProperForAll (run weighted_majorities founders l.steps).history o)) }
{
    let closed = serve_as::<J, G, R>(rt, alloc, opened, listener, options, founders, steps, gate)?;
    Ok(left_by(closed, founders))
}

// What a closed post of these founders leaves.
fn left_by<J: Terms<Weighted>>(closed: Closed<J, Weighted>, founders: Weighted) -> Left<Weighted>
    requires { J.founders ≡ Some founders }
    ensures same { result ≡ closed }
    ensures legal { IsLegal weighted_majorities founders result.steps }
    ensures fits { length result.steps ≤ J.capacity }
    ensures order { IfSome result.order (λ o. o ≡ given_order (run weighted_majorities founders result.steps)) }
    ensures explained { IfSome result.order (λ o. IsProperForAll (run weighted_majorities founders result.steps).history o) }
{
    closed.into_left()
}

// The same. Returns the post of this name once it is closed. There is no other post of this name, since one takes the
// one roll that was opened for the name, and only the close of a post gives this.
fn serve_as<J: Terms<Weighted> + Starts + Send + Sync, G: Gate, R>(
    rt: &R,
    alloc: Global,
    opened: Opened<Step<Weighted>, Actor>,
    listener: &TcpListener,
    options: &Options<Weighted>,
    founders: Weighted,
    steps: usize,
    gate: &G,
) -> Result<Closed<J, Weighted>, ServeFault>
where
    R: Net<Listener = TcpListener, Stream = TcpStream>
        + Threads
        + Wait
        + Clock
        + RandomSource
        + Sync,
    requires name { opened ≡ J.table }
    requires founders { J.founders ≡ Some founders }
    requires capacity { steps ≡ J.capacity }
    requires endless { J.endless ≡ false }
    requires lose { options.now.lose ≡ J.lose }
    requires twice { options.now.twice ≡ J.twice }
    requires syncs { J.syncs ≡ false }
{
    let hasher = RandomState::new(rt)?;
    let post = post_of::<J>(alloc, opened, options, founders, steps, hasher)?;
    let House {
        hub,
        mut passes,
        mut seats,
        to,
        own,
    } = open_house(
        rt, alloc, post, listener, options, founders, steps, false, false,
    )?;
    let nobody: Option<Mutex<Scribe<J, Loose<Tape>>>> = None;
    if run(
        rt,
        gate,
        alloc,
        &hub,
        listener,
        own,
        to,
        &mut seats,
        &mut passes,
        &nobody,
        options.connections as u64,
    ) {
        Ok(end(hub, passes))
    } else {
        Err(ServeFault::Memory)
    }
}

// The post of this many steps, whose letters are lost and doubled as the options say.
fn post_of<J: Terms<Weighted>>(
    alloc: Global,
    opened: Opened<Step<Weighted>, Actor>,
    options: &Options<Weighted>,
    founders: Weighted,
    steps: usize,
    hasher: RandomState,
) -> Result<Post<J, Weighted, Copies>, ServeFault>
    requires name { opened ≡ J.table }
    requires founders { J.founders ≡ Some founders }
    requires capacity { steps ≡ J.capacity }
    requires endless { J.endless ≡ false }
    requires lose { options.now.lose ≡ J.lose }
    requires twice { options.now.twice ≡ J.twice }
    ensures fault { IfErr result (λ f. f ≡ ServeFault.Memory) }
{
    let copies = Copies::new(alloc, hasher);
    let post = Post::<J, Weighted, Copies>::with_mail(
        alloc,
        opened,
        founders,
        steps,
        &copies,
        options.lose,
        options.twice,
    )?;
    Ok(post)
}

// The post, closed once no thread works any more: what the pass of each client has seen begins its steps.
fn end<J: Terms<Weighted> + Starts>(
    hub: Hub<J>,
    passes: Vec<Pass<J, Weighted>>,
) -> Closed<J, Weighted>
    requires { J.endless ≡ false }
    ensures begins { All (λ p. IsPrefix p.seen result.steps) passes.items }
{
    let Hub { post, .. } = hub;
    post.close(passes)
}
