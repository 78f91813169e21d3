//! The threads of a server.
ghost use denote.Param.Send.{IsSend};

use crate::hub::Hub;
use crate::station::Seat;
use crate::worker::serve_connections;
use crossbeam_channel::Sender;
use rambo_archive::Durable;
use rambo_atomic::{Wrapped, write_all};
use rambo_names::Weighted;
use rambo_post::{Gate, Pass, Terms};
use rambo_scribe::{Scribe, Starts};
use std::alloc::Global;
use std::net::{Net, SocketAddr, TcpListener, TcpStream};
use std::sync::{Mutex, Wait};
use std::thread;
use std::thread::Threads;
use std::time::{Clock, Duration};

// How many milliseconds pass before a socket that failed is tried again, and how often one of our own is tried.
const PAUSE: u64 = 10;

const TRIES: u64 = 1000;

// What is told to one connection too many.
const TOO_MANY: &[u8] = b"-ERR max number of clients reached\r\n";

/// Runs all threads until the end, with at most so many connections at once. One of them writes down the steps meanwhile, where
/// there is a scribe.
///
/// Returns whether each thread could be started. If not, nobody was served, and those that were started have ended.
pub(crate) fn run<J: Terms<Weighted> + Starts + Send + Sync, W: Durable + Drop + Send, G: Gate, R>(
    rt: &R,
    gate: &G,
    alloc: Global,
    hub: &Hub<J>,
    listener: &TcpListener,
    own: SocketAddr,
    to: Vec<Sender<TcpStream>>,
    seats: &mut Vec<Seat>,
    passes: &mut Vec<Pass<J, Weighted>>,
    scribe: &Option<Mutex<Scribe<J, W>>>,
    most: u64,
) -> bool
where
    R: Net<Listener = TcpListener, Stream = TcpStream> + Threads + Wait + Clock + Sync,
{
    thread::scope(
        thread::scope_env(),
        rt,
        |scope|
            requires { IsSend W.row }
        {
            let timer = scope.spawn(move || hub.keep_time(rt, gate, alloc));
            let mut all_run = timer.is_ok();
            if let Some(scribe) = scribe {
                let writer = scope.spawn(move || write_steps(rt, alloc, hub, own, scribe));
                all_run &= writer.is_ok();
            }
            let mut place = 0u32;
            for (pass, seat) in passes.iter_mut().zip(seats.iter_mut()) {
                let worker = scope.spawn(move || serve_seat(
                    rt, gate, alloc, hub, own, pass, seat, place,
                ));
                all_run &= worker.is_ok();
                place = place.wrapping_add(1);
            }
            if all_run {
                accept_all(rt, hub, listener, to.as_slice(), most);
            } else {
                hub.close(rt);
            }
            drop(to);
            all_run
        },
    )
}

// The work of the thread that writes the steps, until the server ends, which it does where they can't be written.
fn write_steps<J: Terms<Weighted> + Starts, W: Durable + Drop, R>(
    rt: &R,
    alloc: Global,
    hub: &Hub<J>,
    own: SocketAddr,
    scribe: &Mutex<Scribe<J, W>>,
)
where
    R: Net<Listener = TcpListener, Stream = TcpStream> + Wait + Clock,
{
    hub.write_down(rt, alloc, &mut scribe.lock(rt));
    if hub.has_failed() {
        wake_acceptor(rt, own);
    }
}

// Accepts sockets and hands them to the client workers by turns, until the server is to end.
fn accept_all<J: Terms<Weighted> + Starts, R: Wait + Clock>(
    rt: &R,
    hub: &Hub<J>,
    listener: &TcpListener,
    to: &[Sender<TcpStream>],
    most: u64,
) {
    let mut place = 0usize;
    for _ in rt.forever() {
        let accepted = listener.accept();
        if hub.is_closing() {
            return;
        }
        match accepted {
            Ok((stream, _)) => {
                if !hub.let_in(most) {
                    turn_away(&stream);
                } else if !hand_over(rt, hub, stream, to, place) {
                    return;
                }
                place = if place.wrapping_add(1) < to.len() {
                    place.wrapping_add(1)
                } else {
                    0
                };
            }
            Err(_) => thread::sleep(rt, Duration::from_millis(PAUSE)),
        }
    }
}

// Tells a connection that there are too many.
fn turn_away(stream: &TcpStream) {
    let _ = write_all(&mut Wrapped::new(stream), TOO_MANY);
}

// Hands a socket to the client worker at a place. Returns whether that is still at work.
fn hand_over<J: Terms<Weighted> + Starts, R: Wait>(
    rt: &R,
    hub: &Hub<J>,
    stream: TcpStream,
    to: &[Sender<TcpStream>],
    place: usize,
) -> bool {
    let Some(sender) = to.get(place) else {
        return false;
    };
    if sender.send(rt, stream).is_err() {
        return false;
    }
    if let Some(station) = hub.stations.get(place) {
        station.alarm.ring();
    }
    true
}

// Ends the wait for the next socket, by a connection of our own.
fn wake_acceptor<R>(rt: &R, own: SocketAddr)
where
    R: Net<Listener = TcpListener, Stream = TcpStream> + Clock,
{
    for _ in 0..TRIES {
        if TcpStream::connect(rt, own).is_ok() {
            return;
        }
        thread::sleep(rt, Duration::from_millis(PAUSE));
    }
}

// The work of a client worker, until the server ends.
fn serve_seat<J: Terms<Weighted> + Starts, G: Gate, R>(
    rt: &R,
    gate: &G,
    alloc: Global,
    hub: &Hub<J>,
    own: SocketAddr,
    pass: &mut Pass<J, Weighted>,
    seat: &mut Seat,
    place: u32,
)
where
    R: Net<Listener = TcpListener, Stream = TcpStream> + Wait + Clock,
{
    hub.begin_work();
    let mut kept = hub.kept(rt);
    let ends_all = serve_connections(rt, gate, alloc, hub, pass, &mut kept, seat, place);
    hub.end_work(rt);
    if ends_all {
        hub.close(rt);
        wake_acceptor(rt, own);
    }
}
