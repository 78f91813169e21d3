//! What a server has before its threads work.
ghost use Rattle.std.specs.Prelude.{◌≡◌, [], Some, slice_get, vec_len, IfOk, IfErr, All};
ghost use Rattle.rambo_names.specs.Names.{names};
ghost use Rattle.rambo_names.specs.Weights.{members_of};

use crate::fault::ServeFault;
use crate::hub::{Copies, Hub};
use crate::options::Options;
use crate::station::{Seat, seats_of, stations_of};
use crossbeam_channel::Sender;
use rambo_names::{Name, Quorums, Refusal, Weighted};
use rambo_post::{Pass, Post, Terms};
use rambo_scribe::{Kept, Starts};
use std::alloc::Global;
use std::net::{Net, SocketAddr, TcpListener, TcpStream};
use std::sync::Wait;
use std::time::{Clock, Instant};

/// What a server has: what all its threads share, and for each client worker a pass, a seat, and where its sockets are sent to.
#[derive(Drop)]
pub(crate) struct House<J: Terms<Weighted> + Starts> {
    pub(crate) hub: Hub<J>,
    pub(crate) passes: Vec<Pass<J, Weighted>>,
    pub(crate) seats: Vec<Seat>,
    pub(crate) to: Vec<Sender<TcpStream>>,
    /// Where it listens.
    pub(crate) own: SocketAddr,
}

/// That of a post of these founders, whose clients begin at the lowest one. It takes so many steps in all, which are drawn or
/// aren't, and replies wait for what the medium of the trace keeps, or don't. The passes have seen nothing.
///
/// `Memory` where there is no founder, too many workers, or no room; `Socket` where the listener has no address, or the system
/// has no clock or nothing to wait for sockets by.
pub(crate) fn open_house<J: Terms<Weighted> + Starts, R>(
    rt: &R,
    alloc: Global,
    post: Post<J, Weighted, Copies>,
    listener: &TcpListener,
    options: &Options<Weighted>,
    founders: Weighted,
    steps: usize,
    draws: bool,
    syncs: bool,
) -> Result<House<J>, ServeFault>
where
    R: Net<Listener = TcpListener, Stream = TcpStream> + Wait + Clock,
    requires syncs { syncs ≡ J.syncs }
    ensures first { IfOk result (λ h. slice_get (names (members_of founders)) 0 ≡ Some h.hub.first) }
    ensures passes { IfOk result (λ h. vec_len h.passes ≡ options.now.clients) }
    ensures fresh { IfOk result (λ h. All (λ p. p ≡ record { seen = []; mine = [] }) h.passes.items) }
{
    let own = listener.local_addr()?;
    let begun = Instant::now(rt)?;
    let first = lowest(founders)?;
    let (seats, to) = seats_of(rt, alloc, options.clients)?;
    let stations = stations_of(alloc, seats.as_slice())?;
    let passes = passes_of(rt, alloc, &post, options.clients)?;
    let kept = Kept::none(rt, &post, syncs);
    let hub = Hub::new(
        alloc, post, kept, founders, steps, draws, first, stations, begun,
    )?;
    Ok(House {
        hub,
        passes,
        seats,
        to,
        own,
    })
}

// This many passes, which have seen nothing.
fn passes_of<J: Terms<Weighted> + Starts, R: Wait>(
    rt: &R,
    alloc: Global,
    post: &Post<J, Weighted, Copies>,
    count: usize,
) -> Result<Vec<Pass<J, Weighted>>, ServeFault>
    ensures count { IfOk result (λ ps. vec_len ps ≡ count) }
    ensures fresh { IfOk result (λ ps. All (λ p. p ≡ record { seen = []; mine = [] }) ps.items) }
    ensures fault { IfErr result (λ f. f ≡ ServeFault.Memory) }
{
    let mut passes = Vec::new(alloc);
    for place in 0..count {
        passes.push(post.pass(rt, alloc)?)?;
    }
    Ok(passes)
}

// The lowest founder. `EmptyMembers` where there is none.
fn lowest(founders: Weighted) -> Result<Name, Refusal>
    ensures ok { IfOk result (λ n. slice_get (names (members_of founders)) 0 ≡ Some n) }
    ensures refused { IfErr result (λ r. (r ≡ Refusal.EmptyMembers) × (names (members_of founders) ≡ [])) }
{
    match founders.members().iter().next() {
        Some(name) => Ok(name),
        None => Err(Refusal::EmptyMembers),
    }
}
