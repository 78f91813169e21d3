//! Serving a client.
ghost use Rattle.std.specs.Prelude.{◌≡◌, ◌≤◌, IfOk, IfErr, OnOk, OnErr};
ghost use Rattle.rambo_names.specs.Names.{count_of};
ghost use Rattle.rambo_names.specs.Weights.{members_of};
ghost use Rattle.rambo_client.specs.Faults.{reads_failed, writes_failed};
ghost use Rattle.rambo_client.specs.Talks.{Served, Stopped};
ghost use Rattle.rambo_client.specs.Courses.{no_steps};
ghost use Rattle.rambo_direct.specs.Taken.{took_by};

use crate::cluster::{Nodes, WeightedDirect};
use rambo_atomic::{Sink, Source};
use rambo_client::{Client, LocalFault, serve};
use rambo_names::{Refusal, Weighted};
use rambo_tag::Registers;
use std::alloc::Global;
use std::hash::{BuildHasherDefault, FoldHasher};

/// Serves one client of a store of its own with these founders. The commands that a source gives, in RESP2, are
/// answered into a sink, as by the lowest founder, which asks all others.
///
/// `PING` answers `PONG`, or its word; `GET` the value of a key, or nil; `SET` sets a key to a value. What is written
/// is what an ordinary map replies, and after a fault of the input the reply to it, after which no more is read. A
/// command that the end of the input cuts short is not answered. Those that are whole are answered before more is read.
///
/// `Read` and `Write` where a call of that stream fails; `Memory` where there is no room for what has to be stored.
/// Then a prefix of the replies was written.
pub fn local<R: Source, W: Sink>(
    alloc: Global,
    founders: Weighted,
    reader: &mut R,
    writer: &mut W,
) -> Result<(), LocalFault>
    requires { 1 ≤ count_of (members_of founders) }
    ensures ok { OnOk result (Served founders (R.left reader.old) (R.left reader.new) (W.taken writer.old) (W.taken writer.new)) }
    ensures err { OnErr result (Stopped founders (R.left reader.old) (R.left reader.new) (W.taken writer.old) (W.taken writer.new)) }
    ensures fine_reader { OnOk result (R.failures reader.new ≡ R.failures reader.old) }
    ensures fine_writer { OnOk result (W.failures writer.new ≡ W.failures writer.old) }
    ensures reads { IfErr result (λ f. R.failures reader.new ≡ reads_failed f (R.failures reader.old)) }
    ensures writes { IfErr result (λ f. W.failures writer.new ≡ writes_failed f (W.failures writer.old)) }
{
    let Some(client) = Client::new(founders) else {
        return Err(LocalFault::Memory);
    };
    let mut cluster = nodes_of(alloc, founders)?;
    serve(&client, alloc, &mut cluster, reader, writer)
}

// The nodes of these founders, before any step.
// (a function of its own: where a run is made and dropped in one, the prover follows each piece of it on each way)
fn nodes_of(alloc: Global, founders: Weighted) -> Result<Nodes, Refusal>
    requires { 1 ≤ count_of (members_of founders) }
    ensures { IfOk result (λ nodes. took_by nodes.direct (no_steps founders)) }
{
    let registers = Registers::new(alloc, BuildHasherDefault::<FoldHasher>::new());
    let direct = WeightedDirect::new(alloc, founders, &registers)?;
    Ok(Nodes { direct })
}
