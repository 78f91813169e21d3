//! Serving a client of a world.
ghost use Rattle.std.specs.Prelude.{◌≡◌, ◌≤◌, [], IfErr, OnOk, OnErr};
ghost use Rattle.rambo_names.specs.Names.{count_of};
ghost use Rattle.rambo_names.specs.Weights.{members_of};
ghost use Rattle.rambo_client.specs.Calls.{lowest};
ghost use Rattle.rambo_client.specs.Faults.{reads_failed, writes_failed};
ghost use Rattle.rambo_client.specs.Talks.{ServesAt, StopsAt};
ghost use Rattle.rambo_local.specs.Clusters.{took_by};

use crate::cluster::Host;
use crate::founding::founders_of;
use rambo_atomic::{Sink, Source};
use rambo_client::{Client, LocalFault, serve};
use std::alloc::Global;

/// Serves one client, as `local` does, of the nodes of a new world.
///
/// For each `GET` and `SET` that isn't refused the world takes its call at the lowest founder. Then it takes, twice, a
/// letter from there to each other founder and one back, in ascending order, and an advance of the call. So its history
/// is that of the calls, each with its answer.
///
/// After a fault steps and history are prefixes of these.
pub fn local_on<R: Source, W: Sink>(
    alloc: Global,
    world: &mut Host,
    reader: &mut R,
    writer: &mut W,
) -> Result<(), LocalFault>
    requires fresh { world.old.steps ≡ [] }
    requires founded { 1 ≤ count_of (members_of world.old.founders) }
    ensures ok { OnOk result (ServesAt (lowest (members_of world.old.founders)) world.old.founders (R.left reader.old) (R.left reader.new) (W.taken writer.old) (W.taken writer.new) (took_by world.new)) }
    ensures err { OnErr result (StopsAt (lowest (members_of world.old.founders)) world.old.founders (R.left reader.old) (R.left reader.new) (W.taken writer.old) (W.taken writer.new) (took_by world.new)) }
    ensures fine_reader { OnOk result (R.failures reader.new ≡ R.failures reader.old) }
    ensures fine_writer { OnOk result (W.failures writer.new ≡ W.failures writer.old) }
    ensures reads { IfErr result (λ f. R.failures reader.new ≡ reads_failed f (R.failures reader.old)) }
    ensures writes { IfErr result (λ f. W.failures writer.new ≡ writes_failed f (W.failures writer.old)) }
{
    let founders = founders_of(world)?;
    let Some(client) = Client::new(founders) else {
        return Err(LocalFault::Memory);
    };
    serve(&client, alloc, world, reader, writer)
}
