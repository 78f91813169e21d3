//! The nodes that a client asks.
ghost use Rattle.std.specs.Prelude.{[]};
ghost use Rattle.rambo_client.specs.Courses.{Course, Ends, history_of, lettered};
ghost use Rattle.rambo_direct.specs.Taken.{took_by};

use rambo_client::Cluster;
use rambo_history::{Answer, CallId, Op};
use rambo_names::{Name, Refusal, Weighted};
use rambo_tag::Registers;
use rambo_world::Direct;
use std::hash::{BuildHasherDefault, FoldHasher};

/// Nodes over weighted majorities that hold their copies in hash tables. Their letters come as they are sent, and only they are kept.
pub(crate) type WeightedDirect = Direct<Weighted, Registers<BuildHasherDefault<FoldHasher>>>;

/// The same, as a client asks them. (A type of this crate alone, so that crates above it needn't know the type of the
/// nodes.)
#[derive(Drop)]
pub(crate) struct Nodes {
    pub(crate) direct: WeightedDirect,
}

/// Says that the nodes asked are those of a run, which hear of each other by letters.
pub(crate) struct ByLetters;

impl Cluster<ByLetters> for Nodes {
    ghost took = { λ n. took_by n.direct };

    fn ask(&mut self, name: Name, op: Op) -> Result<CallId, Refusal> {
        self.direct.call(name, op)?
    }

    fn exchange(&mut self, name: Name, peer: Name) -> Result<(), Refusal> {
        pass(&mut self.direct, name, peer)?;
        pass(&mut self.direct, peer, name)
    }

    fn go_on(&mut self, id: &CallId) -> Result<Option<Answer>, Refusal> {
        self.direct.advance(*id)?
    }
}

// A letter passes from one node to another.
fn pass(direct: &mut WeightedDirect, from: Name, to: Name) -> Result<(), Refusal>
    ensures { (c : Course) → took_by direct.old c → Ends result (took_by direct.new) (lettered c from to) (history_of c) (λ done. []) }
{
    direct.pass(from, to)?
}
