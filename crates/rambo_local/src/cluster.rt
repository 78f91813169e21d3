//! The nodes of a world, which a client asks.
ghost use Rattle.std.specs.Prelude.{[]};
ghost use Rattle.rambo_client.specs.Courses.{Course, Ends, history_of, lettered};
ghost use Rattle.rambo_local.specs.Clusters.{took_by};

use rambo_client::Cluster;
use rambo_history::{Answer, CallId, Op};
use rambo_names::{Name, Refusal, Weighted};
use rambo_tag::Registers;
use rambo_world::{Effect, Step, World};
use std::hash::{BuildHasherDefault, FoldHasher};

/// A world over weighted majorities that holds its copies in hash tables.
pub type Host = World<Weighted, Registers<BuildHasherDefault<FoldHasher>>>;

/// Says that the nodes asked are those of a run, which hear of each other by letters.
pub(crate) struct ByLetters;

impl Cluster<ByLetters> for Host {
    ghost took = { took_by };

    fn ask(&mut self, name: Name, op: Op) -> Result<CallId, Refusal> {
        if let Effect::Called(id) = self.step(Step::Call(name, op))? {
            return Ok(id);
        }
        Err(Refusal::NotActive)
    }

    fn exchange(&mut self, name: Name, peer: Name) -> Result<(), Refusal> {
        send(self, name, peer)?;
        send(self, peer, name)
    }

    fn go_on(&mut self, id: &CallId) -> Result<Option<Answer>, Refusal> {
        match self.step(Step::Advance(*id))? {
            Effect::Answered(_, answer) => Ok(Some(answer)),
            _ => Ok(None),
        }
    }
}

// A letter goes from one node to another, and comes there.
fn send(world: &mut Host, from: Name, to: Name) -> Result<(), Refusal>
    ensures { (c : Course) → took_by world.old c → Ends result (took_by world.new) (lettered c from to) (history_of c) (λ done. []) }
{
    if let Effect::Sent(letter) = world.step(Step::Send(from, to))? {
        world.step(Step::Deliver(letter))?;
        return Ok(());
    }
    Err(Refusal::NotActive)
}
