//! What the first halves of a node use again.
ghost use Rattle.std.specs.Prelude.{◌≡◌, IfOk, IfErr};
ghost use Rattle.rambo_node.specs.Halves.{IsEmpty};

use crate::carried::Carried;
use crate::deed::Deed;
use crate::half::Going;
use crate::prepared::{Found, Moving};
use rambo_gossip::Standing;
use rambo_history::CallId;
use rambo_names::{Quorums, Refusal};
use std::alloc::Global;
use std::sync::Arc;

/// What the first halves of a node use again: what the last letter reported of configurations, and a box for calls. It also counts
/// the copies that letters carried lately.
pub struct Workspace<Q: Quorums> {
    pub(crate) told: Option<Arc<Standing<Q>, Global>>,
    pub(crate) carried: Carried,
    spare: Option<Box<Going<Q>>>,
}

// By hand, so that those who drop it needn't follow all that is in it.
impl<Q: Quorums> Drop for Workspace<Q> {
    fn drop(self) {
        let Workspace {
            told: _told,
            carried: _,
            spare: _spare,
        } = self;
    }
}

impl<Q: Quorums> Workspace<Q> {
    /// Nothing was used yet. It allocates nothing.
    pub fn new() -> Workspace<Q> {
        Workspace {
            told: None,
            carried: Carried::new(),
            spare: None,
        }
    }

    /// Keeps the box of a call that has begun or gone on, for the next one.
    pub fn keep(&mut self, going: Box<Going<Q>>) {
        self.spare = Some(going);
    }

    /// Whether letters carried so many copies since the phase number last rose that a step by which that rises would have cost
    /// less.
    pub fn carries_much(&self) -> bool {
        self.carried.are_many()
    }

    // A box for a call of this id: nothing is told of it yet, and it takes nothing along.
    //
    // `OutOfMemory` where there is no room for one.
    pub(crate) fn going(&mut self, alloc: Global, id: CallId) -> Result<Box<Going<Q>>, Refusal>
        ensures empty { IfOk result (λ g. IsEmpty id g.value) }
        ensures refused { IfErr result (λ r. r ≡ Refusal.OutOfMemory) }
    {
        match self.spare.take() {
            Some(going) => {
                let mut going = going;
                clear(&mut going, id);
                Ok(going)
            }
            None => Ok(Box::new(alloc, empty(id))?),
        }
    }
}

// A call of this id, of which nothing is told.
fn empty<Q: Quorums>(id: CallId) -> Going<Q>
    ensures { IsEmpty id result }
{
    Going {
        deed: Deed::default(),
        moving: Moving {
            id,
            found: Found {
                place: 0,
                sequence: 0,
            },
            kept: None,
            put: None,
        },
        asked: None,
    }
}

// What was there before is forgotten.
fn clear<Q: Quorums>(going: &mut Going<Q>, id: CallId)
    ensures { IsEmpty id going.new }
{
    going.deed.clear();
    going.moving.id = id;
    going.moving.kept = None;
    going.moving.put = None;
    going.asked = None;
}
