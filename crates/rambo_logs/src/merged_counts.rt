//! What nodes have merged of each other's logs.
ghost use Rattle.std.specs.Prelude.{◌≡◌, ◌+◌, ◌-◌, ◌*◌, ◌<◌, replicate, IfOk, IfErr};
ghost use Rattle.rambo_names.specs.Names.{IsName};
ghost use Rattle.rambo_logs.specs.Merged.{merged_at, merged_raised};

use rambo_names::{Name, Refusal};
use std::alloc::Global;
use std::marker::Model;

/// For each pair of nodes, how many copies of the second one's log the first has merged, counted from its start.
#[derive(Drop)]
pub struct MergedCounts {
    counts: Vec<usize>,
}

impl Model for MergedCounts {
    ghost use Rattle.std.specs.Prelude.{◌≡◌, List, ℕ, length};

    ghost Value = { List ℕ };

    ghost view = { λ m. m.counts.items };

    ghost invariant = { λ m. length m.counts.items ≡ 4096 };
}

impl MergedCounts {
    /// No node has merged anything.
    ///
    /// `OutOfMemory` where there is no room for the counts.
    pub fn new(alloc: Global) -> Result<Self, Refusal>
        ensures none { IfOk result (λ m. m ≡ replicate 4096 0) }
        ensures refused { IfErr result (λ r. r ≡ Refusal.OutOfMemory) }
    {
        Ok(MergedCounts {
            counts: vec![in alloc; 0usize; 64 * 64]?,
        })
    }

    /// How much of the log of `from` the node `to` has merged.
    pub fn of(&self, to: Name, from: Name) -> usize
        ensures count { result ≡ merged_at self.now to from }
        ensures to { IsName to }
        ensures from { IsName from }
    {
        self.counts[place_of(to, from)]
    }

    /// Notes that the node `to` has merged this many copies of the log of `from`. A count below the one noted before
    /// changes nothing.
    pub fn raise(&mut self, to: Name, from: Name, count: usize)
        ensures { self.new ≡ merged_raised self.old to from count }
    {
        let place = place_of(to, from);
        self.counts[place] = self.counts[place].max(count);
    }
}

// Where the count of two names is.
fn place_of(to: Name, from: Name) -> usize
    ensures place { result ≡ (to - 1) * 64 + (from - 1) }
    ensures within { result < 4096 }
    ensures to { IsName to }
    ensures from { IsName from }
{
    (to.number() as usize - 1) * 64 + (from.number() as usize - 1)
}
