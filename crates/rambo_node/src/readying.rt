//! A change of a node by itself, in two halves: the first may fail, and the second changes the node.
ghost use Rattle.std.specs.Prelude.{◌≡◌, None, Some, false, IsOk, OnOk, IfOk, IfErr, IfSome};
ghost use Rattle.std.specs.Option.{option_copied};
ghost use Rattle.rambo_gossip.specs.Kinds as kind;
ghost use Rattle.rambo_names.specs.Refusals.{IsRefusal};
ghost use Rattle.rambo_node.specs.Acts.{Act, Meant, change_of};
ghost use Rattle.rambo_node.specs.Changes.{refusal_of, made_by};
ghost use Rattle.rambo_node.specs.FullNodes.{beside_after};
ghost use Rattle.rambo_node.specs.Halves.{IsPrepared, judged};
ghost use Rattle.rambo_node.specs.Memory.{needs_memory};

use crate::effect::Effect;
use crate::half::Prepared;
use crate::node::Node;
use crate::step::Change;
use crate::workspace::Workspace;
use rambo_gossip::Letter;
use rambo_names::{Quorums, Refusal};
use rambo_tag::Replica;

impl<Q: Quorums, S: Replica> Node<Q, S> {
    /// The first half of a change: it is judged, room is made for all that is new, and what it will do is found. In
    /// either case the node itself is unchanged.
    ///
    /// Refused with the least number of the causes that hold:
    ///
    /// - `Join`: 2 where the node isn't idle, 18 where there is no contact.
    /// - `Call`: 3 where it is idle or joining, 4 where it has stopped. Else 9 where it has 64 open calls, 19 where the
    ///   key has over 256 bytes, 20 where the value has over 4,096 bytes. Else 21 where its phase number or its last
    ///   call number is the greatest one.
    /// - `Send`: 3 where it is idle, 4 where it has stopped. Else 5 where the name is its own or one that it doesn't
    ///   know.
    /// - `Deliver`: 3 where it is idle, 4 where it has stopped. Else 21 where a phase would restart and the phase
    ///   number is the greatest one.
    /// - `Advance`: 3 where it is idle or joining, 4 where it has stopped. Else 7 where there is no such open call, 8
    ///   where its phase isn't met. Else 21 where it is in its query and the phase number, or for a set the sequence
    ///   number of the key's tag, is the greatest one.
    /// - `Again`: 3 where it is idle or joining, 4 where it has stopped. Else 7 where there is no such open call, 21
    ///   where the phase number is the greatest one.
    /// - `Collect`: 3 where it is idle or joining, 4 where it has stopped. Else 10 where only one place is active, 11
    ///   where a collection is open, 21 where the phase number is the greatest one.
    /// - `AdvanceCollect`: 3 where it is idle or joining, 4 where it has stopped. Else 8 where a collection is open
    ///   whose place isn't removed and whose quorum hasn't replied, 12 where no collection is open. Else 21 where its
    ///   first quorum has replied, its place isn't removed and the phase number is the greatest one.
    /// - `Recon`: 3 where it is idle or joining, 4 where it has stopped. Else 13 where it is no member of the
    ///   configuration at its top, 14 where an attempt is open, 16 where eight places are active. Else 17 where the
    ///   wish has a member that it doesn't know, 18 where the wish has no member. Else 21 where the round that its vote
    ///   promised, or the top, is the greatest one.
    /// - `Rebid`: 3 where it is idle or joining, 4 where it has stopped. Else 15 where no attempt is open for the first
    ///   unknown place, 21 where the round that its vote promised is the greatest one.
    /// - `AdvanceRecon`: 3 where it is idle or joining, 4 where it has stopped. Else 8 where an attempt is open whose
    ///   place is unknown and whose quorum hasn't replied, 15 where no attempt is open.
    /// - `Stop`: 3 where it is idle, 4 where it has stopped.
    ///
    /// Else 22, where there is no room for what is new, which only a call, its advance and letters may need; the wish to join that
    /// comes needs none. Whom the change names isn't looked at.
    pub fn ready(&mut self, change: &Change<Q>) -> Result<Prepared<Q>, Refusal>
        ensures judged { OnOk result (judged Q.system self.old.state (change_of change.now) ≡ None) }
        ensures same { self.new.state ≡ self.old.state }
        ensures beside { self.new.beside ≡ self.old.beside }
        ensures prepared { IfOk result (λ p. (m : Meant _) → change_of change.now ≡ Some m → IsPrepared Q.system self.new m.act p) }
        ensures refused { IfErr result (IsRefusal (judged Q.system self.old.state (change_of change.now))) }
        ensures no_memory { (m : Meant _) → change_of change.now ≡ Some m → needs_memory m.act ≡ false → IfErr result (λ r. refusal_of Q.system self.old.state m.act ≡ Some r) }
    {
        let mut workspace = Workspace::new();
        let came = change.letter();
        let half = self.begin(self.alloc(), &mut workspace, change, came)?;
        let letter = share(came)?;
        Ok(Prepared { half, letter })
    }

    /// The second half of a change that is ready: the node changes. Returns what is reported.
    ///
    /// It allocates nothing and can't fail.
    pub fn finish(&mut self, prepared: Prepared<Q>) -> Effect<Q>
        requires { (a : Act _) × IsPrepared Q.system self.old a prepared }
        ensures node { (a : Act _) → IsPrepared Q.system self.old a prepared → self.new.state ≡ (made_by self.old.state a).node }
        ensures beside { (a : Act _) → IsPrepared Q.system self.old a prepared → self.new.beside ≡ beside_after self.old.state self.old.beside a }
        ensures effect { (a : Act _) → IsPrepared Q.system self.old a prepared → result ≡ (made_by self.old.state a).deed.effect }
    {
        let Prepared { half, letter } = prepared;
        self.end(half, letter.as_ref()).effect
    }
}

// A letter for one more owner, if there is one.
fn share<Q: Quorums>(letter: Option<&Letter<Q>>) -> Result<Option<Letter<Q>>, Refusal>
    ensures same { IfOk result (λ l. l ≡ option_copied letter.entry) }
    ensures refused { IfErr result (λ r. r ≡ Refusal.OutOfMemory) }
    ensures join { IfSome (option_copied letter.entry) (λ l. l.kind ≡ kind.Join) → IsOk result }
{
    match letter {
        Some(letter) => Ok(Some(letter.clone()?)),
        None => Ok(None),
    }
}
