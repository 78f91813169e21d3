//! Letters.
ghost use Rattle.std.specs.Prelude.{◌≡◌, unwrap_or, option_copied, IsOk, IfOk, IfErr, IfSome};
ghost use Rattle.std.specs.FinMap as map;
ghost use Rattle.rambo_gossip.specs.Kinds as kind;
ghost use Rattle.rambo_gossip.specs.Letters.{letter_with};
ghost use Rattle.rambo_gossip.specs.Short.{copies_in};

use crate::gossip::Gossip;
use crate::outline::LetterOutline;
use crate::standing::Standing;
use rambo_names::{Name, Quorums, Refusal};
use rambo_tag::Pack;
use std::alloc::Global;
use std::marker::Model;
use std::sync::Arc;

/// What one node sends to another: what its sender knows, or that it wants to join. It has several owners, and 64 bytes. They
/// share its copies, and letters that report the same of configurations share that.
pub struct Letter<Q: Quorums> {
    sender: Name,
    addressee: Name,
    // None where the sender wants to join.
    gossip: Option<Gossip<Q>>,
}

// By hand, so that those who drop it needn't follow all that is in it.
impl<Q: Quorums> Drop for Letter<Q> {
    fn drop(self) {
        let Letter {
            sender: _sender,
            addressee: _addressee,
            gossip: _gossip,
        } = self;
    }
}

impl<Q: Quorums> Model for Letter<Q> {
    ghost use Rattle.std.specs.Coded.{codes};
    ghost use Rattle.rambo_names.specs.Names.{names_code};
    ghost use Rattle.rambo_tag.specs.Copies.{copies_code};
    ghost use Rattle.rambo_gossip.specs.Letters.{LetterState, kind_of};

    ghost Value = { LetterState Q };

    ghost coded = { Prim.hlevel (codes, names_code, copies_code, Q.code) };

    ghost view = { λ l. record { sender = l.sender; addressee = l.addressee; kind = kind_of l.gossip } };
}

impl<Q: Quorums> Letter<Q> {
    /// The letter of this outline with these copies, which has one owner. What it reports of configurations it shares
    /// with the last report, if that is the same. Else it becomes the last report.
    ///
    /// `OutOfMemory` where there is no room for it.
    pub fn new(
        alloc: Global,
        outline: &LetterOutline<'_, Q>,
        copies: Pack,
        told: &mut Option<Arc<Standing<Q>, Global>>,
    ) -> Result<Letter<Q>, Refusal>
        ensures same { IfOk result (λ l. l ≡ letter_with outline.now copies) }
        ensures refused { IfErr result (λ r. r ≡ Refusal.OutOfMemory) }
    {
        let gossip = match &outline.gossip {
            None => None,
            Some(gossip) => Some(Gossip::new(alloc, gossip, copies, told)?),
        };
        Ok(Letter {
            sender: outline.sender,
            addressee: outline.addressee,
            gossip,
        })
    }

    /// The same letter for one more owner. Nothing of it is copied.
    ///
    /// `OutOfMemory` where a reference count is at its limit. A wish to join has none.
    pub fn clone(&self) -> Result<Letter<Q>, Refusal>
        ensures same { IfOk result (λ l. l ≡ self.now) }
        ensures join { self.now.kind ≡ kind.Join → IsOk result }
        ensures refused { IfErr result (λ r. r ≡ Refusal.OutOfMemory) }
    {
        let gossip = match &self.gossip {
            None => None,
            Some(gossip) => Some(gossip.clone()?),
        };
        Ok(Letter {
            sender: self.sender,
            addressee: self.addressee,
            gossip,
        })
    }

    /// Who sent it.
    pub fn sender(&self) -> Name
        ensures { result ≡ self.now.sender }
    {
        self.sender
    }

    /// Whom it goes to.
    pub fn addressee(&self) -> Name
        ensures { result ≡ self.now.addressee }
    {
        self.addressee
    }

    /// The letter without its copies.
    pub fn outline(&self) -> LetterOutline<'_, Q>
        ensures { result ≡ letter_with self.now map.empty }
    {
        let gossip = match &self.gossip {
            None => None,
            Some(gossip) => Some(gossip.outline()),
        };
        LetterOutline {
            sender: self.sender,
            addressee: self.addressee,
            gossip,
        }
    }

    /// Its copies, if it has any.
    pub fn copies(&self) -> Option<&Pack>
        ensures copies { unwrap_or (option_copied result) map.empty ≡ copies_in self.now.kind }
        ensures join { self.now.kind ≡ kind.Join → IfSome result (λ _. ⊥) }
    {
        match &self.gossip {
            None => None,
            Some(gossip) => gossip.copies(),
        }
    }

    /// Drops its copies, which its other owners keep.
    pub fn leave_out_copies(&mut self)
        ensures { self.new ≡ letter_with self.old map.empty }
    {
        if let Some(gossip) = &mut self.gossip {
            gossip.leave_out_copies();
        }
    }
}
