//! What an active node knows, in a letter.
ghost use Rattle.std.specs.Prelude.{◌≡◌, unwrap_or, option_copied, IfOk, IfErr};
ghost use Rattle.std.specs.Arc.{arc_value};
ghost use Rattle.std.specs.FinMap as map;
ghost use Rattle.rambo_gossip.specs.Letters.{gossip_with};
ghost use Rattle.rambo_gossip.specs.Outlines.{gossip_outlined, standing_of};

use crate::outline::GossipOutline;
use crate::standing::Standing;
use rambo_names::{Members, Quorums, Refusal};
use rambo_tag::Pack;
use std::alloc::Global;
use std::marker::Model;
use std::sync::Arc;

/// What an active node knows (Lynch and Shvartsman, "RAMBO", DISC 2002), in a letter that several own.
pub(crate) struct Gossip<Q: Quorums> {
    known: Members,
    number: u64,
    heard: u64,
    standing: Arc<Standing<Q>, Global>,
    // None once they were left out.
    copies: Option<Arc<Pack, Global>>,
}

// By hand, so that those who drop it needn't follow all that is in it.
impl<Q: Quorums> Drop for Gossip<Q> {
    fn drop(self) {
        let Gossip {
            known: _known,
            number: _,
            heard: _,
            standing: _standing,
            copies: _copies,
        } = self;
    }
}

impl<Q: Quorums> Model for Gossip<Q> {
    ghost use Rattle.std.specs.Prelude.{option_map, unwrap_or};
    ghost use Rattle.std.specs.Arc.{arc_value};
    ghost use Rattle.std.specs.FinMap as map;
    ghost use Rattle.std.specs.Coded.{codes};
    ghost use Rattle.rambo_names.specs.Names.{names_code};
    ghost use Rattle.rambo_tag.specs.Copies.{copies_code};
    ghost use Rattle.rambo_gossip.specs.Gossips.{GossipState};

    ghost Value = { GossipState Q };

    ghost coded = { Prim.hlevel (codes, names_code, copies_code, Q.code) };

    ghost view = { λ g. record { known = g.known; copies = unwrap_or (option_map arc_value g.copies) map.empty; map = (arc_value g.standing).map; number = g.number; heard = g.heard; vote = (arc_value g.standing).vote; offer = (arc_value g.standing).offer } };
}

impl<Q: Quorums> Gossip<Q> {
    // The gossip of this outline with these copies, which has one owner. What it reports of configurations it shares
    // with the last report, if that is the same. Else it becomes the last report.
    //
    // `OutOfMemory` where there is no room for it.
    pub(crate) fn new(
        alloc: Global,
        gossip: &GossipOutline<'_, Q>,
        copies: Pack,
        told: &mut Option<Arc<Standing<Q>, Global>>,
    ) -> Result<Gossip<Q>, Refusal>
        ensures same { IfOk result (λ g. g ≡ gossip_with (gossip_outlined gossip.now) copies) }
        ensures refused { IfErr result (λ r. r ≡ Refusal.OutOfMemory) }
    {
        Ok(Gossip {
            known: gossip.known,
            number: gossip.number,
            heard: gossip.heard,
            standing: shared(alloc, told, gossip)?,
            copies: Some(Arc::new(alloc, copies)?),
        })
    }

    // The same for one more owner.
    //
    // `OutOfMemory` where the reference count is at its limit.
    pub(crate) fn clone(&self) -> Result<Gossip<Q>, Refusal>
        ensures same { IfOk result (λ g. g ≡ self.now) }
        ensures refused { IfErr result (λ r. r ≡ Refusal.OutOfMemory) }
    {
        let copies = match &self.copies {
            None => None,
            Some(copies) => Some(Arc::try_clone(copies)?),
        };
        Ok(Gossip {
            known: self.known,
            number: self.number,
            heard: self.heard,
            standing: Arc::try_clone(&self.standing)?,
            copies,
        })
    }

    // All of it but its copies.
    pub(crate) fn outline(&self) -> GossipOutline<'_, Q>
        ensures { gossip_outlined result ≡ gossip_with self.now map.empty }
    {
        GossipOutline {
            known: self.known,
            map: &self.standing.map,
            number: self.number,
            heard: self.heard,
            vote: &self.standing.vote,
            offer: self.standing.offer,
        }
    }

    // Its copies, if it has any.
    pub(crate) fn copies(&self) -> Option<&Pack>
        ensures { unwrap_or (option_copied result) map.empty ≡ self.now.copies }
    {
        match &self.copies {
            None => None,
            Some(copies) => Some(copies),
        }
    }

    // It has no copies any more.
    pub(crate) fn leave_out_copies(&mut self)
        ensures { self.new ≡ gossip_with self.old map.empty }
    {
        self.copies = None;
    }
}

// What gossip reports of configurations: the last report, if that is the same.
fn shared<Q: Quorums>(
    alloc: Global,
    told: &mut Option<Arc<Standing<Q>, Global>>,
    gossip: &GossipOutline<'_, Q>,
) -> Result<Arc<Standing<Q>, Global>, Refusal>
    ensures same { IfOk result (λ t. arc_value t ≡ standing_of gossip.now) }
    ensures refused { IfErr result (λ r. r ≡ Refusal.OutOfMemory) }
{
    if let Some(standing) = told {
        if standing.is_told_by(gossip) {
            return Ok(Arc::try_clone(standing)?);
        }
    }
    let standing = Arc::new(alloc, Standing::of(gossip))?;
    *told = Some(Arc::try_clone(&standing)?);
    Ok(standing)
}
