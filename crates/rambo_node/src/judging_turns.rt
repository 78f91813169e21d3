//! Why a node refuses to collect its lowest place, or to have a configuration chosen.
ghost use Rattle.std.specs.Prelude.{◌≡◌, ◌&&◌, not, is_none, nat_le, length, OnOk, IfErr, None, Some};
ghost use Rattle.rambo_names.specs.Refusals.{least};
ghost use Rattle.rambo_config_map.specs.Maps.{end_of};
ghost use Rattle.rambo_node.specs.Refusals.{collect_causes, advance_collect_causes, recon_causes, rebid_causes, advance_recon_causes, collection_turn, needs_number, is_last};
ghost use Rattle.rambo_bids.specs.Wishes.{wish_causes, is_for, attempt_waits};

use crate::judging::is_last;
use crate::node::Node;
use rambo_bids::{is_bidding, is_waiting, may_wish};
use rambo_config_map::ConfigMap;
use rambo_gc::{Collection, GcMove};
use rambo_names::{Quorums, Refusal};
use rambo_tag::Replica;

impl<Q: Quorums, S: Replica> Node<Q, S> {
    // What the advance of its collection would do, if one is open and it wouldn't be refused.
    pub(crate) fn collection_turn(&self) -> Option<GcMove>
        ensures { result ≡ collection_turn Q.system self.now.state self.now.state.collection }
    {
        match &self.collection {
            Some(collection) => collection.would_advance(&self.map),
            None => None,
        }
    }

    // Whether the node may begin to collect its lowest place.
    pub(crate) fn may_collect(&self) -> Result<(), Refusal>
        ensures ok { OnOk result (least (collect_causes self.now.state) ≡ None) }
        ensures refused { IfErr result (λ r. least (collect_causes self.now.state) ≡ Some r) }
    {
        if self.status.is_early() {
            return Err(Refusal::NotActive);
        }
        if self.status.is_stopped() {
            return Err(Refusal::Stopped);
        }
        if is_single(&self.map) {
            return Err(Refusal::NothingToCollect);
        }
        if self.collection.is_some() {
            return Err(Refusal::CollectOpen);
        }
        if is_last(self.number) {
            return Err(Refusal::NumbersSpent);
        }
        Ok(())
    }

    // Whether a collection is open whose quorum hasn't replied.
    fn is_collection_waiting(&self) -> bool
        ensures { result ≡ (not (is_none self.now.state.collection) && is_none (collection_turn Q.system self.now.state self.now.state.collection)) }
    {
        is_open_without(&self.collection, self.collection_turn())
    }

    // Whether its collection can't advance, since no number is left.
    fn is_turn_out_of_numbers(&self) -> bool
        ensures { result ≡ (needs_number (collection_turn Q.system self.now.state self.now.state.collection) && is_last self.now.state.number) }
    {
        needs_number(self.collection_turn()) && is_last(self.number)
    }

    // Whether its collection may go on.
    pub(crate) fn may_advance_collect(&self) -> Result<(), Refusal>
        ensures ok { OnOk result (least (advance_collect_causes Q.system self.now.state) ≡ None) }
        ensures refused { IfErr result (λ r. least (advance_collect_causes Q.system self.now.state) ≡ Some r) }
    {
        if self.status.is_early() {
            return Err(Refusal::NotActive);
        }
        if self.status.is_stopped() {
            return Err(Refusal::Stopped);
        }
        if self.is_collection_waiting() {
            return Err(Refusal::NotYet);
        }
        if self.collection.is_none() {
            return Err(Refusal::NoCollect);
        }
        if self.is_turn_out_of_numbers() {
            return Err(Refusal::NumbersSpent);
        }
        Ok(())
    }

    // Whether the node may begin to have a configuration chosen.
    pub(crate) fn may_recon(&self, wish: &Q) -> Result<(), Refusal>
        ensures ok { OnOk result (least (recon_causes Q.system self.now.state wish.now) ≡ None) }
        ensures refused { IfErr result (λ r. least (recon_causes Q.system self.now.state wish.now) ≡ Some r) }
    {
        if self.status.is_early() {
            return Err(Refusal::NotActive);
        }
        if self.status.is_stopped() {
            return Err(Refusal::Stopped);
        }
        self.may_wish(wish)
    }

    // Whether nothing speaks against a wish but the node's status.
    fn may_wish(&self, wish: &Q) -> Result<(), Refusal>
        ensures ok { OnOk result (least (wish_causes Q.system self.now.state.name self.now.state.known self.now.state.map self.now.state.vote self.now.state.attempt wish.now) ≡ None) }
        ensures refused { IfErr result (λ r. least (wish_causes Q.system self.now.state.name self.now.state.known self.now.state.map self.now.state.vote self.now.state.attempt wish.now) ≡ Some r) }
    {
        may_wish(
            self.name,
            self.known,
            &self.map,
            &self.vote,
            &self.attempt,
            wish,
        )
    }

    // Whether an attempt is open for the first unknown place.
    fn is_bidding(&self) -> bool
        ensures { result ≡ is_for (end_of self.now.state.map) self.now.state.attempt }
    {
        is_bidding(&self.attempt, &self.map)
    }

    // Whether its attempt may begin again.
    pub(crate) fn may_rebid(&self) -> Result<(), Refusal>
        ensures ok { OnOk result (least (rebid_causes self.now.state) ≡ None) }
        ensures refused { IfErr result (λ r. least (rebid_causes self.now.state) ≡ Some r) }
    {
        if self.status.is_early() {
            return Err(Refusal::NotActive);
        }
        if self.status.is_stopped() {
            return Err(Refusal::Stopped);
        }
        if !self.is_bidding() {
            return Err(Refusal::NoRecon);
        }
        if is_last(self.vote.round()) {
            return Err(Refusal::NumbersSpent);
        }
        Ok(())
    }

    // Whether an attempt is open whose place isn't known yet and whose quorum hasn't replied.
    fn is_waiting(&self) -> bool
        ensures { result ≡ attempt_waits Q.system self.now.state.map self.now.state.attempt }
    {
        is_waiting(&self.attempt, &self.vote, &self.map)
    }

    // Whether its attempt may go on.
    pub(crate) fn may_advance_recon(&self) -> Result<(), Refusal>
        ensures ok { OnOk result (least (advance_recon_causes Q.system self.now.state) ≡ None) }
        ensures refused { IfErr result (λ r. least (advance_recon_causes Q.system self.now.state) ≡ Some r) }
    {
        if self.status.is_early() {
            return Err(Refusal::NotActive);
        }
        if self.status.is_stopped() {
            return Err(Refusal::Stopped);
        }
        if self.is_waiting() {
            return Err(Refusal::NotYet);
        }
        if self.attempt.is_none() {
            return Err(Refusal::NoRecon);
        }
        Ok(())
    }
}

// Whether a collection is open that has no turn.
fn is_open_without(collection: &Option<Collection>, turn: Option<GcMove>) -> bool
    ensures { result ≡ (not (is_none collection.now) && is_none turn) }
{
    collection.is_some() && turn.is_none()
}

// Whether a collection that goes on so takes a new number.
fn needs_number(turn: Option<GcMove>) -> bool
    ensures { result ≡ needs_number turn }
{
    turn == Some(GcMove::Propagating)
}

// Whether a map has only one active place.
fn is_single<Q: Quorums>(map: &ConfigMap<Q>) -> bool
    ensures { result ≡ nat_le (length map.now.configs) 1 }
{
    map.places().len() <= 1
}
