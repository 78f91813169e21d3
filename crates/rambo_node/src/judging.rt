//! Why a node refuses a change.
ghost use Rattle.std.specs.Prelude.{◌≡◌, ◌&&◌, ◌||◌, not, nat_eq, nat_le, nat_lt, length, OnOk, IfOk, IfErr, None, Some};
ghost use Rattle.std.specs.FinSet as set;
ghost use Rattle.rambo_names.specs.Names.{count_of};
ghost use Rattle.rambo_history.specs.Calls.{key_of};
ghost use Rattle.rambo_names.specs.Refusals.{least};
ghost use Rattle.rambo_tag.specs.Tags.{tag_of};
ghost use Rattle.rambo_gossip.specs.Outlines.{outlined};
ghost use Rattle.rambo_node.specs.Refusals.{join_causes, call_causes, send_causes, advance_causes, again_causes, stop_causes, value_is_long, restarts, query_spent, is_last};
ghost use Rattle.std.specs.Option.{option_copied};
ghost use Rattle.rambo_calls.specs.Calls.{is_missing, is_unmet};
ghost use Rattle.rambo_calls.specs.Kept.{call_found};
ghost use Rattle.rambo_node.specs.Changes.{refusal_of};
ghost use Rattle.rambo_node.specs.Prepared.{IsFound, sequence_before};
ghost use Rattle.rambo_node.specs.Acts as act;

use crate::node::{Node, query_of};
use crate::prepared::{Found, Quiet};
use rambo_calls::OpenCall;
use rambo_gossip::{GossipOutline, LetterOutline};
use rambo_history::{CallId, Op};
use rambo_names::{Members, Name, Quorums, Refusal};
use rambo_tag::{Replica, Version};

// The greatest number of bytes of a key.
const KEY_LIMIT: usize = 256;

// The greatest number of bytes of a value.
const VALUE_LIMIT: usize = 4096;

// The greatest number of open calls of a node.
const CALL_LIMIT: usize = 64;

impl<Q: Quorums, S: Replica> Node<Q, S> {
    /// Why a change that allocates nothing is refused, if it is: what `ready` says of it.
    pub fn may_quiet(&self, quiet: &Quiet<Q>) -> Result<(), Refusal>
        ensures ok { OnOk result (refusal_of Q.system self.now.state (act.Quietly quiet.now) ≡ None) }
        ensures refused { IfErr result (λ r. refusal_of Q.system self.now.state (act.Quietly quiet.now) ≡ Some r) }
    {
        match quiet {
            Quiet::Join(contacts) => self.may_join(*contacts),
            Quiet::Again(id) => self.may_restart(id),
            Quiet::Collect => self.may_collect(),
            Quiet::AdvanceCollect => self.may_advance_collect(),
            Quiet::Recon(wish) => self.may_recon(wish),
            Quiet::Rebid => self.may_rebid(),
            Quiet::AdvanceRecon => self.may_advance_recon(),
            Quiet::Stop => self.may_stop(),
        }
    }

    /// Why a letter is refused, if it is: what `ready` says, of its outline, since its copies don't matter.
    pub fn may_hear(&self, outline: &LetterOutline<'_, Q>) -> Result<(), Refusal>
        ensures ok { OnOk result (refusal_of Q.system self.now.state (act.Hear outline.now) ≡ None) }
        ensures refused { IfErr result (λ r. refusal_of Q.system self.now.state (act.Hear outline.now) ≡ Some r) }
    {
        if self.status.is_idle() {
            return Err(Refusal::NotActive);
        }
        if self.status.is_stopped() {
            return Err(Refusal::Stopped);
        }
        if self.is_out_of_numbers(&outline.gossip) {
            return Err(Refusal::NumbersSpent);
        }
        Ok(())
    }
}

impl<Q: Quorums, S: Replica> Node<Q, S> {
    // Whether gossip, where a letter is some, would restart a phase, and there is no number for it.
    fn is_out_of_numbers(&self, gossip: &Option<GossipOutline<'_, Q>>) -> bool
        ensures { result ≡ (restarts self.now.state (outlined gossip.now) && is_last self.now.state.number) }
    {
        match gossip {
            None => false,
            Some(gossip) => is_last(self.number) && self.calls.any_gap(gossip.heard, gossip.map),
        }
    }

    // Whether the node may join with these contacts.
    pub(crate) fn may_join(&self, contacts: Members) -> Result<(), Refusal>
        ensures ok { OnOk result (least (join_causes self.now.state contacts) ≡ None) }
        ensures refused { IfErr result (λ r. least (join_causes self.now.state contacts) ≡ Some r) }
    {
        if !self.status.is_idle() {
            return Err(Refusal::NameUsed);
        }
        if is_nobody(contacts) {
            return Err(Refusal::EmptyMembers);
        }
        Ok(())
    }

    // Whether it has as many open calls as it may have.
    fn is_full(&self) -> bool
        ensures { result ≡ nat_le 64 (length self.now.state.calls) }
    {
        self.calls.as_slice().len() >= CALL_LIMIT
    }

    /// Why a client may not ask this of the node, if it may not: what `ready` says of a call.
    pub fn may_call(&self, op: &Op) -> Result<(), Refusal>
        ensures ok { OnOk result (least (call_causes self.now.state op.now) ≡ None) }
        ensures refused { IfErr result (λ r. least (call_causes self.now.state op.now) ≡ Some r) }
    {
        if self.status.is_early() {
            return Err(Refusal::NotActive);
        }
        if self.status.is_stopped() {
            return Err(Refusal::Stopped);
        }
        if self.is_full() {
            return Err(Refusal::Busy);
        }
        if key_is_long(op) {
            return Err(Refusal::KeyTooLong);
        }
        if value_is_long(op) {
            return Err(Refusal::ValueTooLong);
        }
        if is_last(self.number) {
            return Err(Refusal::NumbersSpent);
        }
        if is_last(self.made) {
            return Err(Refusal::NumbersSpent);
        }
        Ok(())
    }

    /// Why the node may not send a letter to a name, if it may not: 3 where it is idle, 4 where it has stopped, 5 where
    /// the name is its own or one that it doesn't know.
    // (asked for each letter that is sent)
    #[inline(always)]
    pub fn may_send(&self, to: Name) -> Result<(), Refusal>
        ensures ok { OnOk result (least (send_causes self.now.state to) ≡ None) }
        ensures refused { IfErr result (λ r. least (send_causes self.now.state to) ≡ Some r) }
    {
        if self.status.is_idle() {
            return Err(Refusal::NotActive);
        }
        if self.status.is_stopped() {
            return Err(Refusal::Stopped);
        }
        if is_out_of_reach(self.name, self.known, to) {
            return Err(Refusal::NotKnown);
        }
        Ok(())
    }

    // The sequence number of the key's tag that a set in its query goes on from, and 0 of any other call.
    fn sequence_before(&self, asked: Option<&Op>) -> u64
        ensures { result ≡ sequence_before self.now.state (option_copied asked.entry) }
    {
        match asked {
            Some(Op::Set(key, _)) => sequence_of(self.registers.copy(key.as_slice())),
            _ => 0,
        }
    }

    // Whether an answered query that asked for this, if it is one, can't go on, where it goes on from this sequence number.
    fn query_is_spent(&self, asked: Option<&Op>, sequence: u64) -> bool
        requires { sequence ≡ sequence_before self.now.state (option_copied asked) }
        ensures { result ≡ query_spent self.now.state (option_copied asked.entry) }
    {
        match asked {
            Some(_) => is_last(self.number) || is_last(sequence),
            None => false,
        }
    }

    /// Where the open call of an id is, if it may advance. Else why it may not: 3 where the node is idle or joining, 4
    /// where it has stopped. Else 7 where there is no such open call, 8 where its phase isn't met. Else 21 where it is
    /// in its query and the phase number, or for a set the sequence number of the key's tag, is the greatest one.
    pub fn may_advance(&self, id: &CallId) -> Result<Found, Refusal>
        ensures ok { IfOk result (IsFound Q.system self.now.state id.now) }
        ensures refused { IfErr result (λ r. least (advance_causes Q.system self.now.state id.now) ≡ Some r) }
    {
        if self.status.is_early() {
            return Err(Refusal::NotActive);
        }
        if self.status.is_stopped() {
            return Err(Refusal::Stopped);
        }
        let place = self.place_of(id);
        let call = self.call_at(place);
        if is_missing(call) {
            return Err(Refusal::NoSuchCall);
        }
        if is_unmet(call) {
            return Err(Refusal::NotYet);
        }
        let asked = query_of(call);
        let sequence = self.sequence_before(asked);
        if self.query_is_spent(asked, sequence) {
            return Err(Refusal::NumbersSpent);
        }
        Ok(Found { place, sequence })
    }

    // Whether the phase of the open call of an id may restart.
    pub(crate) fn may_restart(&self, id: &CallId) -> Result<(), Refusal>
        ensures ok { OnOk result (least (again_causes self.now.state id.now) ≡ None) }
        ensures refused { IfErr result (λ r. least (again_causes self.now.state id.now) ≡ Some r) }
    {
        if self.status.is_early() {
            return Err(Refusal::NotActive);
        }
        if self.status.is_stopped() {
            return Err(Refusal::Stopped);
        }
        if is_missing(self.call_at(self.place_of(id))) {
            return Err(Refusal::NoSuchCall);
        }
        if is_last(self.number) {
            return Err(Refusal::NumbersSpent);
        }
        Ok(())
    }

    // Whether the node may stop.
    pub(crate) fn may_stop(&self) -> Result<(), Refusal>
        ensures ok { OnOk result (least (stop_causes self.now.state) ≡ None) }
        ensures refused { IfErr result (λ r. least (stop_causes self.now.state) ≡ Some r) }
    {
        if self.status.is_idle() {
            return Err(Refusal::NotActive);
        }
        if self.status.is_stopped() {
            return Err(Refusal::Stopped);
        }
        Ok(())
    }
}

// Whether there is no open call.
fn is_missing<Q: Quorums>(call: Option<&OpenCall<Q>>) -> bool
    ensures { result ≡ is_missing (call_found (option_copied call.entry)) }
{
    match call {
        Some(_) => false,
        None => true,
    }
}

// Whether there is an open call whose phase isn't met.
#[inline(always)]
fn is_unmet<Q: Quorums>(call: Option<&OpenCall<Q>>) -> bool
    ensures { result ≡ is_unmet Q.system (call_found (option_copied call.entry)) }
{
    match call {
        Some(call) => !call.phase.met(),
        None => false,
    }
}

// The sequence number of what a key holds: 0 where it is absent.
fn sequence_of(version: Option<&Version>) -> u64
    ensures { result ≡ (tag_of (option_copied version.entry)).sequence }
{
    match version {
        Some(version) => version.tag.sequence,
        None => 0,
    }
}

// Whether a counter can't rise.
pub(crate) fn is_last(number: u64) -> bool
    ensures { result ≡ is_last number }
{
    number == u64::MAX
}

// Whether a set has no name.
fn is_nobody(names: Members) -> bool
    ensures { result ≡ nat_eq (count_of names) 0 }
{
    names.count() == 0
}

// Whether a name is the node's own, or isn't known.
fn is_out_of_reach(me: Name, known: Members, to: Name) -> bool
    ensures { result ≡ (nat_eq to me || not (set.contains known to)) }
{
    to == me || !known.has(to)
}

fn key_is_long(op: &Op) -> bool
    ensures { result ≡ nat_lt 256 (length (key_of op.now)) }
{
    op.key().len() > KEY_LIMIT
}

fn value_is_long(op: &Op) -> bool
    ensures { result ≡ value_is_long op.now }
{
    match op {
        Op::Get(_) => false,
        Op::Set(_, value) => value.len() > VALUE_LIMIT,
    }
}
