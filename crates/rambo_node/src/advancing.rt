//! How open calls begin and advance, and how a phase restarts. Each has two halves: the first makes room and finds what
//! is new, and the second (in `finishing`) changes the node.
ghost use Rattle.std.specs.Prelude.{◌≡◌, ◌+◌, ◌<◌, None, Some, false, slice_get, IfOk, IfErr, OnOk, OnErr};
ghost use Rattle.std.specs.FinMap.{get};
ghost use Rattle.rambo_tag.specs.Tags.{tag_of};
ghost use Rattle.rambo_history.specs.declared.operation.Op.TheVariants as asked;
ghost use Rattle.rambo_node.specs.Changes.{refusal_of, made_by, quiet_deed, begun_again};
ghost use Rattle.rambo_node.specs.Nodes.{open_call};
ghost use Rattle.rambo_node.specs.Kept.{answered_from, move_deed};
ghost use Rattle.rambo_calls.specs.Calls.{query_in};
ghost use Rattle.rambo_node.specs.Operations.{new_copy, taken};
ghost use Rattle.rambo_node.specs.Prepared.{IsAlone, IsFound, IsMoving, HasRoomFor, put_by, sequence_before};
ghost use Rattle.rambo_node.specs.Refusals.{is_last, tags_spent};
ghost use Rattle.rambo_node.specs.Acts as act;
ghost use Rattle.rambo_node.specs.declared.prepared.Quiet.TheVariants as quiet;

use crate::deed::{Deed, clone_of, tell_answered};
use crate::effect::Effect;
use crate::node::Node;
use crate::prepared::Moving;
use rambo_history::{CallId, Op};
use rambo_names::{Bytes, Quorums, Refusal};
use rambo_sequence::Mark;
use rambo_tag::{KeyedVersion, Replica, Tag, Version};

impl<Q: Quorums, S: Replica> Node<Q, S> {
    // The id of the next call.
    pub(crate) fn next_id(&self) -> CallId
        requires { is_last self.now.state.made ≡ false }
        ensures { result ≡ record { name = self.now.state.name; number = self.now.state.made + 1 } }
    {
        CallId {
            name: self.name,
            number: self.made + 1,
        }
    }

    /// The first half of a call: room is made for it. In either case the node itself is unchanged.
    ///
    /// `OutOfMemory` where there is no room for it.
    pub fn ready_call(&mut self) -> Result<(), Refusal>
        ensures same { self.new.state ≡ self.old.state }
        ensures beside { self.new.beside ≡ self.old.beside }
        ensures ok { OnOk result (0 < self.new.room.calls.room) }
        ensures refused { IfErr result (λ r. r ≡ Refusal.OutOfMemory) }
    {
        self.calls.reserve()
    }

    // A phase that isn't refused restarts.
    #[tactic(auto, unfolding(crate::specs::Operations::called_again))]
    pub(crate) fn do_again(&mut self, id: CallId)
        requires { refusal_of Q.system self.old.state (act.Quietly (quiet.Again id)) ≡ None }
        ensures state { self.new.state ≡ (begun_again self.old.state (open_call self.old.state id)).node }
        ensures beside { self.new.beside ≡ self.old.beside }
    {
        let place = self.place_of(&id);
        self.number += 1;
        self.calls.restart(place, self.number, &self.map, self.name);
    }

    /// The first half of the advance of a call that may advance. Room is made for the copy that it puts, and what it
    /// takes to its propagation, if its query is met, is found. In either case the node itself is unchanged.
    ///
    /// What the call takes along is written to `moving`, which has nothing of it yet. What the advance will do is
    /// written to `deed`, which has nothing yet. So large values are written where their owner keeps them, and aren't
    /// moved. `OutOfMemory` where there is no room for what is new; both are then unchanged.
    pub fn ready_advance(&mut self, moving: &mut Moving, deed: &mut Deed<Q>) -> Result<(), Refusal>
        requires found { IsFound Q.system self.old.state moving.old.id moving.old.found }
        requires alone { IsAlone moving.old }
        requires quiet { deed.old ≡ quiet_deed }
        ensures same { self.new.state ≡ self.old.state }
        ensures beside { self.new.beside ≡ self.old.beside }
        ensures id { OnOk result (moving.new.id ≡ moving.old.id) }
        ensures moving { OnOk result (IsMoving Q.system self.new moving.new) }
        ensures deed { OnOk result (deed.new ≡ (made_by self.old.state (act.Advance moving.old.id)).deed) }
        ensures refused { IfErr result (λ r. r ≡ Refusal.OutOfMemory) }
        ensures err { OnErr result (deed.new ≡ deed.old) }
        ensures kept { OnErr result (moving.new ≡ moving.old) }
    {
        let place = moving.found.place;
        self.room_at(place)?;
        match self.query_at(place) {
            Some(asked) => self.tell_query(moving, asked, deed),
            None => self.tell_answer(moving.id, place, deed),
        }
    }

    // Makes room for the copy that the call at a place will put, if it is a set in its query.
    fn room_at(&mut self, place: usize) -> Result<(), Refusal>
        ensures same { self.new.state ≡ self.old.state }
        ensures beside { self.new.beside ≡ self.old.beside }
        ensures room { OnOk result (HasRoomFor self.new.room (put_by self.new.state (query_in (slice_get self.new.state.calls place)))) }
        ensures refused { IfErr result (λ r. r ≡ Refusal.OutOfMemory) }
    {
        match self.query_at(place) {
            Some(Op::Set(_, _)) => self.registers.room_for_key(),
            _ => Ok(()),
        }
    }

    // What a met query that asked for this takes along is written to `moving`, and what it does to `deed`, which has
    // nothing yet.
    fn tell_query(&self, moving: &mut Moving, asked: &Op, deed: &mut Deed<Q>) -> Result<(), Refusal>
        requires before { moving.old.found.sequence ≡ sequence_before self.now.state (Some asked.now) }
        requires tags { tags_spent self.now.state asked.now ≡ false }
        requires alone { IsAlone moving.old }
        requires quiet { deed.old ≡ quiet_deed }
        ensures moving { OnOk result (moving.new ≡ record moving.old { kept = taken self.now.state asked.now; put = put_by self.now.state (Some asked.now) }) }
        ensures deed { OnOk result (deed.new ≡ move_deed moving.old.id asked.now (taken self.now.state asked.now)) }
        ensures refused { IfErr result (λ r. r ≡ Refusal.OutOfMemory) }
        ensures err { OnErr result (deed.new ≡ deed.old) }
        ensures kept { OnErr result (moving.new ≡ moving.old) }
    {
        match asked {
            Op::Get(key) => {
                let held = clone_of(self.registers.copy(key.as_slice()))?;
                moving.kept = held;
                deed.effect = Effect::Moved;
                Ok(())
            }
            Op::Set(key, value) => self.tell_set(moving, key, value, deed),
        }
    }

    // What a met propagation at this place does is written to `deed`, which has nothing yet.
    fn tell_answer(&self, id: CallId, place: usize, deed: &mut Deed<Q>) -> Result<(), Refusal>
        requires { deed.old ≡ quiet_deed }
        ensures deed { OnOk result (deed.new ≡ answered_from id (slice_get self.now.state.calls place)) }
        ensures refused { IfErr result (λ r. r ≡ Refusal.OutOfMemory) }
        ensures err { OnErr result (deed.new ≡ deed.old) }
    {
        tell_answered(deed, id, self.call_at(place))
    }

    // A set takes the next tag of its key, and its new copy will be put and be propagated.
    fn tell_set(
        &self,
        moving: &mut Moving,
        key: &Bytes,
        value: &Bytes,
        deed: &mut Deed<Q>,
    ) -> Result<(), Refusal>
        requires before { moving.old.found.sequence ≡ (tag_of (get self.now.state.registers key.now)).sequence }
        requires tags { is_last moving.old.found.sequence ≡ false }
        requires alone { IsAlone moving.old }
        requires quiet { deed.old ≡ quiet_deed }
        ensures moving { OnOk result (moving.new ≡ record moving.old { kept = Some (new_copy self.now.state key.now value.now); put = Some (record { key = key.now; version = new_copy self.now.state key.now value.now }) }) }
        ensures deed { OnOk result (deed.new ≡ move_deed moving.old.id (asked.Set key.now value.now) (Some (new_copy self.now.state key.now value.now))) }
        ensures refused { IfErr result (λ r. r ≡ Refusal.OutOfMemory) }
        ensures err { OnErr result (deed.new ≡ deed.old) }
        ensures kept { OnErr result (moving.new ≡ moving.old) }
    {
        let tag = Tag {
            sequence: moving.found.sequence + 1,
            name: self.name,
        };
        let sent = version(tag, value)?;
        let put = keyed(tag, key, value)?;
        let copy = keyed(tag, key, value)?;
        let kept = version(tag, value)?;
        let op = Op::Set(key.clone()?, value.clone()?);
        moving.kept = Some(sent);
        moving.put = Some(put);
        deed.effect = Effect::Moved;
        deed.mark = Some(Mark {
            id: moving.id,
            op,
            kept: Some(kept),
        });
        deed.copy = Some(copy);
        Ok(())
    }
}

// A value under a tag.
fn version(tag: Tag, value: &Bytes) -> Result<Version, Refusal>
    ensures made { IfOk result (λ v. v ≡ record { tag = tag; value = Some value.now }) }
    ensures refused { IfErr result (λ r. r ≡ Refusal.OutOfMemory) }
{
    Ok(Version {
        tag,
        value: Some(value.clone()?),
    })
}

// A key's value under a tag.
#[inline(always)]
fn keyed(tag: Tag, key: &Bytes, value: &Bytes) -> Result<KeyedVersion, Refusal>
    ensures made { IfOk result (λ c. c ≡ record { key = key.now; version = record { tag = tag; value = Some value.now } }) }
    ensures refused { IfErr result (λ r. r ≡ Refusal.OutOfMemory) }
{
    Ok(KeyedVersion {
        key: key.clone()?,
        version: version(tag, value)?,
    })
}
