//! The second halves of a call and of its advance, which do what the first ones found.
//!
//! Nothing here allocates, and nothing fails.
ghost use Rattle.std.specs.Prelude.{◌≡◌, ◌+◌, ◌<◌, None, false, remove};
ghost use Rattle.rambo_node.specs.Changes.{refusal_of, made_by};
ghost use Rattle.rambo_node.specs.FullNodes.{beside_after, stamp_put};
ghost use Rattle.rambo_node.specs.Kept.{propagation_begun};
ghost use Rattle.rambo_node.specs.Prepared.{HasRoomFor, IsMoving, with_put};
ghost use Rattle.rambo_node.specs.Refusals.{is_last};
ghost use Rattle.rambo_node.specs.Acts as act;

use crate::node::Node;
use crate::prepared::Moving;
use rambo_history::{CallId, Op};
use rambo_names::Quorums;
use rambo_tag::{KeyedVersion, Replica, Version};

impl<Q: Quorums, S: Replica> Node<Q, S> {
    /// The second half of a call that isn't refused, for which there is room: it begins. Returns its id.
    ///
    /// It allocates nothing and can't fail.
    #[tactic(auto, unfolding(crate::specs::Changes::made_by, crate::specs::Operations::called))]
    pub fn finish_call(&mut self, op: Op) -> CallId
        requires accepted { refusal_of Q.system self.old.state (act.Call op) ≡ None }
        requires room { 0 < self.old.room.calls.room }
        ensures node { self.new.state ≡ (made_by self.old.state (act.Call op)).node }
        ensures beside { self.new.beside ≡ beside_after self.old.state self.old.beside (act.Call op) }
        ensures id { result ≡ record { name = self.old.state.name; number = self.old.state.made + 1 } }
    {
        let id = self.next_id();
        self.calls
            .open_reserved(id.number, op, self.number + 1, &self.map, self.name);
        self.number += 1;
        self.made = id.number;
        id
    }

    /// The second half of the advance of a call that is ready: it goes on to its propagation with what it takes along,
    /// or is answered.
    ///
    /// It allocates nothing and can't fail. What the call took along is no longer in `moving`.
    pub fn finish_advance(&mut self, moving: &mut Moving)
        requires { IsMoving Q.system self.old moving.old }
        ensures node { self.new.state ≡ (made_by self.old.state (act.Advance moving.old.id)).node }
        ensures beside { self.new.beside ≡ beside_after self.old.state self.old.beside (act.Advance moving.old.id) }
        ensures taken { moving.new ≡ record moving.old { kept = None; put = None } }
    {
        let place = moving.found.place;
        match self.query_at(place) {
            Some(_) => {
                self.put(&mut moving.put);
                self.propagate(place, moving.kept.take());
            }
            None => self.finish_answer(place),
        }
    }

    // Puts a copy, if there is one, for which there is room: it is stamped with the phase number.
    // (most calls put none, and room for one isn't moved then)
    fn put(&mut self, put: &mut Option<KeyedVersion>)
        requires { HasRoomFor self.old.room put.old }
        ensures state { self.new.state ≡ record self.old.state { registers = with_put self.old.state.registers put.old } }
        ensures beside { self.new.beside ≡ record self.old.beside { stamps = stamp_put self.old.state.number self.old.beside.stamps put.old } }
        ensures taken { put.new ≡ None }
    {
        if put.is_none() {
            return;
        }
        if let Some(KeyedVersion { key, version }) = put.take() {
            self.registers.put_room(key, version, self.number);
        }
    }

    // The propagation of the call at a place begins.
    fn propagate(&mut self, place: usize, kept: Option<Version>)
        requires { is_last self.old.state.number ≡ false }
        ensures state { self.new.state ≡ propagation_begun self.old.state place kept }
        ensures beside { self.new.beside ≡ self.old.beside }
    {
        self.number += 1;
        self.calls
            .propagate(place, kept, self.number, &self.map, self.name);
    }

    // A met propagation at a place is answered: its call is taken out.
    fn finish_answer(&mut self, place: usize)
        ensures state { self.new.state ≡ record self.old.state { calls = remove self.old.state.calls place } }
        ensures beside { self.new.beside ≡ self.old.beside }
    {
        self.calls.close(place);
    }
}
