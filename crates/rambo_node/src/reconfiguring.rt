//! How a node has the next configuration chosen, and its lowest place removed. Nothing here allocates.
ghost use Rattle.std.specs.Prelude.{◌≡◌, ◌≤◌, Some, None, true, false};
ghost use Rattle.rambo_config_map.specs.Maps.{active_at, end_of, top_of};
ghost use Rattle.rambo_gc.specs.Collections.{has_quorum, move_of};
ghost use Rattle.rambo_paxos.specs.Attempts.{bid_of};
ghost use Rattle.rambo_paxos.specs.Votes.{is_spent};
ghost use Rattle.rambo_node.specs.Changes.{refusal_of, collection_advanced, rebid_made, attempt_advanced, bid_made};
ghost use Rattle.rambo_node.specs.Reconfigurations.{attempt_opened, attempt_rebid, attempt_ended, collection_opened, collection_moved, collection_ended};
ghost use Rattle.rambo_node.specs.Refusals.{is_last};
ghost use Rattle.rambo_node.specs.Acts as act;
ghost use Rattle.rambo_node.specs.declared.prepared.Quiet.TheVariants as quiet;

use crate::decided::Decided;
use crate::effect::Effect;
use crate::node::Node;
use crate::turns::{attempt_of, collection_of, go_on, learn, moved, rebid, remove};
use rambo_bids::{active_at, is_known, top_of};
use rambo_gc::{Collection, GcMove};
use rambo_names::Quorums;
use rambo_paxos::{Attempt, Bid};
use rambo_tag::Replica;

impl<Q: Quorums, S: Replica> Node<Q, S> {
    // A collection that isn't refused begins.
    #[tactic(auto, unfolding(crate::specs::Reconfigurations::collection_opened))]
    pub(crate) fn do_collect(&mut self)
        requires { refusal_of Q.system self.old.state (act.Quietly quiet.Collect) ≡ None }
        ensures state { self.new.state ≡ collection_opened self.old.state }
        ensures beside { self.new.beside ≡ self.old.beside }
    {
        self.number += 1;
        self.collection = Some(collection_of(&self.map, self.number, self.name));
    }

    // A collection that isn't refused goes on.
    pub(crate) fn do_advance_collect(&mut self) -> Effect<Q>
        requires { refusal_of Q.system self.old.state (act.Quietly quiet.AdvanceCollect) ≡ None }
        ensures node { self.new.state ≡ (collection_advanced self.old.state self.old.state.collection).node }
        ensures beside { self.new.beside ≡ self.old.beside }
        ensures effect { result ≡ (collection_advanced self.old.state self.old.state.collection).effect }
    {
        match self.collection {
            Some(collection) => self.turn_collection(collection),
            None => unreachable!(),
        }
    }

    // What its collection does that isn't refused.
    fn turn_collection(&mut self, collection: Collection) -> Effect<Q>
        requires held { self.old.state.collection ≡ Some collection }
        requires judged { refusal_of Q.system self.old.state (act.Quietly quiet.AdvanceCollect) ≡ None }
        ensures node { self.new.state ≡ (collection_advanced self.old.state (Some collection)).node }
        ensures beside { self.new.beside ≡ self.old.beside }
        ensures effect { result ≡ (collection_advanced self.old.state (Some collection)).effect }
    {
        match collection.would_advance(&self.map) {
            Some(GcMove::Propagating) => self.move_collection(collection),
            Some(GcMove::Done) => self.end_collection(&collection),
            None => unreachable!(),
        }
    }

    // The first quorum of its collection is there: the second one is asked for, under a new number.
    #[tactic(auto, unfolding(crate::specs::Reconfigurations::collection_moved))]
    fn move_collection(&mut self, collection: Collection) -> Effect<Q>
        requires met { move_of Q.system self.old.state.map collection ≡ Some GcMove.Propagating }
        requires next { is_last self.old.state.number ≡ false }
        ensures node { self.new.state ≡ collection_moved self.old.state collection }
        ensures beside { self.new.beside ≡ self.old.beside }
        ensures effect { result ≡ Effect.Moved }
    {
        self.number += 1;
        self.collection = Some(moved(collection, &self.map, self.number));
        Effect::Moved
    }

    // Its collection is done: the place is removed, unless it is so already.
    #[tactic(auto, unfolding(crate::specs::Reconfigurations::collection_ended))]
    fn end_collection(&mut self, collection: &Collection) -> Effect<Q>
        requires { move_of Q.system self.old.state.map collection.now ≡ Some GcMove.Done }
        ensures node { self.new.state ≡ collection_ended self.old.state collection.now }
        ensures beside { self.new.beside ≡ self.old.beside }
        ensures effect { result ≡ Effect.Collected self.old.state.name collection.now.place }
    {
        let place = collection.place();
        remove(&mut self.map, place);
        self.collection = None;
        Effect::Collected(self.name, place)
    }

    // An attempt that isn't refused begins.
    #[tactic(auto, unfolding(crate::specs::Reconfigurations::attempt_opened))]
    pub(crate) fn do_recon(&mut self, wish: Q)
        requires { refusal_of Q.system self.old.state (act.Quietly (quiet.Recon wish)) ≡ None }
        ensures state { self.new.state ≡ attempt_opened self.old.state wish }
        ensures beside { self.new.beside ≡ self.old.beside }
    {
        let place = top_of(&self.map) + 1;
        self.attempt = Some(attempt_of(place, wish, &mut self.vote, self.name));
    }

    // An attempt that isn't refused begins again.
    pub(crate) fn do_rebid(&mut self)
        requires { refusal_of Q.system self.old.state (act.Quietly quiet.Rebid) ≡ None }
        ensures state { self.new.state ≡ (rebid_made self.old.state self.old.state.attempt).node }
        ensures beside { self.new.beside ≡ self.old.beside }
    {
        match self.attempt {
            Some(attempt) => self.bid_again(attempt),
            None => unreachable!(),
        }
    }

    // Its attempt begins again with a fresh ballot.
    #[tactic(auto, unfolding(crate::specs::Reconfigurations::attempt_rebid))]
    fn bid_again(&mut self, attempt: Attempt<Q>)
        requires held { self.old.state.attempt ≡ Some attempt }
        requires next { is_spent self.old.state.vote ≡ false }
        ensures state { self.new.state ≡ attempt_rebid self.old.state attempt }
        ensures beside { self.new.beside ≡ self.old.beside }
    {
        self.attempt = Some(rebid(attempt, &mut self.vote));
    }

    // An attempt that isn't refused goes on.
    pub(crate) fn do_advance_recon(&mut self) -> Effect<Q>
        requires { refusal_of Q.system self.old.state (act.Quietly quiet.AdvanceRecon) ≡ None }
        ensures node { self.new.state ≡ (attempt_advanced self.old.state self.old.state.attempt).node }
        ensures beside { self.new.beside ≡ self.old.beside }
        ensures effect { result ≡ (attempt_advanced self.old.state self.old.state.attempt).effect }
    {
        match self.attempt {
            Some(attempt) => self.turn_attempt(attempt),
            None => unreachable!(),
        }
    }

    // What its attempt does that isn't refused.
    fn turn_attempt(&mut self, attempt: Attempt<Q>) -> Effect<Q>
        requires held { self.old.state.attempt ≡ Some attempt }
        requires judged { refusal_of Q.system self.old.state (act.Quietly quiet.AdvanceRecon) ≡ None }
        ensures node { self.new.state ≡ (attempt_advanced self.old.state (Some attempt)).node }
        ensures beside { self.new.beside ≡ self.old.beside }
        ensures effect { result ≡ (attempt_advanced self.old.state (Some attempt)).effect }
    {
        if is_known(&self.map, attempt.place()) {
            return self.end_attempt(attempt.place());
        }
        self.bid(attempt)
    }

    // Its attempt for a place that has become known ends: what is there is reported.
    #[tactic(auto, unfolding(crate::specs::Reconfigurations::attempt_ended))]
    fn end_attempt(&mut self, place: u64) -> Effect<Q>
        ensures node { self.new.state ≡ attempt_ended self.old.state }
        ensures beside { self.new.beside ≡ self.old.beside }
        ensures effect { result ≡ Effect.Decided self.old.state.name (record { place = place; config = active_at self.old.state.map place }) }
    {
        self.attempt = None;
        let config = active_at(&self.map, place);
        Effect::Decided(self.name, Decided { place, config })
    }

    // Its attempt, whose quorum has replied, proposes, or its configuration is chosen and learnt.
    fn bid(&mut self, attempt: Attempt<Q>) -> Effect<Q>
        requires held { self.old.state.attempt ≡ Some attempt }
        requires unknown { end_of self.old.state.map ≤ attempt.place }
        requires met { has_quorum Q.system (active_at self.old.state.map (top_of self.old.state.map)) attempt.repliers ≡ true }
        ensures node { self.new.state ≡ (bid_made self.old.state attempt (bid_of attempt)).node }
        ensures beside { self.new.beside ≡ self.old.beside }
        ensures effect { result ≡ (bid_made self.old.state attempt (bid_of attempt)).effect }
    {
        let place = attempt.place();
        let mut next = attempt;
        match go_on(&mut next, &mut self.vote, &self.map) {
            Bid::Propose => {
                self.attempt = Some(next);
                Effect::Moved
            }
            Bid::Chosen(config) => {
                self.attempt = None;
                learn(&mut self.map, config);
                let config = Some(config);
                Effect::Decided(self.name, Decided { place, config })
            }
        }
    }
}
