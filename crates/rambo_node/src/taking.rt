//! The changes that a node takes.
ghost use Rattle.std.specs.Prelude.{◌≡◌, ◌+◌, None, Some, OnOk, OnErr, IfOk, IfErr};
ghost use Rattle.rambo_names.specs.Refusals.{IsRefusal};
ghost use Rattle.rambo_node.specs.Changes.{refusal_of, made_by, answer_in, collected_in, decided_in};
ghost use Rattle.rambo_node.specs.FullNodes.{beside_after};
ghost use Rattle.rambo_node.specs.Operations.{joined_by, stopped};
ghost use Rattle.rambo_node.specs.Acts as act;
ghost use Rattle.rambo_node.specs.declared.prepared.Quiet.TheVariants as quiet;

use crate::decided::Decided;
use crate::deed::Deed;
use crate::effect::Effect;
use crate::node::Node;
use crate::prepared::{Moving, Quiet};
use rambo_history::{Answer, CallId, Op};
use rambo_joiner::Status;
use rambo_names::{Members, Quorums, Refusal};
use rambo_tag::Replica;

impl<Q: Quorums, S: Replica> Node<Q, S> {
    /// A change that allocates nothing: what it did.
    ///
    /// Refused with what `ready` says of it.
    pub fn quietly(&mut self, quiet: Quiet<Q>) -> Result<Effect<Q>, Refusal>
        ensures judged { OnOk result (refusal_of Q.system self.old.state (act.Quietly quiet) ≡ None) }
        ensures node { OnOk result (self.new.state ≡ (made_by self.old.state (act.Quietly quiet)).node) }
        ensures effect { IfOk result (λ e. e ≡ (made_by self.old.state (act.Quietly quiet)).deed.effect) }
        ensures refused { IfErr result (λ r. refusal_of Q.system self.old.state (act.Quietly quiet) ≡ Some r) }
        ensures err { OnErr result (self.new.state ≡ self.old.state) }
        ensures beside { self.new.beside ≡ self.old.beside }
    {
        self.may_quiet(&quiet)?;
        Ok(self.do_quiet(quiet))
    }

    /// An idle node begins to join, with these contacts: it knows them and itself. It allocates nothing.
    ///
    /// Refused with 2 where it isn't idle, 18 where there is no contact.
    pub fn join(&mut self, contacts: Members) -> Result<(), Refusal>
        ensures judged { OnOk result (refusal_of Q.system self.old.state (act.Quietly (quiet.Join contacts)) ≡ None) }
        ensures node { OnOk result (self.new.state ≡ (made_by self.old.state (act.Quietly (quiet.Join contacts))).node) }
        ensures beside { OnOk result (self.new.beside ≡ beside_after self.old.state self.old.beside (act.Quietly (quiet.Join contacts))) }
        ensures refused { IfErr result (λ r. refusal_of Q.system self.old.state (act.Quietly (quiet.Join contacts)) ≡ Some r) }
        ensures err { OnErr result (self.new.state ≡ self.old.state) }
        ensures kept { OnErr result (self.new.beside ≡ self.old.beside) }
    {
        self.quietly(Quiet::Join(contacts))?;
        Ok(())
    }

    /// A client asks for an operation: a query phase begins. Returns the id of the call.
    ///
    /// Refused with 3 where the node is idle or joining, 4 where it has stopped. Else with 9 where it has 64 open
    /// calls, 19 where the key has over 256 bytes, 20 where the value has over 4,096 bytes. Else with 21 where its
    /// phase number or its last call number is the greatest one. Else with 22 where there is no room for the call.
    pub fn call(&mut self, op: Op) -> Result<CallId, Refusal>
        ensures judged { OnOk result (refusal_of Q.system self.old.state (act.Call op) ≡ None) }
        ensures node { OnOk result (self.new.state ≡ (made_by self.old.state (act.Call op)).node) }
        ensures beside { OnOk result (self.new.beside ≡ beside_after self.old.state self.old.beside (act.Call op)) }
        ensures id { IfOk result (λ id. id ≡ record { name = self.old.state.name; number = self.old.state.made + 1 }) }
        ensures refused { IfErr result (IsRefusal (refusal_of Q.system self.old.state (act.Call op))) }
        ensures err { OnErr result (self.new.state ≡ self.old.state) }
        ensures kept { OnErr result (self.new.beside ≡ self.old.beside) }
    {
        self.may_call(&op)?;
        self.ready_call()?;
        Ok(self.finish_call(op))
    }

    /// Advances the open call of this id, whose phase is met. In its query a get finds the copy that it will answer,
    /// and a set makes a new copy under the next tag of its key. Then the propagation begins, and there is no answer
    /// yet. In its propagation the call is answered.
    ///
    /// Refused with 3 where the node is idle or joining, 4 where it has stopped. Else with 7 where there is no such
    /// open call, 8 where its phase isn't met. Else with 21 where it is in its query and the phase number, or for a set
    /// the sequence number of the key's tag, is the greatest one. Else with 22 where there is no room for the copy.
    pub fn advance(&mut self, id: CallId) -> Result<Option<Answer>, Refusal>
        ensures judged { OnOk result (refusal_of Q.system self.old.state (act.Advance id) ≡ None) }
        ensures node { OnOk result (self.new.state ≡ (made_by self.old.state (act.Advance id)).node) }
        ensures beside { OnOk result (self.new.beside ≡ beside_after self.old.state self.old.beside (act.Advance id)) }
        ensures answer { IfOk result (λ a. a ≡ answer_in (made_by self.old.state (act.Advance id)).deed.effect) }
        ensures refused { IfErr result (IsRefusal (refusal_of Q.system self.old.state (act.Advance id))) }
        ensures err { OnErr result (self.new.state ≡ self.old.state) }
        ensures kept { OnErr result (self.new.beside ≡ self.old.beside) }
    {
        let found = self.may_advance(&id)?;
        let mut moving = Moving {
            id,
            found,
            kept: None,
            put: None,
        };
        let mut deed = Deed::default();
        self.ready_advance(&mut moving, &mut deed)?;
        self.finish_advance(&mut moving);
        Ok(deed.effect.into_answer())
    }

    /// The current phase of the open call of this id restarts, under a new number, with the node's current map, and
    /// with the node alone as a replier. It allocates nothing.
    ///
    /// Refused with 3 where the node is idle or joining, 4 where it has stopped. Else with 7 where there is no such
    /// open call, 21 where the phase number is the greatest one.
    pub fn again(&mut self, id: CallId) -> Result<(), Refusal>
        ensures judged { OnOk result (refusal_of Q.system self.old.state (act.Quietly (quiet.Again id)) ≡ None) }
        ensures node { OnOk result (self.new.state ≡ (made_by self.old.state (act.Quietly (quiet.Again id))).node) }
        ensures beside { OnOk result (self.new.beside ≡ beside_after self.old.state self.old.beside (act.Quietly (quiet.Again id))) }
        ensures refused { IfErr result (λ r. refusal_of Q.system self.old.state (act.Quietly (quiet.Again id)) ≡ Some r) }
        ensures err { OnErr result (self.new.state ≡ self.old.state) }
        ensures kept { OnErr result (self.new.beside ≡ self.old.beside) }
    {
        self.quietly(Quiet::Again(id))?;
        Ok(())
    }

    /// The collection of the lowest place begins: under a new phase number the node asks for a quorum of the
    /// configuration there, and replies itself. It allocates nothing.
    ///
    /// Refused with 3 where the node is idle or joining, 4 where it has stopped. Else with 10 where only one place is
    /// active, 11 where a collection is open, 21 where the phase number is the greatest one.
    pub fn collect(&mut self) -> Result<(), Refusal>
        ensures judged { OnOk result (refusal_of Q.system self.old.state (act.Quietly quiet.Collect) ≡ None) }
        ensures node { OnOk result (self.new.state ≡ (made_by self.old.state (act.Quietly quiet.Collect)).node) }
        ensures beside { OnOk result (self.new.beside ≡ beside_after self.old.state self.old.beside (act.Quietly quiet.Collect)) }
        ensures refused { IfErr result (λ r. refusal_of Q.system self.old.state (act.Quietly quiet.Collect) ≡ Some r) }
        ensures err { OnErr result (self.new.state ≡ self.old.state) }
        ensures kept { OnErr result (self.new.beside ≡ self.old.beside) }
    {
        self.quietly(Quiet::Collect)?;
        Ok(())
    }

    /// Advances the open collection. Where the first quorum has replied, it asks for one of the next place's
    /// configuration, under a new phase number, and returns none. Where the second one has replied, the place is
    /// removed, and where it is removed already, the collection ends at once, and the place is returned. It allocates
    /// nothing.
    ///
    /// Refused with 3 where the node is idle or joining, 4 where it has stopped. Else with 8 where the place isn't
    /// removed and the quorum hasn't replied, 12 where no collection is open. Else with 21 where the first quorum has
    /// replied, the place isn't removed and the phase number is the greatest one.
    pub fn advance_collect(&mut self) -> Result<Option<u64>, Refusal>
        ensures judged { OnOk result (refusal_of Q.system self.old.state (act.Quietly quiet.AdvanceCollect) ≡ None) }
        ensures node { OnOk result (self.new.state ≡ (made_by self.old.state (act.Quietly quiet.AdvanceCollect)).node) }
        ensures beside { OnOk result (self.new.beside ≡ beside_after self.old.state self.old.beside (act.Quietly quiet.AdvanceCollect)) }
        ensures place { IfOk result (λ place. place ≡ collected_in (made_by self.old.state (act.Quietly quiet.AdvanceCollect)).deed.effect) }
        ensures refused { IfErr result (λ r. refusal_of Q.system self.old.state (act.Quietly quiet.AdvanceCollect) ≡ Some r) }
        ensures err { OnErr result (self.new.state ≡ self.old.state) }
        ensures kept { OnErr result (self.new.beside ≡ self.old.beside) }
    {
        let effect = self.quietly(Quiet::AdvanceCollect)?;
        Ok(effect.collected())
    }

    /// An attempt begins to have this configuration chosen for the first unknown place, with a ballot of the round
    /// above the one that the node's vote promised. The vote takes the offer of it. It allocates nothing.
    ///
    /// Refused with 3 where the node is idle or joining, 4 where it has stopped. Else with 13 where it is no member of
    /// the configuration at its top, 14 where an attempt is open, 16 where eight places are active. Else with 17 where
    /// the wish has a member that the node doesn't know, 18 where the wish has no member. Else with 21 where the
    /// promised round or the top is the greatest number.
    pub fn recon(&mut self, wish: Q) -> Result<(), Refusal>
        ensures judged { OnOk result (refusal_of Q.system self.old.state (act.Quietly (quiet.Recon wish)) ≡ None) }
        ensures node { OnOk result (self.new.state ≡ (made_by self.old.state (act.Quietly (quiet.Recon wish))).node) }
        ensures beside { OnOk result (self.new.beside ≡ beside_after self.old.state self.old.beside (act.Quietly (quiet.Recon wish))) }
        ensures refused { IfErr result (λ r. refusal_of Q.system self.old.state (act.Quietly (quiet.Recon wish)) ≡ Some r) }
        ensures err { OnErr result (self.new.state ≡ self.old.state) }
        ensures kept { OnErr result (self.new.beside ≡ self.old.beside) }
    {
        self.quietly(Quiet::Recon(wish))?;
        Ok(())
    }

    /// The open attempt keeps its wish and is retried, with a ballot of the round above the one that the node's vote
    /// promised. The vote takes the offer of it. It allocates nothing.
    ///
    /// Refused with 3 where the node is idle or joining, 4 where it has stopped. Else with 15 where no attempt is open
    /// for the first unknown place, 21 where the promised round is the greatest number.
    pub fn rebid(&mut self) -> Result<(), Refusal>
        ensures judged { OnOk result (refusal_of Q.system self.old.state (act.Quietly quiet.Rebid) ≡ None) }
        ensures node { OnOk result (self.new.state ≡ (made_by self.old.state (act.Quietly quiet.Rebid)).node) }
        ensures beside { OnOk result (self.new.beside ≡ beside_after self.old.state self.old.beside (act.Quietly quiet.Rebid)) }
        ensures refused { IfErr result (λ r. refusal_of Q.system self.old.state (act.Quietly quiet.Rebid) ≡ Some r) }
        ensures err { OnErr result (self.new.state ≡ self.old.state) }
        ensures kept { OnErr result (self.new.beside ≡ self.old.beside) }
    {
        self.quietly(Quiet::Rebid)?;
        Ok(())
    }

    /// Advances the open attempt. Where a quorum of the configuration at the top promised its ballot, it proposes what
    /// it was told of, or else its wish, and returns none. Where a quorum accepted the proposal, its configuration is
    /// learnt at the first unknown place. Where the attempt's place is known already, the attempt ends at once. In both
    /// cases it returns what is at its place then. It allocates nothing.
    ///
    /// Refused with 3 where the node is idle or joining, 4 where it has stopped. Else with 8 where the attempt's place
    /// is unknown and its quorum hasn't replied, 15 where no attempt is open.
    pub fn advance_recon(&mut self) -> Result<Option<Decided<Q>>, Refusal>
        ensures judged { OnOk result (refusal_of Q.system self.old.state (act.Quietly quiet.AdvanceRecon) ≡ None) }
        ensures node { OnOk result (self.new.state ≡ (made_by self.old.state (act.Quietly quiet.AdvanceRecon)).node) }
        ensures beside { OnOk result (self.new.beside ≡ beside_after self.old.state self.old.beside (act.Quietly quiet.AdvanceRecon)) }
        ensures decided { IfOk result (λ d. d ≡ decided_in (made_by self.old.state (act.Quietly quiet.AdvanceRecon)).deed.effect) }
        ensures refused { IfErr result (λ r. refusal_of Q.system self.old.state (act.Quietly quiet.AdvanceRecon) ≡ Some r) }
        ensures err { OnErr result (self.new.state ≡ self.old.state) }
        ensures kept { OnErr result (self.new.beside ≡ self.old.beside) }
    {
        let effect = self.quietly(Quiet::AdvanceRecon)?;
        Ok(effect.decided())
    }

    /// The node stops for ever. It allocates nothing.
    ///
    /// Refused with 3 where it is idle, 4 where it has stopped.
    pub fn stop(&mut self) -> Result<(), Refusal>
        ensures judged { OnOk result (refusal_of Q.system self.old.state (act.Quietly quiet.Stop) ≡ None) }
        ensures node { OnOk result (self.new.state ≡ (made_by self.old.state (act.Quietly quiet.Stop)).node) }
        ensures beside { OnOk result (self.new.beside ≡ beside_after self.old.state self.old.beside (act.Quietly quiet.Stop)) }
        ensures refused { IfErr result (λ r. refusal_of Q.system self.old.state (act.Quietly quiet.Stop) ≡ Some r) }
        ensures err { OnErr result (self.new.state ≡ self.old.state) }
        ensures kept { OnErr result (self.new.beside ≡ self.old.beside) }
    {
        self.quietly(Quiet::Stop)?;
        Ok(())
    }
}

impl<Q: Quorums, S: Replica> Node<Q, S> {
    // Begins to join.
    #[tactic(auto, unfolding(crate::specs::Operations::joined_by))]
    pub(crate) fn do_join(&mut self, contacts: Members)
        ensures state { self.new.state ≡ joined_by self.old.state contacts }
        ensures beside { self.new.beside ≡ self.old.beside }
    {
        self.status = Status::Joining;
        self.known = contacts.with(self.name);
    }

    // Stops.
    #[tactic(auto, unfolding(crate::specs::Operations::stopped))]
    pub(crate) fn do_stop(&mut self)
        ensures state { self.new.state ≡ stopped self.old.state }
        ensures beside { self.new.beside ≡ self.old.beside }
    {
        self.status = Status::Stopped;
    }
}
