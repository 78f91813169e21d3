//! A client, and what it asks of nodes.
ghost use Rattle.std.specs.Prelude.{◌≡◌, ◌++◌, ◌∷◌, [], List, Option, Some, fold, IfOk, OnOk, OnErr, IfNone, IfSome};
ghost use Rattle.rambo_names.specs.Names.{names};
ghost use Rattle.rambo_names.specs.Weights.{members_of};
ghost use Rattle.rambo_history.specs.declared.operation.Answer.{Answer as AnyAnswer};
ghost use Rattle.rambo_commands.specs.declared.request.Request.{Request as AnyRequest};
ghost use Rattle.rambo_commands.specs.declared.request.Request.TheVariants.{Does};
ghost use Rattle.rambo_client.specs.Calls.{lowest, answered};
ghost use Rattle.rambo_client.specs.Courses.{Course, Ends, HasDone, HasBegun, exchanged, history_of, others, phase};
ghost use Rattle.rambo_client.specs.Maps.{no_values, answer_of};
ghost use Rattle.rambo_client.specs.Replies.{after_all};

use crate::cluster::Cluster;
use rambo_history::{Answer, CallId, Op};
use rambo_names::{Name, Quorums, Refusal, Weighted};

/// A client of the lowest founder, which asks all founders.
#[derive(Clone, Copy)]
pub struct Client {
    /// The node that it asks.
    pub name: Name,
    /// The founders of the nodes.
    pub founders: Weighted,
}

impl Client {
    /// The client of these founders, or none where there is no founder.
    pub fn new(founders: Weighted) -> Option<Client>
        ensures lowest { IfSome result (λ c. c.name ≡ lowest (members_of founders)) }
        ensures founders { IfSome result (λ c. c.founders ≡ founders) }
        ensures none { IfNone result (names (members_of founders) ≡ []) }
    {
        let name = founders.members().iter().next()?;
        Some(Client { name, founders })
    }

    /// Asks for an operation, and advances it until it is answered: once all founders answered its query, and once all
    /// answered its propagation.
    ///
    /// Where it is refused the call may have been made.
    pub(crate) fn operate<By, C: Cluster<By>>(
        &self,
        cluster: &mut C,
        op: Op,
    ) -> Result<Answer, Refusal>
        ensures answer { (qs : List AnyRequest) → HasDone self.now.name self.now.founders qs (C.took cluster.old)
            → IfOk result (λ a. a ≡ answer_of (after_all no_values qs) op) }
        ensures ok { (qs : List AnyRequest) → HasDone self.now.name self.now.founders qs (C.took cluster.old)
            → OnOk result (HasDone self.now.name self.now.founders (qs ++ Does op ∷ []) (C.took cluster.new)) }
        ensures err { (qs : List AnyRequest) → HasDone self.now.name self.now.founders qs (C.took cluster.old)
            → OnErr result (HasBegun self.now.name self.now.founders (qs ++ Does op ∷ []) (C.took cluster.new)) }
    {
        let id = cluster.ask(self.name, op)?;
        self.finish(cluster, &id)
    }

    // Has a call go on twice: its query ends, and then its propagation, with its answer.
    fn finish<By, C: Cluster<By>>(&self, cluster: &mut C, id: &CallId) -> Result<Answer, Refusal>
        ensures { (c : Course) → C.took cluster.old c → id.now.name ≡ self.now.name
            → (early : Option AnyAnswer) × Ends result (C.took cluster.new) (phase (phase c (others self.now.name (names (members_of self.now.founders))) id.now) (others self.now.name (names (members_of self.now.founders))) id.now) (history_of c ++ answered id.now early) (λ a. answered id.now (Some a)) }
    {
        self.advance(cluster, id)?;
        self.advance(cluster, id)?.ok_or(Refusal::NotYet)
    }

    // Exchanges letters with each other founder, and then has a call go on.
    fn advance<By, C: Cluster<By>>(
        &self,
        cluster: &mut C,
        id: &CallId,
    ) -> Result<Option<Answer>, Refusal>
        ensures { (c : Course) → C.took cluster.old c → id.now.name ≡ self.now.name
            → Ends result (C.took cluster.new) (phase c (others self.now.name (names (members_of self.now.founders))) id.now) (history_of c) (answered id.now) }
    {
        self.ask_all(cluster)?;
        cluster.go_on(id)
    }

    // Exchanges letters with each other founder.
    fn ask_all<By, C: Cluster<By>>(&self, cluster: &mut C) -> Result<(), Refusal>
        ensures { (c : Course) → C.took cluster.old c
            → Ends result (C.took cluster.new) (fold (exchanged self.now.name) c (others self.now.name (names (members_of self.now.founders)))) (history_of c) (λ done. []) }
    {
        for peer in self.founders.members().iter() {
            self.ask(cluster, peer)?;
        }
        Ok(())
    }

    // Exchanges letters with a founder, unless it is the node that is asked.
    fn ask<By, C: Cluster<By>>(&self, cluster: &mut C, peer: Name) -> Result<(), Refusal>
        ensures { (c : Course) → C.took cluster.old c
            → Ends result (C.took cluster.new) (fold (exchanged self.now.name) c (others self.now.name (peer ∷ []))) (history_of c) (λ done. []) }
    {
        if peer != self.name {
            cluster.exchange(self.name, peer)?;
        }
        Ok(())
    }
}
