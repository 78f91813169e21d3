//! One node with its mail, and what it has seen.
ghost use Rattle.std.specs.Prelude.{◌≡◌, ◌≤◌, [], Some, length, All};
ghost use Rattle.std.specs.FinMap as map;
ghost use Rattle.rambo_names.specs.Names.{IsName};
ghost use Rattle.rambo_joiner.specs.Statuses.{is_stopped};
ghost use Rattle.rambo_node.specs.Changes.{replayed};
ghost use Rattle.rambo_node.specs.FullNodes.{first_beside};
ghost use Rattle.rambo_node.specs.Nodes.{first_node};
ghost use Rattle.rambo_run.specs.Journals.{journal};
ghost use Rattle.rambo_run.specs.Legal.{IsLegal};
ghost use Rattle.rambo_run.specs.Runs.{run};
ghost use Rattle.rambo_run.specs.Worlds.{node_at};
ghost use Rattle.rambo_book.specs.Kept.{AreBasesOf, AreStampsOf, IsMailOf};

use crate::terms::Terms;
use rambo_config_map::ConfigMap;
use rambo_mail::Mail;
use rambo_names::{Members, Name, Quorums, Refusal};
use rambo_node::{Node, Quiet, Workspace};
use rambo_roll::{Acts, Holder};
use rambo_run::Step;
use rambo_tag::Replica;
use std::alloc::Global;
use std::marker::Model;

/// Whose step a step is.
pub struct Actor;

impl<Q: Quorums> Acts<Step<Q>> for Actor {
    ghost use Rattle.rambo_run.specs.Actors.{actor};

    ghost actor = { actor };
}

/// A node, the letters that came for it, and the token of what it has seen.
pub struct Keeper<J: Terms<Q>, Q: Quorums, S: Replica> {
    pub(crate) name: Name,
    pub(crate) tray: Vec<Mail<Q>>,
    pub(crate) holder: Holder<J, Step<Q>>,
    // What its node uses again.
    pub(crate) workspace: Workspace<Q>,
    pub(crate) node: Node<Q, S>,
}

// By hand, so that those who drop it needn't follow all that is in it.
impl<J: Terms<Q>, Q: Quorums, S: Replica> Drop for Keeper<J, Q, S> {
    fn drop(self) {
        let Keeper {
            name: _name,
            tray: _tray,
            holder: _holder,
            workspace: _workspace,
            node: _node,
        } = self;
    }
}

impl<J: Terms<Q>, Q: Quorums, S: Replica> Model for Keeper<J, Q, S> {
    ghost use Rattle.std.specs.Coded.{codes};
    ghost use Rattle.rambo_names.specs.Names.{names_code};
    ghost use Rattle.rambo_tag.specs.Copies.{copies_code};
    ghost use Rattle.rambo_tag.specs.Stamps.{stamps_code};
    ghost use Rattle.rambo_book.specs.Kept.{KeeperView, IsKeeper};

    ghost Value = { KeeperView Q };

    ghost coded = { Prim.hlevel (codes, names_code, copies_code, stamps_code, Q.code) };

    ghost view = { λ k. record { name = k.name; node = k.node.state; room = k.node.room; beside = k.node.beside; tray = k.tray.items; seen = k.holder.1 } };

    ghost invariant = { λ k. IsKeeper Q.system J.founders J.capacity k.holder.0 k.name (record { state = k.node.state; stamps = k.node.beside.stamps; bases = k.node.beside.bases }) k.tray.items k.holder.1 };
}

impl<J: Terms<Q>, Q: Quorums, S: Replica> Keeper<J, Q, S> {
    /// The keeper of a node that has done nothing. It allocates nothing.
    pub fn new(
        alloc: Global,
        name: Name,
        founders: Q,
        registers: S,
        holder: Holder<J, Step<Q>>,
    ) -> Keeper<J, Q, S>
        requires named { IsName name }
        requires copies { S.copies registers ≡ map.empty }
        requires stamps { S.stamps registers ≡ map.empty }
        requires holder { holder ≡ (name, []) }
        requires founders { J.founders ≡ Some founders }
        ensures { result ≡ record { name = name; node = first_node Q.system founders name; room = result.room; beside = first_beside; tray = []; seen = [] } }
    {
        Keeper {
            node: Node::new(alloc, name, founders, registers),
            workspace: Workspace::new(),
            name,
            tray: Vec::new(alloc),
            holder,
        }
    }

    /// What holds of every keeper, whatever happened before. What it has seen is legal, and at most as many steps as
    /// its post takes. Its node is that of the run of what it has seen, which is the replay of its own changes in that
    /// run. Each letter of its tray represents one that was sent to it there. Each stamp is the node's phase number
    /// before the step that last changed the copy. Each base is the greatest heard number that letters of that name
    /// carried to it.
    pub fn facts(&self)
        ensures legal { (f : Q) → J.founders ≡ Some f → IsLegal Q.system f self.now.seen }
        ensures fits { length self.now.seen ≤ J.capacity }
        ensures node { (f : Q) → J.founders ≡ Some f → node_at (run Q.system f self.now.seen) self.now.name ≡ Some self.now.node }
        ensures replay { (f : Q) → J.founders ≡ Some f → self.now.node ≡ replayed (first_node Q.system f self.now.name) (journal Q.system f self.now.name self.now.seen) }
        ensures stamps { (f : Q) → J.founders ≡ Some f → AreStampsOf Q.system f self.now }
        ensures bases { (f : Q) → J.founders ≡ Some f → AreBasesOf Q.system f self.now }
        ensures tray { (f : Q) → J.founders ≡ Some f → All (IsMailOf (run Q.system f self.now.seen) self.now.name) self.now.tray }
    {
        let _ = &self.node;
    }

    /// The name of its node.
    pub fn name(&self) -> Name
        ensures { result ≡ self.now.name }
    {
        self.name
    }

    /// Its node.
    pub fn node(&self) -> &Node<Q, S>
        ensures { result.now ≡ record { state = self.now.node; room = self.now.room; beside = self.now.beside } }
    {
        &self.node
    }

    /// The letters that came for its node, the oldest first.
    pub fn tray(&self) -> &[Mail<Q>]
        ensures { result.now ≡ self.now.tray }
    {
        self.tray.as_slice()
    }

    /// The map of its node.
    pub fn map(&self) -> ConfigMap<Q>
        ensures { result ≡ self.now.node.map }
    {
        self.node.map().copy()
    }

    /// Whether its letters carried so many copies since its node's phase number last rose that a step by which that rises would
    /// have cost less.
    pub fn carries_much(&self) -> bool {
        self.workspace.carries_much()
    }

    /// Whether its node is joining, or has a call, a collection or an attempt open.
    pub fn is_open(&self) -> bool {
        let status = self.node.status();
        if status.is_early() {
            return !status.is_idle();
        }
        !self.node.calls().is_empty()
            || goes_on(self.node.may_quiet(&Quiet::AdvanceCollect))
            || goes_on(self.node.may_quiet(&Quiet::AdvanceRecon))
    }

    /// The names that its node can write to.
    pub fn known(&self) -> Members {
        let mut known = Members::empty();
        for number in 1..65u64 {
            if let Ok(name) = Name::new(number) {
                if self.node.may_send(name).is_ok() {
                    known = known.with(name);
                }
            }
        }
        known
    }

    /// Whether its node has stopped, for good.
    pub fn has_stopped(&self) -> bool
        ensures { result ≡ is_stopped self.now.node.status }
    {
        self.node.status().is_stopped()
    }
}

// Whether this is the verdict on something open.
fn goes_on(verdict: Result<(), Refusal>) -> bool {
    match verdict {
        Ok(()) => true,
        Err(refusal) => refusal == Refusal::NotYet || refusal == Refusal::NumbersSpent,
    }
}
