//! The steps of nodes.
ghost use Rattle.std.specs.Prelude.{◌≡◌, ◌≢◌, ℕ, IsOk, IfOk, IfErr};
ghost use Rattle.std.specs.Option.{option_copied};
ghost use Rattle.rambo_node.specs.Steps.{delivered_by, named_by, quiet_of};
ghost use Rattle.rambo_node.specs.declared.step.StepOf.TheVariants as step;

use crate::prepared::Quiet;
use rambo_gossip::Letter;
use rambo_history::{CallId, Op};
use rambo_names::{Members, Name, Quorums, Refusal};

/// One event of one node, in which `L` tells which letter comes.
#[derive(Drop, Debug)]
pub enum StepOf<Q: Quorums, L> {
    /// An idle node begins to join, with these contacts.
    Join(Name, Members),
    /// A client asks a node for an operation.
    Call(Name, Op),
    /// The first node sends a letter to the second.
    Send(Name, Name),
    /// This letter comes to its addressee: letters come late, again, in any order, or never.
    Deliver(L),
    /// A call whose phase is met advances.
    Advance(CallId),
    /// The current phase of a call restarts.
    Again(CallId),
    /// A node begins to collect the lowest place of its map.
    Collect(Name),
    /// A node's collection, whose quorum has replied, advances.
    AdvanceCollect(Name),
    /// A node begins to have this configuration chosen for the first place that its map doesn't know.
    Recon(Name, Q),
    /// A node's attempt is retried with a fresh ballot.
    Rebid(Name),
    /// A node's attempt, whose quorum has replied, advances.
    AdvanceRecon(Name),
    /// A node stops for ever.
    Stop(Name),
}

/// An event of a run, in which a letter is told by its number, from 1.
pub type Step<Q> = StepOf<Q, u64>;

/// An event of one node by itself, which has the letter that comes.
pub type Change<Q> = StepOf<Q, Letter<Q>>;

impl<Q: Quorums, L> StepOf<Q, L> {
    /// The letter that comes by it, if one does.
    pub fn letter(&self) -> Option<&L>
        ensures { option_copied result ≡ delivered_by self.now }
    {
        match self {
            StepOf::Deliver(letter) => Some(letter),
            _ => None,
        }
    }

    /// The name of the node whose step it is, by what it says itself. None of a letter that comes.
    pub fn name(&self) -> Option<Name>
        ensures { result ≡ named_by self.now }
    {
        match self {
            StepOf::Call(name, _) => Some(*name),
            StepOf::Send(name, _) => Some(*name),
            StepOf::Deliver(_) => None,
            StepOf::Advance(id) => Some(id.name),
            _ => match quiet_of(self) {
                Some(meant) => Some(meant.0),
                None => unreachable!(),
            },
        }
    }
}

impl<Q: Quorums> StepOf<Q, u64> {
    /// The same step, which shares its bytes.
    ///
    /// `OutOfMemory` where a reference count is at its limit, at a call alone: the other steps have no bytes.
    pub fn clone(&self) -> Result<Step<Q>, Refusal>
        ensures same { IfOk result (λ step. step ≡ self.now) }
        ensures other { ((name : ℕ) (op : Op) → self.now ≢ step.Call name op) → IsOk result }
        ensures refused { IfErr result (λ r. r ≡ Refusal.OutOfMemory) }
    {
        Ok(match self {
            Step::Join(name, contacts) => Step::Join(*name, *contacts),
            Step::Call(name, op) => Step::Call(*name, op.clone()?),
            Step::Send(from, to) => Step::Send(*from, *to),
            Step::Deliver(letter) => Step::Deliver(*letter),
            Step::Advance(id) => Step::Advance(*id),
            Step::Again(id) => Step::Again(*id),
            Step::Collect(name) => Step::Collect(*name),
            Step::AdvanceCollect(name) => Step::AdvanceCollect(*name),
            Step::Recon(name, wish) => Step::Recon(*name, *wish),
            Step::Rebid(name) => Step::Rebid(*name),
            Step::AdvanceRecon(name) => Step::AdvanceRecon(*name),
            Step::Stop(name) => Step::Stop(*name),
        })
    }
}

/// The change that a step means where that is quiet, and the name of its node.
pub fn quiet_of<Q: Quorums, L>(step: &StepOf<Q, L>) -> Option<(Name, Quiet<Q>)>
    ensures { result ≡ quiet_of step.now }
{
    match step {
        StepOf::Join(name, contacts) => Some((*name, Quiet::Join(*contacts))),
        StepOf::Again(id) => Some((id.name, Quiet::Again(*id))),
        StepOf::Collect(name) => Some((*name, Quiet::Collect)),
        StepOf::AdvanceCollect(name) => Some((*name, Quiet::AdvanceCollect)),
        StepOf::Recon(name, wish) => Some((*name, Quiet::Recon(*wish))),
        StepOf::Rebid(name) => Some((*name, Quiet::Rebid)),
        StepOf::AdvanceRecon(name) => Some((*name, Quiet::AdvanceRecon)),
        StepOf::Stop(name) => Some((*name, Quiet::Stop)),
        _ => None,
    }
}
