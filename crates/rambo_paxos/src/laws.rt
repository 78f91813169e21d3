//! What holds of every list of votes and attempts.
ghost use Rattle.rambo_paxos.specs.Moves.{OneConfigurationIsChosen};

use rambo_names::Quorums;

/// The law of votes and attempts, for readers and proofs; at run time it does nothing.
///
/// Nodes open attempts for one place, retry them, take offers, hear votes and advance by the quorums of one old
/// configuration, in any order. Each offer that is taken and each vote that is heard was held by its sender, then or
/// before, and a node whose advance chose does nothing more. Then any two configurations that are chosen are the same
/// (Lamport, "Paxos Made Simple", 2001).
pub fn one_configuration_is_chosen<Q: Quorums>()
    ensures one { OneConfigurationIsChosen Q.system }
{}
