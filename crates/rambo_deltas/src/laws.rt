//! What holds of the stamps and bases of every run, and of short letters.
ghost use Rattle.rambo_deltas.specs.Alike.{ShortLettersAreReplayedAlike};
ghost use Rattle.rambo_deltas.specs.Bases.{OldCopiesAreHeld};
ghost use Rattle.rambo_deltas.specs.Deltas.{FullNodesAreNodes, StampsAreNumbers, BasesAreCarried, DeltasAreShort, LaterToo};

use rambo_names::Quorums;

/// A node's base for another is the greatest heard number that letters of the other carried to it. A copy that the node
/// last changed in a step before which its phase number was below that base is at most what the other holds of the key.
/// The other had heard of a later number, and so of all that the node held when it took that number.
pub fn old_copies_are_held<Q: Quorums>()
    ensures held { OldCopiesAreHeld Q.system }
{}

/// Each stamp of a node of a run is its phase number before the step that last changed the copy. Apart from its stamps
/// and bases, it is the node of the run.
pub fn stamps_are_numbers<Q: Quorums>()
    ensures nodes { FullNodesAreNodes Q.system }
    ensures stamps { StampsAreNumbers Q.system }
{}

/// Each base of a node of a run is the greatest heard number that letters of that name carried to it.
pub fn bases_are_carried<Q: Quorums>()
    ensures carried { BasesAreCarried Q.system }
{}

/// In a letter to another node, the copies since the base for that node are enough in place of all: what the letter
/// leaves out, its addressee holds. That holds at each later moment too, however late the letter comes and however
/// often.
pub fn deltas_are_short<Q: Quorums>()
    ensures short { DeltasAreShort Q.system }
    ensures later { LaterToo Q.system }
{}

/// A node that hears a short letter becomes what it becomes by the whole one, with its stamps and bases.
pub fn short_letters_are_replayed_alike<Q: Quorums>()
    ensures alike { ShortLettersAreReplayedAlike Q }
{}
