//! Configurations.
ghost use Rattle.std.specs.Prelude.{◌≡◌, ◌≤◌, true};
ghost use Rattle.rambo_names.specs.Quorums.{QuorumSystem, IsSound};
ghost use Rattle.rambo_names.specs.Room.{room_of};

use crate::members::Members;

/// A configuration: a set of members, and which sets of names contain a quorum of it.
///
/// Two laws hold of every configuration: any two quorums share a member of it, and a set that contains a quorum is one.
pub trait Quorums: Copy + Eq {
    ghost system: { QuorumSystem Self };

    /// The members.
    fn members(&self) -> Members
        ensures { result ≡ system.members self.now };

    /// Whether a set of names is a quorum. It may also have names that aren't members.
    fn is_quorum(&self, who: Members) -> bool
        ensures { result ≡ system.is_quorum self.now who };

    // The two laws.
    ghost sound: { IsSound system };

    // Configurations that compare as equal are identical.
    ghost identical: { (a b : Self) → Self.eq a b ≡ true → a ≡ b };

    // A configuration takes few bytes, so that what holds some of them, as a node does, has a size.
    ghost small: { room_of Self.row ≤ 4096 };
}
