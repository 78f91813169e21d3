//! Majority quorums.
ghost use Rattle.std.specs.Prelude.{◌≡◌};
ghost use Rattle.std.proofs.Common.{lit≤};
ghost use Rattle.rambo_names.specs.Quorums.{majorities};
ghost use Rattle.rambo_names.specs.Majorities.{majorities_sound};
ghost use Rattle.rambo_names.specs.Same.{same_names-path};

use crate::members::Members;
use crate::quorums::Quorums;
use std::marker::Model;

/// A configuration by its members: each set that holds more than half of them is a quorum.
///
/// An empty configuration has no quorum. Any two majorities share a member, on which the register emulation of Attiya,
/// Bar-Noy and Dolev (JACM 1995) relies.
#[derive(Clone, Copy, PartialEq, Eq, Debug)]
pub struct Majority {
    members: Members,
}

impl Model for Majority {
    ghost use Rattle.rambo_names.specs.Names.{NameSet, names_code};

    ghost Value = { NameSet };

    ghost coded = { names_code };

    ghost view = { λ q. q.members };

    ghost inverse = { λ s. record { members = s } };
}

impl Majority {
    /// The majorities of these members.
    pub fn of(members: Members) -> Self
        ensures { result ≡ members }
    {
        Majority { members }
    }
}

impl Quorums for Majority {
    ghost system = { majorities };

    ghost sound = { majorities_sound };

    ghost identical = { same_names-path };

    ghost small = { lit≤ tt };

    fn members(&self) -> Members {
        self.members
    }

    fn is_quorum(&self, who: Members) -> bool {
        2 * self.members.intersection(who).count() > self.members.count()
    }
}
