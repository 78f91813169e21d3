//! Weighted majorities.
ghost use Rattle.std.specs.Prelude.{◌≡◌, ◌≤◌, ◌*◌, true, false, nat_eq, if◌then◌else◌, cond, IsTrue, ◌↔◌, ℕ};
ghost use Rattle.std.specs.FinSet as set;
ghost use Rattle.rambo_names.specs.Names.{NameSet};
ghost use Rattle.std.proofs.Common.{lit≤};
ghost use Rattle.rambo_names.specs.Quorums.{is_majority};
ghost use Rattle.rambo_names.specs.Weights.{digit_put, evenly, weight_of, members_of, total, held, outweighs, weighted_majorities};
ghost use Rattle.rambo_names.specs.WeightLaws.{weighted_sound, same_weights-path};

use crate::majority::Majority;
use crate::members::Members;
use crate::name::Name;
use crate::quorums::Quorums;
use std::marker::Model;

/// A configuration by the weights of its members, 1 to 15: each set whose members weigh more than half of all is a
/// quorum.
///
/// A configuration with no member has no quorum. Any two quorums share a member.
// Kept as the sets of the names whose weight has a 1, a 2, a 4 and an 8 in it.
#[derive(Clone, Copy, PartialEq, Eq, Debug)]
pub struct Weighted {
    ones: Members,
    twos: Members,
    fours: Members,
    eights: Members,
}

impl Model for Weighted {
    ghost use Rattle.std.specs.Coded.{codes};
    ghost use Rattle.rambo_names.specs.Names.{names_code};
    ghost use Rattle.rambo_names.specs.Weights.{Weights};

    ghost Value = { Weights };

    ghost coded = { Prim.hlevel (codes, names_code) };

    ghost view = { λ w. record { ones = w.ones; twos = w.twos; fours = w.fours; eights = w.eights } };

    ghost inverse = { λ w. record { ones = w.ones; twos = w.twos; fours = w.fours; eights = w.eights } };
}

impl Weighted {
    /// Each of these members with weight 1: the quorums are those of `Majority`.
    pub fn of(members: Members) -> Self
        ensures even { result ≡ evenly members }
        ensures majority { (who : NameSet) → outweighs result who ≡ is_majority members who }
    {
        Weighted {
            ones: members,
            twos: Members::empty(),
            fours: Members::empty(),
            eights: Members::empty(),
        }
    }

    /// The weight of a name, 0 where it is no member.
    pub fn weight(&self, name: Name) -> u8
        ensures { result ≡ weight_of self.now name }
    {
        worth(self.ones, name, 1)
            + worth(self.twos, name, 2)
            + worth(self.fours, name, 4)
            + worth(self.eights, name, 8)
    }

    /// Gives a member another weight, 1 to 15, and says whether it did. If not, nothing changes.
    pub fn weigh(&mut self, name: Name, weight: u8) -> bool
        ensures told { IsTrue result ↔ ((set.contains (members_of self.old) name ≡ true) × (1 ≤ weight) × (weight ≤ 15)) }
        ensures changed { result ≡ true → (n : ℕ) → weight_of self.new n ≡ (if nat_eq n name then weight else weight_of self.old n) }
        ensures same { result ≡ false → self.new ≡ self.old }
    {
        if weight < 1 || 15 < weight || !self.members().has(name) {
            return false;
        }
        self.put(name, weight);
        true
    }

    // Gives a name this weight, 0 to 15, whether it is a member or not.
    pub(crate) fn put(&mut self, name: Name, weight: u8)
        requires { weight ≤ 15 }
        ensures { (n : ℕ) → weight_of self.new n ≡ (if nat_eq n name then weight else weight_of self.old n) }
    {
        self.ones = with_digit(self.ones, name, weight & 1 != 0);
        self.twos = with_digit(self.twos, name, weight & 2 != 0);
        self.fours = with_digit(self.fours, name, weight & 4 != 0);
        self.eights = with_digit(self.eights, name, weight & 8 != 0);
    }

    // What all members weigh.
    fn total(&self) -> u32
        ensures total { result ≡ total self.now }
        ensures bound { result ≤ 960 }
    {
        self.ones.count() + 2 * self.twos.count() + 4 * self.fours.count() + 8 * self.eights.count()
    }

    // What those weigh that are in a set.
    fn held(&self, who: Members) -> u32
        ensures held { result ≡ held self.now who }
        ensures bound { result ≤ 960 }
    {
        self.ones.intersection(who).count()
            + 2 * self.twos.intersection(who).count()
            + 4 * self.fours.intersection(who).count()
            + 8 * self.eights.intersection(who).count()
    }
}

impl Quorums for Weighted {
    ghost system = { weighted_majorities };

    ghost sound = { weighted_sound };

    ghost identical = { same_weights-path };

    ghost small = { lit≤ tt };

    fn members(&self) -> Members {
        self.ones
            .union(self.twos)
            .union(self.fours.union(self.eights))
    }

    fn is_quorum(&self, who: Members) -> bool {
        // (most configurations are even, and a majority is found by two counts in place of eight)
        if *self == Weighted::of(self.ones) {
            return Majority::of(self.ones).is_quorum(who);
        }
        2 * self.held(who) > self.total()
    }
}

// What a digit adds to the weight of a name.
fn worth(digit: Members, name: Name, value: u8) -> u8
    requires { value ≤ 8 }
    ensures worth { result ≡ cond (set.contains digit name) value 0 }
    ensures bound { result ≤ value }
{
    if digit.has(name) { value } else { 0 }
}

// The names of a digit, among which this one is or isn't.
fn with_digit(digit: Members, name: Name, holds: bool) -> Members
    ensures { result ≡ digit_put digit name holds }
{
    if holds {
        digit.with(name)
    } else {
        digit.without(name)
    }
}
