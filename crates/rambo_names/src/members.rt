//! Sets of names.
ghost use Rattle.std.specs.Prelude.{◌≡◌, ◌≤◌};
ghost use Rattle.std.specs.FinSet as set;
ghost use Rattle.std.specs.Iterator.{YieldsFirst, item_count};
ghost use Rattle.rambo_names.specs.Names.{same_names, names, count_of};
ghost use Rattle.rambo_names.specs.Same.{same_names-partial, same_names-equivalence};

use crate::name::Name;
use std::marker::Model;

/// A set of names.
// Kept as a mask whose lowest bit is name 1.
#[derive(Clone, Copy, Debug)]
pub struct Members {
    bits: u64,
}

impl Model for Members {
    ghost use Rattle.std.specs.Prelude.{◌<◌, ◌^◌};
    ghost use Rattle.std.specs.Ordering.{nat_cmp};
    ghost use Rattle.std.specs.FinSet as set;
    ghost use Rattle.std.specs.Coded.{coded_ℕ};

    ghost Value = { set.FinSet nat_cmp };

    ghost coded = { set.code coded_ℕ };

    ghost use Rattle.rambo_names.specs.Masks.{set_of, mask_of, mask_of-set_of};

    ghost view = { λ m. set_of m.bits };

    ghost invariant = { λ m. m.bits < 2 ^ 64 };

    ghost inverse = { λ s. record { bits = mask_of s } };

    ghost inverse_ok = { λ m h i. record { bits = mask_of-set_of m.bits h i } };
}

impl PartialEq for Members {
    ghost eq = { same_names };

    ghost laws = { same_names-partial };

    fn eq(&self, other: &Members) -> bool {
        self.bits == other.bits
    }
}

impl Eq for Members {
    ghost laws = { same_names-equivalence };
}

impl Members {
    /// The set of no names.
    pub fn empty() -> Self
        ensures { result ≡ set.empty }
    {
        Members { bits: 0 }
    }

    /// Whether a name is in the set.
    pub fn has(&self, name: Name) -> bool
        ensures { result ≡ set.contains self.now name }
    {
        (self.bits >> (name.number() - 1)) & 1 == 1
    }

    /// The set with one more name, or itself where it has the name.
    pub fn with(&self, name: Name) -> Self
        ensures { result ≡ set.insert self.now name }
    {
        Members {
            bits: self.bits | (1 << (name.number() - 1)),
        }
    }

    /// The set without a name, or itself where it doesn't have the name.
    pub fn without(&self, name: Name) -> Self
        ensures { result ≡ set.remove self.now name }
    {
        Members {
            bits: self.bits & !(1 << (name.number() - 1)),
        }
    }

    /// The names that are in either set.
    pub fn union(&self, other: Members) -> Self
        ensures { result ≡ set.union self.now other }
    {
        Members {
            bits: self.bits | other.bits,
        }
    }

    /// Whether each name of this set is in the other.
    pub fn is_subset(&self, other: Members) -> bool
        ensures { result ≡ set.is_subset self.now other }
    {
        self.bits & other.bits == self.bits
    }

    /// The names that are in both sets.
    pub fn intersection(&self, other: Members) -> Self
        ensures { result ≡ set.intersection self.now other }
    {
        Members {
            bits: self.bits & other.bits,
        }
    }

    /// How many names are in the set, 0 to 64.
    pub fn count(&self) -> u32
        ensures count { result ≡ count_of self.now }
        ensures bound { result ≤ 64 }
    {
        self.bits.count_ones()
    }

    /// The names of the set, in ascending order.
    pub fn iter(&self) -> MembersIter
        ensures { result ≡ names self.now }
    {
        MembersIter { bits: self.bits }
    }
}

/// The names of a set that an iteration has yet to give, the least first.
#[derive(Drop, Debug)]
pub struct MembersIter {
    bits: u64,
}

impl Model for MembersIter {
    ghost use Rattle.std.specs.Prelude.{List, ℕ, ◌<◌, ◌^◌};
    ghost use Rattle.rambo_names.specs.Masks.{names_from};

    ghost Value = { List ℕ };

    ghost view = { λ m. names_from 64 1 m.bits };

    ghost invariant = { λ m. m.bits < 2 ^ 64 };
}

impl Iterator for MembersIter {
    type Item = Name;

    ghost next_gives = { YieldsFirst (λ s. s) };

    ghost remaining = { item_count (λ s. s) };

    fn next(&mut self) -> Option<Name> {
        if self.bits == 0 {
            return None;
        }
        let place = self.bits.trailing_zeros();
        self.bits &= !(1 << place);
        Some(Name::at(place))
    }
}
