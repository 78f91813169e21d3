//! The name of a node.
ghost use Rattle.std.specs.Prelude.{◌≡◌, ◌↔◌, IfOk, IfErr, ◌+◌, ◌<◌, ◌≤◌};
ghost use Rattle.rambo_names.specs.Names.{IsName};

use crate::refusal::Refusal;
use std::marker::Model;

/// The name of a node, a number from 1 to 64. Names are ordered by their numbers.
#[derive(Clone, Copy, PartialEq, Eq, PartialOrd, Ord, Hash, Debug)]
pub struct Name {
    number: u8,
}

impl Model for Name {
    ghost use Rattle.std.specs.Prelude.{ℕ, ◌≤◌};

    ghost Value = { ℕ };

    ghost view = { λ n. n.number };

    ghost invariant = { λ n. (1 ≤ n.number) × (n.number ≤ 64) };

    ghost inverse = { λ n. record { number = n } };
}

impl Name {
    /// The name of this number, 1 to 64.
    ///
    /// `NoSuchName` for any other number.
    pub fn new(number: u64) -> Result<Name, Refusal>
        ensures made { IfOk result (λ n. (n ≡ number) × IsName number) }
        ensures refused { IfErr result (λ r. (r ≡ Refusal.NoSuchName) × ¬ IsName number) }
    {
        if number < 1 || 64 < number {
            return Err(Refusal::NoSuchName);
        }
        Ok(Name {
            number: number as u8,
        })
    }

    /// The number of the name, 1 to 64.
    pub fn number(&self) -> u64
        ensures value { result ≡ self.now }
        ensures range { IsName result }
    {
        self.number as u64
    }

    // The name whose bit is at a place.
    pub(crate) fn at(place: u32) -> Name
        requires { place < 64 }
        ensures { result ≡ place + 1 }
    {
        Name {
            number: place as u8 + 1,
        }
    }
}
