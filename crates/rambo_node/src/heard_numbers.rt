//! The phase numbers that a node heard of others.
ghost use Rattle.std.specs.Prelude.{◌≡◌, replicate};
ghost use Rattle.rambo_node.specs.Nodes.{heard_from, raised};

use rambo_names::Name;
use std::marker::Model;

/// Of each name the greatest phase number that was heard, 0 at first.
#[derive(Drop)]
pub(crate) struct HeardNumbers {
    // Name n is at place n - 1.
    numbers: [u64; 64],
}

impl Model for HeardNumbers {
    ghost use Rattle.std.specs.Prelude.{List, ℕ};

    ghost Value = { List ℕ };

    ghost view = { λ h. h.numbers };
}

impl HeardNumbers {
    /// Nothing was heard of any name.
    pub(crate) fn new() -> HeardNumbers
        ensures { result ≡ replicate 64 0 }
    {
        HeardNumbers { numbers: [0; 64] }
    }

    /// The greatest number that was heard of a name.
    pub(crate) fn of(&self, name: Name) -> u64
        ensures { result ≡ heard_from self.now name }
    {
        self.numbers[name.number() as usize - 1]
    }

    /// Hears a number of a name.
    pub(crate) fn raise(&mut self, name: Name, number: u64)
        ensures { self.new ≡ raised self.old name number }
    {
        let place = name.number() as usize - 1;
        self.numbers[place] = self.numbers[place].max(number);
    }
}
