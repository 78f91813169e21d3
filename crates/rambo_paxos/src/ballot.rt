//! Ballots.
ghost use Rattle.std.specs.Prelude.{◌≡◌};

use rambo_names::Name;

/// A ballot: a round, and the name of the proposer who opened it, ordered by round, then by name.
#[derive(Clone, Copy, PartialEq, Eq, Debug)]
pub struct Ballot {
    /// From 1 in what a proposer opens.
    pub round: u64,
    /// Who opened it.
    pub name: Name,
}

impl Ballot {
    ghost use Rattle.rambo_paxos.specs.Ballots.{ballot_lt, exceeds, is_below};

    /// Whether this ballot is the lesser one.
    pub fn is_before(&self, other: &Ballot) -> bool
        ensures { result ≡ ballot_lt self.now other.now }
    {
        self.round < other.round
            || (self.round == other.round && self.name.number() < other.name.number())
    }

    // Whether it is greater than a promised ballot, as any is where none was promised.
    pub(crate) fn exceeds(&self, promised: &Option<Ballot>) -> bool
        ensures { result ≡ exceeds self.now promised.now }
    {
        match promised {
            Some(promised) => promised.is_before(self),
            None => true,
        }
    }

    // Whether it is less than a promised ballot, if one was promised.
    pub(crate) fn is_below(&self, promised: &Option<Ballot>) -> bool
        ensures { result ≡ is_below self.now promised.now }
    {
        match promised {
            Some(promised) => self.is_before(promised),
            None => false,
        }
    }
}
