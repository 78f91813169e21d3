//! What a checker of orders says.
ghost use Rattle.std.specs.Prelude.{◌≡◌};

/// A rule that a proper order of the calls of one key keeps (Herlihy and Wing, "Linearizability", TOPLAS
/// 1990), by what is wrong where it is broken.
#[derive(Clone, Copy, PartialEq, Eq, Debug)]
pub enum Rule {
    /// An answered call of the key isn't in the order.
    Missing = 1,
    /// A call occurs twice.
    Repeated = 2,
    /// An entry is no call of the key, or is a get without an answer.
    Stranger = 3,
    /// A get's answer isn't the value of the latest set before it, or nil where there is none.
    WrongAnswer = 4,
    /// A call comes after one that was made after it was answered.
    OutOfOrder = 5,
}

impl Rule {
    ghost use Rattle.rambo_atomic.specs.Verdicts.{number_of};

    /// The number of the rule, from 1 to 5.
    pub fn number(self) -> u64
        ensures { result ≡ number_of self }
    {
        self as u64
    }
}

/// Whether an order explains a history of one key.
#[derive(Clone, Copy, PartialEq, Eq, Debug)]
pub enum Verdict {
    /// It keeps each rule.
    Yes,
    /// It doesn't, and this is the least rule that it breaks.
    No(Rule),
}
