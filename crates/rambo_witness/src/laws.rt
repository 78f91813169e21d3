//! What is true of every witness.
ghost use Rattle.rambo_witness.specs.Laws.{NoIsBroken, OneWitness, WitnessShows};

/// A witness shows that the order doesn't keep the rule, and so that it isn't proper.
pub fn witness_shows()
    ensures { WitnessShows }
{}

/// Where the verdict on an order is no, the order doesn't keep the rule that the verdict names.
pub fn no_is_broken()
    ensures { NoIsBroken }
{}

/// There is one first witness at most.
pub fn one_witness()
    ensures { OneWitness }
{}
