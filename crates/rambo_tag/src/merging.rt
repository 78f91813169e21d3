//! The laws of merging.
ghost use Rattle.rambo_tag.specs.Copies.{joined};
ghost use Rattle.rambo_tag.specs.Merging.{IsIdempotent, IsCommutative, IsAssociative, NeverLowers, TakesGreater, JoinsLogs};

/// Copies may be merged in any order and any number of times: the result is the same, and no copy is replaced by a
/// lesser one. Of each key the greater copy remains. Appending to a log of copies merges what is appended.
pub fn merging_laws()
    ensures idempotent { IsIdempotent joined }
    ensures commutative { IsCommutative joined }
    ensures associative { IsAssociative joined }
    ensures grows { NeverLowers joined }
    ensures greater { TakesGreater joined }
    ensures logs { JoinsLogs joined }
{}
