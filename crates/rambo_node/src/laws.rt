//! What holds of every change.
ghost use Rattle.rambo_node.specs.Claims.{CausesRise, FirstIsLeast, ShortLettersAreHeardAlike, LettersAreHeardByKey, ShortIsHeardAsWhole};

use rambo_names::Quorums;

/// The causes of refusal of each change are listed in ascending order of number. So the first one that holds has the
/// least number of those that hold, and it is the one that is reported.
///
/// A letter with other copies is heard alike where merging these gives the same registers, as a whole or key by key. It
/// may leave out what its addressee already holds: a short letter is then heard as the whole one.
pub fn changing_laws<Q: Quorums>()
    ensures rise { CausesRise Q }
    ensures least { FirstIsLeast }
    ensures joined { ShortLettersAreHeardAlike Q }
    ensures keys { LettersAreHeardByKey Q }
    ensures short { ShortIsHeardAsWhole Q }
{}
