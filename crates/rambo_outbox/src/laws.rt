//! What holds of every outbox.
ghost use Rattle.rambo_outbox.specs.Laws.{HoldsNobodyBack, SomebodyLooksAgain, FewReminders, EachHasItsTurn, FirstIsAsked, OnlyReached};

use rambo_names::Quorums;

/// An entry whose call isn't open any more changes neither whom a node writes to nor when it looks again.
pub fn holds_nobody_back<Q: Quorums>()
    ensures { HoldsNobodyBack Q.system }
{}

/// While somebody wishes for something there is a time at which the node looks again, a second from now at the latest.
pub fn somebody_looks_again<Q: Quorums>()
    ensures { SomebodyLooksAgain Q.system }
{}

/// Whoever comes and goes, a node asks for all again at most once in 20 milliseconds. But for 53 times it does so at most once a
/// second, and 53 more for each time that something went on.
pub fn few_reminders<Q: Quorums>()
    ensures { FewReminders Q.system }
{}

/// In as many successive turns as a configuration has members that may be written to, each of them has one. Then it is the
/// first that is asked, unless it was silent lately.
pub fn each_has_its_turn<Q: Quorums>()
    ensures turn { EachHasItsTurn Q.system }
    ensures asked { FirstIsAsked Q.system }
{}

/// Only who may be written to is asked or owed a letter, and never the node itself.
pub fn only_reached<Q: Quorums>()
    ensures { OnlyReached Q.system }
{}
