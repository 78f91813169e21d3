//! Letters before they are stored.

use rambo_gossip::LetterOutline;
use rambo_names::Quorums;
use std::marker::Model;

/// A letter without its copies, which are a prefix of its sender's log.
#[derive(Drop)]
pub struct Outline<'a, Q: Quorums> {
    /// The letter, without copies.
    pub letter: LetterOutline<'a, Q>,
    /// The length of that prefix.
    pub told: usize,
}

impl<'a, Q: Quorums> Model for Outline<'a, Q> {
    ghost use Rattle.std.specs.Coded.{codes};
    ghost use Rattle.rambo_names.specs.Names.{names_code};
    ghost use Rattle.rambo_tag.specs.Copies.{copies_code};
    ghost use Rattle.rambo_letters.specs.Kept.{SentState};

    ghost Value = { SentState Q };

    ghost coded = { Prim.hlevel (codes, names_code, copies_code, Q.code) };

    ghost view = { λ o. record { letter = o.letter; told = o.told } };
}
