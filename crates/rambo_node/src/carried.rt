//! How much the letters of a node carry.

use rambo_gossip::LetterOutline;
use rambo_names::Quorums;

// So many copies cost about as much to hear again as a step does without a letter.
const MANY: usize = 8;

/// How many copies the letters of a node carried since its phase number last rose.
#[derive(Clone, Copy)]
pub(crate) struct Carried {
    number: u64,
    copies: usize,
}

impl Carried {
    /// None.
    pub(crate) fn new() -> Carried {
        Carried {
            number: 0,
            copies: 0,
        }
    }

    /// Counts the copies that a letter of this outline carries.
    pub(crate) fn add<Q: Quorums>(&mut self, outline: &LetterOutline<'_, Q>, copies: usize) {
        let Some(gossip) = &outline.gossip else {
            return;
        };
        if gossip.number != self.number {
            *self = Carried {
                number: gossip.number,
                copies: 0,
            };
        }
        self.copies = self.copies.saturating_add(copies);
    }

    /// Whether they are so many that a call would have cost less.
    pub(crate) fn are_many(&self) -> bool {
        self.copies >= MANY
    }
}
