//! How much a book holds.
ghost use Rattle.std.specs.Prelude.{◌≡◌, ◌+◌, ◌-◌, length};
ghost use Rattle.rambo_book.specs.Kept.{state};
ghost use Rattle.rambo_book.specs.Windows.{gone_of};

use crate::book::Book;
use crate::terms::Terms;
use rambo_names::Quorums;

/// How much a book holds.
#[derive(Clone, Copy, PartialEq, Eq, Debug)]
pub struct Counts {
    /// How many steps were taken.
    pub steps: usize,
    /// How many of them are at hand, since they weren't drawn.
    pub at_hand: usize,
    /// How many letters are kept.
    pub letters: usize,
    /// How many calls are kept until their answers are taken. In a book that isn't endless there are none of these, as it
    /// keeps all.
    pub calls: usize,
}

impl<J: Terms<Q>, Q: Quorums> Book<J, Q> {
    /// How much it holds.
    pub fn counts(&self) -> Counts
        ensures steps { result.steps ≡ length self.now.steps }
        ensures at_hand { result.at_hand + self.now.drawn ≡ length self.now.steps }
        ensures letters { result.letters ≡ length (state Q.system self.now).letters - gone_of J.endless J.capacity (state Q.system self.now) }
    {
        Counts {
            steps: self.steps.len(),
            at_hand: self.steps.at_hand(),
            letters: self.letters_kept(),
            calls: self.kept.count(),
        }
    }
}
