//! Steps are drawn from a book.
ghost use Rattle.std.specs.Prelude.{◌≡◌, ◌+◌, ◌++◌, [], length, Some, true, false};
ghost use mathlib.Core.List.{IsPrefix};
ghost use Rattle.rambo_run.specs.Legal.{IsLegal};

use crate::book::Book;
use crate::terms::Terms;
use rambo_names::Quorums;
use rambo_roll::Drawn;
use rambo_run::Step;

impl<J: Terms<Q>, Q: Quorums> Book<J, Q> {
    /// How many steps are at hand, since they weren't drawn.
    pub fn at_hand(&self) -> usize
        ensures { result + self.now.drawn ≡ length self.now.steps }
    {
        self.steps.at_hand()
    }

    /// A drawer's knowledge before anything was drawn.
    pub fn drawing(&mut self) -> Drawn<J, Step<Q>>
        ensures book { self.new ≡ self.old }
        ensures drawn { result ≡ [] }
    {
        self.steps.drawing()
    }

    /// Draws the steps at hand: they go to `into`, which is empty, and follow all that was drawn before. The list of all
    /// steps is unchanged, and none of them was refused in its turn. It takes constant time, and allocates nothing.
    ///
    /// False where another drawer has drawn since; then nothing is drawn.
    pub fn draw(&mut self, drawn: &mut Drawn<J, Step<Q>>, into: &mut Vec<Step<Q>>) -> bool
        requires endless { J.endless ≡ true }
        requires empty { into.old.items ≡ [] }
        ensures book { self.new ≡ record self.old { drawn = self.new.drawn } }
        ensures given { result ≡ true → (drawn.old ++ into.new.items ≡ self.old.steps) × (drawn.new ≡ self.old.steps) × (self.new.drawn ≡ length self.old.steps) }
        ensures same { result ≡ false → (self.new ≡ self.old) × (drawn.new ≡ drawn.old) × (into.new.items ≡ []) }
        ensures knows { length drawn.old ≡ self.old.drawn → result ≡ true }
        ensures begins { IsPrefix drawn.old self.old.steps }
        ensures founders { J.founders ≡ Some self.old.founders }
        ensures legal { IsLegal Q.system self.old.founders self.old.steps }
    {
        self.steps.draw(drawn, into)
    }
}
