//! What a front has seen of a book.
ghost use Rattle.std.specs.Prelude.{◌≡◌, [], Some, length, IfErr};
ghost use mathlib.Core.List.{IsPrefix};
ghost use Rattle.rambo_run.specs.Legal.{IsLegal};

use crate::book::Book;
use crate::terms::Terms;
use rambo_names::{Quorums, Refusal};
use rambo_roll::Front;
use rambo_run::Step;

impl<J: Terms<Q>, Q: Quorums> Book<J, Q> {
    /// Counts one pass more. `NoPassLeft` where 32 were counted.
    pub fn count_pass(&mut self) -> Result<(), Refusal>
        ensures book { self.new ≡ self.old }
        ensures refused { IfErr result (λ r. r ≡ Refusal.NoPassLeft) }
    {
        self.passes.count_one()
    }

    /// A front that has seen nothing.
    pub fn nothing(&mut self) -> Front<J, Step<Q>>
        ensures book { self.new ≡ self.old }
        ensures front { result ≡ [] }
    {
        self.steps.nothing()
    }

    /// A front that has seen what this one has.
    pub fn again(&self, seen: &mut Front<J, Step<Q>>) -> Front<J, Step<Q>>
        ensures seen { seen.new ≡ seen.old }
        ensures front { result ≡ seen.old }
    {
        self.steps.again(seen)
    }

    /// What was seen begins the steps. Returns how many these are.
    pub fn begun(&mut self, seen: &mut Front<J, Step<Q>>) -> usize
        ensures book { self.new ≡ self.old }
        ensures seen { seen.new ≡ seen.old }
        ensures begins { IsPrefix seen.old self.old.steps }
        ensures count { result ≡ length self.old.steps }
        ensures legal { IsLegal Q.system self.old.founders self.old.steps }
        ensures founders { J.founders ≡ Some self.old.founders }
        ensures capacity { self.old.capacity ≡ J.capacity }
    {
        self.steps.begins(seen);
        self.steps.len()
    }

    /// The front then has seen all steps. Returns how many they are.
    pub fn show(&mut self, seen: &mut Front<J, Step<Q>>) -> usize
        ensures book { self.new ≡ self.old }
        ensures seen { seen.new ≡ self.old.steps }
        ensures begins { IsPrefix seen.old self.old.steps }
        ensures count { result ≡ length self.old.steps }
        ensures legal { IsLegal Q.system self.old.founders self.old.steps }
        ensures founders { J.founders ≡ Some self.old.founders }
        ensures capacity { self.old.capacity ≡ J.capacity }
    {
        self.steps.begins(seen);
        *seen = self.steps.front();
        self.steps.len()
    }
}
