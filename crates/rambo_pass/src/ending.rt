//! A post whose steps are drawn ends.
ghost use Rattle.std.specs.Prelude.{◌≡◌, ◌≤◌, ◌++◌, Some, true, length, option_map, IfSome, IsSome, All};
ghost use mathlib.Core.List.{IsPrefix};
ghost use Rattle.rambo_run.specs.Legal.{IsLegal};

use crate::pass::Pass;
use rambo_book::{Book, Terms};
use rambo_names::Quorums;
use rambo_roll::{Drawn, Front};
use rambo_run::Step;
use std::marker::Model;

/// A post that has ended, by its name: the token of this name that has seen all its steps, and those that weren't drawn.
#[derive(Drop)]
pub struct Ended<J: Terms<Q>, Q: Quorums> {
    seen: Front<J, Step<Q>>,
    // None where another drawer has drawn.
    rest: Option<Vec<Step<Q>>>,
}

impl<J: Terms<Q>, Q: Quorums> Model for Ended<J, Q> {
    ghost use Rattle.std.specs.Prelude.{option_map};
    ghost use Rattle.std.specs.Coded.{codes};
    ghost use Rattle.rambo_names.specs.Names.{names_code};
    ghost use Rattle.rambo_pass.specs.Leavings.{EndedView, IsEnded};

    ghost Value = { EndedView Q };

    ghost coded = { Prim.hlevel (codes, names_code, Q.code) };

    ghost view = { λ e. record { all = e.seen; rest = option_map (λ r. r.items) e.rest } };

    ghost invariant = { λ e. IsEnded Q.system J.founders J.capacity e.seen };
}

impl<J: Terms<Q>, Q: Quorums> Ended<J, Q> {
    /// The token that has seen all steps, and those that weren't drawn, which is None where another drawer has drawn.
    pub fn into_parts(self) -> (Front<J, Step<Q>>, Option<Vec<Step<Q>>>)
        ensures seen { result.0 ≡ self.all }
        ensures rest { option_map (λ r. r.items) result.1 ≡ self.rest }
        ensures legal { (f : Q) → J.founders ≡ Some f → IsLegal Q.system f self.all }
        ensures fits { length self.all ≤ J.capacity }
    {
        let Ended { seen, rest } = self;
        (seen, rest)
    }
}

/// All steps of an endless book, and those that weren't drawn. What each client has seen begins all, and so does what was
/// drawn.
pub fn end_in<J: Terms<Q>, Q: Quorums>(
    mut book: Book<J, Q>,
    passes: Vec<Pass<J, Q>>,
    mut drawn: Drawn<J, Step<Q>>,
) -> Ended<J, Q>
    requires { J.endless ≡ true }
    ensures founders { J.founders ≡ Some book.founders }
    ensures legal { IsLegal Q.system book.founders result.all }
    ensures fits { length result.all ≤ J.capacity }
    ensures all { result.all ≡ book.steps }
    ensures rest { IfSome result.rest (λ r. drawn ++ r ≡ result.all) }
    ensures drawn { IsPrefix drawn result.all }
    ensures begins { All (λ p. IsPrefix p.seen result.all) passes.items }
    ensures whole { length drawn ≡ book.drawn → IsSome result.rest }
{
    book.facts();
    for mut pass in passes {
        pass.begins(&mut book);
    }
    let mut rest = Vec::new(book.allocator());
    let has_drawn = book.draw(&mut drawn, &mut rest);
    let mut seen = book.nothing();
    let _count = book.show(&mut seen);
    Ended {
        seen,
        rest: has_drawn.then_some(rest),
    }
}
