//! A post is closed.
ghost use Rattle.std.specs.Prelude.{◌≡◌, ◌≤◌, Some, false, length, IfSome, All};
ghost use mathlib.Core.List.{IsPrefix};
ghost use Rattle.rambo_history.specs.Proper.{IsProperForAll};
ghost use Rattle.rambo_run.specs.Legal.{IsLegal};
ghost use Rattle.rambo_run.specs.Runs.{run, given_order};
ghost use Rattle.rambo_book.specs.Kept.{state};

use crate::left::Left;
use crate::pass::Pass;
use rambo_book::{Book, Terms};
use rambo_names::Quorums;
use rambo_roll::Front;
use rambo_run::Step;
use std::marker::Model;

/// A post that is closed, by its name: what it leaves, and the token of this name that has seen just these steps.
#[derive(Drop)]
pub struct Closed<J: Terms<Q>, Q: Quorums> {
    seen: Front<J, Step<Q>>,
    left: Left<Q>,
}

impl<J: Terms<Q>, Q: Quorums> Model for Closed<J, Q> {
    ghost use Rattle.std.specs.Coded.{codes};
    ghost use Rattle.rambo_names.specs.Names.{names_code};
    ghost use Rattle.rambo_pass.specs.Leavings.{IsClosed, LeftView};

    ghost Value = { LeftView Q };

    ghost coded = { Prim.hlevel (codes, names_code, Q.code) };

    ghost view = { λ c. c.left };

    ghost invariant = { λ c. IsClosed Q.system J.founders J.capacity c.seen c.left };
}

impl<J: Terms<Q>, Q: Quorums> Closed<J, Q> {
    /// What it leaves.
    pub fn into_left(self) -> Left<Q>
        ensures same { result ≡ self }
        ensures legal { (f : Q) → J.founders ≡ Some f → IsLegal Q.system f result.steps }
        ensures fits { length result.steps ≤ J.capacity }
        ensures order { IfSome result.order (λ o. (f : Q) → J.founders ≡ Some f → o ≡ given_order (run Q.system f result.steps)) }
        ensures explained { IfSome result.order (λ o. (f : Q) → J.founders ≡ Some f → IsProperForAll (run Q.system f result.steps).history o) }
    {
        let Closed { seen: _seen, left } = self;
        left
    }
}

// A token that has seen all steps.
fn all_seen<J: Terms<Q>, Q: Quorums>(book: &mut Book<J, Q>) -> Front<J, Step<Q>>
    ensures book { book.new ≡ book.old }
    ensures seen { result ≡ book.old.steps }
{
    let mut seen = book.nothing();
    let _count = book.show(&mut seen);
    seen
}

/// All steps, which what each client has seen begins, and the one order of the calls in them. The book isn't endless.
pub fn close_in<J: Terms<Q>, Q: Quorums>(
    mut book: Book<J, Q>,
    passes: Vec<Pass<J, Q>>,
) -> Closed<J, Q>
    requires { J.endless ≡ false }
    ensures founders { J.founders ≡ Some book.founders }
    ensures legal { IsLegal Q.system book.founders result.steps }
    ensures fits { length result.steps ≤ J.capacity }
    ensures all { result.steps ≡ book.steps }
    ensures begins { All (λ p. IsPrefix p.seen result.steps) passes.items }
    ensures order { IfSome result.order (λ o. o ≡ given_order (state Q.system book)) }
    ensures explained { IfSome result.order (λ o. IsProperForAll (state Q.system book).history o) }
{
    for mut pass in passes {
        pass.begins(&mut book);
    }
    let seen = all_seen(&mut book);
    let order = book.order().ok();
    Closed {
        seen,
        left: Left {
            steps: book.into_steps(),
            order,
        },
    }
}
