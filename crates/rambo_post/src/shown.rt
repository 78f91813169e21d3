//! All steps as they were at a moment.
ghost use Rattle.std.specs.Prelude.{◌≡◌, ◌<◌, ◌++◌, [], Some, true, false, length};
ghost use mathlib.Core.List.{IsPrefix};
ghost use Rattle.rambo_run.specs.Legal.{IsLegal};

use crate::post::Post;
use rambo_book::{Book, Terms};
use rambo_names::Quorums;
use rambo_pass::Pass;
use rambo_roll::{Drawn, Front};
use rambo_run::Step;
use rambo_tag::Replica;
use std::marker::Model;
use std::sync::Wait;

/// All steps that there were at a moment, as a token that is no client's.
#[derive(Drop)]
pub struct Shown<J: Terms<Q>, Q: Quorums> {
    front: Front<J, Step<Q>>,
    count: usize,
}

impl<J: Terms<Q>, Q: Quorums> Model for Shown<J, Q> {
    ghost use Rattle.std.specs.Prelude.{◌≡◌, List, length};
    ghost use Rattle.std.specs.Coded.{codes};
    ghost use Rattle.rambo_names.specs.Names.{names_code};
    ghost use Rattle.rambo_node.specs.Steps.{Step as AnyStep};

    ghost Value = { List (AnyStep Q) };

    ghost coded = { Prim.hlevel (codes, names_code, Q.code) };

    ghost view = { λ s. s.front };

    ghost invariant = { λ s. s.count ≡ length s.front };
}

impl<J: Terms<Q>, Q: Quorums> Shown<J, Q> {
    /// How many they are.
    pub fn count(&self) -> usize
        ensures { result ≡ length self.now }
    {
        self.count
    }

    /// All steps of a book.
    pub(crate) fn all(book: &mut Book<J, Q>) -> Shown<J, Q>
        ensures book { book.new ≡ book.old }
        ensures all { result ≡ book.old.steps }
    {
        let mut front = book.nothing();
        let count = book.show(&mut front);
        Shown { front, count }
    }

    /// What was shown begins the steps of the book.
    pub(crate) fn begins(self, book: &mut Book<J, Q>)
        ensures book { book.new ≡ book.old }
        ensures begins { IsPrefix self book.old.steps }
    {
        let Shown { mut front, .. } = self;
        let _count = book.begun(&mut front);
    }

    // All steps of the book.
    fn see_all(&mut self, book: &mut Book<J, Q>)
        ensures book { book.new ≡ book.old }
        ensures all { self.new ≡ book.old.steps }
    {
        self.count = book.show(&mut self.front);
    }
}

impl<J: Terms<Q>, Q: Quorums, S: Replica> Post<J, Q, S> {
    /// No step. It allocates nothing.
    pub fn nothing_shown<R: Wait>(&self, rt: &R) -> Shown<J, Q>
        ensures { result ≡ [] }
    {
        Shown {
            front: self.book.lock(rt).nothing(),
            count: 0,
        }
    }

    /// The same steps once more. It allocates nothing.
    pub fn shown_again<R: Wait>(&self, rt: &R, from: &mut Shown<J, Q>) -> Shown<J, Q>
        ensures same { from.new ≡ from.old }
        ensures again { result ≡ from.old }
    {
        Shown {
            front: self.book.lock(rt).again(&mut from.front),
            count: from.count,
        }
    }

    /// Draws the steps at hand: they go to `into`, which is empty, and follow all that was drawn before. None of all these
    /// was refused in its turn, and they all are shown. It holds the book's lock for constant time, and allocates nothing.
    ///
    /// False where another drawer has drawn since; then nothing is drawn or shown.
    pub fn draw<R: Wait>(
        &self,
        rt: &R,
        drawn: &mut Drawn<J, Step<Q>>,
        into: &mut Vec<Step<Q>>,
        shown: &mut Shown<J, Q>,
    ) -> bool
        requires endless { J.endless ≡ true }
        requires empty { into.old.items ≡ [] }
        ensures given { result ≡ true → drawn.new ≡ drawn.old ++ into.new.items }
        ensures shown { result ≡ true → shown.new ≡ drawn.new }
        ensures legal { result ≡ true → (f : Q) → J.founders ≡ Some f → IsLegal Q.system f drawn.new }
        ensures same { result ≡ false → (drawn.new ≡ drawn.old) × (into.new.items ≡ []) × (shown.new ≡ shown.old) }
    {
        draw_in(&mut self.book.lock(rt), drawn, into, shown)
    }

    /// Whether a client has seen no step but those that were shown. It allocates nothing.
    pub fn has_shown<R: Wait>(&self, rt: &R, shown: &mut Shown<J, Q>, pass: &mut Pass<J, Q>) -> bool
        ensures same { (shown.new ≡ shown.old) × (pass.new ≡ pass.old) }
        ensures all { result ≡ true → IsPrefix pass.old.seen shown.old }
        ensures more { result ≡ false → length shown.old < length pass.old.seen }
    {
        if shown.count < pass.count() {
            return false;
        }
        begin_both(&mut self.book.lock(rt), shown, pass);
        true
    }
}

// Draws the steps of a book that are at hand, and shows them all.
fn draw_in<J: Terms<Q>, Q: Quorums>(
    book: &mut Book<J, Q>,
    drawn: &mut Drawn<J, Step<Q>>,
    into: &mut Vec<Step<Q>>,
    shown: &mut Shown<J, Q>,
) -> bool
    requires endless { J.endless ≡ true }
    requires empty { into.old.items ≡ [] }
    ensures founders { J.founders ≡ Some book.old.founders }
    ensures legal { IsLegal Q.system book.old.founders book.old.steps }
    ensures given { result ≡ true → drawn.old ++ into.new.items ≡ book.old.steps }
    ensures drawn { result ≡ true → drawn.new ≡ book.old.steps }
    ensures shown { result ≡ true → shown.new ≡ book.old.steps }
    ensures same { result ≡ false → (drawn.new ≡ drawn.old) × (into.new.items ≡ []) × (shown.new ≡ shown.old) }
{
    if !book.draw(drawn, into) {
        return false;
    }
    shown.see_all(book);
    true
}

// What was shown and what a client has seen both begin the steps of a book.
fn begin_both<J: Terms<Q>, Q: Quorums>(
    book: &mut Book<J, Q>,
    shown: &mut Shown<J, Q>,
    pass: &mut Pass<J, Q>,
)
    ensures same { (shown.new ≡ shown.old) × (pass.new ≡ pass.old) }
    ensures begins { IsPrefix shown.old book.old.steps × IsPrefix pass.old.seen book.old.steps }
{
    pass.begins(book);
    let _count = book.begun(&mut shown.front);
}
