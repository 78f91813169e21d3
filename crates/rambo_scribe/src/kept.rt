//! Steps whose trace the medium keeps.
ghost use Rattle.std.specs.Prelude.{◌≡◌, ◌<◌, ◌⊎◌, [], List, None, true, false, length};
ghost use mathlib.Core.List.{IsPrefix};
ghost use Rattle.rambo_archive.specs.Archives.{IsKept};
ghost use Rattle.rambo_names.specs.Weights.{Weights};
ghost use Rattle.rambo_node.specs.Steps.{Step};
ghost use Rattle.rambo_scribe.specs.Traced.{HasWritten, Taken, taken_by};

use crate::fault::TraceFault;
use crate::starts::Starts;
use rambo_archive::Durable;
use rambo_atomic::Failed;
use rambo_names::Weighted;
use rambo_post::{Pass, Post, Shown, Terms};
use rambo_tag::Replica;
use std::marker::Model;
use std::mem;
use std::sync::Wait;

/// Steps whose trace the medium keeps, as a token that a scribe gives. Where replies don't wait for the medium it has none, and
/// covers all.
#[derive(Drop)]
pub struct Kept<J: Terms<Weighted> + Starts> {
    shown: Shown<J, Weighted>,
    syncs: bool,
}

impl<J: Terms<Weighted> + Starts> Model for Kept<J> {
    ghost use Rattle.std.specs.Prelude.{◌≡◌, List};
    ghost use Rattle.std.specs.Coded.{codes};
    ghost use Rattle.rambo_names.specs.Names.{names_code};
    ghost use Rattle.rambo_names.specs.Weights.{Weights};
    ghost use Rattle.rambo_node.specs.Steps.{Step};

    ghost Value = { List (Step Weights) };

    ghost coded = { Prim.hlevel (codes, names_code) };

    ghost view = { λ k. k.shown };

    ghost invariant = { λ k. k.syncs ≡ J.syncs };
}

impl<J: Terms<Weighted> + Starts> Kept<J> {
    /// No step.
    pub fn none<S: Replica, R: Wait>(rt: &R, post: &Post<J, Weighted, S>, syncs: bool) -> Kept<J>
        requires { syncs ≡ J.syncs }
        ensures { result ≡ [] }
    {
        Kept {
            shown: post.nothing_shown(rt),
            syncs,
        }
    }

    /// The same steps once more.
    pub fn again<S: Replica, R: Wait>(&mut self, rt: &R, post: &Post<J, Weighted, S>) -> Kept<J>
        ensures same { self.new ≡ self.old }
        ensures again { result ≡ self.old }
    {
        Kept {
            shown: post.shown_again(rt, &mut self.shown),
            syncs: self.syncs,
        }
    }

    /// Whether replies wait for what the medium keeps.
    pub fn syncs(&self) -> bool
        ensures { result ≡ J.syncs }
    {
        self.syncs
    }

    /// How many steps they are.
    pub fn count(&self) -> usize
        ensures { result ≡ length self.now }
    {
        self.shown.count()
    }

    /// Whether all that a client has seen is kept, where replies wait for that.
    pub fn covers<S: Replica, R: Wait>(
        &mut self,
        rt: &R,
        post: &Post<J, Weighted, S>,
        pass: &mut Pass<J, Weighted>,
    ) -> bool
        ensures same { (self.new ≡ self.old) × (pass.new ≡ pass.old) }
        ensures all { result ≡ true → J.syncs ≡ true → IsPrefix pass.old.seen self.old }
        ensures more { result ≡ false → (J.syncs ≡ true) × (length self.old < length pass.old.seen) }
    {
        !self.syncs || post.has_shown(rt, &mut self.shown, pass)
    }

    // What was shown is kept now.
    fn replace(&mut self, shown: &mut Shown<J, Weighted>)
        ensures { self.new ≡ shown.old }
    {
        mem::swap(&mut self.shown, shown);
    }
}

// The medium is to keep all that was written, where replies wait for that, and the token then says that it keeps what was
// shown. After a fault nothing more is kept, nor where as much was kept before.
pub(crate) fn keep<J: Terms<Weighted> + Starts, W: Durable>(
    fault: Option<TraceFault>,
    writer: &mut W,
    shown: &mut Shown<J, Weighted>,
    kept: &mut Kept<J>,
) -> Option<TraceFault>
    ensures written { (before : Taken) (f : Weights) (steps : List (Step Weights)) → HasWritten before (taken_by W.taken W.failures writer.old) f steps fault
        → HasWritten before (taken_by W.taken W.failures writer.new) f steps result }
    ensures kept { (kept.new ≡ kept.old) ⊎ ((kept.new ≡ shown.old) × (result ≡ None) × IsKept (W.kept writer.new) (W.taken writer.new)) }
    ensures count { J.syncs ≡ true → result ≡ None → length kept.new ≡ length shown.old }
{
    if fault.is_some() || !kept.syncs || kept.count() == shown.count() {
        return fault;
    }
    match writer.sync() {
        Ok(()) => {
            kept.replace(shown);
            None
        }
        Err(Failed) => Some(TraceFault::Write),
    }
}
