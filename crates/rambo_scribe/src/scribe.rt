//! Steps are written as they are done.
ghost use Rattle.std.specs.Prelude.{◌≡◌, ◌⊎◌, [], Some, None, true, is_some, length, All};
ghost use mathlib.Core.List.{IsPrefix};
ghost use Rattle.rambo_scribe.specs.Traced.{HasWritten, KeepsTrace, taken_by};

use crate::fault::TraceFault;
use crate::kept::{Kept, keep};
use crate::metered::Metered;
use crate::starts::Starts;
use crate::writing::{write_first, write_last, write_next};
use crate::written::Written;
use rambo_archive::Durable;
use rambo_names::Weighted;
use rambo_post::{Drawn, Pass, Post, Shown, Terms};
use rambo_run::Step;
use rambo_tag::Replica;
use std::alloc::Global;
use std::marker::Model;
use std::sync::Wait;

/// What one thread has drawn from a post, and a writer to which the trace of just that was written.
///
/// Contracts see the steps that were drawn, the fault after which nothing more is written, and what the writer's medium keeps.
#[derive(Drop)]
pub struct Scribe<J: Terms<Weighted> + Starts, W: Durable + Drop> {
    drawn: Drawn<J, Step<Weighted>>,
    // The steps that were drawn last, and all that there were then.
    steps: Vec<Step<Weighted>>,
    shown: Shown<J, Weighted>,
    writer: Metered<W>,
    fault: Option<TraceFault>,
}

impl<J: Terms<Weighted> + Starts, W: Durable + Drop> Model for Scribe<J, W> {
    ghost use Rattle.std.specs.Prelude.{◌≡◌, true};
    ghost use Rattle.std.specs.Coded.{codes};
    ghost use Rattle.rambo_names.specs.Names.{names_code};
    ghost use Rattle.rambo_scribe.specs.Traced.{ScribeView, IsTrace, taken_by};

    ghost Value = { ScribeView };

    ghost coded = { Prim.hlevel (codes, names_code) };

    ghost view = { λ s. record { drawn = s.drawn; fault = s.fault; kept = W.kept s.writer.inner } };

    ghost invariant = { λ s. (J.endless ≡ true) × IsTrace J.founders J.before (taken_by W.taken W.failures s.writer.inner) s.drawn s.fault };
}

impl<J: Terms<Weighted> + Starts, W: Durable + Drop> Scribe<J, W> {
    /// Begins a trace of these founders, of which nothing was drawn. It allocates the first line alone.
    pub fn new<S: Replica, R: Wait>(
        rt: &R,
        alloc: Global,
        post: &Post<J, Weighted, S>,
        founders: Weighted,
        writer: W,
    ) -> Scribe<J, W>
        requires founders { J.founders ≡ Some founders }
        requires endless { J.endless ≡ true }
        requires before { taken_by W.taken W.failures writer ≡ J.before }
        ensures drawn { result.drawn ≡ [] }
    {
        let mut writer = Metered::new(writer);
        let fault = write_first(alloc, founders, &mut writer);
        Scribe {
            drawn: post.drawing(rt),
            steps: Vec::new(alloc),
            shown: post.nothing_shown(rt),
            writer,
            fault,
        }
    }

    /// Goes on with a trace of these founders, of which these steps were drawn and written. It allocates nothing.
    pub fn resumed<S: Replica, R: Wait>(
        rt: &R,
        alloc: Global,
        post: &Post<J, Weighted, S>,
        founders: Weighted,
        drawn: Drawn<J, Step<Weighted>>,
        writer: W,
    ) -> Scribe<J, W>
        requires founders { J.founders ≡ Some founders }
        requires endless { J.endless ≡ true }
        requires written { HasWritten J.before (taken_by W.taken W.failures writer) founders drawn None }
        ensures drawn { result.drawn ≡ drawn }
        ensures fault { result.fault ≡ None }
    {
        Scribe {
            drawn,
            steps: Vec::new(alloc),
            shown: post.nothing_shown(rt),
            writer: Metered::new(writer),
            fault: None,
        }
    }

    /// Why nothing more is written, if that is so.
    pub fn fault(&self) -> Option<TraceFault>
        ensures { result ≡ self.now.fault }
    {
        self.fault
    }

    /// How many bytes of the trace were written.
    pub fn bytes(&self) -> u64 {
        self.writer.count()
    }

    /// Draws the steps at hand, and writes them. How many there were. Where replies wait for what the medium keeps, it is then to
    /// keep all that was written, and the token says so. After a fault nothing is drawn.
    pub fn go_on<S: Replica, R: Wait>(
        &mut self,
        rt: &R,
        alloc: Global,
        post: &Post<J, Weighted, S>,
        kept: &mut Kept<J>,
    ) -> usize
        ensures faulty { is_some self.old.fault ≡ true → (self.new ≡ self.old) × (kept.new ≡ kept.old) }
        ensures kept { (kept.new ≡ kept.old) ⊎ ((kept.new ≡ self.new.drawn) × KeepsTrace J.founders J.before self.new.kept kept.new) }
        ensures count { J.syncs ≡ true → self.new.fault ≡ None → length kept.new ≡ length self.new.drawn }
    {
        if self.fault.is_some() {
            return 0;
        }
        self.steps.clear();
        if !post.draw(rt, &mut self.drawn, &mut self.steps, &mut self.shown) {
            self.fault = Some(TraceFault::Drawn);
            return 0;
        }
        let fault = write_next(alloc, self.steps.as_slice(), &mut self.writer);
        self.fault = keep(fault, &mut self.writer, &mut self.shown, kept);
        self.steps.len()
    }

    /// The post ends, and the rest of its steps is written. What was shown once begins them all.
    pub fn end<S: Replica>(
        self,
        alloc: Global,
        post: Post<J, Weighted, S>,
        passes: Vec<Pass<J, Weighted>>,
        once: Shown<J, Weighted>,
    ) -> Written<J, W>
        ensures all { All (λ p. IsPrefix p.seen result.all) passes.items }
        ensures drawn { IsPrefix self.drawn result.all }
        ensures once { IsPrefix once result.all }
    {
        let Scribe {
            drawn,
            steps: _steps,
            shown: _shown,
            mut writer,
            fault,
        } = self;
        let (seen, rest) = post.end(passes, drawn, once).into_parts();
        let fault = write_last(alloc, rest, &mut writer, fault);
        Written::new(seen, writer.into_inner(), fault)
    }
}
