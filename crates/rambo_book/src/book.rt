//! The list of all steps, with the letters that were sent last, and what is kept of the calls and answers.
ghost use Rattle.std.specs.Prelude.{◌≡◌, ◌+◌, ◌-◌, ◌++◌, ◌<◌, ◌≤◌, [], length, None, Some, is_some, true, false, not, IfSome};
ghost use Rattle.std.specs.Option.{option_copied};
ghost use Rattle.rambo_history.specs.Histories.{answer_in};
ghost use Rattle.rambo_mail.specs.Waiting.{numbers_of};
ghost use Rattle.rambo_book.specs.Kept.{IsLetterOf, IsServedBy, Told, state};
ghost use Rattle.rambo_book.specs.Windows.{delivers_gone, gone_of, is_gone};
ghost use Rattle.rambo_roll.specs.Rolls.{Idle};
ghost use Rattle.rambo_run.specs.Actors.{actor};
ghost use Rattle.rambo_run.specs.Runs.{run};
ghost use Rattle.rambo_node.specs.Acts.{Meant};
ghost use Rattle.rambo_run.specs.Steps.{meant};
ghost use Rattle.rambo_run.specs.Worlds.{letter_at, node_at};
ghost use Rattle.rambo_run.specs.Legal.{IsLegal};

use crate::keeper::{Actor, Keeper};
use crate::letters::{Letters, window_for};
use crate::passes::Passes;
use crate::record::Record;
use crate::terms::Terms;
use rambo_gossip::Letter;
use rambo_history::{Answer, CallId};
use rambo_mail::Mails;
use rambo_names::{Name, Quorums, Refusal};
use rambo_roll::{Drawn, Roll, Stock};
use rambo_run::Step;
use rambo_tag::Replica;
use std::alloc::Global;
use std::marker::Model;

/// All steps, as many as its capacity at most. Those that were drawn take no memory here.
#[derive(Drop)]
pub struct Book<J: Terms<Q>, Q: Quorums> {
    pub(crate) steps: Stock<J, Step<Q>, Actor>,
    pub(crate) founders: Q,
    pub(crate) letters: Letters<Q>,
    pub(crate) kept: Record,
    pub(crate) mails: Mails,
    pub(crate) passes: Passes,
    pub(crate) capacity: usize,
    // How many steps are at hand at most.
    pub(crate) ahead: usize,
}

impl<J: Terms<Q>, Q: Quorums> Model for Book<J, Q> {
    ghost use Rattle.std.specs.Prelude.{◌≡◌};
    ghost use Rattle.std.specs.Coded.{codes};
    ghost use Rattle.rambo_names.specs.Names.{names_code};
    ghost use Rattle.rambo_mail.specs.Waiting.{numbers_of};
    ghost use Rattle.rambo_book.specs.Kept.{BookView, IsBook};

    ghost Value = { BookView Q };

    ghost coded = { Prim.hlevel (codes, names_code, Q.code) };

    ghost view = { λ b. record { founders = b.founders; steps = b.steps.all; drawn = b.steps.drawn; capacity = b.capacity; ahead = b.ahead; waiting = numbers_of b.mails.waiting; lose = b.mails.lose; twice = b.mails.twice } };

    ghost invariant = { λ b. IsBook Q.system J.founders J.capacity J.endless b.founders b.steps.all b.letters b.kept b.capacity b.steps.drawn b.ahead × (b.mails.lose ≡ J.lose) × (b.mails.twice ≡ J.twice) };
}

impl<J: Terms<Q>, Q: Quorums> Book<J, Q> {
    /// The book of no step. At most `ahead` steps are at hand at once. Where it isn't endless it keeps all letters, calls and
    /// answers, and else the last 16,384 letters, and the calls whose answers weren't taken.
    pub fn new(
        alloc: Global,
        founders: Q,
        capacity: usize,
        ahead: usize,
        keeps_all: bool,
        roll: Roll<J, Step<Q>, Actor>,
        mails: Mails,
    ) -> Book<J, Q>
        requires roll { roll.1 ≡ [] }
        requires founders { J.founders ≡ Some founders }
        requires capacity { capacity ≡ J.capacity }
        requires keeps_all { keeps_all ≡ not J.endless }
        requires lose { mails.lose ≡ J.lose }
        requires twice { mails.twice ≡ J.twice }
        ensures { result ≡ record { founders = founders; steps = []; drawn = 0; capacity = capacity; ahead = ahead; waiting = numbers_of mails.waiting; lose = mails.lose; twice = mails.twice } }
    {
        Book {
            steps: Stock::new(alloc, roll),
            founders,
            letters: Letters::new(alloc, window_for(keeps_all, capacity)),
            kept: Record::new(alloc, keeps_all),
            mails,
            passes: Passes::none(),
            capacity,
            ahead,
        }
    }

    /// Whose keeper's step a step is, by the keeper's place among the 64: the first for a letter that was never sent, and
    /// any one for a letter that is gone, as nobody knows whose it was. `commit` refuses that.
    pub fn place_of(&self, step: &Step<Q>) -> usize
        ensures within { result < 64 }
        ensures own { delivers_gone (gone_of J.endless J.capacity (state Q.system self.now)) step.now ≡ false → (m : Meant Q) → meant (state Q.system self.now) step.now ≡ Some m → result ≡ m.name - 1 }
        ensures other { meant (state Q.system self.now) step.now ≡ None → result ≡ 0 }
    {
        match self.letters.named_by(step) {
            Some(name) => name.number() as usize - 1,
            None => 0,
        }
    }

    /// Whether a step is of the node of this name, or of none. Each name serves for a letter that is gone.
    pub fn serves(&self, step: &Step<Q>, name: Name) -> bool
        ensures served { result ≡ true → delivers_gone (gone_of J.endless J.capacity (state Q.system self.now)) step.now ≡ false → IsServedBy (state Q.system self.now) step.now name }
        ensures unserved { IsServedBy (state Q.system self.now) step.now name → result ≡ true }
        ensures gone { delivers_gone (gone_of J.endless J.capacity (state Q.system self.now)) step.now ≡ true → result ≡ true }
    {
        match self.letters.named_by(step) {
            Some(own) => own == name,
            None => true,
        }
    }

    /// What holds of every book: its terms, and that none of its steps was refused in its turn.
    pub fn facts(&self)
        ensures founders { J.founders ≡ Some self.now.founders }
        ensures capacity { self.now.capacity ≡ J.capacity }
        ensures lose { self.now.lose ≡ J.lose }
        ensures twice { self.now.twice ≡ J.twice }
        ensures fits { length self.now.steps ≤ self.now.capacity }
        ensures few { length self.now.steps ≤ self.now.drawn + self.now.ahead }
        ensures undrawn { J.endless ≡ false → self.now.drawn ≡ 0 }
        ensures legal { IsLegal Q.system self.now.founders self.now.steps }
        ensures kept { J.endless ≡ false → gone_of J.endless J.capacity (state Q.system self.now) ≡ 0 }
    {
        let _ = &self.steps;
    }

    /// What a keeper has seen begins the steps, and none of the rest is of its name. So its node is the one that the
    /// steps give, whatever happened before. Both are unchanged, and it allocates nothing.
    pub fn agree<S: Replica>(&mut self, keeper: &mut Keeper<J, Q, S>)
        ensures same { (self.new ≡ self.old) × (keeper.new ≡ keeper.old) }
        ensures idle { Idle actor keeper.old.name keeper.old.seen self.old.steps }
        ensures node { node_at (state Q.system self.old) keeper.old.name ≡ Some keeper.old.node }
    {
        self.steps.agree(&mut keeper.holder);
    }

    /// The allocator of what belongs to the book.
    pub fn allocator(&self) -> Global {
        self.letters.allocator()
    }

    /// How many letters were sent.
    pub fn letters_sent(&self) -> usize
        ensures { result ≡ length (state Q.system self.now).letters }
    {
        let _steps = self.steps.len();
        self.letters.sent()
    }

    /// How many of them are kept: those that were sent last.
    pub fn letters_kept(&self) -> usize
        ensures { result ≡ length (state Q.system self.now).letters - gone_of J.endless J.capacity (state Q.system self.now) }
    {
        self.letters.count()
    }

    /// The letter of a number as it is stored, if it was sent and isn't gone. It represents that of its number in the run of
    /// the steps, and may leave out copies that its addressee holds there.
    pub fn letter(&self, number: u64) -> Option<&Letter<Q>>
        ensures sent { IfSome result (λ l. IsLetterOf (state Q.system self.now) number l.now) }
        ensures none { result ≡ None → is_gone (gone_of J.endless J.capacity (state Q.system self.now)) number ≡ false → letter_at (state Q.system self.now).letters number ≡ None }
        ensures gone { is_gone (gone_of J.endless J.capacity (state Q.system self.now)) number ≡ true → result ≡ None }
    {
        self.letters.of(number)
    }

    // Whether a step delivers a letter that is gone.
    pub(crate) fn has_gone(&self, step: &Step<Q>) -> bool
        ensures { result ≡ delivers_gone (gone_of J.endless J.capacity (state Q.system self.now)) step.now }
    {
        self.letters.has_gone(step)
    }

    /// The answer of a call, if it has one. None where nothing is kept of the call any more, as its answer was taken or it
    /// was given up.
    pub fn answer(&self, id: &CallId) -> Option<Option<&Answer>>
        ensures answer { IfSome result (λ a. option_copied a ≡ answer_in (state Q.system self.now).history id.now) }
        ensures kept { J.endless ≡ false → is_some result ≡ true }
    {
        self.kept.answer(id)
    }

    /// Nothing needs be kept of a call any more.
    pub fn forget(&mut self, id: &CallId)
        ensures { self.new ≡ self.old }
    {
        self.kept.forget(id);
    }

    /// The refusal where there is no room for a step: that the book is full where it is, else out of memory.
    pub fn no_room(&self) -> Refusal
        ensures told { Told None (length self.now.steps) self.now.capacity result }
        ensures founders { J.founders ≡ Some self.now.founders }
        ensures capacity { self.now.capacity ≡ J.capacity }
        ensures legal { IsLegal Q.system self.now.founders self.now.steps }
    {
        if self.steps.len() >= self.capacity {
            Refusal::HistoryFull
        } else {
            Refusal::OutOfMemory
        }
    }
}
