//! What a book leaves.
ghost use Rattle.std.specs.Prelude.{◌≡◌, ◌≤◌, Some, drop, false, length, IfOk, IfErr};
ghost use Rattle.rambo_history.specs.Proper.{IsProperForAll};
ghost use Rattle.rambo_run.specs.Legal.{IsLegal};
ghost use Rattle.rambo_run.specs.Runs.{given_order, run};
ghost use Rattle.rambo_book.specs.Kept.{state};

use crate::book::Book;
use crate::terms::Terms;
use rambo_history::{CallId, Event};
use rambo_names::{Quorums, Refusal};
use rambo_run::Step;

impl<J: Terms<Q>, Q: Quorums> Book<J, Q> {
    /// The calls and answers, in order. The book isn't endless.
    pub fn history(&self) -> &[Event]
        requires { J.endless ≡ false }
        ensures { result.now ≡ (run Q.system self.now.founders self.now.steps).history }
    {
        let Some(chronicle) = self.kept.chronicle() else {
            unreachable!()
        };
        chronicle.history().events()
    }

    /// One order of the calls of all keys, which explains their answers together: the one that the run of the steps gives.
    /// The book isn't endless.
    ///
    /// The time is that of `rambo_sequence::sequences`. `OutOfMemory` where there is no room for it.
    pub fn order(&self) -> Result<Vec<CallId>, Refusal>
        requires { J.endless ≡ false }
        ensures given { IfOk result (λ o. o.items ≡ given_order (state Q.system self.now)) }
        ensures explained { IfOk result (λ o. IsProperForAll (state Q.system self.now).history o.items) }
        ensures refused { IfErr result (λ r. r ≡ Refusal.OutOfMemory) }
    {
        let Some(chronicle) = self.kept.chronicle() else {
            unreachable!()
        };
        let alloc = chronicle.history().allocator();
        let sequences = chronicle.sequences(alloc)?;
        chronicle.order(alloc, sequences.as_slice())
    }

    /// The steps at hand: all of them where none was drawn.
    pub fn into_steps(self) -> Vec<Step<Q>>
        ensures founders { J.founders ≡ Some self.founders }
        ensures steps { result.items ≡ drop self.drawn self.steps }
        ensures undrawn { J.endless ≡ false → result.items ≡ self.steps }
        ensures legal { IsLegal Q.system self.founders self.steps }
        ensures fits { length self.steps ≤ J.capacity }
    {
        let Book {
            steps,
            founders: _,
            letters: _letters,
            kept: _kept,
            mails: _mails,
            passes: _,
            capacity: _,
            ahead: _,
        } = self;
        steps.into_at_hand()
    }
}
