//! The gets of one key by what they were answered.
ghost use Rattle.std.specs.Prelude.{◌≡◌, ◌++◌, ◌∷◌, [], ℕ, List, Option, IfOk, IfErr, OnOk, if◌then◌else◌, filter};
ghost use Rattle.std.specs.Option.{option_copied};
ghost use Rattle.rambo_history.specs.Histories.{answer_in};
ghost use Rattle.rambo_atomic.specs.Tests.{tells};
ghost use Rattle.rambo_placing.specs.Tables.{told_at};

use crate::gets::add;
use indexmap::IndexMap;
use rambo_history::{Answer, CallId, History};
use rambo_names::{Bytes, Refusal};
use std::alloc::Global;

/// The gets of one key by what they were answered, each as they were called.
#[derive(Drop)]
pub(crate) struct Readers {
    // Those that were answered nil.
    nil: Vec<CallId>,
    // Those that were answered a value.
    told: IndexMap<Bytes, Vec<CallId>>,
}

impl Readers {
    /// Those of these gets that were answered.
    ///
    /// `OutOfMemory` where there is no room for them.
    pub(crate) fn of(history: &History, gets: &[CallId]) -> Result<Readers, Refusal>
        ensures readers { IfOk result (λ readers. (held : Option (List ℕ)) → told_at readers held ≡ filter (λ c. tells held (answer_in history.now.events c)) gets.now) }
        ensures refused { IfErr result (λ r. r ≡ Refusal.OutOfMemory) }
    {
        let alloc = history.allocator();
        let mut readers = Readers::new(alloc);
        for id in gets {
            readers.note(alloc, history.answer(id), *id)?;
        }
        Ok(readers)
    }

    // None.
    fn new(alloc: Global) -> Readers
        ensures { (held : Option (List ℕ)) → told_at result held ≡ [] }
    {
        Readers {
            nil: Vec::new(alloc),
            told: IndexMap::new(alloc),
        }
    }

    // Notes a get, if it was answered.
    fn note(&mut self, alloc: Global, answer: Option<&Answer>, id: CallId) -> Result<(), Refusal>
        ensures noted { OnOk result ((held : Option (List ℕ)) → told_at self.new held ≡ (if tells held (option_copied answer.entry) then told_at self.old held ++ id ∷ [] else told_at self.old held)) }
        ensures refused { IfErr result (λ r. r ≡ Refusal.OutOfMemory) }
    {
        match answer {
            Some(Answer::Nil) => self.nil.push(id)?,
            Some(Answer::Value(value)) => add(alloc, &mut self.told, value, id)?,
            Some(Answer::Ok) | None => {}
        }
        Ok(())
    }

    /// Those that were answered what a key holds: this value, or nil where it holds none.
    pub(crate) fn get(&self, held: Option<&Bytes>) -> &[CallId]
        ensures { result.now ≡ told_at self.now (option_copied held.entry) }
    {
        let Some(value) = held else {
            return self.nil.as_slice();
        };
        match self.told.get(value) {
            Some(calls) => calls.as_slice(),
            None => &[],
        }
    }
}
