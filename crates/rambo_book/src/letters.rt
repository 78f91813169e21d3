//! The letters that were sent last.
ghost use Rattle.std.specs.Prelude.{◌≡◌, ◌+◌, ◌≤◌, ◌<◌, ◌^◌, ◌++◌, ◌∷◌, [], drop, length, not, OnOk, IfErr};
ghost use Rattle.std.specs.Option.{option_copied};
ghost use Rattle.rambo_node.specs.Acts.{meant_by, name_in};
ghost use Rattle.rambo_book.specs.Kept.{lightened};
ghost use Rattle.rambo_book.specs.Windows.{among, beyond, delivers_gone, is_gone, kept_at, kept_in, window_of};

use rambo_gossip::Letter;
use rambo_names::{Name, Quorums, Refusal};
use rambo_run::Step;
use std::alloc::Global;
use std::collections::VecDeque;
use std::marker::Model;

/// So many of the letters that were sent last an endless book keeps.
const WINDOW: usize = 16_384;

/// How many letters a book of so many steps keeps, whether it keeps all or doesn't.
pub(crate) fn window_for(keeps_all: bool, capacity: usize) -> usize
    ensures { result ≡ window_of (not keeps_all) capacity }
{
    if keeps_all { capacity } else { WINDOW }
}

/// The letters that were sent last, as many as a window lets in; those before them are gone.
///
/// Contracts see how many are gone, the others, how many these are at most once it is trimmed, and for how many more there
/// is room.
#[derive(Drop)]
pub(crate) struct Letters<Q: Quorums> {
    gone: usize,
    kept: VecDeque<Letter<Q>>,
    window: usize,
}

impl<Q: Quorums> Model for Letters<Q> {
    ghost use Rattle.std.specs.Prelude.{◌-◌};
    ghost use Rattle.std.specs.Coded.{codes};
    ghost use Rattle.std.specs.VecDeque.{deque_len, deque_capacity};
    ghost use Rattle.rambo_names.specs.Names.{names_code};
    ghost use Rattle.rambo_tag.specs.Copies.{copies_code};
    ghost use Rattle.rambo_book.specs.Windows.{LettersView};

    ghost Value = { LettersView Q };

    ghost coded = { Prim.hlevel (codes, names_code, copies_code, Q.code) };

    ghost view = { λ l. record { gone = l.gone; kept = l.kept.items; window = l.window; room = deque_capacity l.kept - deque_len l.kept } };
}

impl<Q: Quorums> Letters<Q> {
    /// No letter. It allocates nothing.
    pub(crate) fn new(alloc: Global, window: usize) -> Letters<Q>
        ensures gone { result.gone ≡ 0 }
        ensures kept { result.kept ≡ [] }
        ensures window { result.window ≡ window }
    {
        Letters {
            gone: 0,
            kept: VecDeque::new(alloc),
            window,
        }
    }

    /// The allocator of the letters.
    pub(crate) fn allocator(&self) -> Global {
        *self.kept.allocator()
    }

    /// How many are gone.
    pub(crate) fn gone(&self) -> usize
        ensures { result ≡ self.now.gone }
    {
        self.gone
    }

    /// How many are kept.
    pub(crate) fn count(&self) -> usize
        ensures { result ≡ length self.now.kept }
    {
        self.kept.len()
    }

    /// How many were sent.
    pub(crate) fn sent(&self) -> usize
        requires { self.now.gone + length self.now.kept < 2 ^ 64 }
        ensures { result ≡ self.now.gone + length self.now.kept }
    {
        self.gone + self.kept.len()
    }

    /// Whether the letter of a number is gone.
    pub(crate) fn is_gone(&self, number: u64) -> bool
        ensures { result ≡ is_gone self.now.gone number }
    {
        number != 0 && number as usize <= self.gone
    }

    /// Whether a step delivers one that is gone.
    pub(crate) fn has_gone(&self, step: &Step<Q>) -> bool
        ensures { result ≡ delivers_gone self.now.gone step.now }
    {
        match step {
            Step::Deliver(number) => self.is_gone(*number),
            _ => false,
        }
    }

    /// The letter of a number, if it was sent and is kept.
    pub(crate) fn of(&self, number: u64) -> Option<&Letter<Q>>
        ensures { option_copied result ≡ kept_at self.now number }
    {
        if number as usize <= self.gone {
            return None;
        }
        self.kept.get(number as usize - self.gone - 1)
    }

    /// The letter that a step delivers, if it delivers one that is kept.
    pub(crate) fn named(&self, step: &Step<Q>) -> Option<&Letter<Q>>
        ensures { option_copied result ≡ kept_in self.now step.now }
    {
        match step {
            Step::Deliver(number) => self.of(*number),
            _ => None,
        }
    }

    /// The name of the node that a step means, if it means one, where a letter that it delivers is kept.
    pub(crate) fn named_by(&self, step: &Step<Q>) -> Option<Name>
        ensures { result ≡ name_in (meant_by (kept_in self.now step.now) step.now) }
    {
        match step {
            Step::Deliver(number) => match self.of(*number) {
                Some(letter) => Some(letter.addressee()),
                None => None,
            },
            _ => step.name(),
        }
    }

    /// Makes room for one more.
    ///
    /// `OutOfMemory` where there is none.
    pub(crate) fn reserve(&mut self) -> Result<(), Refusal>
        ensures same { self.new ≡ record self.old { room = self.new.room } }
        ensures room { OnOk result (0 < self.new.room) }
        ensures refused { IfErr result (λ r. r ≡ Refusal.OutOfMemory) }
    {
        Ok(self.kept.reserve(1)?)
    }

    /// One more was sent, for which there is room. It may be one too many.
    pub(crate) fn push(&mut self, letter: Letter<Q>)
        ensures gone { self.new.gone ≡ self.old.gone }
        ensures window { self.new.window ≡ self.old.window }
        ensures kept { 0 < self.old.room → self.new.kept ≡ self.old.kept ++ letter ∷ [] }
    {
        let _ = self.kept.push_back(letter).is_ok();
    }

    /// The oldest letter goes, where there is one too many. It allocates nothing.
    pub(crate) fn trim(&mut self)
        requires one { length self.old.kept ≤ self.old.window + 1 }
        requires few { self.old.gone + length self.old.kept < 2 ^ 64 }
        ensures gone { self.new.gone ≡ self.old.gone + beyond self.old }
        ensures kept { self.new.kept ≡ drop (beyond self.old) self.old.kept }
        ensures window { self.new.window ≡ self.old.window }
    {
        if self.kept.len() <= self.window {
            return;
        }
        let _oldest = self.kept.pop_front();
        self.gone += 1;
    }

    /// The letter of this number, if it is kept, needs no copies any more: its addressee holds them.
    pub(crate) fn leave_out_copies(&mut self, number: Option<u64>)
        ensures { self.new ≡ record self.old { kept = lightened self.old.kept (among self.old number) } }
    {
        let Some(number) = number else {
            return;
        };
        if number as usize <= self.gone {
            return;
        }
        let at = number as usize - self.gone - 1;
        if at < self.kept.len() {
            self.kept[at].leave_out_copies();
        }
    }
}
