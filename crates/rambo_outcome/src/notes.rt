//! What steps tell besides the history.
ghost use Rattle.std.specs.Prelude.{◌≡◌, ◌<◌, ◌+◌, ◌-◌, ◌^◌, [], length, OnOk, OnErr, IfErr};
ghost use Rattle.rambo_check.specs.Lines.{items_text};
ghost use Rattle.rambo_outcome.specs.Notes.{other_items, events_before, noted, with_text, grown, bytes_in};

use crate::step_line::write_other;
use rambo_history::History;
use rambo_names::{Refusal, Weighted};
use rambo_node::Effect;
use std::alloc::Global;
use std::marker::Model;

/// Lines that no event parts: how many events come before them, after the lines before, and how many bytes they have.
#[derive(Clone, Copy)]
pub(crate) struct Note {
    pub(crate) events: usize,
    pub(crate) len: usize,
}

/// The lines of steps that are no calls and no answers: of refused steps, ended collections and ended attempts. Calls and
/// answers are in the history. Of each line it is known how many of them come before it.
pub struct Notes {
    pub(crate) text: Vec<u8>,
    pub(crate) notes: Vec<Note>,
    events: usize,
}

// By hand, so that those who drop it needn't follow all that is in it.
impl Drop for Notes {
    fn drop(self) {
        let Notes {
            text: _text,
            notes: _notes,
            events: _events,
        } = self;
    }
}

impl Model for Notes {
    ghost use Rattle.std.specs.Prelude.{◌≡◌, List, length};
    ghost use Rattle.rambo_outcome.specs.Notes.{NoteState, notes_in, bytes_in, events_before};

    ghost Value = { List NoteState };

    ghost view = { λ n. notes_in n.notes.items n.text.items };

    ghost invariant = { λ n. (bytes_in n.notes.items ≡ length n.text.items) × (events_before (notes_in n.notes.items n.text.items) ≡ n.events) };
}

impl Notes {
    /// None, which allocate nothing.
    pub fn new(alloc: Global) -> Notes
        ensures { result ≡ [] }
    {
        Notes {
            text: Vec::new(alloc),
            notes: Vec::new(alloc),
            events: 0,
        }
    }

    /// Adds what is reported of a step, by its number, if the history doesn't have it: the line of an ended collection,
    /// an ended attempt or a refusal. It comes after all events of the history.
    ///
    /// `OutOfMemory` where there is no room for the line; then nothing changes.
    pub fn add(
        &mut self,
        step: u64,
        told: &Result<Effect<Weighted>, Refusal>,
        history: &History,
    ) -> Result<(), Refusal>
        ensures ok { OnOk result (self.new ≡ noted self.old (length history.now.events) (other_items step told.now)) }
        ensures err { OnErr result (self.new ≡ self.old) }
        ensures refused { IfErr result (λ r. r ≡ Refusal.OutOfMemory) }
    {
        match told {
            Ok(Effect::Collected(_, _) | Effect::Decided(_, _)) | Err(_) => {
                self.put(step, told, history.events().len())
            }
            Ok(
                Effect::Done
                | Effect::Called(_)
                | Effect::Sent(_)
                | Effect::Moved
                | Effect::Answered(_, _),
            ) => Ok(()),
        }
    }

    // Adds it after so many events.
    fn put(
        &mut self,
        step: u64,
        told: &Result<Effect<Weighted>, Refusal>,
        count: usize,
    ) -> Result<(), Refusal>
        ensures ok { OnOk result (self.new ≡ with_text self.old (count - events_before self.old) (items_text (other_items step told.now))) }
        ensures err { OnErr result (self.new ≡ self.old) }
        ensures refused { IfErr result (λ r. r ≡ Refusal.OutOfMemory) }
    {
        self.notes.reserve(1)?;
        let before = self.text.len();
        write_other(step, told, &mut self.text)?;
        let events = count.saturating_sub(self.events);
        let len = self.text.len() - before;
        if self.notes.is_empty() || events > 0 {
            self.notes.push_reserved(Note { events, len });
            self.events += events;
        } else {
            grow_last(&mut self.notes, len);
        }
        Ok(())
    }
}

// Lengthens the last note.
fn grow_last(notes: &mut Vec<Note>, len: usize)
    requires some { 0 < length notes.old.items }
    requires fits { bytes_in notes.old.items + len < 2 ^ 64 }
    ensures { notes.new.items ≡ grown notes.old.items len }
{
    let last = notes.len() - 1;
    let note = notes[last];
    notes[last] = Note {
        events: note.events,
        len: note.len + len,
    };
}
