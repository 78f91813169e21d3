//! Calls that stand behind one that was made after their answer.
ghost use Rattle.std.specs.Prelude.{◌≡◌, ◌++◌, ◌∷◌, [], ℕ, List, Option};
ghost use Rattle.std.specs.Option.{option_copied};
ghost use Rattle.rambo_history.specs.declared.event.CallId.{CallId as AnyCall};
ghost use Rattle.rambo_history.specs.Forms.{IsWellFormed};
ghost use Rattle.rambo_atomic.specs.declared.verdict.Rule.TheVariants.{OutOfOrder};
ghost use Rattle.rambo_witness.specs.LastMade.{HasLast, DecidesTime};
ghost use Rattle.rambo_witness.specs.Witnesses.{Decides};

use crate::witness::Witness;
use rambo_history::{CallId, History};

// A call, and its place in the list of events.
#[derive(Clone, Copy)]
pub(crate) struct Made {
    pub(crate) call: CallId,
    pub(crate) place: usize,
}

/// The first call that was answered before one was made that stands before it; and of these the one that was made last.
pub(crate) fn first_out_of_order(history: &History, order: &[CallId]) -> Option<Witness>
    requires { IsWellFormed history.now.events }
    ensures { (key : Option (List ℕ)) → Decides OutOfOrder history.now.events key order.now result }
{
    // What was made last of the calls so far.
    let mut last = None;
    for id in order {
        if let Some(witness) = out_of_order(history, last.as_ref(), id) {
            return Some(witness);
        }
        note(history, &mut last, id);
    }
    None
}

// A call, if it was answered before the last of those before it was made, with that one.
fn out_of_order(history: &History, last: Option<&Made>, id: &CallId) -> Option<Witness>
    requires { IsWellFormed history.now.events }
    ensures { (front : List AnyCall) → HasLast history.now.events front (option_copied last.entry)
        → DecidesTime history.now.events front id.now result }
{
    let Some(last) = last else {
        return None;
    };
    let Some(answered) = history.answered_at(id) else {
        return None;
    };
    if answered < last.place {
        Some(Witness {
            call: *id,
            other: Some(last.call),
        })
    } else {
        None
    }
}

// Notes a call, if it was made behind the last.
fn note(history: &History, last: &mut Option<Made>, id: &CallId)
    ensures { (front : List AnyCall) → HasLast history.now.events front last.old → HasLast history.now.events (front ++ id.now ∷ []) last.new }
{
    let Some(place) = history.called_at(id) else {
        return;
    };
    if let Some(made) = last {
        if place <= made.place {
            return;
        }
    }
    *last = Some(Made { call: *id, place });
}
