//! The lines of steps that are no calls and no answers, written whole or not at all.
ghost use Rattle.std.specs.Prelude.{◌≡◌, ◌++◌, OnOk, OnErr, IfErr};
ghost use Rattle.rambo_text.specs.Signs.{Grows};
ghost use Rattle.rambo_check.specs.Lines.{items_text};
ghost use Rattle.rambo_outcome.specs.Notes.{other_items};

use crate::line::{append_collected, append_decided, append_refused};
use rambo_names::{Refusal, Weighted};
use rambo_node::Effect;

/// Appends what is reported of a step, by its number, that is no call and no answer: the line of an ended collection, an
/// ended attempt or a refusal, or none.
///
/// `OutOfMemory` where the text can't grow; it is then unchanged.
pub(crate) fn write_other(
    step: u64,
    told: &Result<Effect<Weighted>, Refusal>,
    out: &mut Vec<u8>,
) -> Result<(), Refusal>
    ensures ok { OnOk result (out.new.items ≡ out.old.items ++ items_text (other_items step told.now)) }
    ensures err { OnErr result (out.new.items ≡ out.old.items) }
    ensures refused { IfErr result (λ r. r ≡ Refusal.OutOfMemory) }
{
    let before = out.len();
    let written = append_other(step, told, out);
    if written.is_err() {
        out.truncate(before);
    }
    written
}

// Appends it, or after a refusal some bytes.
fn append_other(
    step: u64,
    told: &Result<Effect<Weighted>, Refusal>,
    out: &mut Vec<u8>,
) -> Result<(), Refusal>
    ensures ok { OnOk result (out.new.items ≡ out.old.items ++ items_text (other_items step told.now)) }
    ensures err { OnErr result (Grows out.old.items out.new.items) }
    ensures refused { IfErr result (λ r. r ≡ Refusal.OutOfMemory) }
{
    match told {
        Ok(Effect::Collected(name, place)) => append_collected(*name, *place, out),
        Ok(Effect::Decided(name, decided)) => append_decided(*name, decided, out),
        Ok(
            Effect::Done
            | Effect::Called(_)
            | Effect::Sent(_)
            | Effect::Moved
            | Effect::Answered(_, _),
        ) => Ok(()),
        Err(refusal) => append_refused(step, *refusal, out),
    }
}
