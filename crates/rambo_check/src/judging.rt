//! The verdict on each key.
ghost use Rattle.std.specs.Prelude.{◌≡◌, ◌||◌, List, [], ℕ, IfErr, OnOk};
ghost use Rattle.std.specs.Str.{bytes_eq};
ghost use Rattle.rambo_check.specs.Judgings.{AreRight, is_judged, is_call_of};
ghost use Rattle.rambo_check.specs.Verdicts.{order_of, AreVerdicts};

use crate::evidence::Evidence;
use indexmap::IndexMap;
use rambo_atomic::{Checker, Verdict};
use rambo_history::Event;
use rambo_names::{Bytes, Refusal};

/// Puts the verdict on each key that has a call or an order where there was none, keys in byte order.
///
/// The checker is over the history that the text gives. `OutOfMemory` where there is no room for the verdicts, or for
/// what judging takes.
pub(crate) fn judge_each(
    checker: &Checker,
    evidence: &Evidence,
    verdicts: &mut IndexMap<Bytes, Verdict>,
) -> Result<(), Refusal>
    requires history { checker.now ≡ evidence.now.events }
    requires none { verdicts.old.entries ≡ [] }
    ensures verdicts { OnOk result (AreVerdicts evidence.now verdicts.new.entries) }
    ensures refused { IfErr result (λ r. r ≡ Refusal.OutOfMemory) }
{
    for key in evidence.keys() {
        judge_key(checker, evidence, key, verdicts)?;
    }
    for event in evidence.history().events() {
        judge_called(checker, evidence, event, verdicts)?;
    }
    verdicts.sort_keys()?;
    Ok(())
}

// Adds the verdict on the key of a call.
fn judge_called(
    checker: &Checker,
    evidence: &Evidence,
    event: &Event,
    verdicts: &mut IndexMap<Bytes, Verdict>,
) -> Result<(), Refusal>
    requires history { checker.now ≡ evidence.now.events }
    requires right { AreRight evidence.now verdicts.old.entries }
    ensures right { OnOk result (AreRight evidence.now verdicts.new.entries) }
    ensures judged { OnOk result ((q : List ℕ) → is_judged verdicts.new.entries q ≡ (is_call_of q event.now || is_judged verdicts.old.entries q)) }
    ensures refused { IfErr result (λ r. r ≡ Refusal.OutOfMemory) }
{
    match event {
        Event::Call(_, op) => judge_key(checker, evidence, op.key(), verdicts),
        Event::Answer(_, _) => Ok(()),
    }
}

// Adds the verdict on a key, where there is none.
fn judge_key(
    checker: &Checker,
    evidence: &Evidence,
    key: &Bytes,
    verdicts: &mut IndexMap<Bytes, Verdict>,
) -> Result<(), Refusal>
    requires history { checker.now ≡ evidence.now.events }
    requires right { AreRight evidence.now verdicts.old.entries }
    ensures right { OnOk result (AreRight evidence.now verdicts.new.entries) }
    ensures judged { OnOk result ((q : List ℕ) → is_judged verdicts.new.entries q ≡ (bytes_eq key.now q || is_judged verdicts.old.entries q)) }
    ensures refused { IfErr result (λ r. r ≡ Refusal.OutOfMemory) }
{
    if verdicts.get(key).is_some() {
        return Ok(());
    }
    let verdict = checker.judge(key.as_slice(), evidence.order(key))?;
    verdicts.insert(key.clone()?, verdict)?;
    Ok(())
}
