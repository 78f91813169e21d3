//! Gets that don't answer the latest set.
ghost use Rattle.std.specs.Prelude.{◌≡◌, ◌++◌, ◌∷◌, [], ℕ, List, Option, IfOk, IfErr, OnOk};
ghost use Rattle.std.specs.Option.{option_copied, option_and_then};
ghost use Rattle.std.specs.Map.{lookup};
ghost use Rattle.std.specs.Str.{bytes_eq};
ghost use Rattle.rambo_history.specs.declared.event.CallId.{CallId as AnyCall};
ghost use Rattle.rambo_history.specs.Histories.{call_in};
ghost use Rattle.rambo_atomic.specs.declared.verdict.Rule.TheVariants.{WrongAnswer};
ghost use Rattle.rambo_atomic.specs.Tests.{tells};
ghost use Rattle.rambo_witness.specs.LatestSets.{HasLatest, DecidesAnswer};
ghost use Rattle.rambo_witness.specs.Tests.{value_of};
ghost use Rattle.rambo_witness.specs.Witnesses.{Decides};

use crate::witness::Witness;
use indexmap::IndexMap;
use rambo_history::{Answer, CallId, History, Op};
use rambo_names::{Bytes, Refusal};

/// The first get that doesn't answer the value of the latest set of its key before it, or nil where there is none.
///
/// `OutOfMemory` where there is no room for the latest set of each key.
pub(crate) fn first_wrong_answer(
    history: &History,
    order: &[CallId],
) -> Result<Option<Witness>, Refusal>
    ensures found { IfOk result (λ found. (key : Option (List ℕ)) → Decides WrongAnswer history.now.events key order.now found) }
    ensures refused { IfErr result (λ r. r ≡ Refusal.OutOfMemory) }
{
    let mut latest = IndexMap::new(history.allocator());
    for id in order {
        if let Some(witness) = wrong_answer(history, &latest, id) {
            return Ok(Some(witness));
        }
        note(history, &mut latest, id)?;
    }
    Ok(None)
}

// A call, if it is a get that doesn't answer the latest set of its key, with that set.
fn wrong_answer(history: &History, latest: &IndexMap<Bytes, CallId>, id: &CallId) -> Option<Witness>
    ensures { (front : List AnyCall) → HasLatest history.now.events front latest.now.entries → DecidesAnswer history.now.events front id.now result }
{
    let (op, answer) = history.exchange(id)?;
    let Op::Get(key) = op else {
        return None;
    };
    let set = latest.get(key);
    if tells(value_set(history, set), answer) {
        return None;
    }
    Some(Witness {
        call: *id,
        other: set.copied(),
    })
}

// The value that a call sets its key to, if there is one.
fn value_set<'a>(history: &'a History, set: Option<&CallId>) -> Option<&'a Bytes>
    ensures { option_copied result ≡ option_and_then (λ c. value_of (call_in history.now.events c)) (option_copied set.entry) }
{
    match history.call(set?)? {
        Op::Set(_, value) => Some(value),
        Op::Get(_) => None,
    }
}

// Whether an answer tells what a key holds.
fn tells(held: Option<&Bytes>, answer: Option<&Answer>) -> bool
    ensures { result ≡ tells (option_copied held.entry) (option_copied answer.entry) }
{
    match (held, answer) {
        (None, Some(Answer::Nil)) => true,
        (Some(value), Some(Answer::Value(told))) => value.as_slice() == told.as_slice(),
        _ => false,
    }
}

// Notes a call, if it is a set, as the latest of its key.
fn note(history: &History, latest: &mut IndexMap<Bytes, CallId>, id: &CallId) -> Result<(), Refusal>
    ensures noted { OnOk result ((front : List AnyCall) → HasLatest history.now.events front latest.old.entries
        → HasLatest history.now.events (front ++ id.now ∷ []) latest.new.entries) }
    ensures refused { IfErr result (λ r. r ≡ Refusal.OutOfMemory) }
{
    let Some(op) = history.call(id) else {
        return Ok(());
    };
    if let Op::Set(key, _) = op {
        latest.insert(key.clone()?, *id)?;
    }
    Ok(())
}
