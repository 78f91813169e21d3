//! The answered calls of each key.
ghost use Rattle.std.specs.Prelude.{◌≡◌, ◌++◌, ◌∷◌, [], ℕ, List, None, Some, IfOk, IfErr, OnOk, if◌then◌else◌};
ghost use Rattle.std.specs.Option.{option_copied};
ghost use Rattle.std.specs.Str.{bytes_eq};
ghost use Rattle.rambo_witness.specs.Dues.{HasDues, calls_at, dues_among};

use indexmap::IndexMap;
use rambo_history::{CallId, Event, History};
use rambo_names::{Bytes, Refusal};

/// The answered calls of each key, as they were made.
///
/// `OutOfMemory` where there is no room for them.
pub(crate) fn dues_of_keys(history: &History) -> Result<IndexMap<Bytes, Vec<CallId>>, Refusal>
    ensures dues { IfOk result (λ dues. HasDues history.now.events dues.entries) }
    ensures refused { IfErr result (λ r. r ≡ Refusal.OutOfMemory) }
{
    let mut dues = IndexMap::new(history.allocator());
    let mut rest = history.events();
    while let Some((event, others)) = rest.split_first() {
        if let Event::Call(id, op) = event {
            if history.answer(id).is_some() {
                add(history, &mut dues, op.key(), *id)?;
            }
        }
        rest = others;
    }
    Ok(dues)
}

/// The answered calls of all keys, as they were made.
///
/// `OutOfMemory` where there is no room for them.
pub(crate) fn dues_of_all(history: &History) -> Result<Vec<CallId>, Refusal>
    ensures dues { IfOk result (λ dues. dues.items ≡ dues_among history.now.events None history.now.events) }
    ensures refused { IfErr result (λ r. r ≡ Refusal.OutOfMemory) }
{
    let mut dues = Vec::new(history.allocator());
    let mut rest = history.events();
    while let Some((event, others)) = rest.split_first() {
        if let Event::Call(id, _) = event {
            if history.answer(id).is_some() {
                dues.push(*id)?;
            }
        }
        rest = others;
    }
    Ok(dues)
}

// Puts a call behind the others of its key.
fn add(
    history: &History,
    dues: &mut IndexMap<Bytes, Vec<CallId>>,
    key: &Bytes,
    id: CallId,
) -> Result<(), Refusal>
    ensures added { OnOk result ((q : List ℕ) → calls_at dues.new.entries q ≡ (if bytes_eq key.now q then calls_at dues.old.entries q ++ id ∷ [] else calls_at dues.old.entries q)) }
    ensures refused { IfErr result (λ r. r ≡ Refusal.OutOfMemory) }
{
    if let Some(calls) = dues.get_mut(key) {
        calls.push(id)?;
        return Ok(());
    }
    let calls = vec![in history.allocator(); id]?;
    dues.insert(key.clone()?, calls)?;
    Ok(())
}
