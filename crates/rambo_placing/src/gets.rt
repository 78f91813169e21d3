//! The gets of each key.
ghost use Rattle.std.specs.Prelude.{◌≡◌, ◌++◌, ◌∷◌, [], ℕ, List, IfOk, IfErr, OnOk, if◌then◌else◌};
ghost use Rattle.std.specs.Str.{bytes_eq};
ghost use Rattle.rambo_placing.specs.Tables.{HasGets, calls_at};

use indexmap::IndexMap;
use rambo_history::{CallId, Event, History, Op};
use rambo_names::{Bytes, Refusal};
use std::alloc::Global;

/// The gets of each key, as they were called.
///
/// `OutOfMemory` where there is no room for them.
pub(crate) fn gets_of_keys(history: &History) -> Result<IndexMap<Bytes, Vec<CallId>>, Refusal>
    ensures gets { IfOk result (λ gets. HasGets history.now.events gets.entries) }
    ensures refused { IfErr result (λ r. r ≡ Refusal.OutOfMemory) }
{
    let mut gets = IndexMap::new(history.allocator());
    let mut rest = history.events();
    while let Some((event, others)) = rest.split_first() {
        if let Event::Call(id, Op::Get(key)) = event {
            add(history.allocator(), &mut gets, key, *id)?;
        }
        rest = others;
    }
    Ok(gets)
}

/// Puts a call behind the others of some bytes.
///
/// `OutOfMemory` where there is no room for it.
pub(crate) fn add(
    alloc: Global,
    table: &mut IndexMap<Bytes, Vec<CallId>>,
    bytes: &Bytes,
    id: CallId,
) -> Result<(), Refusal>
    ensures added { OnOk result ((q : List ℕ) → calls_at table.new.entries q ≡ (if bytes_eq bytes.now q then calls_at table.old.entries q ++ id ∷ [] else calls_at table.old.entries q)) }
    ensures refused { IfErr result (λ r. r ≡ Refusal.OutOfMemory) }
{
    if let Some(calls) = table.get_mut(bytes) {
        calls.push(id)?;
        return Ok(());
    }
    let calls = vec![in alloc; id]?;
    table.insert(bytes.clone()?, calls)?;
    Ok(())
}
