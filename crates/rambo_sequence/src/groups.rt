//! Calls by their keys.
ghost use Rattle.std.specs.Prelude.{◌≡◌, ◌++◌, ◌∷◌, [], IfOk, IfErr, OnOk, if◌then◌else◌};
ghost use Rattle.rambo_sequence.specs.Groups.{calls_at, with_call, HasGroups};
ghost use Rattle.rambo_sequence.specs.Marks.{marks_at};
ghost use Rattle.std.specs.Str.{bytes_eq};

use crate::mark::TaggedPlace;
use crate::ranking::{RankedCall, ranked_call};
use indexmap::IndexMap;
use rambo_history::History;
use rambo_names::{Bytes, Refusal};
use std::alloc::Global;

// The calls of each key that is marked, in the order of the marks.
pub(crate) fn groups(
    alloc: Global,
    history: &History,
    marks: &[TaggedPlace],
) -> Result<IndexMap<Bytes, Vec<RankedCall>>, Refusal>
    ensures groups { IfOk result (λ groups. HasGroups history.now.events (marks_at history.now.events marks.now) groups.entries) }
    ensures refused { IfErr result (λ r. r ≡ Refusal.OutOfMemory) }
{
    let mut groups = IndexMap::new(alloc);
    for mark in marks {
        if let Some((key, call)) = ranked_call(history, mark) {
            add(alloc, &mut groups, key, call)?;
        }
    }
    Ok(groups)
}

// Puts a call after the others of its key.
fn add(
    alloc: Global,
    groups: &mut IndexMap<Bytes, Vec<RankedCall>>,
    key: &Bytes,
    call: RankedCall,
) -> Result<(), Refusal>
    ensures added { OnOk result ((q : _) → calls_at groups.new.entries q ≡ (if bytes_eq key.now q then with_call (calls_at groups.old.entries q) call else calls_at groups.old.entries q)) }
    ensures refused { IfErr result (λ r. r ≡ Refusal.OutOfMemory) }
{
    if let Some(calls) = groups.get_mut(key) {
        calls.push(call)?;
        return Ok(());
    }
    let calls = vec![in alloc; call]?;
    groups.insert(key.clone()?, calls)?;
    Ok(())
}
