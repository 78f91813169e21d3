//! The given sequences.
ghost use Rattle.std.specs.Prelude.{◌≡◌, IfOk, IfErr, map};
ghost use Rattle.rambo_sequence.specs.Groups.{group_sequence};
ghost use Rattle.rambo_sequence.specs.Marks.{marks_at};
ghost use Rattle.rambo_sequence.specs.RankedCalls.{ranked_calls};
ghost use Rattle.rambo_sequence.specs.Sequences.{sequence_of, sequences_of};

use crate::groups::groups;
use crate::key_sequence::KeySequence;
use crate::mark::TaggedPlace;
use crate::ranking::{RankedCall, ranked_call};
use crate::sorting::in_order;
use indexmap::IndexMap;
use rambo_history::{CallId, History};
use rambo_names::{Bytes, Refusal};
use std::alloc::{AllocError, Global};

/// The given sequences of all keys that are marked, in the byte order of the keys.
///
/// Each mark is told by the place of its call among the events. A place at which no call is made has no mark.
///
/// The marks of a key are ordered by tag. Under one tag the set comes before the gets, and gets are ordered by the
/// places of their calls in the history. It takes `n log n` steps for `n` marks, and fewer where a key's marks come
/// nearly in order.
///
/// `OutOfMemory` where there is no room for them.
pub fn sequences(
    alloc: Global,
    history: &History,
    marks: &[TaggedPlace],
) -> Result<Vec<KeySequence>, Refusal>
    ensures given { IfOk result (λ s. s.items ≡ sequences_of history.now.events (marks_at history.now.events marks.now)) }
    ensures refused { IfErr result (λ r. r ≡ Refusal.OutOfMemory) }
{
    let mut groups = groups(alloc, history, marks)?;
    groups.sort_keys()?;
    sequences_of_groups(alloc, groups)
}

// The sequence of each group.
fn sequences_of_groups(
    alloc: Global,
    groups: IndexMap<Bytes, Vec<RankedCall>>,
) -> Result<Vec<KeySequence>, Refusal>
    ensures each { IfOk result (λ s. s.items ≡ map group_sequence groups.entries) }
    ensures refused { IfErr result (λ r. r ≡ Refusal.OutOfMemory) }
{
    let mut sequences = Vec::with_capacity(alloc, groups.len())?;
    for (key, calls) in groups {
        let calls = in_order(alloc, calls)?;
        sequences.push(KeySequence { key, calls })?;
    }
    Ok(sequences)
}

/// The given sequence of one key, which is empty where the key isn't marked.
///
/// `OutOfMemory` where there is no room for it.
pub fn sequence(
    alloc: Global,
    history: &History,
    marks: &[TaggedPlace],
    key: &[u8],
) -> Result<Vec<CallId>, Refusal>
    ensures given { IfOk result (λ s. s.items ≡ sequence_of history.now.events (marks_at history.now.events marks.now) key.now) }
    ensures refused { IfErr result (λ r. r ≡ Refusal.OutOfMemory) }
{
    in_order(alloc, calls_of(alloc, history, marks, key)?)
}

// The calls of a key, in the order of their marks.
fn calls_of(
    alloc: Global,
    history: &History,
    marks: &[TaggedPlace],
    key: &[u8],
) -> Result<Vec<RankedCall>, AllocError>
    ensures { IfOk result (λ calls. calls.items ≡ ranked_calls history.now.events (marks_at history.now.events marks.now) key.now) }
{
    let mut calls = Vec::new(alloc);
    for mark in marks {
        if let Some((of, call)) = ranked_call(history, mark) {
            if of.as_slice() == key {
                calls.push(call)?;
            }
        }
    }
    Ok(calls)
}
