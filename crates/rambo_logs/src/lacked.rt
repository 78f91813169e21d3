//! What a node lacks of a part of a log.
ghost use Rattle.std.specs.Prelude.{◌≡◌, ◌<◌, ◌≤◌, ◌++◌, ◌∷◌, ◌+◌, [], filter, length, take, drop, All, IsOk, IfErr, IfOk, OnOk};
ghost use Rattle.std.specs.Vec.{vec_len, vec_capacity};
ghost use Rattle.rambo_tag.specs.Logs.{greatest_of};
ghost use Rattle.rambo_logs.specs.Stored.{copies_of, is_lacked, raised, all_raised, IsWithin, AreHints};

use crate::entry::Entry;
use crate::hints::{is_lacked, raise};
use rambo_names::Refusal;
use rambo_tag::{KeyedVersion, Pack};

// Lists those entries whose copies the node at a place lacks.
pub(crate) fn list_lacked(
    lacked: &mut Vec<Entry>,
    puts: &[KeyedVersion],
    hints: &[usize],
    node: usize,
    entries: &[Entry],
) -> Result<(), Refusal>
    requires empty { lacked.old.items ≡ [] }
    requires node { node < 64 }
    requires within { All (IsWithin puts.now hints.now) entries.now }
    requires hints { AreHints puts.now hints.now }
    ensures ok { OnOk result (lacked.new.items ≡ filter (is_lacked puts.now hints.now node) entries.now) }
    ensures idle { filter (is_lacked puts.now hints.now node) entries.now ≡ [] → IsOk result }
    ensures refused { IfErr result (λ r. r ≡ Refusal.OutOfMemory) }
{
    for entry in entries {
        if is_lacked(puts, hints, node, entry) {
            lacked.push(*entry)?;
        }
    }
    Ok(())
}

// The copies of entries, packed. Of none it allocates nothing.
pub(crate) fn pack_of(puts: &Vec<KeyedVersion>, entries: &[Entry]) -> Result<Pack, Refusal>
    requires { All (λ e. e.place < length puts.now.items) entries.now }
    ensures ok { IfOk result (λ p. p ≡ greatest_of (copies_of puts.now.items entries.now)) }
    ensures idle { entries.now ≡ [] → IsOk result }
    ensures refused { IfErr result (λ r. r ≡ Refusal.OutOfMemory) }
{
    let mut copies = Vec::new(*puts.allocator());
    if entries.is_empty() {
        return Ok(Pack::new(copies));
    }
    copies.reserve(entries.len())?;
    for entry in entries {
        copies.push(puts[entry.place].clone()?)?;
    }
    Ok(Pack::new(copies))
}

// Puts an entry at the end of the log of the node at a place, which has room for it.
pub(crate) fn log_entry(
    log: &mut Vec<Entry>,
    hints: &mut Vec<usize>,
    puts: &[KeyedVersion],
    node: usize,
    entry: Entry,
)
    requires room { vec_len log.old < vec_capacity log.old }
    requires node { node < 64 }
    requires within { IsWithin puts.now hints.old.items entry }
    requires hints { AreHints puts.now hints.old.items }
    ensures log { log.new.items ≡ log.old.items ++ entry ∷ [] }
    ensures room { vec_len log.new ≡ vec_len log.old + 1 }
    ensures capacity { vec_capacity log.new ≡ vec_capacity log.old }
    ensures hints { hints.new.items ≡ raised puts.now node hints.old.items entry }
{
    raise(hints, puts, node, &entry);
    log.push_reserved(entry);
}

// Puts entries at the end of the log of the node at a place, which has room for them.
pub(crate) fn log_entries(
    log: &mut Vec<Entry>,
    hints: &mut Vec<usize>,
    puts: &[KeyedVersion],
    node: usize,
    entries: &[Entry],
)
    requires room { vec_len log.old + length entries.now ≤ vec_capacity log.old }
    requires node { node < 64 }
    requires within { All (IsWithin puts.now hints.old.items) entries.now }
    requires hints { AreHints puts.now hints.old.items }
    ensures log { log.new.items ≡ log.old.items ++ entries.now }
    ensures hints { hints.new.items ≡ all_raised puts.now node hints.old.items entries.now }
{
    for entry in entries {
        log_entry(log, hints, puts, node, *entry);
    }
}
