//! Hints: of each key and node, the greatest copy in the node's log.
//!
//! A hint is 0, or one more than the copy's place among all that were put. The hints for a key's number form a row, one
//! for each node.
ghost use Rattle.std.specs.Prelude.{◌≡◌, ◌+◌, ◌*◌, ◌-◌, ◌<◌, ◌≤◌, ◌^◌, ◌++◌, length, max, replicate, IfErr, OnOk, All};
ghost use Rattle.rambo_names.specs.Names.{IsName};
ghost use Rattle.rambo_logs.specs.Stored.{hint_place, is_lacked, raised, IsWithin, AreHints};

use crate::entry::Entry;
use rambo_names::{Name, Refusal};
use rambo_tag::KeyedVersion;

// How many nodes there are.
pub(crate) const NODES: usize = 64;

// Where the log of a name is, and its hint in each row.
pub(crate) fn place_of(name: Name) -> usize
    ensures place { result ≡ name - 1 }
    ensures within { result < 64 }
    ensures named { IsName name }
{
    name.number() as usize - 1
}

// Whether the node at a place lacks a copy: its hint of the key refers to none, or to a lesser one.
pub(crate) fn is_lacked(puts: &[KeyedVersion], hints: &[usize], node: usize, entry: &Entry) -> bool
    requires node { node < 64 }
    requires within { IsWithin puts.now hints.now entry.now }
    requires hints { AreHints puts.now hints.now }
    ensures { result ≡ is_lacked puts.now hints.now node entry.now }
{
    let hint = hints[hint_place(node, entry)];
    if hint == 0 {
        return true;
    }
    if hint - 1 == entry.place {
        return false;
    }
    let greatest = &puts[hint - 1].version;
    greatest.is_before(&puts[entry.place].version)
}

// A copy was logged by the node at a place.
pub(crate) fn raise(hints: &mut Vec<usize>, puts: &[KeyedVersion], node: usize, entry: &Entry)
    requires node { node < 64 }
    requires within { IsWithin puts.now hints.old.items entry.now }
    requires hints { AreHints puts.now hints.old.items }
    ensures hints { hints.new.items ≡ raised puts.now node hints.old.items entry.now }
{
    if is_lacked(puts, hints.as_slice(), node, entry) {
        hints[hint_place(node, entry)] = entry.place + 1;
    }
}

// Makes the rows up to that of a key's number, where there are fewer. New hints are 0.
pub(crate) fn make_rows(hints: &mut Vec<usize>, number: usize) -> Result<(), Refusal>
    ensures grows { hints.new.items ≡ hints.old.items ++ replicate (length hints.new.items - length hints.old.items) 0 }
    ensures row { OnOk result (hint_place number NODES ≤ length hints.new.items) }
    ensures rows { length hints.new.items ≤ max (length hints.old.items) (hint_place number NODES) }
    ensures refused { IfErr result (λ r. r ≡ Refusal.OutOfMemory) }
{
    // (more hints than a number can count would fit into no memory)
    let end = number.saturating_add(1).saturating_mul(NODES);
    if hints.len() < end {
        hints.resize(end, 0)?;
    }
    Ok(())
}

// Where the hint of an entry's key is.
fn hint_place(node: usize, entry: &Entry) -> usize
    requires node { node < 64 }
    requires row { hint_place entry.now.number 64 < 2 ^ 64 }
    ensures { result ≡ hint_place entry.now.number node }
{
    entry.number * NODES + node
}
