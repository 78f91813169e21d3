//! Copies in a hash table, and the log of their changes.
ghost use Rattle.std.specs.Prelude.{◌≡◌, ◌+◌, ◌<◌, ◌≤◌, true, false, ℕ, List, [], ◌∷◌, ◌++◌, filter, if◌then◌else◌, IsOk, IfOk, IfErr, OnOk, OnErr};
ghost use Rattle.std.specs.FinMap.{empty, get, insert};
ghost use Rattle.std.specs.Str.{bytes_eq};
ghost use Rattle.rambo_tag.specs.Tags.{is_newer};
ghost use Rattle.rambo_tag.specs.Copies.{joined, HasRoom};
ghost use Rattle.rambo_tag.specs.Logs.{greatest_after, greatest_of};
ghost use Rattle.rambo_tag.specs.Stamps.{AreAtMost, AreStampedAlike, IsSince, stamps_merged};
ghost use Rattle.rambo_tag.specs.Changes.{HasEachKeyOnce, IsLatestFirst};
ghost use Rattle.rambo_tag.specs.Rows.{slot_in, place_in, copies_of, stamps_of, stamps_after, told_at, is_current, room_in, room_behind, IsLogOf, IsShortFor, IsIndexed};

use crate::borrowed_key::BorrowedKey;
use crate::keyed_version::KeyedVersion;
use crate::pack::Pack;
use crate::replica::Replica;
use crate::slot::{Row, Slot};
use crate::version::Version;
use indexmap::IndexMap;
use rambo_names::{Bytes, Refusal};
use std::alloc::Global;
use std::hash::BuildHasher;
use std::marker::Model;

/// The copies of a node in a hash table, with a log of their changes.
///
/// Each call takes amortized time in proportion to what it is given and what it returns.
#[derive(Drop)]
pub struct Registers<H: BuildHasher> {
    // Packs share the keys and the values. A key keeps its place.
    table: IndexMap<Bytes, Slot, H>,
    // The changes, oldest first: what changed since a number is the end of it. It's at most twice as long as the table.
    log: Vec<Row>,
}

impl<H: BuildHasher> Model for Registers<H> {
    ghost use Rattle.std.specs.Coded.{codes};
    ghost use Rattle.rambo_tag.specs.Copies.{copies_code};
    ghost use Rattle.rambo_tag.specs.Stamps.{HeldCopies, stamps_code};
    ghost use Rattle.rambo_tag.specs.Rows.{copies_of, stamps_of, room_in, IsIndexed};

    ghost Value = { HeldCopies };

    ghost coded = { Prim.hlevel (codes, copies_code, stamps_code) };

    ghost view = { λ r. record { copies = copies_of r.table.entries; stamps = stamps_of r.table.entries; spare = room_in r.table r.log } };

    ghost invariant = { λ r. IsIndexed r.table.entries r.log.items };
}

impl<H: BuildHasher> Registers<H> {
    /// An empty replica that uses this hasher.
    pub fn new(alloc: Global, hasher: H) -> Self
        ensures copies { result.copies ≡ empty }
        ensures stamps { result.stamps ≡ empty }
    {
        Registers {
            table: IndexMap::with_hasher(alloc, hasher),
            log: Vec::new(alloc),
        }
    }

    /// The copies with a stamp of at least a base: each key once, the latest change first. Keys and values are shared,
    /// not copied.
    ///
    /// `OutOfMemory` where there is no room for the list of them.
    pub fn changes_since(&self, base: u64) -> Result<Vec<KeyedVersion>, Refusal>
        ensures since { IfOk result (λ changes. IsSince self.now.copies self.now.stamps base (greatest_of changes.items)) }
        ensures once { IfOk result (λ changes. HasEachKeyOnce changes.items) }
        ensures latest_first { IfOk result (λ changes. IsLatestFirst self.now.stamps changes.items) }
        ensures refused { IfErr result (λ r. r ≡ Refusal.OutOfMemory) }
    {
        let mut changes = Vec::new(*self.table.allocator());
        let mut left = self.log.len();
        while left > 0 && self.log[left - 1].number >= base {
            left -= 1;
            let row = self.log[left];
            if let Some((key, slot)) = self.table.get_index(row.place) {
                if slot.number == row.number {
                    changes.push(KeyedVersion {
                        key: key.clone()?,
                        version: slot.version.clone()?,
                    })?;
                }
            }
        }
        Ok(changes)
    }

    // Takes one copy, where it is newer than what its key holds here. A key that is held here is looked up once.
    fn merge_one(&mut self, copy: &KeyedVersion, now: u64) -> Result<(), Refusal>
        requires { AreAtMost now self.old.stamps }
        ensures ok { OnOk result (self.new.copies ≡ greatest_after self.old.copies (copy.now ∷ [])) }
        ensures stamped { OnOk result (self.new.stamps ≡ stamps_after now self.old.copies self.old.stamps (copy.now ∷ [])) }
        ensures newer { IfErr result (λ _. is_newer (get self.old.copies copy.now.key) copy.now.version ≡ true) }
        ensures err { OnErr result (self.new.copies ≡ self.old.copies) }
        ensures unstamped { OnErr result (self.new.stamps ≡ self.old.stamps) }
        ensures refused { IfErr result (λ r. r ≡ Refusal.OutOfMemory) }
    {
        let (place, newer) = find(&self.table, copy);
        if newer {
            let copy = copy.clone()?;
            make_room(&mut self.table, &mut self.log, 1)?;
            write(&mut self.table, &mut self.log, place, copy, now);
        }
        Ok(())
    }

    // Those copies of a pack that are newer than what their keys hold here.
    fn newer_copies(&self, pack: &Pack) -> Result<Vec<KeyedVersion>, Refusal>
        ensures all { IfOk result (λ copies. greatest_after self.now.copies copies.items ≡ joined self.now.copies pack.now) }
        ensures idle { joined self.now.copies pack.now ≡ self.now.copies → IsOk result }
        ensures none { joined self.now.copies pack.now ≡ self.now.copies → IfOk result (λ copies. copies.items ≡ []) }
        ensures refused { IfErr result (λ r. r ≡ Refusal.OutOfMemory) }
    {
        let mut copies = Vec::new(*self.table.allocator());
        for copy in pack.copies() {
            let (_, newer) = find(&self.table, copy);
            if newer {
                copies.push(copy.clone()?)?;
            }
        }
        Ok(copies)
    }

    // The same as a pack: merged in the place of the other it comes to the same copies and the same stamps.
    fn newer(&self, pack: &Pack) -> Result<Pack, Refusal>
        ensures all { IfOk result (λ p. joined self.now.copies p ≡ joined self.now.copies pack.now) }
        ensures stamped { IfOk result (λ p. AreStampedAlike self.now.copies p pack.now) }
        ensures none { joined self.now.copies pack.now ≡ self.now.copies → IfOk result (λ p. p ≡ empty) }
        ensures idle { joined self.now.copies pack.now ≡ self.now.copies → IsOk result }
        ensures refused { IfErr result (λ r. r ≡ Refusal.OutOfMemory) }
    {
        let newer = self.newer_copies(pack)?;
        Ok(Pack::new(newer))
    }
}

impl<H: BuildHasher + Clone + Drop> Registers<H> {
    // Takes the greater copy of each key.
    fn merge_all(&mut self, pack: &Pack, now: u64) -> Result<(), Refusal>
        requires { AreAtMost now self.old.stamps }
        ensures ok { OnOk result (self.new.copies ≡ joined self.old.copies pack.now) }
        ensures stamped { OnOk result (self.new.stamps ≡ stamps_merged now self.old.copies self.old.stamps pack.now) }
        ensures idle { joined self.old.copies pack.now ≡ self.old.copies → IsOk result }
        ensures err { OnErr result (self.new.copies ≡ self.old.copies) }
        ensures unstamped { OnErr result (self.new.stamps ≡ self.old.stamps) }
        ensures refused { IfErr result (λ r. r ≡ Refusal.OutOfMemory) }
    {
        let newer = self.newer(pack)?;
        self.room(&newer)?;
        self.merge_room(newer, now);
        Ok(())
    }
}

impl<H: BuildHasher + Clone + Drop> Replica for Registers<H> {
    ghost copies = { λ r. r.copies };

    ghost stamps = { λ r. r.stamps };

    ghost spare = { λ r. r.spare };

    fn fresh(&self) -> Result<Self, Refusal> {
        Ok(Registers::new(*self.table.allocator(), self.table.hasher().clone()?))
    }

    fn copy(&self, key: &[u8]) -> Option<&Version> {
        match self.table.get(BorrowedKey { bytes: key }) {
            Some(slot) => Some(&slot.version),
            None => None,
        }
    }

    fn put(&mut self, key: Bytes, version: Version, now: u64) -> Result<(), Refusal> {
        self.room_for_key()?;
        self.put_room(key, version, now);
        Ok(())
    }

    fn merge(&mut self, pack: &Pack, now: u64) -> Result<(), Refusal> {
        match pack.copies() {
            [] => Ok(()),
            [copy] => self.merge_one(copy, now),
            _ => self.merge_all(pack, now),
        }
    }

    fn room(&mut self, pack: &Pack) -> Result<(), Refusal> {
        match pack.copies() {
            [] => Ok(()),
            copies => make_room(&mut self.table, &mut self.log, copies.len()),
        }
    }

    fn merge_room(&mut self, pack: Pack, now: u64) {
        match pack.copies() {
            [] => {}
            _ => write_newer(&mut self.table, &mut self.log, pack.into_copies(), now),
        }
    }

    fn room_for_key(&mut self) -> Result<(), Refusal> {
        make_room(&mut self.table, &mut self.log, 1)
    }

    fn put_room(&mut self, key: Bytes, version: Version, now: u64) {
        let place = self.table.get_index_of(&key);
        write(
            &mut self.table,
            &mut self.log,
            place,
            KeyedVersion { key, version },
            now,
        );
    }

    fn pack_since(&self, base: u64) -> Result<Pack, Refusal> {
        let changes = self.changes_since(base)?;
        Ok(Pack::new(changes))
    }

    fn pack(&self) -> Result<Pack, Refusal> {
        self.pack_since(0)
    }
}

// The place of a copy's key, and whether the copy is newer than what its key holds.
fn find<H: BuildHasher>(
    table: &IndexMap<Bytes, Slot, H>,
    copy: &KeyedVersion,
) -> (Option<usize>, bool)
    ensures place { result.0 ≡ place_in table.now.entries copy.now.key }
    ensures newer { result.1 ≡ is_newer (get (copies_of table.now.entries) copy.now.key) copy.now.version }
{
    match table.get_index_of(&copy.key) {
        Some(place) => (Some(place), table[place].version.is_before(&copy.version)),
        None => (None, true),
    }
}

// Makes room for that many more changes.
fn make_room<H: BuildHasher>(
    table: &mut IndexMap<Bytes, Slot, H>,
    log: &mut Vec<Row>,
    more: usize,
) -> Result<(), Refusal>
    ensures entries { table.new.entries ≡ table.old.entries }
    ensures rows { log.new.items ≡ log.old.items }
    ensures kept { room_in table.old log.old ≤ room_in table.new log.new }
    ensures ok { OnOk result (more ≤ room_in table.new log.new) }
    ensures idle { more ≡ 0 → IsOk result }
    ensures refused { IfErr result (λ r. r ≡ Refusal.OutOfMemory) }
{
    if more == 0 {
        return Ok(());
    }
    table.reserve(more)?;
    log.reserve(more)?;
    Ok(())
}

// Appends a row to the log, which has room for it. Where the log is then twice as long as the table its stale rows are
// swept. It allocates nothing.
fn write_row<H: BuildHasher>(table: &IndexMap<Bytes, Slot, H>, log: &mut Vec<Row>, row: Row)
    requires room { 0 < room_behind log.old }
    requires logged { IsLogOf table.now.entries (log.old.items ++ row ∷ []) }
    ensures logged { IsLogOf table.now.entries log.new.items }
    ensures short { IsShortFor table.now.entries log.new.items }
    ensures room { room_behind log.old ≤ room_behind log.new + 1 }
{
    let _done = log.push(row);
    if log.len() / 2 >= table.len() {
        sweep(table, log);
    }
}

// Drops the stale rows. It allocates nothing.
fn sweep<H: BuildHasher>(table: &IndexMap<Bytes, Slot, H>, log: &mut Vec<Row>)
    ensures rows { log.new.items ≡ filter (is_current table.now.entries) log.old.items }
    ensures room { room_behind log.old ≤ room_behind log.new }
{
    log.retain(|row| is_current(table, *row));
}

// Whether a row records a key's last change.
fn is_current<H: BuildHasher>(table: &IndexMap<Bytes, Slot, H>, row: Row) -> bool
    ensures { result ≡ is_current table.now.entries row }
{
    match table.get_index(row.place) {
        Some((_, slot)) => slot.number == row.number,
        None => false,
    }
}

// Puts a copy in the place of a key's, which was looked up, under a number. It allocates nothing, and no room where the
// key's last change was under that number.
fn write<H: BuildHasher>(
    table: &mut IndexMap<Bytes, Slot, H>,
    log: &mut Vec<Row>,
    place: Option<usize>,
    copy: KeyedVersion,
    now: u64,
)
    requires place { place ≡ place_in table.old.entries copy.key }
    requires room { told_at now (slot_in table.old.entries copy.key) ≡ false → 0 < room_in table.old log.old }
    requires late { AreAtMost now (stamps_of table.old.entries) }
    requires indexed { IsIndexed table.old.entries log.old.items }
    ensures copies { copies_of table.new.entries ≡ insert (copies_of table.old.entries) copy.key copy.version }
    ensures stamps { stamps_of table.new.entries ≡ insert (stamps_of table.old.entries) copy.key now }
    ensures indexed { IsIndexed table.new.entries log.new.items }
    ensures told { (key : List ℕ) → told_at now (slot_in table.new.entries key) ≡ (if bytes_eq key copy.key then true else told_at now (slot_in table.old.entries key)) }
    ensures room { room_in table.old log.old ≤ room_in table.new log.new + 1 }
    ensures again { told_at now (slot_in table.old.entries copy.key) ≡ true → room_in table.old log.old ≤ room_in table.new log.new }
{
    let KeyedVersion { key, version } = copy;
    let slot = Slot {
        version,
        number: now,
    };
    match place {
        Some(place) => {
            let told = table[place].number == now;
            table[place] = slot;
            if !told {
                write_row(table, log, Row { place, number: now });
            }
        }
        None => {
            if let Ok((place, _old)) = table.insert_full(key, slot) {
                write_row(table, log, Row { place, number: now });
            }
        }
    }
}

// Puts copies into a table that has room for them, each where it is newer, under a number. It allocates nothing.
fn write_newer<H: BuildHasher>(
    table: &mut IndexMap<Bytes, Slot, H>,
    log: &mut Vec<Row>,
    copies: Vec<KeyedVersion>,
    now: u64,
)
    requires room { HasRoom (room_in table.old log.old) (greatest_of copies.items) }
    requires late { AreAtMost now (stamps_of table.old.entries) }
    requires indexed { IsIndexed table.old.entries log.old.items }
    ensures copies { copies_of table.new.entries ≡ greatest_after (copies_of table.old.entries) copies.items }
    ensures stamps { stamps_of table.new.entries ≡ stamps_after now (copies_of table.old.entries) (stamps_of table.old.entries) copies.items }
    ensures indexed { IsIndexed table.new.entries log.new.items }
{
    for copy in copies {
        let (place, newer) = find(table, &copy);
        if newer {
            write(table, log, place, copy, now);
        }
    }
}
