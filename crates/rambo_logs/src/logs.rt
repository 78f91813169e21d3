//! The logs of the nodes.
ghost use Rattle.std.specs.Prelude.{◌≡◌, ℕ, ◌+◌, ◌<◌, ◌≤◌, ◌∷◌, [], length, replicate, Some, IsOk, IfOk, IfErr, OnOk, OnErr};
ghost use Rattle.std.specs.Option.{IsSomeAnd};
ghost use Rattle.rambo_names.specs.Names.{IsName};
ghost use Rattle.rambo_tag.specs.Copies.{joined};
ghost use Rattle.rambo_tag.specs.Logs.{greatest_of};
ghost use Rattle.rambo_logs.specs.NodeLogs.{Brought, log_at, extended, part, lacked, settled, with_room, with_brought};

use crate::entry::Entry;
use crate::hints::{NODES, make_rows, place_of};
use crate::key_numbers::KeyNumbers;
use crate::lacked::{list_lacked, log_entries, log_entry, pack_of};
use crate::pending::Pending;
use rambo_names::{Bytes, Name, Refusal};
use rambo_tag::{KeyedVersion, Pack};
use std::alloc::Global;
use std::marker::Model;

/// The logs of the nodes of the names 1 to 64, each the list of the copies that the node's registers took, the oldest
/// first.
///
/// Each copy is stored once, however many logs have it.
pub struct Logs {
    // Each copy that was put, in the order of the puts.
    puts: Vec<KeyedVersion>,
    keys: KeyNumbers,
    // A row of 64 for each key's number, and none for a key that was never put.
    hints: Vec<usize>,
    logs: Vec<Vec<Entry>>,
    // What was brought last.
    lacked: Vec<Entry>,
    pending: Pending,
}

// By hand, so that those who drop it needn't follow all that is in it.
impl Drop for Logs {
    fn drop(self) {
        let Logs {
            puts: _puts,
            keys: _keys,
            hints: _hints,
            logs: _logs,
            lacked: _lacked,
            pending: _pending,
        } = self;
    }
}

impl Model for Logs {
    ghost use Rattle.rambo_logs.specs.NodeLogs.{LogsState};

    ghost Value = { LogsState };

    ghost use Rattle.rambo_logs.specs.Inside.{seen, AreKept};

    ghost view = { seen };

    ghost invariant = { AreKept };
}

impl Logs {
    /// Empty logs.
    ///
    /// `OutOfMemory` where there is no room for them.
    pub fn new(alloc: Global) -> Result<Logs, Refusal>
        ensures empty { IfOk result (λ l. l ≡ settled (replicate 64 [])) }
        ensures refused { IfErr result (λ r. r ≡ Refusal.OutOfMemory) }
    {
        let mut logs = Vec::new(alloc);
        for _node in 0..NODES {
            logs.push(Vec::new(alloc))?;
        }
        Ok(Logs {
            puts: Vec::new(alloc),
            keys: KeyNumbers::new(alloc),
            hints: Vec::new(alloc),
            logs,
            lacked: Vec::new(alloc),
            pending: Pending::Nothing,
        })
    }

    /// How many copies the log of a name has.
    pub fn len(&self, name: Name) -> usize
        ensures count { result ≡ length (log_at self.now.logs name) }
        ensures named { IsName name }
        ensures names { length self.now.logs ≡ 64 }
    {
        self.logs[place_of(name)].len()
    }

    /// Makes room for one copy of a key in the log of a name, of any bytes.
    ///
    /// `OutOfMemory` where there is none. The logs are then unchanged, and there is room for nothing.
    pub fn reserve(&mut self, name: Name, key: &Bytes) -> Result<(), Refusal>
        ensures ok { OnOk result (self.new ≡ with_room self.old.logs name key.now) }
        ensures err { OnErr result (self.new ≡ settled self.old.logs) }
        ensures refused { IfErr result (λ r. r ≡ Refusal.OutOfMemory) }
    {
        self.pending = Pending::Nothing;
        let number = self.keys.number_of(key)?;
        make_rows(&mut self.hints, number)?;
        self.puts.reserve(1)?;
        self.logs[place_of(name)].reserve(1)?;
        self.pending = Pending::Put(name, number);
        Ok(())
    }

    /// Appends a copy to the log of a name, where room was made for it. It allocates nothing.
    pub fn put(&mut self, name: Name, copy: KeyedVersion)
        requires { self.old.room ≡ Some (record { name = name; key = copy.key }) }
        ensures { self.new ≡ settled (extended self.old.logs name (copy ∷ [])) }
    {
        let number = match self.pending {
            Pending::Put(_, number) => number,
            _ => unreachable!(),
        };
        self.pending = Pending::Nothing;
        let entry = Entry {
            place: self.puts.len(),
            number,
        };
        self.puts.push_reserved(copy);
        let node = place_of(name);
        log_entry(
            &mut self.logs[node],
            &mut self.hints,
            self.puts.as_slice(),
            node,
            entry,
        );
    }

    /// Finds the copies that the log of a name lacks of a part of another's, makes room for them, and returns them.
    ///
    /// The part goes from `start` up to `end`, as far as the log does. A copy is lacked if it is newer than the
    /// greatest of its key in the log. A key may occur more than once among these.
    ///
    /// `OutOfMemory` where there is no room for what is lacked. Where nothing is lacked it can't fail. In either case
    /// the logs are unchanged.
    pub fn bring(&mut self, to: Name, from: Name, start: usize, end: usize) -> Result<Pack, Refusal>
        ensures given { IfOk result (λ p. p ≡ greatest_of (lacked (greatest_of (log_at self.old.logs to)) (part (log_at self.old.logs from) start end))) }
        ensures ok { OnOk result (self.new ≡ with_brought self.old.logs to (lacked (greatest_of (log_at self.old.logs to)) (part (log_at self.old.logs from) start end))) }
        ensures enough { joined (greatest_of (log_at self.old.logs to)) (greatest_of (lacked (greatest_of (log_at self.old.logs to)) (part (log_at self.old.logs from) start end))) ≡ joined (greatest_of (log_at self.old.logs to)) (greatest_of (part (log_at self.old.logs from) start end)) }
        ensures idle { lacked (greatest_of (log_at self.old.logs to)) (part (log_at self.old.logs from) start end) ≡ [] → IsOk result }
        ensures err { OnErr result (self.new ≡ settled self.old.logs) }
        ensures refused { IfErr result (λ r. r ≡ Refusal.OutOfMemory) }
    {
        self.pending = Pending::Nothing;
        self.lacked.clear();
        let node = place_of(to);
        list_lacked(
            &mut self.lacked,
            self.puts.as_slice(),
            self.hints.as_slice(),
            node,
            between(self.logs[place_of(from)].as_slice(), start, end),
        )?;
        let pack = pack_of(&self.puts, self.lacked.as_slice())?;
        self.logs[node].reserve(self.lacked.len())?;
        self.pending = Pending::TakeOn(to);
        Ok(pack)
    }

    /// Appends the copies that `bring` found for a name to its log. It allocates nothing.
    pub fn take_on(&mut self, to: Name)
        requires { IsSomeAnd self.old.brought (λ b. b.to ≡ to) }
        ensures { (b : Brought) → self.old.brought ≡ Some b → self.new ≡ settled (extended self.old.logs to b.copies) }
    {
        self.pending = Pending::Nothing;
        let node = place_of(to);
        log_entries(
            &mut self.logs[node],
            &mut self.hints,
            self.puts.as_slice(),
            node,
            self.lacked.as_slice(),
        );
    }
}

// The entries from one place up to another, as far as there are any.
fn between(log: &[Entry], start: usize, end: usize) -> &[Entry]
    ensures { result.now ≡ part log.now start end }
{
    let front = &log[..end.min(log.len())];
    &front[start.min(front.len())..]
}
