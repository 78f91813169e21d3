//! How far a stream was read.
ghost use Rattle.std.specs.Prelude.{◌≡◌, ◌≤◌, ◌++◌, true, false, OnErr, ◌∷◌, ◌+◌, [], ℕ, List, length, take, drop, OnOk, IfOk, IfErr};
ghost use Rattle.std.specs.Option.{option_to_list};
ghost use Rattle.rambo_resp.specs.Streams.{place_of};
ghost use Rattle.rambo_resp.specs.Endings.{is_star};
ghost use Rattle.rambo_resp.specs.BriefCommands.{is_between};
ghost use Rattle.rambo_resp.specs.Progresses.{ProgressState, running, run, step, fresh, are_bytes, with_item, item_read, line_read, Extends, Stops};

use crate::awaited::{Awaited, after, fault_of};
use crate::command::Command;
use crate::fault::Fault;
use crate::front::{count_line, whole_item};
use rambo_names::Bytes;
use std::alloc::Global;
use std::collections::VecDeque;
use std::marker::Model;
use std::mem;

/// The commands of a stream that are whole and weren't given yet, and the command that has begun.
#[derive(Drop)]
pub struct Progress {
    alloc: Global,
    waiting: VecDeque<Command>,
    // How many bytes of the stream have come, or 2^64 - 1.
    place: u64,
    awaited: Awaited,
    // The whole items of the command that has begun, and the bytes of the next one.
    items: Command,
    item: Vec<u8>,
}

impl Model for Progress {
    ghost use Rattle.rambo_resp.specs.Progresses.{ProgressState};

    ghost Value = { ProgressState };

    ghost view = { λ p. record { waiting = p.waiting.items; place = p.place; rest = record { awaited = p.awaited; items = p.items; item = p.item.items } } };
}

impl Progress {
    /// Nothing has come.
    pub fn new(alloc: Global) -> Self
        ensures { result ≡ record { waiting = []; place = 0; rest = fresh } }
    {
        Progress {
            alloc,
            waiting: VecDeque::new(alloc),
            place: 0,
            awaited: Awaited::Star,
            items: Command::new(alloc),
            item: Vec::new(alloc),
        }
    }

    /// The oldest whole command, which is taken out.
    pub fn take_oldest(&mut self) -> Option<Command>
        ensures oldest { self.old.waiting ≡ option_to_list result ++ self.new.waiting }
        ensures kept { self.new ≡ record self.old { waiting = drop 1 self.old.waiting } }
    {
        self.waiting.pop_front()
    }

    /// Whether no command has begun, and none is whole.
    pub fn is_between(&self) -> bool
        ensures { result ≡ is_between self.now }
    {
        self.waiting.is_empty() && matches!(self.awaited, Awaited::Star)
    }

    /// How many of the next bytes surely belong to the command that has begun: 0 where none has.
    pub fn begun(&self, most: usize) -> usize
        ensures few { result ≤ most }
        ensures none { is_star self.now.rest.awaited ≡ true → result ≡ 0 }
        ensures some { is_star self.now.rest.awaited ≡ false → 1 ≤ most → 1 ≤ result }
    {
        match self.awaited {
            Awaited::Star => 0,
            Awaited::Bytes(_, more) if more > 0 => most.min(usize::from(more)),
            _ => most.min(1),
        }
    }

    /// Goes past this many bytes, after which it stands as before them.
    pub fn skip(&mut self, bytes: usize)
        ensures { self.new ≡ record self.old { place = place_of (self.old.place + bytes) } }
    {
        self.place = self.place.saturating_add(bytes as u64);
    }

    /// How many whole commands there are.
    pub fn count(&self) -> usize
        ensures { result ≡ length self.now.waiting }
    {
        self.waiting.len()
    }

    /// Forgets all but the first whole commands, and the command that has begun.
    pub fn cut_back(&mut self, count: usize)
        ensures { self.new ≡ record self.old { waiting = take count self.old.waiting; rest = fresh } }
    {
        self.waiting.truncate(count);
        self.awaited = Awaited::Star;
        self.items = Command::new(self.alloc);
        self.item = Vec::new(self.alloc);
    }

    /// Reads a piece of the stream, until it breaks or memory runs out.
    pub fn read(&mut self, piece: &[u8]) -> Result<(), Fault>
        ensures ok { OnOk result (run (running self.old) piece.now ≡ running self.new) }
        ensures kept { Extends self.old.waiting self.new.waiting }
        ensures stopped { IfErr result (Stops self.old piece.now self.new) }
    {
        let mut rest = piece;
        while !rest.is_empty() {
            let count = self.read_some(rest)?;
            rest = &rest[count..];
        }
        Ok(())
    }

    // Reads the first of some bytes, or as many as belong to one item, or what is whole at their beginning, and returns
    // how many these were.
    fn read_some(&mut self, bytes: &[u8]) -> Result<usize, Fault>
        requires { 1 ≤ length bytes.now }
        ensures some { IfOk result (λ n. (1 ≤ n) × (n ≤ length bytes.now)) }
        ensures ok { IfOk result (λ n. run (running self.old) bytes.now ≡ run (running self.new) (drop n bytes.now)) }
        ensures kept { Extends self.old.waiting self.new.waiting }
        ensures stopped { IfErr result (Stops self.old bytes.now self.new) }
    {
        match self.awaited {
            Awaited::Bytes(left, more) if more > 0 => self.read_bytes(left, more, bytes),
            Awaited::Dollar(left) => match whole_item(bytes) {
                Some((item, rest)) => {
                    let count = bytes.len() - rest.len();
                    self.read_item(left, item, count)?;
                    Ok(count)
                }
                None => self.read_first(bytes),
            },
            Awaited::Star => match count_line(bytes) {
                Some((items, rest)) => {
                    let count = bytes.len() - rest.len();
                    self.read_line(items, count)?;
                    Ok(count)
                }
                None => self.read_first(bytes),
            },
            _ => self.read_first(bytes),
        }
    }

    // Reads as many of some bytes as belong to an item, of which this many are still to come.
    fn read_bytes(&mut self, left: u16, more: u16, bytes: &[u8]) -> Result<usize, Fault>
        requires awaited { self.old.rest.awaited ≡ Awaited.Bytes left more }
        requires more { 1 ≤ more }
        requires some { 1 ≤ length bytes.now }
        ensures some { IfOk result (λ n. (1 ≤ n) × (n ≤ length bytes.now)) }
        ensures ok { IfOk result (λ n. run (running self.old) bytes.now ≡ run (running self.new) (drop n bytes.now)) }
        ensures kept { self.new.waiting ≡ self.old.waiting }
        ensures refused { IfErr result (λ f. f ≡ Fault.OutOfMemory) }
    {
        let count = bytes.len().min(usize::from(more));
        self.item.extend_from_slice(&bytes[..count])?;
        self.awaited = Awaited::Bytes(left, more - count as u16);
        self.place = self.place.saturating_add(count as u64);
        Ok(count)
    }

    // Reads an item that has come whole, by a spelling of this many bytes.
    fn read_item(&mut self, left: u16, item: &[u8], size: usize) -> Result<(), Fault>
        ensures ok { OnOk result (self.new ≡ item_read self.old left item.now size) }
        ensures kept { Extends self.old.waiting self.new.waiting }
        ensures refused { IfErr result (λ f. f ≡ Fault.OutOfMemory) }
    {
        let bytes = Bytes::from_slice(self.alloc, item).map_err(|_| Fault::OutOfMemory)?;
        self.put_item(left, bytes)?;
        self.awaited = if left <= 1 {
            Awaited::Star
        } else {
            Awaited::Dollar(left - 1)
        };
        self.place = self.place.saturating_add(size as u64);
        Ok(())
    }

    // Reads the line of an array of some items, a line of this many bytes.
    fn read_line(&mut self, items: u16, size: usize) -> Result<(), Fault>
        ensures ok { OnOk result (self.new ≡ line_read self.old items size) }
        ensures kept { self.new.waiting ≡ self.old.waiting }
        ensures refused { IfErr result (λ f. f ≡ Fault.OutOfMemory) }
    {
        self.items = Command::with_capacity(self.alloc, items)?;
        self.awaited = Awaited::Dollar(items);
        self.place = self.place.saturating_add(size as u64);
        Ok(())
    }

    // Reads the first of some bytes, which belongs to no item.
    fn read_first(&mut self, bytes: &[u8]) -> Result<usize, Fault>
        requires some { 1 ≤ length bytes.now }
        requires sign { are_bytes self.old.rest.awaited ≡ false }
        ensures one { IfOk result (λ n. n ≡ 1) }
        ensures ok { OnOk result (run (running self.old) bytes.now ≡ run (running self.new) (drop 1 bytes.now)) }
        ensures kept { Extends self.old.waiting self.new.waiting }
        ensures stopped { IfErr result (Stops self.old bytes.now self.new) }
    {
        self.read_sign(bytes[0])?;
        Ok(1)
    }

    // Reads one byte that belongs to no item.
    fn read_sign(&mut self, byte: u8) -> Result<(), Fault>
        requires { are_bytes self.old.rest.awaited ≡ false }
        ensures ok { OnOk result (step self.old byte ≡ running self.new) }
        ensures kept { Extends self.old.waiting self.new.waiting }
        ensures stopped { IfErr result (Stops self.old (byte ∷ []) self.new) }
    {
        let Some(next) = after(self.awaited, byte) else {
            return Err(fault_of(self.awaited, byte, self.place));
        };
        match self.awaited {
            Awaited::CountFeed(n) => self.items = Command::with_capacity(self.alloc, n)?,
            Awaited::LengthFeed(_, n) => {
                self.item.reserve(usize::from(n))?;
                self.item.clear();
            }
            Awaited::ItemFeed(left) => self.end_item(left)?,
            _ => {}
        }
        self.awaited = next;
        self.place = self.place.saturating_add(1);
        Ok(())
    }

    // Ends the item that has come.
    fn end_item(&mut self, left: u16) -> Result<(), Fault>
        ensures ok { OnOk result (self.new ≡ with_item self.old left self.old.rest.item) }
        ensures err { OnErr result (self.new.waiting ≡ self.old.waiting) }
        ensures refused { IfErr result (λ f. f ≡ Fault.OutOfMemory) }
    {
        let item = taken(&mut self.item)?;
        self.put_item(left, item)
    }

    // Puts an item to the others, and where none is left, the command to those that are whole.
    fn put_item(&mut self, left: u16, item: Bytes) -> Result<(), Fault>
        ensures ok { OnOk result (self.new ≡ with_item self.old left item) }
        ensures err { OnErr result (self.new.waiting ≡ self.old.waiting) }
        ensures refused { IfErr result (λ f. f ≡ Fault.OutOfMemory) }
    {
        self.items.push(item)?;
        self.item.clear();
        if left <= 1 {
            let command = mem::replace(&mut self.items, Command::new(self.alloc));
            self.waiting.push_back(command)?;
        }
        Ok(())
    }
}

// The bytes of an item. The room of few bytes stays for the next item, and that of many goes with them.
fn taken(item: &mut Vec<u8>) -> Result<Bytes, Fault>
    ensures bytes { IfOk result (λ b. b ≡ item.old.items) }
    ensures refused { IfErr result (λ f. f ≡ Fault.OutOfMemory) }
{
    let alloc = *item.allocator();
    if item.len() > Bytes::SHORT {
        let all = mem::replace(item, Vec::new(alloc));
        return Bytes::from_vec(all).map_err(|_| Fault::OutOfMemory);
    }
    Bytes::from_slice(alloc, item.as_slice()).map_err(|_| Fault::OutOfMemory)
}
