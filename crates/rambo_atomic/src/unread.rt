//! What was read of a source, line by line.
ghost use Rattle.std.specs.Prelude.{◌≡◌, ◌≢◌, ◌⊎◌, ◌≤◌, ◌<◌, ◌+◌, ◌-◌, ◌++◌, ◌^◌, ℕ, List, [], true, false, drop, length, slice_index, IfOk, IfErr, OnOk, OnErr};
ghost use Rattle.std.specs.Bool.{MatchBool};
ghost use Rattle.std.specs.Io.KnownBytes.{Consumes, IsAtEnd};
ghost use Rattle.rambo_atomic.specs.Streams.{counted};
ghost use Rattle.rambo_atomic.specs.Unreads.{KnowsEnd, TakesIn, HasFeed, HasNoFeedFrom, HoldsLine, EndsInPiece, IsDone, work_left};
ghost use Rattle.rambo_atomic.specs.declared.whole.StreamFault.TheVariants as fault;

use crate::stream::Source;
use crate::whole::{StreamFault, append_piece};
use std::alloc::Global;
use std::marker::Model;

/// What was read of a source and isn't used yet.
///
/// With it a text of any length is read line by line, while only the lines of one piece are held at once.
#[derive(Drop)]
pub struct Unread {
    // What a read may fill. It has no place before the first read.
    piece: Vec<u8>,
    bytes: Vec<u8>,
    // How many of the bytes were used.
    start: usize,
    // Where the last line ends that has its line feed, or 0.
    lines: usize,
    ended: bool,
}

impl Model for Unread {
    ghost use Rattle.std.specs.Prelude.{drop, ◌≡◌, ◌≤◌, ◌<◌, ◌-◌, length, get_or};
    ghost use Rattle.rambo_atomic.specs.Unreads.{UnreadState, HasNoFeedFrom};

    ghost Value = { UnreadState };

    ghost view = { λ u. record { held = drop u.start u.bytes.items; ended = u.ended } };

    ghost invariant = { λ u. (u.start ≤ length u.bytes.items) × (u.lines ≤ length u.bytes.items) × (0 < u.lines → get_or u.bytes.items (u.lines - 1) 0 ≡ 10) × HasNoFeedFrom u.lines u.bytes.items };
}

impl Unread {
    /// Nothing was read. It allocates nothing.
    pub fn new(alloc: Global) -> Unread
        ensures { result ≡ record { held = []; ended = false } }
    {
        Unread {
            piece: Vec::new(alloc),
            bytes: Vec::new(alloc),
            start: 0,
            lines: 0,
            ended: false,
        }
    }

    /// The bytes that are held.
    pub fn as_slice(&self) -> &[u8]
        ensures held { result.now ≡ self.now.held }
        ensures fits { length self.now.held < 2 ^ 63 }
    {
        &self.bytes[self.start..]
    }

    /// The first of the bytes were used.
    pub fn forget(&mut self, count: usize)
        requires { count ≤ length self.old.held }
        ensures { self.new ≡ record self.old { held = drop count self.old.held } }
    {
        self.start += count;
    }

    /// Reads on until a line is held, with its line feed or up to the source's end, and returns whether there is one.
    /// It reads nothing where a line is held already, nothing past the end, and no piece after one in which a line
    /// ends.
    ///
    /// `Read` where the source fails, and `Memory` where there is no room for the bytes. What was read is
    /// held then too.
    #[inline(always)]
    pub fn find_line<R: Source>(&mut self, reader: &mut R) -> Result<bool, StreamFault>
        requires { KnowsEnd self.old (R.left reader.old) }
        ensures knows { KnowsEnd self.new (R.left reader.new) }
        ensures bytes { TakesIn (R.left reader.old) (R.left reader.new) self.old.held self.new.held }
        ensures ended { self.old.ended ≡ true → self.new ≡ self.old }
        ensures kept { HasFeed self.old.held → (self.new ≡ self.old) × (reader.new ≡ reader.old) }
        ensures stops { ¬ (HasFeed self.old.held) → EndsInPiece self.new.held }
        ensures line { IfOk result (λ has. MatchBool has (HoldsLine self.new) (IsDone self.new)) }
        ensures work { OnOk result (work_left (R.reads_left reader.new) self.new ≤ work_left (R.reads_left reader.old) self.old) }
        ensures fine { OnOk result (R.failures reader.new ≡ R.failures reader.old) }
        ensures fault { IfErr result (λ f. ((f ≡ fault.Read) × (R.failures reader.new ≡ counted (R.failures reader.old)))
            ⊎ ((f ≡ fault.Memory) × (R.failures reader.new ≡ R.failures reader.old))) }
    {
        while !self.is_ready() {
            self.read_piece(reader)?;
        }
        Ok(!self.as_slice().is_empty())
    }

    /// Forgets all, and reads all that the source has left, for its failures alone.
    ///
    /// `Read` where the source fails, and `Memory` where there is no room for a piece and none was read before.
    pub fn read_rest<R: Source>(&mut self, reader: &mut R) -> Result<(), StreamFault>
        requires { KnowsEnd self.old (R.left reader.old) }
        ensures knows { KnowsEnd self.new (R.left reader.new) }
        ensures bytes { (given : List ℕ) × Consumes (R.left reader.old) (R.left reader.new) given }
        ensures end { OnOk result (IsAtEnd (R.left reader.new)) }
        ensures fine { OnOk result (R.failures reader.new ≡ R.failures reader.old) }
        ensures fault { IfErr result (λ f. ((f ≡ fault.Read) × (R.failures reader.new ≡ counted (R.failures reader.old)))
            ⊎ ((f ≡ fault.Memory) × (R.failures reader.new ≡ R.failures reader.old))) }
    {
        self.forget_all();
        while !self.has_ended() {
            self.read_piece(reader)?;
            self.forget_all();
        }
        Ok(())
    }

    fn forget_all(&mut self)
        ensures { self.new ≡ record self.old { held = [] } }
    {
        self.start = self.bytes.len();
    }

    // Whether all was read.
    fn has_ended(&self) -> bool
        ensures { result ≡ self.now.ended }
    {
        self.ended
    }

    // Whether a line is held with its line feed, or all was read.
    fn is_ready(&self) -> bool
        ensures { MatchBool result (HasFeed self.now.held ⊎ (self.now.ended ≡ true)) ((¬ (HasFeed self.now.held)) × (self.now.ended ≡ false)) }
    {
        self.start < self.lines || self.ended
    }

    // Reads one more piece. It may forget nothing but what was used.
    fn read_piece<R: Source>(&mut self, reader: &mut R) -> Result<(), StreamFault>
        requires { self.old.ended ≡ false }
        ensures knows { KnowsEnd self.new (R.left reader.new) }
        ensures bytes { TakesIn (R.left reader.old) (R.left reader.new) self.old.held self.new.held }
        ensures fits { length self.new.held < 2 ^ 63 }
        ensures piece { length self.new.held ≤ length self.old.held + 2 ^ 16 }
        ensures reads { OnOk result (R.reads_left reader.new < R.reads_left reader.old) }
        ensures fine { OnOk result (R.failures reader.new ≡ R.failures reader.old) }
        ensures fault { IfErr result (λ f. ((f ≡ fault.Read) × (R.failures reader.new ≡ counted (R.failures reader.old)))
            ⊎ ((f ≡ fault.Memory) × (R.failures reader.new ≡ R.failures reader.old))) }
    {
        forget_front(&mut self.bytes, self.start);
        self.lines = self.lines.saturating_sub(self.start);
        self.start = 0;
        let before = self.bytes.len();
        let count = append_piece(&mut self.piece, &mut self.bytes, reader)?;
        self.ended = count == 0;
        let lines = lines_end(&self.bytes[before..]);
        if 0 < lines {
            self.lines = before + lines;
        }
        Ok(())
    }
}

// Drops some bytes at the front.
fn forget_front(bytes: &mut Vec<u8>, count: usize)
    requires { count ≤ length bytes.old.items }
    ensures { bytes.new.items ≡ drop count bytes.old.items }
{
    if count == 0 {
        return;
    }
    let rest = bytes.len() - count;
    bytes.copy_within(count.., 0);
    bytes.truncate(rest);
}

// Where the last line ends that has its line feed, or 0 where none has.
fn lines_end(bytes: &[u8]) -> usize
    ensures within { result ≤ length bytes.now }
    ensures feed { 0 < result → slice_index bytes.now (result - 1) ≡ 10 }
    ensures last { HasNoFeedFrom result bytes.now }
{
    let mut end = bytes.len();
    while 0 < end && bytes[end - 1] != b'\n' {
        end -= 1;
    }
    end
}
