//! Streams over memory that can be set to fail.
ghost use Rattle.std.specs.Prelude.{◌≡◌, ◌≢◌, ◌≤◌, ◌<◌, ◌+◌, ◌-◌, ◌++◌, ◌⊎◌, ◌↔◌, ◌^◌, ℕ, min, take, drop, length, vec_capacity, vec_len, [], IfOk, IsOk, IsErr, MatchResult};
ghost use Rattle.rambo_atomic.specs.Streams.{counted, tape_left, tape_after_read, tape_after_write};

use crate::stream::{Failed, READ_LIMIT, Sink, Source};
use std::marker::Model;

/// Bytes in memory that are read from the beginning, and written at the end.
///
/// Each call takes as many bytes as there are and as there is room for, up to the longest piece. One call can be set to
/// fail, to test what follows.
#[derive(Drop)]
pub struct Tape {
    bytes: Vec<u8>,
    place: usize,
    piece: usize,
    until: u64,
    reads: u64,
    failures: u64,
}

impl Model for Tape {
    ghost use Rattle.std.specs.Prelude.{◌≤◌, ◌<◌, ◌-◌, ◌^◌, length, vec_capacity, vec_len};
    ghost use Rattle.rambo_atomic.specs.Streams.{TapeState};

    ghost Value = { TapeState };

    ghost view = { λ t. record { bytes = t.bytes.items; room = vec_capacity t.bytes - vec_len t.bytes; place = t.place; piece = t.piece; until = t.until; reads = t.reads; failures = t.failures } };

    ghost invariant = { λ t. (t.place ≤ length t.bytes.items) × (0 < t.piece) × (t.reads ≤ 2 ^ 60) };
}

impl Tape {
    /// A tape with these bytes, of which none was read. Pieces have any length, and no call fails.
    pub fn new(bytes: Vec<u8>) -> Tape
        ensures { result ≡ record { bytes = bytes.items; room = vec_capacity bytes - vec_len bytes; place = 0; piece = usize.MAX; until = 0; reads = 0; failures = 0 } }
    {
        Tape {
            bytes,
            place: 0,
            piece: usize::MAX,
            until: 0,
            reads: 0,
            failures: 0,
        }
    }

    /// The same tape, of which a call reads or writes some bytes at most.
    pub fn in_pieces(self, length: usize) -> Tape
        requires { 0 < length }
        ensures { result ≡ record self { piece = length } }
    {
        Tape {
            piece: length,
            ..self
        }
    }

    /// The same tape, whose `call`th read or write from now on fails, counted from 1. None does for 0.
    pub fn failing_at(self, call: u64) -> Tape
        ensures { result ≡ record self { until = call } }
    {
        Tape {
            until: call,
            ..self
        }
    }

    /// All bytes, including those that were read.
    pub fn bytes(&self) -> &[u8]
        ensures { result.now ≡ self.now.bytes }
    {
        self.bytes.as_slice()
    }

    /// How many calls failed, at most 2^64 - 1.
    pub fn failures(&self) -> u64
        ensures { result ≡ self.now.failures }
    {
        self.failures
    }

    // Counts a failed call.
    fn fail(&mut self) -> Failed
        ensures { self.new ≡ record self.old { failures = counted self.old.failures } }
    {
        self.failures = self.failures.saturating_add(1);
        Failed
    }
}

impl Source for Tape {
    ghost use Rattle.std.specs.Prelude.{Some, ◌-◌, ◌^◌};
    ghost use Rattle.rambo_atomic.specs.Streams.{tape_left};

    ghost left = { λ t. Some (tape_left t) };

    ghost failures = { λ t. t.failures };

    ghost reads_left = { λ t. 2 ^ 60 - t.reads };

    fn read(&mut self, into: &mut [u8]) -> Result<usize, Failed>
        requires { 0 < length into.old }
        ensures state { self.new ≡ tape_after_read self.old result }
        ensures count { IfOk result (λ n. n ≡ min (min (length (tape_left self.old)) (length into.old)) self.old.piece) }
        ensures bytes { IfOk result (λ n. tape_left self.old ≡ take n into.new ++ tape_left self.new) }
        ensures end { IfOk result (λ n. n ≡ 0 → tape_left self.new ≡ []) }
        ensures rest { MatchResult result (λ n. drop n into.new ≡ drop n into.old) (λ _. into.new ≡ into.old) }

        // The set call fails, and each read after the first 2^60.
        ensures fails { IsErr result ↔ ((self.old.until ≡ 1) ⊎ (2 ^ 60 ≤ self.old.reads)) }
    {
        let due = self.until == 1;
        self.until = self.until.saturating_sub(1);
        if self.reads < READ_LIMIT {
            self.reads += 1;
            if !due {
                let rest = &self.bytes[self.place..];
                let count = rest.len().min(into.len()).min(self.piece);
                into[..count].copy_from_slice(&rest[..count]);
                self.place += count;
                return Ok(count);
            }
        }
        Err(self.fail())
    }

    ghost use Rattle.std.proofs.Common.{rules};

    ghost limited = { Prim.search rules };
}

impl Sink for Tape {
    ghost use Rattle.std.specs.Prelude.{Some};

    ghost taken = { λ t. Some t.bytes };

    ghost failures = { λ t. t.failures };

    fn write(&mut self, bytes: &[u8]) -> Result<usize, Failed>
        requires { 0 < length bytes.now }
        ensures state { self.new ≡ tape_after_write self.old bytes.now self.new.room result }
        ensures count { IfOk result (λ n. (0 < n) × (n ≡ min (length bytes.now) self.old.piece)) }
        ensures room { self.old.room ≤ self.new.room + length bytes.now }

        // The set call fails. Any other finds room for its piece, or is out of memory.
        ensures fails { self.old.until ≡ 1 → IsErr result }
        ensures succeeds { self.old.until ≢ 1 → min (length bytes.now) self.old.piece ≤ self.old.room → IsOk result }
    {
        let due = self.until == 1;
        self.until = self.until.saturating_sub(1);
        let count = bytes.len().min(self.piece);
        if !due && self.bytes.extend_from_slice(&bytes[..count]).is_ok() {
            return Ok(count);
        }
        Err(self.fail())
    }
}
