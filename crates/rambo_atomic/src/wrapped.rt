//! Readers and writers of std as a `Source` and a `Sink`.
ghost use Rattle.std.specs.Prelude.{◌≡◌, ◌⊎◌, ◌↔◌, ◌≤◌, ◌<◌, ◌^◌, ℕ, List, Option, Result, Ok, Err, take, length, IfOk, OnErr, IsErr, IsTrue, MatchResult, ⊤};
ghost use Rattle.std.specs.declared.io.Error.{Error};
ghost use Rattle.std.specs.Io.{ReadsAtMost, WritesAtMost};
ghost use Rattle.std.specs.Io.KnownBytes.{Appends, Consumes, IsAtEnd, Keeps, ReadConsumes, WriteAppends};
ghost use Rattle.rambo_atomic.specs.Streams.{Answers, IsInterruption, wrapped_after_read, wrapped_after_write};

use crate::stream::{Failed, READ_LIMIT, Sink, Source};
use std::io;
use std::io::{ErrorKind, Read, Write};
use std::marker::Model;

/// A reader of std.
///
/// std doesn't say when a read fails, so this is left open here. Code that borrows a `Reader` learns of a failure only
/// by a read that failed.
pub trait Reader {
    // The bytes that reads will give from here on, where they are known.
    ghost left: { Self → Option (List ℕ) };

    // A read may answer this, and leave the reader so.
    ghost read_gives: { Self → Result ℕ Error → Self → Type 0 };

    /// Reads once.
    fn read_once(&mut self, into: &mut [u8]) -> io::Result<usize>
        ensures bound { ReadsAtMost result into.new }
        ensures bytes { ReadConsumes (left self.old) (left self.new) result into.new }
        ensures gives { read_gives self.old result self.new };
}

/// A writer of std. When a write fails is left open, as for a read of a `Reader`.
pub trait Writer {
    // The bytes that it holds, where they are known.
    ghost taken: { Self → Option (List ℕ) };

    // A write of these bytes may answer this, and leave the writer so.
    ghost write_gives: { List ℕ → Self → Result ℕ Error → Self → Type 0 };

    /// Writes once.
    fn write_once(&mut self, bytes: &[u8]) -> io::Result<usize>
        ensures bound { WritesAtMost result bytes.now }
        ensures bytes { WriteAppends (taken self.old) (taken self.new) result bytes.now }
        ensures gives { write_gives bytes.now self.old result self.new };
}

impl<T: Read> Reader for T {
    ghost left = { T.remaining };

    ghost read_gives = { λ _ _ _. ⊤ };

    fn read_once(&mut self, into: &mut [u8]) -> io::Result<usize> {
        self.read(into)
    }
}

impl<T: Write> Writer for T {
    ghost taken = { T.contents };

    ghost write_gives = { λ _ _ _ _. ⊤ };

    fn write_once(&mut self, bytes: &[u8]) -> io::Result<usize> {
        self.write(bytes)
    }
}

/// A reader or writer of std. Its bytes are those of the inner one.
///
/// A call that a signal interrupts is made again, and it fails only where the inner one did.
#[derive(Drop)]
pub struct Wrapped<T> {
    inner: T,
    reads: u64,
    failures: u64,
}

impl<T> Model for Wrapped<T> {
    ghost use Rattle.std.specs.Prelude.{◌≤◌, ◌^◌};
    ghost use Rattle.std.specs.Coded.{codes};
    ghost use Rattle.rambo_atomic.specs.Streams.{WrappedState};

    ghost Value = { WrappedState T };

    ghost coded = { Prim.hlevel (codes, T.code) };

    ghost view = { λ w. record { inner = w.inner; reads = w.reads; failures = w.failures } };

    ghost invariant = { λ w. w.reads ≤ 2 ^ 60 };
}

impl<T> Wrapped<T> {
    /// A stream of which no call was made.
    pub fn new(inner: T) -> Wrapped<T>
        ensures { result ≡ record { inner = inner; reads = 0; failures = 0 } }
    {
        Wrapped {
            inner,
            reads: 0,
            failures: 0,
        }
    }

    /// How many calls failed, at most 2^64 - 1.
    pub fn failures(&self) -> u64
        ensures { result ≡ self.now.failures }
    {
        self.failures
    }

    /// The reader or writer.
    pub fn into_inner(self) -> T
        ensures { result ≡ self.inner }
    {
        self.inner
    }
}

impl<T: Reader> Source for Wrapped<T> {
    ghost use Rattle.std.specs.Prelude.{◌-◌, ◌^◌};

    ghost left = { λ w. T.left w.inner };

    ghost failures = { λ w. w.failures };

    ghost reads_left = { λ w. 2 ^ 60 - w.reads };

    fn read(&mut self, into: &mut [u8]) -> Result<usize, Failed>
        requires { 0 < length into.old }
        ensures state { self.new ≡ wrapped_after_read self.old self.new.inner result }
        ensures count { IfOk result (λ n. n ≤ length into.new) }
        ensures bytes { IfOk result (λ n. Consumes (T.left self.old.inner) (T.left self.new.inner) (take n into.new)) }
        ensures end { IfOk result (λ n. n ≡ 0 → IsAtEnd (T.left self.new.inner)) }
        ensures kept { OnErr result (Keeps (T.left self.old.inner) (T.left self.new.inner)) }

        // It gives what the reader answers, if it isn't read too often.
        ensures answer { self.old.reads < 2 ^ 60 → (answer : Result ℕ Error) × Answers T.read_gives self.old.inner answer self.new.inner
            × MatchResult answer (λ n. result ≡ Ok n) (λ _. IsErr result) }

        // Each read after the first 2^60 fails, and leaves the reader alone.
        ensures limit { 2 ^ 60 ≤ self.old.reads → IsErr result × (self.new.inner ≡ self.old.inner) }
    {
        if self.reads < READ_LIMIT {
            self.reads += 1;
            if let Ok(count) = read(&mut self.inner, into) {
                return Ok(count);
            }
        }
        self.failures = self.failures.saturating_add(1);
        Err(Failed)
    }

    ghost use Rattle.std.proofs.Common.{rules};

    ghost limited = { Prim.search rules };
}

impl<T: Writer> Sink for Wrapped<T> {
    ghost taken = { λ w. T.taken w.inner };

    ghost failures = { λ w. w.failures };

    fn write(&mut self, bytes: &[u8]) -> Result<usize, Failed>
        requires { 0 < length bytes.now }
        ensures state { self.new ≡ wrapped_after_write self.old self.new.inner result }
        ensures count { IfOk result (λ n. (0 < n) × (n ≤ length bytes.now)) }
        ensures bytes { IfOk result (λ n. Appends (T.taken self.old.inner) (T.taken self.new.inner) (take n bytes.now)) }
        ensures kept { OnErr result (Keeps (T.taken self.old.inner) (T.taken self.new.inner)) }

        // It gives what the writer answers, and fails where that took no byte.
        ensures answer { (answer : Result ℕ Error) × Answers (T.write_gives bytes.now) self.old.inner answer self.new.inner
            × MatchResult answer (λ n. (result ≡ Ok n) ⊎ ((n ≡ 0) × IsErr result)) (λ _. IsErr result) }
    {
        match write(&mut self.inner, bytes) {
            Ok(count) if 0 < count => Ok(count),
            _ => {
                self.failures = self.failures.saturating_add(1);
                Err(Failed)
            }
        }
    }
}

// One read, made again where a signal interrupts it.
fn read<T: Reader>(inner: &mut T, into: &mut [u8]) -> io::Result<usize>
    requires { 0 < length into.old }
    ensures count { IfOk result (λ n. n ≤ length into.new) }
    ensures bytes { IfOk result (λ n. Consumes (T.left inner.old) (T.left inner.new) (take n into.new)) }
    ensures end { IfOk result (λ n. n ≡ 0 → IsAtEnd (T.left inner.new)) }
    ensures kept { OnErr result (Keeps (T.left inner.old) (T.left inner.new)) }
    ensures answer { Answers T.read_gives inner.old result inner.new }
{
    let mut interruptions = 0;
    loop {
        let answer = inner.read_once(into);
        if interruptions == u64::MAX || !is_interruption(&answer) {
            return answer;
        }
        interruptions += 1;
    }
}

// One write, made again where a signal interrupts it.
fn write<T: Writer>(inner: &mut T, bytes: &[u8]) -> io::Result<usize>
    ensures count { IfOk result (λ n. n ≤ length bytes.now) }
    ensures bytes { IfOk result (λ n. Appends (T.taken inner.old) (T.taken inner.new) (take n bytes.now)) }
    ensures kept { OnErr result (Keeps (T.taken inner.old) (T.taken inner.new)) }
    ensures answer { Answers (T.write_gives bytes.now) inner.old result inner.new }
{
    let mut interruptions = 0;
    loop {
        let answer = inner.write_once(bytes);
        if interruptions == u64::MAX || !is_interruption(&answer) {
            return answer;
        }
        interruptions += 1;
    }
}

// Whether a signal interrupted the call that gave this answer.
fn is_interruption(answer: &io::Result<usize>) -> bool
    ensures { IsTrue result ↔ IsInterruption answer.now }
{
    match answer {
        Ok(_) => false,
        Err(error) => error.kind() == ErrorKind::Interrupted,
    }
}
