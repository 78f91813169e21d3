//! Files of the system.
ghost use Rattle.std.specs.Prelude.{◌≡◌, ◌≤◌, ◌<◌, ◌^◌, Ok, length, IfOk, OnErr, IsErr};
ghost use Rattle.rambo_archive.specs.Archives.{disk_after_read, disk_after};

use crate::archive::{Archive, Durable};
use rambo_atomic::{Failed, READ_LIMIT, Sink, Source, Wrapped};
use std::fs::File;
use std::io;
use std::marker::Model;

/// An open file of the system. No contract says which bytes it has.
///
/// A call that a signal interrupts is made again. Contracts see how often it was read, and how many of its calls failed.
#[derive(Drop)]
pub struct Disk {
    file: File,
    reads: u64,
    failures: u64,
}

impl Model for Disk {
    ghost use Rattle.std.specs.Prelude.{◌≤◌, ◌^◌};
    ghost use Rattle.rambo_archive.specs.Archives.{DiskState};

    ghost Value = { DiskState };

    ghost view = { λ d. record { reads = d.reads; failures = d.failures } };

    ghost invariant = { λ d. d.reads ≤ 2 ^ 60 };
}

impl Disk {
    /// A file of which no call was made.
    pub(crate) fn new(file: File) -> Disk
        ensures { result ≡ record { reads = 0; failures = 0 } }
    {
        Disk {
            file,
            reads: 0,
            failures: 0,
        }
    }

    /// How many calls failed, at most 2^64 - 1.
    pub fn failures(&self) -> u64
        ensures { result ≡ self.now.failures }
    {
        self.failures
    }

    // The same answer. A failed call is counted.
    fn answer<T, E: Drop>(&mut self, answer: Result<T, E>) -> Result<T, Failed>
        ensures state { self.new ≡ disk_after self.old result }
        ensures ok { IfOk answer (λ x. result ≡ Ok x) }
        ensures err { OnErr answer (IsErr result) }
    {
        if let Ok(value) = answer {
            return Ok(value);
        }
        self.failures = self.failures.saturating_add(1);
        Err(Failed)
    }
}

impl Sink for Disk {
    ghost use Rattle.std.specs.Prelude.{None};

    ghost taken = { λ _. None };

    ghost failures = { λ d. d.failures };

    fn write(&mut self, bytes: &[u8]) -> Result<usize, Failed>
        requires { 0 < length bytes.now }
        ensures state { self.new ≡ disk_after self.old result }
        ensures count { IfOk result (λ n. (0 < n) × (n ≤ length bytes.now)) }
    {
        let answer = Wrapped::new(&self.file).write(bytes);
        self.answer(answer)
    }
}

impl Durable for Disk {
    ghost use Rattle.std.specs.Prelude.{None};

    ghost kept = { λ _. None };

    fn sync(&mut self) -> Result<(), Failed>
        ensures { self.new ≡ disk_after self.old result }
    {
        let answer = self.file.sync_data();
        self.answer(answer)
    }
}

impl Archive for Disk {
    ghost use Rattle.std.specs.Prelude.{None, ◌-◌, ◌^◌};

    ghost left = { λ _. None };

    ghost reads_left = { λ d. 2 ^ 60 - d.reads };

    fn read_on(&mut self, into: &mut [u8]) -> Result<usize, Failed>
        requires { 0 < length into.old }
        ensures state { self.new ≡ disk_after_read self.old result }
        ensures count { IfOk result (λ n. n ≤ length into.new) }

        // Each read after the first 2^60 fails.
        ensures limit { 2 ^ 60 ≤ self.old.reads → IsErr result }
    {
        if self.reads == READ_LIMIT {
            return self.answer(Err(Failed));
        }
        self.reads += 1;
        let answer = Wrapped::new(&self.file).read(into);
        self.answer(answer)
    }

    fn cut(&mut self, length: u64) -> Result<(), Failed>
        ensures { self.new ≡ disk_after self.old result }
    {
        let answer = shorten(&self.file, length);
        self.answer(answer)
    }

    ghost use Rattle.std.proofs.Common.{rules};

    ghost limited = { Prim.search rules };
}

// Cuts a file off after some bytes, where it has more. So a device, which has no length, is left alone.
fn shorten(file: &File, length: u64) -> io::Result<()> {
    if length < file.metadata()?.len() {
        return file.set_len(length);
    }
    Ok(())
}
