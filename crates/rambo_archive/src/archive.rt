//! Writers that keep what they took, and files that are read before they are written.
ghost use Rattle.std.specs.Prelude.{◌≡◌, ◌≤◌, ◌<◌, ◌-◌, ◌^◌, ℕ, List, Option, option_map, take, length, IfOk, OnOk, OnErr};
ghost use Rattle.std.specs.Io.KnownBytes.{Consumes, IsAtEnd, Keeps};
ghost use Rattle.rambo_atomic.specs.Streams.{counted};
ghost use Rattle.rambo_archive.specs.Archives.{IsKept};

use rambo_atomic::{Failed, Sink};

/// A writer that can be told to keep what it took.
pub trait Durable: Sink {
    // The bytes that outlast a crash of the machine, where they are known.
    ghost kept: { Self → Option (List ℕ) };

    /// Waits until all that was taken is kept.
    ///
    /// `Failed` where the writer failed. Nothing is known then of what is kept.
    fn sync(&mut self) -> Result<(), Failed>
        ensures taken { Self.taken self.new ≡ Self.taken self.old }
        ensures kept { OnOk result (IsKept (kept self.new) (Self.taken self.new)) }
        ensures fine { OnOk result (Self.failures self.new ≡ Self.failures self.old) }
        ensures failed { OnErr result (Self.failures self.new ≡ counted (Self.failures self.old)) };
}

/// A file that is read from its beginning, and written at its end.
pub trait Archive: Durable {
    // The bytes that reads will give from here on, where they are known.
    ghost left: { Self → Option (List ℕ) };

    // How often it can still be read.
    ghost reads_left: { Self → ℕ };

    /// Reads some bytes into the beginning of a buffer that isn't empty, and returns how many: 0 only at the end.
    ///
    /// `Failed` where the file failed, and after the first 2^60 reads.
    fn read_on(&mut self, into: &mut [u8]) -> Result<usize, Failed>
        requires { 0 < length into.old }
        ensures count { IfOk result (λ n. n ≤ length into.new) }
        ensures bytes { IfOk result (λ n. Consumes (left self.old) (left self.new) (take n into.new)) }
        ensures end { IfOk result (λ n. n ≡ 0 → IsAtEnd (left self.new)) }
        ensures kept { OnErr result (Keeps (left self.old) (left self.new)) }
        ensures taken { Self.taken self.new ≡ Self.taken self.old }
        ensures fine { OnOk result (Self.failures self.new ≡ Self.failures self.old) }
        ensures failed { OnErr result (Self.failures self.new ≡ counted (Self.failures self.old)) }
        ensures reads { reads_left self.new ≡ reads_left self.old - 1 }
        ensures limit { OnOk result (0 < reads_left self.old) };

    /// Cuts what it holds off after some bytes. A shorter file stays as it is.
    ///
    /// `Failed` where the file failed. It stays as it is then too.
    fn cut(&mut self, length: u64) -> Result<(), Failed>
        ensures taken { OnOk result (Self.taken self.new ≡ option_map (take length) (Self.taken self.old)) }
        ensures unchanged { OnErr result (Keeps (Self.taken self.old) (Self.taken self.new)) }
        ensures fine { OnOk result (Self.failures self.new ≡ Self.failures self.old) }
        ensures failed { OnErr result (Self.failures self.new ≡ counted (Self.failures self.old)) };

    // It can be read 2^60 times at most.
    ghost limited: { (s : Self) → reads_left s ≤ 2 ^ 60 };
}
