//! The streams that texts are read from and written to.
ghost use Rattle.std.specs.Prelude.{◌≡◌, ◌≤◌, ◌<◌, ◌-◌, ◌^◌, ℕ, List, Option, take, length, IfOk, OnOk, OnErr};
ghost use Rattle.std.specs.Io.KnownBytes.{Appends, Consumes, IsAtEnd, Keeps};
ghost use Rattle.rambo_atomic.specs.Streams.{counted};

/// How often a source can be read. Each read after these fails, so that a loop over a source ends.
pub const READ_LIMIT: u64 = 1 << 60;

/// A call of a stream failed.
#[derive(Clone, Copy, PartialEq, Eq, Debug)]
pub struct Failed;

/// A reader whose bytes contracts can name, and that counts its failed calls.
pub trait Source {
    // The bytes that reads will give from here on, where they are known.
    ghost left: { Self → Option (List ℕ) };

    // How many calls failed; it stops at 2^64 - 1.
    ghost failures: { Self → ℕ };

    // How often it can still be read.
    ghost reads_left: { Self → ℕ };

    /// Reads some bytes into the beginning of a buffer that isn't empty, and returns how many: 0 only at the end.
    ///
    /// `Failed` where the reader failed, and after the first 2^60 reads.
    fn read(&mut self, into: &mut [u8]) -> Result<usize, Failed>
        requires { 0 < length into.old }
        ensures count { IfOk result (λ n. n ≤ length into.new) }
        ensures bytes { IfOk result (λ n. Consumes (left self.old) (left self.new) (take n into.new)) }
        ensures end { IfOk result (λ n. n ≡ 0 → IsAtEnd (left self.new)) }
        ensures kept { OnErr result (Keeps (left self.old) (left self.new)) }
        ensures fine { OnOk result (failures self.new ≡ failures self.old) }
        ensures failed { OnErr result (failures self.new ≡ counted (failures self.old)) }
        ensures reads { reads_left self.new ≡ reads_left self.old - 1 }
        ensures limit { OnOk result (0 < reads_left self.old) };

    // It can be read 2^60 times at most.
    ghost limited: { (s : Self) → reads_left s ≤ 2 ^ 60 };
}

/// A writer whose bytes contracts can name, and that counts its failed calls.
pub trait Sink {
    // The bytes that it holds, where they are known.
    ghost taken: { Self → Option (List ℕ) };

    // How many calls failed; it stops at 2^64 - 1.
    ghost failures: { Self → ℕ };

    /// Writes a prefix of some bytes, at least one byte, and returns how many.
    ///
    /// `Failed` where the writer failed or took no byte.
    fn write(&mut self, bytes: &[u8]) -> Result<usize, Failed>
        requires { 0 < length bytes.now }
        ensures count { IfOk result (λ n. (0 < n) × (n ≤ length bytes.now)) }
        ensures bytes { IfOk result (λ n. Appends (taken self.old) (taken self.new) (take n bytes.now)) }
        ensures kept { OnErr result (Keeps (taken self.old) (taken self.new)) }
        ensures fine { OnOk result (failures self.new ≡ failures self.old) }
        ensures failed { OnErr result (failures self.new ≡ counted (failures self.old)) };
}
