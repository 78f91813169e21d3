//! Writers whose bytes are counted.
ghost use Rattle.std.specs.Prelude.{◌≡◌};

use rambo_archive::Durable;
use rambo_atomic::{Failed, Sink};

/// A writer, and how many bytes it took since it is counted.
#[derive(Drop)]
pub(crate) struct Metered<W> {
    inner: W,
    count: u64,
}

impl<W: Durable + Drop> Metered<W> {
    /// A writer whose bytes are counted from now on.
    pub(crate) fn new(inner: W) -> Metered<W>
        ensures { result.inner ≡ inner }
    {
        Metered { inner, count: 0 }
    }

    /// How many bytes it took.
    pub(crate) fn count(&self) -> u64 {
        self.count
    }

    /// The writer.
    pub(crate) fn into_inner(self) -> W
        ensures { result ≡ self.inner }
    {
        self.inner
    }
}

impl<W: Durable + Drop> Sink for Metered<W> {
    ghost taken = { λ m. W.taken m.inner };

    ghost failures = { λ m. W.failures m.inner };

    fn write(&mut self, bytes: &[u8]) -> Result<usize, Failed> {
        let count = self.inner.write(bytes)?;
        self.count = self.count.wrapping_add(count as u64);
        Ok(count)
    }
}

impl<W: Durable + Drop> Durable for Metered<W> {
    ghost kept = { λ m. W.kept m.inner };

    fn sync(&mut self) -> Result<(), Failed> {
        self.inner.sync()
    }
}
