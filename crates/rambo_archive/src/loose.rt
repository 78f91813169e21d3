//! Writers of which nothing is kept.
ghost use Rattle.std.specs.Prelude.{◌≡◌};

use crate::archive::Durable;
use rambo_atomic::{Failed, Sink};
use std::marker::Model;

/// A writer of which nothing is known to be kept, as standard output. Contracts see the writer.
#[derive(Drop)]
pub struct Loose<W> {
    inner: W,
}

impl<W> Model for Loose<W> {
    ghost Value = { W };

    ghost coded = { W.code };

    ghost view = { λ l. l.inner };
}

impl<W> Loose<W> {
    pub fn new(inner: W) -> Loose<W>
        ensures { result ≡ inner }
    {
        Loose { inner }
    }

    /// The writer.
    pub fn into_inner(self) -> W
        ensures { result ≡ self }
    {
        self.inner
    }
}

impl<W: Sink> Sink for Loose<W> {
    ghost taken = { W.taken };

    ghost failures = { W.failures };

    fn write(&mut self, bytes: &[u8]) -> Result<usize, Failed> {
        self.inner.write(bytes)
    }
}

impl<W: Sink> Durable for Loose<W> {
    ghost use Rattle.std.specs.Prelude.{None};

    ghost kept = { λ _. None };

    /// It does nothing.
    fn sync(&mut self) -> Result<(), Failed> {
        Ok(())
    }
}
