//! Files as sources.
ghost use Rattle.std.specs.Prelude.{◌≡◌, ℕ, List, Option};

use crate::archive::Archive;
use rambo_atomic::{Failed, Source};
use std::marker::{Brand, Model, PhantomData};

/// What a file holds while it is read.
pub trait Holds {
    ghost held: { Option (List ℕ) };
}

impl Holds for Brand {
    ghost use Rattle.std.specs.Prelude.{None};

    ghost held = { None };
}

/// A file that is read as any source, and holds the same all the while. Contracts see the file.
#[derive(Drop)]
pub struct Reading<K: Holds, F: Archive> {
    file: F,
    of: PhantomData<K>,
}

impl<K: Holds, F: Archive> Model for Reading<K, F> {
    ghost use Rattle.std.specs.Prelude.{◌≡◌};

    ghost Value = { F };

    ghost coded = { F.code };

    ghost view = { λ r. r.file };

    ghost invariant = { λ r. F.taken r.file ≡ K.held };
}

impl<K: Holds, F: Archive> Reading<K, F> {
    pub fn new(file: F) -> Reading<K, F>
        requires { F.taken file ≡ K.held }
        ensures { result ≡ file }
    {
        Reading {
            file,
            of: PhantomData,
        }
    }

    /// The file.
    pub fn into_inner(self) -> F
        ensures same { result ≡ self }
        ensures held { F.taken result ≡ K.held }
    {
        self.file
    }
}

impl<K: Holds, F: Archive> Source for Reading<K, F> {
    ghost left = { F.left };

    ghost failures = { F.failures };

    ghost reads_left = { F.reads_left };

    fn read(&mut self, into: &mut [u8]) -> Result<usize, Failed> {
        self.file.read_on(into)
    }

    ghost limited = { F.limited };
}
