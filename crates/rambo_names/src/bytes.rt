//! Keys and values.
ghost use Rattle.std.specs.Prelude.{◌≡◌, ◌<◌, ◌≤◌, ◌∷◌, [], length, take, IfOk, IfErr, Some, nat_eq, refl};
ghost use Rattle.std.specs.Ordering.{nat_cmp};
ghost use Rattle.std.proofs.Common.{ap};
ghost use Rattle.std.specs.Cmp.Lexicographic.{bytes_decides, pointwise, slice_cmp, nat_list_eq_equiv, nat_list_cmp_total, texts_ties, texts_po};
ghost use Rattle.std.specs.Cmp.{partial_equiv_from_equiv};

use crate::refusal::Refusal;
use crate::short_bytes::{MOST, ShortBytes};
use std::alloc::{AllocError, Global};
use std::cmp::Ordering;
use std::fmt;
use std::hash::{Hash, Hasher};
use std::marker::Model;
use std::sync::ArcSlice;

/// The bytes of a key or a value, of any length.
///
/// Up to `Bytes::SHORT` bytes are stored inline, so they allocate nothing and a clone copies them. Clones of a longer
/// one share one allocation.
pub struct Bytes {
    form: Form,
}

// By hand, so that those who drop bytes needn't know of their forms.
impl Drop for Bytes {
    fn drop(self) {
        let Bytes { form: _form } = self;
    }
}

// Where the bytes are.
#[derive(Drop)]
enum Form {
    Short(ShortBytes),
    Shared(ArcSlice<u8>),
}

impl Model for Bytes {
    ghost use Rattle.std.specs.Prelude.{List, ℕ};

    ghost Value = { List ℕ };

    ghost use Rattle.rambo_names.specs.ByteForms.{bytes_of};

    ghost view = { λ b. bytes_of b.form };
}

impl Bytes {
    /// The greatest number of bytes that are stored inline.
    pub const SHORT: usize = MOST;

    /// A copy of some bytes.
    ///
    /// `OutOfMemory` where there is no room for it, which happens only for more than `SHORT` bytes.
    pub fn from_slice(alloc: Global, items: &[u8]) -> Result<Bytes, Refusal>
        ensures bytes { IfOk result (λ b. b ≡ items.now) }
        ensures refused { IfErr result (λ r. r ≡ Refusal.OutOfMemory) }
        ensures short { IfErr result (λ _. 15 < length items.now) }
    {
        if items.len() <= Bytes::SHORT {
            return Ok(Bytes {
                form: Form::Short(ShortBytes::of(items)),
            });
        }
        Ok(Bytes {
            form: Form::Shared(ArcSlice::from_slice(alloc, items)?),
        })
    }

    /// The bytes of a buffer, which is taken over without a copy where there are more than `SHORT`.
    ///
    /// `OutOfMemory` where there is no room for the reference count of a longer one.
    pub fn from_vec(items: Vec<u8>) -> Result<Bytes, Refusal>
        ensures bytes { IfOk result (λ b. b ≡ items.items) }
        ensures refused { IfErr result (λ r. r ≡ Refusal.OutOfMemory) }
        ensures short { IfErr result (λ _. 15 < length items.items) }
    {
        if items.len() <= Bytes::SHORT {
            return Ok(Bytes {
                form: Form::Short(ShortBytes::of(items.as_slice())),
            });
        }
        Ok(Bytes {
            form: Form::Shared(ArcSlice::from_vec(items)?),
        })
    }

    /// The first bytes of an array, stored inline.
    pub fn short(bytes: [u8; Bytes::SHORT], length: usize) -> Bytes
        requires { length ≤ 15 }
        ensures { result ≡ take length bytes }
    {
        Bytes {
            form: Form::Short(ShortBytes::new(bytes, length)),
        }
    }

    /// The bytes.
    pub fn as_slice(&self) -> &[u8]
        ensures { result.now ≡ self.now }
    {
        match &self.form {
            Form::Short(bytes) => bytes.as_slice(),
            Form::Shared(items) => items.as_slice(),
        }
    }

    /// How many bytes there are.
    pub fn len(&self) -> usize
        ensures { result ≡ length self.now }
    {
        self.as_slice().len()
    }

    /// Whether there is no byte.
    pub fn is_empty(&self) -> bool
        ensures { result ≡ nat_eq (length self.now) 0 }
    {
        self.len() == 0
    }
}

impl fmt::Debug for Bytes {
    fn fmt<W: fmt::Write>(&self, f: &mut fmt::Formatter<W>) -> fmt::Result {
        self.as_slice().fmt(f)
    }
}

impl Clone for Bytes {
    ghost is_clone = { λ b copy. copy ≡ b };

    fn clone(&self) -> Result<Bytes, AllocError> {
        let form = match &self.form {
            Form::Short(bytes) => Form::Short(*bytes),
            Form::Shared(items) => Form::Shared(items.clone()?),
        };
        Ok(Bytes { form })
    }
}

impl PartialEq for Bytes {
    ghost eq = { pointwise nat_eq };

    ghost laws = { partial_equiv_from_equiv nat_list_eq_equiv };

    fn eq(&self, other: &Bytes) -> bool {
        self.as_slice() == other.as_slice()
    }
}

impl Eq for Bytes {
    ghost laws = { nat_list_eq_equiv };
}

impl PartialOrd for Bytes {
    ghost partial_cmp = { λ x y. Some (slice_cmp nat_cmp x y) };

    ghost laws = { texts_po };

    fn partial_cmp(&self, other: &Bytes) -> Option<Ordering> {
        Some(self.cmp(other))
    }
}

// Byte by byte, and where one is a prefix of the other the shorter is the lesser.
impl Ord for Bytes {
    ghost cmp = { slice_cmp nat_cmp };

    ghost total = { nat_list_cmp_total };

    ghost matches_partial_cmp = { λ x y. refl };

    ghost matches_eq = { texts_ties };

    fn cmp(&self, other: &Bytes) -> Ordering {
        self.as_slice().cmp(other.as_slice())
    }
}

// All bytes in one write: a hasher takes many at a time then.
impl Hash for Bytes {
    ghost hash_input = { λ b. b ∷ [] };

    ghost respects_eq = { λ x y h. ap (λ b. b ∷ []) ((bytes_decides x y).0 h) };

    fn hash<H: Hasher>(&self, state: &mut H) {
        state.write(self.as_slice());
    }
}
