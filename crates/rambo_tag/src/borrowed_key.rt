//! Keys as they are looked up.
ghost use Rattle.std.specs.Cmp.Lexicographic.{bytes_decides, nat_list_eq_equiv};
ghost use Rattle.std.specs.Str.{bytes_eq};
ghost use Rattle.std.specs.Prelude.{◌∷◌, []};
ghost use Rattle.std.proofs.Common.{ap};

use indexmap::Equivalent;
use rambo_names::Bytes;
use std::hash::{Hash, Hasher};

// A key's bytes, by which a table of keys finds it.
#[derive(Clone, Copy, PartialEq, Eq)]
pub(crate) struct BorrowedKey<'a> {
    pub(crate) bytes: &'a [u8],
}

// As the key itself is hashed.
impl<'a> Hash for BorrowedKey<'a> {
    ghost hash_input = { λ key. key.bytes.now ∷ [] };

    ghost respects_eq = { λ x y h. ap (λ b. b ∷ []) ((bytes_decides x.bytes.now y.bytes.now).0 h) };

    fn hash<H: Hasher>(&self, state: &mut H) {
        state.write(self.bytes);
    }
}

impl<'a> Equivalent<Bytes> for BorrowedKey<'a> {
    ghost equivalent = { λ key. bytes_eq key.bytes.now };

    ghost respects_hash = { λ key k h. ap (λ b. b ∷ []) ((bytes_decides key.bytes.now k).0 h) };

    ghost respects_eq = { λ key x y. nat_list_eq_equiv.congr key.bytes.now x y };

    fn equivalent(&self, key: &Bytes) -> bool {
        self.bytes == key.as_slice()
    }
}
