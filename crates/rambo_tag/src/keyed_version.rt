//! Copies with their keys.
ghost use Rattle.std.specs.Prelude.{◌≡◌};

use crate::version::Version;
use rambo_names::Bytes;
use std::alloc::AllocError;

/// A key and a copy of its value.
#[derive(PartialEq, Eq, Drop, Debug)]
pub struct KeyedVersion {
    pub key: Bytes,
    pub version: Version,
}

// By hand, to say that the clone is equal.
impl Clone for KeyedVersion {
    ghost is_clone = { λ keyed copy. copy ≡ keyed };

    #[inline(always)]
    fn clone(&self) -> Result<KeyedVersion, AllocError> {
        Ok(KeyedVersion {
            key: self.key.clone()?,
            version: self.version.clone()?,
        })
    }
}
