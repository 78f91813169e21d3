//! Copies of a key's value.
ghost use Rattle.std.specs.Prelude.{◌≡◌};
ghost use Rattle.rambo_tag.specs.Tags.{value_lt, version_lt};

use crate::tag::Tag;
use rambo_names::Bytes;
use std::alloc::AllocError;

/// A copy of a key's value, with the tag that it was written under. Without a value it is nil.
#[derive(PartialEq, Eq, Drop, Debug)]
pub struct Version {
    pub tag: Tag,
    pub value: Option<Bytes>,
}

impl Version {
    /// Whether this copy is the lesser one, by tag and then by value.
    pub fn is_before(&self, other: &Version) -> bool
        ensures { result ≡ version_lt self.now other.now }
    {
        self.tag.is_before(&other.tag)
            || (!other.tag.is_before(&self.tag) && is_less(&self.value, &other.value))
    }
}

// By hand, to say that the clone is equal.
impl Clone for Version {
    ghost is_clone = { λ version copy. copy ≡ version };

    fn clone(&self) -> Result<Version, AllocError> {
        Ok(Version {
            tag: self.tag,
            value: self.value.clone()?,
        })
    }
}

// Nil is the least value, and others go by their bytes.
fn is_less(a: &Option<Bytes>, b: &Option<Bytes>) -> bool
    ensures { result ≡ value_lt a.now b.now }
{
    match (a, b) {
        (None, Some(_)) => true,
        (Some(a), Some(b)) => a < b,
        _ => false,
    }
}
