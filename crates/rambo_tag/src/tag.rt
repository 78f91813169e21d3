//! Tags.
ghost use Rattle.std.specs.Prelude.{◌≡◌, ◌+◌, ◌-◌, ◌^◌, IfOk, IfErr};
ghost use Rattle.rambo_tag.specs.Tags.{tag_lt};

use rambo_names::{Name, Refusal};

/// The tag of a written value: a sequence number and the writer's name, ordered by sequence, then by
/// name (the timestamps of Lynch and Shvartsman, "RAMBO", DISC 2002).
#[derive(Clone, Copy, PartialEq, Eq, Debug)]
pub struct Tag {
    /// From 1 in what a writer makes.
    pub sequence: u64,
    /// Who wrote.
    pub name: Name,
}

impl Tag {
    /// The next tag of a writer: the next sequence number, with the writer's own name.
    ///
    /// `NumbersSpent` where the sequence number is the greatest one.
    pub fn next(&self, name: Name) -> Result<Tag, Refusal>
        ensures next { IfOk result (λ t. (t.sequence ≡ self.now.sequence + 1) × (t.name ≡ name)) }
        ensures spent { IfErr result (λ r. (r ≡ Refusal.NumbersSpent) × (self.now.sequence ≡ 2 ^ 64 - 1)) }
    {
        if self.sequence == u64::MAX {
            return Err(Refusal::NumbersSpent);
        }
        Ok(Tag {
            sequence: self.sequence + 1,
            name,
        })
    }

    /// Whether this tag is the lesser one.
    pub fn is_before(&self, other: &Tag) -> bool
        ensures { result ≡ tag_lt self.now other.now }
    {
        self.sequence < other.sequence
            || (self.sequence == other.sequence && self.name.number() < other.name.number())
    }
}
