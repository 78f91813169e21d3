//! The copies in a letter.
ghost use Rattle.std.specs.Prelude.{◌≡◌, IfOk, IfErr};
ghost use Rattle.std.specs.FinMap.{empty};
ghost use Rattle.rambo_tag.specs.Logs.{greatest_of};

use crate::keyed_version::KeyedVersion;
use rambo_names::Refusal;
use std::alloc::Global;
use std::marker::Model;

/// The copies that a letter carries. In contracts it is the greatest copy of each key.
#[derive(Drop, Debug)]
pub struct Pack {
    copies: Vec<KeyedVersion>,
}

impl Model for Pack {
    ghost use Rattle.rambo_tag.specs.Copies.{Copies, copies_code};
    ghost use Rattle.rambo_tag.specs.Logs.{greatest_of};

    ghost Value = { Copies };

    ghost coded = { copies_code };

    ghost view = { λ p. greatest_of p.copies.items };
}

impl Pack {
    /// The greatest of these copies of each key.
    pub fn new(copies: Vec<KeyedVersion>) -> Pack
        ensures { result ≡ greatest_of copies.items }
    {
        Pack { copies }
    }

    /// No copies. Later allocations come from this allocator.
    pub fn empty(alloc: Global) -> Pack
        ensures { result ≡ empty }
    {
        Pack::new(Vec::new(alloc))
    }

    /// Copies, of which the pack has the greatest of each key. A key may occur more than once.
    pub fn copies(&self) -> &[KeyedVersion]
        ensures { greatest_of result.now ≡ self.now }
    {
        self.copies.as_slice()
    }

    /// The copies themselves, which `copies` borrows.
    pub fn into_copies(self) -> Vec<KeyedVersion>
        ensures { greatest_of result.items ≡ self }
    {
        self.copies
    }

    /// The same copies again. Keys and values are shared, not copied.
    ///
    /// `OutOfMemory` where there is no room for the list of them.
    pub fn clone(&self) -> Result<Pack, Refusal>
        ensures same { IfOk result (λ p. p ≡ self.now) }
        ensures refused { IfErr result (λ r. r ≡ Refusal.OutOfMemory) }
    {
        Ok(Pack {
            copies: self.copies.clone()?,
        })
    }
}
