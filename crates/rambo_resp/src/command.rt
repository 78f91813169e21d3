//! Commands.
ghost use Rattle.std.specs.Prelude.{◌≡◌, ◌++◌, ◌∷◌, [], length, nat_eq, IfOk, IfErr, OnOk, OnErr};

use crate::fault::Fault;
use rambo_names::Bytes;
use std::alloc::Global;
use std::marker::Model;

/// A command: its items, each of them bytes.
///
/// A decoder gives commands of 1 to 128 items of at most 4,096 bytes.
#[derive(Drop, Debug)]
pub struct Command {
    items: Vec<Bytes>,
}

impl Model for Command {
    ghost use Rattle.std.specs.Prelude.{List, ℕ};

    ghost Value = { List (List ℕ) };

    ghost view = { λ c. c.items.items };
}

impl Command {
    /// The command of no items.
    pub(crate) fn new(alloc: Global) -> Self
        ensures { result ≡ [] }
    {
        Command {
            items: Vec::new(alloc),
        }
    }

    /// The command of no items, with room for this many.
    ///
    /// `OutOfMemory` where there is none.
    pub(crate) fn with_capacity(alloc: Global, count: u16) -> Result<Self, Fault>
        ensures made { IfOk result (λ c. c ≡ []) }
        ensures refused { IfErr result (λ f. f ≡ Fault.OutOfMemory) }
    {
        Ok(Command {
            items: Vec::with_capacity(alloc, usize::from(count))?,
        })
    }

    /// Adds an item.
    ///
    /// `OutOfMemory` where there is no room for it.
    pub(crate) fn push(&mut self, item: Bytes) -> Result<(), Fault>
        ensures ok { OnOk result (self.new ≡ self.old ++ item ∷ []) }
        ensures err { OnErr result (self.new ≡ self.old) }
        ensures refused { IfErr result (λ f. f ≡ Fault.OutOfMemory) }
    {
        self.items.push(item)?;
        Ok(())
    }

    /// How many items there are.
    pub fn len(&self) -> usize
        ensures { result ≡ length self.now }
    {
        self.items.len()
    }

    /// Whether there is no item.
    pub fn is_empty(&self) -> bool
        ensures { result ≡ nat_eq (length self.now) 0 }
    {
        self.items.is_empty()
    }

    /// The items.
    pub fn items(&self) -> &[Bytes]
        ensures { result.now ≡ self.now }
    {
        self.items.as_slice()
    }

    /// The items, moved out.
    pub fn into_items(self) -> Vec<Bytes>
        ensures { result.items ≡ self }
    {
        self.items
    }
}
