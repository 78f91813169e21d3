//! Commands that lie in a piece of their stream.
ghost use Rattle.std.specs.Prelude.{◌≡◌, ◌++◌, ◌∷◌, [], IfOk, IfErr, OnOk};
ghost use Rattle.rambo_resp.specs.BriefCommands.{items_of};

use crate::command::Command;
use crate::fault::Fault;
use rambo_names::Bytes;
use std::alloc::Global;

/// A command of two or three items, which lie in a piece of its stream.
#[derive(Clone, Copy)]
pub enum BriefCommand<'a> {
    /// One of two items.
    Two(&'a [u8], &'a [u8]),
    /// One of three.
    Three(&'a [u8], &'a [u8], &'a [u8]),
}

impl<'a> BriefCommand<'a> {
    /// A copy of the command.
    ///
    /// `OutOfMemory` where there is no room for it.
    #[inline(never)]
    pub fn to_command(self, alloc: Global) -> Result<Command, Fault>
        ensures ok { IfOk result (λ c. c ≡ items_of self.entry) }
        ensures refused { IfErr result (λ f. f ≡ Fault.OutOfMemory) }
    {
        let mut command = Command::new(alloc);
        match self {
            BriefCommand::Two(name, word) => {
                push_copy(alloc, name, &mut command)?;
                push_copy(alloc, word, &mut command)?;
            }
            BriefCommand::Three(name, first, second) => {
                push_copy(alloc, name, &mut command)?;
                push_copy(alloc, first, &mut command)?;
                push_copy(alloc, second, &mut command)?;
            }
        }
        Ok(command)
    }
}

// Adds a copy of an item to a command.
fn push_copy(alloc: Global, item: &[u8], command: &mut Command) -> Result<(), Fault>
    ensures ok { OnOk result (command.new ≡ command.old ++ item.now ∷ []) }
    ensures refused { IfErr result (λ f. f ≡ Fault.OutOfMemory) }
{
    let copy = Bytes::from_slice(alloc, item).map_err(|_| Fault::OutOfMemory)?;
    command.push(copy)
}
