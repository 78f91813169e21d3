//! What is wrong with a command.
ghost use Rattle.std.specs.Prelude.{◌≡◌, IfOk, IfErr};
ghost use Rattle.rambo_commands.specs.Mistakes.{error_for};

use crate::replies::refusal_reply;
use rambo_names::{Bytes, Refusal};
use rambo_resp::Reply;
use std::alloc::Global;

// What is wrong with a command, in the order in which it is judged.
#[derive(Clone, Copy)]
pub(crate) enum Mistake {
    // No command has this name.
    UnknownCommand,
    // A command of this name has another number of words.
    WrongCount,
    // A word isn't the number or the set that belongs there.
    BadArgument,
    // It is in form, and refused.
    Refused(Refusal),
}

impl Mistake {
    // The error that reports it.
    //
    // `OutOfMemory` where there is no room for its words.
    pub(crate) fn reply(self, alloc: Global) -> Result<Reply, Refusal>
        ensures ok { IfOk result (λ r. r ≡ error_for self) }
        ensures refused { IfErr result (λ r. r ≡ Refusal.OutOfMemory) }
    {
        match self {
            Mistake::UnknownCommand => error(alloc, b"ERR unknown command"),
            Mistake::WrongCount => error(alloc, b"ERR wrong number of arguments"),
            Mistake::BadArgument => error(alloc, b"ERR bad argument"),
            Mistake::Refused(refusal) => refusal_reply(alloc, refusal),
        }
    }
}

// The error of these words.
fn error(alloc: Global, words: &[u8]) -> Result<Reply, Refusal>
    ensures ok { IfOk result (λ r. r ≡ Reply.Error words.now) }
    ensures refused { IfErr result (λ r. r ≡ Refusal.OutOfMemory) }
{
    Ok(Reply::Error(Bytes::from_slice(alloc, words)?))
}
