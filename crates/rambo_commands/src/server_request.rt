//! What a command of a server's client asks for.
ghost use Rattle.std.specs.Prelude.{◌≡◌, IfOk, IfErr};
ghost use Rattle.rambo_commands.specs.Administration.{Asks, judged};

use crate::administration::administration;
use crate::mistake::Mistake;
use crate::request::Request;
use crate::words::is_word;
use rambo_names::{Members, Name, Refusal, Weighted};
use rambo_resp::Command;
use std::alloc::Global;

/// What a command of a server's client asks for.
#[derive(Drop)]
pub enum ServerRequest {
    /// What any client may ask for.
    Common(Request),
    /// That the client's commands go to this node from now on.
    Use(Name),
    /// That a node joins, which at first knows these nodes and itself.
    Join(Name, Members),
    /// That the client's node has this configuration chosen. It may have no member, which the node refuses.
    Recon(Weighted),
    /// That the client's node has its lowest active place removed.
    Collect,
    /// That a node stops.
    Stop(Name),
    /// The map of the client's node.
    Config,
    /// A report on the server.
    Info,
    /// That the server ends.
    Shutdown,
}

impl ServerRequest {
    /// What a command asks for, or the error that is the reply to it. Its first word, and after `RAMBO` its second, are
    /// case-insensitive. Mistakes are judged in this order: the name, the number of words, the form of numbers and
    /// sets, and whether the number of a node is a name.
    ///
    /// `OutOfMemory` where there is no room for its bytes.
    pub fn of(alloc: Global, command: &Command) -> Result<ServerRequest, Refusal>
        ensures ok { IfOk result (λ q. Asks command.now q) }
        ensures refused { IfErr result (λ r. r ≡ Refusal.OutOfMemory) }
    {
        match command.items() {
            [name, words @ ..] if is_word(name.as_slice(), b"RAMBO") => {
                told(alloc, administration(words))
            }
            _ => Ok(ServerRequest::Common(Request::of(alloc, command)?)),
        }
    }
}

// What is asked for, or the error that says what is wrong.
fn told(alloc: Global, asked: Result<ServerRequest, Mistake>) -> Result<ServerRequest, Refusal>
    ensures ok { IfOk result (λ q. q ≡ judged asked) }
    ensures refused { IfErr result (λ r. r ≡ Refusal.OutOfMemory) }
{
    match asked {
        Ok(request) => Ok(request),
        Err(mistake) => Ok(ServerRequest::Common(Request::Says(mistake.reply(alloc)?))),
    }
}
