//! What the commands whose first word is `RAMBO` ask for, which only clients of a server have.
ghost use Rattle.std.specs.Prelude.{◌≡◌};
ghost use Rattle.rambo_commands.specs.Administration as spec;
ghost use Rattle.rambo_commands.specs.declared.server_request.ServerRequest.TheVariants as asked;

use crate::arguments::{conf_in, named, number_in, set_in};
use crate::mistake::Mistake;
use crate::server_request::ServerRequest;
use crate::words::is_word;
use rambo_names::Bytes;

// What a server is asked to do.
#[derive(Clone, Copy)]
enum Action {
    Use,
    Join,
    Recon,
    Collect,
    Stop,
    Config,
    Info,
    Shutdown,
}

// The action of this name, in upper or lower case.
fn action_of(word: &[u8]) -> Option<Action>
    ensures { result ≡ spec.action_of word.now }
{
    if is_word(word, b"USE") {
        Some(Action::Use)
    } else if is_word(word, b"JOIN") {
        Some(Action::Join)
    } else if is_word(word, b"RECON") {
        Some(Action::Recon)
    } else if is_word(word, b"COLLECT") {
        Some(Action::Collect)
    } else if is_word(word, b"STOP") {
        Some(Action::Stop)
    } else if is_word(word, b"CONFIG") {
        Some(Action::Config)
    } else if is_word(word, b"INFO") {
        Some(Action::Info)
    } else if is_word(word, b"SHUTDOWN") {
        Some(Action::Shutdown)
    } else {
        None
    }
}

// What `RAMBO` asks for with these words after it, or what is wrong with them.
pub(crate) fn administration(words: &[Bytes]) -> Result<ServerRequest, Mistake>
    ensures { spec.Administers words.now (spec.judged result) }
{
    match words {
        [name, arguments @ ..] => match action_of(name.as_slice()) {
            Some(action) => acting(action, arguments),
            None => Err(Mistake::UnknownCommand),
        },
        [] => Err(Mistake::WrongCount),
    }
}

// What an action asks for with these words after it, or what is wrong with them.
fn acting(action: Action, arguments: &[Bytes]) -> Result<ServerRequest, Mistake>
    ensures { spec.Acts action arguments.now (spec.judged result) }
{
    match action {
        Action::Use => using(arguments),
        Action::Join => joining(arguments),
        Action::Recon => changing(arguments),
        Action::Collect => alone(ServerRequest::Collect, arguments),
        Action::Stop => stopping(arguments),
        Action::Config => alone(ServerRequest::Config, arguments),
        Action::Info => alone(ServerRequest::Info, arguments),
        Action::Shutdown => alone(ServerRequest::Shutdown, arguments),
    }
}

// That another node is asked: its name.
fn using(arguments: &[Bytes]) -> Result<ServerRequest, Mistake>
    ensures { spec.ActsOnNode asked.Use arguments.now (spec.judged result) }
{
    match arguments {
        [word] => Ok(ServerRequest::Use(named(number_in(word)?)?)),
        _ => Err(Mistake::WrongCount),
    }
}

// That a node joins: its name and the names that it writes to.
fn joining(arguments: &[Bytes]) -> Result<ServerRequest, Mistake>
    ensures { spec.Joins arguments.now (spec.judged result) }
{
    match arguments {
        [word, known] => {
            let number = number_in(word)?;
            let known = set_in(known)?;
            Ok(ServerRequest::Join(named(number)?, known))
        }
        _ => Err(Mistake::WrongCount),
    }
}

// That a configuration is to be chosen: which one.
fn changing(arguments: &[Bytes]) -> Result<ServerRequest, Mistake>
    ensures { spec.Changes arguments.now (spec.judged result) }
{
    match arguments {
        [word] => Ok(ServerRequest::Recon(conf_in(word)?)),
        _ => Err(Mistake::WrongCount),
    }
}

// That a node stops: its name.
fn stopping(arguments: &[Bytes]) -> Result<ServerRequest, Mistake>
    ensures { spec.ActsOnNode asked.Stop arguments.now (spec.judged result) }
{
    match arguments {
        [word] => Ok(ServerRequest::Stop(named(number_in(word)?)?)),
        _ => Err(Mistake::WrongCount),
    }
}

// This request, which has no words after it.
fn alone(request: ServerRequest, arguments: &[Bytes]) -> Result<ServerRequest, Mistake>
    ensures { spec.ActsAlone request arguments.now (spec.judged result) }
{
    match arguments {
        [] => Ok(request),
        _ => Err(Mistake::WrongCount),
    }
}
