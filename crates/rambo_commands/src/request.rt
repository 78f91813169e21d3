//! What a command of any client asks for.
ghost use Rattle.std.specs.Prelude.{◌≡◌, ◌∷◌, [], IfOk, IfErr};
ghost use Rattle.rambo_resp.specs.BriefCommands.{items_of};
ghost use Rattle.rambo_commands.specs.Requests as spec;

use crate::mistake::Mistake;
use crate::words::is_word;
use rambo_history::Op;
use rambo_names::{Bytes, Refusal};
use rambo_resp::{BriefCommand, Command, Reply};
use std::alloc::Global;

/// The greatest number of bytes of a key.
const LONGEST_KEY: usize = 256;

/// What a command asks for.
#[derive(Drop)]
pub enum Request {
    /// This reply, whatever the store holds.
    Says(Reply),
    /// An operation of the store.
    Does(Op),
}

impl Request {
    /// What a command asks for, or the error that is the reply to it. Its first word is case-insensitive.
    ///
    /// `OutOfMemory` where there is no room for its bytes.
    pub fn of(alloc: Global, command: &Command) -> Result<Request, Refusal>
        ensures ok { IfOk result (λ q. q ≡ spec.request_of command.now) }
        ensures refused { IfErr result (λ r. r ≡ Refusal.OutOfMemory) }
    {
        match command.items() {
            [name, words @ ..] => named(alloc, name.as_slice(), words),
            [] => fails(alloc, Mistake::UnknownCommand),
        }
    }

    /// The same of a command that lies in a piece of its stream.
    #[inline(always)]
    pub fn of_brief(alloc: Global, command: BriefCommand) -> Result<Request, Refusal>
        ensures ok { IfOk result (λ q. q ≡ spec.request_of (items_of command.entry)) }
        ensures refused { IfErr result (λ r. r ≡ Refusal.OutOfMemory) }
    {
        match command {
            BriefCommand::Two(name, key) if is_word(name, b"GET") => brief_get(alloc, key),
            BriefCommand::Three(name, key, value) if is_word(name, b"SET") => {
                brief_set(alloc, key, value)
            }
            _ => of_copy(alloc, command),
        }
    }
}

// What `GET` asks for, by the bytes of its key.
#[inline(always)]
fn brief_get(alloc: Global, key: &[u8]) -> Result<Request, Refusal>
    ensures ok { IfOk result (λ q. q ≡ spec.get (key.now ∷ [])) }
    ensures refused { IfErr result (λ r. r ≡ Refusal.OutOfMemory) }
{
    let key = Bytes::from_slice(alloc, key)?;
    asks(alloc, Op::Get(key))
}

// What `SET` asks for, by the bytes of its key and value.
#[inline(always)]
fn brief_set(alloc: Global, key: &[u8], value: &[u8]) -> Result<Request, Refusal>
    ensures ok { IfOk result (λ q. q ≡ spec.set (key.now ∷ value.now ∷ [])) }
    ensures refused { IfErr result (λ r. r ≡ Refusal.OutOfMemory) }
{
    let key = Bytes::from_slice(alloc, key)?;
    let value = Bytes::from_slice(alloc, value)?;
    asks(alloc, Op::Set(key, value))
}

// What a command asks for that seldom comes, by a copy of it.
#[inline(never)]
fn of_copy(alloc: Global, command: BriefCommand) -> Result<Request, Refusal>
    ensures ok { IfOk result (λ q. q ≡ spec.request_of (items_of command.entry)) }
    ensures refused { IfErr result (λ r. r ≡ Refusal.OutOfMemory) }
{
    let copy = command.to_command(alloc).map_err(|_| Refusal::OutOfMemory)?;
    Request::of(alloc, &copy)
}

// What a command of this name asks for.
fn named(alloc: Global, name: &[u8], words: &[Bytes]) -> Result<Request, Refusal>
    ensures ok { IfOk result (λ q. q ≡ spec.named name.now words.now) }
    ensures refused { IfErr result (λ r. r ≡ Refusal.OutOfMemory) }
{
    if is_word(name, b"PING") {
        ping(alloc, words)
    } else if is_word(name, b"GET") {
        get(alloc, words)
    } else if is_word(name, b"SET") {
        set(alloc, words)
    } else {
        fails(alloc, Mistake::UnknownCommand)
    }
}

// What `PING` asks for.
fn ping(alloc: Global, words: &[Bytes]) -> Result<Request, Refusal>
    ensures ok { IfOk result (λ q. q ≡ spec.ping words.now) }
    ensures refused { IfErr result (λ r. r ≡ Refusal.OutOfMemory) }
{
    match words {
        [] => Ok(Request::Says(Reply::Pong)),
        [word] => Ok(Request::Says(Reply::Bulk(word.clone()?))),
        _ => fails(alloc, Mistake::WrongCount),
    }
}

// What `GET` asks for.
fn get(alloc: Global, words: &[Bytes]) -> Result<Request, Refusal>
    ensures ok { IfOk result (λ q. q ≡ spec.get words.now) }
    ensures refused { IfErr result (λ r. r ≡ Refusal.OutOfMemory) }
{
    match words {
        [key] => asks(alloc, Op::Get(key.clone()?)),
        _ => fails(alloc, Mistake::WrongCount),
    }
}

// What `SET` asks for.
fn set(alloc: Global, words: &[Bytes]) -> Result<Request, Refusal>
    ensures ok { IfOk result (λ q. q ≡ spec.set words.now) }
    ensures refused { IfErr result (λ r. r ≡ Refusal.OutOfMemory) }
{
    match words {
        [key, value] => { asks(alloc, Op::Set(key.clone()?, value.clone()?)) }
        _ => fails(alloc, Mistake::WrongCount),
    }
}

// An operation, unless its key is too long.
#[inline(always)]
fn asks(alloc: Global, op: Op) -> Result<Request, Refusal>
    ensures ok { IfOk result (λ q. q ≡ spec.asks op) }
    ensures refused { IfErr result (λ r. r ≡ Refusal.OutOfMemory) }
{
    if op.key().len() > LONGEST_KEY {
        return fails(alloc, Mistake::Refused(Refusal::KeyTooLong));
    }
    Ok(Request::Does(op))
}

// A request that is answered by the error for a mistake.
fn fails(alloc: Global, mistake: Mistake) -> Result<Request, Refusal>
    ensures ok { IfOk result (λ q. q ≡ spec.fails mistake) }
    ensures refused { IfErr result (λ r. r ≡ Refusal.OutOfMemory) }
{
    Ok(Request::Says(mistake.reply(alloc)?))
}
