//! Replies.
ghost use Rattle.std.specs.Prelude.{◌≡◌, ◌++◌, List, ℕ, map, IfOk, IfErr, OnOk, OnErr};
ghost use Rattle.rambo_names.specs.Signs.{conf_text};
ghost use Rattle.rambo_text.specs.Words.{more_words};
ghost use Rattle.rambo_resp.specs.Replies.{reply_spelling};
ghost use Rattle.rambo_commands.specs.Replies as spec;
ghost use Rattle.rambo_commands.specs.Mistakes.{refused_words};

use bytes::BytesMut;
use itoa::Buffer;
use rambo_history::Answer;
use rambo_names::{Bytes, Refusal, Weighted, write_conf};
use rambo_resp::{Fault, Reply, write_reply};
use rambo_text::write_num;
use std::alloc::Global;

/// The reply with an answer.
pub fn telling(answer: Answer) -> Reply
    ensures { result ≡ spec.telling answer }
{
    match answer {
        Answer::Ok => Reply::Ok,
        Answer::Nil => Reply::Nil,
        Answer::Value(value) => Reply::Bulk(value),
    }
}

/// The error for a refusal, with its number and its word, as `ERR refused 19 KeyTooLong`.
///
/// `OutOfMemory` where there is no room for its words.
pub fn refusal_reply(alloc: Global, refusal: Refusal) -> Result<Reply, Refusal>
    ensures ok { IfOk result (λ r. r ≡ spec.refusal_reply refusal) }
    ensures refused { IfErr result (λ r. r ≡ Refusal.OutOfMemory) }
{
    let mut words = BytesMut::new(alloc);
    append_refused(refusal, &mut words)?;
    Ok(Reply::Error(Bytes::from_slice(alloc, words.as_slice())?))
}

/// The error for a fault of a stream, with its number, as `ERR protocol fault P2`.
///
/// `OutOfMemory` where there is no room for its words.
pub fn fault_reply(alloc: Global, fault: Fault) -> Result<Reply, Refusal>
    ensures ok { IfOk result (λ r. r ≡ spec.fault_reply fault) }
    ensures refused { IfErr result (λ r. r ≡ Refusal.OutOfMemory) }
{
    let mut words = Vec::new(alloc);
    words.extend_from_slice(b"ERR protocol fault P")?;
    write_num(fault.number(), &mut words)?;
    Ok(Reply::Error(Bytes::from_vec(words)?))
}

/// The bulk with a map: its lowest active place and the configurations from there on, as `0 1,2,3 2:2,3,4`.
///
/// `OutOfMemory` where there is no room for it.
pub fn map_reply(alloc: Global, floor: u64, configs: &[Weighted]) -> Result<Reply, Refusal>
    ensures ok { IfOk result (λ r. r ≡ spec.map_reply floor configs.now) }
    ensures refused { IfErr result (λ r. r ≡ Refusal.OutOfMemory) }
{
    let mut text = Vec::new(alloc);
    write_num(floor, &mut text)?;
    append_configs(configs, &mut text)?;
    Ok(Reply::Bulk(Bytes::from_vec(text)?))
}

/// Appends each configuration after a space, or after a refusal some bytes.
pub(crate) fn append_configs(configs: &[Weighted], text: &mut Vec<u8>) -> Result<(), Refusal>
    ensures ok { OnOk result (text.new.items ≡ text.old.items ++ more_words (map conf_text configs.now)) }
    ensures refused { IfErr result (λ r. r ≡ Refusal.OutOfMemory) }
{
    for config in configs {
        text.push(b' ')?;
        write_conf(config, text)?;
    }
    Ok(())
}

/// Appends the one spelling of a reply.
///
/// `OutOfMemory` where the buffer can't grow; it is then unchanged.
pub fn append_reply(reply: &Reply, out: &mut BytesMut) -> Result<(), Refusal>
    ensures ok { OnOk result (out.new.items ≡ out.old.items ++ reply_spelling reply.now) }
    ensures err { OnErr result (out.new.items ≡ out.old.items) }
    ensures refused { IfErr result (λ r. r ≡ Refusal.OutOfMemory) }
{
    write_reply(reply, out).map_err(|_| Refusal::OutOfMemory)
}

/// Appends the spelling of the error for a refusal. Where the buffer has room for it nothing is allocated.
///
/// `OutOfMemory` where the buffer can't grow; it is then unchanged.
pub fn append_refusal(refusal: Refusal, out: &mut BytesMut) -> Result<(), Refusal>
    ensures ok { OnOk result (out.new.items ≡ out.old.items ++ reply_spelling (spec.refusal_reply refusal)) }
    ensures err { OnErr result (out.new.items ≡ out.old.items) }
    ensures refused { IfErr result (λ r. r ≡ Refusal.OutOfMemory) }
{
    let before = out.len();
    let written = append_refusal_line(refusal, out);
    if written.is_err() {
        out.truncate(before);
    }
    written
}

// Appends the line for a refusal, or after a failure a prefix of it.
fn append_refusal_line(refusal: Refusal, out: &mut BytesMut) -> Result<(), Refusal>
    ensures ok { OnOk result (out.new.items ≡ out.old.items ++ reply_spelling (spec.refusal_reply refusal)) }
    ensures err { OnErr result ((more : List ℕ) × (out.new.items ≡ out.old.items ++ more)) }
    ensures refused { IfErr result (λ r. r ≡ Refusal.OutOfMemory) }
{
    out.extend_from_slice(b"-")?;
    append_refused(refusal, out)?;
    out.extend_from_slice(b"\r\n")?;
    Ok(())
}

// Appends the words for a refusal, or after a failure a prefix of them.
fn append_refused(refusal: Refusal, out: &mut BytesMut) -> Result<(), Refusal>
    ensures ok { OnOk result (out.new.items ≡ out.old.items ++ refused_words refusal) }
    ensures err { OnErr result ((more : List ℕ) × (out.new.items ≡ out.old.items ++ more)) }
    ensures refused { IfErr result (λ r. r ≡ Refusal.OutOfMemory) }
{
    let mut buffer = Buffer::new();
    out.extend_from_slice(b"ERR refused ")?;
    out.extend_from_slice(buffer.format(refusal.number()).as_bytes())?;
    out.extend_from_slice(b" ")?;
    out.extend_from_slice(refusal.word().as_bytes())?;
    Ok(())
}
