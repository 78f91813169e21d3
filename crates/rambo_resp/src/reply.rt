//! Replies.
ghost use Rattle.std.specs.Prelude.{◌≡◌, ◌∷◌, ◌++◌, List, ℕ, OnOk, OnErr, IfErr};
ghost use Rattle.rambo_resp.specs.Spellings.{line_end, item_spelling};
ghost use Rattle.rambo_resp.specs.Replies.{reply_spelling};

use crate::fault::Fault;
use bytes::BytesMut;
use itoa::Buffer;
use rambo_names::Bytes;

/// How a command is answered.
#[derive(Drop, Debug)]
pub enum Reply {
    /// The answer to a `PING` with no word.
    Pong,
    /// Done.
    Ok,
    /// There is no value.
    Nil,
    /// These bytes, of any number.
    Bulk(Bytes),
    /// An error, in these words, which should contain no CR or LF.
    Error(Bytes),
}

/// Appends the one spelling of a reply.
///
/// `OutOfMemory` where the buffer can't grow; it is then unchanged.
pub fn write_reply(reply: &Reply, out: &mut BytesMut) -> Result<(), Fault>
    ensures ok { OnOk result (out.new.items ≡ out.old.items ++ reply_spelling reply.now) }
    ensures err { OnErr result (out.new.items ≡ out.old.items) }
    ensures refused { IfErr result (λ f. f ≡ Fault.OutOfMemory) }
{
    let before = out.len();
    let written = append_reply(reply, out);
    if written.is_err() {
        out.truncate(before);
    }
    written
}

// Appends a reply, or after a fault a prefix of it.
fn append_reply(reply: &Reply, out: &mut BytesMut) -> Result<(), Fault>
    ensures ok { OnOk result (out.new.items ≡ out.old.items ++ reply_spelling reply.now) }
    ensures err { OnErr result ((more : List ℕ) × (out.new.items ≡ out.old.items ++ more)) }
    ensures refused { IfErr result (λ f. f ≡ Fault.OutOfMemory) }
{
    match reply {
        Reply::Pong => out.extend_from_slice(b"+PONG\r\n")?,
        Reply::Ok => out.extend_from_slice(b"+OK\r\n")?,
        Reply::Nil => out.extend_from_slice(b"$-1\r\n")?,
        Reply::Bulk(bytes) => append_bulk(bytes.as_slice(), out)?,
        Reply::Error(words) => append_error(words.as_slice(), out)?,
    }
    Ok(())
}

// Appends bytes after their length, or after a fault a prefix of this.
fn append_bulk(bytes: &[u8], out: &mut BytesMut) -> Result<(), Fault>
    ensures ok { OnOk result (out.new.items ≡ out.old.items ++ item_spelling bytes.now) }
    ensures err { OnErr result ((more : List ℕ) × (out.new.items ≡ out.old.items ++ more)) }
    ensures refused { IfErr result (λ f. f ≡ Fault.OutOfMemory) }
{
    let mut buffer = Buffer::new();
    out.extend_from_slice(b"$")?;
    out.extend_from_slice(buffer.format(bytes.len()).as_bytes())?;
    out.extend_from_slice(b"\r\n")?;
    out.extend_from_slice(bytes)?;
    out.extend_from_slice(b"\r\n")?;
    Ok(())
}

// Appends the line of an error, or after a fault a prefix of it.
fn append_error(words: &[u8], out: &mut BytesMut) -> Result<(), Fault>
    ensures ok { OnOk result (out.new.items ≡ out.old.items ++ ((45 ∷ words.now) ++ line_end)) }
    ensures err { OnErr result ((more : List ℕ) × (out.new.items ≡ out.old.items ++ more)) }
    ensures refused { IfErr result (λ f. f ≡ Fault.OutOfMemory) }
{
    out.extend_from_slice(b"-")?;
    out.extend_from_slice(words)?;
    out.extend_from_slice(b"\r\n")?;
    Ok(())
}
