//! What goes out.
ghost use Rattle.std.specs.Prelude.{◌≡◌, ◌++◌, List, ℕ, OnOk, OnErr, IfErr};
ghost use Rattle.rambo_resp.specs.Replies.{reply_spelling};
ghost use Rattle.rambo_commands.specs.Replies as spec;

use bytes::BytesMut;
use itoa::Buffer;
use rambo_names::Refusal;
use rambo_resp::Fault;

/// Appends the spelling of the error for a fault of the stream. Where the buffer has room for it nothing is allocated.
///
/// `OutOfMemory` where the buffer can't grow; it is then unchanged.
pub(crate) fn append_fault(fault: Fault, out: &mut BytesMut) -> Result<(), Refusal>
    ensures ok { OnOk result (out.new.items ≡ out.old.items ++ reply_spelling (spec.fault_reply fault)) }
    ensures err { OnErr result (out.new.items ≡ out.old.items) }
    ensures refused { IfErr result (λ r. r ≡ Refusal.OutOfMemory) }
{
    let before = out.len();
    let written = append_fault_line(fault, out);
    if written.is_err() {
        out.truncate(before);
    }
    written
}

// Appends the line that tells a fault, or after a refusal some front of it.
fn append_fault_line(fault: Fault, out: &mut BytesMut) -> Result<(), Refusal>
    ensures ok { OnOk result (out.new.items ≡ out.old.items ++ reply_spelling (spec.fault_reply fault)) }
    ensures err { OnErr result ((more : List ℕ) × (out.new.items ≡ out.old.items ++ more)) }
    ensures refused { IfErr result (λ r. r ≡ Refusal.OutOfMemory) }
{
    let mut buffer = Buffer::new();
    out.extend_from_slice(b"-ERR protocol fault P")?;
    out.extend_from_slice(buffer.format(fault.number()).as_bytes())?;
    out.extend_from_slice(b"\r\n")?;
    Ok(())
}
