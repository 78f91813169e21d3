//! Writing signs.
ghost use Rattle.std.specs.Prelude.{◌≡◌, ◌+◌, ◌*◌, ◌≤◌, ◌++◌, length, decimal, vec_len, vec_capacity, OnOk, OnErr, IfErr};
ghost use Rattle.rambo_text.specs.Signs.{hex_text, call_text, standing_text};

use crate::digits::{MOST_DIGITS, push_num, push_pairs};
use rambo_history::CallId;
use rambo_names::{Name, Refusal, Weighted, write_conf};
use std::alloc::AllocError;

// How many digits the greatest name has.
const NAME_DIGITS: usize = 2;

// How many bytes the longest call has.
const CALL_ROOM: usize = NAME_DIGITS + 1 + MOST_DIGITS;

/// Appends a number in plain decimal.
///
/// `AllocError` where the text can't grow; it is then unchanged.
pub fn write_num(number: u64, out: &mut Vec<u8>) -> Result<(), AllocError>
    ensures ok { OnOk result (out.new.items ≡ out.old.items ++ decimal number) }
    ensures err { OnErr result (out.new.items ≡ out.old.items) }
{
    out.reserve(MOST_DIGITS)?;
    push_num(number, out);
    Ok(())
}

/// Appends the number of a name in plain decimal.
///
/// `AllocError` where the text can't grow; it is then unchanged.
pub fn write_name(name: Name, out: &mut Vec<u8>) -> Result<(), AllocError>
    ensures ok { OnOk result (out.new.items ≡ out.old.items ++ decimal name) }
    ensures err { OnErr result (out.new.items ≡ out.old.items) }
{
    write_num(name.number(), out)
}

/// Appends a call: the name of its node, a dot, and its number there.
///
/// `AllocError` where the text can't grow; it is then unchanged.
pub fn write_call(id: &CallId, out: &mut Vec<u8>) -> Result<(), AllocError>
    ensures ok { OnOk result (out.new.items ≡ out.old.items ++ call_text id.now) }
    ensures err { OnErr result (out.new.items ≡ out.old.items) }
{
    out.reserve(CALL_ROOM)?;
    push_call(id, out);
    Ok(())
}

/// Appends a call to a text that has room for 23 bytes. It allocates nothing.
pub fn push_call(id: &CallId, out: &mut Vec<u8>)
    requires { vec_len out.old + 23 ≤ vec_capacity out.old }
    ensures items { out.new.items ≡ out.old.items ++ call_text id.now }
    ensures len { vec_len out.new ≤ vec_len out.old + 23 }
    ensures capacity { vec_capacity out.old ≤ vec_capacity out.new }
{
    push_num(id.name.number(), out);
    out.push_reserved(b'.');
    push_num(id.number, out);
}

/// Appends bytes as pairs of digits, `0` to `9` and `a` to `f`, or a dash where there is none.
///
/// `AllocError` where the text can't grow; it is then unchanged.
pub fn write_hex(bytes: &[u8], out: &mut Vec<u8>) -> Result<(), AllocError>
    ensures ok { OnOk result (out.new.items ≡ out.old.items ++ hex_text bytes.now) }
    ensures err { OnErr result (out.new.items ≡ out.old.items) }
{
    if bytes.is_empty() {
        out.push(b'-')?;
        return Ok(());
    }
    out.reserve(2 * bytes.len())?;
    push_pairs(bytes, out);
    Ok(())
}

/// Appends bytes as `write_hex` does, to a text that has room for two for each, and one more. It allocates nothing.
pub fn push_hex(bytes: &[u8], out: &mut Vec<u8>)
    requires { vec_len out.old + 2 * length bytes.now + 1 ≤ vec_capacity out.old }
    ensures items { out.new.items ≡ out.old.items ++ hex_text bytes.now }
    ensures len { vec_len out.new ≤ vec_len out.old + 2 * length bytes.now + 1 }
    ensures capacity { vec_capacity out.old ≤ vec_capacity out.new }
{
    if bytes.is_empty() {
        out.push_reserved(b'-');
    } else {
        push_pairs(bytes, out);
    }
}

/// Appends some bytes to a text that has room for them. It allocates nothing.
pub fn push_bytes(bytes: &[u8], out: &mut Vec<u8>)
    requires { vec_len out.old + length bytes.now ≤ vec_capacity out.old }
    ensures items { out.new.items ≡ out.old.items ++ bytes.now }
    ensures len { vec_len out.new ≡ vec_len out.old + length bytes.now }
    ensures capacity { vec_capacity out.old ≤ vec_capacity out.new }
{
    let _ = out.extend_from_slice(bytes);
}

/// Appends what is at a place: its configuration, or `removed` for none.
///
/// `OutOfMemory` where the text can't grow; it is then unchanged.
pub fn write_standing(conf: Option<Weighted>, out: &mut Vec<u8>) -> Result<(), Refusal>
    ensures ok { OnOk result (out.new.items ≡ out.old.items ++ standing_text conf) }
    ensures err { OnErr result (out.new.items ≡ out.old.items) }
    ensures refused { IfErr result (λ r. r ≡ Refusal.OutOfMemory) }
{
    match conf {
        None => out.extend_from_slice(b"removed")?,
        Some(conf) => write_conf(&conf, out)?,
    }
    Ok(())
}
