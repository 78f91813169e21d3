//! Writing the lines of steps.
ghost use Rattle.std.specs.Prelude.{◌≡◌, ◌++◌, ◌∷◌, [], decimal, OnOk, OnErr, IfErr};
ghost use Rattle.rambo_names.specs.Signs.{set_text, conf_text};
ghost use Rattle.rambo_text.specs.Signs.{Grows, call_text, hex_text};
ghost use Rattle.rambo_node.specs.declared.step.StepOf.TheVariants as step;
ghost use Rattle.rambo_lines.specs.StepLines.{step_line, quiet_line, quiet_word};

use rambo_history::{CallId, Op};
use rambo_names::{Bytes, Members, Name, Refusal, Weighted, write_conf, write_set};
use rambo_node::{Quiet, quiet_of};
use rambo_run::Step;
use rambo_text::{write_call, write_hex, write_name, write_num};

/// Appends the line of a step, with its line feed.
///
/// `OutOfMemory` where the text can't grow; it is then unchanged.
pub fn step_text(step: &Step<Weighted>, out: &mut Vec<u8>) -> Result<(), Refusal>
    ensures ok { OnOk result (out.new.items ≡ out.old.items ++ step_line step.now ++ 10 ∷ []) }
    ensures err { OnErr result (out.new.items ≡ out.old.items) }
    ensures refused { IfErr result (λ r. r ≡ Refusal.OutOfMemory) }
{
    let before = out.len();
    let written = append_line(step, out);
    if written.is_err() {
        out.truncate(before);
    }
    written
}

fn append_line(step: &Step<Weighted>, out: &mut Vec<u8>) -> Result<(), Refusal>
    ensures ok { OnOk result (out.new.items ≡ out.old.items ++ step_line step.now ++ 10 ∷ []) }
    ensures err { OnErr result (Grows out.old.items out.new.items) }
    ensures refused { IfErr result (λ r. r ≡ Refusal.OutOfMemory) }
{
    append_step(step, out)?;
    out.push(b'\n')?;
    Ok(())
}

// Appends the words of a step, or after a refusal some front of them.
fn append_step(step: &Step<Weighted>, out: &mut Vec<u8>) -> Result<(), Refusal>
    ensures ok { OnOk result (out.new.items ≡ out.old.items ++ step_line step.now) }
    ensures err { OnErr result (Grows out.old.items out.new.items) }
    ensures refused { IfErr result (λ r. r ≡ Refusal.OutOfMemory) }
{
    match step {
        Step::Call(name, op) => append_call(*name, op, out),
        Step::Send(from, to) => {
            append_named(b"send", *from, out)?;
            append_name(*to, out)
        }
        Step::Deliver(letter) => {
            append_word(b"deliver", out)?;
            append_number(*letter, out)
        }
        Step::Advance(id) => append_called(b"advance", id, out),
        _ => match quiet_of(step) {
            Some((name, quiet)) => append_quiet(name, &quiet, out),
            None => unreachable!(),
        },
    }
}

fn append_call(name: Name, op: &Op, out: &mut Vec<u8>) -> Result<(), Refusal>
    ensures ok { OnOk result (out.new.items ≡ out.old.items ++ step_line (step.Call name op.now)) }
    ensures err { OnErr result (Grows out.old.items out.new.items) }
    ensures refused { IfErr result (λ r. r ≡ Refusal.OutOfMemory) }
{
    match op {
        Op::Get(key) => {
            append_named(b"get", name, out)?;
            append_bytes(key, out)
        }
        Op::Set(key, value) => {
            append_named(b"set", name, out)?;
            append_bytes(key, out)?;
            append_bytes(value, out)
        }
    }
}

fn append_quiet(name: Name, quiet: &Quiet<Weighted>, out: &mut Vec<u8>) -> Result<(), Refusal>
    ensures ok { OnOk result (out.new.items ≡ out.old.items ++ quiet_line name quiet.now) }
    ensures err { OnErr result (Grows out.old.items out.new.items) }
    ensures refused { IfErr result (λ r. r ≡ Refusal.OutOfMemory) }
{
    match quiet {
        Quiet::Join(contacts) => {
            append_named(quiet_word(quiet), name, out)?;
            append_set(contacts, out)
        }
        Quiet::Again(id) => append_called(quiet_word(quiet), id, out),
        Quiet::Recon(wish) => {
            append_named(quiet_word(quiet), name, out)?;
            append_conf(wish, out)
        }
        _ => append_named(quiet_word(quiet), name, out),
    }
}

fn quiet_word(quiet: &Quiet<Weighted>) -> &'static [u8]
    ensures { result.now ≡ quiet_word quiet.now }
{
    match quiet {
        Quiet::Join(_) => b"join",
        Quiet::Again(_) => b"again",
        Quiet::Collect => b"collect",
        Quiet::AdvanceCollect => b"advance-collect",
        Quiet::Recon(_) => b"recon",
        Quiet::Rebid => b"rebid",
        Quiet::AdvanceRecon => b"advance-recon",
        Quiet::Stop => b"stop",
    }
}

// The first word of a line.
fn append_word(word: &[u8], out: &mut Vec<u8>) -> Result<(), Refusal>
    ensures ok { OnOk result (out.new.items ≡ out.old.items ++ word.now) }
    ensures err { OnErr result (Grows out.old.items out.new.items) }
    ensures refused { IfErr result (λ r. r ≡ Refusal.OutOfMemory) }
{
    out.extend_from_slice(word)?;
    Ok(())
}

// The first word of a line, and a name.
fn append_named(word: &[u8], name: Name, out: &mut Vec<u8>) -> Result<(), Refusal>
    ensures ok { OnOk result (out.new.items ≡ out.old.items ++ word.now ++ 32 ∷ decimal name) }
    ensures err { OnErr result (Grows out.old.items out.new.items) }
    ensures refused { IfErr result (λ r. r ≡ Refusal.OutOfMemory) }
{
    append_word(word, out)?;
    append_name(name, out)
}

// The first word of a line, and a call.
fn append_called(word: &[u8], id: &CallId, out: &mut Vec<u8>) -> Result<(), Refusal>
    ensures ok { OnOk result (out.new.items ≡ out.old.items ++ word.now ++ 32 ∷ call_text id.now) }
    ensures err { OnErr result (Grows out.old.items out.new.items) }
    ensures refused { IfErr result (λ r. r ≡ Refusal.OutOfMemory) }
{
    append_word(word, out)?;
    append_id(id, out)
}

// Each further word stands after a space.
fn append_name(name: Name, out: &mut Vec<u8>) -> Result<(), Refusal>
    ensures ok { OnOk result (out.new.items ≡ out.old.items ++ 32 ∷ decimal name) }
    ensures err { OnErr result (Grows out.old.items out.new.items) }
    ensures refused { IfErr result (λ r. r ≡ Refusal.OutOfMemory) }
{
    out.push(b' ')?;
    write_name(name, out)?;
    Ok(())
}

fn append_number(number: u64, out: &mut Vec<u8>) -> Result<(), Refusal>
    ensures ok { OnOk result (out.new.items ≡ out.old.items ++ 32 ∷ decimal number) }
    ensures err { OnErr result (Grows out.old.items out.new.items) }
    ensures refused { IfErr result (λ r. r ≡ Refusal.OutOfMemory) }
{
    out.push(b' ')?;
    write_num(number, out)?;
    Ok(())
}

fn append_set(set: &Members, out: &mut Vec<u8>) -> Result<(), Refusal>
    ensures ok { OnOk result (out.new.items ≡ out.old.items ++ 32 ∷ set_text set.now) }
    ensures err { OnErr result (Grows out.old.items out.new.items) }
    ensures refused { IfErr result (λ r. r ≡ Refusal.OutOfMemory) }
{
    out.push(b' ')?;
    write_set(set, out)
}

fn append_conf(conf: &Weighted, out: &mut Vec<u8>) -> Result<(), Refusal>
    ensures ok { OnOk result (out.new.items ≡ out.old.items ++ 32 ∷ conf_text conf.now) }
    ensures err { OnErr result (Grows out.old.items out.new.items) }
    ensures refused { IfErr result (λ r. r ≡ Refusal.OutOfMemory) }
{
    out.push(b' ')?;
    write_conf(conf, out)
}

fn append_id(id: &CallId, out: &mut Vec<u8>) -> Result<(), Refusal>
    ensures ok { OnOk result (out.new.items ≡ out.old.items ++ 32 ∷ call_text id.now) }
    ensures err { OnErr result (Grows out.old.items out.new.items) }
    ensures refused { IfErr result (λ r. r ≡ Refusal.OutOfMemory) }
{
    out.push(b' ')?;
    write_call(id, out)?;
    Ok(())
}

fn append_bytes(bytes: &Bytes, out: &mut Vec<u8>) -> Result<(), Refusal>
    ensures ok { OnOk result (out.new.items ≡ out.old.items ++ 32 ∷ hex_text bytes.now) }
    ensures err { OnErr result (Grows out.old.items out.new.items) }
    ensures refused { IfErr result (λ r. r ≡ Refusal.OutOfMemory) }
{
    out.push(b' ')?;
    write_hex(bytes.as_slice(), out)?;
    Ok(())
}
