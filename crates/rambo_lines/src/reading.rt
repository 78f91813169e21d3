//! Reading the line of a step.
ghost use Rattle.std.specs.Prelude.{◌≡◌, ◌≢◌, ◌⊎◌, IfOk, IfErr};
ghost use Rattle.std.specs.Option.{option_copied};
ghost use Rattle.rambo_names.specs.Weights.{Weights};
ghost use Rattle.rambo_node.specs.declared.prepared.Quiet.{Quiet};
ghost use Rattle.rambo_lines.specs.Faults.{IsFaultyStep};
ghost use Rattle.rambo_lines.specs.Parts.{TellStep, TellUnfitStep, TellNone};
ghost use Rattle.rambo_lines.specs.Scripts.{HasLine};
ghost use Rattle.rambo_lines.specs.StepLines.{step_line, quiet_word};

use crate::parts::{
    called, named, named_conf, named_key, named_key_value, named_set, numbered, two_names,
};
use crate::script::LINE_LIMIT;
use rambo_history::Op;
use rambo_names::Weighted;
use rambo_run::Step;
use rambo_text::{Fault, next_word};
use std::alloc::Global;

/// The step of a line.
///
/// `OutOfMemory` where there is no room for the bytes of a get or a set, and no fault comes before these: a step that
/// holds no bytes allocates nothing. Else the first fault of the line: `LineTooLong`; `UnknownWord` where its first word
/// begins no step; `WrongCount`; `BadNumber` or `BadHex`, of the first word from the left that isn't in its form.
pub fn read_step(alloc: Global, line: &[u8]) -> Result<Step<Weighted>, Fault>
    ensures found { IfOk result (λ st. HasLine st × (line.now ≡ step_line st)) }
    ensures fault { IfErr result (λ f. IsFaultyStep line.now f) }
{
    if line.len() > LINE_LIMIT {
        return Err(Fault::LineTooLong);
    }
    let (word, more) = next_word(line);
    read_words(alloc, word, more)
}

// The step that begins with a word, of the words after it.
fn read_words(alloc: Global, word: &[u8], more: Option<&[u8]>) -> Result<Step<Weighted>, Fault>
    ensures found { IfOk result (λ st. TellStep word.now (option_copied more.entry) st) }
    ensures fault { IfErr result (λ f. TellNone word.now (option_copied more.entry) f) }
{
    if word == b"get".as_slice() {
        let (name, key) = named_key(alloc, more)?;
        return Ok(Step::Call(name, Op::Get(key)));
    }
    if word == b"set".as_slice() {
        let (name, key, value) = named_key_value(alloc, more)?;
        return Ok(Step::Call(name, Op::Set(key, value)));
    }
    if word == b"send".as_slice() {
        let (from, to) = two_names(more)?;
        return Ok(Step::Send(from, to));
    }
    if word == b"deliver".as_slice() {
        return Ok(Step::Deliver(numbered(more)?));
    }
    if word == b"advance".as_slice() {
        return Ok(Step::Advance(called(more)?));
    }
    read_quiet(word, more)
}

// The quiet step that begins with a word, of the words after it.
fn read_quiet(word: &[u8], more: Option<&[u8]>) -> Result<Step<Weighted>, Fault>
    ensures found { IfOk result (λ st. TellStep word.now (option_copied more.entry) st) }
    ensures fault { IfErr result (λ f. (((q : Quiet Weights) → word.now ≢ quiet_word q) × (f ≡ Fault.UnknownWord)) ⊎ TellUnfitStep word.now (option_copied more.entry) f) }
{
    if word == b"join".as_slice() {
        let (name, contacts) = named_set(more)?;
        return Ok(Step::Join(name, contacts));
    }
    if word == b"again".as_slice() {
        return Ok(Step::Again(called(more)?));
    }
    if word == b"collect".as_slice() {
        return Ok(Step::Collect(named(more)?));
    }
    if word == b"advance-collect".as_slice() {
        return Ok(Step::AdvanceCollect(named(more)?));
    }
    if word == b"recon".as_slice() {
        let (name, wish) = named_conf(more)?;
        return Ok(Step::Recon(name, wish));
    }
    if word == b"rebid".as_slice() {
        return Ok(Step::Rebid(named(more)?));
    }
    if word == b"advance-recon".as_slice() {
        return Ok(Step::AdvanceRecon(named(more)?));
    }
    if word == b"stop".as_slice() {
        return Ok(Step::Stop(named(more)?));
    }
    Err(Fault::UnknownWord)
}
