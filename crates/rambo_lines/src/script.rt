//! Whole scripts.
ghost use Rattle.std.specs.Prelude.{◌≡◌, ◌⊎◌, Ok, Err, IfOk, IfErr, OnOk, OnErr, ◌++◌, [], ◌∷◌};
ghost use Rattle.rambo_text.specs.declared.fault.ScriptFault.{ScriptFault};
ghost use Rattle.rambo_text.specs.declared.version.Version.{Version};
ghost use Rattle.rambo_text.specs.Versions.{BehindHead, in_whole};
ghost use Rattle.rambo_lines.specs.Faults.{IsLineFault, TellNoStep, TellNoFounders, TellsBytesOrStep};
ghost use Rattle.rambo_lines.specs.Scripts.{AreFounders, founders_line, IsScript};
ghost use Rattle.rambo_lines.specs.Versions.{IsScriptIn, IsHeadFault};
ghost use Rattle.rambo_lines.specs.Pushes.{PushesStep, IsNoScript};

use crate::head::read_head;
use crate::parts::{conf_of, one};
use crate::place::Place;
use crate::reading::read_step;
use rambo_names::{Quorums, Weighted};
use rambo_run::Step;
use rambo_text::{Fault, ScriptFault, Version, next_line, next_word};
use std::alloc::Global;
use std::marker::Model;

/// How many bytes a line of a script may have, its line feed not counted.
pub const LINE_LIMIT: usize = 16_384;

/// The founders and the steps of a run.
#[derive(Drop)]
pub struct Script {
    pub founders: Weighted,
    pub steps: Vec<Step<Weighted>>,
}

impl Model for Script {
    ghost use Rattle.std.specs.Coded.{codes};
    ghost use Rattle.rambo_names.specs.Names.{names_code};
    ghost use Rattle.rambo_lines.specs.Scripts.{ScriptState};

    ghost Value = { ScriptState };

    ghost coded = { Prim.hlevel (codes, names_code) };

    ghost view = { λ s. record { founders = s.founders; steps = s.steps.items } };
}

/// The script of a text of either version.
///
/// Else the first faulty line with its first fault; `OutOfMemory` where there is no room for a step or for its bytes,
/// with the line that was read then, which has no fault before its bytes.
pub fn read_script(alloc: Global, text: &[u8]) -> Result<Script, ScriptFault>
    ensures script { IfOk result (λ s. (version : Version) × IsScriptIn version text.now s) }
    ensures fault { IfErr result (λ f. IsHeadFault text.now f ⊎ BehindHead (λ version. IsNoScript) text.now f) }
{
    let (version, behind) = read_head(text)?;
    read_behind(alloc, version, behind)
}

// The script that the text after a head tells.
fn read_behind(alloc: Global, version: Version, text: &[u8]) -> Result<Script, ScriptFault>
    ensures script { IfOk result (λ s. IsScript text.now s) }
    ensures fault { IfErr result (λ f. (g : ScriptFault) × IsNoScript text.now g × (f ≡ in_whole version g)) }
{
    let (first, mut rest) = next_line(text);
    let mut place = Place::first(version);
    let founders = at_line(place.line, read_founders(first))?;
    let mut steps = Vec::new(alloc);
    while !rest.is_empty() {
        let (line, behind) = next_line(rest);
        place = place.next();
        at_line(place.line, push_step(alloc, line, &mut steps))?;
        rest = behind;
    }
    Ok(Script { founders, steps })
}

/// What the line of this number gives; a fault with that number.
pub fn at_line<T>(line: u64, told: Result<T, Fault>) -> Result<T, ScriptFault>
    ensures ok { IfOk result (λ x. told ≡ Ok x) }
    ensures fault { IfErr result (λ f. (f.line ≡ line) × (told ≡ Err f.fault)) }
{
    told.map_err(|fault| ScriptFault { fault, line })
}

/// The founders on the first line of a script.
///
/// `LineTooLong` where the line is too long; `NoFounders` where its first word is another one, or there is no founder;
/// else the first fault of the words after the first.
pub fn read_founders(line: &[u8]) -> Result<Weighted, Fault>
    ensures found { IfOk result (λ c. AreFounders c × (line.now ≡ founders_line c)) }
    ensures fault { IfErr result (λ f. IsLineFault TellNoFounders line.now f) }
{
    if line.len() > LINE_LIMIT {
        return Err(Fault::LineTooLong);
    }
    let (word, more) = next_word(line);
    if word != b"founders".as_slice() {
        return Err(Fault::NoFounders);
    }
    let conf = one(more)?;
    let founders = conf_of(conf)?;
    if founders.members().count() == 0 {
        return Err(Fault::NoFounders);
    }
    Ok(founders)
}

// Appends the step that a line tells.
fn push_step(alloc: Global, line: &[u8], steps: &mut Vec<Step<Weighted>>) -> Result<(), Fault>
    ensures ok { OnOk result (PushesStep steps.old.items steps.new.items line.now) }
    ensures err { OnErr result (steps.new.items ≡ steps.old.items) }
    ensures fault { IfErr result (λ f. ((f ≡ Fault.OutOfMemory) × TellsBytesOrStep line.now) ⊎ IsLineFault TellNoStep line.now f) }
{
    let step = read_step(alloc, line)?;
    keep_step(step, steps)
}

// Puts a step at the end of others.
fn keep_step(step: Step<Weighted>, steps: &mut Vec<Step<Weighted>>) -> Result<(), Fault>
    ensures ok { OnOk result (steps.new.items ≡ steps.old.items ++ step ∷ []) }
    ensures err { OnErr result (steps.new.items ≡ steps.old.items) }
    ensures fault { IfErr result (λ f. f ≡ Fault.OutOfMemory) }
{
    match steps.push(step) {
        Ok(()) => Ok(()),
        Err(_) => Err(Fault::OutOfMemory),
    }
}
