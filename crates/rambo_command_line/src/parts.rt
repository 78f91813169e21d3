//! What the commands are made of, and which founders a sign gives.
ghost use Rattle.std.specs.Prelude.{◌≡◌, false};
ghost use Rattle.clap.specs.declared.builder.command.Command.TheViews.{out-Command as fields_of};
ghost use Rattle.clap.specs.Words.{app_of, new_app, rule_of};
ghost use Rattle.rambo_command_line.specs.Lines.{IsFounders, flag_rule, founders_rule, word_rule};

use clap::{Arg, ArgAction, Command};
use rambo_names::{Quorums, Weighted, read_conf};
use std::alloc::Global;

/// A command that has neither arguments nor commands, of a name, with what its help says of it before and after its
/// words.
pub(crate) fn bare_command<'a>(
    alloc: Global,
    name: &'a str,
    about: &'a str,
    help: &'a str,
) -> Command<'a>
    ensures app { app_of result ≡ new_app name.now }
    ensures local { (fields_of result).has_globals ≡ false }
{
    Command::new(alloc, name).about(about).after_help(help)
}

/// A flag of a name, with its help.
pub(crate) fn flag<'a>(alloc: Global, name: &'a str, help: &'a str) -> Arg<'a>
    ensures rule { rule_of result ≡ flag_rule name.now }
    ensures own { result.global ≡ false }
{
    Arg::new(alloc, name)
        .long(name)
        .action(ArgAction::SetTrue)
        .help(help)
}

/// The option that gives the founders, with its help.
pub(crate) fn founders_option<'a>(alloc: Global, help: &'a str) -> Arg<'a>
    ensures rule { rule_of result ≡ founders_rule }
    ensures own { result.global ≡ false }
{
    word_option(alloc, "founders", "CONF", help)
}

/// An option of a name for a word, with how its help calls the word and what it says of it.
pub(crate) fn word_option<'a>(
    alloc: Global,
    name: &'a str,
    value: &'a str,
    help: &'a str,
) -> Arg<'a>
    ensures rule { rule_of result ≡ word_rule name.now }
    ensures own { result.global ≡ false }
{
    Arg::new(alloc, name)
        .long(name)
        .action(ArgAction::Set)
        .value_name(value)
        .help(help)
}

/// The founders that a word gives, where it is the sign of some.
pub(crate) fn founders_of(word: &str) -> Option<Weighted>
    ensures { IsFounders word.now result }
{
    let founders = read_conf(word.as_bytes())?;
    if founders.members().count() == 0 {
        return None;
    }
    Some(founders)
}
