//! The command line.
ghost use Rattle.std.specs.Prelude.{◌≡◌, ℕ, List, [], false, map, IfOk, IfErr};
ghost use Rattle.clap.specs.declared.builder.command.Command.TheViews.{out-Command as fields_of};
ghost use Rattle.clap.specs.Words.{HasKind, HasMatchesOf, app_of, fault_of, with_subcommand};
ghost use Rattle.rambo_command_line.specs.Lines.{
  Asks,
  IsCheck,
  IsLocal,
  program as program_app,
  rambo,
  with_founders,
  with_options,
  with_why as why_app,
};

use crate::parts::{bare_command, flag, founders_of, founders_option};
use crate::serving::{Serving, serve_command, serving_in};
use clap::{ArgMatches, Command, Error};
use rambo_names::Weighted;
use std::alloc::{AllocError, Global};
use std::convert::AsStr;

const STATUSES: &str = "Exit statuses:
  0  done
  1  a stream or socket failed, memory ran out, or the file of a trace can't be
     opened (fault read, fault write, fault socket, fault memory, fault trace)
  2  the command line or the input is faulty
  3  check said no for some key, or for the order of all keys";

const SCRIPTS: &str =
    "A script has one step a line, its words separated by single spaces. A NAME is a
node, 1 to 64. A SET is names in ascending order, separated by commas, or - for
none. A CONF is such names with weights, each after a colon, from 2 to 15; a
name without one weighs 1. A CALL is the name of its node, a dot and its number
there, from 1. Keys and values are HEX, pairs of digits 0 to 9 and a to f, or -
for no bytes.

  founders CONF         the first line: the nodes that are active from the start
  join NAME SET         an idle node asks to join, by way of these contacts
  get NAME KEY          a client asks a node for the value of a key
  set NAME KEY VALUE    a client asks a node to set a key to a value
  send NAME NAME        the first node sends a letter to the second
  deliver NUMBER        a letter comes to its addressee; letters count from 1
  advance CALL          a call with a quorum's replies goes on, or is answered
  again CALL            a call restarts its current phase
  recon NAME CONF       a node begins to have this chosen as next members
  rebid NAME            the node retries this with a higher ballot
  advance-recon NAME    with a quorum's replies it goes on, to the decision
  collect NAME          a node begins to remove its oldest set of members
  advance-collect NAME  with a quorum's replies it goes on, to the removal
  stop NAME             a node stops for good

After a first line of its own, rambo 2, a script gives an outcome of version 2:
its first line is rambo 2 too, and it has one order of the calls of all keys.

The first faulty line is reported by its number, as script fault S2 at line 3:
  S1  the first line names no founders
  S2  the first word of a line is none of these
  S3  a line has another number of words than its step has
  S4  a word is not the number, name, set, CONF or call that belongs there
  S5  a word is not the HEX that belongs there
  S6  a line has over 16,384 bytes
  S7  memory ran out while the line was read

Exit statuses:
  0  done
  1  a stream failed or memory ran out (fault read, fault write, fault memory)
  2  the command line or the script is faulty";

const OUTCOMES: &str =
    "It reads what replay writes: the calls and their answers in order, for each key
the sequence of its calls, and lines on members, refusals and maps, which are
skipped.

  call CALL get KEY
  call CALL set KEY VALUE
  answer CALL ok
  answer CALL nil
  answer CALL value VALUE
  sequence KEY CALL CALL ..
  order CALL CALL ..
  decided NAME PLACE CONF
  decided NAME PLACE removed
  collected NAME PLACE
  refused STEP REFUSAL
  map NAME FLOOR CONF CONF ..

For each key the verdict is yes KEY, or no KEY and the least rule that its
sequence breaks:
  1  an answered call of the key is missing
  2  a call occurs twice
  3  an entry is no call of the key, or a get without an answer
  4  a get does not answer the set before it, or nil if there is none
  5  a call was answered before another was made, and comes after it

If the first line is rambo 2 there may be an order line, and the last verdict is
yes order, or no order and the least rule that this one order of all keys breaks.

With --why a line after each no names the first call that breaks the rule, and
the lines of the input where it is found, as
  2.1 answered 61 (line 9), and the latest set before it is 1.2 of 62 (line 7)
Keys and values that are printable ASCII without a space or a quote are written
in quotes too, as 6b \"k\".

With --place the sequences need the sets alone, in their order. Before all sets
of its key come the gets that answered nil, and behind each set those that
answered its value, in the order of their calls; a get of another value has no
place, which breaks rule 1. Gets that a sequence has are placed anew. With
--print the outcome is written that has these sequences, for another check.

The first faulty line is reported by its number, as script fault S2 at line 3:
  S2  the first word of a line is none of these, or the third of a call or answer
  S3  a line has another number of words than its kind has
  S4  a word is not the number, name, set, CONF or call that belongs there
  S5  a word is not the HEX that belongs there
  S7  memory ran out while the line was read
  S8  a call is made twice, an answer has no open call or is not of its kind, or
      a key has a second sequence, or all keys a second order; with --place also
      where a key is set to a value for the second time

Exit statuses:
  0  yes for all keys, and for their order, or the outcome was written
  1  a stream failed or memory ran out (fault read, fault write, fault memory)
  2  the command line or the outcome text is faulty
  3  no for some key, or for the order of all keys";

const COMMANDS: &str =
    "Commands are RESP2 arrays of bulk strings, as redis clients send them. Names of
commands are case-insensitive. Keys have at most 256 bytes.

  PING         replies PONG
  PING WORD    replies the word
  GET KEY      replies the value of the key, or nil
  SET KEY VAL  sets the key to the value, and replies OK

A command that is none of these, has another number of words, or has too long a
key gets an error. After bytes that spell no command the fault is the reply, and
it ends as at the end of the input:
  P1  a command does not begin with *, or an item with $
  P2  a number is not in plain decimal
  P3  a command has over 128 items
  P4  an item has over 4,096 bytes
  P5  a line or an item does not end in CR LF

Example:
  printf '*2\\r\\n$4\\r\\nPING\\r\\n$2\\r\\nhi\\r\\n' | rambo local --founders 1,2,3

Exit statuses:
  0  done
  1  a stream failed or memory ran out (fault read, fault write, fault memory)
  2  the command line is faulty, or the founders are invalid (bad founders)";

/// The founders of a store where none are given.
const FOUNDERS: &str = "1";

/// How an outcome text is checked, and what is written of it.
#[derive(Clone, Copy, PartialEq, Eq, Debug)]
pub struct Checking {
    /// Whether each no is explained.
    pub why: bool,
    /// Whether the gets are put in their places first.
    pub place: bool,
    /// Whether they are, and the outcome is written that has them there, and no verdict.
    pub print: bool,
}

/// What a command line asks for.
#[derive(Debug, Drop)]
pub enum Task {
    /// A script is run, and its outcome written.
    Replay,
    /// An outcome text is read, and a verdict on each key written.
    Check(Checking),
    /// One client is served by a store of these founders, at least one. None where the word isn't the sign of such a
    /// configuration.
    Local(Option<Weighted>),
    /// Many clients are served, on a port of this machine.
    Serve(Serving),
}

/// What the words after the program's name ask for.
///
/// An error is clap's: a mistake in the words, a request for help or the version, or `OutOfMemory`.
pub fn task_of<S: AsStr>(alloc: Global, words: &[S]) -> Result<Task, Error>
    ensures task { IfOk result (Asks (map S.text words.now)) }
    ensures other { IfErr result (HasKind (fault_of rambo (map S.text words.now))) }
{
    let command = rambo_command(alloc)?;
    let matches = command.try_get_matches_from(words)?;
    Ok(task_in(alloc, &matches)?)
}

// The task of which a parse without a fault met the command, where there is room for what it keeps of the words.
fn task_in(alloc: Global, matches: &ArgMatches<'_>) -> Result<Task, AllocError>
    ensures { (words : List (List ℕ)) → (fault_of rambo words ≡ [])
        → HasMatchesOf rambo words matches.now → IfOk result (Asks words) }
{
    if let Some(local) = matches.subcommand_matches("local") {
        let word = local.get_str("founders").unwrap_or(FOUNDERS);
        return Ok(Task::Local(founders_of(word)));
    }
    if let Some(serve) = matches.subcommand_matches("serve") {
        return Ok(Task::Serve(serving_in(alloc, serve)?));
    }
    if let Some(check) = matches.subcommand_matches("check") {
        return Ok(Task::Check(Checking {
            why: check.get_flag("why"),
            place: check.get_flag("place"),
            print: check.get_flag("print"),
        }));
    }
    Ok(Task::Replay)
}

// The program and its four commands.
fn rambo_command<'a>(alloc: Global) -> Result<Command<'a>, AllocError>
    ensures { IfOk result (λ c. app_of c ≡ rambo) }
{
    text_commands(alloc)?
        .subcommand(local_command(alloc)?)?
        .subcommand(serve_command(alloc)?)
}

// The program and those of its commands that read a text.
fn text_commands<'a>(alloc: Global) -> Result<Command<'a>, AllocError>
    ensures { IfOk result (λ c. with_subcommand (with_subcommand (app_of c) with_founders) with_options ≡ rambo) }
{
    program(alloc)?
        .subcommand(bare_command(
            alloc,
            "replay",
            "Runs the script on standard input and writes its outcome",
            SCRIPTS,
        ))?
        .subcommand(check_command(alloc)?)
}

// The command that checks an outcome text.
fn check_command<'a>(alloc: Global) -> Result<Command<'a>, AllocError>
    ensures { IfOk result IsCheck }
{
    why_command(alloc)?
        .arg(flag(
            alloc,
            "place",
            "Places each get behind the set whose value it answered, and judges that order",
        ))?
        .arg(flag(
            alloc,
            "print",
            "Places the gets, and writes the outcome with them instead of verdicts",
        ))
}

// The same, still without what places gets.
fn why_command<'a>(alloc: Global) -> Result<Command<'a>, AllocError>
    ensures app { IfOk result (λ c. app_of c ≡ why_app) }
    ensures local { IfOk result (λ c. (fields_of c).has_globals ≡ false) }
{
    bare_command(
        alloc,
        "check",
        "Reads the outcome on standard input and writes yes or no for each of its keys",
        OUTCOMES,
    )
    .arg(flag(
        alloc,
        "why",
        "After each no, names the first call that breaks the rule, and its lines",
    ))
}

// The program, still without its commands.
fn program<'a>(alloc: Global) -> Result<Command<'a>, AllocError>
    ensures { IfOk result (λ c. app_of c ≡ program_app) }
{
    bare_command(
        alloc,
        "rambo",
        "Runs scripts of a replicated key-value store, checks their outcomes, and serves clients",
        STATUSES,
    )
    .version("0.1.0")
    .no_binary_name(true)
    .subcommand_required(true)
    .bin_name("rambo")
}

// The command that serves a client.
fn local_command<'a>(alloc: Global) -> Result<Command<'a>, AllocError>
    ensures { IfOk result IsLocal }
{
    bare_command(
        alloc,
        "local",
        "Serves one client in RESP2: commands on standard input, replies on standard output",
        COMMANDS,
    )
    .arg(founders_option(
        alloc,
        "The nodes of the store, names in ascending order with commas between, weights after colons [default: 1]",
    ))
}
