//! What `serve` is asked for.
ghost use Rattle.std.specs.Prelude.{◌≡◌, ◌<◌, ◌≤◌, ◌^◌, ℕ, List, Some, None, IfOk, false, codes, option_map};
ghost use Rattle.std.specs.Str.Parse.{IsNumeral, without_leading_plus};
ghost use Rattle.std.specs.String.{string_bytes};
ghost use Rattle.clap.specs.declared.builder.command.Command.TheViews.{out-Command as fields_of};
ghost use Rattle.clap.specs.Words.{app_of, first_value, found_of, one_text, rows_of, rule_of, shape_of, subcommand_of, with_rule};
ghost use Rattle.rambo_command_line.specs.Clashes.{clash_of};
ghost use Rattle.rambo_command_line.specs.Lines.{
  AsksServe,
  IsServe,
  IsServing,
  number_of,
  number_rule,
  rambo,
  serve_name,
  with_clients,
  with_endless,
  with_letters,
  with_network,
};

use crate::clash::Clash;
use crate::parts::{bare_command, flag, founders_of, founders_option, word_option};
use clap::builder::ValueParser;
use clap::{Arg, ArgAction, ArgMatches, Command};
use rambo_names::Weighted;
use std::alloc::{AllocError, Global};

const SERVER: &str = "The port is reported on standard error, as listening 7379. Clients send RESP2
commands, as redis clients do. Keys have at most 256 bytes, values 4,096.

  PING, PING WORD, GET KEY, SET KEY VALUE
  RAMBO USE NAME       this connection asks this node from now on; at first it
                       asks the lowest founder that wasn't stopped
  RAMBO JOIN NAME SET  this node begins to join, by way of these contacts
  RAMBO RECON CONF     the connection's node begins to have this chosen as
                       next members
  RAMBO COLLECT        it begins to remove its oldest set of members
  RAMBO CONFIG         replies how many sets it has removed, and those it has
  RAMBO INFO           replies counts: of steps, letters, calls, connections
  RAMBO STOP NAME      this node stops for good
  RAMBO SHUTDOWN       the server ends

A NAME is a node, 1 to 64. A SET is names in ascending order, separated by
commas. A CONF is such names with weights, each after a colon, from 2 to 15; a
name without one weighs 1.

What happens is recorded in a book of steps. The default 100,000 steps hold
some 9,000 gets and sets; once it is full, each further step is refused with
23. After RAMBO SHUTDOWN the book is written to standard output, as a script:
replay gives the answers that the clients got. A signal ends the server at
once, and the trace is lost.

With --endless there is no end of the steps. The trace is written to standard
output as they are done, at most some hundredths of a second later; where it
can't be written, the server ends with fault write. With --no-trace nothing is
written.

With --trace it goes to FILE, which is made where it is missing. FILE is empty
at first, and else --resume is needed: the steps in it are taken first, and new
ones follow them. The founders are then those in FILE. A last line that lacks
its line feed is cut off. One server at a time has FILE. With --sync a reply
waits for the steps that it tells of, until they are on the disk.

Standard error has these lines:
  listening 7379           the port
  resumed 1200 steps       so many were in FILE, and were taken
  cut 13 bytes at line 18  what was cut off at the end of FILE

A connection beyond --connections is refused. RAMBO SHUTDOWN is heard on each
other one.

Example:
  rambo serve --port 7379 >trace &
  sleep 1
  redis-cli -p 7379 set k v
  redis-cli -p 7379 get k
  redis-cli -p 7379 rambo shutdown
  wait
  rambo replay <trace

Exit statuses:
  0  done
  1  a socket or stream failed, memory ran out, or the trace can't be opened
     (fault socket, fault read, fault write, fault memory, fault trace)
  2  the command line is faulty, options don't go together (bad options), the
     founders are invalid (bad founders), or the trace in FILE is faulty
     (script fault)";

/// The founders of a server where none are given.
const FOUNDERS: &str = "1,2,3";

/// How a server is asked to serve.
#[derive(Debug, Drop)]
pub struct Serving {
    /// The port that it listens on; where it is 0 the system chooses one.
    pub port: u16,
    /// The founders, at least one. None where the word isn't the sign of such a configuration.
    pub founders: Option<Weighted>,
    /// How many threads serve clients, 1 to 32.
    pub clients: u64,
    /// How many connections it serves at once, 1 to 1,000,000.
    pub connections: u64,
    /// How many steps its book holds, 1 to 1,000,000.
    pub steps: u64,
    /// A letter is lost where this divides its number; 0 loses none.
    pub lose: u64,
    /// A letter that isn't lost comes twice where this divides its number; 0 doubles none.
    pub twice: u64,
    /// Whether steps are taken without end.
    pub endless: bool,
    /// Whether no trace is written.
    pub untraced: bool,
    /// Whether `--steps` was given.
    pub counted: bool,
    /// The file that the trace goes to, where that isn't standard output.
    pub trace: Option<String>,
    /// Whether a reply waits until the steps that it tells of are on the disk.
    pub synced: bool,
    /// Whether the steps that the file has are taken first.
    pub resumed: bool,
    /// Whether `--founders` was given.
    pub founded: bool,
}

impl Serving {
    /// Why its options don't go together, where they don't.
    pub fn clash(&self) -> Option<Clash>
        ensures { result ≡ clash_of self.now }
    {
        if self.endless && self.counted {
            return Some(Clash::Steps);
        }
        if self.untraced && !self.endless {
            return Some(Clash::NoTrace);
        }
        if self.trace.is_some() && !self.endless {
            return Some(Clash::Trace);
        }
        if self.trace.is_some() && self.untraced {
            return Some(Clash::TraceAndNone);
        }
        if self.synced && self.trace.is_none() {
            return Some(Clash::Sync);
        }
        if self.resumed && self.trace.is_none() {
            return Some(Clash::Resume);
        }
        None
    }
}

/// What the words after `serve` ask for, after a parse without a fault, where there is room for the name of the trace's file.
pub(crate) fn serving_in(alloc: Global, matches: &ArgMatches<'_>) -> Result<Serving, AllocError>
    ensures { (words : List (List ℕ)) → AsksServe words
        → subcommand_of rambo words ≡ Some (serve_name, rows_of (found_of matches.now))
        → IfOk result (IsServing words) }
{
    let trace = word_in(alloc, matches, "trace")?;
    Ok(Serving {
        port: port_in(matches),
        founders: founders_of(matches.get_str("founders").unwrap_or(FOUNDERS)),
        clients: number_in(matches, "clients", 2),
        connections: number_in(matches, "connections", 10_000),
        steps: number_in(matches, "steps", 100_000),
        lose: number_in(matches, "lose", 0),
        twice: number_in(matches, "twice", 0),
        endless: matches.get_flag("endless"),
        untraced: matches.get_flag("no-trace"),
        counted: matches.get_str("steps").is_some(),
        trace,
        synced: matches.get_flag("sync"),
        resumed: matches.get_flag("resume"),
        founded: matches.get_str("founders").is_some(),
    })
}

// A copy of the word after an option, where it has one.
fn word_in(
    alloc: Global,
    matches: &ArgMatches<'_>,
    option: &str,
) -> Result<Option<String>, AllocError>
    ensures { IfOk result (λ word. option_map string_bytes word ≡ first_value (found_of matches.now) option.now) }
{
    let Some(word) = matches.get_str(option) else {
        return Ok(None);
    };
    Ok(Some(String::from_str(alloc, word)?))
}

// The port, or 0 where none is given.
fn port_in(matches: &ArgMatches<'_>) -> u16
    ensures none { one_text (found_of matches.now) (codes "port") ≡ None → result ≡ 0 }
    ensures some { (word : List ℕ) → one_text (found_of matches.now) (codes "port") ≡ Some word
        → IsNumeral 10 (without_leading_plus word) → number_of word < 2 ^ 16 → result ≡ number_of word }
{
    matches.get_one::<u16>("port").unwrap_or(0)
}

// The number after an option, or the default where it has none.
fn number_in(matches: &ArgMatches<'_>, option: &str, default: u64) -> u64
    ensures none { one_text (found_of matches.now) option.now ≡ None → result ≡ default }
    ensures some { (word : List ℕ) → one_text (found_of matches.now) option.now ≡ Some word
        → IsNumeral 10 (without_leading_plus word) → number_of word < 2 ^ 64 → result ≡ number_of word }
{
    matches.get_one::<u64>(option).unwrap_or(default)
}

/// The command that serves many clients.
pub(crate) fn serve_command<'a>(alloc: Global) -> Result<Command<'a>, AllocError>
    ensures { IfOk result IsServe }
{
    endless_command(alloc)?
        .arg(word_option(
            alloc,
            "trace",
            "FILE",
            "The file that the trace goes to, in place of standard output; needs --endless",
        ))?
        .arg(flag(
            alloc,
            "sync",
            "Replies only once the steps that a reply tells of are on the disk; needs --trace",
        ))?
        .arg(flag(
            alloc,
            "resume",
            "Goes on from the trace in FILE; needs --trace",
        ))
}

// The same, still without what is about the file of its trace.
fn endless_command<'a>(alloc: Global) -> Result<Command<'a>, AllocError>
    ensures app { IfOk result (λ c. app_of c ≡ with_endless) }
    ensures local { IfOk result (λ c. (fields_of c).has_globals ≡ false) }
{
    letters_command(alloc)?
        .arg(flag(
            alloc,
            "endless",
            "Takes steps without end, and writes the trace as they are done; excludes --steps",
        ))?
        .arg(flag(alloc, "no-trace", "Writes no trace; needs --endless"))
}

// The same, still without the flags that say whether its steps end, and whether it leaves no trace.
fn letters_command<'a>(alloc: Global) -> Result<Command<'a>, AllocError>
    ensures app { IfOk result (λ c. app_of c ≡ with_letters) }
    ensures local { IfOk result (λ c. (fields_of c).has_globals ≡ false) }
{
    network_command(alloc)?
        .arg(number_option(
            alloc,
            "lose",
            0,
            u64::MAX,
            "Letters whose number this divides are lost; 0 loses none [default: 0]",
        ))?
        .arg(number_option(
            alloc,
            "twice",
            0,
            u64::MAX,
            "Other letters whose number this divides come twice; 0 doubles none [default: 0]",
        ))
}

// The same, still without the options about its letters.
fn network_command<'a>(alloc: Global) -> Result<Command<'a>, AllocError>
    ensures app { IfOk result (λ c. app_of c ≡ with_network) }
    ensures local { IfOk result (λ c. (fields_of c).has_globals ≡ false) }
{
    clients_command(alloc)?
        .arg(number_option(
            alloc,
            "connections",
            1,
            1_000_000,
            "How many connections are served at once, 1 to 1000000; others are refused [default: 10000]",
        ))?
        .arg(number_option(
            alloc,
            "steps",
            1,
            1_000_000,
            "How many steps the book holds, 1 to 1000000 [default: 100000]",
        ))
}

// The same, still without how many connections and steps there may be.
fn clients_command<'a>(alloc: Global) -> Result<Command<'a>, AllocError>
    ensures app { IfOk result (λ c. app_of c ≡ with_clients) }
    ensures local { IfOk result (λ c. (fields_of c).has_globals ≡ false) }
{
    bare_command(
        alloc,
        "serve",
        "Serves many clients in RESP2 on a port of this machine, and writes a trace of all steps",
        SERVER,
    )
    .arg(number_option(
        alloc,
        "port",
        0,
        65_535,
        "The port of 127.0.0.1 to listen on; 0 lets the system choose [default: 0]",
    ))?
    .arg(founders_option(
        alloc,
        "The first nodes of the store, names in ascending order with commas between, weights after colons [default: 1,2,3]",
    ))?
    .arg(number_option(
        alloc,
        "clients",
        1,
        32,
        "How many threads serve clients, 1 to 32 [default: 2]",
    ))
}

// An option for a number from the least to the most, with its help.
fn number_option<'a>(alloc: Global, name: &'a str, least: u64, most: u64, help: &'a str) -> Arg<'a>
    ensures rule { rule_of result ≡ number_rule name.now least most }
    ensures own { result.global ≡ false }
{
    Arg::new(alloc, name)
        .long(name)
        .action(ArgAction::Set)
        .value_name("NUMBER")
        .value_parser(ValueParser::unsigned(least, most))
        .help(help)
}
