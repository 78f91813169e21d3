//! Worked rows: scripts, outcome texts and commands of clients, each with its expected result.
//!
//! Standard input holds the rows, with an empty line between two. The first line of a row is its name, and each
//! further line begins with a mark:
//!
//! - `:replay` or `:check` is what is done with the input, or `:local` with the founders after it: then the input is a
//!   client's, and lines end in CR LF;
//! - `>` a line of the input, `~` a last line of it that lacks its end;
//! - `<` a line of the output that is wanted;
//! - `=` how it must end: `done`, `no` where a check says no for some key, or the fault in the words in which the
//!   program reports it.
//!
//! A row whose first line begins with `#` is a note. The program runs each row through the functions of `rambo replay`,
//! `rambo check` and `rambo local`. The reader and writer are in memory, and move a few bytes at a time. It writes the
//! name of each row that came out wrong, and last `N rows, M wrong`. The exit status is 0 where there was a row and
//! none was wrong.
#![tactic(auto)]

mod judging;
mod row;
mod rows;
mod tally;

use rambo_atomic::Wrapped;
use rows::judge_rows;
use std::process::ExitCode;

fn main(rt: HostRuntime) -> ExitCode {
    let mut reader = Wrapped::new(rt.stdin());
    let mut writer = Wrapped::new(rt.stdout());
    match judge_rows(rt.alloc(), &mut reader, &mut writer) {
        Ok(true) => ExitCode::SUCCESS,
        _ => ExitCode::FAILURE,
    }
}
