//! The letters that a node writes.
ghost use Rattle.std.specs.Prelude.{◌≡◌, IfErr};
ghost use Rattle.rambo_visit.specs.Happened.{HasNoRoom};

use rambo_book::{Book, Keeper, Terms, ready};
use rambo_names::{Members, Name, Quorums, Refusal};
use rambo_outbox::{Outbox, Round};
use rambo_run::Step;
use rambo_tag::Replica;
use rambo_turn::send_in;
use std::alloc::Global;
use std::sync::{Mutex, Wait};

/// Writes to all names of a round, and adds those that it wrote to to `written`. A name is still owed a letter for
/// which there was no room; one that was only asked is reminded.
pub(crate) fn write_all<J: Terms<Q>, Q: Quorums, S: Replica, R: Wait>(
    rt: &R,
    alloc: Global,
    book: &Mutex<Book<J, Q>>,
    keeper: &mut Keeper<J, Q, S>,
    outbox: &mut Outbox,
    round: &Round,
    written: &mut Members,
) -> Result<(), Refusal>
    ensures cause { IfErr result (HasNoRoom Q.system J.founders J.capacity) }
{
    let mut done = Ok(());
    for to in round.asked.union(round.owed).iter() {
        match write(rt, alloc, book, keeper, to, round.asked.has(to)) {
            Ok(true) => *written = written.with(to),
            Ok(false) => {}
            Err(refusal) => {
                if round.owed.has(to) {
                    outbox.owe(to);
                }
                done = Err(refusal);
            }
        }
    }
    done
}

// Writes a letter to a name, unless the rules refuse it. It asks for one in return where `asks` says so. Returns
// whether it was written.
fn write<J: Terms<Q>, Q: Quorums, S: Replica, R: Wait>(
    rt: &R,
    alloc: Global,
    book: &Mutex<Book<J, Q>>,
    keeper: &mut Keeper<J, Q, S>,
    to: Name,
    asks: bool,
) -> Result<bool, Refusal>
    ensures cause { IfErr result (HasNoRoom Q.system J.founders J.capacity) }
{
    let from = keeper.name();
    let half = ready(alloc, keeper, Step::Send(from, to));
    let mut book = book.lock(rt);
    book.facts();
    match send_in(&mut book, keeper, from, to, asks, half) {
        Ok(_) => Ok(true),
        Err(Refusal::OutOfMemory | Refusal::HistoryFull) => Err(book.no_room()),
        Err(_) => Ok(false),
    }
}
