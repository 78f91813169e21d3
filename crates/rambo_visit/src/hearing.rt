//! The letters that came for a node.
ghost use Rattle.std.specs.Prelude.{◌≡◌, Some, slice_get, if◌then◌else◌, IfOk, IfErr};
ghost use Rattle.rambo_mail.specs.declared.mail.Mail.{Mail};
ghost use Rattle.rambo_outbox.specs.Outboxes.{heard_by};
ghost use Rattle.rambo_visit.specs.Happened.{HasNoRoom};

use crate::entering::{enter, no_room};
use rambo_book::{Book, Keeper, Terms, ready};
use rambo_names::{Quorums, Refusal};
use rambo_outbox::Outbox;
use rambo_run::Step;
use rambo_tag::Replica;
use std::alloc::Global;
use std::sync::{Mutex, Wait};

/// The node hears the letters of its tray, the oldest first. Those that it refuses stay there.
pub(crate) fn hear_all<J: Terms<Q>, Q: Quorums, S: Replica, R: Wait>(
    rt: &R,
    alloc: Global,
    book: &Mutex<Book<J, Q>>,
    keeper: &mut Keeper<J, Q, S>,
    outbox: &mut Outbox,
) -> Result<(), Refusal>
    ensures cause { IfErr result (HasNoRoom Q.system J.founders J.capacity) }
{
    let mut place = 0usize;
    for _ in rt.forever() {
        if place >= keeper.tray().len() {
            return Ok(());
        }
        if !hear_one(rt, alloc, book, keeper, outbox, place)? {
            place = place.wrapping_add(1);
        }
    }
    Ok(())
}

// The node hears the letter at a place of its tray, unless it refuses it. Then the outbox notes the sender, and whether
// the letter asks for one in return. Returns whether it was heard.
fn hear_one<J: Terms<Q>, Q: Quorums, S: Replica, R: Wait>(
    rt: &R,
    alloc: Global,
    book: &Mutex<Book<J, Q>>,
    keeper: &mut Keeper<J, Q, S>,
    outbox: &mut Outbox,
    place: usize,
) -> Result<bool, Refusal>
    ensures heard { IfOk result (λ is. (m : Mail _) → slice_get keeper.old.tray place ≡ Some m → outbox.new ≡ (if is then heard_by outbox.old m.letter.sender m.asks else outbox.old)) }
    ensures cause { IfErr result (HasNoRoom Q.system J.founders J.capacity) }
{
    let Some(mail) = keeper.tray().get(place) else {
        return Ok(false);
    };
    let (number, from, asks) = (mail.number, mail.letter.sender(), mail.asks);
    let half = match ready(alloc, keeper, Step::Deliver(number)) {
        Ok(half) => half,
        Err(Refusal::OutOfMemory) => return Err(no_room(rt, book)),
        Err(_) => return Ok(false),
    };
    enter(rt, book, keeper, half)?;
    keeper.forget(number);
    outbox.heard(from, asks);
    Ok(true)
}
