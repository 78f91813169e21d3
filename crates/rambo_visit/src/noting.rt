//! How an outbox learns of a step.
ghost use Rattle.std.specs.Prelude.{◌≡◌};

use crate::opening::calls_of;
use rambo_book::{Keeper, Terms};
use rambo_names::{Name, Quorums};
use rambo_outbox::Outbox;
use rambo_run::Step;
use rambo_tag::Replica;

/// The sender of the letter in a keeper's tray that a step would deliver, and whether the letter asks for one in
/// return. None if the step delivers none.
pub fn came_by<J: Terms<Q>, Q: Quorums, S: Replica>(
    keeper: &Keeper<J, Q, S>,
    step: &Step<Q>,
) -> Option<(Name, bool)> {
    let Step::Deliver(number) = step else {
        return None;
    };
    for mail in keeper.tray() {
        if mail.number == *number {
            return Some((mail.letter.sender(), mail.asks));
        }
    }
    None
}

/// Records a step that its node took in the outbox: an answered call, progress, and the letter that was delivered, if
/// any.
pub fn note<J: Terms<Q>, Q: Quorums, S: Replica>(
    outbox: &mut Outbox,
    keeper: &Keeper<J, Q, S>,
    step: &Step<Q>,
    came: Option<(Name, bool)>,
) {
    if let Some((from, asks)) = came {
        outbox.heard(from, asks);
    }
    match step {
        Step::Advance(id) => {
            if is_open(keeper, id.number) {
                outbox.moved();
            } else {
                let _ = outbox.answered(id.number);
            }
        }
        Step::AdvanceCollect(_) | Step::AdvanceRecon(_) => outbox.moved(),
        _ => {}
    }
}

// Whether the call of a number is open at the keeper's node.
fn is_open<J: Terms<Q>, Q: Quorums, S: Replica>(keeper: &Keeper<J, Q, S>, number: u64) -> bool {
    for call in calls_of(keeper) {
        if call.number == number {
            return true;
        }
    }
    false
}
