//! The keepers and the book of a post that has done nothing.
ghost use Rattle.std.specs.Prelude.{◌≡◌, [], Some, None, not, length, All, OnOk, IfOk, IfErr};
ghost use Rattle.rambo_names.specs.Refusals.{least, IsRefusal};
ghost use Rattle.rambo_run.specs.Worlds.{founding_causes};
ghost use Rattle.rambo_recovery.specs.Recoveries.{AreNamed};

use rambo_book::{Actor, Book, Keeper, Terms};
use rambo_mail::Mails;
use rambo_names::{Name, Quorums, Refusal};
use rambo_roll::Opened;
use rambo_run::{Step, may_found};
use rambo_tag::Replica;
use std::alloc::Global;

/// The keepers of all 64 names, in their order.
#[derive(Drop)]
pub(crate) struct Keepers<J: Terms<Q>, Q: Quorums, S: Replica> {
    pub(crate) all: Vec<Keeper<J, Q, S>>,
    // Never filled: it tells the prover that a keeper has a size, which it doesn't see through a `Vec`.
    pub(crate) spare: Option<Keeper<J, Q, S>>,
}

/// Keepers, and the book.
#[derive(Drop)]
pub(crate) struct Founded<J: Terms<Q>, Q: Quorums, S: Replica> {
    pub(crate) book: Book<J, Q>,
    pub(crate) keepers: Keepers<J, Q, S>,
}

/// The keepers and the book of these founders, whose nodes have done nothing, with room for this many steps, of which at most
/// `ahead` are at hand at once. Whether it keeps all calls and answers; else steps are drawn. Each node's copies are made by
/// `fresh` of the replica.
///
/// Each letter whose number `lose` divides goes to no tray, and each other whose number `twice` divides goes there twice. 0
/// divides none.
///
/// `EmptyMembers` where there is no founder; `OutOfMemory` where there is no room for it.
pub(crate) fn found<J: Terms<Q>, Q: Quorums, S: Replica>(
    alloc: Global,
    opened: Opened<Step<Q>, Actor>,
    founders: Q,
    capacity: usize,
    ahead: usize,
    keeps_all: bool,
    replica: &S,
    lose: u64,
    twice: u64,
) -> Result<Founded<J, Q, S>, Refusal>
    requires name { opened ≡ J.table }
    requires founders { J.founders ≡ Some founders }
    requires capacity { capacity ≡ J.capacity }
    requires lose { lose ≡ J.lose }
    requires twice { twice ≡ J.twice }
    requires keeps_all { keeps_all ≡ not J.endless }
    ensures founded { OnOk result (least (founding_causes Q.system founders) ≡ None) }
    ensures refused { IfErr result (IsRefusal (least (founding_causes Q.system founders))) }
    ensures steps { IfOk result (λ r. r.book.steps ≡ []) }
    ensures drawn { IfOk result (λ r. r.book.drawn ≡ 0) }
    ensures founders { IfOk result (λ r. r.book.founders ≡ founders) }
    ensures lists { IfOk result (λ r. length r.book.waiting ≡ 64) }
    ensures many { IfOk result (λ r. length r.keepers.all.items ≡ 64) }
    ensures named { IfOk result (λ r. AreNamed r.keepers.all.items) }
{
    may_found(founders)?;
    let mails = Mails::new(alloc, lose, twice)?;
    let mut roll = opened.named::<J>();
    // (the first is of the name 0, which nobody has)
    let _ = roll.keeper();
    let mut keepers = Vec::new(alloc);
    for place in 0..64u64 {
        let name = Name::new(place + 1)?;
        let Ok(registers) = replica.fresh() else {
            return Err(Refusal::OutOfMemory);
        };
        let keeper = Keeper::new(alloc, name, founders, registers, roll.keeper());
        let Ok(()) = keepers.push(keeper) else {
            return Err(Refusal::OutOfMemory);
        };
    }
    Ok(Founded {
        keepers: Keepers {
            all: keepers,
            spare: None,
        },
        book: Book::new(alloc, founders, capacity, ahead, keeps_all, roll, mails),
    })
}
