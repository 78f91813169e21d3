//! What takes the steps of a trace again.
ghost use Rattle.std.specs.Bool.{MatchBool};
ghost use Rattle.std.specs.Prelude.{◌≡◌, ◌≢◌, ◌++◌, ◌∷◌, [], ℕ, Some, None, true, false, length, OnOk, OnErr, IfOk, IfErr};
ghost use Rattle.std.specs.FinSet as set;
ghost use Rattle.rambo_names.specs.Names.{IsName};
ghost use Rattle.rambo_names.specs.Refusals.{least, IsRefusal};
ghost use Rattle.rambo_node.specs.Steps.{delivered_by};
ghost use Rattle.rambo_run.specs.Legal.{IsLegal};
ghost use Rattle.rambo_run.specs.Runs.{run};
ghost use Rattle.rambo_run.specs.Steps.{refusal};
ghost use Rattle.rambo_run.specs.Worlds.{founding_causes};
ghost use Rattle.rambo_pass.specs.Passes.{HasStopped, IsGoing};
ghost use Rattle.rambo_recovery.specs.Recoveries.{AreNamed, WhyUntaken};

use crate::acting::{act, place_of};
use crate::delivering::deliver;
use crate::founding::{Founded, Keepers, found};
use rambo_book::{Actor, Book, Keeper, Terms};
use rambo_names::{Members, Name, Quorums, Refusal};
use rambo_roll::{Drawn, Opened};
use rambo_run::{Step, StepOf};
use rambo_tag::Replica;
use std::alloc::Global;
use std::marker::Model;

// So many steps are at hand at most before they are drawn.
const AHEAD: usize = 1024;

/// The keepers of all nodes and the book of an endless post, which take the steps of its trace again, one after the other, before
/// anybody else is there. Contracts see the steps that were taken. Its memory is flat: steps are drawn, nothing is kept of calls,
/// and of letters the last 16,384, and those that somebody may wait for.
#[derive(Drop)]
pub struct Recovery<J: Terms<Q>, Q: Quorums, S: Replica> {
    drawn: Drawn<J, Step<Q>>,
    // Empty: drawn steps go there, and are let go.
    buffer: Vec<Step<Q>>,
    // How many steps are at hand at most before they are drawn.
    most: usize,
    // Whether there was no room for a letter in its addressee's tray.
    is_short: bool,
    own: Founded<J, Q, S>,
}

impl<J: Terms<Q>, Q: Quorums, S: Replica> Model for Recovery<J, Q, S> {
    ghost use Rattle.std.specs.Prelude.{List};
    ghost use Rattle.std.specs.Coded.{codes};
    ghost use Rattle.rambo_names.specs.Names.{names_code};
    ghost use Rattle.rambo_node.specs.Steps.{Step};
    ghost use Rattle.rambo_recovery.specs.Recoveries.{IsRecovery};

    ghost Value = { List (Step Q) };

    ghost coded = { Prim.hlevel (codes, names_code, Q.code) };

    ghost view = { λ r. r.own.book.steps };

    ghost invariant = { λ r. IsRecovery Q.system J.endless r.own.book r.own.keepers.all.items r.drawn r.buffer.items r.is_short };
}

/// What a recovery leaves: the keepers of all 64 names, in their order, the book, and what is known of the steps that were drawn,
/// which are all.
pub struct Recovered<J: Terms<Q>, Q: Quorums, S: Replica> {
    pub keepers: Vec<Keeper<J, Q, S>>,
    pub book: Book<J, Q>,
    pub drawn: Drawn<J, Step<Q>>,
}

impl<J: Terms<Q>, Q: Quorums, S: Replica> Recovery<J, Q, S> {
    /// A recovery of an endless post of these founders, which has taken no step. It takes so many as the capacity, of which at most
    /// `ahead` are at hand at once. Each node's copies are made by `fresh` of the replica.
    ///
    /// Each letter whose number `lose` divides goes to no tray, and each other whose number `twice` divides goes there twice. 0
    /// divides none.
    ///
    /// `EmptyMembers` where there is no founder; `OutOfMemory` where there is no room for it.
    pub fn new(
        alloc: Global,
        opened: Opened<Step<Q>, Actor>,
        founders: Q,
        capacity: usize,
        ahead: usize,
        replica: &S,
        lose: u64,
        twice: u64,
    ) -> Result<Recovery<J, Q, S>, Refusal>
        requires name { opened ≡ J.table }
        requires founders { J.founders ≡ Some founders }
        requires capacity { capacity ≡ J.capacity }
        requires endless { J.endless ≡ true }
        requires lose { lose ≡ J.lose }
        requires twice { twice ≡ J.twice }
        ensures founded { OnOk result (least (founding_causes Q.system founders) ≡ None) }
        ensures refused { IfErr result (IsRefusal (least (founding_causes Q.system founders))) }
        ensures none { IfOk result (λ r. r ≡ []) }
    {
        let mut own = found(
            alloc, opened, founders, capacity, ahead, false, replica, lose, twice,
        )?;
        let drawn = own.book.drawing();
        Ok(Recovery {
            drawn,
            buffer: Vec::new(alloc),
            most: if ahead < AHEAD { ahead } else { AHEAD },
            is_short: false,
            own,
        })
    }

    /// Takes a step, which isn't refused by the rules of its kind. No step is refused in its turn.
    ///
    /// Refused with what the rules of the step's kind say, by the least number; else with 23 where as many were taken as the
    /// capacity; else with 22 where there is no room. A letter that was followed by 16,384 others can be delivered only where
    /// somebody may wait for it: it isn't lost, wasn't delivered, and its addressee hasn't stopped. Else the delivery is refused
    /// with 25; with 22 where there was no room for some letter. After a refusal the steps are as before.
    pub fn take(&mut self, step: Step<Q>) -> Result<(), Refusal>
        ensures taken { OnOk result (self.new ≡ self.old ++ step ∷ []) }
        ensures accepted { OnOk result ((f : Q) → J.founders ≡ Some f → refusal Q.system (run Q.system f self.old) step ≡ None) }
        ensures legal { (f : Q) → J.founders ≡ Some f → IsLegal Q.system f self.new }
        ensures err { OnErr result (self.new ≡ self.old) }
        ensures cause { IfErr result (λ r. (f : Q) → J.founders ≡ Some f → WhyUntaken Q.system f J.capacity J.lose self.old step r) }
    {
        let done = self.take_undrawn(step);
        self.draw_full();
        done
    }

    // The same, after which some more steps are at hand.
    fn take_undrawn(&mut self, step: Step<Q>) -> Result<(), Refusal>
        ensures taken { OnOk result (self.new ≡ self.old ++ step ∷ []) }
        ensures accepted { OnOk result ((f : Q) → J.founders ≡ Some f → refusal Q.system (run Q.system f self.old) step ≡ None) }
        ensures legal { (f : Q) → J.founders ≡ Some f → IsLegal Q.system f self.new }
        ensures err { OnErr result (self.new ≡ self.old) }
        ensures cause { IfErr result (λ r. (f : Q) → J.founders ≡ Some f → WhyUntaken Q.system f J.capacity J.lose self.old step r) }
    {
        match step {
            Step::Deliver(number) => self.take_delivery(number),
            step => self.take_other(step),
        }
    }

    // The same of a delivery.
    fn take_delivery(&mut self, number: u64) -> Result<(), Refusal>
        ensures taken { OnOk result (self.new ≡ self.old ++ StepOf.Deliver number ∷ []) }
        ensures accepted { OnOk result ((f : Q) → J.founders ≡ Some f → refusal Q.system (run Q.system f self.old) (StepOf.Deliver number) ≡ None) }
        ensures legal { (f : Q) → J.founders ≡ Some f → IsLegal Q.system f self.new }
        ensures err { OnErr result (self.new ≡ self.old) }
        ensures cause { IfErr result (λ r. (f : Q) → J.founders ≡ Some f → WhyUntaken Q.system f J.capacity J.lose self.old (StepOf.Deliver number) r) }
    {
        self.own.book.facts();
        let done = deliver(
            &mut self.own.book,
            &mut self.own.keepers,
            number,
            self.is_short,
        );
        self.own.book.facts();
        done
    }

    // The same of another step.
    fn take_other(&mut self, step: Step<Q>) -> Result<(), Refusal>
        requires { delivered_by step ≡ None }
        ensures taken { OnOk result (self.new ≡ self.old ++ step ∷ []) }
        ensures accepted { OnOk result ((f : Q) → J.founders ≡ Some f → refusal Q.system (run Q.system f self.old) step ≡ None) }
        ensures legal { (f : Q) → J.founders ≡ Some f → IsLegal Q.system f self.new }
        ensures err { OnErr result (self.new ≡ self.old) }
        ensures cause { IfErr result (λ r. (f : Q) → J.founders ≡ Some f → WhyUntaken Q.system f J.capacity J.lose self.old step r) }
    {
        self.own.book.facts();
        let done = act(&mut self.own.book, &mut self.own.keepers, step);
        self.own.book.facts();
        match done {
            Ok(has_room) => {
                self.is_short = is_short_now(self.is_short, has_room);
                Ok(())
            }
            Err(refusal) => Err(refusal),
        }
    }

    // Draws the steps at hand, where these are many, and lets them go.
    fn draw_full(&mut self)
        ensures { self.new ≡ self.old }
    {
        if self.own.book.at_hand() >= self.most {
            let _ = self.own.book.draw(&mut self.drawn, &mut self.buffer);
            self.buffer.clear();
        }
    }

    /// Whether the node of a name has stopped, for good.
    pub fn has_stopped(&mut self, name: Name) -> bool
        ensures same { self.new ≡ self.old }
        ensures stopped { (f : Q) → J.founders ≡ Some f → MatchBool result (HasStopped (run Q.system f self.old) name) (IsGoing (run Q.system f self.old) name) }
    {
        self.own.book.facts();
        let keeper = &mut self.own.keepers.all[place_of(name)];
        self.own.book.agree(keeper);
        keeper.has_stopped()
    }

    /// The names of the nodes that have stopped, for good.
    pub fn stopped(&mut self) -> Members
        ensures same { self.new ≡ self.old }
        ensures stopped { (f : Q) → J.founders ≡ Some f → (name : ℕ) → IsName name → MatchBool (set.contains result name) (HasStopped (run Q.system f self.old) name) (IsGoing (run Q.system f self.old) name) }
    {
        let mut stopped = Members::empty();
        for number in 1..65u64 {
            let Ok(name) = Name::new(number) else {
                unreachable!()
            };
            let has_stopped = self.has_stopped(name);
            stopped = with_if(stopped, name, has_stopped);
        }
        stopped
    }

    /// The keepers and the book, which a post goes on with, and what was drawn: all steps. It allocates nothing.
    pub fn into_parts(self) -> Recovered<J, Q, S>
        ensures endless { J.endless ≡ true }
        ensures drawn { result.drawn ≡ self }
        ensures book { result.book.steps ≡ self }
        ensures rest { result.book.drawn ≡ length self }
        ensures many { length result.keepers.items ≡ 64 }
        ensures named { AreNamed result.keepers.items }
    {
        let Recovery {
            mut drawn,
            mut buffer,
            most: _,
            is_short: _,
            own,
        } = self;
        let Founded { mut book, keepers } = own;
        let Keepers { all, spare: _spare } = keepers;
        let _ = book.draw(&mut drawn, &mut buffer);
        Recovered {
            keepers: all,
            book,
            drawn,
        }
    }
}

// Whether there was no room for a letter, before or now.
fn is_short_now(was_short: bool, has_room: bool) -> bool
    ensures { result ≡ false → (was_short ≡ false) × (has_room ≡ true) }
{
    was_short || !has_room
}

// A set with one more name, where that has stopped.
fn with_if(members: Members, name: Name, has_stopped: bool) -> Members
    ensures own { set.contains members name ≡ false → set.contains result name ≡ has_stopped }
    ensures other { (other : ℕ) → other ≢ name → set.contains result other ≡ set.contains members other }
{
    if has_stopped {
        members.with(name)
    } else {
        members
    }
}
