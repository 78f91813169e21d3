//! The locks.
ghost use Rattle.std.specs.Bool.{MatchBool};
ghost use Rattle.std.specs.Prelude.{◌≡◌, ◌<◌, ◌≤◌, ◌⊎◌, ◌++◌, [], Option, None, Some, true, false, not, length, vec_len, IsOk, MatchOption, OnOk, OnErr, IfOk, IfErr, IfSome, All};
ghost use Rattle.std.specs.FinMap as map;
ghost use Rattle.std.specs.FinSet as set;
ghost use Rattle.rambo_names.specs.Refusals.{least, IsRefusal};
ghost use Rattle.rambo_run.specs.Worlds.{founding_causes};
ghost use Rattle.std.specs.Sync.Mutex.{mutex_guard_value};
ghost use mathlib.Core.List.{IsPrefix};
ghost use Rattle.rambo_run.specs.Runs.{run, given_order};
ghost use Rattle.rambo_run.specs.Steps.{refusal};
ghost use Rattle.rambo_book.specs.Kept.{IsServedBy, KeeperView, Told, state};
ghost use Rattle.rambo_book.specs.Readying.{IsReadyFor};
ghost use Rattle.rambo_book.specs.Windows.{delivers_gone, gone_of};
ghost use Rattle.rambo_run.specs.Legal.{IsLegal};
ghost use Rattle.rambo_history.specs.Histories.{answer_in};
ghost use Rattle.rambo_history.specs.Proper.{IsProperForAll};
ghost use Rattle.rambo_pass.specs.Passes.{Acted, IsAnsweredLater, IsGoing, IsGone, IsHalf, IsNone, IsOne, IsTaken, WhyNot, WhyUndone};
ghost use Rattle.rambo_visit.specs.Happened.{Happened, HasMap, HasNoRoom, HasTurned, IsHeldUp, IsLast};
ghost use Rattle.rambo_node.specs.Steps.{Step};

use crate::gate::Gate;
use crate::shown::Shown;
use rambo_book::{Actor, Book, Counts, Keeper, Ready, Terms, ready};
use rambo_config_map::ConfigMap;
use rambo_history::{Answer, CallId, Op};
use rambo_mail::Mails;
use rambo_names::{Members, Name, Quorums, Refusal};
use rambo_node::Effect;
use rambo_outbox::{Outbox, Waiter};
use rambo_pass::{
    Closed, Ended, Pass, act_in, act_ready_in, call_in, close_in, end_in, give_up_in, meet_in,
    named, take_given, take_in,
};
use rambo_recovery::{Recovered, Recovery};
use rambo_roll::{Drawn, Opened};
use rambo_run::{Step, StepOf, may_found};
use rambo_tag::Replica;
use rambo_turn::{Turn, begin_in, commit_next, ready_next, send_in};
use rambo_visit::{Visited, came_by, note, visit_in};
use std::alloc::Global;
use std::sync::{Mutex, MutexGuard, Wait};

/// A lock for each keeper and for each node's outbox, and one for the book. A keeper's is taken before its outbox's,
/// and the book's last; no thread holds two keepers'.
///
/// What holds of one list of steps holds of all that clients see, since each pass is a prefix of the book's steps.
#[derive(Drop)]
pub struct Post<J: Terms<Q>, Q: Quorums, S: Replica> {
    pub(crate) keepers: Vec<Mutex<Keeper<J, Q, S>>>,
    pub(crate) outboxes: Vec<Mutex<Outbox>>,
    pub(crate) book: Mutex<Book<J, Q>>,
    // Never filled: it tells the prover that a keeper has a size, which it doesn't see through a `Vec`.
    spare: Option<Mutex<Keeper<J, Q, S>>>,
    ghost names: { vec_len keepers ≡ 64 },
    ghost boxes: { vec_len outboxes ≡ 64 },
}

/// A call that was made, and whether its waiter was recorded.
#[derive(Clone, Copy)]
pub struct Asked {
    /// Its id.
    pub id: CallId,
    /// Whether a visit will give the waiter once the call is answered. Otherwise memory ran out for that.
    pub is_awaited: bool,
}

impl<J: Terms<Q>, Q: Quorums, S: Replica> Post<J, Q, S> {
    /// A post of these founders, whose nodes have done nothing, with room for this many steps. Each node's copies are
    /// made by `fresh` of the replica.
    ///
    /// `EmptyMembers` where there is no founder; `OutOfMemory` where there is no room for it.
    pub fn new(
        alloc: Global,
        opened: Opened<Step<Q>, Actor>,
        founders: Q,
        capacity: usize,
        replica: &S,
    ) -> Result<Post<J, Q, S>, Refusal>
        requires name { opened ≡ J.table }
        requires founders { J.founders ≡ Some founders }
        requires capacity { capacity ≡ J.capacity }
        requires endless { J.endless ≡ false }
        requires lose { J.lose ≡ 0 }
        requires twice { J.twice ≡ 0 }
        ensures founded { OnOk result (least (founding_causes Q.system founders) ≡ None) }
        ensures refused { IfErr result (IsRefusal (least (founding_causes Q.system founders))) }
    {
        Post::with_mail(alloc, opened, founders, capacity, replica, 0, 0)
    }

    /// The same, but each letter whose number `lose` divides goes to no tray, and each other whose number `twice`
    /// divides goes there twice. 0 divides none.
    pub fn with_mail(
        alloc: Global,
        opened: Opened<Step<Q>, Actor>,
        founders: Q,
        capacity: usize,
        replica: &S,
        lose: u64,
        twice: u64,
    ) -> Result<Post<J, Q, S>, Refusal>
        requires name { opened ≡ J.table }
        requires founders { J.founders ≡ Some founders }
        requires capacity { capacity ≡ J.capacity }
        requires endless { J.endless ≡ false }
        requires lose { lose ≡ J.lose }
        requires twice { twice ≡ J.twice }
        ensures founded { OnOk result (least (founding_causes Q.system founders) ≡ None) }
        ensures refused { IfErr result (IsRefusal (least (founding_causes Q.system founders))) }
    {
        may_found(founders)?;
        let outboxes = outboxes_of(alloc)?;
        Post::with_boxes(
            alloc, opened, founders, capacity, capacity, true, replica, lose, twice, outboxes,
        )
    }

    /// The same of a post from which steps are drawn, so that it has no end: at most `ahead` of them are at hand at once,
    /// and of calls it keeps only those whose answers weren't taken.
    pub fn endless(
        alloc: Global,
        opened: Opened<Step<Q>, Actor>,
        founders: Q,
        capacity: usize,
        ahead: usize,
        replica: &S,
        lose: u64,
        twice: u64,
    ) -> Result<Post<J, Q, S>, Refusal>
        requires name { opened ≡ J.table }
        requires founders { J.founders ≡ Some founders }
        requires capacity { capacity ≡ J.capacity }
        requires endless { J.endless ≡ true }
        requires lose { lose ≡ J.lose }
        requires twice { twice ≡ J.twice }
        ensures founded { OnOk result (least (founding_causes Q.system founders) ≡ None) }
        ensures refused { IfErr result (IsRefusal (least (founding_causes Q.system founders))) }
    {
        may_found(founders)?;
        let outboxes = outboxes_of(alloc)?;
        Post::with_boxes(
            alloc, opened, founders, capacity, ahead, false, replica, lose, twice, outboxes,
        )
    }

    // The same, with these outboxes, all of them new. Whether it keeps all calls and answers; else steps are drawn.
    fn with_boxes(
        alloc: Global,
        opened: Opened<Step<Q>, Actor>,
        founders: Q,
        capacity: usize,
        ahead: usize,
        keeps_all: bool,
        replica: &S,
        lose: u64,
        twice: u64,
        outboxes: Vec<Mutex<Outbox>>,
    ) -> Result<Post<J, Q, S>, Refusal>
        requires name { opened ≡ J.table }
        requires founders { J.founders ≡ Some founders }
        requires capacity { capacity ≡ J.capacity }
        requires lose { lose ≡ J.lose }
        requires twice { twice ≡ J.twice }
        requires keeps_all { keeps_all ≡ not J.endless }
        requires boxes { vec_len outboxes ≡ 64 }
        ensures founded { OnOk result (least (founding_causes Q.system founders) ≡ None) }
        ensures refused { IfErr result (IsRefusal (least (founding_causes Q.system founders))) }
    {
        may_found(founders)?;
        let mails = Mails::new(alloc, lose, twice)?;
        let mut roll = opened.named::<J>();
        // (the first is of the name 0, which nobody has)
        let _ = roll.keeper();
        let mut keepers = Vec::new(alloc);
        keepers.reserve(64)?;
        for place in 0..64u64 {
            let name = Name::new(place + 1)?;
            let Ok(registers) = replica.fresh() else {
                return Err(Refusal::OutOfMemory);
            };
            let keeper = Keeper::new(alloc, name, founders, registers, roll.keeper());
            keepers.push(Mutex::new(keeper))?;
        }
        Ok(Post {
            keepers,
            outboxes,
            book: Mutex::new(Book::new(alloc, founders, capacity, ahead, keeps_all, roll, mails)),
            spare: None,
        })
    }

    /// A post that goes on where a recovery ended, and what is known of its steps that were drawn: these are all that the
    /// recovery took.
    ///
    /// `OutOfMemory` where there is no room for it.
    pub fn recovered(
        alloc: Global,
        recovery: Recovery<J, Q, S>,
    ) -> Result<(Post<J, Q, S>, Drawn<J, Step<Q>>, Shown<J, Q>), Refusal>
        ensures endless { J.endless ≡ true }
        ensures drawn { IfOk result (λ p. p.1 ≡ recovery) }
        ensures shown { IfOk result (λ p. p.2 ≡ recovery) }
        ensures refused { IfErr result (λ r. r ≡ Refusal.OutOfMemory) }
    {
        let Recovered {
            keepers,
            mut book,
            drawn,
        } = recovery.into_parts();
        let shown = Shown::all(&mut book);
        let outboxes = outboxes_of(alloc)?;
        let post = Post::with_keepers(alloc, keepers, book, outboxes)?;
        Ok((post, drawn, shown))
    }

    // A post of these keepers, those of the 64 names in their order, and of this book and these outboxes.
    fn with_keepers(
        alloc: Global,
        keepers: Vec<Keeper<J, Q, S>>,
        book: Book<J, Q>,
        outboxes: Vec<Mutex<Outbox>>,
    ) -> Result<Post<J, Q, S>, Refusal>
        requires many { length keepers.items ≡ 64 }
        requires boxes { vec_len outboxes ≡ 64 }
        ensures refused { IfErr result (λ r. r ≡ Refusal.OutOfMemory) }
    {
        let mut locked = Vec::new(alloc);
        locked.reserve(64)?;
        for keeper in keepers {
            locked.push(Mutex::new(keeper))?;
        }
        Ok(Post {
            keepers: locked,
            outboxes,
            book: Mutex::new(book),
            spare: None,
        })
    }

    /// A pass that has seen nothing and made no call. It allocates nothing.
    ///
    /// `NoPassLeft` where 32 were given.
    pub fn pass<R: Wait>(&self, rt: &R, alloc: Global) -> Result<Pass<J, Q>, Refusal>
        ensures pass { IfOk result (λ p. p ≡ record { seen = []; mine = [] }) }
        ensures refused { IfErr result (λ r. r ≡ Refusal.NoPassLeft) }
    {
        Pass::new(alloc, &mut self.book.lock(rt))
    }

    /// Makes a call at a node for a client, and returns its id. The client has then seen all steps up to it, and it is
    /// the last.
    ///
    /// Refused with what the rules of a call say, by the least number; else 23 where the book is full; else 22 where
    /// there is no room. After 22 the pass is as before; after another number its calls are, and the cause holds in the
    /// run of what it has then seen.
    pub fn call<R: Wait>(
        &self,
        rt: &R,
        pass: &mut Pass<J, Q>,
        name: Name,
        op: Op,
    ) -> Result<CallId, Refusal>
        ensures acted { IfOk result (λ id. (f : Q) → J.founders ≡ Some f → Acted Q.system f pass.old pass.new (StepOf.Call name op) (Effect.Called id)) }
        ensures begins { IsPrefix pass.old.seen pass.new.seen }
        ensures err { OnErr result (pass.new.mine ≡ pass.old.mine) }
        ensures memory { IfErr result (λ r. r ≡ Refusal.OutOfMemory → pass.new ≡ pass.old) }
        ensures cause { IfErr result (λ r. (f : Q) → J.founders ≡ Some f → WhyUndone Q.system f J.endless J.capacity pass.old pass.new (StepOf.Call name op) r) }
    {
        self.call_noted(rt, pass, name, op, |_| {})
    }

    /// Makes a call as `call` does, for a waiter: a visit of the node gives the waiter once the call is answered.
    ///
    /// It is refused as `call` is; then nobody waits.
    pub fn ask<R: Wait>(
        &self,
        rt: &R,
        pass: &mut Pass<J, Q>,
        name: Name,
        op: Op,
        who: Waiter,
    ) -> Result<Asked, Refusal>
        ensures acted { IfOk result (λ a. (f : Q) → J.founders ≡ Some f → Acted Q.system f pass.old pass.new (StepOf.Call name op) (Effect.Called a.id)) }
        ensures begins { IsPrefix pass.old.seen pass.new.seen }
        ensures err { OnErr result (pass.new.mine ≡ pass.old.mine) }
        ensures memory { IfErr result (λ r. r ≡ Refusal.OutOfMemory → pass.new ≡ pass.old) }
        ensures cause { IfErr result (λ r. (f : Q) → J.founders ≡ Some f → WhyUndone Q.system f J.endless J.capacity pass.old pass.new (StepOf.Call name op) r) }
    {
        let outbox = &self.outboxes[place_of(name)];
        let mut awaited = Ok(());
        let called = self.call_noted(rt, pass, name, op, |id| {
            awaited = outbox.lock(rt).await_call(id.number, who);
        });
        match called {
            Ok(id) => Ok(Asked {
                id,
                is_awaited: awaited.is_ok(),
            }),
            Err(refusal) => Err(refusal),
        }
    }

    /// A connection no longer waits at a node. Its call stays open there, but no reminder is sent for it.
    pub fn give_up<R: Wait>(&self, rt: &R, name: Name, client: u32, connection: u32) {
        self.outboxes[place_of(name)]
            .lock(rt)
            .leave(client, connection);
    }

    // Makes a call as `call` does, and passes its id to `noted` before its node takes another step. `noted` runs with
    // the keeper's lock held, so it may not wait for that lock. If the call is refused, `noted` isn't called.
    fn call_noted<R: Wait, F: FnOnce(CallId)>(
        &self,
        rt: &R,
        pass: &mut Pass<J, Q>,
        name: Name,
        op: Op,
        noted: F,
    ) -> Result<CallId, Refusal>
        requires { F.IsAlwaysCallable noted }
        ensures noted { IfOk result (λ id. F.post noted id tt) }
        ensures acted { IfOk result (λ id. (f : Q) → J.founders ≡ Some f → Acted Q.system f pass.old pass.new (StepOf.Call name op) (Effect.Called id)) }
        ensures begins { IsPrefix pass.old.seen pass.new.seen }
        ensures err { OnErr result (pass.new.mine ≡ pass.old.mine) }
        ensures memory { IfErr result (λ r. r ≡ Refusal.OutOfMemory → pass.new ≡ pass.old) }
        ensures cause { IfErr result (λ r. (f : Q) → J.founders ≡ Some f → WhyUndone Q.system f J.endless J.capacity pass.old pass.new (StepOf.Call name op) r) }
    {
        let mut keeper = self.keeper_of(rt, name);
        let half = ready(*self.keepers.allocator(), &mut keeper, Step::Call(name, op));
        let mut book = self.book.lock(rt);
        let called = call_in(&mut book, &mut keeper, pass, name, half);
        drop(book);
        if let Ok(id) = &called {
            noted(*id);
        }
        called
    }

    /// Does a step for a client, and returns what it did. The client has then seen all steps up to it, and it is the
    /// last.
    ///
    /// Refused with 25 exactly where the step delivers, by its number, a letter that was sent and isn't kept any more: an
    /// endless post keeps the last 16,384, and any other post all, so that it never says so. Else refused with what the rules
    /// of the step's kind say, by the least number; else 23 where the book is full; else 22 where there is no room. After 22
    /// the pass is as before; after another number its calls are, and the cause holds in the run of what it has then seen.
    pub fn act<R: Wait>(
        &self,
        rt: &R,
        pass: &mut Pass<J, Q>,
        step: Step<Q>,
    ) -> Result<Effect<Q>, Refusal>
        ensures acted { IfOk result (λ e. (f : Q) → J.founders ≡ Some f → Acted Q.system f pass.old pass.new step e) }
        ensures begins { IsPrefix pass.old.seen pass.new.seen }
        ensures err { OnErr result (pass.new.mine ≡ pass.old.mine) }
        ensures memory { IfErr result (λ r. r ≡ Refusal.OutOfMemory → pass.new ≡ pass.old) }
        ensures cause { IfErr result (λ r. (f : Q) → J.founders ≡ Some f → WhyUndone Q.system f J.endless J.capacity pass.old pass.new step r) }
    {
        let Some(name) = named(&step) else {
            let (mut keeper, mut book) = self.both(rt, &step);
            return act_in(&mut book, &mut keeper, pass, step);
        };
        let mut keeper = self.keeper_of(rt, name);
        let half = ready(*self.keepers.allocator(), &mut keeper, step);
        let half = asking_if(half, keeper.is_open());
        let mut book = self.book.lock(rt);
        act_ready_in(&mut book, &mut keeper, pass, half)
    }

    /// Sends a letter from one node to another, and returns its number.
    ///
    /// Refused with what the rules of a send say, by the least number; else 23 where the book is full; else 22 where
    /// there is no room.
    pub fn send<R: Wait>(&self, rt: &R, from: Name, to: Name) -> Result<u64, Refusal>
        ensures sent { IfOk result (λ number. (f : Q) → J.founders ≡ Some f → Happened Q.system f J.capacity (IsLast Q.system f (StepOf.Send from to) (Effect.Sent number))) }
        ensures told { IfErr result (λ r. (f : Q) → J.founders ≡ Some f → Happened Q.system f J.capacity (λ l. Told (refusal Q.system (run Q.system f l) (StepOf.Send from to)) (length l) J.capacity r)) }
    {
        let mut keeper = self.keeper_of(rt, from);
        let half = ready(*self.keepers.allocator(), &mut keeper, Step::Send(from, to));
        let asks = keeper.is_open();
        let mut book = self.book.lock(rt);
        send_in(&mut book, &mut keeper, from, to, asks, half)
    }

    /// Whom a node writes to that is driven by turns and `send`. While it is joining or has a call, a collection or an
    /// attempt open, these are all that it knows. Else they are those whose asking letters it heard since this was last
    /// called. Its own name is never among them.
    pub fn wanted<R: Wait>(&self, rt: &R, name: Name) -> Members
        ensures { set.contains result name ≡ false }
    {
        self.all_wanted(rt, name).without(name)
    }

    // The same, perhaps with its own name.
    fn all_wanted<R: Wait>(&self, rt: &R, name: Name) -> Members {
        let keeper = self.keeper_of(rt, name);
        if keeper.is_open() {
            return keeper.known();
        }
        self.outboxes[place_of(name)].lock(rt).take_owed()
    }

    // Takes the lock of the keeper that may do the step, and then the book's. For a letter that is gone any keeper may.
    fn both<'a, R: Wait>(
        &'a self,
        rt: &R,
        step: &Step<Q>,
    ) -> (MutexGuard<'a, Keeper<J, Q, S>>, MutexGuard<'a, Book<J, Q>>)
        ensures { delivers_gone (gone_of J.endless J.capacity (state Q.system (mutex_guard_value result.1))) step.now ≡ false → IsServedBy (state Q.system (mutex_guard_value result.1)) step.now (mutex_guard_value result.0).name }
    {
        for _ in rt.forever() {
            let place = self.book.lock(rt).place_of(step);
            let keeper = self.keepers[place].lock(rt);
            let book = self.book.lock(rt);
            if book.serves(step, keeper.name()) {
                return (keeper, book);
            }
        }
        unreachable!()
    }

    // Takes the lock of the keeper of this name.
    fn keeper_of<'a, R: Wait>(&'a self, rt: &R, name: Name) -> MutexGuard<'a, Keeper<J, Q, S>>
        ensures { (mutex_guard_value result).name ≡ name }
    {
        let place = place_of(name);
        for _ in rt.forever() {
            let keeper = self.keepers[place].lock(rt);
            if keeper.name() == name {
                return keeper;
            }
        }
        unreachable!()
    }

    /// The answer of a call of this client, who has then seen all steps, and waits for it no longer. None where they have no
    /// answer of it yet, and its node hasn't stopped.
    ///
    /// `NoSuchCall` where the call isn't one of this client's that wait; `Stopped` where it has no answer and its node has
    /// stopped; `OutOfMemory` where the answer can't be shared. After `Stopped` the calls of the pass are as before, and
    /// after the other two the whole pass is.
    pub fn take_answer<R: Wait>(
        &self,
        rt: &R,
        pass: &mut Pass<J, Q>,
        id: CallId,
    ) -> Result<Option<Answer>, Refusal>
        ensures begins { OnOk result (IsPrefix pass.old.seen pass.new.seen) }
        ensures legal { OnOk result ((f : Q) → J.founders ≡ Some f → IsLegal Q.system f pass.new.seen) }
        ensures answer { IfOk result (λ a. (f : Q) → J.founders ≡ Some f → a ≡ answer_in (run Q.system f pass.new.seen).history id) }
        ensures going { IfOk result (λ a. (f : Q) → J.founders ≡ Some f → a ≡ None → IsGoing (run Q.system f pass.new.seen) id.name) }
        ensures mine { IfOk result (λ a. IsTaken pass.old.mine id a pass.new.mine) }
        ensures err { OnErr result (pass.new.mine ≡ pass.old.mine) }
        ensures cause { IfErr result (λ r. (f : Q) → J.founders ≡ Some f → WhyNot Q.system f J.endless pass.old pass.new id r) }
    {
        if let Some(answer) = self.given(rt, pass, &id)? {
            return Ok(Some(answer));
        }
        self.ungiven(rt, pass, id)
    }

    // The same with the lock of the keeper, which knows whether its node has stopped.
    fn ungiven<R: Wait>(
        &self,
        rt: &R,
        pass: &mut Pass<J, Q>,
        id: CallId,
    ) -> Result<Option<Answer>, Refusal>
        ensures begins { OnOk result (IsPrefix pass.old.seen pass.new.seen) }
        ensures legal { OnOk result ((f : Q) → J.founders ≡ Some f → IsLegal Q.system f pass.new.seen) }
        ensures answer { IfOk result (λ a. (f : Q) → J.founders ≡ Some f → a ≡ answer_in (run Q.system f pass.new.seen).history id) }
        ensures going { IfOk result (λ a. (f : Q) → J.founders ≡ Some f → a ≡ None → IsGoing (run Q.system f pass.new.seen) id.name) }
        ensures mine { IfOk result (λ a. IsTaken pass.old.mine id a pass.new.mine) }
        ensures err { OnErr result (pass.new.mine ≡ pass.old.mine) }
        ensures cause { IfErr result (λ r. (f : Q) → J.founders ≡ Some f → WhyNot Q.system f J.endless pass.old pass.new id r) }
    {
        let mut keeper = self.keeper_of(rt, id.name);
        let mut book = self.book.lock(rt);
        take_in(&mut book, &mut keeper, pass, id)
    }

    // The same with the book's lock alone, if the steps have an answer. Else the pass is as before.
    fn given<R: Wait>(
        &self,
        rt: &R,
        pass: &mut Pass<J, Q>,
        id: &CallId,
    ) -> Result<Option<Answer>, Refusal>
        ensures given { IfOk result (λ a. MatchOption a (pass.new ≡ pass.old) (λ b. (f : Q) → J.founders ≡ Some f → IsLegal Q.system f pass.new.seen × (answer_in (run Q.system f pass.new.seen).history id.now ≡ Some b))) }
        ensures begins { OnOk result (IsPrefix pass.old.seen pass.new.seen) }
        ensures mine { IfOk result (λ a. IsTaken pass.old.mine id.now a pass.new.mine) }
        ensures err { OnErr result (pass.new ≡ pass.old) }
        ensures cause { IfErr result (λ r. (f : Q) → J.founders ≡ Some f → ((r ≡ Refusal.OutOfMemory) × IsOne pass.old.mine id.now × (J.endless ≡ false → IsAnsweredLater Q.system f pass.old.seen id.now)) ⊎ ((r ≡ Refusal.NoSuchCall) × IsNone pass.old.mine id.now)) }
    {
        take_given(&mut self.book.lock(rt), pass, id)
    }

    /// The node of this name takes its mail, and does what it then picks. The book is free while the node picks, and
    /// makes the first half of that.
    ///
    /// `working` of the gate is called once the mail was taken, as far as there was room. `prepared` is called once the
    /// first half is made, if there is something to do, and `ended` once both locks are free. The first and the last
    /// are called whatever the turn returns.
    ///
    /// Refused with 23 where the book is full and there is something to do, and with 22 where there is no room. The
    /// letters that it took stay in its tray.
    pub fn turn<R: Wait, G: Gate>(&self, rt: &R, name: Name, gate: &G) -> Result<Turn<Q>, Refusal>
        ensures told { IfOk result (λ t. (f : Q) → J.founders ≡ Some f → HasTurned Q.system f J.capacity name t) }
        ensures cause { IfErr result (λ r. (r ≡ Refusal.OutOfMemory) ⊎ ((r ≡ Refusal.HistoryFull) × ((f : Q) → J.founders ≡ Some f → IsHeldUp Q.system f J.capacity name))) }
    {
        let done = self.turn_held(rt, name, gate);
        gate.ended(name);
        done
    }

    // What it does with its keeper's lock held.
    fn turn_held<R: Wait, G: Gate>(&self, rt: &R, name: Name, gate: &G) -> Result<Turn<Q>, Refusal>
        ensures told { IfOk result (λ t. (f : Q) → J.founders ≡ Some f → HasTurned Q.system f J.capacity name t) }
        ensures cause { IfErr result (λ r. (r ≡ Refusal.OutOfMemory) ⊎ ((r ≡ Refusal.HistoryFull) × ((f : Q) → J.founders ≡ Some f → IsHeldUp Q.system f J.capacity name))) }
    {
        let mut keeper = self.keeper_of(rt, name);
        let begun = self.begin(rt, &mut keeper);
        gate.working(name);
        begun?;
        keeper.facts();
        let Ok(next) = ready_next(*self.keepers.allocator(), &mut keeper) else {
            return Err(self.book.lock(rt).no_room());
        };
        let Some(half) = next else {
            return Ok(Turn::Nothing);
        };
        gate.prepared(name);
        let came = came_by(&keeper, &half.step);
        let mut again = self.book.lock(rt);
        let turn = commit_next(&mut again, &mut keeper, half);
        drop(again);
        self.note_turn(rt, name, &keeper, &turn, came);
        turn
    }

    // Notes in the outbox of this name what a turn did. `came` is the sender of the letter that it delivered, if it
    // did, and whether that asks for one in return.
    fn note_turn<R: Wait>(
        &self,
        rt: &R,
        name: Name,
        keeper: &Keeper<J, Q, S>,
        turn: &Result<Turn<Q>, Refusal>,
        came: Option<(Name, bool)>,
    ) {
        if let Ok(Turn::Did(step)) = turn {
            let mut outbox = self.outboxes[place_of(name)].lock(rt);
            note(&mut outbox, keeper, step, came);
        }
    }

    // The keeper takes its mail.
    fn begin<R: Wait>(&self, rt: &R, keeper: &mut Keeper<J, Q, S>) -> Result<(), Refusal>
        ensures name { keeper.new.name ≡ keeper.old.name }
        ensures refused { IfErr result (λ r. r ≡ Refusal.OutOfMemory) }
    {
        begin_in(&mut self.book.lock(rt), keeper)
    }

    /// Does all that is to be done at the node of this name, with its keeper's lock held. The node takes its mail and
    /// all steps that it may take by itself, and writes the letters that its outbox wants. The waiter of each call that
    /// is answered meanwhile is appended to `given`.
    ///
    /// `now` is in milliseconds since a fixed moment. `wants_room` says whether somebody waits for room for a call. The
    /// gate is called once the mail was taken, as far as there was room, and once the keeper's lock is free. In `left`,
    /// 23 means that the book is full and something is to be done, 22 that memory ran out. A later visit does what was
    /// left.
    pub fn visit<R: Wait, G: Gate>(
        &self,
        rt: &R,
        gate: &G,
        name: Name,
        now: u64,
        wants_room: bool,
        given: &mut Vec<Waiter>,
    ) -> Visited
        ensures cause { IfSome result.left (HasNoRoom Q.system J.founders J.capacity) }
    {
        let visited = self.visit_held(rt, gate, name, now, wants_room, given);
        gate.ended(name);
        visited
    }

    // What it does with the keeper's lock held.
    fn visit_held<R: Wait, G: Gate>(
        &self,
        rt: &R,
        gate: &G,
        name: Name,
        now: u64,
        wants_room: bool,
        given: &mut Vec<Waiter>,
    ) -> Visited
        ensures cause { IfSome result.left (HasNoRoom Q.system J.founders J.capacity) }
    {
        let mut keeper = self.keeper_of(rt, name);
        let begun = self.begin(rt, &mut keeper);
        gate.working(name);
        if let Err(refusal) = begun {
            return Visited::left(Members::empty(), refusal, now);
        }
        let mut outbox = self.outboxes[place_of(name)].lock(rt);
        let alloc = *self.keepers.allocator();
        visit_in(
            rt,
            alloc,
            &self.book,
            &mut keeper,
            &mut outbox,
            now,
            wants_room,
            given,
        )
    }

    /// The map of the node of this name. It allocates nothing.
    pub fn map<R: Wait>(&self, rt: &R, name: Name) -> ConfigMap<Q>
        ensures { (f : Q) → J.founders ≡ Some f → Happened Q.system f J.capacity (λ l. HasMap (run Q.system f l) name result) }
    {
        let keeper = self.keeper_of(rt, name);
        keeper.facts();
        keeper.map()
    }

    /// Two clients meet: both have then seen what the one had seen that had seen more. So what either calls later comes
    /// after all that both had seen.
    pub fn meet<R: Wait>(
        &self,
        rt: &R,
        one: &mut Pass<J, Q>,
        other: &mut Pass<J, Q>,
    ) -> Result<(), Refusal>
        ensures ok { IsOk result }
        ensures same { (one.new.seen ≡ other.new.seen) × (one.new.mine ≡ one.old.mine) × (other.new.mine ≡ other.old.mine) }
        ensures longer { ((one.new.seen ≡ one.old.seen) × IsPrefix other.old.seen one.old.seen) ⊎ ((one.new.seen ≡ other.old.seen) × IsPrefix one.old.seen other.old.seen) }
    {
        meet_in(&mut self.book.lock(rt), one, other);
        Ok(())
    }

    /// This client waits for the answer of a call no longer. Whether it did. What it has seen is unchanged, and the call
    /// stays open at its node.
    pub fn withdraw<R: Wait>(&self, rt: &R, pass: &mut Pass<J, Q>, id: &CallId) -> bool
        ensures seen { pass.new.seen ≡ pass.old.seen }
        ensures mine { MatchBool result (IsGone pass.old.mine id.now pass.new.mine) ((pass.new ≡ pass.old) × IsNone pass.old.mine id.now) }
    {
        give_up_in(&mut self.book.lock(rt), pass, id)
    }

    /// How much the book holds.
    pub fn counts<R: Wait>(&self, rt: &R) -> Counts {
        self.book.lock(rt).counts()
    }

    /// How many steps are at hand, since they weren't drawn.
    pub fn at_hand<R: Wait>(&self, rt: &R) -> usize {
        self.book.lock(rt).at_hand()
    }

    /// A drawer's knowledge before anything was drawn. A post has one drawer.
    pub fn drawing<R: Wait>(&self, rt: &R) -> Drawn<J, Step<Q>>
        ensures { result ≡ [] }
    {
        self.book.lock(rt).drawing()
    }

    /// All steps, once the post ends: none was refused in its turn, and what each client has seen begins them, as does what was
    /// shown. Those that weren't drawn follow those that were; they are None where another drawer has drawn. It allocates
    /// nothing.
    pub fn end(
        self,
        passes: Vec<Pass<J, Q>>,
        drawn: Drawn<J, Step<Q>>,
        shown: Shown<J, Q>,
    ) -> Ended<J, Q>
        requires { J.endless ≡ true }
        ensures legal { (f : Q) → J.founders ≡ Some f → IsLegal Q.system f result.all }
        ensures fits { length result.all ≤ J.capacity }
        ensures rest { IfSome result.rest (λ r. drawn ++ r ≡ result.all) }
        ensures drawn { IsPrefix drawn result.all }
        ensures shown { IsPrefix shown result.all }
        ensures begins { All (λ p. IsPrefix p.seen result.all) passes.items }
    {
        let Post {
            keepers: _keepers,
            outboxes: _outboxes,
            book,
            spare: _spare,
        } = self;
        let mut book = book.into_inner();
        shown.begins(&mut book);
        end_in(book, passes, drawn)
    }

    /// Closes the post, from which nothing was drawn. Returns all steps: none was refused in its turn, and what each client
    /// has seen begins them. It also returns the one order of the calls in them, or None where there is no room for it.
    /// Nothing else here allocates.
    pub fn close(self, passes: Vec<Pass<J, Q>>) -> Closed<J, Q>
        requires { J.endless ≡ false }
        ensures legal { (f : Q) → J.founders ≡ Some f → IsLegal Q.system f result.steps }
        ensures fits { length result.steps ≤ J.capacity }
        ensures begins { All (λ p. IsPrefix p.seen result.steps) passes.items }
        ensures order { IfSome result.order (λ o. (f : Q) → J.founders ≡ Some f → o ≡ given_order (run Q.system f result.steps)) }
        ensures explained { IfSome result.order (λ o. (f : Q) → J.founders ≡ Some f → IsProperForAll (run Q.system f result.steps).history o) }
    {
        let Post {
            keepers: _keepers,
            outboxes: _outboxes,
            book,
            spare: _spare,
        } = self;
        close_in(book.into_inner(), passes)
    }
}

// The place of a name among the 64.
fn place_of(name: Name) -> usize
    ensures { result < 64 }
{
    name.number() as usize - 1
}

// An outbox for each of the 64 names.
fn outboxes_of(alloc: Global) -> Result<Vec<Mutex<Outbox>>, Refusal>
    ensures all { IfOk result (λ o. vec_len o ≡ 64) }
    ensures refused { IfErr result (λ r. r ≡ Refusal.OutOfMemory) }
{
    let mut outboxes = Vec::new(alloc);
    for place in 0..64u64 {
        outboxes.push(Mutex::new(Outbox::new(alloc)))?;
    }
    Ok(outboxes)
}

// A first half whose letter, if it sends one, asks for one in return, where `asks` is true; else the same.
fn asking_if<Q: Quorums>(half: Result<Ready<Q>, Refusal>, asks: bool) -> Result<Ready<Q>, Refusal>
    ensures half { (agreed : Option Q) (k : KeeperView Q) (st : Step Q) → IsHalf Q.system agreed k st half → IsHalf Q.system agreed k st result }
    ensures ready { (agreed : Option Q) (k : KeeperView Q) → IfOk half (IsReadyFor Q.system agreed k) → IfOk result (IsReadyFor Q.system agreed k) }
{
    match half {
        Ok(ready) => { if asks { Ok(ready.asking()) } else { Ok(ready) } }
        Err(refusal) => Err(refusal),
    }
}
