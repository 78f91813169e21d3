//! Who writes to whom, and when.
ghost use Rattle.std.specs.Prelude.{◌≡◌, ◌||◌, ℕ, [], not, nat_le, map, Some, MatchOption, IfNone, OnOk, OnErr, IfErr};
ghost use Rattle.std.specs.FinSet as set;
ghost use Rattle.rambo_outbox.specs.Bids.{is_asked_bid, is_new_bid};
ghost use Rattle.rambo_outbox.specs.Outboxes.{first_outbox, numbers_of, seen, progressed, answered, is_idle, heard_by};
ghost use Rattle.rambo_outbox.specs.Rounds.{whom, due_after, rebids, begins, rebid_after, bids_after, noted, wake_of, round_of, after_round};
ghost use Rattle.rambo_outbox.specs.Waiting.{awaited, is_waited, without, waiter_of};
ghost use Rattle.rambo_outbox.specs.Found.{found_in, nothing_found};
ghost use Rattle.rambo_outbox.specs.Wishes.{is_wished, phases, wished, greatest, is_under_way, has_asked, is_new, has_wished, asks_by, asks_of};

use crate::asking::Choice;
use crate::asks::Asks;
use crate::entry::{Entry, Waiter};
use crate::found::Found;
use crate::opened::{BidStage, Opened};
use crate::pauses::{later, more, patience, pause};
use crate::round::Round;
use crate::waiting::{find, is_waited, leave_out, let_go};
use rambo_calls::OpenCall;
use rambo_names::{Members, Name, Quorums, Refusal};
use std::alloc::Global;
use std::marker::Model;

/// What a node has asked for, who waits for it, whom it owes a letter, and when to look again.
///
/// All times are in milliseconds since one moment, the same for all calls.
#[derive(Drop)]
pub struct Outbox {
    // The calls that somebody waits for.
    waiting: Vec<Entry>,
    // What was asked for: the phase numbers up to this one, this bid, and whether to join.
    asked: u64,
    bid: Option<BidStage>,
    joins: bool,
    // Who asked for a letter and is owed one.
    owes: Members,
    // Who was asked first and hasn't replied yet, and who was silent then until it was asked again.
    first: Members,
    silent: Members,
    // How many reminders there were, which says whose turn it is; how many since something went on; when the next is due.
    turn: u64,
    stood: u64,
    due: u64,
    // How many bids of the attempt were asked for, and when the attempt is to be retried.
    bids: u64,
    rebid_at: u64,
    // The call that is kept open.
    idle: Option<u64>,
}

impl Model for Outbox {
    ghost use Rattle.std.specs.Coded.{codes};
    ghost use Rattle.rambo_names.specs.Names.{names_code};
    ghost use Rattle.rambo_outbox.specs.Outboxes.{OutboxState};

    ghost Value = { OutboxState };

    ghost coded = { Prim.hlevel (codes, names_code) };

    ghost view = { λ b. record {
      waiting = b.waiting.items;
      asked = b.asked;
      bid = b.bid;
      joins = b.joins;
      owes = b.owes;
      first = b.first;
      silent = b.silent;
      turn = b.turn;
      stood = b.stood;
      due = b.due;
      bids = b.bids;
      rebid_at = b.rebid_at;
      idle = b.idle;
    } };
}

impl Outbox {
    /// An outbox of a node that has asked for nothing. Later allocations come from this allocator.
    pub fn new(alloc: Global) -> Outbox
        ensures { result ≡ first_outbox }
    {
        Outbox {
            waiting: Vec::new(alloc),
            asked: 0,
            bid: None,
            joins: false,
            owes: Members::empty(),
            first: Members::empty(),
            silent: Members::empty(),
            turn: 0,
            stood: 0,
            due: 0,
            bids: 0,
            rebid_at: 0,
            idle: None,
        }
    }

    /// Somebody waits for a call that was just made, of this number.
    ///
    /// `OutOfMemory` where there is no room for it; the outbox is then unchanged.
    pub fn await_call(&mut self, number: u64, who: Waiter) -> Result<(), Refusal>
        ensures ok { OnOk result (self.new ≡ record self.old { waiting = awaited number who self.old.waiting }) }
        ensures err { OnErr result (self.new ≡ self.old) }
        ensures refused { IfErr result (λ r. r ≡ Refusal.OutOfMemory) }
    {
        self.waiting.push(Entry { number, who })?;
        Ok(())
    }

    /// Whether somebody waits for the call of a number.
    pub fn is_waited(&self, number: u64) -> bool
        ensures { result ≡ is_waited self.now.waiting number }
    {
        is_waited(self.waiting.as_slice(), number)
    }

    /// The call of a number was answered. Returns who waited for it.
    pub fn answered(&mut self, number: u64) -> Option<Waiter>
        ensures told { result ≡ waiter_of number self.old.waiting }
        ensures after { self.new ≡ answered number self.old }
    {
        let entry = find(self.waiting.as_slice(), number);
        leave_out(&mut self.waiting, number);
        if self.is_idle(number) {
            self.idle = None;
        }
        self.stood = 0;
        match entry {
            Some(entry) => Some(entry.who),
            None => None,
        }
    }

    /// Takes out the last of those who wait, who then waits no more. None where nobody waits.
    pub fn take_waiter(&mut self) -> Option<Waiter>
        ensures taken { MatchOption result (self.old.waiting ≡ []) (λ w. (n : ℕ) × (self.old.waiting ≡ awaited n w self.new.waiting)) }
        ensures nobody { IfNone result (self.new ≡ self.old) }
        ensures rest { self.new ≡ record self.old { waiting = self.new.waiting } }
    {
        match self.waiting.pop() {
            Some(entry) => Some(entry.who),
            None => None,
        }
    }

    /// A connection has ended: nobody waits for its calls any more. They stay open.
    pub fn leave(&mut self, client: u32, connection: u32)
        ensures { self.new ≡ record self.old { waiting = without client connection self.old.waiting } }
    {
        let_go(&mut self.waiting, client, connection);
    }

    /// A phase of a call, a collection or an attempt advanced.
    pub fn moved(&mut self)
        ensures { self.new ≡ progressed self.old }
    {
        self.stood = 0;
    }

    /// A letter was heard, which asks for an answer or doesn't.
    pub fn heard(&mut self, from: Name, asks: bool)
        ensures { self.new ≡ heard_by self.old from asks }
    {
        if asks {
            self.owes = self.owes.with(from);
        }
        self.first = self.first.without(from);
        self.silent = self.silent.without(from);
    }

    /// Who is owed a letter. From now on nobody is.
    pub fn take_owed(&mut self) -> Members
        ensures names { result ≡ self.old.owes }
        ensures rest { self.new ≡ record self.old { owes = set.empty } }
    {
        let owed = self.owes;
        self.owes = Members::empty();
        owed
    }

    /// A name is owed a letter, perhaps again.
    pub fn owe(&mut self, to: Name)
        ensures { self.new ≡ record self.old { owes = set.insert self.old.owes to } }
    {
        self.owes = self.owes.with(to);
    }

    /// The call of this number is kept open from now on: nobody waits for it, and nobody is asked for it. So that
    /// letters stay short, it restarts where they carried much.
    pub fn keep_open(&mut self, number: u64)
        ensures { self.new ≡ record self.old { idle = Some number } }
    {
        self.idle = Some(number);
    }

    /// The call that is kept open, if there is one.
    pub fn idle(&self) -> Option<u64>
        ensures { result ≡ self.now.idle }
    {
        self.idle
    }

    // Whether a call is the one that is kept open.
    fn is_idle(&self, number: u64) -> bool
        ensures { result ≡ is_idle self.now.idle number }
    {
        match self.idle {
            Some(idle) => idle == number,
            None => false,
        }
    }
}

// What is asked for, and for how long.
impl Outbox {
    // Whether a call is wished for.
    fn is_wished(&self, wants_room: bool, number: u64) -> bool
        ensures { result ≡ is_wished self.now wants_room number }
    {
        self.is_waited(number) || (wants_room && !self.is_idle(number))
    }

    // What is wished for of some calls.
    fn found<Q: Quorums>(&self, calls: &[OpenCall<Q>], wants_room: bool) -> Found
        ensures { result ≡ found_in self.now.asked (phases self.now wants_room (map numbers_of calls.now)) nothing_found }
    {
        let mut found = Found::nothing();
        let mut rest = calls;
        while let Some((call, others)) = rest.split_first() {
            if self.is_wished(wants_room, call.number) {
                found.add(self.asked, call.phase.number());
            }
            rest = others;
        }
        found
    }
}

// What is wished for, and asked for.
impl Outbox {
    // What is wished for of all that has a phase.
    fn wishes<Q: Quorums>(&self, opened: &Opened<'_, Q>) -> Found
        ensures some { result.is_some ≡ has_wished self.now (seen opened.now) }
        ensures runs { result.is_under_way ≡ is_under_way self.now (seen opened.now) }
        ensures last { result.greatest ≡ greatest (wished self.now (seen opened.now)) }
    {
        let mut found = self.found(opened.calls, opened.wants_room);
        if let Some(number) = opened.collection {
            found.add(self.asked, number);
        }
        found
    }

    // Whether a bid is open that was asked for.
    fn is_asked_bid(&self, bid: &Option<BidStage>) -> bool
        ensures { result ≡ is_asked_bid self.now.bid bid.now }
    {
        match (&self.bid, bid) {
            (Some(asked), Some(bid)) => asked.is_same(bid),
            _ => false,
        }
    }

    // Whether something was asked for, and isn't there yet. `runs` says whether a phase is under way.
    fn has_asked<Q: Quorums>(&self, opened: &Opened<'_, Q>, runs: bool) -> bool
        requires { runs ≡ is_under_way self.now (seen opened.now) }
        ensures { result ≡ has_asked self.now (seen opened.now) }
    {
        runs || self.is_asked_bid(&opened.bid) || (opened.is_joining && self.joins)
    }

    // Whether a bid is open that wasn't asked for.
    fn is_new_bid(&self, bid: &Option<BidStage>) -> bool
        ensures { result ≡ is_new_bid self.now.bid bid.now }
    {
        match (&self.bid, bid) {
            (Some(asked), Some(bid)) => !asked.is_same(bid),
            (None, Some(_)) => true,
            (_, None) => false,
        }
    }

    // Whether something new is to be asked for. `runs` says whether a phase is under way, and `last` is the greatest
    // phase number that is wished for.
    fn is_new<Q: Quorums>(&self, opened: &Opened<'_, Q>, runs: bool, last: u64) -> bool
        requires runs { runs ≡ is_under_way self.now (seen opened.now) }
        requires last { last ≡ greatest (wished self.now (seen opened.now)) }
        ensures { result ≡ is_new self.now (seen opened.now) }
    {
        self.is_new_bid(&opened.bid)
            || (opened.is_joining && !self.joins)
            || (!runs && self.asked < last)
    }

    // What the node asks for, where this was found of its wishes.
    fn asks<Q: Quorums>(&self, opened: &Opened<'_, Q>, found: &Found, now: u64) -> Asks
        requires runs { found.now.is_under_way ≡ is_under_way self.now (seen opened.now) }
        requires last { found.now.greatest ≡ greatest (wished self.now (seen opened.now)) }
        ensures { result ≡ asks_of self.now (seen opened.now) now }
    {
        let has_asked = self.has_asked(opened, found.is_under_way);
        let is_new = self.is_new(opened, found.is_under_way, found.greatest);
        asks_by(has_asked, self.due <= now, is_new)
    }

    // Who is asked, of those that may be written to.
    fn whom<Q: Quorums>(&self, opened: &Opened<'_, Q>, reach: Members, asks: Asks) -> Members
        requires { reach ≡ set.remove opened.now.reach opened.now.me }
        ensures { result ≡ whom Q.system self.now (seen opened.now) asks }
    {
        match asks {
            Asks::Nothing => Members::empty(),
            Asks::Again => reach,
            Asks::More | Asks::First => {
                if opened.is_joining {
                    return reach;
                }
                let choice = Choice {
                    me: opened.me,
                    reach,
                    silent: self.silent,
                    turn: self.turn,
                };
                choice.first_asked(opened.map)
            }
        }
    }

    // When the next reminder is due.
    fn due_after(&self, asks: Asks, now: u64) -> u64
        ensures { result ≡ due_after self.now asks now }
    {
        match asks {
            Asks::Again => later(now, pause(more(self.stood))),
            Asks::First => later(now, pause(self.stood)),
            Asks::Nothing | Asks::More => self.due.min(later(now, pause(self.stood))),
        }
    }

    // Whether the time begins for which a bid is left alone: it is a new one, or the last such time is over.
    fn begins(&self, bid: &Option<BidStage>, now: u64) -> bool
        ensures { result ≡ (not (is_asked_bid self.now.bid bid.now) || nat_le self.now.rebid_at now) }
    {
        !self.is_asked_bid(bid) || self.rebid_at <= now
    }

    // When the attempt is to be retried.
    fn rebid_after<Q: Quorums>(&self, opened: &Opened<'_, Q>, has_begun: bool, now: u64) -> u64
        requires { has_begun ≡ begins self.now (seen opened.now) now }
        ensures { result ≡ rebid_after self.now (seen opened.now) now }
    {
        if has_begun {
            later(now, patience(self.stood, self.bids, opened.me))
        } else {
            self.rebid_at
        }
    }

    // How many bids of the attempt were asked for.
    fn bids_after<Q: Quorums>(&self, opened: &Opened<'_, Q>, has_begun: bool, now: u64) -> u64
        requires { has_begun ≡ begins self.now (seen opened.now) now }
        ensures { result ≡ bids_after self.now (seen opened.now) now }
    {
        if opened.bid.is_none() {
            return 0;
        }
        if has_begun {
            more(self.bids)
        } else {
            self.bids
        }
    }

    // What is asked for counts as asked. At a reminder, those that were asked first and haven't replied count as
    // silent.
    fn note(&mut self, asks: Asks, asked: Members, greatest: u64)
        ensures { self.new ≡ noted self.old asks asked greatest }
    {
        match asks {
            Asks::Nothing => {}
            Asks::More | Asks::First => {
                self.asked = self.asked.max(greatest);
                self.first = asked;
            }
            Asks::Again => {
                self.asked = self.asked.max(greatest);
                self.silent = self.silent.union(self.first);
                self.first = Members::empty();
                self.turn = self.turn.wrapping_add(1);
                self.stood = more(self.stood);
            }
        }
    }

    /// Whether it is time for the node to retry its attempt. It is called before `next`, which is given what is open
    /// after the retry.
    pub fn rebids<Q: Quorums>(&self, opened: &Opened<'_, Q>, now: u64) -> bool
        ensures { result ≡ rebids self.now (seen opened.now) now }
    {
        self.is_asked_bid(&opened.bid) && self.rebid_at <= now
    }

    /// Whom the node writes to now, and when to look again at the latest. All of these letters are to be written: those
    /// asked count as asked, and nobody is owed a letter any more. `owe` is for a letter that couldn't be written.
    pub fn next<Q: Quorums>(&mut self, opened: &Opened<'_, Q>, now: u64) -> Round
        ensures round { result ≡ round_of Q.system self.old (seen opened.now) now }
        ensures after { self.new ≡ after_round Q.system self.old (seen opened.now) now }
    {
        let found = self.wishes(opened);
        let asks = self.asks(opened, &found, now);
        let reach = opened.reach.without(opened.me);
        let asked = self.whom(opened, reach, asks);
        let has_begun = self.begins(&opened.bid, now);
        let due = self.due_after(asks, now);
        let rebid_at = self.rebid_after(opened, has_begun, now);
        let bids = self.bids_after(opened, has_begun, now);
        let round = Round {
            asked,
            owed: self.owes.intersection(reach),
            wake: wake(found.is_some, opened, due, rebid_at),
        };
        self.note(asks, asked, found.greatest);
        self.bid = opened.bid;
        self.joins = opened.is_joining;
        self.owes = Members::empty();
        self.due = due;
        self.rebid_at = rebid_at;
        self.bids = bids;
        round
    }
}

// What a node asks for: whether something was asked for, whether that is due, and whether something is new.
fn asks_by(has_asked: bool, is_due: bool, is_new: bool) -> Asks
    ensures { result ≡ asks_by has_asked is_due is_new }
{
    if has_asked && is_due {
        return Asks::Again;
    }
    if !is_new {
        return Asks::Nothing;
    }
    if has_asked { Asks::More } else { Asks::First }
}

// When to look again at the latest: never where nobody wishes for anything.
fn wake<Q: Quorums>(is_some: bool, opened: &Opened<'_, Q>, due: u64, rebid_at: u64) -> Option<u64>
    ensures { result ≡ wake_of is_some (seen opened.now) due rebid_at }
{
    if opened.bid.is_some() {
        return Some(due.min(rebid_at));
    }
    if is_some || opened.is_joining {
        Some(due)
    } else {
        None
    }
}
