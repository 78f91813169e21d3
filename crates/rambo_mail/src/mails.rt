//! The mail of a book: which letters wait for which name.
ghost use Rattle.std.specs.Prelude.{◌≡◌, ◌-◌, ◌<◌, None, Some, [], drop, replicate, slice_get, option_to_list, OnOk, IfOk, IfErr};
ghost use Rattle.rambo_names.specs.Names.{IsName};
ghost use Rattle.rambo_run.specs.Actors.{sent_by};
ghost use Rattle.rambo_mail.specs.Waiting.{waiting_for, with_waiting, divides, left, sent, posted};

use crate::entry::Entry;
use crate::posting::Posting;
use crate::queue::Queue;
use rambo_names::{Name, Quorums, Refusal};
use rambo_run::Step;
use std::alloc::Global;
use std::marker::Model;

// So many names there are.
const NAMES: u64 = 64;

/// What waits for each name.
pub struct Mails {
    // Of the names 1, 2, ..
    queues: Vec<Queue>,
    lose: u64,
    twice: u64,
    // Whom there is room for a letter to.
    ready: Option<Name>,
}

// By hand, so that those who drop it needn't follow all that is in it.
impl Drop for Mails {
    fn drop(self) {
        let Mails {
            queues: _queues,
            lose: _,
            twice: _,
            ready: _,
        } = self;
    }
}

impl Model for Mails {
    ghost use Rattle.rambo_mail.specs.Queues.{lists_of, IsMail};
    ghost use Rattle.rambo_mail.specs.Waiting.{MailState};

    ghost Value = { MailState };

    ghost view = { λ m. record { waiting = lists_of m.queues.items; lose = m.lose; twice = m.twice; ready = m.ready } };

    ghost invariant = { λ m. IsMail m.queues.items m.ready };
}

// Whether each n-th is meant, and this is one. 0 means none.
fn divides(each: u64, number: u64) -> bool
    ensures { result ≡ divides each number }
{
    match number.checked_rem(each) {
        Some(rest) => rest == 0,
        None => false,
    }
}

// The place of a name in a list of all.
fn place_of(name: Name) -> usize
    ensures place { result ≡ name - 1 }
    ensures within { result < 64 }
    ensures named { IsName name }
{
    name.number() as usize - 1
}

impl Mails {
    /// No mail yet. Of the letters each is lost whose number `lose` divides, and each other waits twice whose number `twice`
    /// divides; 0 divides none.
    ///
    /// `OutOfMemory` where there is no room for it.
    pub fn new(alloc: Global, lose: u64, twice: u64) -> Result<Mails, Refusal>
        ensures none { IfOk result (λ m. m ≡ record { waiting = replicate 64 []; lose = lose; twice = twice; ready = None }) }
        ensures refused { IfErr result (λ r. r ≡ Refusal.OutOfMemory) }
    {
        let mut queues = Vec::new(alloc);
        for place in 0..NAMES {
            queues.push(Queue::new(alloc))?;
        }
        Ok(Mails {
            queues,
            lose,
            twice,
            ready: None,
        })
    }

    /// Makes room for the letter of a step, if it sends one, which may have to wait twice.
    ///
    /// `OutOfMemory` where there is none; there is then room for no letter.
    pub fn make_room<Q: Quorums>(&mut self, step: &Step<Q>) -> Result<(), Refusal>
        ensures same { self.new ≡ record self.old { ready = self.new.ready } }
        ensures ready { OnOk result (option_to_list self.new.ready ≡ sent_by step.now) }
        ensures refused { IfErr result (λ r. r ≡ Refusal.OutOfMemory) }
    {
        self.ready = None;
        let Step::Send(_, to) = step else {
            return Ok(());
        };
        self.queues[place_of(*to)].make_room()?;
        self.ready = Some(*to);
        Ok(())
    }

    /// The step was done, after which this many letters were sent, of which so many, the first, are gone. There is room for
    /// its letter, if it sends one. The letters that waited for its addressee for the longest time leave, as long as they
    /// are gone.
    pub fn post(&mut self, posting: &Posting, letters: usize, gone: usize)
        ensures { posting.now.to ≡ self.old.ready → self.new ≡ posted self.old posting.now letters gone }
    {
        if let Some(to) = posting.to {
            let entry = Entry {
                number: letters as u64,
                asks: posting.asks,
            };
            self.drop_gone(to, gone as u64);
            self.note_sent(to, entry);
        }
    }

    // The letters that waited for this name for the longest time leave, as long as they are gone.
    fn drop_gone(&mut self, to: Name, gone: u64)
        ensures { self.new ≡ left self.old to gone }
    {
        self.queues[place_of(to)].drop_gone(gone);
    }

    // The letter waits for this name, for which there is room.
    fn note_sent(&mut self, to: Name, entry: Entry)
        ensures { self.old.ready ≡ Some to → self.new ≡ sent self.old to entry }
    {
        self.ready = None;
        if divides(self.lose, entry.number) {
            return;
        }
        let twice = divides(self.twice, entry.number);
        let place = place_of(to);
        self.queues[place].push(entry);
        if twice {
            self.queues[place].push(entry);
        }
    }

    /// The letter that waits for a name for the longest time.
    pub fn first(&self, name: Name) -> Option<Entry>
        ensures { result ≡ slice_get (waiting_for self.now.waiting name) 0 }
    {
        self.queues[place_of(name)].first()
    }

    /// That letter waits no more.
    pub fn drop_first(&mut self, name: Name)
        ensures { self.new ≡ record self.old { waiting = with_waiting self.old.waiting name (drop 1 (waiting_for self.old.waiting name)) } }
    {
        self.queues[place_of(name)].drop_first();
    }
}
