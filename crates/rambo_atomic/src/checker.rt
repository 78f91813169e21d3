//! A checker for many keys.
ghost use Rattle.std.specs.Prelude.{◌≡◌, ◌+◌, ◌<◌, ◌^◌, ℕ, List, is_some, if◌then◌else◌, IfOk, IfErr, OnOk};
ghost use Rattle.std.specs.Str.{bytes_eq};
ghost use Rattle.rambo_history.specs.Histories.{answer_in};
ghost use Rattle.rambo_atomic.specs.Scopes.{within, IsVerdictIn};
ghost use Rattle.rambo_atomic.specs.Tallies.{how_many, count_at, count_with};
ghost use Rattle.rambo_atomic.specs.Tests.{is_due};
ghost use Rattle.rambo_atomic.specs.Verdicts.{IsVerdict, IsVerdictForAll};

use crate::findings::findings_in;
use crate::repeats::repeats_in;
use crate::scope::Scope;
use crate::verdict::{Rule, Verdict};
use rambo_history::{CallId, Event, History};
use rambo_names::Refusal;
use std::collections::HashMap;
use std::marker::Model;

/// A checker of the orders that may explain one history.
#[derive(Drop)]
pub struct Checker<'a> {
    history: &'a History,
    // How many answered calls of each key the history has.
    answered: HashMap<&'a [u8], usize>,
    // And how many of all keys.
    all_answered: usize,
}

impl<'a> Model for Checker<'a> {
    ghost use Rattle.std.specs.Prelude.{◌≡◌, ◌<◌, ◌^◌, List, length};
    ghost use Rattle.rambo_history.specs.declared.event.Event.{Event};
    ghost use Rattle.rambo_history.specs.Forms.{IsWellFormed};
    ghost use Rattle.rambo_atomic.specs.Tallies.{IsTallied, all_due};

    ghost Value = { List Event };

    ghost view = { λ c. c.history.now.events };

    ghost invariant = { λ c. IsTallied c.history.now.events c.answered.entries × IsWellFormed c.history.now.events × (c.all_answered ≡ all_due c.history.now.events) × (length c.history.now.events < 2 ^ 63) };
}

impl<'a> Checker<'a> {
    /// A checker of the orders that may explain a history. The time is linear in the history's length.
    ///
    /// `OutOfMemory` where there is no room for a count of each key.
    pub fn new(history: &'a History) -> Result<Checker<'a>, Refusal>
        ensures made { IfOk result (λ checker. checker ≡ history.now.events) }
        ensures refused { IfErr result (λ r. r ≡ Refusal.OutOfMemory) }
    {
        let mut answered = HashMap::new(history.allocator());
        let mut run = Run { key: &[], len: 0 };
        let mut all_answered = 0;
        let mut rest = history.events();
        while let Some((event, others)) = rest.split_first() {
            if let Event::Call(id, op) = event {
                if is_answered(history, id) {
                    count_next(&mut answered, &mut run, op.key().as_slice())?;
                    all_answered += 1;
                }
            }
            rest = others;
        }
        count(&mut answered, run.key, run.len)?;
        Ok(Checker {
            history,
            answered,
            all_answered,
        })
    }

    /// Whether an order of calls explains what the history says of a key, or the least rule that it breaks: what
    /// `check` returns. The key is any bytes, and the order any list.
    ///
    /// The time is linear in the order's length, and doesn't grow with the history's. `OutOfMemory` where
    /// there is no room for a set of the order's calls.
    pub fn judge(&self, key: &[u8], order: &[CallId]) -> Result<Verdict, Refusal>
        ensures verdict { IfOk result (IsVerdict self.now key.now order.now) }
        ensures refused { IfErr result (λ r. r ≡ Refusal.OutOfMemory) }
    {
        self.judge_within(Scope::Key(key), order)
    }

    /// Whether one order of calls explains what the history says of all keys, or the least rule that it breaks: what
    /// `check_all` returns. The order is any list.
    ///
    /// The time is linear in the order's length, and doesn't grow with the history's. `OutOfMemory` where there is no room
    /// for a set of the order's calls and for what each key holds.
    pub fn judge_all(&self, order: &[CallId]) -> Result<Verdict, Refusal>
        ensures verdict { IfOk result (IsVerdictForAll self.now order.now) }
        ensures refused { IfErr result (λ r. r ≡ Refusal.OutOfMemory) }
    {
        self.judge_within(Scope::AllKeys, order)
    }

    // Whether an order explains what the history says of the calls within, or the least rule that it breaks.
    fn judge_within(&self, scope: Scope, order: &[CallId]) -> Result<Verdict, Refusal>
        ensures verdict { IfOk result (IsVerdictIn scope.entry self.now order.now) }
        ensures refused { IfErr result (λ r. r ≡ Refusal.OutOfMemory) }
    {
        let findings = findings_in(self.history, scope, order)?;
        let repeats = repeats_in(self.history, scope, order, findings.is_rising)?;
        Ok(if findings.answered - repeats.answered < self.due(scope) {
            Verdict::No(Rule::Missing)
        } else if !repeats.are_none {
            Verdict::No(Rule::Repeated)
        } else if !findings.has_no_stranger {
            Verdict::No(Rule::Stranger)
        } else if !findings.is_latest {
            Verdict::No(Rule::WrongAnswer)
        } else if !findings.keeps_real_time {
            Verdict::No(Rule::OutOfOrder)
        } else {
            Verdict::Yes
        })
    }

    // How many answered calls of those within the history has.
    fn due(&self, scope: Scope) -> usize
        ensures { result ≡ how_many (is_due self.now (within scope.entry)) self.now }
    {
        match scope {
            Scope::Key(key) => count_at(&self.answered, key),
            Scope::AllKeys => self.all_answered,
        }
    }
}

// The count at a key, or 0.
fn count_at(counts: &HashMap<&[u8], usize>, key: &[u8]) -> usize
    ensures { result ≡ count_at counts.now.entries key.now }
{
    match counts.get(&key) {
        Some(count) => *count,
        None => 0,
    }
}

// Whether a call was answered.
fn is_answered(history: &History, id: &CallId) -> bool
    ensures { result ≡ is_some (answer_in history.now.events id.now) }
{
    history.answered_at(id).is_some()
}

// How many calls in a row are of a key.
#[derive(Clone, Copy)]
struct Run<'a> {
    key: &'a [u8],
    len: usize,
}

// Counts one call more, of a key. Those at the end that are in a row are counted in the run, and not yet at their key.
fn count_next<'a>(
    counts: &mut HashMap<&'a [u8], usize>,
    run: &mut Run<'a>,
    key: &'a [u8],
) -> Result<(), Refusal>
    requires { (q : List ℕ) → count_with counts.old.entries run.old.key.now run.old.len q < 2 ^ 63 }
    ensures counted { OnOk result ((q : List ℕ) → count_with counts.new.entries run.new.key.now run.new.len q ≡ count_with counts.old.entries run.old.key.now run.old.len q + (if bytes_eq key.now q then 1 else 0)) }
    ensures refused { IfErr result (λ r. r ≡ Refusal.OutOfMemory) }
{
    if run.key == key {
        run.len += 1;
        return Ok(());
    }
    count(counts, run.key, run.len)?;
    *run = Run { key, len: 1 };
    Ok(())
}

// Counts some more at a key.
fn count<'a>(
    counts: &mut HashMap<&'a [u8], usize>,
    key: &'a [u8],
    more: usize,
) -> Result<(), Refusal>
    requires { count_at counts.old.entries key.now + more < 2 ^ 64 }
    ensures counted { OnOk result ((q : List ℕ) → count_at counts.new.entries q ≡ count_with counts.old.entries key.now more q) }
    ensures refused { IfErr result (λ r. r ≡ Refusal.OutOfMemory) }
{
    if more == 0 {
        return Ok(());
    }
    if let Some(count) = counts.get_mut(&key) {
        *count += more;
        return Ok(());
    }
    counts.insert(key, more)?;
    Ok(())
}
