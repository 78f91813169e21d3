//! What is found in an order in one pass over it.
ghost use Rattle.std.specs.Prelude.{◌≡◌, ◌+◌, ◌-◌, ◌<◌, ◌^◌, ◌&&◌, not, true, false, ℕ, List, length, Some, is_some, if◌then◌else◌, IfOk, IfErr, OnOk};
ghost use Rattle.std.specs.Option.{option_copied};
ghost use Rattle.rambo_history.specs.Histories.{call_in, answer_in, called_at, answered_at, is_before};
ghost use Rattle.rambo_history.specs.Proper.{after_op};
ghost use Rattle.rambo_atomic.specs.Findings.{is_from, past, rises_from};
ghost use Rattle.rambo_atomic.specs.Held.{held_of};
ghost use Rattle.rambo_atomic.specs.Scopes.{within};
ghost use Rattle.rambo_atomic.specs.Tallies.{how_many, is_answered_call};
ghost use Rattle.rambo_atomic.specs.Tests.{is_own, is_own_op, has_no_stranger, is_told, all_told, none_held, keeps_real_time};

use crate::held::Held;
use crate::scope::Scope;
use rambo_history::{CallId, Entry, History};
use rambo_names::Refusal;

/// What is found in an order.
#[derive(Clone, Copy)]
pub(crate) struct Findings {
    /// How many entries are answered calls of those within.
    pub answered: usize,
    /// Whether each entry is a call of those within, and a get only if it was answered.
    pub has_no_stranger: bool,
    /// Whether each get answers the latest set of its key before it, or nil. It says nothing where there is a stranger.
    pub is_latest: bool,
    /// Whether no call comes after one that was made after it was answered.
    pub keeps_real_time: bool,
    /// Whether each entry is a call that was made after those before it.
    pub is_rising: bool,
    // The place after the latest call, or 0 where there is no call.
    passed: usize,
}

/// What is found in an order, each entry of which is looked up once.
pub(crate) fn findings_in(
    history: &History,
    scope: Scope,
    order: &[CallId],
) -> Result<Findings, Refusal>
    requires { length history.now.events < 2 ^ 63 }
    ensures answered { IfOk result (λ f. f.answered ≡ how_many (is_answered_call history.now.events (within scope.entry)) order.now) }
    ensures no_stranger { IfOk result (λ f. f.has_no_stranger ≡ has_no_stranger history.now.events (within scope.entry) order.now) }
    ensures latest { IfOk result (λ f. f.has_no_stranger ≡ true → f.is_latest ≡ all_told history.now.events none_held order.now) }
    ensures real_time { IfOk result (λ f. f.keeps_real_time ≡ keeps_real_time history.now.events 0 order.now) }
    ensures rising { IfOk result (λ f. f.is_rising ≡ rises_from history.now.events 0 order.now) }
    ensures refused { IfErr result (λ r. r ≡ Refusal.OutOfMemory) }
{
    let mut findings = Findings {
        answered: 0,
        has_no_stranger: true,
        is_latest: true,
        keeps_real_time: true,
        is_rising: true,
        passed: 0,
    };
    let mut held = Held::new(history.allocator());
    let mut rest = order;
    while let Some((id, others)) = rest.split_first() {
        note(&mut findings, &mut held, history, scope, id)?;
        rest = others;
    }
    Ok(findings)
}

// Notes one entry more.
fn note<'a>(
    findings: &mut Findings,
    held: &mut Held<'a>,
    history: &'a History,
    scope: Scope,
    id: &CallId,
) -> Result<(), Refusal>
    requires fits { length history.now.events < 2 ^ 63 }
    requires counts { findings.old.answered + 1 < 2 ^ 64 }
    ensures answered { OnOk result (findings.new.answered ≡ findings.old.answered + (if is_answered_call history.now.events (within scope.entry) id.now then 1 else 0)) }
    ensures no_stranger { OnOk result (findings.new.has_no_stranger ≡ (findings.old.has_no_stranger && is_own history.now.events (within scope.entry) id.now)) }
    ensures latest { OnOk result (findings.new.has_no_stranger ≡ true → findings.new.is_latest ≡ (findings.old.is_latest && is_told (held_of scope.entry held.old.one held.old.each.entries) (call_in history.now.events id.now) (answer_in history.now.events id.now))) }
    ensures held { OnOk result (findings.new.has_no_stranger ≡ true → findings.new.is_latest ≡ true → (q : List ℕ) → held_of scope.entry held.new.one held.new.each.entries q ≡ after_op q (call_in history.now.events id.now) (held_of scope.entry held.old.one held.old.each.entries q)) }
    ensures real_time { OnOk result (findings.new.keeps_real_time ≡ (findings.old.keeps_real_time && not (is_before (findings.old.passed - 1) (answered_at history.now.events id.now)))) }
    ensures rising { OnOk result (findings.new.is_rising ≡ (findings.old.is_rising && is_from findings.old.passed (called_at history.now.events id.now))) }
    ensures passed { OnOk result (findings.new.passed ≡ past findings.old.passed (called_at history.now.events id.now)) }
    ensures refused { IfErr result (λ r. r ≡ Refusal.OutOfMemory) }
{
    let Some(entry) = history.entry(id) else {
        findings.has_no_stranger = false;
        findings.is_rising = false;
        return Ok(());
    };
    note_kind(findings, scope, &entry);
    if findings.has_no_stranger && findings.is_latest {
        findings.is_latest = held.take(scope, entry.op, entry.answer)?;
    }
    note_places(findings, &entry);
    Ok(())
}

// Notes what an entry asked, and whether it was answered.
fn note_kind(findings: &mut Findings, scope: Scope, entry: &Entry)
    requires counts { findings.old.answered + 1 < 2 ^ 64 }
    requires places { is_some entry.now.answered ≡ is_some (option_copied entry.now.answer) }
    ensures answered { findings.new.answered ≡ findings.old.answered + (if within scope.entry entry.now.op.now && is_some (option_copied entry.now.answer) then 1 else 0) }
    ensures no_stranger { findings.new.has_no_stranger ≡ (findings.old.has_no_stranger && is_own_op (within scope.entry) (is_some (option_copied entry.now.answer)) (Some entry.now.op.now)) }
    ensures others { findings.new ≡ record findings.old { answered = findings.new.answered; has_no_stranger = findings.new.has_no_stranger } }
{
    if !scope.has(entry.op) {
        findings.has_no_stranger = false;
    } else if entry.answered.is_some() {
        findings.answered += 1;
    } else if entry.op.is_get() {
        findings.has_no_stranger = false;
    }
}

// Notes where an entry was called and answered.
fn note_places(findings: &mut Findings, entry: &Entry)
    requires fits { entry.now.called < 2 ^ 63 }
    requires answered_behind { is_from findings.old.passed (Some entry.now.called) ≡ true → is_before (findings.old.passed - 1) entry.now.answered ≡ false }
    ensures real_time { findings.new.keeps_real_time ≡ (findings.old.keeps_real_time && not (is_before (findings.old.passed - 1) entry.now.answered)) }
    ensures rising { findings.new.is_rising ≡ (findings.old.is_rising && is_from findings.old.passed (Some entry.now.called)) }
    ensures passed { findings.new.passed ≡ past findings.old.passed (Some entry.now.called) }
    ensures others { findings.new ≡ record findings.old { keeps_real_time = findings.new.keeps_real_time; is_rising = findings.new.is_rising; passed = findings.new.passed } }
{
    // A call that was made after those before it wasn't answered before them.
    if findings.passed <= entry.called {
        findings.passed = entry.called + 1;
        return;
    }
    findings.is_rising = false;
    if is_early(findings.passed, entry.answered) {
        findings.keeps_real_time = false;
    }
}

// Whether an answer is before the call that is at the place before this one.
fn is_early(passed: usize, answered: Option<usize>) -> bool
    ensures { result ≡ is_before (passed - 1) answered }
{
    match answered {
        Some(answered) => 0 < passed && answered < passed - 1,
        None => false,
    }
}
