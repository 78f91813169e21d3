//! A checker that allocates nothing.
ghost use Rattle.rambo_atomic.specs.Scopes.{IsVerdictIn};
ghost use Rattle.rambo_atomic.specs.Verdicts.{IsVerdict, IsVerdictForAll};

use crate::rules::{answers_latest, has_no_stranger, is_complete, is_distinct, keeps_real_time};
use crate::scope::Scope;
use crate::verdict::{Rule, Verdict};
use rambo_history::{CallId, History};

/// Whether an order of calls explains what a history says of a key, or the least rule that it breaks.
///
/// An order explains it if each answered call of the key is in it, and no call twice. Each entry is a call of the key,
/// and a get only if it was answered. Each get's answer is the value of the latest set before it, or nil. What was
/// answered before a call was made doesn't come after it (Herlihy and Wing, "Linearizability", TOPLAS 1990). The key is
/// any bytes, and the order any list.
///
/// It allocates nothing. The time grows with the product of the order's and the history's lengths; a `Checker` takes
/// memory and less time.
pub fn check(history: &History, key: &[u8], order: &[CallId]) -> Verdict
    ensures { IsVerdict history.now.events key.now order.now result }
{
    check_within(history, Scope::Key(key), order)
}

/// Whether one order of calls explains what a history says of all keys, or the least rule that it breaks.
///
/// An order explains it by the rules of `check`, with "of the key" left out. Each answered call is in it, and no call
/// twice. Each entry is a call, and a get only if it was answered. Each get's answer is the value of the latest set of
/// its key before it, or nil. What was answered before a call was made doesn't come after it. The order is any list.
///
/// It allocates nothing. The time grows with the product of the order's and the history's lengths; `judge_all` of a
/// `Checker` takes memory and less time.
pub fn check_all(history: &History, order: &[CallId]) -> Verdict
    ensures { IsVerdictForAll history.now.events order.now result }
{
    check_within(history, Scope::AllKeys, order)
}

// Whether an order explains what a history says of the calls within, or the least rule that it breaks.
fn check_within(history: &History, scope: Scope, order: &[CallId]) -> Verdict
    ensures { IsVerdictIn scope.entry history.now.events order.now result }
{
    if !is_complete(history, scope, order) {
        Verdict::No(Rule::Missing)
    } else if !is_distinct(order) {
        Verdict::No(Rule::Repeated)
    } else if !has_no_stranger(history, scope, order) {
        Verdict::No(Rule::Stranger)
    } else if !answers_latest(history, order) {
        Verdict::No(Rule::WrongAnswer)
    } else if !keeps_real_time(history, order) {
        Verdict::No(Rule::OutOfOrder)
    } else {
        Verdict::Yes
    }
}
