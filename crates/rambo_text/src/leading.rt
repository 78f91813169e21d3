//! Signs at the beginning of a line, for code that reads lines without a search for the ends of words.
ghost use Rattle.std.specs.Prelude.{◌≡◌, ◌≢◌, ◌∷◌, ℕ, List, decimal, IfSome, IfNone};
ghost use Rattle.rambo_names.specs.Names.{IsName};
ghost use Rattle.rambo_names.specs.Signs.{BeginsWith};
ghost use Rattle.rambo_history.specs.declared.event.CallId.{CallId};
ghost use Rattle.rambo_text.specs.Signs.{call_text, IsCall};

use rambo_history::CallId;
use rambo_names::{Name, leading_num};

/// The name that a line begins with, and what follows its last digit.
///
/// None where the digits that it begins with, all of them together, spell no name.
#[inline(always)]
pub fn leading_name(line: &[u8]) -> Option<(Name, &[u8])>
    ensures found { IfSome result (λ r. IsName r.0 × BeginsWith line.now (decimal r.0) r.1.now) }
    ensures none { IfNone result ((n : ℕ) (rest : List ℕ) → IsName n → ¬ (BeginsWith line.now (decimal n) rest)) }
{
    let (number, rest) = leading_num(line)?;
    match Name::new(number) {
        Ok(name) => Some((name, rest)),
        Err(_) => None,
    }
}

/// The call that a line begins with, and what follows its last digit.
///
/// None where what it begins with, with all of its digits, spells no call.
#[inline(always)]
pub fn leading_call(line: &[u8]) -> Option<(CallId, &[u8])>
    ensures found { IfSome result (λ r. IsCall r.0 × BeginsWith line.now (call_text r.0) r.1.now) }
    ensures none { IfNone result ((c : CallId) (rest : List ℕ) → IsCall c → ¬ (BeginsWith line.now (call_text c) rest)) }
{
    let Some(front) = leading_name(line) else {
        return None;
    };
    let (name, behind) = front;
    let digits = behind_dot(behind)?;
    let (number, rest) = leading_num(digits)?;
    if number == 0 {
        return None;
    }
    Some((CallId { name, number }, rest))
}

// What stands behind the dot that a text begins with.
#[inline(always)]
fn behind_dot(text: &[u8]) -> Option<&[u8]>
    ensures found { IfSome result (λ rest. text.now ≡ 46 ∷ rest.now) }
    ensures none { IfNone result ((rest : List ℕ) → text.now ≢ 46 ∷ rest) }
{
    match text {
        [b'.', rest @ ..] => Some(rest),
        _ => None,
    }
}
