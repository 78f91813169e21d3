//! What is whole at the beginning of some bytes.
ghost use Rattle.std.specs.Prelude.{◌≡◌, ◌≢◌, ℕ, ◌≤◌, ◌<◌, List, ◌++◌, IfNone, IfSome, length};
ghost use Rattle.std.specs.List.{flat_map, AllByRecursion};
ghost use Rattle.rambo_resp.specs.Spellings.{number_line, item_spelling, command_spelling};
ghost use Rattle.rambo_resp.specs.BriefCommands.{IsBrief, IsBriefCommand, items_of};

use crate::brief_command::BriefCommand;

/// The command of two or three items of at most 99 bytes at the beginning, and what follows its spelling.
///
/// None exactly where there is no such command: also where there is another one.
#[inline(always)]
pub fn brief_command(bytes: &[u8]) -> Option<(BriefCommand<'_>, &[u8])>
    ensures spelled { IfSome result (λ r. bytes.now ≡ command_spelling (items_of r.0) ++ r.1.now) }
    ensures brief { IfSome result (λ r. IsBriefCommand (items_of r.0)) }
    ensures none { IfNone result ((items : List (List ℕ)) (rest : List ℕ) → IsBriefCommand items → bytes.now ≢ command_spelling items ++ rest) }
{
    let (count, items) = count_line(bytes)?;
    match count {
        2 => two_items(items),
        3 => three_items(items),
        _ => None,
    }
}

// The command of two items of at most 99 bytes whose items are at the beginning, and what follows them.
#[inline(always)]
fn two_items(bytes: &[u8]) -> Option<(BriefCommand<'_>, &[u8])>
    ensures two { IfSome result (λ r. length (items_of r.0) ≡ 2) }
    ensures brief { IfSome result (λ r. AllByRecursion IsBrief (items_of r.0)) }
    ensures spelled { IfSome result (λ r. bytes.now ≡ flat_map item_spelling (items_of r.0) ++ r.1.now) }
    ensures none { IfNone result ((name word rest : List ℕ) → IsBrief name → IsBrief word → bytes.now ≢ item_spelling name ++ (item_spelling word ++ rest)) }
{
    let (name, behind) = whole_item(bytes)?;
    let (word, rest) = whole_item(behind)?;
    Some((BriefCommand::Two(name, word), rest))
}

// The command of three items of at most 99 bytes whose items are at the beginning, and what follows them.
#[inline(always)]
fn three_items(bytes: &[u8]) -> Option<(BriefCommand<'_>, &[u8])>
    ensures three { IfSome result (λ r. length (items_of r.0) ≡ 3) }
    ensures brief { IfSome result (λ r. AllByRecursion IsBrief (items_of r.0)) }
    ensures spelled { IfSome result (λ r. bytes.now ≡ flat_map item_spelling (items_of r.0) ++ r.1.now) }
    ensures none { IfNone result ((name first second rest : List ℕ) → IsBrief name → IsBrief first → IsBrief second → bytes.now ≢ item_spelling name ++ (item_spelling first ++ (item_spelling second ++ rest))) }
{
    let (name, behind_name) = whole_item(bytes)?;
    let (first, behind) = whole_item(behind_name)?;
    let (second, rest) = whole_item(behind)?;
    Some((BriefCommand::Three(name, first, second), rest))
}

/// The item of at most 99 bytes at the beginning, and what follows its spelling.
///
/// None exactly where there is no such item: also where there is a longer one.
#[inline(always)]
pub fn whole_item(bytes: &[u8]) -> Option<(&[u8], &[u8])>
    ensures spelled { IfSome result (λ r. bytes.now ≡ item_spelling r.0.now ++ r.1.now) }
    ensures few { IfSome result (λ r. length r.0.now ≤ 99) }
    ensures shorter { IfSome result (λ r. length r.1.now < length bytes.now) }
    ensures none { IfNone result ((item : List ℕ) (rest : List ℕ) → length item ≤ 99 → bytes.now ≢ item_spelling item ++ rest) }
{
    let (count, behind) = length_line(bytes)?;
    let (item, end) = behind.split_at_checked(count)?;
    match end {
        [b'\r', b'\n', rest @ ..] => Some((item, rest)),
        _ => None,
    }
}

/// The number of items that the line of an array at the beginning has, as one digit, and what follows the line.
///
/// None exactly where there is no such line: also where its number is 0, or has more digits.
pub fn count_line(bytes: &[u8]) -> Option<(u16, &[u8])>
    ensures spelled { IfSome result (λ r. bytes.now ≡ number_line 42 r.0 ++ r.1.now) }
    ensures few { IfSome result (λ r. (1 ≤ r.0) × (r.0 ≤ 9)) }
    ensures shorter { IfSome result (λ r. length r.1.now < length bytes.now) }
    ensures none { IfNone result ((n : ℕ) (rest : List ℕ) → 1 ≤ n → n ≤ 9 → bytes.now ≢ number_line 42 n ++ rest) }
{
    match bytes {
        [b'*', one @ b'1'..=b'9', b'\r', b'\n', rest @ ..] => {
            Some((u16::from(*one - b'0'), rest))
        }
        _ => None,
    }
}

// The length that a line has as one digit or two, and what follows the line.
#[inline(always)]
fn length_line(bytes: &[u8]) -> Option<(usize, &[u8])>
    ensures spelled { IfSome result (λ r. bytes.now ≡ number_line 36 r.0 ++ r.1.now) }
    ensures few { IfSome result (λ r. r.0 ≤ 99) }
    ensures shorter { IfSome result (λ r. length r.1.now < length bytes.now) }
    ensures none { IfNone result ((n : ℕ) (rest : List ℕ) → n ≤ 99 → bytes.now ≢ number_line 36 n ++ rest) }
{
    match bytes {
        [b'$', one @ b'0'..=b'9', b'\r', b'\n', rest @ ..] => {
            Some((usize::from(*one - b'0'), rest))
        }
        _ => two_digit_line(bytes),
    }
}

// The length that a line has as two digits, and what follows the line.
fn two_digit_line(bytes: &[u8]) -> Option<(usize, &[u8])>
    ensures spelled { IfSome result (λ r. bytes.now ≡ number_line 36 r.0 ++ r.1.now) }
    ensures few { IfSome result (λ r. r.0 ≤ 99) }
    ensures shorter { IfSome result (λ r. length r.1.now < length bytes.now) }
    ensures none { IfNone result ((n : ℕ) (rest : List ℕ) → 10 ≤ n → n ≤ 99 → bytes.now ≢ number_line 36 n ++ rest) }
{
    match bytes {
        [
            b'$',
            ten @ b'1'..=b'9',
            one @ b'0'..=b'9',
            b'\r',
            b'\n',
            rest @ ..,
        ] => {
            let tens = usize::from(*ten - b'0');
            Some((10 * tens + usize::from(*one - b'0'), rest))
        }
        _ => None,
    }
}
