//! How numbers are written in texts.
ghost use Rattle.std.specs.Prelude.{◌≡◌, ◌≢◌, ℕ, List, ◌<◌, ◌≤◌, ◌^◌, length, take, drop, decimal, IfSome, IfNone};
ghost use Rattle.std.specs.Str.Parse.{AllDigits, digits_value};
ghost use Rattle.rambo_names.specs.Signs.{starts_plainly, IsNumberEnd, BeginsWith};

/// The number that the bytes spell in plain decimal: 0 to 2^64 - 1, without a sign or a leading zero.
///
/// None where they spell no such number.
pub fn read_num(bytes: &[u8]) -> Option<u64>
    ensures found { IfSome result (λ n. bytes.now ≡ decimal n) }
    ensures none { IfNone result ((n : ℕ) → n < 2 ^ 64 → bytes.now ≢ decimal n) }
{
    let (number, rest) = leading_num(bytes)?;
    if rest.is_empty() { Some(number) } else { None }
}

/// The number that a line begins with, as `read_num` reads it, and what follows its last digit.
///
/// None where the digits that it begins with, all of them together, spell no such number.
#[inline]
pub fn leading_num(line: &[u8]) -> Option<(u64, &[u8])>
    ensures found { IfSome result (λ r. (r.0 < 2 ^ 64) × BeginsWith line.now (decimal r.0) r.1.now) }
    ensures none { IfNone result ((n : ℕ) (rest : List ℕ) → n < 2 ^ 64 → ¬ (BeginsWith line.now (decimal n) rest)) }
{
    let mut number = 0u64;
    for place in 0..line.len() {
        let byte = line[place];
        if !byte.is_ascii_digit() {
            return ended(line, place, number);
        }
        number = number.checked_mul(10)?.checked_add(u64::from(byte - b'0'))?;
    }
    ended(line, line.len(), number)
}

// The number that the digits before a place write, where they are all the digits at the beginning and are plain, and
// what follows them.
fn ended(line: &[u8], end: usize, number: u64) -> Option<(u64, &[u8])>
    requires within { end ≤ length line.now }
    requires digits { AllDigits 10 (take end line.now) }
    requires value { number ≡ digits_value 10 (take end line.now) }
    requires behind { IsNumberEnd (drop end line.now) }
    ensures found { IfSome result (λ r. (r.0 < 2 ^ 64) × BeginsWith line.now (decimal r.0) r.1.now) }
    ensures none { IfNone result ((n : ℕ) (rest : List ℕ) → n < 2 ^ 64 → ¬ (BeginsWith line.now (decimal n) rest)) }
{
    let (digits, rest) = line.split_at(end);
    if starts_plainly(digits) {
        Some((number, rest))
    } else {
        None
    }
}

// Whether a number may start so: with no sign, and with a zero only where it is all.
fn starts_plainly(bytes: &[u8]) -> bool
    ensures { result ≡ starts_plainly bytes.now }
{
    match bytes.split_first() {
        None => false,
        Some((first, rest)) => *first != b'+' && (*first != b'0' || rest.is_empty()),
    }
}
