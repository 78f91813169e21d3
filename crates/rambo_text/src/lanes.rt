//! Pairs of digits, sixteen bytes at once.
ghost use Rattle.std.specs.Prelude.{◌≡◌, ◌≢◌, ◌↔◌, ◌*◌, ◌+◌, ◌<◌, ◌/◌, ◌%◌, ℕ, List, map, length, IsTrue, IfSome, IfNone};
ghost use Rattle.std.specs.Simd.Lanes.{Each1, zip2};
ghost use Rattle.rambo_text.specs.Signs.{digit_of, pairs_text, AreBytes};
ghost use Rattle.rambo_text.specs.Lanes.{number_or_255, in_turn};

use std::simd::prelude::*;

/// The two digits of each of sixteen bytes.
#[inline(always)]
pub(crate) fn digits_of(bytes: &[u8; 16]) -> [u8; 32]
    ensures { result ≡ pairs_text bytes.now }
{
    let bytes = u8x16::from_array(*bytes);
    let highs = digits(bytes >> u8x16::splat(4));
    let lows = digits(bytes & u8x16::splat(15));
    joined(highs, lows)
}

// The digits of numbers below 16.
#[inline(always)]
fn digits(numbers: u8x16) -> u8x16
    requires { Each1 (λ n. n < 16) numbers }
    ensures { result ≡ map digit_of numbers }
{
    let zeros = numbers
        .simd_lt(u8x16::splat(10))
        .select(u8x16::splat(b'0'), u8x16::splat(b'a' - 10));
    zeros + numbers
}

// A lane of the one, a lane of the other, and so on.
#[inline(always)]
fn joined(highs: u8x16, lows: u8x16) -> [u8; 32]
    ensures { result ≡ in_turn highs lows }
{
    let (front, back) = highs.interleave(lows);
    let mut all = [0u8; 32];
    front.copy_to_slice(&mut all[..16]);
    back.copy_to_slice(&mut all[16..]);
    all
}

/// The bytes that so many digits spell.
///
/// None where they spell none.
#[inline(always)]
pub(crate) fn bytes_of(digits: &[u8; 32]) -> Option<[u8; 16]>
    ensures found { IfSome result (λ bs. AreBytes bs × (digits.now ≡ pairs_text bs)) }
    ensures none { IfNone result ((bs : List ℕ) → AreBytes bs → digits.now ≢ pairs_text bs) }
{
    let (highs, lows) = parted(digits);
    let highs = numbers(highs);
    let lows = numbers(lows);
    if are_below_16(highs, lows) {
        Some(bytes(highs, lows).to_array())
    } else {
        None
    }
}

// The digits at even places, and those at odd ones.
#[inline(always)]
fn parted(digits: &[u8; 32]) -> (u8x16, u8x16)
    ensures turned { digits.now ≡ in_turn result.0 result.1 }
    ensures len { length result.0 ≡ length result.1 }
{
    let front = u8x16::from_slice(&digits[..16]);
    let back = u8x16::from_slice(&digits[16..]);
    front.deinterleave(back)
}

// The numbers of digits, and 255 for what is no digit.
#[inline(always)]
fn numbers(digits: u8x16) -> u8x16
    ensures { result ≡ map number_or_255 digits }
{
    let letters = digits - u8x16::splat(b'a');
    let figures = digits - u8x16::splat(b'0');
    let of_letters = letters
        .simd_lt(u8x16::splat(6))
        .select(letters + u8x16::splat(10), u8x16::splat(255));
    figures
        .simd_lt(u8x16::splat(10))
        .select(figures, of_letters)
}

// Whether all numbers are below 16.
#[inline(always)]
fn are_below_16(highs: u8x16, lows: u8x16) -> bool
    ensures { IsTrue result ↔ (Each1 (λ n. n < 16) highs × Each1 (λ n. n < 16) lows) }
{
    highs.simd_max(lows).simd_lt(u8x16::splat(16)).all()
}

// The bytes of which these are the upper and the lower halves.
#[inline(always)]
fn bytes(highs: u8x16, lows: u8x16) -> u8x16
    requires highs { Each1 (λ n. n < 16) highs }
    requires lows { Each1 (λ n. n < 16) lows }
    ensures { result ≡ zip2 (λ h l. h * 16 + l) highs lows }
{
    (highs << u8x16::splat(4)) + lows
}
