//! What a byte of a command belongs to.
ghost use Rattle.std.specs.Prelude.{◌≡◌, ◌==◌, if◌then◌else◌};
ghost use Rattle.rambo_resp.specs.Rests.{goes_on, fault_of};
ghost use Rattle.rambo_resp.specs.Progresses.{grown, after};

use crate::fault::Fault;

/// The greatest number of items of a command.
const MOST_ITEMS: u16 = 128;

/// The greatest number of bytes of an item.
const MOST_BYTES: u16 = 4096;

/// What the next byte of a command belongs to.
// Counts of items are of those that are still to come.
#[derive(Clone, Copy)]
pub enum Awaited {
    /// The sign of an array.
    Star,
    /// The number of items, of which nothing has come.
    Count,
    /// The number of items, of which `-` has come.
    CountMinus,
    /// The end of the line of an array of `-1`.
    CountMinusOne,
    /// The number of items, of which this has come, or the end of its line.
    CountDigits(u16),
    /// The line feed after the number of items.
    CountFeed(u16),
    /// The line feed after `*-1`.
    NoCountFeed,
    /// The sign of an item.
    Dollar(u16),
    /// The length of an item, of which nothing has come.
    Length(u16),
    /// The length of an item, of which this has come, or the end of its line.
    LengthDigits(u16, u16),
    /// The line feed after the length of an item.
    LengthFeed(u16, u16),
    /// The bytes of an item, of which this many are still to come, or the carriage return after them.
    Bytes(u16, u16),
    /// The line feed after an item.
    ItemFeed(u16),
}

// What follows the one byte that is allowed here.
fn only(byte: u8, wanted: u8, next: Awaited) -> Option<Awaited>
    ensures { result ≡ (if byte == wanted then Some next else None) }
{
    if byte == wanted { Some(next) } else { None }
}

// The number with one digit more, where it is one of at most `most`.
fn grown(number: u16, byte: u8, most: u16) -> Option<u16>
    ensures { result ≡ grown number byte most }
{
    if number == 0 || !byte.is_ascii_digit() {
        return None;
    }
    let longer = 10 * u32::from(number) + u32::from(byte - b'0');
    if longer <= u32::from(most) {
        Some(longer as u16)
    } else {
        None
    }
}

/// What the byte after this one belongs to, and `Star` where a command, or an array of nothing, is whole with it.
///
/// None where the byte isn't allowed there.
pub fn after(awaited: Awaited, byte: u8) -> Option<Awaited>
    ensures { result ≡ after awaited byte }
{
    match awaited {
        Awaited::Star => only(byte, b'*', Awaited::Count),
        Awaited::Count if byte.is_ascii_digit() => Some(Awaited::CountDigits(u16::from(
            byte - b'0',
        ))),
        Awaited::Count => only(byte, b'-', Awaited::CountMinus),
        Awaited::CountMinus => only(byte, b'1', Awaited::CountMinusOne),
        Awaited::CountMinusOne => only(byte, b'\r', Awaited::NoCountFeed),
        Awaited::CountDigits(n) if byte == b'\r' => Some(Awaited::CountFeed(n)),
        Awaited::CountDigits(n) => Some(Awaited::CountDigits(grown(n, byte, MOST_ITEMS)?)),
        Awaited::CountFeed(0) | Awaited::NoCountFeed => only(byte, b'\n', Awaited::Star),
        Awaited::CountFeed(n) => only(byte, b'\n', Awaited::Dollar(n)),
        Awaited::Dollar(left) => only(byte, b'$', Awaited::Length(left)),
        Awaited::Length(left) => {
            if byte.is_ascii_digit() {
                Some(Awaited::LengthDigits(left, u16::from(byte - b'0')))
            } else {
                None
            }
        }
        Awaited::LengthDigits(left, n) if byte == b'\r' => Some(Awaited::LengthFeed(left, n)),
        Awaited::LengthDigits(left, n) => {
            Some(Awaited::LengthDigits(left, grown(n, byte, MOST_BYTES)?))
        }
        Awaited::LengthFeed(left, n) => only(byte, b'\n', Awaited::Bytes(left, n)),
        Awaited::Bytes(left, 0) => only(byte, b'\r', Awaited::ItemFeed(left)),
        Awaited::Bytes(left, more) => Some(Awaited::Bytes(left, more - 1)),
        Awaited::ItemFeed(0 | 1) => only(byte, b'\n', Awaited::Star),
        Awaited::ItemFeed(left) => only(byte, b'\n', Awaited::Dollar(left - 1)),
    }
}

/// The fault of a byte that isn't allowed there.
pub fn fault_of(awaited: Awaited, byte: u8, place: u64) -> Fault
    ensures { result ≡ fault_of awaited byte place }
{
    match awaited {
        Awaited::Star | Awaited::Dollar(_) => Fault::NotArray(place),
        Awaited::CountDigits(n) if n != 0 && byte.is_ascii_digit() => Fault::TooManyItems(place),
        Awaited::LengthDigits(_, n) if n != 0 && byte.is_ascii_digit() => Fault::ItemTooLong(place),
        Awaited::Count
        | Awaited::CountMinus
        | Awaited::CountMinusOne
        | Awaited::CountDigits(_)
        | Awaited::Length(_)
        | Awaited::LengthDigits(_, _) => Fault::BadLength(place),
        Awaited::CountFeed(_)
        | Awaited::NoCountFeed
        | Awaited::LengthFeed(_, _)
        | Awaited::Bytes(_, _)
        | Awaited::ItemFeed(_) => Fault::MissingCrlf(place),
    }
}
