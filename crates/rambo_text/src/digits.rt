//! Digits, written into the room of a text.
ghost use Rattle.std.specs.Prelude.{◌≡◌, ◌+◌, ◌*◌, ◌/◌, ◌%◌, ◌^◌, ◌<◌, ◌≤◌, ◌++◌, ◌∷◌, [], length, decimal, vec_len, vec_capacity};
ghost use Rattle.rambo_text.specs.Digits.{pair, four};
ghost use Rattle.rambo_text.specs.Signs.{digit_of, pairs_text};

use crate::lanes::digits_of;

/// How many digits the greatest number has.
pub(crate) const MOST_DIGITS: usize = 20;

// The two digits of each number below 100.
static PAIRS: [u8; 200] =
    *b"00010203040506070809101112131415161718192021222324252627282930313233343536373839404142434445464748495051525354555657585960616263646566676869707172737475767778798081828384858687888990919293949596979899";

// The two digits of each byte, to base 16.
static HEX_PAIRS: [[u8; 2]; 256] = [
    *b"00", *b"01", *b"02", *b"03", *b"04", *b"05", *b"06", *b"07", *b"08", *b"09", *b"0a", *b"0b",
    *b"0c", *b"0d", *b"0e", *b"0f", *b"10", *b"11", *b"12", *b"13", *b"14", *b"15", *b"16", *b"17",
    *b"18", *b"19", *b"1a", *b"1b", *b"1c", *b"1d", *b"1e", *b"1f", *b"20", *b"21", *b"22", *b"23",
    *b"24", *b"25", *b"26", *b"27", *b"28", *b"29", *b"2a", *b"2b", *b"2c", *b"2d", *b"2e", *b"2f",
    *b"30", *b"31", *b"32", *b"33", *b"34", *b"35", *b"36", *b"37", *b"38", *b"39", *b"3a", *b"3b",
    *b"3c", *b"3d", *b"3e", *b"3f", *b"40", *b"41", *b"42", *b"43", *b"44", *b"45", *b"46", *b"47",
    *b"48", *b"49", *b"4a", *b"4b", *b"4c", *b"4d", *b"4e", *b"4f", *b"50", *b"51", *b"52", *b"53",
    *b"54", *b"55", *b"56", *b"57", *b"58", *b"59", *b"5a", *b"5b", *b"5c", *b"5d", *b"5e", *b"5f",
    *b"60", *b"61", *b"62", *b"63", *b"64", *b"65", *b"66", *b"67", *b"68", *b"69", *b"6a", *b"6b",
    *b"6c", *b"6d", *b"6e", *b"6f", *b"70", *b"71", *b"72", *b"73", *b"74", *b"75", *b"76", *b"77",
    *b"78", *b"79", *b"7a", *b"7b", *b"7c", *b"7d", *b"7e", *b"7f", *b"80", *b"81", *b"82", *b"83",
    *b"84", *b"85", *b"86", *b"87", *b"88", *b"89", *b"8a", *b"8b", *b"8c", *b"8d", *b"8e", *b"8f",
    *b"90", *b"91", *b"92", *b"93", *b"94", *b"95", *b"96", *b"97", *b"98", *b"99", *b"9a", *b"9b",
    *b"9c", *b"9d", *b"9e", *b"9f", *b"a0", *b"a1", *b"a2", *b"a3", *b"a4", *b"a5", *b"a6", *b"a7",
    *b"a8", *b"a9", *b"aa", *b"ab", *b"ac", *b"ad", *b"ae", *b"af", *b"b0", *b"b1", *b"b2", *b"b3",
    *b"b4", *b"b5", *b"b6", *b"b7", *b"b8", *b"b9", *b"ba", *b"bb", *b"bc", *b"bd", *b"be", *b"bf",
    *b"c0", *b"c1", *b"c2", *b"c3", *b"c4", *b"c5", *b"c6", *b"c7", *b"c8", *b"c9", *b"ca", *b"cb",
    *b"cc", *b"cd", *b"ce", *b"cf", *b"d0", *b"d1", *b"d2", *b"d3", *b"d4", *b"d5", *b"d6", *b"d7",
    *b"d8", *b"d9", *b"da", *b"db", *b"dc", *b"dd", *b"de", *b"df", *b"e0", *b"e1", *b"e2", *b"e3",
    *b"e4", *b"e5", *b"e6", *b"e7", *b"e8", *b"e9", *b"ea", *b"eb", *b"ec", *b"ed", *b"ee", *b"ef",
    *b"f0", *b"f1", *b"f2", *b"f3", *b"f4", *b"f5", *b"f6", *b"f7", *b"f8", *b"f9", *b"fa", *b"fb",
    *b"fc", *b"fd", *b"fe", *b"ff",
];

/// Appends the digits of a number to a text that has room for them.
pub(crate) fn push_num(number: u64, out: &mut Vec<u8>)
    requires { vec_len out.old + length (decimal number) ≤ vec_capacity out.old }
    ensures items { out.new.items ≡ out.old.items ++ decimal number }
    ensures len { vec_len out.new ≡ vec_len out.old + length (decimal number) }
    ensures capacity { vec_capacity out.new ≡ vec_capacity out.old }
{
    if number < 100_000_000 {
        push_short(number, out);
    } else {
        push_num(number / 10_000, out);
        push_four(number % 10_000, out);
    }
}

// Appends at most eight digits.
fn push_short(number: u64, out: &mut Vec<u8>)
    requires low { number < 10 ^ 8 }
    requires room { vec_len out.old + length (decimal number) ≤ vec_capacity out.old }
    ensures items { out.new.items ≡ out.old.items ++ decimal number }
    ensures len { vec_len out.new ≡ vec_len out.old + length (decimal number) }
    ensures capacity { vec_capacity out.new ≡ vec_capacity out.old }
{
    if number < 10_000 {
        push_front(number, out);
    } else {
        push_front(number / 10_000, out);
        push_four(number % 10_000, out);
    }
}

// Appends at most four digits.
fn push_front(number: u64, out: &mut Vec<u8>)
    requires low { number < 10 ^ 4 }
    requires room { vec_len out.old + length (decimal number) ≤ vec_capacity out.old }
    ensures items { out.new.items ≡ out.old.items ++ decimal number }
    ensures len { vec_len out.new ≡ vec_len out.old + length (decimal number) }
    ensures capacity { vec_capacity out.new ≡ vec_capacity out.old }
{
    if number < 100 {
        push_first(number, out);
    } else {
        push_first(number / 100, out);
        push_pair(number % 100, out);
    }
}

// Appends one digit, or two.
fn push_first(number: u64, out: &mut Vec<u8>)
    requires low { number < 100 }
    requires room { vec_len out.old + length (decimal number) ≤ vec_capacity out.old }
    ensures items { out.new.items ≡ out.old.items ++ decimal number }
    ensures len { vec_len out.new ≡ vec_len out.old + length (decimal number) }
    ensures capacity { vec_capacity out.new ≡ vec_capacity out.old }
{
    if number < 10 {
        out.push_reserved(b'0' + number as u8);
    } else {
        push_pair(number, out);
    }
}

// Appends four digits, with zeros in front of a number that has fewer.
fn push_four(number: u64, out: &mut Vec<u8>)
    requires low { number < 10 ^ 4 }
    requires room { vec_len out.old + 4 ≤ vec_capacity out.old }
    ensures items { out.new.items ≡ out.old.items ++ four number }
    ensures len { vec_len out.new ≡ vec_len out.old + 4 }
    ensures capacity { vec_capacity out.new ≡ vec_capacity out.old }
{
    push_pair(number / 100, out);
    push_pair(number % 100, out);
}

// Appends two digits, with a zero in front of a number that has one.
fn push_pair(number: u64, out: &mut Vec<u8>)
    requires low { number < 100 }
    requires room { vec_len out.old + 2 ≤ vec_capacity out.old }
    ensures items { out.new.items ≡ out.old.items ++ pair number }
    ensures len { vec_len out.new ≡ vec_len out.old + 2 }
    ensures capacity { vec_capacity out.new ≡ vec_capacity out.old }
{
    let place = number as usize * 2;
    out.push_reserved(PAIRS[place]);
    out.push_reserved(PAIRS[place + 1]);
}

/// Appends the two digits of each byte, to base 16, to a text that has room for them.
pub(crate) fn push_pairs(bytes: &[u8], out: &mut Vec<u8>)
    requires { vec_len out.old + 2 * length bytes.now ≤ vec_capacity out.old }
    ensures items { out.new.items ≡ out.old.items ++ pairs_text bytes.now }
    ensures len { vec_len out.new ≤ vec_len out.old + 2 * length bytes.now }
    ensures capacity { vec_capacity out.old ≤ vec_capacity out.new }
{
    let mut rest = bytes;
    while let Some((sixteen, others)) = rest.split_first_chunk::<16>() {
        push_sixteen(sixteen, out);
        rest = others;
    }
    while let Some((eight, others)) = rest.split_first_chunk::<8>() {
        push_eight(eight, out);
        rest = others;
    }
    for byte in rest {
        push_byte(*byte, out);
    }
}

// Appends the digits of sixteen bytes.
fn push_sixteen(bytes: &[u8; 16], out: &mut Vec<u8>)
    requires { vec_len out.old + 32 ≤ vec_capacity out.old }
    ensures items { out.new.items ≡ out.old.items ++ pairs_text bytes.now }
    ensures len { vec_len out.new ≡ vec_len out.old + 32 }
    ensures capacity { vec_capacity out.old ≤ vec_capacity out.new }
{
    let _ = out.extend_from_slice(&digits_of(bytes));
}

// Appends the digits of eight bytes: the text is lengthened once.
fn push_eight(bytes: &[u8; 8], out: &mut Vec<u8>)
    requires { vec_len out.old + 16 ≤ vec_capacity out.old }
    ensures items { out.new.items ≡ out.old.items ++ pairs_text bytes.now }
    ensures len { vec_len out.new ≡ vec_len out.old + 16 }
    ensures capacity { vec_capacity out.old ≤ vec_capacity out.new }
{
    let [first, second, third, fourth, fifth, sixth, seventh, eighth] = bytes;
    let pairs = [
        pair_of(*first),
        pair_of(*second),
        pair_of(*third),
        pair_of(*fourth),
        pair_of(*fifth),
        pair_of(*sixth),
        pair_of(*seventh),
        pair_of(*eighth),
    ];
    let _ = out.extend_from_slice(pairs.as_flattened());
}

// Appends the digits of a byte.
fn push_byte(byte: u8, out: &mut Vec<u8>)
    requires { vec_len out.old + 2 ≤ vec_capacity out.old }
    ensures items { out.new.items ≡ out.old.items ++ pairs_text (byte ∷ []) }
    ensures len { vec_len out.new ≡ vec_len out.old + 2 }
    ensures capacity { vec_capacity out.old ≤ vec_capacity out.new }
{
    let _ = out.extend_from_slice(&pair_of(byte));
}

// The digits of a byte.
fn pair_of(byte: u8) -> [u8; 2]
    ensures { result ≡ pairs_text (byte ∷ []) }
{
    HEX_PAIRS[byte as usize]
}
