//! The digits that a text begins with, eight bytes at a time.
ghost use Rattle.std.specs.Prelude.{◌≡◌, ◌==◌, ◌<◌, ◌≤◌, ◌^◌, ℕ, length, slice_index, take, if◌then◌else◌};
ghost use Rattle.std.specs.Char.{is_ascii_digit};
ghost use Rattle.std.specs.Int.{trailing_zeros, w64};
ghost use Rattle.std.specs.List.{prefix_len};
ghost use Rattle.pref_table.specs.Digits.{digit_at, eight_bytes, eight_digits};
ghost use Rattle.pref_table.specs.Fields.{AreLeadingDigits};

use std::simd::prelude::*;

/// Any number of so many digits fits a cell.
const PLAIN_DIGITS: usize = 18;

/// The digit 0 in each of eight bytes.
const ZEROS: u64 = 0x3030_3030_3030_3030;

/// The powers of ten up to the eighth.
const POWERS: [u64; 9] = [
    1,
    10,
    100,
    1_000,
    10_000,
    100_000,
    1_000_000,
    10_000_000,
    100_000_000,
];

/// The place of the lowest 1 of eight bits; 8 where there is none.
#[inline(always)]
fn lowest_of_eight(bits: u64) -> usize
    ensures { result ≡ (if bits == 0 then 8 else trailing_zeros w64 bits) }
{
    if bits == 0 {
        8
    } else {
        bits.trailing_zeros() as usize
    }
}

/// How many of the first eight bytes of a text come before one that is no digit.
#[inline(always)]
fn count_digits(text: &[u8]) -> usize
    requires { 8 ≤ length text.now }
    ensures { result ≡ prefix_len is_ascii_digit (take 8 text.now) }
{
    let values = u8x8::from_slice(text) - u8x8::splat(b'0');
    lowest_of_eight(values.simd_ge(u8x8::splat(10)).to_bitmask())
}

/// The first eight bytes of a text as a number, of which the first is the least.
#[inline(always)]
fn word(text: &[u8]) -> u64
    requires { 8 ≤ length text.now }
    ensures { result ≡ eight_bytes (λ k. slice_index text.now k) }
{
    u64::from_le_bytes([
        text[0], text[1], text[2], text[3], text[4], text[5], text[6], text[7],
    ])
}

/// The digits that a word begins with, as the last ones of eight, with zeros before them.
#[inline(always)]
fn aligned(word: u64, count: usize) -> u64
    requires some { 0 < count }
    requires few { count ≤ 8 }
    ensures { (byte : ℕ → ℕ) → ((k : ℕ) → byte k < 256) → word ≡ eight_bytes byte → ((k : ℕ) → k < count → (48 ≤ byte k) × (byte k < 58))
        → result ≡ eight_bytes (digit_at byte count) }
{
    word.wrapping_sub(ZEROS) << (64 - 8 * count)
}

/// The value of eight digits, one a byte: of pairs, of fours, and of all, each in the lower half of its place.
#[inline(always)]
fn value_of_eight(digits: u64) -> u64
    ensures { (digit : ℕ → ℕ) → ((k : ℕ) → k < 8 → digit k < 10) → digits ≡ eight_bytes digit → result ≡ eight_digits digit }
{
    let pairs = (digits.wrapping_mul(2_561) >> 8) & 0x00FF_00FF_00FF_00FF;
    let fours = (pairs.wrapping_mul(6_553_601) >> 16) & 0x0000_FFFF_0000_FFFF;
    fours.wrapping_mul(42_949_672_960_001) >> 32
}

/// The value of the digits among the first eight bytes of a text, before the first other byte, and how many they are.
#[inline(always)]
fn first_eight(text: &[u8]) -> (u64, usize)
    requires { 8 ≤ length text.now }
    ensures digits { AreLeadingDigits 8 text.now result.0 result.1 }
    ensures few { result.1 ≤ 8 }
{
    let count = count_digits(text);
    if count == 0 {
        return (0, 0);
    }
    (value_of_eight(aligned(word(text), count)), count)
}

/// Goes on from digits that were read, one by one. A call of its own, since few digits are read so.
#[inline(never)]
fn one_by_one(text: &[u8], so_far: u64, begin: usize) -> (u64, usize)
    requires few { begin ≤ 16 }
    requires digits { AreLeadingDigits begin text.now so_far begin }
    ensures { AreLeadingDigits 18 text.now result.0 result.1 }
{
    let most = text.len().min(PLAIN_DIGITS);
    let mut value = so_far;
    for place in begin..most {
        let byte = text[place];
        if !byte.is_ascii_digit() {
            return (value, place);
        }
        value = 10 * value + u64::from(byte - b'0');
    }
    (value, most)
}

/// Goes on from eight digits. A call of its own, since few fields have as many.
#[inline(never)]
fn more_digits(text: &[u8], eight: u64) -> (u64, usize)
    requires { AreLeadingDigits 8 text.now eight 8 }
    ensures { AreLeadingDigits 18 text.now result.0 result.1 }
{
    if text.len() < 16 {
        return one_by_one(text, eight, 8);
    }
    let (more, count) = first_eight(&text[8..]);
    let value = eight * POWERS[count] + more;
    if count < 8 {
        return (value, 8 + count);
    }
    one_by_one(text, value, 16)
}

/// The value of the digits that a text begins with, of which it takes at most 18, and how many it took.
#[inline(always)]
pub(crate) fn leading_digits(text: &[u8]) -> (u64, usize)
    ensures { AreLeadingDigits 18 text.now result.0 result.1 }
{
    if text.len() < 8 {
        return one_by_one(text, 0, 0);
    }
    let (value, count) = first_eight(text);
    if count < 8 {
        return (value, count);
    }
    more_digits(text, value)
}
