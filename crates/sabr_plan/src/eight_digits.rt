//! The digits at the front of a text, read eight bytes at a time.

ghost use Rattle.std.specs.Prelude.{◌≡◌, ℕ, List, ◌+◌, ◌*◌, ◌%◌, ◌^◌, ◌<◌, ◌≤◌, length, map, take};
ghost use Rattle.core.specs.Dec2flt.Digits.{less_zero, IsEightBytes, IsEightDigits};
ghost use Rattle.core.specs.Float.Numeral.{digits_len};
ghost use Rattle.core.specs.Int.{w64, trailing_zeros};
ghost use Rattle.core.specs.Int.Digits.{AllBelowBase, number_from_digits};
ghost use Rattle.sabr_plan.specs.Digits.{SpellsNumber};
ghost use lib.Lanes.{digits_l, number_l};

use core::dec2flt::read_digits;

/// The byte `0`, eight times.
const ZEROS: u64 = 0x3030_3030_3030_3030;

/// Returns the first eight bytes as one number, of which the first byte is the lowest.
#[inline(always)]
pub fn first_eight(text: &[u8]) -> u64
    requires { 8 ≤ length text.now }
    ensures { result ≡ number_l 256 (take 8 text.now) }
{
    let Some(eight) = text.first_chunk::<8>() else {
        unreachable!();
    };
    u64::from_le_bytes(*eight)
}

/// Returns a number whose lowest set bit is the highest of the first byte that is at least 10, or 0 if there is no such
/// byte. Only that byte and those after it carry into the next one.
#[inline(always)]
pub fn mark_from_ten(word: u64) -> u64
    ensures none { result ≡ 0 → AllBelowBase 10 (digits_l 256 8 word) }
    ensures first { (text : List ℕ) → IsEightBytes text → word ≡ number_l 256 (map less_zero text) → 0 < result → (digits_len text < 8) × (trailing_zeros w64 result ≡ 8 * digits_len text + 7) }
{
    (word.wrapping_add(0x7676_7676_7676_7676) | word) & 0x8080_8080_8080_8080
}

/// Returns the value of seven decimal digits, each a byte from 0 to 9, of which the first is the lowest byte. The
/// eighth byte is ignored.
#[inline(always)]
fn value_of_seven(word: u64) -> u64
    ensures { (ds : List ℕ) → IsEightDigits ds → word * 256 % 2 ^ 64 ≡ number_l 256 ds → result ≡ number_from_digits 10 ds }
{
    let pairs = word.wrapping_mul(1 + (10 << 8)) & 0x00ff_00ff_00ff_00ff;
    let fours = pairs.wrapping_mul(1 + (100 << 16));
    (fours >> 16) % 65536 * 10_000 + (fours >> 48)
}

/// Returns the number of digits that a text begins with, and their value. Both are 0 if there are more than 19. It is a
/// function of its own, since most numbers are shorter than eight digits, with more text after them.
#[cold]
#[inline(never)]
pub fn count_any_digits(text: &[u8]) -> (usize, u64)
    ensures range { result.0 ≤ length text.now }
    ensures digits { SpellsNumber (take result.0 text.now) result.1 }
{
    let (count, value) = read_digits(text, 0, 0);
    if count > 19 {
        return (0, 0);
    }
    (count, value)
}

/// Returns the number of digits that a text of at least eight bytes begins with, and their value. Both are 0 if there
/// are more than 19. Up to seven digits are read from one load of eight bytes.
#[inline(always)]
pub fn count_digits(text: &[u8]) -> (usize, u64)
    requires { 8 ≤ length text.now }
    ensures range { result.0 ≤ length text.now }
    ensures digits { SpellsNumber (take result.0 text.now) result.1 }
{
    let lanes = first_eight(text) ^ ZEROS;
    let others = mark_from_ten(lanes);
    if others == 0 {
        return count_any_digits(text);
    }
    let before = others.trailing_zeros();
    // The digits are shifted up, so that the byte after them is the last.
    let digits = lanes << (63 - before);
    ((before / 8) as usize, value_of_seven(digits))
}
