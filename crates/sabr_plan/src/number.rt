//! Numbers in decimal digits.

ghost use Rattle.std.specs.Prelude.{◌≡◌, ◌<◌, ◌≤◌, ◌+◌, ◌-◌, ◌++◌, Some, None, IfSome, IsTrue, IsFalse, false, if◌then◌else◌, ◌&&◌, nat_lt, length};
ghost use Rattle.std.specs.List.{list_all};
ghost use Rattle.std.specs.Str.Parse.{digits_value};
ghost use Rattle.sabr_plan.specs.Digits.{is_digit, are_digits, leads_with_zero, SpellsNumber};
ghost use Rattle.sabr_plan.specs.Numbers.{number_within};

use crate::eight_digits::{count_any_digits, count_digits};

/// The largest number of 32 bits, the type of contact numbers, of margins in parts a million, and of limits on hops.
pub const MAX_U32: u64 = u32::MAX as u64;

/// Returns the value of a word of digits. `None` for an empty word, another byte, or a value of 2^64 or more.
#[tactic(auto, using(crate::proofs::SpelledNumbers::take_digit, crate::proofs::SpelledNumbers::take_digits, crate::proofs::SpelledNumbers::small_value_over))]
pub fn digits_value(word: &[u8]) -> Option<u64>
    ensures { result ≡ (if are_digits word.now && nat_lt (digits_value 10 word.now) 18446744073709551616 then Some (digits_value 10 word.now) else None) }
{
    if word.is_empty() {
        return None;
    }
    let mut value: u64 = 0;
    for byte in word {
        if !byte.is_ascii_digit() {
            return None;
        }
        value = value.checked_mul(10)?.checked_add((byte - b'0') as u64)?;
    }
    Some(value)
}

/// Returns true if there is more than one digit, and the first is `0`.
pub fn leads_with_zero(word: &[u8]) -> bool
    ensures { result ≡ leads_with_zero word.now }
{
    word.len() > 1 && word[0] == b'0'
}

/// Returns the value of a text of decimal digits without a sign or leading zero (this project's profile). `None` for
/// any other text, or if the value is below `low` or above `high`. Its time grows with the text's length.
#[tactic(auto, using(crate::proofs::SpelledNumbers::within_none))]
pub fn number_within(text: &[u8], low: u64, high: u64) -> Option<u64>
    ensures value { result ≡ number_within low high text.now }
    ensures range { IfSome result (λ n. (low ≤ n) × (n ≤ high)) }
{
    let value = digits_value(text)?;
    if leads_with_zero(text) || value < low || value > high {
        return None;
    }
    Some(value)
}

/// Returns the value of the digits at the front of a text of at least eight bytes, those digits, and the text after them.
/// There are no digits if the text begins with more than 19.
#[inline(always)]
pub fn leading_digits(text: &[u8]) -> (u64, &[u8], &[u8])
    requires { 8 ≤ length text.now }
    ensures parts { text.now ≡ result.1.now ++ result.2.now }
    ensures digits { SpellsNumber result.1.now result.0 }
{
    let (count, value) = count_digits(text);
    let (digits, rest) = text.split_at(count);
    (value, digits, rest)
}

/// Returns false only if a word of digits with this value has a digit and no leading zero.
#[inline(always)]
fn starts_amiss(word: &[u8], value: u64) -> bool
    requires { 0 < value → 0 < length word.now }
    ensures { IsFalse result → (0 < length word.now) × (leads_with_zero word.now ≡ false) }
{
    if value > 0 {
        word[0] == b'0'
    } else {
        word.len() != 1
    }
}

/// Returns the value of a word of digits, if it is from `low` to `high` and the word has no leading zero.
#[inline(always)]
pub fn checked_value(value: u64, word: &[u8], low: u64, high: u64) -> Option<u64>
    requires { SpellsNumber word.now value }
    ensures some { IfSome result (λ _. 0 < length word.now) }
    ensures value { IfSome result (λ n. number_within low high word.now ≡ Some n) }
    ensures range { IfSome result (λ n. (low ≤ n) × (n ≤ high)) }
{
    if value < low || value > high || starts_amiss(word, value) {
        return None;
    }
    Some(value)
}

/// Returns the value of the digits at the front of a text, those digits, and the text after them. There are 1 to 19
/// digits without a leading zero, and the value is from `low` to `high`. `None` means: use [`number_within`], which
/// also accepts 20 digits.
#[inline(always)]
pub fn leading_number(text: &[u8], low: u64, high: u64) -> Option<(u64, &[u8], &[u8])>
    ensures parts { IfSome result (λ r. text.now ≡ r.1.now ++ r.2.now) }
    ensures digits { IfSome result (λ r. (0 < length r.1.now) × IsTrue (list_all is_digit r.1.now)) }
    ensures value { IfSome result (λ r. number_within low high r.1.now ≡ Some r.0) }
    ensures range { IfSome result (λ r. (low ≤ r.0) × (r.0 ≤ high)) }
{
    let (count, value) = if text.len() < 8 {
        count_any_digits(text)
    } else {
        count_digits(text)
    };
    let (word, rest) = text.split_at(count);
    let value = checked_value(value, word, low, high)?;
    Some((value, word, rest))
}
