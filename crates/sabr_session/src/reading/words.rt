//! The words of a session text, separated by single spaces, and the numbers among them.

ghost use Rattle.std.specs.Prelude.{◌≡◌, ◌==◌, ◌≤◌, ◌∷◌, ◌<◌, Some, IfSome};
ghost use Rattle.std.specs.Option.{option_copied};
ghost use Rattle.sabr_plan.specs.Numbers.{number_within};
ghost use Rattle.sabr_session.specs.SessionWords.{words_of, words_after, most_number};

use itoa::Buffer;
use sabr_plan::{MAX_U32, first_piece, leading_number, number_within};

/// Reads the first word in one pass, if it has 1 to 19 digits without a leading zero, with a value from 1 to
/// 4294967295. Returns the word, the number, and the text after its space. `None` means: use the general reader.
#[inline(always)]
fn plain_number(text: &[u8]) -> Option<(&[u8], u64, Option<&[u8]>)>
    ensures words { IfSome result (λ r. words_of text.now ≡ r.0.now ∷ words_after (option_copied r.2)) }
    ensures number { IfSome result (λ r. number_within 1 most_number r.0.now ≡ Some r.1) }
    ensures limit { IfSome result (λ r. r.1 ≤ most_number) }
{
    let (value, word, after) = leading_number(text, 1, MAX_U32)?;
    if after.is_empty() {
        return Some((word, value, None));
    }
    let rest = after.strip_prefix(b" ")?;
    Some((word, value, Some(rest)))
}

/// Returns the first word, its value if that is a number from 1 to 4294967295, and the text after its space, if there
/// is one. A number of up to 19 digits is read in one pass.
#[inline(always)]
pub(crate) fn first_number(text: &[u8]) -> (&[u8], Option<u64>, Option<&[u8]>)
    ensures words { words_of text.now ≡ result.0.now ∷ words_after (option_copied result.2) }
    ensures number { result.1 ≡ number_within 1 most_number result.0.now }
    ensures limit { IfSome result.1 (λ n. n ≤ most_number) }
{
    if let Some((word, number, rest)) = plain_number(text) {
        return (word, Some(number), rest);
    }
    let (word, rest) = first_piece(text, b' ');
    (word, number_within(word, 1, MAX_U32), rest)
}

/// Reads a number up to 340282366920938463463374607431768211455, decimal without a sign or leading zero.
pub(crate) fn count_within(text: &[u8]) -> Option<u128>
    ensures { result ≡ number_within 0 340282366920938463463374607431768211455 text.now }
{
    let Ok(digits) = str::from_utf8(text) else {
        return None;
    };
    let Ok(count) = digits.parse::<u128>() else {
        return None;
    };
    let mut buffer = Buffer::new();
    if buffer.format(count).as_bytes() == text {
        Some(count)
    } else {
        None
    }
}
