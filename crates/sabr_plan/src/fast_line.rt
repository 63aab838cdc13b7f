//! A fast reader of additions, in one pass over a line. It leaves all other lines to the general reader.

ghost use Rattle.std.specs.Prelude.{◌≡◌, ◌≢◌, ◌+◌, ◌<◌, ◌≤◌, ◌∷◌, length, Ok, Some, IfSome, IsFalse};
ghost use Rattle.sabr_plan.specs.Numbers.{number_within};
ghost use Rattle.sabr_plan.specs.PlainWords.{IsAfterBlanks, IsFront, IsAhead, BeginsWithLine, AddsAhead};
ghost use Rattle.sabr_plan.specs.Operands.{time_at};
ghost use Rattle.sabr_plan.specs.Commands.{line_command};
ghost use Rattle.sabr_plan.specs.Words.{is_one_line};

use crate::command::{Addition, Command, Target};
use crate::eight_digits::first_eight;
use crate::known_day::KnownDay;
use crate::number::{checked_value, leading_digits};
use crate::operand::{Reference, largest_value};
use crate::words::is_blank;

/// The most bytes of an operand that this reader takes: those of an absolute time, or of a number.
const WORD_BYTES: usize = 19;

/// The same with a space before it.
const SPACED_BYTES: usize = 20;

/// The most bytes of such a line with one space before each word: `a contact` and five operands.
const LINE_BYTES: usize = 109;

/// The bytes `a contac` as one number, of which the first byte is the lowest.
const A_CONTAC: u64 = 0x6361_746e_6f63_2061;

/// The bytes `a range ` as one number, of which the first byte is the lowest.
const A_RANGE: u64 = 0x2065_676e_6172_2061;

/// Returns the text after a byte, if a text begins with that byte.
#[inline(always)]
fn after_byte(text: &[u8], byte: u8) -> Option<&[u8]>
    requires ended { IsFalse (is_one_line text.now) }
    requires other { byte ≢ 10 }
    ensures parts { IfSome result (λ r. text.now ≡ byte ∷ r.now) }
    ensures ended { IfSome result (λ r. IsFalse (is_one_line r.now)) }
{
    if text[0] != byte {
        return None;
    }
    Some(&text[1..])
}

/// Returns a text from its first byte on that is no blank. It is a function of its own, since most lines have one space
/// before each word, and no other blanks.
#[cold]
#[inline(never)]
fn after_blanks(text: &[u8]) -> &[u8]
    requires { IsFalse (is_one_line text.now) }
    ensures blanks { IsAfterBlanks text.now result.now }
    ensures ended { IsFalse (is_one_line result.now) }
{
    let mut count = 0;
    while is_blank(text[count]) {
        count += 1;
    }
    &text[count..]
}

/// Returns the text after the LF, if only blanks come before it.
#[inline(always)]
fn after_end(text: &[u8]) -> Option<&[u8]>
    requires { IsFalse (is_one_line text.now) }
    ensures { IfSome result (λ r. IsAfterBlanks text.now (10 ∷ r.now)) }
{
    if text[0] == b'\n' {
        return Some(&text[1..]);
    }
    let end = after_blanks(text);
    if end[0] != b'\n' {
        return None;
    }
    Some(&end[1..])
}

/// Returns the text after the blanks at its front, if there is at least one, and if at least `room` bytes follow.
#[tactic(auto, using(crate::proofs::PlainWords::one_space))]
#[inline(always)]
fn after_gap(text: &[u8], room: usize) -> Option<&[u8]>
    requires ended { IsFalse (is_one_line text.now) }
    requires room { room < length text.now }
    ensures gap { IfSome result (λ r. IsAfterBlanks text.now r.now × (length r.now < length text.now)) }
    ensures ended { IfSome result (λ r. IsFalse (is_one_line r.now)) }
    ensures room { IfSome result (λ r. room ≤ length r.now) }
{
    if let Some(start) = after_byte(text, b' ') {
        if start[0] > b' ' {
            return Some(start);
        }
    }
    let start = after_blanks(text);
    if start.len() == text.len() || start.len() < room {
        return None;
    }
    Some(start)
}

/// Reads a number at the front of a text, after blanks. Returns the number and the text after it, of at least `room`
/// bytes. `None` means: use the general reader.
#[inline(always)]
fn number_ahead(low: u64, high: u64, text: &[u8], room: usize) -> Option<(u64, &[u8])>
    requires ended { IsFalse (is_one_line text.now) }
    requires room { room + 19 < length text.now }
    ensures word { IfSome result (λ r. IsAhead (λ w. number_within low high w ≡ Some r.0) text.now r.1.now) }
    ensures ended { IfSome result (λ r. IsFalse (is_one_line r.1.now)) }
    ensures room { IfSome result (λ r. room ≤ length r.1.now) }
{
    let start = after_gap(text, room + WORD_BYTES)?;
    let (value, digits, rest) = leading_digits(start);
    let value = checked_value(value, digits, low, high)?;
    Some((value, rest))
}

/// Reads a time at the front of a text. Returns the time and the text after it. `None` means: use the general reader.
#[inline(always)]
fn time_front<'a>(
    reference: &Reference,
    day: &mut KnownDay,
    text: &'a [u8],
) -> Option<(u64, &'a [u8])>
    requires ended { IsFalse (is_one_line text.now) }
    requires room { 19 ≤ length text.now }
    ensures word { IfSome result (λ r. IsFront (λ w. time_at reference.now w ≡ Ok r.0) text.now r.1.now) }
    ensures room { IfSome result (λ r. length text.now ≤ length r.1.now + 19) }
{
    if let Some(text) = after_byte(text, b'+') {
        let (seconds, digits, rest) = leading_digits(text);
        if digits.is_empty() || digits.len() > 12 {
            return None;
        }
        let Ok(time) = reference.after(seconds) else {
            return None;
        };
        return Some((time, rest));
    }
    let (word, rest) = text.split_at(WORD_BYTES);
    let time = day.second_of(word)?;
    Some((time, rest))
}

/// Reads a time at the front of a text, after blanks. Returns the time and the text after it, of at least `room` bytes.
/// `None` means: use the general reader.
#[inline(always)]
fn time_ahead<'a>(
    reference: &Reference,
    day: &mut KnownDay,
    text: &'a [u8],
    room: usize,
) -> Option<(u64, &'a [u8])>
    requires ended { IsFalse (is_one_line text.now) }
    requires room { room + 19 < length text.now }
    ensures word { IfSome result (λ r. IsAhead (λ w. time_at reference.now w ≡ Ok r.0) text.now r.1.now) }
    ensures ended { IfSome result (λ r. IsFalse (is_one_line r.1.now)) }
    ensures room { IfSome result (λ r. room ≤ length r.1.now) }
{
    let start = after_gap(text, room + WORD_BYTES)?;
    let (time, rest) = time_front(reference, day, start)?;
    Some((time, rest))
}

/// Returns the target of the addition that a line begins with, and the text after its name, of at least 100 bytes. It is
/// a function of its own, since most lines have one space before each word, and no other blanks.
#[cold]
#[inline(never)]
fn any_target_ahead(line: &[u8]) -> Option<(Target, &[u8])>
    requires { IsFalse (is_one_line line.now) }
    ensures adds { IfSome result (λ r. AddsAhead r.0 line.now r.1.now) }
    ensures room { IfSome result (λ r. 100 ≤ length r.1.now) }
{
    let letter = after_byte(after_blanks(line), b'a')?;
    if letter.len() < LINE_BYTES {
        return None;
    }
    let name = after_gap(letter, LINE_BYTES - 1)?;
    if let Some(text) = name.strip_prefix(b"contact") {
        return Some((Target::Contact, text));
    }
    let text = name.strip_prefix(b"range")?;
    Some((Target::Range, text))
}

/// Returns the target of the addition that a line begins with, and the text after its name, of at least 100 bytes.
#[inline(always)]
fn target_ahead(line: &[u8]) -> Option<(Target, &[u8])>
    requires ended { IsFalse (is_one_line line.now) }
    requires room { 109 ≤ length line.now }
    ensures adds { IfSome result (λ r. AddsAhead r.0 line.now r.1.now) }
    ensures room { IfSome result (λ r. 100 ≤ length r.1.now) }
{
    let word = first_eight(line);
    if word == A_CONTAC && line[8] == b't' {
        return Some((Target::Contact, &line[9..]));
    }
    if word == A_RANGE {
        return Some((Target::Range, &line[7..]));
    }
    any_target_ahead(line)
}

/// Returns the command of a text's first line, if it is an addition in the usual form, and the text after the line's
/// LF. `None` means: use the general reader. A text of fewer than 109 bytes is left to that, so that eight bytes can be
/// loaded at each number without a test of the length.
#[inline(always)]
pub fn fast_addition<'a>(
    reference: &Reference,
    start_day: &mut KnownDay,
    end_day: &mut KnownDay,
    text: &'a [u8],
) -> Option<(Command, &'a [u8])>
    requires { IsFalse (is_one_line text.now) }
    ensures { IfSome result (λ r. BeginsWithLine (λ line. line_command reference.now line ≡ Ok r.0) text.now r.1.now) }
{
    if text.len() < LINE_BYTES {
        return None;
    }
    let (target, rest) = target_ahead(text)?;
    let (start, rest) = time_ahead(reference, start_day, rest, 4 * SPACED_BYTES)?;
    let (end, rest) = time_ahead(reference, end_day, rest, 3 * SPACED_BYTES)?;
    let (first, rest) = number_ahead(1, u64::MAX, rest, 2 * SPACED_BYTES)?;
    let (second, rest) = number_ahead(1, u64::MAX, rest, SPACED_BYTES)?;
    let (value, rest) = number_ahead(0, largest_value(target), rest, 0)?;
    let next = after_end(rest)?;
    let addition = Addition {
        start,
        end,
        first,
        second,
        value,
    };
    Some((Command::Add(target, addition), next))
}
