//! The first six lines of a session text.

ghost use Rattle.std.specs.Prelude.{◌≡◌, ◌∷◌, ◌<◌, None, Some, IfOk, MatchOption, length};
ghost use Rattle.std.specs.List.{list_all};
ghost use Rattle.std.specs.Option.{option_copied};
ghost use Rattle.sabr_session.specs.SessionWords.{words_of, words_after};
ghost use Rattle.sabr_session.specs.SessionLines.{after_label, header_of, is_digest_digit, digest_named, four_of, unlimited_of, limited_of, request_of, emitted_of, last_listed, count_of, is_end};

use crate::reading::lists::{list_to_end, nodes_of};
use crate::reading::words::count_within;
use sabr_model::{MAX_HOPS, NoMemory, NodeList, Numbers, RequestValues};
use sabr_plan::{MAX_U32, first_piece, is_word, number_within, parse_time};
use std::alloc::Allocator;

/// The number of digits of a digest.
const DIGEST_DIGITS: usize = 64;

/// The version of a session text.
#[derive(Clone, Copy)]
pub(crate) enum Version {
    /// Version 1, for requests without limits.
    One,
    /// Version 2, for any request.
    Two,
}

/// Returns the text after the label, if the text begins with it.
pub(crate) fn after_label<'a>(label: &[u8], text: &'a [u8]) -> Option<&'a [u8]>
    ensures { option_copied result ≡ after_label label.now text.now }
{
    if text.len() < label.len() {
        return None;
    }
    let (front, back) = text.split_at(label.len());
    if front == label { Some(back) } else { None }
}

/// Reads `cgr-session 1` or `cgr-session 2`.
pub(crate) fn header_of(line: &[u8]) -> Option<Version>
    ensures { result ≡ header_of line.now }
{
    if line == b"cgr-session 2".as_slice() {
        return Some(Version::Two);
    }
    if line == b"cgr-session 1".as_slice() {
        return Some(Version::One);
    }
    None
}

/// Returns whether a byte is `0` to `9` or `a` to `f`.
fn is_digest_digit(byte: u8) -> bool
    ensures { result ≡ is_digest_digit byte }
{
    (48 <= byte && byte <= 57) || (97 <= byte && byte <= 102)
}

/// Returns whether all bytes are `0` to `9` or `a` to `f`.
fn are_digest_digits(text: &[u8]) -> bool
    ensures { result ≡ list_all is_digest_digit text.now }
{
    text.iter().all(|byte| is_digest_digit(*byte))
}

/// Reads `plan H`, and returns the digits.
#[tactic(auto, unfolding(crate::specs::SessionLines::digest_named))]
pub(crate) fn digest_named(line: &[u8]) -> Option<&[u8]>
    ensures { option_copied result ≡ digest_named line.now }
{
    let text = after_label(b"plan ", line)?;
    if text.len() == DIGEST_DIGITS && are_digest_digits(text) {
        Some(text)
    } else {
        None
    }
}

/// Returns the first four words, and the text after them. `None` if there are fewer.
fn four_words(text: &[u8]) -> Option<(&[u8], &[u8], &[u8], &[u8], Option<&[u8]>)>
    ensures { MatchOption result (length (words_of text.now) < 4) (λ w. words_of text.now ≡ w.0.now ∷ w.1.now ∷ w.2.now ∷ w.3.now ∷ words_after (option_copied w.4)) }
{
    let (one, rest) = first_piece(text, b' ');
    let (two, rest) = first_piece(rest?, b' ');
    let (three, rest) = first_piece(rest?, b' ');
    let (four, rest) = first_piece(rest?, b' ');
    Some((one, two, three, four, rest))
}

/// Reads these words as the values of a request without limits.
fn four_of(from: &[u8], to: &[u8], time: &[u8], margin: &[u8]) -> Option<RequestValues>
    ensures { result ≡ four_of from.now to.now time.now margin.now }
{
    let from = number_within(from, 0, u64::MAX)?;
    let to = number_within(to, 0, u64::MAX)?;
    let at = parse_time(time)?;
    let margin_ppm = number_within(margin, 0, MAX_U32)? as u32;
    Some(RequestValues {
        from,
        to,
        at,
        margin_ppm,
        max_hops: MAX_HOPS,
        avoid: NodeList::new(),
    })
}

/// Reads `FROM TO AT PPM`.
fn unlimited_of(text: &[u8]) -> Option<RequestValues>
    ensures { result ≡ unlimited_of (words_of text.now) }
{
    let (from, to, time, margin, rest) = four_words(text)?;
    if let Some(_after) = rest {
        return None;
    }
    four_of(from, to, time, margin)
}

/// Reads `FROM TO AT PPM HOPS / NODES`.
fn limited_of(text: &[u8]) -> Option<RequestValues>
    ensures { result ≡ limited_of (words_of text.now) }
{
    let (from, to, time, margin, rest) = four_words(text)?;
    let (hops, rest) = first_piece(rest?, b' ');
    let (slash, rest) = first_piece(rest?, b' ');
    if !is_word(slash, b"/") {
        return None;
    }
    let avoid = nodes_of(rest?)?;
    let max_hops = number_within(hops, 0, MAX_U32)? as u32;
    let values = four_of(from, to, time, margin)?;
    Some(RequestValues {
        max_hops,
        avoid,
        ..values
    })
}

/// Reads the line of a request, in this version.
#[tactic(auto, unfolding(crate::specs::SessionLines::request_of))]
pub(crate) fn request_of(version: Version, line: &[u8]) -> Option<RequestValues>
    ensures { result ≡ request_of version line.now }
{
    let text = after_label(b"request ", line)?;
    match version {
        Version::One => unlimited_of(text),
        Version::Two => limited_of(text),
    }
}

/// Reads `emitted N`.
#[tactic(auto, unfolding(crate::specs::SessionLines::emitted_of))]
pub(crate) fn emitted_of(line: &[u8]) -> Option<u128>
    ensures { result ≡ emitted_of line.now }
{
    let text = after_label(b"emitted ", line)?;
    count_within(text)
}

/// Reads `last LIST`.
#[tactic(auto, unfolding(crate::specs::SessionLines::last_listed))]
pub(crate) fn last_listed<A: Allocator + Copy>(
    alloc: A,
    line: &[u8],
) -> Result<Option<Numbers<A>>, NoMemory>
    ensures { IfOk result (λ found. found ≡ last_listed line.now) }
{
    let Some(text) = after_label(b"last ", line) else {
        return Ok(None);
    };
    let mut numbers = Vec::new(alloc);
    if list_to_end(&mut numbers, text)? {
        Ok(Some(Numbers::new(numbers)))
    } else {
        Ok(None)
    }
}

/// Reads `parts M`.
#[tactic(auto, unfolding(crate::specs::SessionLines::count_of))]
pub(crate) fn count_of(line: &[u8]) -> Option<u64>
    ensures { result ≡ count_of line.now }
{
    let text = after_label(b"parts ", line)?;
    number_within(text, 0, u64::MAX)
}

/// Returns whether the line is `end`.
pub(crate) fn is_end(line: &[u8]) -> bool
    ensures { result ≡ is_end line.now }
{
    line == b"end".as_slice()
}
