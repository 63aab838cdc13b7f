//! The pieces of a text between the bytes of one value: a word of a line, a number of a list, a line.

ghost use Rattle.std.specs.Prelude.{◌≡◌, ◌==◌, ◌<◌, ◌∷◌, ◌++◌, ⊤, MatchOption, IfSome, IsTrue, length, slice_index, take};
ghost use Rattle.std.specs.List.{position};
ghost use Rattle.std.specs.Option.{option_copied};
ghost use Rattle.sabr_plan.specs.Pieces.{pieces_after, pieces_of};
ghost use Rattle.sabr_plan.specs.Words.{is_one_line};

use memchr::memchr;

/// Finds the first byte of this value.
#[inline]
fn first_place(text: &[u8], separator: u8) -> Option<usize>
    ensures { result ≡ position (λ b. b == separator) text.now }
{
    text.iter().position(|b| *b == separator)
}

/// Returns the first piece of a text, up to the first byte of this value, and the text after that byte. Without such a
/// byte the piece is the whole text, and there is nothing after it. Its time grows with the piece's length.
#[tactic(auto, using(crate::proofs::TextPieces::pieces_at, crate::proofs::TextPieces::pieces_one, std::proofs::lemmas::List::take_rest))]
#[inline]
pub fn first_piece(text: &[u8], separator: u8) -> (&[u8], Option<&[u8]>)
    ensures pieces { pieces_of separator text.now ≡ result.0.now ∷ pieces_after separator (option_copied result.1) }
    ensures whole { MatchOption result.1 (result.0.now ≡ text.now) (λ _. ⊤) }
    ensures shorter { IfSome result.1 (λ rest. length rest.now < length text.now) }
{
    match first_place(text, separator) {
        Some(place) => (&text[..place], Some(&text[place + 1..])),
        None => (text, None),
    }
}

/// Returns the index of the first LF. `None` if there is none. Its time grows with the index.
#[tactic(auto, using(crate::proofs::Held::one_line_from, crate::proofs::Held::one_line_before))]
pub fn line_end(text: &[u8]) -> Option<usize>
    ensures { MatchOption result (IsTrue (is_one_line text.now)) (λ end. (end < length text.now) × (slice_index text.now end ≡ 10) × IsTrue (is_one_line (take end text.now))) }
{
    memchr(b'\n', text)
}

/// Returns the first line that ends with LF, without it, and the text after that LF. `None` if there is no LF. Its time
/// grows with the line's length.
#[inline]
pub fn ended_line(text: &[u8]) -> Option<(&[u8], &[u8])>
    ensures { MatchOption result (IsTrue (is_one_line text.now)) (λ r. (text.now ≡ r.0.now ++ 10 ∷ r.1.now) × IsTrue (is_one_line r.0.now)) }
{
    let end = line_end(text)?;
    Some((&text[..end], &text[end + 1..]))
}
