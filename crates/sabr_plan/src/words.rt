//! The words of a plan line.

ghost use Rattle.std.specs.Prelude.{◌≡◌, ◌≢◌, [], ◌∷◌, length, not, MatchOption};
ghost use Rattle.std.specs.List.{list_all, position};
ghost use Rattle.std.specs.Str.{bytes_eq};
ghost use Rattle.sabr_plan.specs.Words.{is_blank, is_plain, is_comment, words_of};

/// Returns true if the line is a comment.
pub fn is_comment(line: &[u8]) -> bool
    ensures { result ≡ is_comment line.now }
{
    !line.is_empty() && line[0] == b'#'
}

/// Returns true if the line has only tabs and the bytes 32 to 126. It doesn't stop at the first other byte, since it
/// tests many bytes at a time.
pub fn is_plain(line: &[u8]) -> bool
    ensures { result ≡ list_all is_plain line.now }
{
    let mut plain = true;
    for byte in line {
        plain &= is_plain_byte(*byte);
    }
    plain
}

/// Returns true if a byte is a tab or one of the bytes 32 to 126.
fn is_plain_byte(byte: u8) -> bool
    ensures { result ≡ is_plain byte }
{
    byte == b'\t' || (32 <= byte && byte <= 126)
}

/// Returns true if a byte separates words.
pub fn is_blank(byte: u8) -> bool
    ensures { result ≡ is_blank byte }
{
    byte == b'\t' || byte == b' '
}

/// Returns true if the word is this text.
pub fn is_word(word: &[u8], text: &[u8]) -> bool
    ensures { result ≡ bytes_eq word.now text.now }
{
    word == text
}

/// Returns the index of the first blank.
fn first_blank(text: &[u8]) -> Option<usize>
    ensures { result ≡ position is_blank text.now }
{
    text.iter().position(|b| is_blank(*b))
}

/// Returns the index of the first byte that is no blank.
fn first_other(text: &[u8]) -> Option<usize>
    ensures { result ≡ position (λ b. not (is_blank b)) text.now }
{
    text.iter().position(|b| !is_blank(*b))
}

/// Returns the first word and the text after it, if there is a word.
#[tactic(auto, using(crate::proofs::PlainWords::no_word, crate::proofs::PlainWords::first_word))]
pub fn next_word(text: &[u8]) -> Option<(&[u8], &[u8])>
    ensures { MatchOption result (words_of text.now ≡ []) (λ w. words_of text.now ≡ w.0.now ∷ words_of w.1.now) }
{
    let (_, text) = text.split_at(first_other(text)?);
    Some(text.split_at(first_blank(text).unwrap_or(text.len())))
}

/// Returns the word of a text that has exactly one, and `None` otherwise.
pub fn one_word(text: &[u8]) -> Option<&[u8]>
    ensures { MatchOption result (length (words_of text.now) ≢ 1) (λ w. words_of text.now ≡ w.now ∷ []) }
{
    let (word, rest) = next_word(text)?;
    if next_word(rest).is_some() {
        return None;
    }
    Some(word)
}

/// Returns the words of a text that has exactly three, and `None` otherwise.
pub fn three_words(text: &[u8]) -> Option<(&[u8], &[u8], &[u8])>
    ensures { MatchOption result (length (words_of text.now) ≢ 3) (λ w. words_of text.now ≡ w.0.now ∷ w.1.now ∷ w.2.now ∷ []) }
{
    let (a, rest) = next_word(text)?;
    let (b, rest) = next_word(rest)?;
    let c = one_word(rest)?;
    Some((a, b, c))
}

/// Returns the words of a text that has exactly five, and `None` otherwise.
pub fn five_words(text: &[u8]) -> Option<(&[u8], &[u8], &[u8], &[u8], &[u8])>
    ensures { MatchOption result (length (words_of text.now) ≢ 5) (λ w. words_of text.now ≡ w.0.now ∷ w.1.now ∷ w.2.now ∷ w.3.now ∷ w.4.now ∷ []) }
{
    let (a, rest) = next_word(text)?;
    let (b, rest) = next_word(rest)?;
    let (c, d, e) = three_words(rest)?;
    Some((a, b, c, d, e))
}
