//! The words of a line, the lines of a text, and lists of numbers.

ghost use Rattle.std.specs.Prelude.{◌≡◌, ◌<◌, ◌∷◌, [], MatchOption, IfSome, length, None, Some, IfOk, is_some};
ghost use Rattle.std.specs.Option.{option_copied};
ghost use Rattle.sabr_plan.specs.Pieces.{pieces_after};
ghost use Rattle.commands.specs.words.Values.{first_of, nodes_listed, numbers_within};
ghost use Rattle.commands.specs.words.Lines.{lines_in, space};
ghost use Rattle.sabr_session.specs.SessionWords.{most_number};

use sabr_model::{NoMemory, NodeList, Numbers};
use sabr_plan::{MAX_U32, first_piece, number_within};
use std::alloc::Allocator;

/// Splits off the first word, if there is one.
pub fn next_word<'a>(text: Option<&'a [u8]>) -> (Option<&'a [u8]>, Option<&'a [u8]>)
    ensures { (option_copied result.0, pieces_after space (option_copied result.1)) ≡ first_of (pieces_after space (option_copied text.entry)) }
{
    let Some(text) = text else {
        return (None, None);
    };
    let (word, rest) = first_piece(text, b' ');
    (Some(word), rest)
}

/// Splits off the first line, without its LF. With it comes what stands after that. `None` if there is no byte.
pub fn first_line(text: &[u8]) -> Option<(&[u8], &[u8])>
    ensures lines { MatchOption result (lines_in text.now ≡ []) (λ r. lines_in text.now ≡ r.0.now ∷ lines_in r.1.now) }
    ensures shorter { IfSome result (λ r. length r.1.now < length text.now) }
{
    if text.is_empty() {
        return None;
    }
    let (line, rest) = first_piece(text, b'\n');
    match rest {
        Some(rest) => Some((line, rest)),
        None => Some((line, b"")),
    }
}

/// Reads the text as 1 to 16 nodes. `None` if it isn't that.
pub fn nodes_listed(text: &[u8]) -> Option<NodeList>
    ensures { MatchOption result (nodes_listed text.now ≡ None) (λ nodes. nodes_listed text.now ≡ Some nodes) }
{
    let mut nodes = NodeList::new();
    let mut rest = Some(text);
    while let Some(after) = rest {
        let (piece, others) = first_piece(after, b',');
        let node = number_within(piece, 1, u64::MAX)?;
        nodes.push(node)?;
        rest = others;
    }
    Some(nodes)
}

/// Whether the text is a list of contact numbers. Allocates nothing.
pub fn are_contacts(text: &[u8]) -> bool
    ensures { result ≡ is_some (numbers_within 1 most_number text.now) }
{
    text.split(|b| *b == b',')
        .all(|piece| number_within(piece, 1, MAX_U32).is_some())
}

/// Reads the text as contact numbers. `None` if it isn't a list of them.
///
/// # Errors
///
/// [`NoMemory`] if an allocation failed.
pub fn contacts_listed<A: Allocator + Copy>(
    alloc: A,
    text: &[u8],
) -> Result<Option<Numbers<A>>, NoMemory>
    ensures { IfOk result (λ found. found ≡ numbers_within 1 most_number text.now) }
{
    let mut contacts = Vec::new(alloc);
    let mut rest = Some(text);
    while let Some(after) = rest {
        let (piece, others) = first_piece(after, b',');
        let Some(number) = number_within(piece, 1, MAX_U32) else {
            return Ok(None);
        };
        contacts.push(number as u32)?;
        rest = others;
    }
    Ok(Some(Numbers::new(contacts)))
}
