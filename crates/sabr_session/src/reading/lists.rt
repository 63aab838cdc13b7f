//! Lists of contact numbers and of nodes in a session text.

ghost use Rattle.std.specs.Prelude.{◌≡◌, None, Some, if◌then◌else◌, IfOk, MatchOption};
ghost use Rattle.sabr_session.specs.SessionWords.{words_of, contacts_of, is_dash, node_numbers, nodes_of};
ghost use Rattle.sabr_session.specs.SessionLists.{FindsDash, FindsList, FindsNumbers};

use crate::reading::words::first_number;
use sabr_model::{MAX_RECORDS, NoMemory, NodeList};
use sabr_plan::{first_piece, is_word, number_within};
use std::alloc::Allocator;

/// How a list ends: whether at `/`, and the words after it.
#[derive(Clone, Copy)]
pub(crate) struct ListEnd<'a> {
    pub(crate) stopped: bool,
    pub(crate) rest: Option<&'a [u8]>,
}

/// Reads the list `-`, and returns its end. `None` for any other list.
fn dash_to_slash(text: &[u8]) -> Option<ListEnd<'_>>
    ensures { FindsDash (words_of text.now) result }
{
    let (word, others) = first_piece(text, b' ');
    if !is_word(word, b"-") {
        return None;
    }
    let Some(after) = others else {
        return Some(ListEnd {
            stopped: false,
            rest: None,
        });
    };
    let (next, rest) = first_piece(after, b' ');
    if is_word(next, b"/") {
        Some(ListEnd {
            stopped: true,
            rest,
        })
    } else {
        None
    }
}

/// Reads the numbers up to `/` or to the end into the vector, and replaces its contents. `None` if a word is no number,
/// or if there are too many.
fn numbers_to_slash<'a, A: Allocator + Copy>(
    numbers: &mut Vec<u32, A>,
    text: &'a [u8],
) -> Result<Option<ListEnd<'a>>, NoMemory>
    ensures { IfOk result (λ found. FindsNumbers (words_of text.now) numbers.new.items found) }
{
    numbers.clear();
    let mut left = Some(text);
    while let Some(after) = left {
        let (word, number, others) = first_number(after);
        let Some(number) = number else {
            if !is_word(word, b"/") {
                return Ok(None);
            }
            return Ok(Some(ListEnd {
                stopped: true,
                rest: others,
            }));
        };
        if numbers.len() == MAX_RECORDS {
            return Ok(None);
        }
        numbers.push(number as u32)?;
        left = others;
    }
    Ok(Some(ListEnd {
        stopped: false,
        rest: None,
    }))
}

/// Reads the list up to `/` or to the end into the vector, and replaces its contents: `-` for the empty list, or 1 to
/// 20000 numbers from 1 to 4294967295. `None` if that is no list.
///
/// # Errors
///
/// [`NoMemory`] if an allocation failed. Then, and for `None`, the contents of the vector are unspecified.
pub(crate) fn list_to_slash<'a, A: Allocator + Copy>(
    numbers: &mut Vec<u32, A>,
    text: &'a [u8],
) -> Result<Option<ListEnd<'a>>, NoMemory>
    ensures { IfOk result (λ found. FindsList (words_of text.now) numbers.new.items found) }
{
    let Some(end) = numbers_to_slash(numbers, text)? else {
        numbers.clear();
        return Ok(dash_to_slash(text));
    };
    if numbers.is_empty() {
        return Ok(None);
    }
    Ok(Some(end))
}

/// Reads all the words as one list into the vector, and replaces its contents. Returns whether they are a list.
pub(crate) fn list_to_end<A: Allocator + Copy>(
    numbers: &mut Vec<u32, A>,
    text: &[u8],
) -> Result<bool, NoMemory>
    ensures { IfOk result (λ found. contacts_of (words_of text.now) ≡ (if found then Some numbers.new.items else None)) }
{
    match list_to_slash(numbers, text)? {
        Some(end) => Ok(!end.stopped),
        None => Ok(false),
    }
}

/// Reads words as nodes. `None` if there are more than 16, or if a word is no node.
fn numbers_listed(text: &[u8]) -> Option<NodeList>
    ensures { MatchOption result (node_numbers (words_of text.now) ≡ None) (λ nodes. node_numbers (words_of text.now) ≡ Some nodes) }
{
    let mut nodes = NodeList::new();
    let mut left = Some(text);
    while let Some(after) = left {
        let (word, others) = first_piece(after, b' ');
        nodes.push(number_within(word, 0, u64::MAX)?)?;
        left = others;
    }
    Some(nodes)
}

/// Returns whether the text is the one word `-`.
fn is_dash(text: &[u8]) -> bool
    ensures { result ≡ is_dash (words_of text.now) }
{
    let (word, others) = first_piece(text, b' ');
    match others {
        Some(_after) => false,
        None => is_word(word, b"-"),
    }
}

/// Reads a list of nodes: `-` for none, or 1 to 16 numbers up to 18446744073709551615.
#[tactic(auto, unfolding(crate::specs::SessionWords::list_within))]
pub(crate) fn nodes_of(text: &[u8]) -> Option<NodeList>
    ensures { MatchOption result (nodes_of (words_of text.now) ≡ None) (λ nodes. nodes_of (words_of text.now) ≡ Some nodes) }
{
    if is_dash(text) {
        return Some(NodeList::new());
    }
    numbers_listed(text)
}
