//! A line of requests or of lists, with its words in their order.

ghost use Rattle.std.specs.Prelude.{◌≡◌, IfOk};
ghost use Rattle.std.specs.Option.{option_copied, option_map};
ghost use Rattle.std.specs.Result.{result_ok};
ghost use Rattle.sabr_plan.specs.Pieces.{pieces_after, pieces_of};
ghost use Rattle.commands.specs.words.Values.{texts_given};
ghost use Rattle.commands.specs.words.Lines.{fault_of, list_in, list_texts_in, list_texts_of, or_kind, request_by, request_in, seen_list, texts_of, space};

use crate::words::lines::LineKind;
use crate::words::pieces::{are_contacts, contacts_listed, next_word};
use crate::words::request_words::{RequestTexts, request_of, request_words};
use crate::words::value_fault::ValueFault;
use sabr_model::{NoMemory, Numbers, Request};
use sabr_plan::first_piece;
use std::alloc::{Allocator, Global};

/// The most bytes of a line. A line of 20-digit nodes, a time, the largest limits and 16 nodes to avoid has as many.
pub const MAX_LINE_BYTES: usize = 411;

/// The most bytes of a line of lists: 20000 numbers of ten digits, each with a byte after it, and such a line.
pub const MAX_LIST_BYTES: usize = 220411;

/// What a line of lists asks about.
#[derive(Drop)]
pub struct Listed<A: Allocator + Copy = Global> {
    /// The contacts.
    pub contacts: Numbers<A>,
    /// The request.
    pub request: Request,
}

/// Splits a text into the words of a request. `None` if they are fewer than three or more than six.
fn texts_of(text: Option<&[u8]>) -> Option<RequestTexts<'_>>
    ensures { option_map texts_given result ≡ texts_of (pieces_after space (option_copied text.entry)) }
{
    let (from, rest) = next_word(text);
    let (to, rest) = next_word(rest);
    let (at, rest) = next_word(rest);
    let (margin_ppm, rest) = next_word(rest);
    let (max_hops, rest) = next_word(rest);
    let (avoid, rest) = next_word(rest);
    if at.is_none() || rest.is_some() {
        return None;
    }
    Some(RequestTexts {
        from,
        to,
        at,
        margin_ppm,
        max_hops,
        avoid,
    })
}

/// Splits a line of lists into the text of its contacts and the words of its request. `None` if all words are fewer
/// than four or more than seven.
fn list_texts_of(line: &[u8]) -> Option<(&[u8], RequestTexts<'_>)>
    ensures { option_map (λ t. (t.0.now, texts_given t.1)) result ≡ list_texts_of (pieces_of space line.now) }
{
    let (contacts, rest) = first_piece(line, b' ');
    let texts = texts_of(rest)?;
    Some((contacts, texts))
}

/// Splits a line of lists, as [`list_texts_of`]. `None` also if the line is too long.
fn list_texts_in(line: &[u8]) -> Option<(&[u8], RequestTexts<'_>)>
    ensures { option_map (λ t. (t.0.now, texts_given t.1)) result ≡ list_texts_in line.now }
{
    if line.len() > MAX_LIST_BYTES {
        return None;
    }
    list_texts_of(line)
}

/// Reads the request of these texts.
fn request_by(texts: &RequestTexts<'_>) -> Result<Request, ValueFault>
    ensures { result ≡ request_by (texts_given texts.now) }
{
    let words = request_words(texts)?;
    request_of(&words)
}

/// Reads the request of these texts, or finds what is bad in them.
fn request_or_kind(texts: &RequestTexts<'_>) -> Result<Request, LineKind>
    ensures { result ≡ or_kind (request_by (texts_given texts.now)) }
{
    match request_by(texts) {
        Ok(request) => Ok(request),
        Err(fault) => Err(fault.into()),
    }
}

/// Reads the request of a line without its LF.
///
/// # Errors
///
/// What is bad in it: the first that holds, in the order of the words.
#[tactic(auto, unfolding(crate::specs::words::Lines::request_in))]
pub fn request_in(line: &[u8]) -> Result<Request, LineKind>
    ensures { result ≡ request_in line.now }
{
    if line.len() > MAX_LINE_BYTES {
        return Err(LineKind::BadLine);
    }
    let Some(texts) = texts_of(Some(line)) else {
        return Err(LineKind::BadLine);
    };
    request_or_kind(&texts)
}

/// Finds what is bad in a line of lists without its LF: the first that holds, in the order of the words. It doesn't
/// allocate.
pub fn list_fault(line: &[u8]) -> Option<LineKind>
    ensures { result ≡ fault_of (list_in line.now) }
{
    let Some((contacts, texts)) = list_texts_in(line) else {
        return Some(LineKind::BadLine);
    };
    if !are_contacts(contacts) {
        return Some(LineKind::BadContacts);
    }
    request_or_kind(&texts).err()
}

/// Reads the contacts and the request of a line of lists without its LF. `None` if the line is bad.
///
/// # Errors
///
/// [`NoMemory`] if an allocation failed.
pub fn list_in<A: Allocator + Copy>(alloc: A, line: &[u8]) -> Result<Option<Listed<A>>, NoMemory>
    ensures { IfOk result (λ found. option_map seen_list found ≡ result_ok (list_in line.now)) }
{
    let Some((contacts, texts)) = list_texts_in(line) else {
        return Ok(None);
    };
    let Some(contacts) = contacts_listed(alloc, contacts)? else {
        return Ok(None);
    };
    match request_or_kind(&texts) {
        Ok(request) => Ok(Some(Listed { contacts, request })),
        Err(_kind) => Ok(None),
    }
}
