//! A text of requests or of lists, read to its end or to its first bad line, and why it is refused.

ghost use Rattle.std.specs.Prelude.{◌≡◌, ◌≤◌, drop, true, List, Result, MatchResult, IfErr, IfNone, IfOk, Err};
ghost use Rattle.sabr_plan.specs.Words.{is_one_line};
ghost use Rattle.commands.specs.words.Lines.{HasLines, IsGoodSoFar, IsJudged, IsRefused, ReadsLines, AskedLine, asked_at, fault_in, fault_of, is_bad_rest, most_bytes, most_lines, kind_of};
ghost use Rattle.commands.specs.declared.words.lines.LinesFault.{LinesFault};

use crate::words::request_line::{MAX_LINE_BYTES, MAX_LIST_BYTES, list_fault, request_in};
use crate::words::value_fault::{ValueFault, ValueName};
use sabr_model::{Failed, Read};
use sabr_plan::{MAX_LINES, ended_line, line_end};
use std::alloc::Allocator;

/// The size of the buffer that the reader fills, in bytes. Not varied in measurements. To vary it: `bench/many.py`.
const PIECE_BYTES: usize = 65536;

/// What each line of a text is.
#[derive(Clone, Copy)]
pub enum LineForm {
    /// A request.
    Requests,
    /// Contacts, and then a request.
    Lists,
}

impl LineForm {
    /// The most bytes of a line without its LF.
    pub fn most_bytes(self) -> usize
        ensures { result ≡ most_bytes self }
    {
        match self {
            LineForm::Requests => MAX_LINE_BYTES,
            LineForm::Lists => MAX_LIST_BYTES,
        }
    }
}

/// What is bad in a line of requests or of lists. The first that holds is reported: [`BadLine`](LineKind::BadLine),
/// then the words in their order, then [`SameNode`](LineKind::SameNode), then nodes that can't be avoided.
#[derive(Clone, Copy, Debug, PartialEq, Eq)]
pub enum LineKind {
    /// The contacts of a list are misspelled, or one of them is out of its range.
    BadContacts,
    /// The source is misspelled or out of its range.
    BadFrom,
    /// The destination is misspelled or out of its range.
    BadTo,
    /// The time at which the bundle is at the source is misspelled or out of its range.
    BadAt,
    /// The margin on light times is misspelled or out of its range.
    BadMargin,
    /// The limit on hops is misspelled or out of its range.
    BadHops,
    /// The nodes to avoid are misspelled, aren't strictly ascending, or hold the source or the destination.
    BadAvoid,
    /// The source is the destination.
    SameNode,
    /// The line is too long, comes after the last that a text may have, or doesn't have three to six words (with
    /// contacts: four to seven).
    BadLine,
}

/// Why a text of requests or of lists is refused.
#[derive(Clone, Copy, Debug, PartialEq, Eq)]
pub enum LinesFault {
    /// The line of this number, counted from 1, is bad.
    Line(u32, LineKind),
    /// The reader failed.
    Read,
    /// An allocation failed.
    NoMemory,
}

/// What is bad in a line whose values are refused.
impl From<ValueFault> for LineKind {
    ghost from_gives = { λ fault e. e ≡ kind_of fault };

    fn from(fault: ValueFault) -> LineKind {
        match fault {
            ValueFault::Bad(ValueName::From) => LineKind::BadFrom,
            ValueFault::Bad(ValueName::To) => LineKind::BadTo,
            ValueFault::Bad(ValueName::At) => LineKind::BadAt,
            ValueFault::Bad(ValueName::MarginPpm) => LineKind::BadMargin,
            ValueFault::Bad(ValueName::MaxHops) => LineKind::BadHops,
            ValueFault::Bad(ValueName::Avoid) => LineKind::BadAvoid,
            ValueFault::Bad(ValueName::Contacts) => LineKind::BadContacts,
            ValueFault::BadAvoid => LineKind::BadAvoid,
            ValueFault::SameNode => LineKind::SameNode,
            ValueFault::Bad(_) | ValueFault::NoMemory => LineKind::BadLine,
        }
    }
}

/// How far the lines of a text are judged, and found good.
#[derive(Clone, Copy)]
pub struct Judged {
    /// The number of the next line, from 1.
    pub number: u32,
    /// The bytes before that line.
    pub bytes: usize,
}

/// Finds what is bad in the line of this number, counted from 1.
fn fault_at(form: LineForm, number: u32, line: &[u8]) -> Option<LineKind>
    ensures value { result ≡ fault_of (asked_at form number line.now) }
    ensures limit { IfNone result (number ≤ most_lines) }
{
    if number > MAX_LINES {
        return Some(LineKind::BadLine);
    }
    match form {
        LineForm::Requests => request_in(line).err(),
        LineForm::Lists => list_fault(line),
    }
}

/// Whether the line of this number, with `bytes` bytes so far, is too long or comes after the last
/// that a text may have. No byte that follows changes that.
fn is_bad_rest(form: LineForm, number: u32, bytes: usize) -> bool
    ensures { result ≡ is_bad_rest form number bytes }
{
    bytes > form.most_bytes() || (bytes > 0 && number > MAX_LINES)
}

/// Judges the lines of a text that end with LF, from where that was done before.
///
/// # Errors
///
/// The first bad line of the text, which no later byte can change: a line that ends with LF, or the line after these,
/// if it is too long or comes after the last line that a text may have.
fn judge(form: LineForm, text: &[u8], before: Judged) -> Result<Judged, LinesFault>
    requires { IsJudged form text.now before }
    ensures good { IfOk result (IsGoodSoFar form text.now) }
    ensures refused { IfErr result (IsRefused form text.now) }
{
    let mut judged = before;
    while let Some((line, _after)) = ended_line(&text[judged.bytes..]) {
        if let Some(kind) = fault_at(form, judged.number, line) {
            return Err(LinesFault::Line(judged.number, kind));
        }
        judged = Judged {
            number: judged.number + 1,
            bytes: judged.bytes + line.len() + 1,
        };
    }
    if is_bad_rest(form, judged.number, text.len() - judged.bytes) {
        return Err(LinesFault::Line(judged.number, LineKind::BadLine));
    }
    Ok(judged)
}

/// Judges a text that grew by this piece, as [`judge`]. If no line ends in the piece, and the last line isn't bad yet,
/// only the piece is searched.
fn judge_piece(
    form: LineForm,
    text: &[u8],
    piece: &[u8],
    before: Judged,
) -> Result<Judged, LinesFault>
    requires judged { IsJudged form text.now before }
    requires rest { is_one_line piece.now ≡ true → is_one_line (drop before.bytes text.now) ≡ true }
    ensures good { IfOk result (IsGoodSoFar form text.now) }
    ensures refused { IfErr result (IsRefused form text.now) }
{
    let rest = text.len() - before.bytes;
    if line_end(piece).is_some() || is_bad_rest(form, before.number, rest) {
        return judge(form, text, before);
    }
    Ok(before)
}

/// Finds the first bad line of a text that has ended. Its lines that end with LF are judged.
fn last_fault(form: LineForm, text: &[u8], judged: Judged) -> Option<LinesFault>
    requires { IsGoodSoFar form text.now judged }
    ensures { result ≡ fault_in form 1 text.now }
{
    let line = &text[judged.bytes..];
    if line.is_empty() {
        return None;
    }
    match fault_at(form, judged.number, line) {
        Some(kind) => Some(LinesFault::Line(judged.number, kind)),
        None => None,
    }
}

/// Reads a text of lines of this form, and judges them, to the end of the text or to its first bad line.
///
/// # Errors
///
/// [`LinesFault::Line`] with the first bad line, as soon as no byte that follows can make it a good one. Before that,
/// [`LinesFault::Read`] if the reader failed, and [`LinesFault::NoMemory`] if an allocation failed.
pub fn read_lines<R: Read, A: Allocator + Copy>(
    alloc: A,
    form: LineForm,
    reader: &mut R,
) -> Result<Vec<u8, A>, LinesFault>
    ensures { (requested : Result (List AskedLine) LinesFault)
        × ReadsLines form (R.input reader.old) requested (R.input reader.new)
        × MatchResult result (λ text. HasLines form text.items requested) (λ fault. requested ≡ Err fault) }
{
    let mut buffer = [0u8; PIECE_BYTES];
    let mut text = Vec::new(alloc);
    let mut judged = Judged {
        number: 1,
        bytes: 0,
    };
    while text.len() < usize::MAX {
        match reader.read(&mut buffer) {
            Ok(0) => {
                return match last_fault(form, text.as_slice(), judged) {
                    Some(fault) => Err(fault),
                    None => Ok(text),
                };
            }
            Ok(count) => {
                let piece = &buffer[..count];
                let Ok(()) = text.extend_from_slice(piece) else {
                    return Err(LinesFault::NoMemory);
                };
                judged = judge_piece(form, text.as_slice(), piece, judged)?;
            }
            Err(Failed) => return Err(LinesFault::Read),
        }
    }
    Err(LinesFault::NoMemory)
}
