//! Messages on standard error, each a line, and how a run ends.

ghost use Rattle.std.specs.Prelude.{◌≡◌, map};
ghost use Rattle.std.specs.List.{concat};
ghost use Rattle.sabr_model.specs.Devices.{WritesText};
ghost use Rattle.commands.specs.texts.Messages.{kind_text, line_message, line_kind_text, session_kind_text, session_line, session_message, message_text, status_of, WritesMessage, ReportsEnd, status_at, status_of_answer};

use crate::failure::{Failure, Status};
use crate::words::LineKind;
use itoa::Buffer;
use sabr_model::{Write, WriteFault, write_text};
use sabr_plan::PlanKind;
use sabr_session::{SessionFault, TextBuffer, put_pieces};

/// Names the kind of a bad line.
fn kind_text(kind: PlanKind) -> &'static str
    ensures { result.now ≡ kind_text kind }
{
    match kind {
        PlanKind::LineTooLong => "LineTooLong",
        PlanKind::BadByte => "BadByte",
        PlanKind::UnknownCommand => "UnknownCommand",
        PlanKind::WrongOperands => "WrongOperands",
        PlanKind::BadTime => "BadTime",
        PlanKind::NoReference => "NoReference",
        PlanKind::BadNode => "BadNode",
        PlanKind::BadNumber => "BadNumber",
        PlanKind::EmptyWindow => "EmptyWindow",
        PlanKind::SelfPair => "SelfPair",
        PlanKind::DuplicateContact => "DuplicateContact",
        PlanKind::RangeOverlap => "RangeOverlap",
        PlanKind::TooMany => "TooMany",
        PlanKind::Read => "Read",
        PlanKind::NoMemory => "NoMemory",
        PlanKind::NothingToDelete => "NothingToDelete",
    }
}

/// Writes the pieces in turn.
///
/// # Errors
///
/// [`WriteFault`] if the writer failed. Then a beginning of the pieces was written.
pub fn write_pieces<W: Write>(writer: &mut W, pieces: &[&[u8]]) -> Result<(), WriteFault>
    ensures { WritesText (W.output writer.old) (concat (map (λ p. p.now) pieces.now)) result (W.output writer.new) }
{
    let mut text = TextBuffer::new(writer);
    put_pieces(&mut text, pieces)?;
    text.send()
}

/// Writes the message of a bad line of `text`: its number, and what is bad in it.
fn write_line<W: Write>(
    writer: &mut W,
    text: &str,
    line: u128,
    kind: &str,
) -> Result<(), WriteFault>
    ensures { WritesText (W.output writer.old) (line_message text.now line kind.now) result (W.output writer.new) }
{
    let mut buffer = Buffer::new();
    let pieces: [&[u8]; 7] = [
        b"cgrlist: ",
        text.as_bytes(),
        b" line ",
        buffer.format(line).as_bytes(),
        b": ",
        kind.as_bytes(),
        b"\n",
    ];
    write_pieces(writer, &pieces)
}

/// Names a fault of a session.
fn session_kind_text(fault: SessionFault) -> &'static str
    ensures { result.now ≡ session_kind_text fault }
{
    match fault {
        SessionFault::BadHeader => "BadHeader",
        SessionFault::BadLine(_) => "BadLine",
        SessionFault::OtherPlan => "OtherPlan",
        SessionFault::BadRequest => "BadRequest",
        SessionFault::NotClosed => "NotClosed",
        SessionFault::BadRoute(_) => "BadRoute",
        SessionFault::BadCount => "BadCount",
        SessionFault::Read => "Read",
        SessionFault::NoMemory => "NoMemory",
    }
}

/// The line that a fault of a session names, counted from 1.
fn session_line(fault: SessionFault) -> Option<u128>
    ensures { result ≡ session_line fault }
{
    match fault {
        SessionFault::BadLine(line) | SessionFault::BadRoute(line) => Some(line),
        _ => None,
    }
}

/// Writes the message of a refused session.
fn write_session_fault<W: Write>(writer: &mut W, fault: SessionFault) -> Result<(), WriteFault>
    ensures { WritesText (W.output writer.old) (session_message fault) result (W.output writer.new) }
{
    let kind = session_kind_text(fault);
    match session_line(fault) {
        Some(line) => write_line(writer, "session", line, kind),
        None => {
            let pieces: [&[u8]; 3] = [b"cgrlist: session: ", kind.as_bytes(), b"\n"];
            write_pieces(writer, &pieces)
        }
    }
}

/// Names what is bad in a line of requests or of lists.
fn line_kind_text(kind: LineKind) -> &'static str
    ensures { result.now ≡ line_kind_text kind }
{
    match kind {
        LineKind::BadContacts => "BadContacts",
        LineKind::BadFrom => "BadFrom",
        LineKind::BadTo => "BadTo",
        LineKind::BadAt => "BadAt",
        LineKind::BadMargin => "BadMargin",
        LineKind::BadHops => "BadHops",
        LineKind::BadAvoid => "BadAvoid",
        LineKind::SameNode => "SameNode",
        LineKind::BadLine => "BadLine",
    }
}

/// Writes a failure's message.
fn write_message<W: Write>(writer: &mut W, failure: Failure) -> Result<(), WriteFault>
    ensures { WritesText (W.output writer.old) (message_text failure) result (W.output writer.new) }
{
    match failure {
        Failure::BadValue(name) => {
            let pieces: [&[u8]; 3] = [b"cgrlist: bad --", name.text().as_bytes(), b"\n"];
            write_pieces(writer, &pieces)
        }
        Failure::SameNode => write_text(writer, b"cgrlist: request: SameNode\n"),
        Failure::BadAvoid => write_text(writer, b"cgrlist: request: BadAvoid\n"),
        Failure::CannotOpenPlan => write_text(writer, b"cgrlist: cannot open the plan\n"),
        Failure::CannotOpenSession => write_text(writer, b"cgrlist: cannot open the session\n"),
        Failure::CannotMakeSession => {
            write_text(writer, b"cgrlist: cannot make the session file\n")
        }
        Failure::PlanLine(fault) => {
            write_line(writer, "plan", fault.line as u128, kind_text(fault.kind))
        }
        Failure::PlanRead => write_text(writer, b"cgrlist: plan: read failed\n"),
        Failure::Session(fault) => write_session_fault(writer, fault),
        Failure::SessionRead => write_text(writer, b"cgrlist: session: read failed\n"),
        Failure::CannotOpenRequests => {
            write_text(writer, b"cgrlist: cannot open the requests\n")
        }
        Failure::RequestsLine(line, kind) => {
            write_line(writer, "requests", line as u128, line_kind_text(kind))
        }
        Failure::RequestsRead => write_text(writer, b"cgrlist: requests: read failed\n"),
        Failure::CannotOpenLists => write_text(writer, b"cgrlist: cannot open the lists\n"),
        Failure::ListsLine(line, kind) => {
            write_line(writer, "lists", line as u128, line_kind_text(kind))
        }
        Failure::ListsRead => write_text(writer, b"cgrlist: lists: read failed\n"),
        Failure::Write => write_text(writer, b"cgrlist: write failed\n"),
        Failure::NoMemory => write_text(writer, b"cgrlist: no memory\n"),
        Failure::NotUtf8 => {
            write_text(
                writer,
                b"cgrlist: a word of the command line is not UTF-8\n",
            )
        }
    }
}

/// Writes the failure's message, and returns its status. If the writer fails, a beginning of the message was written,
/// and the status is the same.
pub fn report_failure<W: Write>(writer: &mut W, failure: Failure) -> Status
    ensures status { result ≡ status_of failure }
    ensures message { WritesMessage (W.output writer.old) (message_text failure) (W.output writer.new) }
{
    let _ = write_message(writer, failure);
    failure.status()
}

/// Returns the status of a run that ended so. A failure's message goes to `err`; a failure of `err` changes nothing
/// else.
pub fn report_end<E: Write>(end: Result<(), Failure>, err: &mut E) -> Status
    ensures message { ReportsEnd end (E.output err.old) (E.output err.new) }
    ensures status { result ≡ status_at end }
{
    match end {
        Ok(()) => Status::Done,
        Err(failure) => report_failure(err, failure),
    }
}

/// Returns the status of a run that ended with yes or no, or failed. A failure's message goes to `err`; a failure of
/// `err` changes nothing else.
pub fn report_answer<E: Write>(end: Result<bool, Failure>, err: &mut E) -> Status
    ensures message { ReportsEnd end (E.output err.old) (E.output err.new) }
    ensures status { result ≡ status_of_answer end }
{
    match end {
        Ok(true) => Status::Done,
        Ok(false) => Status::No,
        Err(failure) => report_end(Err(failure), err),
    }
}
