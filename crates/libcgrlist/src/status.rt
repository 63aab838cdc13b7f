//! The statuses of calls, as `cgrlist.h` numbers them.

ghost use Rattle.std.specs.Prelude.{◌≡◌};
ghost use Rattle.libcgrlist.specs.SessionTexts.{session_status};
ghost use Rattle.libcgrlist.specs.Status.{change_status, line_status, request_status};

use sabr_model::{AddFault, RequestError};
use sabr_plan::PlanKind;
use sabr_session::SessionFault;

/// The call did what it says.
pub const DONE: u32 = 0;
/// There is no route, the contacts make none, or what was asked for isn't there.
pub const NO: u32 = 1;
/// A buffer is too small.
pub const ROOM: u32 = 2;
/// An allocation failed.
pub const MEMORY: u32 = 3;
/// The plan isn't open.
pub const CLOSED: u32 = 4;
/// The plan is open already.
pub const OPEN: u32 = 5;
/// A listing is open.
pub const LISTING: u32 = 6;
/// No listing is open.
pub const NO_LISTING: u32 = 7;

/// Source and destination are the same node.
pub const SAME_NODE: u32 = 16;
/// A node of the request is 0.
pub const BAD_NODE: u32 = 17;
/// The request's time is above the latest time.
pub const BAD_TIME: u32 = 18;
/// The margin is above 1000000.
pub const BAD_MARGIN: u32 = 19;
/// The limit on hops is above 20000.
pub const BAD_HOPS: u32 = 20;
/// The nodes to avoid aren't at most 16 rising nodes beside source and destination.
pub const BAD_AVOID: u32 = 21;

/// A line of a plan's text has more than 255 bytes.
pub const LINE_TOO_LONG: u32 = 32;
/// It has a byte that isn't plain text.
pub const LINE_BAD_BYTE: u32 = 33;
/// Its command is unknown.
pub const LINE_UNKNOWN_COMMAND: u32 = 34;
/// It has too few or too many operands.
pub const LINE_WRONG_OPERANDS: u32 = 35;
/// A time of it isn't one.
pub const LINE_BAD_TIME: u32 = 36;
/// A relative time of it has no reference.
pub const LINE_NO_REFERENCE: u32 = 37;
/// A node of it isn't one.
pub const LINE_BAD_NODE: u32 = 38;
/// Its rate or light time isn't one.
pub const LINE_BAD_NUMBER: u32 = 39;
/// Its start isn't before its end.
pub const LINE_EMPTY_WINDOW: u32 = 40;
/// Its two nodes are the same.
pub const LINE_SELF_PAIR: u32 = 41;
/// A contact with its sender, receiver and start stands.
pub const LINE_DUPLICATE_CONTACT: u32 = 42;
/// A range of its pair overlaps it.
pub const LINE_RANGE_OVERLAP: u32 = 43;
/// There are too many contacts, ranges or lines.
pub const LINE_TOO_MANY: u32 = 44;
/// What it deletes doesn't stand.
pub const LINE_NOTHING_TO_DELETE: u32 = 45;

/// The start isn't before the end.
pub const EMPTY_WINDOW: u32 = 48;
/// The two nodes are the same.
pub const SELF_PAIR: u32 = 49;
/// A contact with this sender, receiver and start stands.
pub const DUPLICATE_CONTACT: u32 = 50;
/// A range of the pair overlaps it.
pub const RANGE_OVERLAP: u32 = 51;
/// There are too many contacts or ranges.
pub const TOO_MANY: u32 = 52;
/// What is to be deleted doesn't stand.
pub const NOTHING_TO_DELETE: u32 = 53;

/// A node is 0.
pub const VALUE_NODE: u32 = 64;
/// A time is above the latest time.
pub const VALUE_TIME: u32 = 65;
/// A light time is above 1000000.
pub const VALUE_LIGHT: u32 = 66;
/// A count of routes is above 10000.
pub const VALUE_COUNT: u32 = 67;

/// The first line isn't that of a session text.
pub const SESSION_BAD_HEADER: u32 = 80;
/// A line of the session text isn't spelled as it has to be.
pub const SESSION_BAD_LINE: u32 = 81;
/// The session text was written over another plan.
pub const SESSION_OTHER_PLAN: u32 = 82;
/// Its request is refused.
pub const SESSION_BAD_REQUEST: u32 = 83;
/// Its parts aren't closed.
pub const SESSION_NOT_CLOSED: u32 = 84;
/// A line carries a list that is no route of its part.
pub const SESSION_BAD_ROUTE: u32 = 85;
/// Its count or last route is wrong.
pub const SESSION_BAD_COUNT: u32 = 86;

/// The status of a refused request.
pub fn of_request(error: RequestError) -> u32
    ensures { result ≡ request_status error }
{
    match error {
        RequestError::SameNode => SAME_NODE,
        RequestError::BadNode => BAD_NODE,
        RequestError::BadTime => BAD_TIME,
        RequestError::BadMargin => BAD_MARGIN,
        RequestError::BadHops => BAD_HOPS,
        RequestError::BadAvoid => BAD_AVOID,
    }
}

/// The status of a refused change of a plan.
pub fn of_change(fault: AddFault) -> u32
    ensures { result ≡ change_status fault }
{
    match fault {
        AddFault::EmptyWindow => EMPTY_WINDOW,
        AddFault::SelfPair => SELF_PAIR,
        AddFault::DuplicateContact => DUPLICATE_CONTACT,
        AddFault::RangeOverlap => RANGE_OVERLAP,
        AddFault::TooMany => TOO_MANY,
        AddFault::NoMemory => MEMORY,
        AddFault::NothingToDelete => NOTHING_TO_DELETE,
    }
}

/// The status of a refused line of a plan's text. Bytes in memory are read without a failure.
pub fn of_line(kind: PlanKind) -> u32
    ensures { result ≡ line_status kind }
{
    match kind {
        PlanKind::LineTooLong => LINE_TOO_LONG,
        PlanKind::BadByte => LINE_BAD_BYTE,
        PlanKind::UnknownCommand => LINE_UNKNOWN_COMMAND,
        PlanKind::WrongOperands => LINE_WRONG_OPERANDS,
        PlanKind::BadTime => LINE_BAD_TIME,
        PlanKind::NoReference => LINE_NO_REFERENCE,
        PlanKind::BadNode => LINE_BAD_NODE,
        PlanKind::BadNumber => LINE_BAD_NUMBER,
        PlanKind::EmptyWindow => LINE_EMPTY_WINDOW,
        PlanKind::SelfPair => LINE_SELF_PAIR,
        PlanKind::DuplicateContact => LINE_DUPLICATE_CONTACT,
        PlanKind::RangeOverlap => LINE_RANGE_OVERLAP,
        PlanKind::TooMany => LINE_TOO_MANY,
        PlanKind::NothingToDelete => LINE_NOTHING_TO_DELETE,
        PlanKind::Read | PlanKind::NoMemory => MEMORY,
    }
}

/// The status of a refused session text. Bytes in memory are read without a failure.
pub fn of_session(fault: SessionFault) -> u32
    ensures { result ≡ session_status fault }
{
    match fault {
        SessionFault::BadHeader => SESSION_BAD_HEADER,
        SessionFault::BadLine(_) => SESSION_BAD_LINE,
        SessionFault::OtherPlan => SESSION_OTHER_PLAN,
        SessionFault::BadRequest => SESSION_BAD_REQUEST,
        SessionFault::NotClosed => SESSION_NOT_CLOSED,
        SessionFault::BadRoute(_) => SESSION_BAD_ROUTE,
        SessionFault::BadCount => SESSION_BAD_COUNT,
        SessionFault::Read | SessionFault::NoMemory => MEMORY,
    }
}
