//! How a run ended, and why it ended early.

ghost use Rattle.std.specs.Prelude.{◌≡◌};
ghost use Rattle.commands.specs.texts.Messages.{status_of, failure_of_plan, failure_of_lines, failure_of_session, failure_of_value, number_of};
ghost use Rattle.commands.specs.declared.failure.Failure.TheVariants as failure;

use crate::words::{LineForm, LineKind, LinesFault, ValueFault, ValueName};
use sabr_model::{NoMemory, WriteFault};
use sabr_plan::{PlanFault, PlanKind};
use sabr_session::SessionFault;

/// Why a run ended early. Each has a message and a status.
#[derive(Clone, Copy)]
pub enum Failure {
    /// A value of the command line is missing, misspelled, or out of its range.
    BadValue(ValueName),
    /// The source is the destination.
    SameNode,
    /// The avoided nodes aren't strictly ascending, or hold the source or the destination.
    BadAvoid,
    /// The plan's file can't be opened.
    CannotOpenPlan,
    /// The old session's file can't be opened.
    CannotOpenSession,
    /// The new session's file can't be made.
    CannotMakeSession,
    /// A line of the plan is bad.
    PlanLine(PlanFault),
    /// The plan's reader failed.
    PlanRead,
    /// The session's text is refused.
    Session(SessionFault),
    /// The session's reader failed.
    SessionRead,
    /// The file of requests can't be opened.
    CannotOpenRequests,
    /// The line of requests of this number is bad.
    RequestsLine(u32, LineKind),
    /// The reader of the requests failed.
    RequestsRead,
    /// The file of lists can't be opened.
    CannotOpenLists,
    /// The line of lists of this number is bad.
    ListsLine(u32, LineKind),
    /// The reader of the lists failed.
    ListsRead,
    /// A writer failed.
    Write,
    /// An allocation failed.
    NoMemory,
    /// A word of the command line isn't UTF-8.
    NotUtf8,
}

impl Failure {
    /// The status with which a run ends.
    pub fn status(self) -> Status
        ensures { result ≡ status_of self }
    {
        match self {
            Failure::BadValue(_) | Failure::SameNode | Failure::BadAvoid => Status::Usage,
            Failure::PlanLine(_) => Status::Plan,
            Failure::Session(_) => Status::Session,
            Failure::CannotOpenPlan | Failure::CannotOpenSession | Failure::CannotMakeSession => {
                Status::Io
            }
            Failure::PlanRead | Failure::SessionRead | Failure::Write => Status::Io,
            Failure::RequestsLine(_, _) | Failure::ListsLine(_, _) => Status::Session,
            Failure::CannotOpenRequests | Failure::RequestsRead => Status::Io,
            Failure::CannotOpenLists | Failure::ListsRead => Status::Io,
            Failure::NoMemory => Status::Memory,
            Failure::NotUtf8 => Status::Usage,
        }
    }

    /// The failure that refused lines of this form are.
    pub fn of_lines(form: LineForm, fault: LinesFault) -> Failure
        ensures { result ≡ failure_of_lines form fault }
    {
        match (form, fault) {
            (_, LinesFault::NoMemory) => Failure::NoMemory,
            (LineForm::Requests, LinesFault::Read) => Failure::RequestsRead,
            (LineForm::Requests, LinesFault::Line(line, kind)) => {
                Failure::RequestsLine(line, kind)
            }
            (LineForm::Lists, LinesFault::Read) => Failure::ListsRead,
            (LineForm::Lists, LinesFault::Line(line, kind)) => Failure::ListsLine(line, kind),
        }
    }
}

/// The failure that refused values are.
impl From<ValueFault> for Failure {
    ghost from_gives = { λ fault e. e ≡ failure_of_value fault };

    fn from(fault: ValueFault) -> Failure {
        match fault {
            ValueFault::Bad(name) => Failure::BadValue(name),
            ValueFault::SameNode => Failure::SameNode,
            ValueFault::NoMemory => Failure::NoMemory,
            ValueFault::BadAvoid => Failure::BadAvoid,
        }
    }
}

/// The failure that a refused plan is.
impl From<PlanFault> for Failure {
    ghost from_gives = { λ fault e. e ≡ failure_of_plan fault };

    /// Separates a failed reader and a failed allocation from a bad line.
    fn from(fault: PlanFault) -> Failure {
        match fault.kind {
            PlanKind::Read => Failure::PlanRead,
            PlanKind::NoMemory => Failure::NoMemory,
            _ => Failure::PlanLine(fault),
        }
    }
}

/// The failure that a refused session is.
impl From<SessionFault> for Failure {
    ghost from_gives = { λ fault e. e ≡ failure_of_session fault };

    /// Separates a failed reader and a failed allocation from a bad text.
    fn from(fault: SessionFault) -> Failure {
        match fault {
            SessionFault::Read => Failure::SessionRead,
            SessionFault::NoMemory => Failure::NoMemory,
            _ => Failure::Session(fault),
        }
    }
}

/// A writer's failure.
impl From<WriteFault> for Failure {
    ghost from_gives = { λ _ e. e ≡ failure.Write };

    fn from(_fault: WriteFault) -> Failure {
        Failure::Write
    }
}

/// A failed allocation.
impl From<NoMemory> for Failure {
    ghost from_gives = { λ _ e. e ≡ failure.NoMemory };

    fn from(_refused: NoMemory) -> Failure {
        Failure::NoMemory
    }
}

/// How a run of the program ended.
#[derive(Clone, Copy, Debug, PartialEq, Eq)]
pub enum Status {
    /// The run did what was asked of it.
    Done,
    /// The answer is no: contacts that are no route, or a session that isn't one of the plan's.
    No,
    /// The words of the command line were refused.
    Usage,
    /// The plan was refused.
    Plan,
    /// The session was refused.
    Session,
    /// Input or output failed.
    Io,
    /// An allocation failed.
    Memory,
}

impl Status {
    /// The program's exit status, from 0 to 6.
    pub fn number(self) -> u8
        ensures { result ≡ number_of self }
    {
        match self {
            Status::Done => 0,
            Status::No => 1,
            Status::Usage => 2,
            Status::Plan => 3,
            Status::Session => 4,
            Status::Io => 5,
            Status::Memory => 6,
        }
    }
}
