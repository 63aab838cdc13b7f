//! Why a plan text is refused.

use thiserror::Error;

/// The fault of a line or of the reader, in the order of checking. The first that applies to a line is reported. The
/// commands are those of ionrc(5), and all else is this project's profile.
#[derive(Clone, Copy, Debug, PartialEq, Eq, Error)]
pub enum PlanKind {
    /// The line has more than 255 bytes without its LF.
    #[error("the line is too long")]
    LineTooLong,
    /// A line that is no comment has a byte other than tabs and the bytes 32 to 126.
    #[error("the line has a byte that is not plain text")]
    BadByte,
    /// The line doesn't begin with `@`, `a contact`, `a range`, `d contact` or `d range`.
    #[error("the command is unknown")]
    UnknownCommand,
    /// The command has too few or too many operands.
    #[error("the number of operands is wrong")]
    WrongOperands,
    /// A time is in neither form, outside the years 1970 to 9998, or relative where it must be absolute.
    #[error("a time is not one")]
    BadTime,
    /// A time is relative, and there is no `@` line before it.
    #[error("a relative time has no reference")]
    NoReference,
    /// A node is not a number from 1 to 18446744073709551615.
    #[error("a node is not one")]
    BadNode,
    /// A rate is not a number up to 18446744073709551615, or a light time is not one up to 1000000.
    #[error("a rate or a light time is not one")]
    BadNumber,
    /// The start isn't before the stop.
    #[error("the window is empty")]
    EmptyWindow,
    /// The two nodes are the same.
    #[error("both nodes are the same")]
    SelfPair,
    /// A standing contact has the same start, sender and receiver.
    #[error("such a contact stands")]
    DuplicateContact,
    /// A standing range of the same ordered pair of nodes overlaps it.
    #[error("a range of the same pair overlaps")]
    RangeOverlap,
    /// It would be contact number 20001, the 20001st standing range, or line 1000001. A line's number is checked before
    /// anything else.
    #[error("too many contacts, ranges or lines")]
    TooMany,
    /// The reader failed.
    #[error("reading failed")]
    Read,
    /// An allocation failed. The number of the line is unspecified.
    #[error("out of memory")]
    NoMemory,
    /// There is no standing contact or range to delete.
    #[error("there is nothing to delete")]
    NothingToDelete,
}

/// The first bad line of a plan text, counted from 1, and what is wrong with it.
#[derive(Clone, Copy, Debug, PartialEq, Eq, Error)]
#[error("line {line}: {kind}")]
pub struct PlanFault {
    pub line: u32,
    pub kind: PlanKind,
}
