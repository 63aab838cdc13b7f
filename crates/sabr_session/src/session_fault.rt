//! Why a session text is refused.

use sabr_model::NoMemory;
use thiserror::Error;

/// The first fault of a session text. Lines are counted from 1. The format of the text and its faults are this
/// project's own.
#[derive(Clone, Copy, Debug, PartialEq, Eq, Error)]
pub enum SessionFault {
    /// The first line isn't that of a session text, is missing, or is unfinished.
    #[error("the first line is not that of a session text")]
    BadHeader,
    /// Another line is malformed, missing or unfinished, or comes after the last.
    #[error("line {0} is not spelled as it has to be")]
    BadLine(u128),
    /// The text was written over another plan.
    #[error("the text was written over another plan")]
    OtherPlan,
    /// The values of line 3 are refused as a request (see [`RequestError`](sabr_model::RequestError)).
    #[error("the request is refused")]
    BadRequest,
    /// The parts aren't closed: they aren't those that are left after some routes were emitted.
    #[error("the parts are not closed")]
    NotClosed,
    /// The route of a part is no route that belongs to it.
    #[error("line {0} carries a list that is no route of its part")]
    BadRoute(u128),
    /// The parts are closed, but the count isn't the number of emitted routes that they imply, or the last route isn't
    /// one of these.
    #[error("the count or the last route is wrong")]
    BadCount,
    /// The reader failed.
    #[error("reading failed")]
    Read,
    /// An allocation failed.
    #[error("out of memory")]
    NoMemory,
}

ghost use Rattle.std.specs.Prelude.{◌≡◌};
ghost use Rattle.sabr_session.specs.declared.session_fault.SessionFault.TheVariants as fault;

impl From<NoMemory> for SessionFault {
    ghost from_gives = { λ _ e. e ≡ fault.NoMemory };

    fn from(_refused: NoMemory) -> SessionFault {
        SessionFault::NoMemory
    }
}
