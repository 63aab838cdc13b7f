//! The texts of a session: the saved session, written, read and verified, and the report of a page.
//!
//! A [`Session`](sabr_frontier::Session) lists the routes of a request page by page, best first. [`write_session`]
//! saves one, and [`read_session`] or, chunk by chunk, [`SessionFeed`] reads it again, so that a later run goes on
//! where an earlier one ended. [`verify`] tests by searches that a saved session is the text after some number of the
//! best routes. [`verify_over`] does so over an index that the caller keeps, and [`read_paused`] makes none.
//! [`write_report`] writes the lines of a page. [`Hops`] follows a list of contacts hop by hop.
//!
//! **Format.** A saved session has the digest of its plan, the request, the number of emitted routes, the last of them,
//! and the parts of the listing that are left, each with its prefix, its excluded contacts and its best route. Version
//! 2 is written. Version 1, of requests without limits, is also read.
//!
//! **Units.** Times in a saved session are seconds since 1970-01-01T00:00:00Z, and a margin is in parts per million of
//! light times. A report has times as `yyyy/mm/dd-hh:mm:ss`, UTC, and ranks from 1.
//!
//! **Errors.** [`SessionFault`] is the first fault of a text: another format or another plan, a malformed line, a bad
//! request, parts that don't belong together, or a failed reader or allocation. Reading doesn't search. A text that was
//! changed can leave routes out and still be read, and [`verify`] finds that.
//!
//! **Sources.** The formats are this project's own. The parts are those of Yen's and Lawler's algorithms for the k best
//! paths.
//!
//! The first three routes of a request, and the session after them:
//!
//! ```ignore
//! let mut session = Session::start(alloc, &plan, request, Settled::new(alloc))?;
//! let routes = session.page(3)?;
//! write_report(&routes, 1, session.more(), &mut out)?;
//! write_session(&session, &digest(&plan), &mut saved)?;
//! ```
//!
//! The contract of [`texts_of_plan_a`] is a worked example: the text before any route, and after one, two and three.
#![tactic(auto)]

mod hex_digest;
mod hops;
mod laws;
mod reading;
mod rows;
mod session_fault;
mod verifying;
mod writing;

pub use hex_digest::digest_text;
pub use hops::{FollowedHop, Hops};
pub use laws::{law7, one_answer, pages_stand, pieces_are_one_text, texts_are_placed};
pub use reading::{SessionFeed, read_paused, read_session};
pub use rows::texts_of_plan_a;
pub use session_fault::SessionFault;
pub use verifying::{verify, verify_over};
pub use writing::{
    TextBuffer, put_pieces, put_report, put_route_line, write_report, write_session,
};
