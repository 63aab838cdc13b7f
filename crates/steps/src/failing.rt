//! An allocator, a reader and a writer that fail where a test wants it.
//!
//! A [`Ration`] passes each request for memory on, counts it, and can refuse one of them. A collection of any crate
//! takes a `&Ration` where it would take `Global`. A test lets a call run once with nothing refused, asks how many
//! requests it made, and then runs it once for each of them refused:
//!
//! ```ignore
//! let ration = Ration::new(rt.alloc(), 0);
//! ration.refuse(0);
//! assert!(rt; load(&ration).is_ok());
//! for request in 1..=ration.requests() {
//!     ration.refuse(request);
//!     assert!(rt; load(&ration).is_err(), "at {request}");
//! }
//! ```
//!
//! Each `allocate` is a request, and so is each `grow` or `shrink` of a block. Freeing a block is none, and is never
//! refused. Only the chosen request is refused; those after it are passed on again.
//!
//! A [`PieceReader`] returns its bytes in pieces of a chosen size and then ends or fails. A [`LimitedWriter`] takes
//! bytes in pieces up to a limit and fails beyond it.
//!
//! The contracts say that a `Ration` is an allocator, whose blocks are the inner allocator's, and which bytes the
//! reader and the writer give and take. What a `Ration` counts stands in a cell, of which no contract can speak: tests
//! show it.

mod ration;
mod reader;
#[cfg(test)]
mod tests;
mod writer;

pub use ration::Ration;
pub use reader::{End, PieceReader};
pub use writer::LimitedWriter;
