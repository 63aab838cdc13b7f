//! The plan files of ionrc(5): reading a plan, times, the canonical text of a plan, and its digest.
//!
//! [`read_plan`] reads a plan from a reader, and [`parse_plan`] from a text in memory. Both report the first bad line
//! as a [`PlanFault`]: the number of the line, from 1, and a [`PlanKind`]. [`canonical`] writes one text for each plan,
//! and [`digest`] is the SHA-256 of that text, by which a saved session knows its plan. [`parse_time`] and
//! [`time_text`] convert a second from and to `yyyy/mm/dd-hh:mm:ss`; [`DayText`] does so for many seconds.
//! [`number_within`] reads a decimal number, and [`first_piece`] splits a text at the bytes of one value.
//!
//! **Commands.** `a contact FROM-TIME TO-TIME SENDER RECEIVER RATE`, `a range FROM-TIME TO-TIME NODE NODE LIGHT`,
//! `d contact TIME SENDER RECEIVER`, `d range TIME NODE NODE`, and `@ TIME`, from which the relative times `+N` of the
//! lines after it count. A line that begins with `#`, or has no word, is skipped.
//!
//! **Units.** Times are seconds since 1970-01-01T00:00:00Z (UTC without leap seconds), rates bytes per second, and
//! light times whole seconds.
//!
//! **Errors.** Lines of more than 255 bytes, other bytes than tabs and 32 to 126, unknown commands, times outside the
//! years 1970 to 9998, bad numbers, and all that [`AddFault`](sabr_model::AddFault) refuses. Nothing is skipped: a plan
//! with a bad line isn't read.
//!
//! **Sources.** The commands and times are those of ionrc(5). The limits, the stricter numbers, and the canonical text
//! are this project's profile. SHA-256 is that of FIPS 180-4.
//!
//! A line is read on a fast path if it adds a record in the usual form, and by the general reader otherwise. What the
//! fast path returns is proved to be the general reader's result. One line at a time is held, in a fixed array.
//!
//! ```ignore
//! let text = b"a contact 2030/01/01-00:00:00 2030/01/01-00:01:40 1 2 1000\n\
//!     a range 2030/01/01-00:00:00 2030/01/01-00:16:40 1 2 10\n";
//! let plan = parse_plan(rt.alloc(), text)?;
//! assert_eq!(rt; plan.hop(1).and_then(|h| h.light), Some(10));
//! assert_eq!(rt; parse_time(b"2030/01/01-00:00:00"), Some(1893456000));
//! ```
#![tactic(auto)]

mod canonical_text;
mod command;
mod day_text;
mod eight_digits;
mod fast_line;
mod fault;
mod feed;
mod gathering;
mod known_day;
mod laws;
mod number;
mod operand;
mod pieces;
mod read;
mod reading;
mod record_line;
mod time;
mod without_light;
mod words;

pub use canonical_text::{canonical, digest};
pub use day_text::DayText;
pub use fault::{PlanFault, PlanKind};
pub use feed::MAX_LINES;
pub use gathering::GrowingRanges;
pub use laws::spelled_plans_obey;
pub use number::{MAX_U32, leading_number, number_within};
pub use pieces::{ended_line, first_piece, line_end};
pub use read::{parse_plan, read_plan};
pub use time::{parse_time, time_text};
pub use without_light::contacts_without_light;
pub use words::is_word;
