//! The texts that runs write, except for reports and sessions.

mod explanation;
mod messages;

pub use explanation::{put_explanation, write_explanation};
pub use messages::{report_answer, report_end, report_failure, write_pieces};
