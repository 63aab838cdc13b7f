//! Reading a session text.

mod first_lines;
mod line_reader;
mod lists;
mod part_line;
mod session_feed;
mod session_lines;
mod words;

pub use session_feed::{SessionFeed, read_paused, read_session};
