//! Writing a session text and the report of a page.

mod pieces;
mod put_numbers;
mod report;
mod session_text;
mod text_buffer;

pub use pieces::put_pieces;
pub use report::{put_report, put_route_line, write_report};
pub use session_text::write_session;
pub use text_buffer::TextBuffer;
