//! The words of the command line, and the strict reading of their values.

mod command_line;
mod lines;
mod pieces;
mod request_line;
mod request_words;
mod table;
mod value_fault;
mod values;

pub use command_line::parsed;
pub use lines::{LineForm, LineKind, LinesFault, read_lines};
pub use pieces::first_line;
pub use request_line::{Listed, list_in, request_in};
pub use request_words::RequestTexts;
pub use table::{
    AT, AVOID, CONTACTS, COUNT, FROM, LISTS, MARGIN_PPM, MAX_HOPS, PLAN, REQUESTS, SESSION,
    SESSION_OUT, TO, Word,
};
pub use value_fault::{ValueFault, ValueName};
pub use values::{
    ValueTexts, Values, explain_values, explain_values_in, first_values, first_values_in,
    page_count, page_count_in, read_values,
};
