//! The engine for a web page: the runs of the program over texts in memory, and the canonical text of a plan. Compiled
//! for WebAssembly with 64-bit memory, it imports nothing, and allocates nothing but in memory that the host lends.
//!
//! # The calls
//!
//! Each export has the same three parameters, addresses in the module's memory (type `i64`), and a status from 0 to 6
//! as its result (type `i32`):
//!
//! ```text
//! cgrlist_check      cgrlist_first   cgrlist_next     cgrlist_verify
//! cgrlist_explain    cgrlist_many    cgrlist_follow   cgrlist_canonical
//!     (memory: i64, asked: i64, outputs: i64) -> i32
//! ```
//!
//! All numbers in memory are of 8 bytes, little-endian, and each struct begins at a multiple of 8. A text is an address
//! and a length in bytes. The address is never 0, also where the length is.
//!
//! | Parameter | Points to |
//! |---|---|
//! | `memory` | [`Region`](host::Region): address and size of the memory that is lent, which comes back. The size is 4096 k - 16 |
//! | `asked` | [`Asked`]: the twelve texts plan, session, requests, lists, from, to, at, margin, hops, avoid, count and contacts, each an address and a length; at byte 192 one byte, 1 if the session after a page is written, and else 0 |
//! | `outputs` | [`Outputs`]: report, session and message, each the address and the length of its buffer, and then a number, to which the call sets the length of the text |
//!
//! Each run reads the texts of its command, and no others. A buffer gets as much of its text as it has room for. The
//! statuses are the program's, but for 5: where the lent memory or a buffer was too small, the status is 6. The host
//! then lends more memory, and buffers of at least the lengths that the call set, and calls again.
#![tactic(auto)]

mod answer;
mod asked;
mod call;
mod canonical;
mod exports;
mod laws;
mod lending;
mod outputs;
mod run;
mod runs;
mod writers;

pub use asked::Asked;
pub use exports::{
    cgrlist_canonical, cgrlist_check, cgrlist_explain, cgrlist_first, cgrlist_follow, cgrlist_many,
    cgrlist_next, cgrlist_verify,
};
pub use laws::first_lists_the_routes;
pub use outputs::{OutputText, Outputs};
