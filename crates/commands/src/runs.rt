//! The runs: each reads from readers, writes to writers, and returns how it ended.

mod answering;
mod check;
mod explain;
mod first;
mod many_and_follow;
mod next;
mod pages;
mod verify;

pub use check::run_check;
pub use explain::run_explain;
pub use first::run_first;
pub use many_and_follow::{run_follow, run_many};
pub use next::run_next;
pub use verify::run_verify;
