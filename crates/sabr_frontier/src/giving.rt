//! Giving the best routes that a tree carries, one after another.

mod divide;
mod give_last;
mod give_next;
mod give_page;
pub mod searcher;
mod smallest_keys;
