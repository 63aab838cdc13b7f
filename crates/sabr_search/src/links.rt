//! Links that are walked.

pub mod finger;
mod least_link;
mod leave_link;
pub mod over_link;
pub mod walked_link;
