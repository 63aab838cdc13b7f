//! From the goal backward: layers by hops, and the last seconds.

pub mod deadlines;
pub mod from_goal;
pub mod relaxation;
pub mod since;
pub mod walk;
