//! From the start forward: arrivals in order, and layers by hops.

pub mod arrivals;
pub mod layers;
pub mod settling;
