//! The values of a request, before they are checked.

use crate::node_list::NodeList;

/// The values of a request, which [`Request`](crate::Request) may refuse. It owns no heap memory.
#[derive(Drop)]
pub struct RequestValues {
    /// The source.
    pub from: u64,
    /// The destination.
    pub to: u64,
    /// When the bundle is at the source, in seconds since 1970-01-01T00:00:00Z.
    pub at: u64,
    /// The margin on light times, in parts per million.
    pub margin_ppm: u32,
    /// The largest number of contacts that a route may have.
    pub max_hops: u32,
    /// The nodes that no route passes.
    pub avoid: NodeList,
}
