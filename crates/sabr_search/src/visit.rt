//! Nodes, and seconds for them.

ghost use Rattle.std.specs.Prelude.{◌≡◌, slice_index};

/// No second: what is never reached, or never too late.
pub const NEVER: u64 = u64::MAX;

/// The first second after every arrival.
pub const UNDELIVERED: u64 = 253372764800;

/// A node, and the second at which the bundle is there. In a queue, the second is the one by which events are ordered.
#[derive(Clone, Copy)]
pub struct Visit {
    pub node: usize,
    pub at: u64,
}

/// A contact that is taken, by number, and where and when it arrives.
#[derive(Clone, Copy)]
pub struct Step {
    pub number: u32,
    pub node: usize,
    pub at: u64,
}

/// Returns the seconds of a node in a list; 0 after its end.
#[inline(always)]
pub fn seconds_of(seconds: &[u64], node: usize) -> u64
    ensures { result ≡ slice_index seconds.now node }
{
    match seconds.get(node) {
        Some(second) => *second,
        None => 0,
    }
}
