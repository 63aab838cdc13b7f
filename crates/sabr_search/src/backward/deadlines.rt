//! Deadlines of layers that were made backward: for each layer and node, the first second that is too late for the
//! rest.

ghost use Rattle.std.specs.Prelude.{◌≡◌, ℕ, ◌<◌, Some, ◌≤◌, ◌+◌, length, slice_get};
ghost use Rattle.sabr_search.specs.layers.Deadlines.{AreChained, IsLatestWithin, end_within, head_of};

use std::alloc::Allocator;

/// A node of a layer, and the first second that is too late there: a bundle that leaves it before is at the goal in
/// time.
#[derive(Clone, Copy)]
pub struct Deadline {
    pub node: usize,
    pub before: u64,
}

/// Layers made backward from the goal, and what is known of each node. A node's entries are a linked list, the last one
/// first: `head` and `fewer` give the place after the next one, and no entry is below place 0.
#[derive(Drop)]
pub struct Deadlines<A: Allocator + Copy> {
    /// The allocator of the buffers.
    pub alloc: A,
    /// For each node, the first second that is too late so far.
    pub deadline: Vec<u64, A>,
    /// For each node, the place of its last entry; any place if it has none.
    pub place: Vec<usize, A>,
    /// The entries, layer by layer; the first is the goal's.
    pub entries: Vec<Deadline, A>,
    /// For each entry, the place after the same node's previous entry, which has fewer hops; 0 if there is none.
    pub fewer: Vec<usize, A>,
    /// Where layers end, after a 0: layer h has the entries from `ends[h]` to before `ends[h + 1]`.
    pub ends: Vec<usize, A>,
}

impl<A: Allocator + Copy> Deadlines<A> {
    /// Starts without layers. It doesn't allocate.
    pub fn new(alloc: A) -> Deadlines<A> {
        Deadlines {
            alloc,
            deadline: Vec::new(alloc),
            place: Vec::new(alloc),
            entries: Vec::new(alloc),
            fewer: Vec::new(alloc),
            ends: Vec::new(alloc),
        }
    }

    /// Returns the place after a node's last entry; 0 if it has none.
    #[inline(always)]
    pub fn head(&self, node: usize) -> usize
        requires deadline { node < length self.now.deadline.items }
        requires place { node < length self.now.place.items }
        requires within { head_of self.now.deadline.items self.now.place.items node ≤ length self.now.entries.items }
        ensures { result ≡ head_of self.now.deadline.items self.now.place.items node }
    {
        let deadline = self.deadline[node];
        if deadline == 0 {
            return 0;
        }
        let last = self.place[node];
        last + 1
    }

    /// Returns the place after the entries of at most that many hops.
    #[inline(always)]
    pub fn end_of(&self, hops: usize) -> usize
        requires { 0 < length self.now.ends.items }
        ensures { result ≡ end_within self.now.ends.items hops }
    {
        let last = self.ends.len() - 1;
        self.ends[hops.saturating_add(1).min(last)]
    }

    /// Returns the first second that is too late at a node by its entries before this place; 0 if it has none there.
    #[inline(always)]
    pub fn before(&self, node: usize, end: usize) -> u64
        requires chained { AreChained self.now }
        requires node { node < length self.now.place.items }
        ensures latest { IsLatestWithin self.now.entries.items node end result }
        ensures met { 0 < result → (p : ℕ) × (p < end) × (slice_get self.now.entries.items p ≡ Some (record { node = node; before = result })) }
    {
        let mut place = self.head(node);
        while place > end {
            place = self.fewer[place - 1];
        }
        if place == 0 {
            return 0;
        }
        self.entries[place - 1].before
    }
}
