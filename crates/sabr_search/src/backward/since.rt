//! For each node, a second before which no way comes there.

ghost use Rattle.std.specs.Prelude.{◌≡◌, ◌≤◌, ◌<◌, ◌^◌, ℕ, length, slice_index};

use crate::visit::seconds_of;
use std::marker::Model;

/// For each node, a second before which no way comes there. Contracts see a list of them. Each is found when it is
/// asked for, since layers ask for few nodes of a large plan.
#[derive(Drop)]
pub struct Since<'a> {
    /// How many nodes there are.
    pub nodes: usize,
    /// For each node, a second before which no way comes there, but only if it is before `last` in
    /// [`at`](Since::at); 0 after the list's end.
    pub arrival: &'a [u64],
    /// For each node, a number of seconds that each way to the goal takes at least; 0 after the list's end.
    pub costs: &'a [u64],
    /// For each node, a second before which no way comes there; 0 after the list's end.
    pub soon: &'a [u64],
    /// The delivery up to which arrivals are known.
    pub delivery: u64,
}

impl<'a> Model for Since<'a> {
    ghost use Rattle.std.specs.Prelude.{List, ℕ};
    ghost use Rattle.sabr_search.specs.layers.Since.{since_of};

    ghost Value = { List ℕ };

    ghost view = { λ s. since_of s.nodes s.arrival.now s.costs.now s.soon.now s.delivery };
}

impl<'a> Since<'a> {
    /// The seconds of a list, for that many nodes.
    pub fn soonest(nodes: usize, soon: &'a [u64]) -> Since<'a>
        ensures many { length result ≡ nodes }
        ensures each { (k : ℕ) → slice_index result k ≤ slice_index soon.now k }
    {
        Since {
            nodes,
            arrival: &[],
            costs: &[],
            soon,
            delivery: 0,
        }
    }

    /// Returns a second before which no way comes to a node.
    #[inline(always)]
    pub fn at(&self, node: usize) -> u64
        requires { node < length self.now }
        ensures { result ≡ slice_index self.now node }
    {
        // The last second there from which the delivery can be met. Arrivals from then on weren't settled, and aren't
        // known.
        let last = self.delivery.saturating_sub(seconds_of(self.costs, node));
        let arrival = seconds_of(self.arrival, node);
        if arrival < last {
            return arrival;
        }
        last.max(seconds_of(self.soon, node))
    }
}
