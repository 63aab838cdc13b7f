//! Waiting events, the earliest first.

ghost use Rattle.std.specs.Prelude.{◌≡◌, ◌≤◌, ◌<◌, ◌^◌, ◌∷◌, [], map, All, IfSome, IfNone, OnOk, OnErr};
ghost use Rattle.std.specs.List.Sorted.{IsPermutation};
ghost use Rattle.sabr_search.specs.layers.Events.{event_of};

use crate::visit::Visit;
use sabr_model::NoMemory;
use std::alloc::Allocator;
use std::cmp::Reverse;
use std::collections::BinaryHeap;
use std::marker::Model;

/// The last second that an event may have. A key of 64 bits has 40 for it, 8 for the rank and 16 for the node.
pub const LAST_AT: u64 = 1099511627775;

/// The number of ranks; higher ones count as the last. With one rank, 100 routes over a grid of 1600 nodes
/// took half more instructions, and 1000 over a satellite plan a third more, in a copy of this design in plain Rust. To
/// vary it: `bench/figures.py --counts 100,1000 --only grid-40,iridium,cube`.
const RANKS: u64 = 256;

/// The nodes that an event may have. A plan has at most 40000.
const NODES: u64 = 65536;

/// The keys of one second.
const KEYS: u64 = RANKS * NODES;

/// Returns the key of an event: the lesser, the earlier it is; of two at the same second, the lesser its rank is.
fn key_of(event: Visit, rank: u64) -> u64
    requires at { event.at < 2 ^ 40 }
    requires node { event.node < 2 ^ 16 }
    ensures { event_of result ≡ event }
{
    event.at * KEYS + rank.min(RANKS - 1) * NODES + event.node as u64
}

/// Returns the event that has a key.
fn event_of_key(key: u64) -> Visit
    ensures { result ≡ event_of key }
{
    Visit {
        at: key / KEYS,
        node: (key % NODES) as usize,
    }
}

/// Waiting events, seen as a list of them in some order.
#[derive(Drop)]
pub struct Queue<A: Allocator + Copy> {
    /// Their keys.
    keys: BinaryHeap<Reverse<u64>, A>,
}

impl<A: Allocator + Copy> Model for Queue<A> {
    ghost use Rattle.std.specs.Prelude.{List, map};
    ghost use Rattle.std.specs.BinaryHeap.{heap_items, IsHeap};
    ghost use Rattle.sabr_search.specs.declared.visit.Visit.{Visit};
    ghost use Rattle.sabr_search.specs.layers.Events.{event_of};

    ghost Value = { List Visit };

    ghost view = { λ q. map (λ k. event_of k.0) (heap_items q.keys) };

    ghost invariant = { λ q. IsHeap ⟦<Reverse<u64> as Ord>⟧.cmp (heap_items q.keys) };
}

impl<A: Allocator + Copy> Queue<A> {
    /// Makes an empty queue. It doesn't allocate.
    pub fn new(alloc: A) -> Queue<A>
        ensures { result ≡ [] }
    {
        Queue {
            keys: BinaryHeap::new(alloc),
        }
    }

    /// Removes all events and keeps their memory.
    pub fn clear(&mut self)
        ensures { self.new ≡ [] }
    {
        self.keys.clear();
    }

    /// Adds an event; refused if the queue has to grow and memory is refused. Of events at one second, those of lesser
    /// rank come first.
    pub fn push(&mut self, event: Visit, rank: u64) -> Result<(), NoMemory>
        requires at { event.at < 2 ^ 40 }
        requires node { event.node < 2 ^ 16 }
        ensures ok { OnOk result (IsPermutation (event ∷ self.old) self.new) }
        ensures err { OnErr result (self.new ≡ self.old) }
    {
        self.keys.push(Reverse(key_of(event, rank)))?;
        Ok(())
    }

    /// Removes and returns the earliest event.
    #[inline(always)]
    pub fn pop(&mut self) -> Option<Visit>
        ensures none { IfNone result (self.old ≡ []) }
        ensures moved { IfSome result (λ x. IsPermutation self.old (x ∷ self.new)) }
        ensures first { IfSome result (λ x. All (λ e. x.at ≤ e.at) self.new) }
    {
        let Reverse(key) = self.keys.pop()?;
        Some(event_of_key(key))
    }
}
