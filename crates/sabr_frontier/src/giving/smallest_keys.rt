//! The smallest keys of the routes that were found for a last page.

ghost use Rattle.std.specs.Prelude.{◌≡◌, ◌≤◌, ◌∷◌, [], Some, OnOk, length};
ghost use Rattle.sabr_model.specs.routes.Record.{RouteRecord};
ghost use Rattle.sabr_frontier.specs.tree.SmallestKeys.{AreNoted, CarryKeys, FitsKey, IsBoundOf, carried_keys, key_of, keys_of};

use crate::tree::Node;
use sabr_model::{NoMemory, Route};
use sabr_search::Bound;
use std::alloc::Allocator;
use std::collections::BinaryHeap;
use std::marker::Model;

/// More than the most hops of a route.
const HOPS: u64 = 65536;

/// The key of a route without its numbers: the lesser, the sooner it delivers; of two at one second, the fewer hops it
/// has.
fn key_of<A: Allocator + Copy>(route: &Route<A>) -> u64
    requires { FitsKey route.now }
    ensures { result ≡ key_of route.now }
{
    route.delivery * HOPS + route.contacts.as_slice().len() as u64
}

/// The smallest keys of routes, up to a number of them.
#[derive(Drop)]
pub struct SmallestKeys<A: Allocator + Copy> {
    /// How many.
    most: usize,
    /// The keys.
    keys: BinaryHeap<u64, A>,
}

impl<A: Allocator + Copy> Model for SmallestKeys<A> {
    ghost use Rattle.std.specs.Prelude.{◌≤◌, length};
    ghost use Rattle.std.specs.BinaryHeap.{heap_items, IsHeap};
    ghost use Rattle.sabr_frontier.specs.tree.SmallestKeys.{SeenKeys};

    ghost Value = { SeenKeys };

    ghost view = { λ l. record { most = l.most; keys = heap_items l.keys } };

    ghost invariant = { λ l. IsHeap ⟦<u64 as Ord>⟧.cmp (heap_items l.keys) × (length (heap_items l.keys) ≤ l.most) };
}

impl<A: Allocator + Copy> SmallestKeys<A> {
    /// Has no key yet. It allocates nothing.
    pub fn new(alloc: A, most: usize) -> SmallestKeys<A>
        ensures { result ≡ record { most = most; keys = [] } }
    {
        SmallestKeys {
            most,
            keys: BinaryHeap::new(alloc),
        }
    }

    /// States that no more keys are held than may be, for contracts. It does nothing.
    fn few_hold(&self)
        ensures { length self.now.keys ≤ self.now.most }
    {
        self.keys.len();
    }

    /// Notes a key: of one too many, the largest goes.
    fn note(&mut self, key: u64) -> Result<(), NoMemory>
        ensures { OnOk result (AreNoted self.old (key ∷ []) self.new) }
    {
        self.keys.push(key)?;
        if self.keys.len() > self.most {
            self.keys.pop();
        }
        Ok(())
    }

    /// Notes the key of what a node carries.
    pub fn note_carried(&mut self, node: &Node<A>) -> Result<(), NoMemory>
        requires { (x : RouteRecord) → node.now.route ≡ Some x → FitsKey x }
        ensures { OnOk result (AreNoted self.old (keys_of node.now.route) self.new) }
    {
        match &node.route {
            Some(route) => self.note(key_of(route)),
            None => {
                self.few_hold();
                Ok(())
            }
        }
    }

    /// Notes the keys of what these nodes carry.
    pub fn note_all(&mut self, nodes: &[Node<A>]) -> Result<(), NoMemory>
        requires { CarryKeys nodes.now }
        ensures { OnOk result (AreNoted self.old (carried_keys nodes.now) self.new) }
    {
        self.few_hold();
        for place in 0..nodes.len() {
            self.note_carried(&nodes[place])?;
        }
        Ok(())
    }

    /// The largest key, as a bound, if there are as many as may be held; none if there are fewer.
    pub fn bound(&self) -> Option<Bound>
        ensures { IsBoundOf self.now result }
    {
        if self.keys.len() < self.most {
            return None;
        }
        let largest = *self.keys.peek()?;
        Some(Bound {
            delivery: largest / HOPS,
            hops: (largest % HOPS) as usize,
        })
    }
}
