//! Changing the tree when a route is given, without memory.

ghost use Rattle.std.specs.Prelude.{◌≡◌, ◌+◌, ◌<◌, ◌≤◌, length, vec_len, vec_capacity, IfSome, IfNone, IsTrue, IsFalse, OnOk};
ghost use Rattle.sabr_model.specs.routes.Record.{RouteRecord};
ghost use Rattle.sabr_frontier.specs.tree.Shape.{shape_of, route_at};
ghost use Rattle.sabr_frontier.specs.tree.Undo.{IsRoomy, IsSpacious, modify, HasRoom};
ghost use Rattle.sabr_frontier.specs.tree.Winners.{AreOthersWinners, CarriesNone, CarriesSome, IsFirst};
ghost use Rattle.sabr_frontier.specs.tree.PageTrees.{carrying, given_by};

use crate::tree::prefixes::carried;
use crate::tree::winners::{fill, replay_up};
use crate::tree::{Entry, Node, NodeId, Tree};
use sabr_model::{NoMemory, Route};
use std::alloc::Allocator;
use std::mem;

/// Sets what the node carries, and returns what it carried.
pub fn carry<A: Allocator + Copy>(
    nodes: &mut Vec<Node<A>, A>,
    node: NodeId,
    found: Option<Route<A>>,
) -> Option<Route<A>>
    requires { node.0 < vec_len nodes.old }
    ensures nodes { nodes.new.items ≡ modify (carrying found) nodes.old.items node.0 }
    ensures route { result ≡ route_at nodes.old.items node }
    ensures len { vec_len nodes.new ≡ vec_len nodes.old }
    ensures capacity { vec_capacity nodes.new ≡ vec_capacity nodes.old }
{
    let part = &mut nodes[node.0];
    mem::replace(&mut part.route, found)
}

impl<A: Allocator + Copy> Tree<A> {
    /// The node that carries the best route, if some node carries one.
    pub fn best_node(&self) -> Option<NodeId>
        requires { IsRoomy self.now }
        ensures some { IfSome result (λ id. (x : RouteRecord) × IsFirst self.now.nodes.items id x) }
        ensures none { IfNone result (CarriesNone self.now.nodes.items) }
    {
        let id = *self.winners.first()?;
        carried(self.nodes.as_slice(), id)?;
        Some(id)
    }

    /// Whether no node carries a route.
    pub fn is_empty(&self) -> bool
        requires { IsRoomy self.now }
        ensures none { IsTrue result → CarriesNone self.now.nodes.items }
        ensures some { IsFalse result → CarriesSome self.now.nodes.items }
    {
        self.best_node().is_none()
    }

    /// Reserves room for one route given and `count` new nodes.
    pub fn reserve(&mut self, count: usize) -> Result<(), NoMemory>
        requires { IsRoomy self.old }
        ensures same { shape_of self.new ≡ shape_of self.old }
        ensures index { self.new.index.items ≡ self.old.index.items }
        ensures ok { OnOk result (HasRoom self.new count) }
        ensures room { IsRoomy self.new }
    {
        self.nodes.reserve(count)?;
        let nodes = self.nodes.len() + count;
        let unindexed = nodes.saturating_sub(self.index.len());
        self.index.reserve(unindexed)?;
        self.unindexed.reserve(unindexed)?;
        self.leaves.reserve(1)?;
        self.journal.reserve(1)?;
        let more = nodes.saturating_sub(self.winners.len());
        self.winners.reserve(more)?;
        Ok(())
    }

    /// Gives the route of a node, which was taken out of it: the node carries another or none. Its new nodes stand
    /// after the others already, and have no winners yet. There is room for all of it.
    pub fn change(&mut self, node: NodeId, found: Option<Route<A>>, route: Route<A>)
        requires in_range { node.0 < vec_len self.old.winners }
        requires within { vec_len self.old.winners ≤ vec_len self.old.nodes }
        requires won { AreOthersWinners (modify (carrying found) self.old.nodes.items node.0) self.old.winners.items node.0 (node.0 + 1) }

        // There is room for all that is added.
        requires space { IsSpacious self.old }
        requires leaf { vec_len self.old.leaves < vec_capacity self.old.leaves }
        requires entry { vec_len self.old.journal < vec_capacity self.old.journal }

        // The route is given, the index stays, and there is room for what comes.
        ensures shape { shape_of self.new ≡ given_by (shape_of self.old) node route found (length self.old.winners.items) }
        ensures index { self.new.index.items ≡ self.old.index.items }
        ensures room { IsRoomy self.new }
    {
        let first = self.winners.len();
        carry(&mut self.nodes, node, found);
        replay_up(self.nodes.as_slice(), self.winners.as_mut_slice(), node.0);
        fill(self.nodes.as_slice(), &mut self.winners);
        self.journal.push_reserved(Entry {
            node,
            nodes: first,
            last: self.last,
        });
        self.last = Some(self.leaves.len());
        self.leaves.push_reserved(route);
    }
}
