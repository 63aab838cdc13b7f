//! Taking routes back that were given, without memory.

ghost use Rattle.std.specs.Prelude.{◌≡◌, ◌-◌, ◌<◌, length, vec_len};
ghost use Rattle.sabr_frontier.specs.tree.Shape.{shape_of};
ghost use Rattle.sabr_frontier.specs.tree.Undo.{CanUndo, CanUndoTimes, IsIndexBack, IsLonger, IsRoomy, IsSpacious, undone, undone_times, given_back, modify};

use crate::tree::winners::rebuild;
use crate::tree::{Node, NodeId, Tree};
use sabr_model::Route;
use std::alloc::Allocator;

/// Puts the route back into its node.
pub fn give_back<A: Allocator + Copy>(nodes: &mut Vec<Node<A>, A>, node: NodeId, route: Route<A>)
    requires in_range { node.0 < vec_len nodes.old }
    requires longer { IsLonger nodes.old.items node.0 route }
    ensures { nodes.new.items ≡ modify (given_back route) nodes.old.items node.0 }
{
    let part = &mut nodes[node.0];
    let number = route.contacts.as_slice()[part.length];
    part.excluded.forget(number);
    part.route = Some(route);
}

impl<A: Allocator + Copy> Tree<A> {
    /// Takes the last route back. It allocates nothing, and leaves the index and the winners as they were.
    fn undo(&mut self)
        requires possible { CanUndo (shape_of self.old) }
        requires room { IsSpacious self.old }
        ensures former { shape_of self.new ≡ undone (shape_of self.old) }
        ensures index { self.new.index.items ≡ self.old.index.items }
        ensures room { IsSpacious self.new }
    {
        let Some(entry) = self.journal.pop() else {
            unreachable!()
        };
        let Some(route) = self.leaves.pop() else {
            unreachable!()
        };
        self.nodes.truncate(entry.nodes);
        give_back(&mut self.nodes, entry.node, route);
        self.last = entry.last;
    }

    /// Takes routes back until the journal has as many entries as it had then. It allocates nothing.
    pub fn undo_to(&mut self, start: usize)
        requires possible { CanUndoTimes (length self.old.journal.items - start) (shape_of self.old) }
        requires index { IsIndexBack (undone_times (length self.old.journal.items - start) (shape_of self.old)) self.old.index.items }
        requires room { IsRoomy self.old }
        ensures former { shape_of self.new ≡ undone_times (length self.old.journal.items - start) (shape_of self.old) }
        ensures index { self.new.index.items ≡ (shape_of self.new).index }
        ensures room { IsRoomy self.new }
    {
        while self.journal.len() > start {
            self.undo();
        }
        let count = self.nodes.len();
        self.index.retain(|id| id.0 < count);
        rebuild(self.nodes.as_slice(), &mut self.winners);
    }
}
