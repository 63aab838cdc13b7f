//! The tree before any route is given.

ghost use Rattle.std.specs.Prelude.{◌≡◌, IfOk};
ghost use Rattle.sabr_frontier.specs.tree.Shape.{shape_of, root};
ghost use Rattle.sabr_frontier.specs.tree.Undo.{IsRoomy};

use crate::tree::excluded_numbers::ExcludedNumbers;
use crate::tree::winners::rebuild;
use crate::tree::{Node, NodeId, Tree};
use sabr_model::{NoMemory, Route};
use std::alloc::Allocator;

impl<A: Allocator + Copy> Tree<A> {
    /// Makes the tree of one part with all routes, which carries the best of them.
    pub fn root(alloc: A, found: Option<Route<A>>) -> Result<Tree<A>, NoMemory>
        ensures shape { IfOk result (λ t. shape_of t ≡ root found) }
        ensures index { IfOk result (λ t. t.index.items ≡ (shape_of t).index) }
        ensures room { IfOk result IsRoomy }
    {
        let mut nodes = Vec::new(alloc);
        let mut index = Vec::new(alloc);
        let mut winners = Vec::new(alloc);
        nodes.reserve(1)?;
        index.reserve(1)?;
        winners.reserve(1)?;
        index.push_reserved(NodeId(0));
        nodes.push_reserved(Node {
            leaf: 0,
            length: 0,
            excluded: ExcludedNumbers::none(alloc),
            route: found,
        });
        rebuild(nodes.as_slice(), &mut winners);
        Ok(Tree {
            nodes,
            index,
            unindexed: Vec::new(alloc),
            winners,
            leaves: Vec::new(alloc),
            last: None,
            journal: Vec::new(alloc),
            is_searched: true,
        })
    }
}
