//! The parts of a session, one after another, all borrowed.

ghost use Rattle.std.specs.Prelude.{◌≡◌};
ghost use Rattle.sabr_frontier.specs.session.Views.{seen_at, seen_of};

use crate::tree::prefixes::prefix;
use crate::tree::{Node, NodeId};
use sabr_model::Route;
use std::alloc::{Allocator, Global};

/// A part: the routes that begin with the prefix, are longer, and whose next number is not excluded.
#[derive(Drop)]
pub struct PartView<'a, A: Allocator + Copy = Global> {
    /// The contact numbers that each route of the part begins with.
    pub prefix: &'a [u32],
    /// The contact numbers that no route of the part takes next, in increasing order.
    pub excluded: &'a [u32],
    /// The best route of the part by key, or none if it has no route.
    pub route: Option<&'a Route<A>>,
}

/// The parts that are left, in order of prefix.
#[derive(Drop)]
pub struct Parts<'a, A: Allocator + Copy = Global> {
    pub index: &'a [NodeId],
    pub nodes: &'a [Node<A>],
    pub leaves: &'a [Route<A>],
}

/// Returns the part of a node.
fn part_view<'a, A: Allocator + Copy>(
    leaves: &'a [Route<A>],
    nodes: &'a [Node<A>],
    id: NodeId,
) -> PartView<'a, A>
    ensures { seen_of result ≡ seen_at leaves.now nodes.now id }
{
    match nodes.get(id.0) {
        Some(node) => PartView {
            prefix: prefix(leaves, node),
            excluded: node.excluded.as_slice(),
            route: node.route.as_ref(),
        },
        None => PartView {
            prefix: &[],
            excluded: &[],
            route: None,
        },
    }
}

impl<'a, A: Allocator + Copy> Iterator for Parts<'a, A> {
    type Item = PartView<'a, A>;

    ghost use Rattle.std.specs.Iterator.{YieldsFirstBy, item_count};
    ghost use Rattle.sabr_frontier.specs.session.Views.{seen_of, seen_left};

    ghost next_gives = { YieldsFirstBy seen_of seen_left };

    ghost remaining = { item_count seen_left };

    fn next(&mut self) -> Option<PartView<'a, A>> {
        let (first, others) = self.index.split_first()?;
        let found = part_view(self.leaves, self.nodes, *first);
        self.index = others;
        Some(found)
    }
}
