//! The table of the links of all nodes.

ghost use Rattle.std.specs.Prelude.{◌≡◌, ◌<◌, Some, length, slice_get, slice_index_or};
ghost use Rattle.sabr_index.specs.Incoming.{links_of, no_link};
ghost use Rattle.sabr_index.specs.Linking.{parts_of, AreParts};

use crate::link::{Link, Links, Pass};
use std::alloc::Allocator;
use std::marker::Model;

/// Where the links of a node lie in the list of all links, and its passes in that of all passes.
#[derive(Clone, Copy)]
pub struct NodePart {
    pub first_link: usize,
    pub end_link: usize,
    pub first_pass: usize,
    pub end_pass: usize,
}

/// The links of each node, in one list, and the passes that they lie over, in another. Contracts see the list of the
/// nodes' links.
#[derive(Drop)]
pub struct LinkTable<A: Allocator + Copy> {
    nodes: Vec<NodePart, A>,
    links: Vec<Link, A>,
    passes: Vec<Pass, A>,
}

impl<A: Allocator + Copy> Model for LinkTable<A> {
    ghost use Rattle.std.specs.Prelude.{List};
    ghost use Rattle.sabr_index.specs.Links.{NodeLinks};
    ghost use Rattle.sabr_index.specs.Linking.{parts_of, AreParts};

    ghost Value = { List NodeLinks };

    ghost view = { λ t. parts_of t.nodes.items t.links.items t.passes.items };

    ghost invariant = { λ t. AreParts t.nodes.items t.links.items t.passes.items };
}

impl<A: Allocator + Copy> LinkTable<A> {
    /// Makes the table of these lists.
    pub fn of_parts(
        nodes: Vec<NodePart, A>,
        links: Vec<Link, A>,
        passes: Vec<Pass, A>,
    ) -> LinkTable<A>
        requires { AreParts nodes.items links.items passes.items }
        ensures { result ≡ parts_of nodes.items links.items passes.items }
    {
        LinkTable {
            nodes,
            links,
            passes,
        }
    }

    /// The number of nodes.
    pub fn len(&self) -> usize
        ensures { result ≡ length self.now }
    {
        self.nodes.len()
    }

    /// The number of links of all nodes, for which a caller reserves room.
    pub fn link_count(&self) -> usize {
        self.links.len()
    }

    /// The links of the node at an index.
    #[inline(always)]
    pub fn of(&self, index: usize) -> Links<'_>
        requires { index < length self.now }
        ensures { slice_get self.now index ≡ Some (record { links = result.links.now; passes = result.passes.now }) }
    {
        let node = self.nodes[index];
        Links {
            links: &self.links[node.first_link..node.end_link],
            passes: &self.passes[node.first_pass..node.end_pass],
        }
    }

    /// The link at a place of those of the node at an index.
    #[inline(always)]
    pub fn link(&self, index: usize, place: usize) -> Link
        requires node { index < length self.now }
        requires place { place < length (links_of self.now index) }
        ensures { result ≡ slice_index_or (links_of self.now index) place no_link }
    {
        let node = self.nodes[index];
        self.links[node.first_link + place]
    }
}
