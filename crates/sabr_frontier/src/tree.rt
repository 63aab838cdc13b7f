//! The parts of a listing as nodes in one vector, with the routes given and a journal of the changes.

pub mod change;
pub mod excluded_numbers;
pub mod index;
pub mod prefixes;
mod root;
pub mod undo;
pub mod winners;

use crate::tree::excluded_numbers::ExcludedNumbers;
use sabr_model::Route;
use std::alloc::{Allocator, Global};

/// Which node: its place among the nodes.
#[derive(Clone, Copy)]
pub struct NodeId(pub usize);

/// A part, as a node of the tree, not of the plan. Its prefix is the first `length` numbers of the route given as
/// number `leaf`, counted from 0.
#[derive(Drop)]
pub struct Node<A: Allocator + Copy = Global> {
    /// The route given that the prefix begins, counted from 0.
    pub leaf: usize,
    /// How many of its numbers are the prefix.
    pub length: usize,
    /// The numbers that no route of the part takes right after the prefix.
    pub excluded: ExcludedNumbers<A>,
    /// The best route of the part, if it has one.
    pub route: Option<Route<A>>,
}

/// What was before a route was given: the node that carried it, how many nodes there were, and the last route.
#[derive(Clone, Copy)]
pub struct Entry {
    pub node: NodeId,
    pub nodes: usize,
    pub last: Option<usize>,
}

/// The parts that are left, and what takes routes back.
#[derive(Drop)]
pub struct Tree<A: Allocator + Copy = Global> {
    /// The parts, in the order in which they were made.
    pub nodes: Vec<Node<A>, A>,
    /// The ids of the parts in order of prefix. While a page is made, its nodes are left out.
    pub index: Vec<NodeId, A>,
    /// Room for the ids of a page's nodes, until they are put among the others. Else empty.
    pub unindexed: Vec<NodeId, A>,
    /// Slot `k` names the node with the best route among node `k` and the winners of slots `2k + 1` and `2k + 2`.
    pub winners: Vec<NodeId, A>,
    /// The routes given, in the order of the parts that they made.
    pub leaves: Vec<Route<A>, A>,
    /// The place of the last of them.
    pub last: Option<usize>,
    /// An entry for each route that can be taken back.
    pub journal: Vec<Entry, A>,
    /// Whether a search found each route that a node carries. Then each is the best of its part.
    pub is_searched: bool,
}
