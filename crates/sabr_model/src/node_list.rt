//! A short list of nodes.

ghost use Rattle.std.specs.Prelude.{◌≡◌, ◌≤◌, ◌<◌, ◌∷◌, ◌++◌, [], None, IfSome, MatchOption, length};

use crate::limits::MAX_AVOIDED;
use arrayvec::ArrayVec;
use std::marker::Model;

/// A list of at most 16 nodes, the largest number that a request avoids (this project's profile). It owns no heap
/// memory.
#[derive(Drop)]
pub struct NodeList {
    nodes: ArrayVec<u64, MAX_AVOIDED>,
}

impl Model for NodeList {
    ghost use Rattle.std.specs.Prelude.{List, ℕ};

    ghost Value = { List ℕ };

    ghost view = { λ a. a.nodes.items };
}

impl NodeList {
    /// Makes an empty list.
    pub fn new() -> NodeList
        ensures { result ≡ [] }
    {
        NodeList {
            nodes: ArrayVec::new(),
        }
    }

    /// Makes the list of these nodes. `None` if there are more than 16.
    pub fn of(nodes: &[u64]) -> Option<NodeList>
        ensures { MatchOption result (16 < length nodes.now) (λ list. list ≡ nodes.now) }
    {
        let mut list = NodeList::new();
        match list.nodes.try_extend_from_slice(nodes) {
            Ok(()) => Some(list),
            Err(_) => None,
        }
    }

    /// The nodes.
    pub fn as_slice(&self) -> &[u64]
        ensures value { result.now ≡ self.now }
        ensures limit { length self.now ≤ 16 }
    {
        self.nodes.as_slice()
    }

    /// Adds a node at the end, unless there are 16.
    pub fn push(&mut self, node: u64) -> Option<()>
        ensures pushed { IfSome result (λ _. self.new ≡ self.old ++ node ∷ []) }
        ensures limit { IfSome result (λ _. length self.new ≤ 16) }
        ensures full { result ≡ None → length self.old ≡ 16 }
        ensures left { result ≡ None → self.new ≡ self.old }
    {
        match self.nodes.try_push(node) {
            Ok(()) => Some(()),
            Err(_) => None,
        }
    }
}
