//! The nodes that a search may not enter.

ghost use Rattle.std.specs.Prelude.{◌≡◌, ℕ, ◌<◌, ◌≤◌, [], Some, false, true, length, slice_get, slice_index_or, slice_set, IfSome, IfNone, OnOk};
ghost use Rattle.sabr_search.specs.questions.Task.{most_nodes};
ghost use Rattle.sabr_search.specs.answers.CachedAnswers.{IsListing};

use sabr_model::NoMemory;
use std::alloc::{Allocator, Global};
use std::marker::Model;

/// The nodes that a search may not enter: a flag by node, and a list of those that are forbidden. Contracts see the
/// flags.
#[derive(Drop)]
pub struct ForbiddenNodes<A: Allocator + Copy = Global> {
    flags: Vec<bool, A>,
    nodes: Vec<u32, A>,
}

impl<A: Allocator + Copy> Model for ForbiddenNodes<A> {
    ghost use Rattle.std.specs.Prelude.{◌≤◌, Bool, List, length};
    ghost use Rattle.sabr_search.specs.questions.Task.{most_nodes};
    ghost use Rattle.sabr_search.specs.answers.CachedAnswers.{IsListing};

    ghost Value = { List Bool };

    ghost view = { λ s. s.flags.items };

    ghost invariant = { λ s. IsListing s.flags.items s.nodes.items × (length s.flags.items ≤ most_nodes) };
}

/// Returns the last place of a node in a list.
fn last_place(nodes: &[u32], node: u32) -> Option<usize>
    ensures some { IfSome result (λ place. slice_get nodes.now place ≡ Some node) }
    ensures none { IfNone result ((place : ℕ) → slice_get nodes.now place ≡ Some node → ⊥) }
{
    let mut end = nodes.len();
    while 0 < end {
        end -= 1;
        if nodes[end] == node {
            return Some(end);
        }
    }
    None
}

impl<A: Allocator + Copy> ForbiddenNodes<A> {
    /// Has no node. It doesn't allocate.
    pub fn new(alloc: A) -> ForbiddenNodes<A>
        ensures { result ≡ [] }
    {
        ForbiddenNodes {
            flags: Vec::new(alloc),
            nodes: Vec::new(alloc),
        }
    }

    /// Begins anew with `count` nodes, all open.
    pub fn reset(&mut self, count: usize) -> Result<(), NoMemory>
        requires { count ≤ most_nodes }
        ensures many { OnOk result (length self.new ≡ count) }
        ensures none { OnOk result ((k : ℕ) → slice_index_or self.new k false ≡ false) }
    {
        self.flags.clear();
        self.nodes.clear();
        self.flags.resize(count, false)?;
        Ok(())
    }

    /// Forbids a node.
    pub fn put(&mut self, node: usize) -> Result<(), NoMemory>
        requires { node < length self.old }
        ensures { OnOk result (self.new ≡ slice_set self.old node true) }
    {
        if !self.flags[node] {
            self.nodes.push(node as u32)?;
            self.flags[node] = true;
        }
        Ok(())
    }

    /// Forbids a node no more, in one step if it is the one that was forbidden last.
    pub fn allow(&mut self, node: usize)
        requires { node < length self.old }
        ensures { self.new ≡ slice_set self.old node false }
    {
        self.flags[node] = false;
        if let Some(place) = last_place(&self.nodes, node as u32) {
            self.nodes.swap_remove(place);
        }
    }

    /// By node whether it is forbidden.
    pub fn flags(&self) -> &[bool]
        ensures { result.now ≡ self.now }
    {
        self.flags.as_slice()
    }

    /// The nodes that are forbidden, each once.
    pub fn nodes(&self) -> &[u32]
        ensures { IsListing self.now result.now }
    {
        self.nodes.as_slice()
    }
}
