//! What a loader has gathered, and the tree that it makes.

ghost use Rattle.std.specs.Prelude.{◌≡◌, ◌&&◌, ◌≤◌, is_some, length, IfOk, IfSome, IfNone, IsTrue, OnOk, OnErr, vec_capacity};
ghost use Rattle.sabr_frontier.specs.tree.Shape.{shape_of};
ghost use Rattle.sabr_frontier.specs.tree.Undo.{IsIndexed, IsRoomy};
ghost use Rattle.sabr_frontier.specs.loading.Loading.{rise_strictly};
ghost use Rattle.sabr_frontier.specs.loading.Partial.{AreExpected, IsGiven, IsLastPlace, IsPathEnd, IsTakenIn, IsVerdict, is_after_last, is_complete, is_expected, loaded_tree, nothing_yet, partial_shape_of};

use crate::loader::check::{Checked, check};
use crate::loader::path_end::{ExpectedPrefix, PathEnd};
use crate::plan_request::PlanRequest;
use crate::tree::excluded_numbers::{ExcludedNumbers, is_increasing};
use crate::tree::index::push_block;
use crate::tree::winners::rebuild;
use crate::tree::{Node, Tree};
use sabr_model::{NoMemory, Route};
use std::alloc::{Allocator, Global};
use std::cmp::Ordering;
use std::mem::replace;

/// The nodes of the parts so far, the leaves that they made, and the prefixes that are expected: those that must still
/// come as parts. As soon as a part isn't the first that is expected, the last prefix alone is kept.
#[derive(Drop)]
pub struct PartialTree<A: Allocator + Copy = Global> {
    /// The prefix of the last part.
    pub last: Vec<u32, A>,
    /// The node of each part.
    pub nodes: Vec<Node<A>, A>,
    /// The leaves that the parts made.
    pub leaves: Vec<Route<A>, A>,
    /// The prefixes that are expected, the first last, each with where it leads.
    pub expected: Vec<ExpectedPrefix, A>,
    /// Whether each part so far was the first that was expected.
    pub sound: bool,
    /// Room in which the next part is checked.
    pub room: Checked<A>,
}

/// Returns the place of the last route among the leaves: `None` inside if there is no leaf, and `None` if the count or
/// the last route is wrong.
pub fn last_place<A: Allocator + Copy>(
    leaves: &[Route<A>],
    emitted: u128,
    last: &[u32],
) -> Option<Option<usize>>
    ensures some { IfSome result (IsLastPlace leaves.now emitted last.now) }
    ensures none { IfNone result (emitted ≡ length leaves.now → IsGiven leaves.now last.now → ⊥) }
{
    if leaves.len() as u128 != emitted {
        return None;
    }
    if leaves.is_empty() && last.is_empty() {
        return Some(None);
    }
    for (i, leaf) in leaves.iter().enumerate() {
        if leaf.contacts.as_slice() == last {
            return Some(Some(i));
        }
    }
    None
}

impl<A: Allocator + Copy> PartialTree<A> {
    /// Makes an empty value. It allocates nothing.
    pub fn new(alloc: A) -> PartialTree<A>
        ensures { partial_shape_of result ≡ nothing_yet }
    {
        PartialTree {
            last: Vec::new(alloc),
            nodes: Vec::new(alloc),
            leaves: Vec::new(alloc),
            expected: Vec::new(alloc),
            sound: true,
            room: Checked::none(alloc),
        }
    }

    /// Returns true if a prefix comes after the last.
    fn comes_after(&self, prefix: &[u32]) -> bool
        ensures { result ≡ is_after_last (partial_shape_of self.now) prefix.now }
    {
        (self.sound && self.nodes.is_empty()) || self.last.as_slice().cmp(prefix) == Ordering::Less
    }

    /// Returns true if a part may come after the others.
    pub fn is_next(&self, prefix: &[u32], excluded: &[u32]) -> bool
        ensures { result ≡ (rise_strictly excluded.now && is_after_last (partial_shape_of self.now) prefix.now) }
    {
        is_increasing(excluded) && self.comes_after(prefix)
    }

    /// Returns where a prefix leads if it is the first that is expected, or none. That of the first part is empty.
    pub fn expected_end(&self, question: &PlanRequest<'_, A>, prefix: &[u32]) -> Option<PathEnd>
        requires { IsTrue self.now.sound → AreExpected question.now.plan.now.plan question.now.request self.now.last.items self.now.expected.items }
        ensures expected { is_some result ≡ is_expected (partial_shape_of self.now) prefix.now }
        ensures end { IfSome result (IsPathEnd question.now.plan.now.plan question.now.request prefix.now) }
    {
        if !self.sound {
            return None;
        }
        let Some(expected) = self.expected.last() else {
            if self.nodes.is_empty() && prefix.is_empty() {
                return Some(PathEnd::at_source(question.plan, &question.request));
            }
            return None;
        };
        if expected.is(self.last.as_slice(), prefix) {
            return Some(expected.end);
        }
        None
    }

    /// Returns what a part leads to, or none if it isn't the first that is expected, if one of its excluded numbers
    /// makes no path, or if it excludes none and isn't the first.
    fn check(
        &mut self,
        question: &PlanRequest<'_, A>,
        prefix: &[u32],
        excluded: &[u32],
        end: Option<PathEnd>,
    ) -> Result<Option<Checked<A>>, NoMemory>
        requires expected { is_some end ≡ is_expected (partial_shape_of self.old) prefix.now }
        requires end { IfSome end (IsPathEnd question.now.plan.now.plan question.now.request prefix.now) }
        ensures verdict { IfOk result (IsVerdict question.now.plan.now.plan question.now.request (partial_shape_of self.old) (prefix.now, excluded.now)) }
        ensures same { partial_shape_of self.new ≡ partial_shape_of self.old }
    {
        let Some(end) = end else {
            return Ok(None);
        };
        if !prefix.is_empty() && excluded.is_empty() {
            return Ok(None);
        }
        let room = replace(&mut self.room, Checked::none(question.alloc));
        check(question, prefix, excluded, end, room)
    }

    /// Makes a prefix the last one. There is room for it.
    fn set_last(&mut self, prefix: &[u32])
        requires { length prefix.now ≤ vec_capacity self.old.last }
        ensures { partial_shape_of self.new ≡ record (partial_shape_of self.old) { last = prefix.now } }
    {
        self.last.clear();
        let kept = self.last.extend_from_slice(prefix);
        let Ok(()) = kept else { unreachable!() };
    }

    /// Adds a part that comes after the others, with the record of the route that it carries. If its prefix is the
    /// first that is expected, `end` is where that leads. If it isn't, or isn't right, the last prefix alone is kept
    /// from now on. What may fail comes before the first change.
    pub fn take_in(
        &mut self,
        question: &PlanRequest<'_, A>,
        prefix: &[u32],
        excluded: &[u32],
        end: Option<PathEnd>,
        route: Option<Route<A>>,
    ) -> Result<(), NoMemory>
        requires expected { is_some end ≡ is_expected (partial_shape_of self.old) prefix.now }
        requires end { IfSome end (IsPathEnd question.now.plan.now.plan question.now.request prefix.now) }
        ensures ok { OnOk result (IsTakenIn question.now.plan.now.plan question.now.request (partial_shape_of self.old) prefix.now excluded.now route (partial_shape_of self.new)) }
        ensures err { OnErr result (partial_shape_of self.new ≡ partial_shape_of self.old) }
    {
        let checked = self.check(question, prefix, excluded, end)?;
        self.last.reserve(prefix.len())?;
        let Some(mut checked) = checked else {
            self.nodes = Vec::new(question.alloc);
            self.leaves = Vec::new(question.alloc);
            self.expected = Vec::new(question.alloc);
            self.room = Checked::none(question.alloc);
            self.sound = false;
            self.set_last(prefix);
            return Ok(());
        };
        let excluded = ExcludedNumbers::of(question.alloc, excluded)?;
        self.nodes.reserve(1)?;
        self.leaves.reserve(checked.leaves.len())?;
        self.expected.reserve(checked.onward.len())?;
        self.nodes.push_reserved(Node {
            leaf: self.leaves.len(),
            length: prefix.len(),
            excluded,
            route,
        });
        self.expected.pop();
        checked.onward.reverse();
        let appended = self.expected.append(&mut checked.onward);
        let Ok(()) = appended else { unreachable!() };
        let appended = self.leaves.append(&mut checked.leaves);
        let Ok(()) = appended else { unreachable!() };
        self.room = checked;
        self.set_last(prefix);
        Ok(())
    }

    /// Returns true if there is a part, each part was the first that was expected, and none is expected any more.
    pub fn is_complete(&self) -> bool
        ensures { result ≡ is_complete (partial_shape_of self.now) }
    {
        self.sound && !self.nodes.is_empty() && self.expected.is_empty()
    }

    /// Makes the tree of the parts.
    pub fn into_tree(self, alloc: A, last: Option<usize>) -> Result<Tree<A>, NoMemory>
        requires { IsIndexed (loaded_tree (partial_shape_of self) last) }
        ensures shape { IfOk result (λ t. shape_of t ≡ loaded_tree (partial_shape_of self) last) }
        ensures index { IfOk result (λ t. t.index.items ≡ (shape_of t).index) }
        ensures room { IfOk result IsRoomy }
    {
        let count = self.nodes.len();
        let mut index = Vec::with_capacity(alloc, count)?;
        let mut winners = Vec::with_capacity(alloc, count)?;
        push_block(&mut index, 0, count);
        rebuild(self.nodes.as_slice(), &mut winners);
        Ok(Tree {
            nodes: self.nodes,
            index,
            unindexed: Vec::new(alloc),
            winners,
            leaves: self.leaves,
            last,
            journal: Vec::new(alloc),
            is_searched: false,
        })
    }
}
