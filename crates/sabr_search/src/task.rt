//! What a search looks for, which doesn't change while it runs, and the arrival over one contact.

ghost use Rattle.std.specs.Prelude.{◌≡◌, ◌≢◌, ℕ, ◌≤◌, ◌<◌, ◌+◌, ◌*◌, ◌^◌, Some, IfSome, IfNone, IsTrue, false, true, length, slice_index_or};
ghost use Rattle.sabr_model.specs.routes.Arrival.{cost};
ghost use Rattle.sabr_model.specs.plan.Plan.{has, most_light};
ghost use Rattle.sabr_model.specs.routes.Hops.{hop_arrival, IsSmall};
ghost use Rattle.sabr_search.specs.questions.Task.{IsTask, task_of};
ghost use Rattle.sabr_search.specs.answers.Answers.{narrowed};
ghost use Rattle.sabr_search.specs.questions.FirstSteps.{tabled_of};
ghost use Rattle.sabr_search.specs.answers.CachedAnswers.{AreListed, Arrives};
ghost use Rattle.sabr_search.specs.questions.Linked.{AreLinksAt, AreSendersAt};

use crate::links::finger::Finger;
use crate::part::Excluded;
use crate::prefix_path::forbidden_nodes::ForbiddenNodes;
use crate::prefix_path::{PrefixPath, Stop};
use crate::visit::Visit;
use sabr_index::{CountedPlan, Links, Looked, Looks, Senders};
use sabr_model::{Hop, Request};
use std::alloc::Allocator;
use std::marker::Model;

/// What a search looks for: the best way from a node and a second to the goal, to no node that is forbidden, which
/// takes no excluded number first.
#[derive(Drop)]
pub struct Task<'a, A: Allocator + Copy> {
    /// The plan that is searched.
    index: &'a CountedPlan<'a, A>,
    /// The request.
    request: &'a Request,
    /// For each node, whether it is forbidden.
    forbidden: &'a ForbiddenNodes<A>,
    /// The numbers that no way takes first.
    excluded: Excluded<'a>,
    /// The index of the node at which the search starts.
    start: usize,
    /// The index of the destination.
    goal: usize,
    /// When the search starts, in seconds.
    at: u64,
}

impl<'a, A: Allocator + Copy> Model for Task<'a, A> {
    ghost use Rattle.std.specs.Prelude.{◌≡◌, true};
    ghost use Rattle.sabr_search.specs.questions.Task.{SearchTask, task_of};

    ghost Value = { SearchTask };

    ghost view = { λ a. task_of a.index.now a.request.now a.forbidden.now a.excluded.numbers.now a.start a.at a.goal };
}

impl<'a, A: Allocator + Copy> Task<'a, A> {
    /// Makes a task from the last stop of a prefix path.
    pub fn new(
        index: &'a CountedPlan<'a, A>,
        request: &'a Request,
        prefix_path: &'a PrefixPath<A>,
        excluded: Excluded<'a>,
        stop: Stop,
    ) -> Task<'a, A>
        ensures { result ≡ task_of index.now request.now prefix_path.now.forbidden excluded.entry.numbers.now stop.node stop.at prefix_path.now.goal }
    {
        Task {
            index,
            request,
            forbidden: &prefix_path.forbidden,
            excluded,
            start: stop.node,
            goal: prefix_path.goal,
            at: stop.at,
        }
    }

    /// The same search with these forbidden nodes.
    pub fn with_forbidden<'b>(&self, forbidden: &'b ForbiddenNodes<A>) -> Task<'b, A>
    where
        'a: 'b,
        ensures { result ≡ narrowed self.now forbidden.now self.now.at }
    {
        Task {
            index: self.index,
            request: self.request,
            forbidden,
            excluded: self.excluded,
            start: self.start,
            goal: self.goal,
            at: self.at,
        }
    }

    /// Returns the links of a node; every step from there is on one.
    pub fn links(&self, node: usize) -> Links<'_>
        requires task { IsTask self.now }
        requires node { node < length self.now.table }
        ensures { AreLinksAt self.now node result.links.now result.passes.now }
    {
        self.index.links(node)
    }

    /// Returns the links to a node; every step to there is on one.
    pub fn senders(&self, node: usize) -> Senders<'_, A>
        requires task { IsTask self.now }
        requires node { node < length self.now.table }
        ensures { AreSendersAt self.now node result }
    {
        self.index.senders(node)
    }

    /// The plan that is searched.
    pub fn plan(&self) -> &'a CountedPlan<'a, A>
        ensures { result.now ≡ tabled_of self.now }
    {
        self.index
    }

    /// The request.
    pub fn request(&self) -> &'a Request
        ensures { result.now ≡ self.now.request }
    {
        self.request
    }

    /// The node at which the search starts.
    pub fn start(&self) -> usize
        ensures { result ≡ self.now.start }
    {
        self.start
    }

    /// The second at which the search starts.
    pub fn at(&self) -> u64
        ensures { result ≡ self.now.at }
    {
        self.at
    }

    /// Where and when the search starts.
    pub fn beginning(&self) -> Visit
        ensures { result ≡ record { node = self.now.start; at = self.now.at } }
    {
        Visit {
            node: self.start,
            at: self.at,
        }
    }

    /// The node to which the search goes.
    pub fn goal(&self) -> usize
        ensures { result ≡ self.now.goal }
    {
        self.goal
    }

    /// The number of nodes.
    pub fn node_count(&self) -> usize
        ensures { result ≡ length self.now.forbidden }
    {
        self.forbidden.flags().len()
    }

    /// For each node, whether it is forbidden.
    pub fn forbidden(&self) -> &[bool]
        ensures { result.now ≡ self.now.forbidden }
    {
        self.forbidden.flags()
    }

    /// Returns true if a way to the goal may go over a node: it is open, and not the goal.
    #[inline(always)]
    pub fn is_between(&self, node: usize) -> bool
        requires task { IsTask self.now }
        requires node { node < length self.now.table }
        ensures permitted { IsTrue result → slice_index_or self.now.forbidden node false ≡ false }
        ensures other { IsTrue result → node ≢ self.now.goal }
        ensures closed { result ≡ false → slice_index_or self.now.forbidden node false ≡ false → node ≡ self.now.goal }
    {
        node != self.goal && !self.forbidden()[node]
    }

    /// The nodes that are forbidden.
    pub fn forbidden_nodes(&self) -> &[u32]
        ensures { AreListed self.now.forbidden result.now }
    {
        self.forbidden.nodes()
    }

    /// The numbers that no way takes first.
    pub fn excluded(&self) -> &[u32]
        ensures { result.now ≡ self.now.excluded }
    {
        self.excluded.numbers
    }

    /// Returns where a contact leads that is taken at this second, and when, if it leads to an open node in time: one
    /// look. If it leads to a forbidden node, notes that.
    #[inline(always)]
    pub fn arrive_by(
        &self,
        looks: &mut Looks,
        number: u32,
        at: u64,
        passed: &mut Option<usize>,
    ) -> Option<Visit>
        requires task { IsTask self.now }
        requires few { 0 < looks.old.left }
        ensures looks { looks.old.left ≡ looks.new.left + 1 }
        ensures some { IfSome result (Arrives self.now number at) }
    {
        let hop = self.index.hop(looks, number)?;
        if self.forbidden.flags()[hop.receiver] {
            *passed = Some(hop.receiver);
            return None;
        }
        let at = hop.arrive(self.request, at)?;
        Some(Visit {
            node: hop.receiver,
            at,
        })
    }

    /// As many looks as one scan of all contacts takes.
    pub fn one_scan(&self) -> u64
        ensures value { result ≡ length self.now.plan.contacts }
        ensures limit { result ≤ 2 ^ 60 }
    {
        self.index.contacts()
    }

    /// Returns how many passes of a link, from this one on, are excluded: 0 if a way may take this one, and otherwise
    /// at most one more than its `next_numbers`. Only contacts that the start sends are excluded. One finger serves a
    /// whole walk over the passes of a link.
    #[inline(always)]
    pub fn excluded_from(&self, node: usize, pass: &Looked<'_>, finger: &mut Finger) -> usize
        ensures none { result ≡ 0 → node ≡ self.now.start → has pass.now.number self.now.excluded ≡ false }
        ensures some { (j : ℕ) → j < result → (node ≡ self.now.start) × (has (pass.now.number + j) self.now.excluded ≡ true) }
        ensures in_row { result ≤ pass.now.next_numbers + 1 }
    {
        if node != self.start {
            return 0;
        }
        finger.counts(
            self.excluded,
            pass.number(),
            pass.pass().next_numbers as u32,
        )
    }

    /// Returns a light time with the margin, in seconds.
    pub fn cost(&self, light: u32) -> u64
        requires light { light ≤ most_light }
        ensures { result ≡ cost self.now.request.margin light }
    {
        self.request.cost(light)
    }

    /// Returns the arrival over the contact if it is sooner than `before`.
    pub fn arrive_before(&self, at: u64, hop: &Hop, before: u64) -> Option<u64>
        requires small { IsSmall hop.now }
        ensures some { IfSome result (λ b. (hop_arrival self.now.request.margin at hop.now ≡ Some b) × (b < before)) }
        ensures none { IfNone result ((b : ℕ) → hop_arrival self.now.request.margin at hop.now ≡ Some b → before ≤ b) }
    {
        let sent = at.max(hop.start);
        if sent >= before || sent >= hop.end {
            return None;
        }
        let arrival = sent + self.request.cost(hop.light?);
        if arrival < before {
            Some(arrival)
        } else {
            None
        }
    }

    /// Returns the first second from which on nothing sent over the contact arrives sooner than `before`; 0 if nothing
    /// ever does.
    pub fn leave_before(&self, hop: &Hop, before: u64) -> u64
        requires small { IsSmall hop.now }
        requires window { hop.now.start < hop.now.end }
        ensures in_time { (t : ℕ) → t < result → (b : ℕ) × (hop_arrival self.now.request.margin t hop.now ≡ Some b) × (b < before) }
        ensures missed { (t b : ℕ) → result ≤ t → hop_arrival self.now.request.margin t hop.now ≡ Some b → before ≤ b }
    {
        let Some(light) = hop.light else {
            return 0;
        };
        let cost = self.request.cost(light);
        if hop.start + cost >= before {
            return 0;
        }
        hop.end.min(before - cost)
    }
}
