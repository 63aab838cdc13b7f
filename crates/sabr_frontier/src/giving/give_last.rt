//! Giving the last route of a last page, and whether a route is left after it. No part is divided.

ghost use Rattle.std.specs.Prelude.{◌≡◌, ◌+◌, ◌≤◌, ◌<◌, ◌++◌, ◌||◌, None, false, take, drop, length, is_some, IfOk, OnOk, IsTrue, []};
ghost use Rattle.sabr_model.specs.plan.Plan.{IsPlan};
ghost use Rattle.sabr_model.specs.routes.Route.{is_route};
ghost use Rattle.sabr_frontier.specs.listing.Listing.{next_route, searches_in};
ghost use Rattle.sabr_search.specs.questions.Detours.{detour_looks};
ghost use Rattle.sabr_frontier.specs.tree.Left.{HasLooks, longer_go_on, others_carry, part_goes_on, some_carry};
ghost use Rattle.sabr_index.specs.Looks.{looks_taken};
ghost use Rattle.sabr_frontier.specs.tree.Searching.{best_for, records_for, steps_for};
ghost use Rattle.sabr_frontier.specs.tree.Shape.{shape_of, shown};
ghost use Rattle.sabr_frontier.specs.tree.Sound.{CanExclude, IsTree};
ghost use Rattle.sabr_frontier.specs.tree.Giving.{OfNode};
ghost use Rattle.sabr_frontier.specs.tree.Undo.{IsRoomy};
ghost use Rattle.sabr_search.specs.questions.Bounded.{IsFloor};

use crate::giving::divide::{find_best_after, numbers};
use crate::giving::searcher::Searcher;
use crate::tree::change::carry;
use crate::tree::prefixes::carried;
use crate::tree::{Node, NodeId, Tree};
use sabr_index::Looks;
use sabr_model::NoMemory;
use sabr_search::BestOf;
use std::alloc::Allocator;

/// Returns true if some node carries a route.
fn some_carry<A: Allocator + Copy>(nodes: &[Node<A>]) -> bool
    ensures { result ≡ some_carry nodes.now }
{
    nodes.iter().any(|node| node.route.is_some())
}

/// Returns true if some node but this one carries a route.
fn others_carry<A: Allocator + Copy>(nodes: &[Node<A>], node: NodeId) -> bool
    requires { node.0 < length nodes.now }
    ensures { result ≡ others_carry nodes.now node }
{
    some_carry(&nodes[..node.0]) || some_carry(&nodes[node.0 + 1..])
}

/// Returns true if some beginning of a route with at least `first` numbers also begins another route, which takes
/// another number next. It takes a search for each beginning, up to the first that has one. No route that goes on after
/// `first` numbers delivers before the second `floor`.
#[tactic(auto, using(crate::proofs::TreeLemmas::ListFronts::longer_next))]
fn longer_go_on<B: BestOf<A>, A: Allocator + Copy>(
    searcher: &mut Searcher<'_, B, A>,
    route: &[u32],
    first: usize,
    floor: u64,
) -> Result<bool, NoMemory>
    requires route { IsTrue (is_route searcher.old.asked.plan.plan searcher.old.asked.request route.now) }
    requires within { first ≤ length route.now }
    requires floor { IsFloor searcher.old.asked.plan.plan searcher.old.asked.request (take first route.now) [] floor }
    ensures ok { IfOk result (λ yes. yes ≡ longer_go_on (best_for searcher.old.asked None) (take first route.now) (drop first route.now)) }
    ensures no_fewer { searcher.old.calls.count ≤ searcher.new.calls.count }
    ensures at_most { searcher.new.calls.count + first ≤ searcher.old.calls.count + length route.now }
    ensures same { searcher.new.asked ≡ searcher.old.asked }
{
    for count in first..route.len() {
        let found = find_best_after(searcher, route, count, floor, None)?;
        if found.is_some() {
            return Ok(true);
        }
    }
    Ok(false)
}

/// Returns true if a node's part has a route besides the one that it carries. It takes no search if that one is
/// seen to go on otherwise than by its last number, and else at most the searches that dividing the part would.
#[tactic(auto, using(crate::proofs::ListingLemmas::AllRoutes::beginning_fits))]
fn part_goes_on<B: BestOf<A>, A: Allocator + Copy>(
    searcher: &mut Searcher<'_, B, A>,
    part: &Node<A>,
    route: &[u32],
    floor: u64,
    looks: &mut Looks,
) -> Result<bool, NoMemory>
    requires route { IsTrue (is_route searcher.old.asked.plan.plan searcher.old.asked.request route.now) }
    requires next { CanExclude part.now route.now }
    requires floor { IsFloor searcher.old.asked.plan.plan searcher.old.asked.request (take part.now.length route.now) part.now.excluded floor }
    requires few { detour_looks searcher.old.asked.request.max_hops ≤ looks.old.left }

    // The answer, the searches and the looks.
    ensures ok { IfOk result (λ yes. yes ≡ part_goes_on (best_for searcher.old.asked None) part.now route.now) }
    ensures no_fewer { searcher.old.calls.count ≤ searcher.new.calls.count }
    ensures at_most { searcher.new.calls.count + part.now.length ≤ searcher.old.calls.count + length route.now }
    ensures looks { looks.old.left ≤ looks.new.left + detour_looks searcher.old.asked.request.max_hops }
    ensures least { IfOk result (λ yes. IsTrue yes → searcher.new.calls.count ≡ searcher.old.calls.count → length route.now ≤ looks_taken looks.new) }
    ensures same { searcher.new.asked ≡ searcher.old.asked }
{
    // Both calls are for the proof alone, by their contracts.
    searcher.plan().rules_hold();
    looks.left();
    if searcher.goes_otherwise(looks, route, part.excluded.as_slice())? {
        return Ok(true);
    }
    let count = part.length;
    let excluded = part.excluded.with(searcher.alloc(), route[count])?;
    let found = searcher.find_best(&route[..count], excluded.as_slice(), floor, None)?;
    if found.is_some() {
        return Ok(true);
    }
    longer_go_on(searcher, route, count + 1, floor)
}

impl<A: Allocator + Copy> Tree<A> {
    /// Returns true if a route would be left once the one that a node carries is given.
    fn goes_on_after<B: BestOf<A>>(
        &self,
        searcher: &mut Searcher<'_, B, A>,
        node: NodeId,
        route: &[u32],
        floor: u64,
        looks: &mut Looks,
    ) -> Result<bool, NoMemory>
        requires in_range { node.0 < length self.now.nodes.items }
        requires route { IsTrue (is_route searcher.old.asked.plan.plan searcher.old.asked.request route.now) }
        requires next { OfNode self.now.nodes.items node (λ n. CanExclude n route.now) }
        requires floor { OfNode self.now.nodes.items node (λ n. IsFloor searcher.old.asked.plan.plan searcher.old.asked.request (take n.length route.now) n.excluded floor) }
        requires few { detour_looks searcher.old.asked.request.max_hops ≤ looks.old.left }

        // The answer, the searches and the looks.
        ensures ok { IfOk result (λ yes. OfNode self.now.nodes.items node (λ n. yes ≡ (others_carry self.now.nodes.items node || part_goes_on (best_for searcher.old.asked None) n route.now))) }
        ensures no_fewer { searcher.old.calls.count ≤ searcher.new.calls.count }
        ensures at_most { OfNode self.now.nodes.items node (λ n. searcher.new.calls.count + n.length ≤ searcher.old.calls.count + length route.now) }
        ensures looks { looks.old.left ≤ looks.new.left + detour_looks searcher.old.asked.request.max_hops }
        ensures least { IfOk result (λ yes. IsTrue yes → searcher.new.calls.count ≡ searcher.old.calls.count → others_carry self.now.nodes.items node ≡ false → length route.now ≤ looks_taken looks.new) }
        ensures same { searcher.new.asked ≡ searcher.old.asked }
    {
        if others_carry(self.nodes.as_slice(), node) {
            return Ok(true);
        }
        part_goes_on(searcher, &self.nodes[node.0], route, floor, looks)
    }

    /// Gives the best route that a node carries: it moves to the leaves. Returns whether a route is left then. If no
    /// other node carries one, it asks for the parts that the route would make, up to the first that has a route. The
    /// tree can't go on.
    pub fn give_last<B: BestOf<A>>(
        &mut self,
        searcher: &mut Searcher<'_, B, A>,
        looks: &mut Looks,
    ) -> Result<bool, NoMemory>
        requires plan { IsPlan searcher.old.asked.plan.plan }
        requires few { detour_looks searcher.old.asked.request.max_hops ≤ looks.old.left }
        requires tree { IsTree searcher.old.asked.plan.plan searcher.old.asked.request (shape_of self.old) }
        requires room { IsRoomy self.old }

        // The route is the one that a step gives, or none if none is left. The answer is whether one is left after the
        // step.
        ensures routes { OnOk result (self.new.leaves.items ≡ self.old.leaves.items ++ records_for searcher.old.asked (steps_for searcher.old.asked 1 (shown (shape_of self.old))).0) }
        ensures more { IfOk result (λ more. more ≡ is_some (next_route searcher.old.asked.plan.plan searcher.old.asked.request (steps_for searcher.old.asked 1 (shown (shape_of self.old))).1)) }

        // It takes no more searches than the step would. The question stays.
        ensures no_fewer { OnOk result (searcher.old.calls.count ≤ searcher.new.calls.count) }
        ensures at_most { OnOk result (searcher.new.calls.count ≤ searcher.old.calls.count + searches_in searcher.old.asked.plan.plan searcher.old.asked.request 1 (shown (shape_of self.old))) }
        ensures looks { OnOk result (looks.old.left ≤ looks.new.left + detour_looks searcher.old.asked.request.max_hops) }
        ensures least { IfOk result (λ more. IsTrue more → searcher.new.calls.count ≡ searcher.old.calls.count → HasLooks (looks_taken looks.new) searcher.old.asked.plan.plan searcher.old.asked.request (shown (shape_of self.old))) }
        ensures same { searcher.new.asked ≡ searcher.old.asked }
    {
        let Some(node) = self.best_node() else {
            return Ok(false);
        };
        let Some(route) = carried(self.nodes.as_slice(), node) else {
            unreachable!()
        };
        let floor = self.floor_of(route);
        let more = self.goes_on_after(searcher, node, numbers(route), floor, looks)?;
        let Some(route) = carry(&mut self.nodes, node, None) else {
            unreachable!()
        };
        self.leaves.push(route)?;
        Ok(more)
    }
}
