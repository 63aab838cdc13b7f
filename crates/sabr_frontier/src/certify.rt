//! Whether a tree is the state of the place that it counts.

ghost use Rattle.std.specs.Prelude.{◌≡◌, ◌↔◌, ◌+◌, ◌≤◌, length, slice_get, IfOk, IfSome, IfNone, IsTrue};
ghost use Rattle.std.specs.List.{list_any};
ghost use Rattle.std.specs.Option.{option_and_then, option_copied};
ghost use Rattle.std.specs.Ordering.{is_lt};
ghost use Rattle.sabr_model.specs.plan.Plan.{IsPlan};
ghost use Rattle.sabr_model.specs.routes.Record.{by_record};
ghost use Rattle.sabr_frontier.specs.listing.Laws.{CarriesLeast};
ghost use Rattle.sabr_frontier.specs.listing.Listing.{state_at};
ghost use Rattle.sabr_frontier.specs.tree.Shape.{shape_of, shown};
ghost use Rattle.sabr_frontier.specs.tree.Sound.{IsTree};
ghost use Rattle.sabr_frontier.specs.tree.Winners.{CarriesNone, IsNext};
ghost use Rattle.sabr_frontier.specs.tree.Undo.{IsRoomy};

use crate::giving::searcher::Searcher;
use crate::tree::Tree;
use crate::tree::prefixes::{carried, prefix};
use sabr_model::{NoMemory, Route};
use sabr_search::BestOf;
use std::alloc::Allocator;
use std::cmp::Ordering;

/// Returns true if a route is less than another.
fn is_below<A: Allocator + Copy>(route: &Route<A>, other: &Route<A>) -> bool
    ensures { result ≡ is_lt (by_record route.now other.now) }
{
    route.cmp(other) == Ordering::Less
}

/// Returns true if both are there and have the same numbers and delivery, or if neither is there.
#[tactic(auto, using(crate::proofs::SessionLemmas::Verdicts::tie_is, crate::proofs::SessionLemmas::Verdicts::tie_index))]
fn is_same<A: Allocator + Copy>(one: &Option<Route<A>>, other: &Option<Route<A>>) -> bool
    ensures { IsTrue result ↔ (one.now ≡ other.now) }
{
    match (one, other) {
        (Some(one), Some(other)) => one.cmp(other) == Ordering::Equal,
        (None, None) => true,
        _ => false,
    }
}

/// Returns true if one of the routes is greater than this one.
fn is_passed<A: Allocator + Copy>(route: &Route<A>, routes: &[Route<A>]) -> bool
    ensures { result ≡ list_any (λ x. is_lt (by_record route.now x)) routes.now }
{
    routes.iter().any(|other| is_below(route, other))
}

impl<A: Allocator + Copy> Tree<A> {
    /// The last route given, or none.
    fn last_given(&self) -> Option<&Route<A>>
        ensures { option_copied result ≡ option_and_then (slice_get self.now.leaves.items) self.now.last }
    {
        self.leaves.get(self.last?)
    }

    /// The best route that a node carries, or none.
    fn next_carried(&self) -> Option<&Route<A>>
        requires { IsRoomy self.now }
        ensures some { IfSome result (λ x. IsNext self.now.nodes.items x.now) }
        ensures none { IfNone result (CarriesNone self.now.nodes.items) }
    {
        carried(self.nodes.as_slice(), self.best_node()?)
    }

    /// Returns true if each part carries its best route: one search for each. It allocates what a search does.
    fn carries_least<B: BestOf<A>>(
        &self,
        searcher: &mut Searcher<'_, B, A>,
    ) -> Result<bool, NoMemory>
        requires tree { IsTree searcher.old.asked.plan.plan searcher.old.asked.request (shape_of self.now) }
        ensures least { IfOk result (λ yes. IsTrue yes ↔ CarriesLeast searcher.old.asked.plan.plan searcher.old.asked.request (shown (shape_of self.now))) }
        ensures called { searcher.new.calls.count ≤ searcher.old.calls.count + length self.now.nodes.items }
        ensures no_fewer { searcher.old.calls.count ≤ searcher.new.calls.count }
        ensures same { searcher.new.asked ≡ searcher.old.asked }
    {
        for node in self.nodes.iter() {
            let front = prefix(self.leaves.as_slice(), node);
            let found = searcher.find_best(front, node.excluded.as_slice(), 0, None)?;
            if !is_same(&found, &node.route) {
                return Ok(false);
            }
        }
        Ok(true)
    }

    /// Returns true if the state is that of the place that it counts: no route given is greater than the last one, each
    /// carried route is, and each part carries its best route (law 5).
    pub fn is_placed<B: BestOf<A>>(
        &self,
        searcher: &mut Searcher<'_, B, A>,
    ) -> Result<bool, NoMemory>
        requires plan { IsPlan searcher.old.asked.plan.plan }
        requires tree { IsTree searcher.old.asked.plan.plan searcher.old.asked.request (shape_of self.now) }
        requires room { IsRoomy self.now }
        ensures placed { IfOk result (λ yes. IsTrue yes ↔ (shown (shape_of self.now) ≡ state_at searcher.old.asked.plan.plan searcher.old.asked.request (shown (shape_of self.now)).emitted)) }
        ensures called { searcher.new.calls.count ≤ searcher.old.calls.count + length self.now.nodes.items }
        ensures no_fewer { searcher.old.calls.count ≤ searcher.new.calls.count }
        ensures same { searcher.new.asked ≡ searcher.old.asked }
    {
        if let Some(last) = self.last_given() {
            if is_passed(last, self.leaves.as_slice()) {
                return Ok(false);
            }
            if let Some(next) = self.next_carried() {
                if !is_below(last, next) {
                    return Ok(false);
                }
            }
        }
        self.carries_least(searcher)
    }
}
