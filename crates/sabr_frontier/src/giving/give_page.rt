//! Giving several routes, one after another.

ghost use Rattle.std.specs.Prelude.{◌≡◌, ℕ, ◌+◌, ◌*◌, ◌<◌, ◌≤◌, ◌++◌, ◌⊎◌, drop, length, IfOk, OnOk, OnErr};
ghost use Rattle.sabr_model.specs.plan.Plan.{IsPlan};
ghost use Rattle.sabr_model.specs.routes.Asking.{IsRequest, most_hops};
ghost use Rattle.sabr_frontier.specs.tree.SmallestKeys.{AreNoted, CarryKeys, carried_keys, keys_of};
ghost use Rattle.sabr_frontier.specs.listing.Listing.{most_routes, searches_in};
ghost use Rattle.sabr_frontier.specs.session.Session.{IsSound, tree_before};
ghost use Rattle.sabr_frontier.specs.tree.Searching.{records_for, steps_for};
ghost use Rattle.sabr_frontier.specs.tree.PageTrees.{ShowsCut};
ghost use Rattle.sabr_frontier.specs.tree.Shape.{shape_of, shown};
ghost use Rattle.sabr_frontier.specs.tree.Giving.{OfNode};
ghost use Rattle.sabr_frontier.specs.tree.Undo.{IsRoomy};

use crate::giving::give_next::GivenRoute;
use crate::giving::searcher::Searcher;
use crate::giving::smallest_keys::SmallestKeys;
use crate::tree::Tree;
use sabr_model::{NoMemory, Numbers, Route};
use sabr_search::BestOf;
use std::alloc::Allocator;

/// The routes of a page.
#[derive(Drop)]
pub struct Page<A: Allocator + Copy> {
    /// The routes.
    pub routes: Vec<Route<A>, A>,
    /// The searches that they took.
    pub searches: u64,
}

/// Copies routes.
fn copies<A: Allocator + Copy>(alloc: A, routes: &[Route<A>]) -> Result<Vec<Route<A>, A>, NoMemory>
    ensures { IfOk result (λ v. v.items ≡ routes.now) }
{
    let mut copies = Vec::with_capacity(alloc, routes.len())?;
    for place in 0..routes.len() {
        let route = &routes[place];
        let contacts = Vec::from_slice(alloc, route.contacts.as_slice())?;
        copies.push_reserved(Route {
            contacts: Numbers::new(contacts),
            delivery: route.delivery,
            until: route.until,
            entry: route.entry,
        });
    }
    Ok(copies)
}

impl<A: Allocator + Copy> Tree<A> {
    /// Gives the next `count` routes, or all that are left if they are fewer, and returns copies of them.
    pub fn give_page<B: BestOf<A>>(
        &mut self,
        searcher: &mut Searcher<'_, B, A>,
        count: u32,
    ) -> Result<Page<A>, NoMemory>
        requires plan { IsPlan searcher.old.asked.plan.plan }
        requires hops { searcher.old.asked.request.max_hops ≤ most_hops }
        requires count { count ≤ most_routes }
        requires sound { IsSound searcher.old.asked.plan.plan searcher.old.asked.request (shape_of self.old) }
        requires room { IsRoomy self.old }

        // The routes are given, and the state is the one after their steps.
        ensures routes { IfOk result (λ page. page.routes.items ≡ records_for searcher.old.asked (steps_for searcher.old.asked count (shown (shape_of self.old))).0) }
        ensures state { OnOk result (shown (shape_of self.new) ≡ (steps_for searcher.old.asked count (shown (shape_of self.old))).1) }
        ensures entries { OnOk result (length self.new.journal.items ≡ length self.old.journal.items + length (steps_for searcher.old.asked count (shown (shape_of self.old))).0) }

        // It takes this number of searches, and no more if an allocation failed.
        ensures searches { IfOk result (λ page. page.searches ≡ searches_in searcher.old.asked.plan.plan searcher.old.asked.request count (shown (shape_of self.old))) }
        ensures called { IfOk result (λ page. searcher.new.calls.count ≡ searcher.old.calls.count + page.searches) }
        ensures no_fewer { OnErr result (searcher.old.calls.count ≤ searcher.new.calls.count) }
        ensures at_most { OnErr result (searcher.new.calls.count ≤ searcher.old.calls.count + searches_in searcher.old.asked.plan.plan searcher.old.asked.request count (shown (shape_of self.old))) }

        // In any case the tree is sound, and what was given can be taken back. The index and the question stay.
        ensures sound { IsSound searcher.old.asked.plan.plan searcher.old.asked.request (shape_of self.new) }
        ensures longer { length self.old.journal.items ≤ length self.new.journal.items }
        ensures back { tree_before (length self.old.journal.items) (shape_of self.new) ≡ shape_of self.old }
        ensures index { self.new.index.items ≡ self.old.index.items }
        ensures room { IsRoomy self.new }
        ensures same { searcher.new.asked ≡ searcher.old.asked }
    {
        let first = self.leaves.len();
        let mut searches = 0;
        let mut left = count;
        while 0 < left && !self.is_empty() {
            let given = self.give_next(searcher, None, None)?;
            searches += given.searches;
            left -= 1;
        }
        let routes = copies(searcher.alloc(), &self.leaves[first..])?;
        Ok(Page { routes, searches })
    }

    /// Gives the next `count` routes, or all that are left if they are fewer. The searches for new parts have a bound:
    /// they needn't find a route that comes after `count + 2` routes that the nodes have carried since the call began.
    /// A last page needs two more than the `count` given here: its last route, and one that shows that a route is left.
    /// So a division, too, needs two more than are still to be given here.
    pub fn give_page_up_to<B: BestOf<A>>(
        &mut self,
        searcher: &mut Searcher<'_, B, A>,
        count: u32,
    ) -> Result<(), NoMemory>
        requires plan { IsPlan searcher.old.asked.plan.plan }
        requires limits { IsRequest searcher.old.asked.request }
        requires count { count ≤ most_routes }
        requires sound { IsSound searcher.old.asked.plan.plan searcher.old.asked.request (shape_of self.old) }
        requires room { IsRoomy self.old }

        // The routes are those of the steps. The tree shows the state after them, but for routes that its nodes don't
        // carry, each after two others at least.
        ensures routes { OnOk result (self.new.leaves.items ≡ self.old.leaves.items ++ records_for searcher.old.asked (steps_for searcher.old.asked count (shown (shape_of self.old))).0) }
        ensures state { OnOk result (ShowsCut searcher.old.asked 2 (steps_for searcher.old.asked count (shown (shape_of self.old))).1 (shape_of self.new)) }
        ensures room { OnOk result (IsRoomy self.new) }

        // It takes as many searches as the steps, or fewer if two routes at least are left. The question stays.
        ensures no_fewer { OnOk result (searcher.old.calls.count ≤ searcher.new.calls.count) }
        ensures at_most { OnOk result (searcher.new.calls.count ≤ searcher.old.calls.count + searches_in searcher.old.asked.plan.plan searcher.old.asked.request count (shown (shape_of self.old))) }
        ensures called { OnOk result ((searcher.new.calls.count ≡ searcher.old.calls.count + searches_in searcher.old.asked.plan.plan searcher.old.asked.request count (shown (shape_of self.old))) ⊎ (2 ≤ length (carried_keys self.new.nodes.items))) }
        ensures same { searcher.new.asked ≡ searcher.old.asked }
    {
        let mut keys = SmallestKeys::new(searcher.alloc(), count as usize + 2);
        keys.note_all(self.nodes.as_slice())?;
        let mut left = count;
        while 0 < left && !self.is_empty() {
            let given = self.give_next(searcher, keys.bound(), Some(left as usize + 1))?;
            self.note_new(given, &mut keys)?;
            left -= 1;
        }
        Ok(())
    }

    /// Notes the keys of what was found once a route was given: what its node carries now, and what its new nodes do.
    fn note_new(&self, given: GivenRoute, keys: &mut SmallestKeys<A>) -> Result<(), NoMemory>
        requires in_range { given.node.0 < length self.now.nodes.items }
        requires within { given.first ≤ length self.now.nodes.items }
        requires fit { CarryKeys self.now.nodes.items }
        ensures { OnOk result (OfNode self.now.nodes.items given.node (λ n. AreNoted keys.old (keys_of n.route ++ carried_keys (drop given.first self.now.nodes.items)) keys.new)) }
    {
        keys.note_carried(&self.nodes[given.node.0])?;
        keys.note_all(&self.nodes[given.first..])
    }
}
