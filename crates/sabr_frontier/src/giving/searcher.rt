//! Finding the best routes of parts, with a finder and its cache.

ghost use Rattle.std.specs.Prelude.{◌≡◌, ◌+◌, ◌≤◌, IfOk, IsTrue, length};
ghost use Rattle.std.specs.List.Sorted.{IsStrictlyIncreasing};
ghost use Rattle.sabr_model.specs.plan.Plan.{TabledPlan};
ghost use Rattle.sabr_model.specs.routes.Route.{is_prefix, is_route};
ghost use Rattle.sabr_search.specs.answers.SearchCache.{IsSearchCache};
ghost use Rattle.sabr_search.specs.questions.Bounded.{IsFloor};
ghost use Rattle.sabr_search.specs.questions.Detours.{GoesOtherwise, detour_looks};
ghost use Rattle.sabr_frontier.specs.tree.Searching.{GoOn, IsAtRest, best_for, looks_since, searching_first};
ghost use Rattle.sabr_frontier.specs.tree.Best.{found_by};

use sabr_index::{Index, Looks};
use sabr_model::{NoMemory, Plan, Request, Route};
use sabr_search::{BestOf, Bound, BoundedPart, Excluded, GhostCalls, SearchCache, Sought};
use std::alloc::{Allocator, Global};
use std::marker::Model;

/// The route that was found, if it is up to the bound, where there is one.
fn up_to<A: Allocator + Copy>(sought: Sought<A>, bound: Option<Bound>) -> Option<Route<A>>
    ensures { result ≡ found_by sought bound }
{
    let Sought::Route(route) = sought else {
        return None;
    };
    let Some(most) = bound else {
        return Some(route);
    };
    if most.holds(route.delivery, route.contacts.as_slice().len()) {
        return Some(route);
    }
    None
}

/// A finder with what it is asked for, and the cache of its searches. Contracts see the plan, the request, the finder's
/// calls, and those before the calls whose looks are summed.
#[derive(Drop)]
pub struct Searcher<'p, B: BestOf<A>, A: Allocator + Copy = Global> {
    /// The index of the plan.
    index: Index<'p, A>,
    /// What stays while it is paused.
    rest: PausedSearcher<B, A>,
    /// The looks of the calls that are summed, `u64::MAX` if they are more.
    looks: u64,
    /// The calls whose looks are summed, for proofs alone.
    counted_calls: GhostCalls,
}

/// A searcher without the index of its plan, which it doesn't borrow.
#[derive(Drop)]
pub struct PausedSearcher<B: BestOf<A>, A: Allocator + Copy = Global> {
    /// The allocator of all that is made.
    alloc: A,
    /// The request.
    request: Request,
    /// The finder of a part's best route.
    finder: B,
    /// The cache of its searches.
    cache: SearchCache<A>,
}

impl<'p, B: BestOf<A>, A: Allocator + Copy> Model for Searcher<'p, B, A> {
    ghost use Rattle.sabr_search.specs.answers.SearchCache.{IsSearchCache};
    ghost use Rattle.sabr_frontier.specs.tree.Searching.{IsSumOf, Searching, searching_over};

    ghost Value = { Searching };

    ghost view = { λ a. searching_over B.calls_of a.index a.rest a.counted_calls.calls };

    ghost invariant = { λ a. IsSearchCache a.index a.rest.request a.rest.cache × IsSumOf a.index.plan (B.calls_of a.rest.finder) a.counted_calls.calls a.looks };
}

impl<'p, B: BestOf<A>, A: Allocator + Copy> Searcher<'p, B, A> {
    /// Returns the searcher without its plan's index.
    pub fn pause(self) -> PausedSearcher<B, A>
        ensures request { result.request ≡ self.entry.asked.request }
        ensures calls { B.calls_of result.finder ≡ self.entry.calls }
        ensures cache { IsSearchCache self.entry.asked.plan result.request result.cache }
    {
        self.rest
    }

    /// Returns the plan's index and the finder, for another request.
    pub fn into_index_and_finder(self) -> (Index<'p, A>, B)
        ensures index { result.0 ≡ self.entry.asked.plan }
        ensures calls { B.calls_of result.1 ≡ self.entry.calls }
    {
        (self.index, self.rest.finder)
    }

    /// Returns the sum of the looks that the finder's calls took, `u64::MAX` if they are more, and begins it anew.
    pub fn take_looks(&mut self) -> u64
        ensures sum { result ≡ looks_since self.old.asked.before self.old.calls }
        ensures go_on { GoOn self.old.asked.plan.plan self.old.asked.before self.old.calls }
        ensures begun { self.new.asked ≡ record self.old.asked { before = self.old.calls } }
        ensures rest { IsAtRest self.new }
        ensures calls { self.new.calls ≡ self.old.calls }
    {
        let sum = self.looks;
        self.looks = 0;
        self.counted_calls = GhostCalls::new();
        sum
    }

    /// The allocator of what is made.
    pub fn alloc(&self) -> A {
        self.rest.alloc
    }

    /// The plan.
    pub fn plan(&self) -> &'p Plan<A>
        ensures { result.now ≡ self.now.asked.plan }
    {
        self.index.plan()
    }

    /// The request.
    pub fn request(&self) -> &Request
        ensures { result.now ≡ self.now.asked.request }
    {
        &self.rest.request
    }

    /// Finds the best route of a part. The excluded numbers must rise, and no route of the part may deliver before the
    /// second `floor`. Returns `None` if the part has no route, or if a bound is given and the best route is above that
    /// bound. Only this function calls the finder. It adds the looks of each call to the sum, even of a call that
    /// failed.
    #[tactic(auto, unfolding(crate::specs::tree::Best::best_of))]
    pub fn find_best<'x>(
        &mut self,
        prefix: &'x [u32],
        excluded: &'x [u32],
        floor: u64,
        bound: Option<Bound>,
    ) -> Result<Option<Route<A>>, NoMemory>
        requires fits { IsTrue (is_prefix self.old.asked.plan.plan self.old.asked.request prefix.now) }
        requires increasing { IsStrictlyIncreasing excluded.now }
        requires floor { IsFloor self.old.asked.plan.plan self.old.asked.request prefix.now excluded.now floor }
        ensures best { IfOk result (λ found. found ≡ best_for self.old.asked bound prefix.now excluded.now) }
        ensures called { self.new.calls.count ≡ self.old.calls.count + 1 }
        ensures same { self.new.asked ≡ self.old.asked }
    {
        self.index.plan().rules_hold();
        let excluded = Excluded {
            numbers: excluded,
            in_order: true,
        };
        let part = BoundedPart {
            prefix,
            excluded,
            bound: bound.unwrap_or(Bound::none()),
            floor,
        };
        let rest = &mut self.rest;
        let found = rest
            .finder
            .best_up_to(&mut rest.cache, &self.index, &rest.request, part);
        let looks = rest.finder.looks();
        self.looks = self.looks.saturating_add(looks);
        self.counted_calls.add(looks);
        let sought = found?;
        Ok(up_to(sought, bound))
    }

    /// Returns true if a route is seen, without a search, to have another ending in place of its last number.
    pub fn goes_otherwise(
        &mut self,
        looks: &mut Looks,
        route: &[u32],
        excluded: &[u32],
    ) -> Result<bool, NoMemory>
        requires route { IsTrue (is_route self.old.asked.plan.plan self.old.asked.request route.now) }
        requires few { detour_looks self.old.asked.request.max_hops ≤ looks.old.left }
        ensures yes { IfOk result (λ yes. IsTrue yes → GoesOtherwise self.old.asked.plan.plan self.old.asked.request route.now excluded.now) }
        ensures most { looks.old.left ≤ looks.new.left + detour_looks self.old.asked.request.max_hops }
        ensures fewer { looks.new.left ≤ looks.old.left }
        ensures least { IfOk result (λ yes. IsTrue yes → looks.new.left + length route.now ≤ looks.old.left) }
        ensures same { self.new ≡ self.old }
    {
        let rest = &mut self.rest;
        rest.cache
            .goes_otherwise(looks, &self.index, &rest.request, route, excluded)
    }
}

impl<B: BestOf<A>, A: Allocator + Copy> PausedSearcher<B, A> {
    /// Makes a searcher with an empty cache, for any plan.
    pub fn new(alloc: A, request: Request, finder: B) -> PausedSearcher<B, A>
        ensures request { result.request ≡ request }
        ensures finder { result.finder ≡ finder }
        ensures cache { (p : TabledPlan) → IsSearchCache p result.request result.cache }
    {
        PausedSearcher {
            alloc,
            request,
            finder,
            cache: SearchCache::new(alloc),
        }
    }

    /// Returns the searcher over an index of the plan that it was paused over.
    pub fn resume<'p>(self, index: Index<'p, A>) -> Searcher<'p, B, A>
        requires { IsSearchCache index self.request self.cache }
        ensures { result ≡ searching_first index.entry self.request (B.calls_of self.finder) }
    {
        Searcher {
            index,
            rest: self,
            looks: 0,
            counted_calls: GhostCalls::new(),
        }
    }
}
