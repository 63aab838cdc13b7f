//! The finder that settles nodes first, and then makes only the layers that the best route needs.

ghost use Rattle.std.specs.Prelude.{◌≡◌, ◌≤◌, ◌+◌, ◌*◌, IfOk, IsTrue, length};
ghost use Rattle.sabr_model.specs.routes.Route.{is_prefix};
ghost use Rattle.sabr_model.specs.plan.Table.{node_count};
ghost use Rattle.sabr_search.specs.questions.Part.{IsBestOf};
ghost use Rattle.sabr_search.specs.questions.Calls.{begun_with, no_calls, with_call};
ghost use Rattle.sabr_search.specs.questions.Bounded.{IsSought, IsCutUpTo, IsFloor, IsDecided, sought_hops};
ghost use Rattle.sabr_index.specs.Looks.{looks_taken};
ghost use Rattle.sabr_search.specs.answers.Asked.{answer_hops, IsCut};
ghost use Rattle.sabr_search.specs.answers.SearchCache.{IsSearchCache};

use crate::best::BestOf;
use crate::bound::{Bound, BoundedPart, Sought};
use crate::ghost_calls::GhostCalls;
use crate::part::{Excluded, Part};
use crate::question::Question;
use crate::search::Search;
use crate::search_cache::SearchCache;
use crate::task::Task;
use sabr_index::{CountedPlan, Index, Looks};
use sabr_model::{NoMemory, Plan, Request, Route};
use std::alloc::{Allocator, Global};

/// A finder that settles nodes in order of arrival plus a lower bound on the rest (A*), up to the first delivery, and
/// then makes layers backward from the goal for it.
///
/// A call costs at most `(3 * N + 1) * C` looks, for N nodes and C contacts. Without a limit on hops it costs at most
/// `(3 * r + 3) * C`, for r hops of the answer after the prefix. Its memory is reused from call to call.
#[derive(Drop)]
pub struct Settled<A: Allocator + Copy = Global> {
    /// The allocator of the buffers.
    alloc: A,
    /// What its searches keep from call to call.
    search: Search<A>,
    /// The looks that the last call left.
    looks: Looks,
    /// Its calls, for proofs alone: how many, and the looks of those before the last.
    begun: GhostCalls,
}

impl<A: Allocator + Copy> Settled<A> {
    /// Makes a finder that wasn't called. It doesn't allocate.
    pub fn new(alloc: A) -> Settled<A>
        ensures looks { looks_taken result.looks ≡ 0 }
        ensures calls { result.begun.calls ≡ no_calls }
    {
        Settled {
            alloc,
            search: Search::new(alloc),
            looks: Looks::many(),
            begun: GhostCalls::new(),
        }
    }

    /// Counts a call, which may still take these looks.
    fn begin(&mut self, looks: Looks)
        ensures looks { self.new.looks ≡ looks }
        ensures called { self.new.begun.calls ≡ with_call self.old.begun.calls (looks_taken self.old.looks) }
    {
        self.begun.add(self.looks.taken());
        self.looks = looks;
    }

    /// Finds the best route of a part up to a bound, from the cache or else by a search.
    fn find(
        &mut self,
        cache: &mut SearchCache<A>,
        index: &CountedPlan<'_, A>,
        request: &Request,
        part: BoundedPart<'_>,
    ) -> Result<Sought<A>, NoMemory>
        requires fits { IsTrue (is_prefix index.now.plan request.now part.prefix.now) }
        requires floor { IsFloor index.now.plan request.now part.prefix.now part.excluded.numbers.now part.floor }
        requires few { looks_taken self.old.looks ≤ length index.now.plan.contacts }
        requires cache { IsSearchCache index.now request.now cache.old }

        // The answer.
        ensures sought { IfOk result (IsSought index.now.plan request.now part.entry.prefix.now part.entry.excluded.numbers.now part.entry.bound) }
        ensures decided { IfOk result (IsDecided part.entry.bound) }

        // The looks, the calls and the cache.
        ensures bound { looks_taken self.new.looks ≤ (3 * node_count index.now.plan.contacts + 1) * length index.now.plan.contacts }
        ensures counted { IfOk result (λ answer. sought_hops answer ≤ looks_taken self.new.looks) }
        ensures calls { self.new.begun ≡ self.old.begun }
        ensures cache { IsSearchCache index.now request.now cache.new }
        ensures cut { IfOk result (IsCutUpTo index.now.plan request.now.max_hops part.entry.bound part.entry.prefix.now (looks_taken self.new.looks)) }
    {
        cache.prepare_path(index, request)?;
        let Some(prefix_path) = cache.prefix_path.as_mut() else {
            return Ok(Sought::None);
        };
        let Ok(stop) = prefix_path.go(&mut self.looks, index, request, part.prefix) else {
            cache.prefix_path = None;
            return Err(NoMemory);
        };
        let task = Task::new(index, request, prefix_path, part.excluded, stop);
        let asked = Question::of(&task, part, stop.summary);
        self.search
            .find_route(&mut cache.memory, &asked, &mut self.looks)
    }

    /// Finds the best route of a part, without an upper bound.
    fn find_unbounded(
        &mut self,
        cache: &mut SearchCache<A>,
        index: &CountedPlan<'_, A>,
        request: &Request,
        prefix: &[u32],
        excluded: Excluded<'_>,
    ) -> Result<Option<Route<A>>, NoMemory>
        requires fits { IsTrue (is_prefix index.now.plan request.now prefix.now) }
        requires few { looks_taken self.old.looks ≤ length index.now.plan.contacts }
        requires cache { IsSearchCache index.now request.now cache.old }

        // The answer.
        ensures least { IfOk result (IsBestOf index.now.plan request.now prefix.now excluded.entry.numbers.now) }

        // The looks, the calls and the cache.
        ensures bound { looks_taken self.new.looks ≤ (3 * node_count index.now.plan.contacts + 1) * length index.now.plan.contacts }
        ensures counted { IfOk result (λ answer. answer_hops answer ≤ looks_taken self.new.looks) }
        ensures calls { self.new.begun ≡ self.old.begun }
        ensures cache { IsSearchCache index.now request.now cache.new }
        ensures cut { IfOk result (IsCut index.now.plan request.now.max_hops prefix.now (looks_taken self.new.looks)) }
    {
        let unbounded = BoundedPart {
            prefix,
            excluded,
            bound: Bound::none(),
            floor: 0,
        };
        match self.find(cache, index, request, unbounded)? {
            Sought::Route(route) => Ok(Some(route)),
            Sought::None => Ok(None),
            Sought::Beyond => unreachable!(),
        }
    }
}

impl<A: Allocator + Copy> BestOf<A> for Settled<A> {
    ghost looks_of = { λ f. looks_taken f.looks };

    ghost calls_of = { λ f. begun_with f.begun.calls f.looks };

    fn best(
        &mut self,
        plan: &Plan<A>,
        request: &Request,
        part: Part<'_>,
    ) -> Result<Option<Route<A>>, NoMemory>
        requires fits { IsTrue (is_prefix plan.now.plan request.now part.prefix.now) }
        ensures least { IfOk result (IsBestOf plan.now.plan request.now part.entry.prefix.now part.entry.excluded.now) }
        ensures bound { looks_taken self.new.looks ≤ (3 * node_count plan.now.plan.contacts + 1) * length plan.now.plan.contacts }
        ensures counted { IfOk result (λ answer. answer_hops answer ≤ looks_taken self.new.looks) }
        ensures called { begun_with self.new.begun.calls self.new.looks ≡ with_call (begun_with self.old.begun.calls self.old.looks) (looks_taken self.new.looks) }
        ensures cut { IfOk result (IsCut plan.now.plan request.now.max_hops part.entry.prefix.now (looks_taken self.new.looks)) }
    {
        self.begin(Looks::over(plan));
        let Ok(index) = Index::new(self.alloc, plan) else {
            return Err(NoMemory);
        };
        let mut cache = SearchCache::new(self.alloc);
        let excluded = Excluded::of(part.excluded);
        self.find_unbounded(&mut cache, index.counted(), request, part.prefix, excluded)
    }

    fn best_beside(
        &mut self,
        cache: &mut SearchCache<A>,
        index: &Index<'_, A>,
        request: &Request,
        prefix: &[u32],
        excluded: Excluded<'_>,
    ) -> Result<Option<Route<A>>, NoMemory>
        requires fits { IsTrue (is_prefix index.now.plan request.now prefix.now) }
        requires cache { IsSearchCache index.now request.now cache.old }

        // The route, the looks, and what is remembered.
        ensures least { IfOk result (IsBestOf index.now.plan request.now prefix.now excluded.entry.numbers.now) }
        ensures bound { looks_taken self.new.looks ≤ (3 * node_count index.now.plan.contacts + 1) * length index.now.plan.contacts }
        ensures counted { IfOk result (λ answer. answer_hops answer ≤ looks_taken self.new.looks) }
        ensures called { begun_with self.new.begun.calls self.new.looks ≡ with_call (begun_with self.old.begun.calls self.old.looks) (looks_taken self.new.looks) }
        ensures cache { IsSearchCache index.now request.now cache.new }
        ensures cut { IfOk result (IsCut index.now.plan request.now.max_hops prefix.now (looks_taken self.new.looks)) }
    {
        self.begin(Looks::many());
        self.find_unbounded(cache, index.counted(), request, prefix, excluded)
    }

    fn best_up_to(
        &mut self,
        cache: &mut SearchCache<A>,
        index: &Index<'_, A>,
        request: &Request,
        part: BoundedPart<'_>,
    ) -> Result<Sought<A>, NoMemory>
        requires fits { IsTrue (is_prefix index.now.plan request.now part.prefix.now) }
        requires floor { IsFloor index.now.plan request.now part.prefix.now part.excluded.numbers.now part.floor }
        requires cache { IsSearchCache index.now request.now cache.old }

        // The answer.
        ensures sought { IfOk result (IsSought index.now.plan request.now part.entry.prefix.now part.entry.excluded.numbers.now part.entry.bound) }
        ensures decided { IfOk result (IsDecided part.entry.bound) }

        // The looks, the calls and the cache.
        ensures bound { looks_taken self.new.looks ≤ (3 * node_count index.now.plan.contacts + 1) * length index.now.plan.contacts }
        ensures counted { IfOk result (λ answer. sought_hops answer ≤ looks_taken self.new.looks) }
        ensures called { begun_with self.new.begun.calls self.new.looks ≡ with_call (begun_with self.old.begun.calls self.old.looks) (looks_taken self.new.looks) }
        ensures cache { IsSearchCache index.now request.now cache.new }
        ensures cut { IfOk result (IsCutUpTo index.now.plan request.now.max_hops part.entry.bound part.entry.prefix.now (looks_taken self.new.looks)) }
    {
        self.begin(Looks::many());
        self.find(cache, index.counted(), request, part)
    }

    fn looks(&self) -> u64 {
        self.looks.taken()
    }
}
