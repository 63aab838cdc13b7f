//! A finder by hop layers.

ghost use Rattle.std.specs.Prelude.{◌≡◌, ◌+◌, ◌*◌, ◌≤◌, IfOk, IsTrue, length};
ghost use Rattle.sabr_model.specs.routes.Route.{is_prefix};
ghost use Rattle.sabr_model.specs.routes.Telling.{summary_of};
ghost use Rattle.sabr_model.specs.plan.Table.{node_count};
ghost use Rattle.sabr_search.specs.questions.Part.{IsBestOf};
ghost use Rattle.sabr_search.specs.questions.Calls.{begun_with, no_calls, with_call};
ghost use Rattle.sabr_search.specs.questions.Task.{IsAsked};
ghost use Rattle.sabr_search.specs.layers.Late.{AreArrivals};
ghost use Rattle.sabr_index.specs.Looks.{looks_taken};
ghost use Rattle.sabr_search.specs.answers.Asked.{answer_hops};

use crate::best::BestOf;
use crate::bound::{Bound, BoundedPart, Sought};
use crate::ghost_calls::GhostCalls;
use crate::layer_search::LayerSearch;
use crate::part::{Excluded, Part};
use crate::prefix_path::PrefixPath;
use crate::question::Question;
use crate::search_cache::SearchCache;
use crate::stopped::Stopped;
use crate::task::Task;
use sabr_index::{CountedPlan, Index, Looks};
use sabr_model::{NoMemory, Plan, Request, Route, RouteSummary};
use std::alloc::{Allocator, Global};

/// A finder that makes layers forward for the earliest delivery, layers backward for its route, and then picks the
/// least numbers from the front.
///
/// A call costs at most `(3 * N + 1) * C` looks, for N nodes and C contacts. Its memory is reused from call to call.
#[derive(Drop)]
pub struct Layered<A: Allocator + Copy = Global> {
    /// The allocator of the buffers.
    alloc: A,
    /// Layers by hops, forward and backward.
    layers: LayerSearch<A>,
    /// For each node, when the search starts.
    since: Vec<u64, A>,
    /// The looks that the last call left.
    looks: Looks,
    /// Its calls, for proofs alone: how many, and the looks of those before the last.
    begun: GhostCalls,
}

impl<A: Allocator + Copy> Layered<A> {
    /// Makes a finder that wasn't called. It doesn't allocate.
    pub fn new(alloc: A) -> Layered<A>
        ensures looks { looks_taken result.looks ≡ 0 }
        ensures calls { result.begun.calls ≡ no_calls }
    {
        Layered {
            alloc,
            layers: LayerSearch::new(alloc),
            since: Vec::new(alloc),
            looks: Looks::many(),
            begun: GhostCalls::new(),
        }
    }

    /// Counts a call, which may still take these looks.
    fn begin(&mut self, looks: Looks)
        ensures looks { self.new.looks ≡ looks }
        ensures called { self.new.begun.calls ≡ with_call self.old.begun.calls (looks_taken self.old.looks) }
    {
        self.begun.add(self.looks.taken());
        self.looks = looks;
    }

    /// The best route after the prefix, by layers alone.
    fn best_after(
        &mut self,
        task: &Task<'_, A>,
        prefix: &[u32],
        summary: RouteSummary,
    ) -> Result<Option<Route<A>>, NoMemory>
        requires asked { IsAsked task.now prefix.now }
        requires summary { summary ≡ summary_of task.now.plan prefix.now }
        requires few { looks_taken self.old.looks ≤ 2 * length task.now.plan.contacts }
        requires arrivals { AreArrivals task.now self.old.since.items }

        // The route, and the looks.
        ensures least { IfOk result (IsBestOf task.now.plan task.now.request prefix.now task.now.excluded) }
        ensures bound { looks_taken self.new.looks ≤ (3 * length task.now.table + 1) * length task.now.plan.contacts }
        ensures counted { IfOk result (λ answer. answer_hops answer ≤ looks_taken self.new.looks) }
        ensures calls { self.new.begun ≡ self.old.begun }
    {
        let asked = Question {
            task,
            prefix,
            summary,
            bound: Bound::none(),
            floor: 0,
        };
        let mut first = Vec::new(self.alloc);
        let found = match self
            .layers
            .best_of(&asked, self.since.as_slice(), &mut first, &mut self.looks)
        {
            Ok(found) => found,
            Err(Stopped::NoLooks) => unreachable!(),
            Err(Stopped::NoMemory) => return Err(NoMemory),
        };
        let answer = asked.answer(self.alloc, &mut self.looks, &found)?;
        match answer {
            Sought::Route(route) => Ok(Some(route)),
            Sought::None => Ok(None),
            Sought::Beyond => unreachable!(),
        }
    }

    /// Finds the best route of a part.
    fn find(
        &mut self,
        index: &CountedPlan<'_, A>,
        request: &Request,
        prefix: &[u32],
        excluded: Excluded<'_>,
    ) -> Result<Option<Route<A>>, NoMemory>
        requires fits { IsTrue (is_prefix index.now.plan request.now prefix.now) }
        requires few { looks_taken self.old.looks ≤ length index.now.plan.contacts }
        ensures least { IfOk result (IsBestOf index.now.plan request.now prefix.now excluded.entry.numbers.now) }
        ensures bound { looks_taken self.new.looks ≤ (3 * node_count index.now.plan.contacts + 1) * length index.now.plan.contacts }
        ensures counted { IfOk result (λ answer. answer_hops answer ≤ looks_taken self.new.looks) }
        ensures calls { self.new.begun ≡ self.old.begun }
    {
        let Some(mut prefix_path) = PrefixPath::at_source(self.alloc, index, request)? else {
            return Ok(None);
        };
        let stop = prefix_path.go(&mut self.looks, index, request, prefix)?;
        let task = Task::new(index, request, &prefix_path, excluded, stop);
        self.since.clear();
        self.since.resize(index.nodes(), task.at())?;
        self.best_after(&task, prefix, stop.summary)
    }
}

impl<A: Allocator + Copy> BestOf<A> for Layered<A> {
    ghost looks_of = { λ f. looks_taken f.looks };

    ghost calls_of = { λ f. begun_with f.begun.calls f.looks };

    fn best(
        &mut self,
        plan: &Plan<A>,
        request: &Request,
        part: Part<'_>,
    ) -> Result<Option<Route<A>>, NoMemory> {
        self.begin(Looks::over(plan));
        let Ok(index) = Index::new(self.alloc, plan) else {
            return Err(NoMemory);
        };
        self.find(
            index.counted(),
            request,
            part.prefix,
            Excluded::of(part.excluded),
        )
    }

    fn best_up_to(
        &mut self,
        cache: &mut SearchCache<A>,
        index: &Index<'_, A>,
        request: &Request,
        part: BoundedPart<'_>,
    ) -> Result<Sought<A>, NoMemory> {
        let _cache = cache;
        self.begin(Looks::many());
        let found = self.find(index.counted(), request, part.prefix, part.excluded)?;
        Ok(Sought::of(found))
    }

    fn looks(&self) -> u64 {
        self.looks.taken()
    }
}
