//! The cache of the searches of one plan and request.

ghost use Rattle.std.specs.Prelude.{ℕ, List, IfOk, IfNone, IsTrue};
ghost use Rattle.sabr_model.specs.plan.Plan.{TabledPlan, IsPlan};
ghost use Rattle.sabr_model.specs.routes.Arrival.{RouteRequest};
ghost use Rattle.sabr_model.specs.routes.Route.{is_route};
ghost use Rattle.sabr_search.specs.answers.SearchCache.{IsSearchCache};

use crate::early::Memory;
use crate::prefix_path::PrefixPath;
use sabr_index::CountedPlan;
use sabr_model::{NoMemory, Request};
use std::alloc::{Allocator, Global};

/// The cache of the searches of one plan and request: the last prefix path, and what may spare a search.
///
/// No answer depends on what the cache holds. If an allocation for an entry failed, the entry is left out.
#[derive(Drop)]
pub struct SearchCache<A: Allocator + Copy = Global> {
    /// Where the last prefix led, if one is known.
    pub(crate) prefix_path: Option<PrefixPath<A>>,
    /// What may spare a search.
    pub(crate) memory: Memory<A>,
}

impl<A: Allocator + Copy> SearchCache<A> {
    /// Makes an empty value. It doesn't allocate.
    pub fn new(alloc: A) -> SearchCache<A>
        ensures { (p : TabledPlan) (r : RouteRequest) → IsSearchCache p r result }
    {
        SearchCache {
            prefix_path: None,
            memory: Memory::new(alloc),
        }
    }

    /// Makes the prefix path if there is none. There is none afterwards unless the plan has both the source and the
    /// destination.
    pub fn prepare_path(
        &mut self,
        plan: &CountedPlan<'_, A>,
        request: &Request,
    ) -> Result<(), NoMemory>
        requires cache { IsSearchCache plan.now request.now self.old }
        ensures cache { IsSearchCache plan.now request.now self.new }
        ensures plan { IsPlan plan.now.plan }
        ensures none { IfOk result (λ _. IfNone self.new.prefix_path ((s : List ℕ) → IsTrue (is_route plan.now.plan request.now s) → ⊥)) }
    {
        plan.rules_hold();
        if let None = &self.prefix_path {
            self.prefix_path = PrefixPath::at_source(self.memory.alloc, plan, request)?;
        }
        Ok(())
    }
}
