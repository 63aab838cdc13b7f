//! The law of finders: the best route of a part.

ghost use Rattle.std.specs.Prelude.{◌≡◌, ℕ, ◌+◌, ◌*◌, ◌≤◌, IfOk, IsTrue, length};
ghost use Rattle.sabr_search.specs.questions.Calls.{Calls, with_call};
ghost use Rattle.sabr_search.specs.questions.Part.{IsBestOf};
ghost use Rattle.sabr_search.specs.questions.Bounded.{IsSought, IsFloor, IsDecided, sought_hops};
ghost use Rattle.sabr_search.specs.answers.SearchCache.{IsSearchCache};
ghost use Rattle.sabr_model.specs.routes.Route.{is_prefix};
ghost use Rattle.sabr_model.specs.plan.Table.{node_count};
ghost use Rattle.sabr_search.specs.answers.Asked.{answer_hops};

use crate::bound::{BoundedPart, Sought};
use crate::part::{Excluded, Part};
use crate::search_cache::SearchCache;
use sabr_index::Index;
use sabr_model::{NoMemory, Plan, Request, Route};
use std::alloc::Allocator;

/// A finder of the best route of a part of the routes.
pub trait BestOf<A: Allocator + Copy>: Drop {
    /// The looks of the last call of `best`: how often it used a contact's record.
    ghost looks_of: { Self → ℕ };

    /// All calls, refused ones among them: how many they are, and how many looks they took together.
    ghost calls_of: { Self → Calls };

    /// Returns the best route of the part by key (delivery, number of hops, contact numbers), or none if the part has
    /// no route.
    ///
    /// The part's prefix is one that `fits`. The answer doesn't depend on what was asked before.
    ///
    /// # Errors
    ///
    /// [`NoMemory`] if an allocation failed. The finder can be used again.
    fn best(
        &mut self,
        plan: &Plan<A>,
        request: &Request,
        part: Part<'_>,
    ) -> Result<Option<Route<A>>, NoMemory>
        requires fits { IsTrue (is_prefix plan.now.plan request.now part.prefix.now) }
        ensures least { IfOk result (IsBestOf plan.now.plan request.now part.entry.prefix.now part.entry.excluded.now) }
        ensures bound { looks_of self.new ≤ (3 * node_count plan.now.plan.contacts + 1) * length plan.now.plan.contacts }
        ensures counted { IfOk result (λ answer. answer_hops answer ≤ looks_of self.new) }
        ensures called { calls_of self.new ≡ with_call (calls_of self.old) (looks_of self.new) };

    /// Does the same with an index of the plan, and with the cache of the searches of this plan and request.
    ///
    /// The answer doesn't depend on the cache. The call counts as one of `best`.
    ///
    /// # Errors
    ///
    /// [`NoMemory`] where an allocation failed. The finder and the cache can be used again.
    fn best_beside(
        &mut self,
        cache: &mut SearchCache<A>,
        index: &Index<'_, A>,
        request: &Request,
        prefix: &[u32],
        excluded: Excluded<'_>,
    ) -> Result<Option<Route<A>>, NoMemory>
        requires fits { IsTrue (is_prefix index.now.plan request.now prefix.now) }
        requires cache { IsSearchCache index.now request.now cache.old }
        ensures least { IfOk result (IsBestOf index.now.plan request.now prefix.now excluded.entry.numbers.now) }
        ensures bound { looks_of self.new ≤ (3 * node_count index.now.plan.contacts + 1) * length index.now.plan.contacts }
        ensures counted { IfOk result (λ answer. answer_hops answer ≤ looks_of self.new) }
        ensures called { calls_of self.new ≡ with_call (calls_of self.old) (looks_of self.new) }
        ensures cache { IsSearchCache index.now request.now cache.new }
    {
        let _cache = cache;
        let part = Part {
            prefix,
            excluded: excluded.numbers,
        };
        self.best(index.plan(), request, part)
    }

    /// Does the same as `best_beside` for the best route up to a bound. A worse route needn't be returned.
    ///
    /// The caller promises that no route of the part delivers before its floor.
    ///
    /// # Errors
    ///
    /// [`NoMemory`] where an allocation failed. The finder and the cache can be used again.
    fn best_up_to(
        &mut self,
        cache: &mut SearchCache<A>,
        index: &Index<'_, A>,
        request: &Request,
        part: BoundedPart<'_>,
    ) -> Result<Sought<A>, NoMemory>
        requires fits { IsTrue (is_prefix index.now.plan request.now part.prefix.now) }
        requires floor { IsFloor index.now.plan request.now part.prefix.now part.excluded.numbers.now part.floor }
        requires cache { IsSearchCache index.now request.now cache.old }

        // The answer.
        ensures sought { IfOk result (IsSought index.now.plan request.now part.entry.prefix.now part.entry.excluded.numbers.now part.entry.bound) }
        ensures decided { IfOk result (IsDecided part.entry.bound) }

        // The looks, and the cache.
        ensures bound { looks_of self.new ≤ (3 * node_count index.now.plan.contacts + 1) * length index.now.plan.contacts }
        ensures counted { IfOk result (λ answer. sought_hops answer ≤ looks_of self.new) }
        ensures called { calls_of self.new ≡ with_call (calls_of self.old) (looks_of self.new) }
        ensures cache { IsSearchCache index.now request.now cache.new }
    {
        let _cache = cache;
        let unbounded = Part {
            prefix: part.prefix,
            excluded: part.excluded.numbers,
        };
        let found = self.best(index.plan(), request, unbounded)?;
        Ok(Sought::of(found))
    }

    /// How many looks the last call of `best` took, each a use of a contact's record; 0 before the first call. Bounds
    /// beside contacts, among them the starts that binary searches compare, aren't counted.
    fn looks(&self) -> u64
        ensures { result ≡ looks_of self.now };
}
