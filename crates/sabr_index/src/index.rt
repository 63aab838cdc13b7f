//! The index of a plan.

ghost use Rattle.std.specs.Prelude.{◌≡◌, ◌<◌, ℕ, Some, IfOk, length, slice_get};
ghost use Rattle.sabr_index.specs.Index.{AreLinksOfPlan};
ghost use Rattle.sabr_index.specs.Links.{AreLinksOf};

use crate::counted_plan::CountedPlan;
use crate::link::Links;
use crate::plan_links::{HeldLinks, PlanLinks};
use sabr_model::{NoMemory, Plan};
use std::alloc::{Allocator, Global};
use std::marker::Model;

/// A plan with what searches read of it. Contracts see the plan.
#[derive(Drop)]
pub struct Index<'p, A: Allocator + Copy = Global> {
    /// The plan as searches hold it.
    counted: CountedPlan<'p, A>,
}

impl<'p, A: Allocator + Copy> Model for Index<'p, A> {
    ghost use Rattle.sabr_model.specs.plan.Plan.{TabledPlan};

    ghost Value = { TabledPlan };

    ghost view = { λ i. i.counted };
}

impl<'p, A: Allocator + Copy> Index<'p, A> {
    /// Makes the index of a plan, with links of its own. Its cost is that of [`PlanLinks::new`].
    ///
    /// # Errors
    ///
    /// [`NoMemory`] if an allocation failed.
    pub fn new(alloc: A, plan: &'p Plan<A>) -> Result<Index<'p, A>, NoMemory>
        ensures { IfOk result (λ i. i ≡ plan.now) }
    {
        let links = HeldLinks::Owned(PlanLinks::new(alloc, plan)?);
        Ok(Index {
            counted: CountedPlan::over(plan, links),
        })
    }

    /// Makes the index of a plan whose links its owner keeps. Its cost is constant.
    pub fn over(plan: &'p Plan<A>, links: &'p PlanLinks<A>) -> Index<'p, A>
        requires { AreLinksOfPlan plan.now links.now }
        ensures { result ≡ plan.now }
    {
        Index {
            counted: CountedPlan::over(plan, HeldLinks::Borrowed(links)),
        }
    }

    /// The plan.
    pub fn plan(&self) -> &'p Plan<A>
        ensures { result.now ≡ self.now }
    {
        self.counted.plan()
    }

    /// The plan as searches hold it, from which a contact's record is read only by a call that counts a look.
    pub fn counted(&self) -> &CountedPlan<'p, A>
        ensures { result.now ≡ self.now }
    {
        &self.counted
    }

    /// The links of the node at an index of the table.
    pub fn links(&self, index: usize) -> Links<'_>
        requires { index < length self.now.table }
        ensures { (node : ℕ) → slice_get self.now.table index ≡ Some node → AreLinksOf self.now node result.links.now result.passes.now }
    {
        self.counted.links(index)
    }
}
