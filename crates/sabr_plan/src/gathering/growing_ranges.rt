//! The ranges of a plan to which more are added, one after another.

ghost use Rattle.std.specs.Prelude.{◌≡◌, ◌<◌, ◌≤◌, None, Some, Err, OnOk, OnErr, IfOk, IsOkUnless, length};
ghost use Rattle.sabr_model.specs.plan.Plan.{last_time, IsPlan, most_light};
ghost use Rattle.sabr_model.specs.Order.{put_in};
ghost use Rattle.sabr_plan.specs.Gathering.{plan_of_ranges};
ghost use Rattle.sabr_model.specs.declared.fault.AddFault.{AddFault};
ghost use Rattle.sabr_model.specs.declared.fault.AddFault.TheVariants.{NoMemory};
ghost use Rattle.sabr_model.specs.plan.Adding.{range_refusal, by_range_key};

use crate::gathering::range_tree::{RangeTree, plant};
use sabr_model::{AddFault, Range};
use std::alloc::{AllocError, Allocator, Global};
use std::marker::Model;

/// Ranges that obey the rules of a plan's ranges, in ascending order of pair and start, to which more are added.
#[derive(Drop)]
pub struct GrowingRanges<A: Allocator + Copy = Global> {
    tree: RangeTree<A>,
    /// As many ranges as the tree has, so that there is memory for the list of them.
    list: Vec<Range, A>,
}

impl<A: Allocator + Copy> Model for GrowingRanges<A> {
    ghost use Rattle.std.specs.Prelude.{◌≡◌, List, length};
    ghost use Rattle.sabr_model.specs.declared.contact.Range.{Range};

    ghost Value = { List Range };

    ghost view = { λ g. g.tree };

    ghost invariant = { λ g. length g.list.items ≡ length g.tree };
}

impl<A: Allocator + Copy> GrowingRanges<A> {
    /// Begins with the ranges of a plan. Its time grows with their number.
    ///
    /// # Errors
    ///
    /// An allocation failed.
    pub fn of(alloc: A, ranges: &[Range]) -> Result<GrowingRanges<A>, AllocError>
        requires { IsPlan (plan_of_ranges ranges.now) }
        ensures { IfOk result (λ g. g ≡ ranges.now) }
    {
        let tree = plant(alloc, ranges)?;
        let list = Vec::from_slice(alloc, ranges)?;
        Ok(GrowingRanges { tree, list })
    }

    /// Adds a range in O(log n), as `Plan::add_range` does: nodes, times in seconds since 1970-01-01T00:00:00Z, light
    /// time in seconds, and the same errors.
    pub fn add(&mut self, range: Range) -> Result<(), AddFault>
        requires one { 0 < range.one }
        requires other { 0 < range.other }
        requires end { range.end ≤ last_time }
        requires light { range.light ≤ most_light }

        // The first reason to refuse it is returned. Without one, only an allocation can fail.
        ensures refused { (f : AddFault) → range_refusal (plan_of_ranges self.old) range ≡ Some f → result ≡ Err f }
        ensures accepted { range_refusal (plan_of_ranges self.old) range ≡ None → IsOkUnless result NoMemory }

        // It is among the ranges. An error changes nothing.
        ensures ok { OnOk result (self.new ≡ put_in by_range_key range self.old) }
        ensures err { OnErr result (self.new ≡ self.old) }
    {
        if let Some(fault) = self.tree.refusal(&range) {
            return Err(fault);
        }
        self.list.push(range)?;
        let added = self.tree.add(range);
        if added.is_err() {
            self.list.pop();
        }
        added
    }

    /// Returns the ranges. It doesn't allocate.
    pub fn into_ranges(self) -> Vec<Range, A>
        ensures value { result.items ≡ self }
        ensures rules { IsPlan (plan_of_ranges self) }
    {
        let GrowingRanges { tree, mut list } = self;
        tree.write_over(&mut list);
        list
    }
}
