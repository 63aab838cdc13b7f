//! Ranges in a tree, where some are deleted, or come in no order.

ghost use Rattle.std.specs.Prelude.{◌≡◌, ◌<◌, ◌≤◌, ◌+◌, [], None, Some, Err, OnOk, OnErr, IfOk, IsTrue, IsFalse, IsOkUnless, filter, length, not};
ghost use Rattle.std.specs.List.{list_any};
ghost use Rattle.sabr_model.specs.plan.Plan.{last_time, IsPlan, most_light, overlap};
ghost use Rattle.sabr_model.specs.Order.{put_in};
ghost use Rattle.sabr_plan.specs.Gathering.{plan_of_ranges, put_in_turn, ObeyInTurn};
ghost use Rattle.sabr_model.specs.declared.fault.AddFault.{AddFault};
ghost use Rattle.sabr_model.specs.declared.fault.AddFault.TheVariants.{NoMemory, NothingToDelete};
ghost use Rattle.sabr_model.specs.plan.Adding.{range_refusal, by_range_key, begins};

use crate::gathering::sorted_ranges::sorted_ranges;
use sabr_model::{AddFault, Range};
use std::alloc::{AllocError, Allocator};
use std::collections::BTreeMap;
use std::marker::Model;

/// Ranges that obey the rules of a plan's ranges, by pair of nodes and start.
#[derive(Drop)]
pub struct RangeTree<A: Allocator + Copy> {
    ranges: BTreeMap<(u64, u64, u64), Range, A>,
}

impl<A: Allocator + Copy> Model for RangeTree<A> {
    ghost use Rattle.std.specs.Prelude.{List};
    ghost use Rattle.std.specs.BTreeMap.{values};
    ghost use Rattle.sabr_model.specs.declared.contact.Range.{Range};
    ghost use Rattle.sabr_plan.specs.Gathering.{IsRangeTree};

    ghost Value = { List Range };

    ghost view = { λ t. values t.ranges };

    ghost invariant = { λ t. IsRangeTree t.ranges };
}

impl<A: Allocator + Copy> RangeTree<A> {
    /// Adds a range, as `Plan::add_range` does, in O(log n): with the same errors.
    #[tactic(auto, using(crate::proofs::RangeTrees::tree_stays))]
    pub fn add(&mut self, range: Range) -> Result<(), AddFault>
        requires one { 0 < range.one }
        requires other { 0 < range.other }
        requires end { range.end ≤ last_time }
        requires light { range.light ≤ most_light }

        // The first reason to refuse it is returned. Without one, only an allocation can fail.
        ensures refused { (f : AddFault) → range_refusal (plan_of_ranges self.old) range ≡ Some f → result ≡ Err f }
        ensures accepted { range_refusal (plan_of_ranges self.old) range ≡ None → IsOkUnless result NoMemory }

        // It is among the ranges. An error changes nothing.
        ensures ok { OnOk result (self.new ≡ put_in by_range_key range self.old) }
        ensures longer { OnOk result (length self.new ≡ length self.old + 1) }
        ensures err { OnErr result (self.new ≡ self.old) }
    {
        if let Some(fault) = self.refusal(&range) {
            return Err(fault);
        }
        let Ok(_) = self.ranges.insert(range.key(), range) else {
            return Err(AddFault::NoMemory);
        };
        Ok(())
    }

    /// Returns the first reason to refuse a range, or `None`, in O(log n).
    pub fn refusal(&self, range: &Range) -> Option<AddFault>
        ensures { result ≡ range_refusal (plan_of_ranges self.now) range.now }
    {
        let overlaps = self.overlaps(range);
        range.refusal(overlaps, self.ranges.len())
    }

    /// Returns true if a range overlaps one of its ordered pair: if any, the last that begins before its end.
    fn overlaps(&self, range: &Range) -> bool
        ensures { result ≡ list_any (overlap range.now) self.now }
    {
        let end = (range.one, range.other, range.end);
        match self.ranges.range(..end).next_back() {
            Some((_, last)) => range.overlaps(last),
            None => false,
        }
    }

    /// Deletes the range of this ordered pair that begins at this start, in O(log n). The error is `NothingToDelete` if
    /// there is none.
    #[tactic(auto, using(crate::proofs::RangeTrees::tree_has))]
    pub fn delete(&mut self, one: u64, other: u64, start: u64) -> Result<(), AddFault>
        ensures refused { IsFalse (list_any (begins one other start) self.old) → result ≡ Err NothingToDelete }
        ensures accepted { IsTrue (list_any (begins one other start) self.old) → IsOkUnless result NoMemory }
        ensures ok { OnOk result (self.new ≡ filter (λ r. not (begins one other start r)) self.old) }
        ensures err { OnErr result (self.new ≡ self.old) }
    {
        match self.ranges.remove(&(one, other, start)) {
            Some(_) => Ok(()),
            None => Err(AddFault::NothingToDelete),
        }
    }

    /// Writes the ranges over as many others, in ascending order of pair and start.
    pub fn write_over(&self, list: &mut Vec<Range, A>)
        requires { length list.old.items ≡ length self.now }
        ensures value { list.new.items ≡ self.now }
        ensures rules { IsPlan (plan_of_ranges self.now) }
    {
        list.clear();
        for range in self.ranges.values() {
            list.push_reserved(*range);
        }
    }

    /// Returns the ranges, in ascending order of pair and start.
    pub fn into_ranges(self, alloc: A) -> Result<Vec<Range, A>, AllocError>
        ensures value { IfOk result (λ v. v.items ≡ self) }
        ensures rules { IsPlan (plan_of_ranges self) }
    {
        let RangeTree { ranges } = self;
        ranges.into_values().collect(alloc)
    }
}

/// Makes the tree of ranges that were put in one by one.
pub fn range_tree<A: Allocator + Copy>(
    alloc: A,
    ranges: &[Range],
) -> Result<RangeTree<A>, AllocError>
    requires { ObeyInTurn ranges.now }
    ensures { IfOk result (λ t. t ≡ put_in_turn ranges.now []) }
{
    let copied = Vec::from_slice(alloc, ranges)?;
    let sorted = sorted_ranges(alloc, copied)?;
    plant(alloc, &sorted)
}

/// Makes the tree of ranges in order. It begins with the last one, so that each comes before all that the tree has.
pub fn plant<A: Allocator + Copy>(alloc: A, ranges: &[Range]) -> Result<RangeTree<A>, AllocError>
    requires { IsPlan (plan_of_ranges ranges.now) }
    ensures { IfOk result (λ t. t ≡ ranges.now) }
{
    let mut planted = BTreeMap::new(alloc);
    let mut left = ranges.len();
    while left > 0 {
        left -= 1;
        let range = ranges[left];
        let Ok(_) = planted.insert(range.key(), range) else {
            return Err(AllocError);
        };
    }
    Ok(RangeTree { ranges: planted })
}
