//! Adding ranges, and refusing them.

ghost use Rattle.std.specs.Prelude.{◌≡◌, ◌<◌, ◌≤◌, None, Some, Err, OnOk, OnErr, IsOkUnless};
ghost use Rattle.sabr_model.specs.plan.Plan.{last_time, most_light};
ghost use Rattle.sabr_model.specs.declared.fault.AddFault.{AddFault};
ghost use Rattle.sabr_model.specs.declared.fault.AddFault.TheVariants.{NoMemory};
ghost use Rattle.sabr_model.specs.plan.Adding.{new_range, range_refusal, with_range};

use super::Plan;
use super::ranges::ranges_until;
use crate::contact::Range;
use crate::fault::AddFault;
use std::alloc::{AllocError, Allocator};

impl<A: Allocator + Copy> Plan<A> {
    /// Adds a range that is not refused.
    fn put_range(&mut self, range: Range) -> Result<(), AllocError>
        requires one { 0 < range.one }
        requires other { 0 < range.other }
        requires end { range.end ≤ last_time }
        requires light { range.light ≤ most_light }
        requires accepted { range_refusal self.old.plan range ≡ None }

        // It is among the ranges. An error changes nothing.
        ensures ok { OnOk result (self.new ≡ record { plan = with_range self.old.plan range; table = self.old.table }) }
        ensures err { OnErr result (self.new ≡ self.old) }
    {
        let place = ranges_until(&self.ranges, range.key());
        self.ranges.insert(place, range)?;
        self.lit = false;
        Ok(())
    }

    /// Adds a range: the one-way light time, 0 to 1000000 seconds, from `start` until before `end`. Both are seconds
    /// since 1970-01-01T00:00:00Z, and `end` is at most 253370764799.
    ///
    /// With `one < other` it holds both ways, with `one > other` only from `one` to `other` (this project's profile of
    /// ionrc(5)). An error leaves the plan as it was. It is a binary search, and moves the ranges that come after it.
    ///
    /// # Errors
    ///
    /// The first that applies: `EmptyWindow` if the range does not start before its end, `SelfPair` if both nodes are
    /// the same, `RangeOverlap` if a standing range of this ordered pair overlaps it, `TooMany` if there are 20000
    /// standing ranges, and `NoMemory` if an allocation failed.
    pub fn add_range(
        &mut self,
        one: u64,
        other: u64,
        start: u64,
        end: u64,
        light: u32,
    ) -> Result<(), AddFault>
        requires one { 0 < one }
        requires other { 0 < other }
        requires end { end ≤ last_time }
        requires light { light ≤ most_light }

        // The first reason to refuse it is returned. Without one, only an allocation can fail.
        ensures refused { (f : AddFault) → range_refusal self.old.plan (new_range one other start end light) ≡ Some f → result ≡ Err f }
        ensures accepted { range_refusal self.old.plan (new_range one other start end light) ≡ None → IsOkUnless result NoMemory }

        // It is among the ranges. An error changes nothing.
        ensures ok { OnOk result (self.new ≡ record { plan = with_range self.old.plan (new_range one other start end light); table = self.old.table }) }
        ensures err { OnErr result (self.new ≡ self.old) }
    {
        let range = Range {
            one,
            other,
            start,
            end,
            light,
        };
        let clashes = range.overlaps_some(&self.ranges);
        if let Some(fault) = range.refusal(clashes, self.ranges.len()) {
            return Err(fault);
        }
        self.put_range(range).map_err(|_| AddFault::NoMemory)
    }
}
