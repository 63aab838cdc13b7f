//! Finding ranges by binary search: those up to a pair and second, the light time in force, and an overlap.

ghost use Rattle.std.specs.Prelude.{◌≡◌, ◌<◌, ◌≤◌, ◌-◌, ◌↔◌, ◌==◌, ◌&&◌, Some, None, if◌then◌else◌, IsTrue, length, slice_index_or};
ghost use Rattle.std.specs.List.{list_any};
ghost use Rattle.sabr_model.specs.declared.contact.Range.{Range};
ghost use Rattle.sabr_model.specs.plan.Plan.{overlap, range_key};
ghost use Rattle.sabr_model.specs.plan.Adding.{begins};
ghost use Rattle.sabr_model.specs.plan.Light.{is_within, light_of_pair};
ghost use Rattle.sabr_model.specs.plan.RangeOrder.{IsRangeList, IsCountUntil};

use crate::contact::Range;

/// Counts the ranges, from the front, that come no later than a pair of nodes and a second. It is a binary search.
pub fn ranges_until(ranges: &[Range], key: (u64, u64, u64)) -> usize
    requires { IsRangeList ranges.now }
    ensures { IsCountUntil ranges.now key result }
{
    ranges.partition_point(|r| r.key() <= key)
}

/// Returns the light time of a range if it is of this ordered pair and in force at `t`, and `None` otherwise.
#[inline(always)]
pub fn light_of_range(range: &Range, one: u64, other: u64, t: u64) -> Option<u32>
    ensures { result ≡ (if (range.now.one == one) && (range.now.other == other) && is_within range.now.start range.now.end t then Some range.now.light else None) }
{
    if range.one == one && range.other == other && (range.start <= t && t < range.end) {
        Some(range.light)
    } else {
        None
    }
}

/// Returns the light time at `t` for this ordered pair, where `count` ranges come no later than the pair and `t`.
/// `None` if no range of the pair is in force.
pub fn light_until(ranges: &[Range], count: usize, one: u64, other: u64, t: u64) -> Option<u32>
    requires ranges { IsRangeList ranges.now }
    requires count { IsCountUntil ranges.now (one, other, t) count }
    ensures { result ≡ light_of_pair ranges.now one other t }
{
    if count == 0 {
        return None;
    }
    light_of_range(&ranges[count - 1], one, other, t)
}

/// Returns the light time of the range of this ordered pair that is in force at `t`, or `None`. It is a binary search.
pub fn light_in_force(ranges: &[Range], one: u64, other: u64, t: u64) -> Option<u32>
    requires { IsRangeList ranges.now }
    ensures { result ≡ light_of_pair ranges.now one other t }
{
    let count = ranges_until(ranges, (one, other, t));
    light_until(ranges, count, one, other, t)
}

impl Range {
    /// The pair of nodes and the start, by which the ranges of a plan are in order.
    #[inline]
    pub fn key(&self) -> (u64, u64, u64)
        ensures { result ≡ range_key self.now }
    {
        (self.one, self.other, self.start)
    }

    /// Returns true if the range is of this ordered pair and begins at this start.
    #[inline]
    pub fn begins(&self, one: u64, other: u64, start: u64) -> bool
        ensures { result ≡ begins one other start self.now }
    {
        one == self.one && other == self.other && start == self.start
    }

    /// Returns true if one of the ranges is of this ordered pair and begins at this start.
    pub fn any_begins(ranges: &[Range], one: u64, other: u64, start: u64) -> bool
        ensures { result ≡ list_any (begins one other start) ranges.now }
    {
        ranges.iter().any(|r| r.begins(one, other, start))
    }

    /// Returns true if both ranges are of one ordered pair and overlap.
    pub fn overlaps(&self, other: &Range) -> bool
        ensures { result ≡ overlap self.now other.now }
    {
        self.one == other.one
            && self.other == other.other
            && self.start < other.end
            && other.start < self.end
    }

    /// Returns true if this overlaps one of the ranges of its ordered pair. It is a binary search.
    pub fn overlaps_some(&self, ranges: &[Range]) -> bool
        requires { IsRangeList ranges.now }
        ensures { result ≡ list_any (overlap self.now) ranges.now }
    {
        let last = self.end.saturating_sub(1);
        let count = ranges_until(ranges, (self.one, self.other, last));
        if count == 0 {
            return false;
        }
        self.overlaps(&ranges[count - 1])
    }
}
