//! What tells whether a range overlaps one of those that came before it. A range that begins after all others end needs
//! no search.

ghost use Rattle.std.specs.Prelude.{◌≡◌, ◌<◌, ◌≤◌, [], IsTrue, length, map, is_some, not};
ghost use Rattle.std.specs.List.{list_any};
ghost use Rattle.std.specs.Ordering.{is_le};
ghost use Rattle.sabr_model.specs.Order.{by_key};
ghost use Rattle.sabr_model.specs.plan.Plan.{overlap, range_key};
ghost use Rattle.sabr_plan.specs.Gathering.{AreChained, EndBy, KnowsRanges, range_bucket, range_buckets};

use crate::gathering::chains::Chains;
use sabr_model::Range;
use std::alloc::Allocator;

/// The number of buckets. With 4096, a plan of 10000 ranges by start takes 0.8 percent fewer instructions for one
/// route, and one of 100 ranges 0.9 percent more. To vary it: `bench/figures.py --counts 1 --only
/// cube,relay-moon-20000`.
const BUCKETS: usize = 2048;

/// The number of steps along chains, for each range, after which the ranges are put into a tree.
const LONG: usize = 4;

/// The last end of ranges, by pair of nodes and second, and a hash table of ranges.
///
/// While each range begins after those before it end, the table is empty. From the first that doesn't, all ranges are
/// in the table.
#[derive(Drop)]
pub struct KnownRanges<A: Allocator + Copy> {
    /// The hash table of the first ranges, by their ordered pairs.
    pub chains: Chains<A>,
    /// The number of steps along chains so far.
    walked: usize,
    /// Whether each range so far begins after those before it end.
    pub in_order: bool,
    /// If so, no range ends after this, in the order of ranges: by pair of nodes and second.
    pub last: (u64, u64, u64),
}

impl<A: Allocator + Copy> KnownRanges<A> {
    /// Makes a value for no range. It doesn't allocate.
    pub fn new(alloc: A) -> KnownRanges<A>
        ensures lasts { result.chains.lasts.items ≡ [] }
        ensures befores { result.chains.befores.items ≡ [] }
    {
        KnownRanges {
            chains: Chains::new(alloc),
            walked: 0,
            in_order: true,
            last: (0, 0, 0),
        }
    }

    /// Returns true if a range that is to come after these overlaps one of its ordered pair.
    pub fn overlaps(&mut self, ranges: &[Range], range: &Range) -> bool
        requires { KnowsRanges self.old.chains.befores.items self.old.chains.lasts.items self.old.in_order self.old.last ranges.now }
        ensures value { result ≡ list_any (overlap range.now) ranges.now }
        ensures knows { KnowsRanges self.new.chains.befores.items self.new.chains.lasts.items self.new.in_order self.new.last ranges.now }
        ensures rises { IsTrue self.new.in_order → EndBy (range_key range.now) ranges.now }
    {
        if self.in_order && in_key_order(self.last, range) {
            return false;
        }
        self.in_order = false;
        let Ok(()) = self.chains.add_all(BUCKETS, ranges, bucket_of) else {
            return any_overlaps(ranges, range);
        };
        let Chains { lasts, befores } = &self.chains;
        let walked = walk_chain(ranges, befores, lasts, range);
        self.walked = self.walked.saturating_add(walked.unwrap_or(0));
        walked.is_none()
    }

    /// Returns true if the walks along the chains of this number of ranges took long since it last returned true.
    pub fn is_slow(&mut self, count: usize) -> bool
        ensures chains { self.new.chains ≡ self.old.chains }
        ensures in_order { self.new.in_order ≡ self.old.in_order }
        ensures last { self.new.last ≡ self.old.last }
    {
        let slow = self.walked / LONG > count;
        if slow {
            self.walked = 0;
        }
        slow
    }
}

/// Returns true if a key, of a pair and a second, comes no later than that of a range.
fn in_key_order(last: (u64, u64, u64), range: &Range) -> bool
    ensures { result ≡ is_le (by_key last (range_key range.now)) }
{
    last <= range.key()
}

/// The bucket of a range, by its ordered pair.
fn bucket_of(range: &Range) -> usize
    ensures value { result ≡ range_bucket range.now }
    ensures limit { result < range_buckets }
{
    let buckets = BUCKETS as u64;
    ((range.one % buckets * 509 + range.other % buckets) % buckets) as usize
}

/// Returns the number of steps along a chain if none of the ranges, all of which are in the hash table, is of the same
/// ordered pair as `range` and overlaps it, and `None` otherwise.
fn walk_chain(ranges: &[Range], befores: &[usize], lasts: &[usize], range: &Range) -> Option<usize>
    requires sized { range_buckets ≤ length lasts.now }
    requires chained { AreChained (map range_bucket ranges.now) befores.now lasts.now }
    requires all { length befores.now ≡ length ranges.now }
    ensures { is_some result ≡ not (list_any (overlap range.now) ranges.now) }
{
    let mut walked = 0usize;
    let mut at = lasts[bucket_of(range)];
    while at > 0 {
        if range.overlaps(&ranges[at - 1]) {
            return None;
        }
        at = befores[at - 1];
        walked = walked.saturating_add(1);
    }
    Some(walked)
}

/// Returns true if one of the ranges is of the same ordered pair as `range` and overlaps it.
fn any_overlaps(ranges: &[Range], range: &Range) -> bool
    ensures { result ≡ list_any (overlap range.now) ranges.now }
{
    ranges.iter().any(|r| range.overlaps(r))
}
