//! What stands behind an open handle: a plan, and the ranges that calls added and that aren't in the plan yet.

ghost use Rattle.std.specs.Prelude.{◌≡◌, ◌<◌, ◌≤◌, None, Some, Err, OnOk, OnErr, IsFalse, IsOkUnless, is_some};
ghost use Rattle.sabr_model.specs.plan.Plan.{last_time, most_light};
ghost use Rattle.sabr_model.specs.plan.Adding.{range_refusal, with_range};
ghost use Rattle.sabr_model.specs.declared.fault.AddFault.{AddFault};
ghost use Rattle.sabr_model.specs.declared.fault.AddFault.TheVariants as fault;
ghost use Rattle.libcgrlist.specs.Changes.{Becomes, ChangesInMemory, range_added};
ghost use Rattle.libcgrlist.specs.Held.{CanGrow, standing};

use crate::changes::value_refusal;
use crate::opened::Opened;
use crate::status::{DONE, LISTING, VALUE_LIGHT, of_change};
use sabr_model::{AddFault, MAX_LIGHT, Range};
use sabr_plan::GrowingRanges;
use std::alloc::Global;

/// The number of calls of `add_range` whose ranges are inserted into the plan at once.
const FIRST_RANGES: u32 = 16;

/// An open plan. Inserting a range into the plan's list moves all ranges after it. So after a few calls of `add_range`,
/// later ranges go into a tree, and a call that reads the plan inserts all of them at once.
#[derive(Drop)]
pub struct Held {
    /// The plan, without the ranges that are only in the tree.
    pub opened: Opened,
    /// The tree of all ranges, if some aren't in the plan yet.
    pub growing: Option<GrowingRanges<Global>>,
    /// The number of calls of `add_range`, refused ones among them, since ranges were last in the tree.
    pub placed: u32,
}

impl Held {
    /// Holds a plan that has all its ranges.
    pub fn of(opened: Opened) -> Held
        ensures { result ≡ record { opened = opened; growing = None; placed = 0 } }
    {
        Held {
            opened,
            growing: None,
            placed: 0,
        }
    }

    /// Inserts the ranges of the tree into the plan. It doesn't allocate.
    pub fn insert_ranges(&mut self)
        requires { CanGrow self.old }
        ensures opened { self.new.opened ≡ standing self.old }
        ensures inserted { self.new.growing ≡ None }
    {
        if self.growing.is_none() {
            return;
        }
        if let Some(growing) = self.growing.take() {
            self.opened.set_ranges(growing.into_ranges());
        }
        self.placed = 0;
    }

    /// Adds a range, and returns the status.
    pub fn add_range(&mut self, alloc: Global, new: &Range) -> u32
        requires { CanGrow self.old }
        ensures change { ChangesInMemory (standing self.old) (range_added (standing self.old) new.now) result (standing self.new) }
        ensures grows { CanGrow self.new }
    {
        if self.opened.has_listing() {
            return LISTING;
        }
        if let Some(status) = value_refusal(new.one, new.other, new.start, new.end) {
            return status;
        }
        if new.light > MAX_LIGHT {
            return VALUE_LIGHT;
        }
        match self.put_range(alloc, *new) {
            Ok(()) => DONE,
            Err(fault) => of_change(fault),
        }
    }

    /// Inserts a range into the plan, or into the tree. The errors are those of `Plan::add_range`.
    fn put_range(&mut self, alloc: Global, new: Range) -> Result<(), AddFault>
        requires grows { CanGrow self.old }
        requires listing { IsFalse (is_some self.old.opened.listing) }
        requires one { 0 < new.one }
        requires other { 0 < new.other }
        requires end { new.end ≤ last_time }
        requires light { new.light ≤ most_light }
        ensures refused { (f : AddFault) → range_refusal (standing self.old).plan.plan new ≡ Some f → result ≡ Err f }
        ensures accepted { range_refusal (standing self.old).plan.plan new ≡ None → IsOkUnless result fault.NoMemory }
        ensures ok { OnOk result (Becomes (standing self.old) (with_range (standing self.old).plan.plan new) (standing self.new)) }
        ensures err { OnErr result (standing self.new ≡ standing self.old) }
        ensures grows { CanGrow self.new }
    {
        self.grow(alloc);
        match &mut self.growing {
            Some(growing) => growing.add(new),
            None => {
                self.placed = self.placed.saturating_add(1);
                self.opened.add_range(&new)
            }
        }
    }

    /// Makes the tree after some calls of `add_range`, unless an allocation fails.
    fn grow(&mut self, alloc: Global)
        requires grows { CanGrow self.old }
        requires listing { IsFalse (is_some self.old.opened.listing) }
        ensures same { standing self.new ≡ standing self.old }
        ensures opened { self.new.opened ≡ self.old.opened }
        ensures grows { CanGrow self.new }
    {
        if self.growing.is_some() || self.placed < FIRST_RANGES {
            return;
        }
        self.opened.plan().rules_hold();
        if let Ok(growing) = GrowingRanges::of(alloc, self.opened.plan().ranges()) {
            self.growing = Some(growing);
        }
    }
}
