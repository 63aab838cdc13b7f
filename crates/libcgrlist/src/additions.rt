//! Adding contacts and ranges, many at once: all or none.

ghost use Rattle.std.specs.Prelude.{◌≡◌, IfOk, IsFalse, is_some};
ghost use Rattle.sabr_model.specs.plan.Plan.{ContactPlan, IsPlan};
ghost use Rattle.libcgrlist.specs.Additions.{AddsAll, Makes, Puts, PutsAll, TakesOver, all_put, all_refused, contacts_added, over_ranges, ranges_added, row_put};
ghost use Rattle.libcgrlist.specs.Changes.{contact_put};
ghost use Rattle.libcgrlist.specs.Open.{Calls, IsValidHandle};

use crate::changes::value_refusal;
use crate::handle::{PlanHandle, over_plan};
use crate::opened::{NewContact, Opened, copy_of};
use crate::status::{CLOSED, DONE, LISTING, MEMORY, VALUE_LIGHT, of_change};
use crate::views::RangeRow;
use sabr_model::{MAX_LIGHT, NoMemory, Plan, Range};
use sabr_plan::GrowingRanges;
use std::alloc::Global;

/// A record that is refused: its place among those to add, from 0, and the status.
#[derive(Clone, Copy)]
pub struct RefusedRecord {
    pub place: usize,
    pub status: u32,
}

impl RefusedRecord {
    /// The refusal of all records.
    fn all(status: u32) -> RefusedRecord
        ensures { result ≡ all_refused status }
    {
        RefusedRecord { place: 0, status }
    }
}

/// Adds a contact, or returns the status of its refusal.
fn put_contact(plan: &mut Plan<Global>, new: &NewContact) -> Result<(), u32>
    ensures { Puts (contact_put plan.old.plan new.now) result plan.new.plan }
{
    if let Some(status) = value_refusal(new.from, new.to, new.start, new.end) {
        return Err(status);
    }
    match plan.add_contact(new.from, new.to, new.start, new.end, new.rate) {
        Ok(_number) => Ok(()),
        Err(fault) => Err(of_change(fault)),
    }
}

/// Adds a range, or returns the status of its refusal.
fn put_range(growing: &mut GrowingRanges<Global>, new: &RangeRow) -> Result<(), u32>
    ensures { (p : ContactPlan) → Puts (row_put (over_ranges p growing.old) new.now) result (over_ranges p growing.new) }
{
    if let Some(status) = value_refusal(new.one, new.other, new.start, new.end) {
        return Err(status);
    }
    if new.light > MAX_LIGHT {
        return Err(VALUE_LIGHT);
    }
    let range = Range {
        one: new.one,
        other: new.other,
        start: new.start,
        end: new.end,
        light: new.light,
    };
    match growing.add(range) {
        Ok(()) => Ok(()),
        Err(fault) => Err(of_change(fault)),
    }
}

/// Adds contacts one after another, up to the first that is refused.
fn put_contacts(plan: &mut Plan<Global>, contacts: &[NewContact]) -> Result<(), RefusedRecord>
    ensures { PutsAll (all_put contact_put 0 plan.old.plan contacts.now) result plan.new.plan }
{
    for place in 0..contacts.len() {
        if let Err(status) = put_contact(plan, &contacts[place]) {
            return Err(RefusedRecord { place, status });
        }
    }
    Ok(())
}

/// Adds ranges one after another, up to the first that is refused.
fn put_ranges(growing: &mut GrowingRanges<Global>, ranges: &[RangeRow]) -> Result<(), RefusedRecord>
    ensures { (p : ContactPlan) → PutsAll (all_put row_put 0 (over_ranges p growing.old) ranges.now) result (over_ranges p growing.new) }
{
    for place in 0..ranges.len() {
        if let Err(status) = put_range(growing, &ranges[place]) {
            return Err(RefusedRecord { place, status });
        }
    }
    Ok(())
}

/// Returns a copy of the plan with more contacts.
fn with_contacts(
    alloc: Global,
    opened: &Opened,
    contacts: &[NewContact],
) -> Result<Plan<Global>, RefusedRecord>
    ensures made { Makes (contacts_added opened.now contacts.now) result }
    ensures closed { IfOk result (λ p. IsFalse (is_some opened.now.listing)) }
{
    if opened.has_listing() {
        return Err(RefusedRecord::all(LISTING));
    }
    let Ok(mut plan) = copy_of(alloc, opened.plan()) else {
        return Err(RefusedRecord::all(MEMORY));
    };
    match put_contacts(&mut plan, contacts) {
        Ok(()) => Ok(plan),
        Err(refused) => Err(refused),
    }
}

/// Returns a copy of a plan with other ranges.
fn copy_over(
    alloc: Global,
    plan: &Plan<Global>,
    ranges: Vec<Range, Global>,
) -> Result<Plan<Global>, NoMemory>
    requires { IsPlan (over_ranges plan.now.plan ranges.items) }
    ensures { IfOk result (λ p. p.plan ≡ over_ranges plan.now.plan ranges.items) }
{
    let contacts = Vec::from_slice(alloc, plan.contacts())?;
    Plan::of_parts(alloc, contacts, ranges, plan.largest())
}

/// Returns a copy of the plan with more ranges.
fn with_ranges(
    alloc: Global,
    opened: &Opened,
    ranges: &[RangeRow],
) -> Result<Plan<Global>, RefusedRecord>
    ensures made { Makes (ranges_added opened.now ranges.now) result }
    ensures closed { IfOk result (λ p. IsFalse (is_some opened.now.listing)) }
{
    if opened.has_listing() {
        return Err(RefusedRecord::all(LISTING));
    }
    let plan = opened.plan();
    plan.rules_hold();
    let Ok(mut growing) = GrowingRanges::of(alloc, plan.ranges()) else {
        return Err(RefusedRecord::all(MEMORY));
    };
    if let Err(refused) = put_ranges(&mut growing, ranges) {
        return Err(refused);
    }
    match copy_over(alloc, plan, growing.into_ranges()) {
        Ok(made) => Ok(made),
        Err(_refused) => Err(RefusedRecord::all(MEMORY)),
    }
}

/// Puts a plan in place of the one that is open, or gives the place of the record that is refused, and returns the
/// status.
fn take_over(
    opened: &mut Opened,
    made: Result<Plan<Global>, RefusedRecord>,
    place: &mut usize,
) -> u32
    requires { IfOk made (λ p. IsFalse (is_some opened.old.listing)) }
    ensures { TakesOver opened.old made result place.old place.new opened.new }
{
    match made {
        Ok(plan) => {
            opened.replace_plan(plan);
            DONE
        }
        Err(refused) => {
            if refused.status != MEMORY {
                *place = refused.place;
            }
            refused.status
        }
    }
}

/// Adds contacts, all or none.
fn add_contacts(
    alloc: Global,
    opened: &mut Opened,
    contacts: &[NewContact],
    place: &mut usize,
) -> u32
    ensures { AddsAll opened.old (contacts_added opened.old contacts.now) result place.old place.new opened.new }
{
    let made = with_contacts(alloc, opened, contacts);
    take_over(opened, made, place)
}

/// Adds ranges, all or none.
fn add_ranges(alloc: Global, opened: &mut Opened, ranges: &[RangeRow], place: &mut usize) -> u32
    ensures { AddsAll opened.old (ranges_added opened.old ranges.now) result place.old place.new opened.new }
{
    let made = with_ranges(alloc, opened, ranges);
    take_over(opened, made, place)
}

/// Adds contacts in their order, or none of them, and gives the place of the first that is refused.
#[unsafe(no_mangle)]
pub extern "C" fn cgrlist_plan_add_contacts(
    alloc: Global,
    handle: &mut PlanHandle,
    contacts: &[NewContact],
    place: &mut usize,
) -> u32
    requires { IsValidHandle handle.old }
    ensures change { Calls handle.old handle.new result (λ o n. AddsAll o (contacts_added o contacts.now) result place.old place.new n) }
    ensures closed { IsFalse handle.old.is_open → place.new ≡ place.old }
{
    over_plan!(handle, alloc, opened => add_contacts(alloc, opened, contacts, place))
}

/// Adds ranges in their order, or none of them, and gives the place of the first that is refused.
#[unsafe(no_mangle)]
pub extern "C" fn cgrlist_plan_add_ranges(
    alloc: Global,
    handle: &mut PlanHandle,
    ranges: &[RangeRow],
    place: &mut usize,
) -> u32
    requires { IsValidHandle handle.old }
    ensures change { Calls handle.old handle.new result (λ o n. AddsAll o (ranges_added o ranges.now) result place.old place.new n) }
    ensures closed { IsFalse handle.old.is_open → place.new ≡ place.old }
{
    over_plan!(handle, alloc, opened => add_ranges(alloc, opened, ranges, place))
}
