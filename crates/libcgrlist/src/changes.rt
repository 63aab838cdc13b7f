//! Changing plans.

ghost use Rattle.std.specs.Prelude.{◌≡◌, ◌≢◌, ◌+◌, ◌<◌, ◌≤◌, IfNone, Some};
ghost use Rattle.sabr_model.specs.plan.Plan.{last_time};
ghost use Rattle.sabr_model.specs.plan.Adding.{new_range, number_of_opening};
ghost use Rattle.libcgrlist.specs.Changes.{Changes, ChangesInMemory, contact_added, contact_deleted, number_deleted, range_added, range_deleted, value_refusal};
ghost use Rattle.libcgrlist.specs.Open.{Calls, IsValidHandle};

use crate::handle::{PlanHandle, over_plan};
use crate::opened::{NewContact, Opened};
use crate::status::{
    CLOSED, DONE, LISTING, NOTHING_TO_DELETE, VALUE_LIGHT, VALUE_NODE, VALUE_TIME, of_change,
};
use sabr_model::{LAST_TIME, MAX_LIGHT, Range};
use std::alloc::Global;

/// Returns the status of the first value outside its limits: a node is 0, or a time is above the largest.
pub fn value_refusal(one: u64, other: u64, start: u64, end: u64) -> Option<u32>
    ensures value { result ≡ value_refusal one other start end }
    ensures nodes { IfNone result ((0 < one) × (0 < other)) }
    ensures end { IfNone result (end ≤ last_time) }
{
    if one == 0 || other == 0 {
        return Some(VALUE_NODE);
    }
    if start > LAST_TIME || end > LAST_TIME {
        return Some(VALUE_TIME);
    }
    None
}

/// Adds a contact, and gives its number.
fn add_contact(opened: &mut Opened, new: &NewContact, number: &mut u32) -> u32
    ensures change { ChangesInMemory opened.old (contact_added opened.old new.now) result opened.new }
    ensures given { result ≡ 0 → number.new ≡ opened.old.plan.plan.largest + 1 }
    ensures kept { result ≢ 0 → number.new ≡ number.old }
{
    if opened.has_listing() {
        return LISTING;
    }
    if let Some(status) = value_refusal(new.from, new.to, new.start, new.end) {
        return status;
    }
    match opened.add_contact(new) {
        Ok(given) => {
            *number = given;
            DONE
        }
        Err(fault) => of_change(fault),
    }
}

/// Deletes a contact, and gives the number that it had.
fn delete_contact(opened: &mut Opened, from: u64, to: u64, start: u64, number: &mut u32) -> u32
    ensures change { Changes opened.old (contact_deleted opened.old from to start) result opened.new }
    ensures given { result ≡ 0 → number_of_opening opened.old.plan.plan from to start ≡ Some number.new }
    ensures kept { result ≢ 0 → number.new ≡ number.old }
{
    if opened.has_listing() {
        return LISTING;
    }
    if let Some(status) = value_refusal(from, to, start, start) {
        return status;
    }
    match opened.delete_contact(from, to, start) {
        Ok(had) => {
            *number = had;
            DONE
        }
        Err(fault) => of_change(fault),
    }
}

/// Deletes the contact with a number.
fn delete_number(opened: &mut Opened, number: u32) -> u32
    ensures { Changes opened.old (number_deleted opened.old number) result opened.new }
{
    if opened.has_listing() {
        return LISTING;
    }
    opened.plan().rules_hold();
    let Some(contact) = opened.plan().contact(number) else {
        return NOTHING_TO_DELETE;
    };
    let contact = *contact;
    match opened.delete_contact(contact.from, contact.to, contact.start) {
        Ok(_number) => DONE,
        Err(fault) => of_change(fault),
    }
}

/// Deletes a range.
fn delete_range(opened: &mut Opened, one: u64, other: u64, start: u64) -> u32
    ensures { Changes opened.old (range_deleted opened.old one other start) result opened.new }
{
    if opened.has_listing() {
        return LISTING;
    }
    if let Some(status) = value_refusal(one, other, start, start) {
        return status;
    }
    match opened.delete_range(one, other, start) {
        Ok(()) => DONE,
        Err(fault) => of_change(fault),
    }
}

/// Adds a contact, and gives its number.
#[unsafe(no_mangle)]
pub extern "C" fn cgrlist_plan_add_contact(
    alloc: Global,
    handle: &mut PlanHandle,
    from: u64,
    to: u64,
    start: u64,
    end: u64,
    rate: u64,
    number: &mut u32,
) -> u32
    requires { IsValidHandle handle.old }
    ensures change { Calls handle.old handle.new result (λ o n. ChangesInMemory o (contact_added o (record { from = from; to = to; start = start; end = end; rate = rate })) result n) }
    ensures given { Calls handle.old handle.new result (λ o n. result ≡ 0 → number.new ≡ o.plan.plan.largest + 1) }
    ensures kept { result ≢ 0 → number.new ≡ number.old }
{
    let new = NewContact {
        from,
        to,
        start,
        end,
        rate,
    };
    over_plan!(handle, alloc, opened => add_contact(opened, &new, number))
}

/// Adds a range.
#[unsafe(no_mangle)]
pub extern "C" fn cgrlist_plan_add_range(
    alloc: Global,
    handle: &mut PlanHandle,
    one: u64,
    other: u64,
    start: u64,
    end: u64,
    light: u32,
) -> u32
    requires { IsValidHandle handle.old }
    ensures change { Calls handle.old handle.new result (λ o n. ChangesInMemory o (range_added o (new_range one other start end light)) result n) }
{
    let new = Range {
        one,
        other,
        start,
        end,
        light,
    };
    if !handle.is_open {
        return CLOSED;
    }
    let mut held = handle.take(alloc);
    let status = held.add_range(alloc, &new);
    handle.give(held);
    status
}

/// Deletes a contact, and gives the number that it had.
#[unsafe(no_mangle)]
pub extern "C" fn cgrlist_plan_delete_contact(
    alloc: Global,
    handle: &mut PlanHandle,
    from: u64,
    to: u64,
    start: u64,
    number: &mut u32,
) -> u32
    requires { IsValidHandle handle.old }
    ensures change { Calls handle.old handle.new result (λ o n. Changes o (contact_deleted o from to start) result n) }
    ensures given { Calls handle.old handle.new result (λ o n. result ≡ 0 → number_of_opening o.plan.plan from to start ≡ Some number.new) }
    ensures kept { result ≢ 0 → number.new ≡ number.old }
{
    over_plan!(handle, alloc, opened => delete_contact(opened, from, to, start, number))
}

/// Deletes the contact with a number.
#[unsafe(no_mangle)]
pub extern "C" fn cgrlist_plan_delete_number(
    alloc: Global,
    handle: &mut PlanHandle,
    number: u32,
) -> u32
    requires { IsValidHandle handle.old }
    ensures change { Calls handle.old handle.new result (λ o n. Changes o (number_deleted o number) result n) }
{
    over_plan!(handle, alloc, opened => delete_number(opened, number))
}

/// Deletes a range.
#[unsafe(no_mangle)]
pub extern "C" fn cgrlist_plan_delete_range(
    alloc: Global,
    handle: &mut PlanHandle,
    one: u64,
    other: u64,
    start: u64,
) -> u32
    requires { IsValidHandle handle.old }
    ensures change { Calls handle.old handle.new result (λ o n. Changes o (range_deleted o one other start) result n) }
{
    over_plan!(handle, alloc, opened => delete_range(opened, one, other, start))
}
