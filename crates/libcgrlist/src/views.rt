//! Looking at plans.

ghost use Rattle.std.specs.Prelude.{◌≡◌, ◌≢◌, IfOk, IsFalse, slice_get};
ghost use Rattle.std.specs.Option.{option_copied};
ghost use Rattle.sabr_model.specs.plan.Plan.{contact_named};
ghost use Rattle.sabr_model.specs.plan.Table.{ends_of};
ghost use Rattle.sabr_plan.specs.Canonical.{digest_of};
ghost use Rattle.libcgrlist.specs.Views.{AnswersNodes, AreNodesOf, Gives, GivesRange, counts_of};
ghost use Rattle.libcgrlist.specs.Open.{Calls, IsValidHandle};
ghost use Rattle.libcgrlist.specs.Status.{done};

use crate::buffers::put_whole;
use crate::handle::{PlanHandle, over_plan};
use crate::opened::Opened;
use crate::status::{CLOSED, DONE, MEMORY, NO};
use sabr_model::{Contact, NoMemory, Plan, Range};
use std::alloc::Global;

/// `cgrlist_counts`: what a plan has.
#[repr(C)]
#[derive(Clone, Copy)]
pub struct Counts {
    /// The contacts that stand.
    pub contacts: u64,
    /// The ranges that stand.
    pub ranges: u64,
    /// The nodes that send or receive a standing contact.
    pub nodes: u64,
    /// The standing contacts that have no light time at their start.
    pub without_light: u64,
    /// The largest number ever given to a contact, 0 at first.
    pub greatest: u64,
}

/// `cgrlist_contact`: a contact, its window in seconds since 1970-01-01T00:00:00Z, its rate in bytes a second, and its
/// one-way light time in seconds if it has one.
#[repr(C)]
#[derive(Clone, Copy)]
pub struct ContactRow {
    pub from: u64,
    pub to: u64,
    pub start: u64,
    pub end: u64,
    pub rate: u64,
    pub number: u32,
    pub light: u32,
    pub has_light: bool,
}

/// `cgrlist_range`: a one-way light time in seconds, between two nodes over a window in seconds since
/// 1970-01-01T00:00:00Z.
#[repr(C)]
#[derive(Clone, Copy)]
pub struct RangeRow {
    pub one: u64,
    pub other: u64,
    pub start: u64,
    pub end: u64,
    pub light: u32,
}

/// Counts what a plan has.
fn counted(opened: &mut Opened) -> Counts
    ensures counts { result ≡ counts_of opened.old.plan.plan }
    ensures same { opened.new ≡ opened.old }
{
    let without_light = opened.without_light() as u64;
    let plan = opened.plan();
    Counts {
        contacts: plan.contacts().len() as u64,
        ranges: plan.ranges().len() as u64,
        nodes: plan.nodes() as u64,
        without_light,
        greatest: plan.largest() as u64,
    }
}

/// Gives the standing contact with this number, if there is one. Its light time is the one that the plan stores, if it
/// stores any.
fn give_contact(plan: &Plan<Global>, number: u32, row: &mut ContactRow) -> u32
    ensures { Gives plan.now.plan (contact_named plan.now.plan number) result row.old row.new }
{
    let Some(contact) = plan.contact(number) else {
        return NO;
    };
    let light = match plan.hop(number) {
        Some(hop) => hop.light,
        None => None,
    };
    *row = ContactRow {
        from: contact.from,
        to: contact.to,
        start: contact.start,
        end: contact.end,
        rate: contact.rate,
        number: contact.number,
        light: light.unwrap_or(0),
        has_light: light.is_some(),
    };
    DONE
}

/// Gives the standing contact at a place, if there is one.
fn give_contact_at(plan: &Plan<Global>, place: usize, row: &mut ContactRow) -> u32
    ensures { Gives plan.now.plan (slice_get plan.now.plan.contacts place) result row.old row.new }
{
    let Some(contact) = plan.contacts().get(place) else {
        return NO;
    };
    plan.rules_hold();
    give_contact(plan, contact.number, row)
}

/// Gives a range, if there is one.
fn give_range(found: Option<&Range>, row: &mut RangeRow) -> u32
    ensures { GivesRange (option_copied found.entry) result row.old row.new }
{
    let Some(range) = found else {
        return NO;
    };
    *row = RangeRow {
        one: range.one,
        other: range.other,
        start: range.start,
        end: range.end,
        light: range.light,
    };
    DONE
}

/// Returns the senders and receivers of contacts.
fn ends_of(alloc: Global, contacts: &[Contact]) -> Result<Vec<u64, Global>, NoMemory>
    ensures { IfOk result (λ nodes. nodes.items ≡ ends_of contacts.now) }
{
    let mut nodes = Vec::new(alloc);
    for contact in contacts {
        nodes.push(contact.from)?;
        nodes.push(contact.to)?;
    }
    Ok(nodes)
}

/// Returns the nodes that send or receive some contact, in ascending order.
fn nodes_of(alloc: Global, contacts: &[Contact]) -> Result<Vec<u64, Global>, NoMemory>
    ensures { IfOk result (λ nodes. AreNodesOf contacts.now nodes.items) }
{
    let mut nodes = ends_of(alloc, contacts)?;
    nodes.sort_unstable();
    nodes.dedup();
    Ok(nodes)
}

/// Gives what a plan has, as `check` counts it. The first call after a change looks up the light times of all contacts.
#[unsafe(no_mangle)]
pub extern "C" fn cgrlist_plan_counts(
    alloc: Global,
    handle: &mut PlanHandle,
    counts: &mut Counts,
) -> u32
    requires { IsValidHandle handle.old }
    ensures counts { Calls handle.old handle.new result (λ o n. (n ≡ o) × (result ≡ done) × (counts.new ≡ counts_of o.plan.plan)) }
    ensures kept { result ≢ 0 → counts.new ≡ counts.old }
{
    *counts = over_plan!(handle, alloc, opened => counted(opened));
    DONE
}

/// Gives the largest number ever given to a contact, 0 at first.
#[unsafe(no_mangle)]
pub extern "C" fn cgrlist_plan_greatest(
    alloc: Global,
    handle: &mut PlanHandle,
    number: &mut u32,
) -> u32
    requires { IsValidHandle handle.old }
    ensures greatest { Calls handle.old handle.new result (λ o n. (n ≡ o) × (result ≡ done) × (number.new ≡ o.plan.plan.largest)) }
    ensures kept { result ≢ 0 → number.new ≡ number.old }
{
    *number = over_plan!(handle, alloc, opened => opened.plan().largest());
    DONE
}

/// Gives the digest of a plan's canonical text.
#[unsafe(no_mangle)]
pub extern "C" fn cgrlist_plan_digest(
    alloc: Global,
    handle: &mut PlanHandle,
    digest: &mut [u8; 32],
) -> u32
    requires { IsValidHandle handle.old }
    ensures digest { Calls handle.old handle.new result (λ o n. (n ≡ o) × (result ≡ done) × (digest.new ≡ digest_of o.plan.plan)) }
    ensures kept { result ≢ 0 → digest.new ≡ digest.old }
{
    *digest = over_plan!(handle, alloc, opened => opened.digest());
    DONE
}

/// Gives the standing contact with this number.
#[unsafe(no_mangle)]
pub extern "C" fn cgrlist_plan_contact(
    alloc: Global,
    handle: &mut PlanHandle,
    number: u32,
    contact: &mut ContactRow,
) -> u32
    requires { IsValidHandle handle.old }
    ensures contact { Calls handle.old handle.new result (λ o n. (n ≡ o) × Gives o.plan.plan (contact_named o.plan.plan number) result contact.old contact.new) }
    ensures kept { result ≢ 0 → contact.new ≡ contact.old }
{
    over_plan!(handle, alloc, opened => give_contact(opened.plan(), number, contact))
}

/// Gives the standing contact at this place, from 0, in the order of numbers.
#[unsafe(no_mangle)]
pub extern "C" fn cgrlist_plan_contact_at(
    alloc: Global,
    handle: &mut PlanHandle,
    place: usize,
    contact: &mut ContactRow,
) -> u32
    requires { IsValidHandle handle.old }
    ensures contact { Calls handle.old handle.new result (λ o n. (n ≡ o) × Gives o.plan.plan (slice_get o.plan.plan.contacts place) result contact.old contact.new) }
    ensures kept { result ≢ 0 → contact.new ≡ contact.old }
{
    over_plan!(handle, alloc, opened => give_contact_at(opened.plan(), place, contact))
}

/// Gives the standing range at this place, from 0, in the order of pairs of nodes and starts.
#[unsafe(no_mangle)]
pub extern "C" fn cgrlist_plan_range_at(
    alloc: Global,
    handle: &mut PlanHandle,
    place: usize,
    range: &mut RangeRow,
) -> u32
    requires { IsValidHandle handle.old }
    ensures range { Calls handle.old handle.new result (λ o n. (n ≡ o) × GivesRange (slice_get o.plan.plan.ranges place) result range.old range.new) }
    ensures kept { result ≢ 0 → range.new ≡ range.old }
{
    over_plan!(handle, alloc, opened => give_range(opened.plan().ranges().get(place), range))
}

/// Gives the nodes that send or receive a standing contact, in ascending order, and their number. If there is no room
/// for all of them, none is written.
#[unsafe(no_mangle)]
pub extern "C" fn cgrlist_plan_nodes(
    alloc: Global,
    handle: &mut PlanHandle,
    nodes: &mut [u64],
    count: &mut usize,
) -> u32
    requires { IsValidHandle handle.old }
    ensures nodes { Calls handle.old handle.new result (λ o n. (n ≡ o) × AnswersNodes o.plan.plan.contacts result nodes.old nodes.new count.old count.new) }
    ensures closed { IsFalse handle.old.is_open → (nodes.new ≡ nodes.old) × (count.new ≡ count.old) }
{
    let found = over_plan!(handle, alloc, opened => nodes_of(alloc, opened.plan().contacts()));
    match found {
        Ok(found) => {
            *count = found.len();
            put_whole(found.as_slice(), nodes)
        }
        Err(_refused) => MEMORY,
    }
}
