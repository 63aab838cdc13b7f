//! Copies of plans whose contacts are numbered from 1 on.

ghost use Rattle.std.specs.Prelude.{◌≡◌, ◌≢◌, ◌≤◌, IfOk, IsFalse, length};
ghost use Rattle.sabr_model.specs.plan.Plan.{most_records};
ghost use Rattle.host.specs.Buffers.{put_over};
ghost use Rattle.libcgrlist.specs.Open.{Calls, IsValidHandle};
ghost use Rattle.libcgrlist.specs.Plans.{Makes, Opens, contacts_after, numbered_from, numbers_of, ranges_after, renumbered};

use crate::handle::{PlanHandle, over_plan};
use crate::opened::Opened;
use crate::plans::open;
use crate::status::{CLOSED, DONE, MEMORY, OPEN};
use sabr_model::{Contact, NoMemory, Plan, Range};
use std::alloc::Global;

/// Returns the contacts that end after a second.
fn contacts_after(
    alloc: Global,
    contacts: &[Contact],
    second: u64,
) -> Result<Vec<Contact, Global>, NoMemory>
    ensures { IfOk result (λ kept. kept.items ≡ contacts_after second contacts.now) }
{
    let mut kept = Vec::from_slice(alloc, contacts)?;
    kept.retain(|contact| second < contact.end);
    Ok(kept)
}

/// Returns the ranges that end after a second.
fn ranges_after(
    alloc: Global,
    ranges: &[Range],
    second: u64,
) -> Result<Vec<Range, Global>, NoMemory>
    ensures { IfOk result (λ kept. kept.items ≡ ranges_after second ranges.now) }
{
    let mut kept = Vec::from_slice(alloc, ranges)?;
    kept.retain(|range| second < range.end);
    Ok(kept)
}

/// Numbers contacts from 1 on.
fn number(contacts: &mut [Contact])
    requires { length contacts.old ≤ most_records }
    ensures { contacts.new ≡ numbered_from 1 contacts.old }
{
    for place in 0..contacts.len() {
        contacts[place].number = place as u32 + 1;
    }
}

/// Makes the plan of what ends after a second, of which these are the contacts, with the numbers from 1 on.
fn renumbered(
    alloc: Global,
    plan: &Plan<Global>,
    kept: &[Contact],
    second: u64,
) -> Result<Plan<Global>, NoMemory>
    requires { kept.now ≡ contacts_after second plan.now.plan.contacts }
    ensures { IfOk result (λ copy. copy.plan ≡ renumbered plan.now.plan second) }
{
    plan.rules_hold();
    let mut contacts = Vec::from_slice(alloc, kept)?;
    let ranges = ranges_after(alloc, plan.ranges(), second)?;
    number(&mut contacts);
    let largest = contacts.len() as u32;
    let copy = Plan::of_parts(alloc, contacts, ranges, largest)?;
    Ok(copy)
}

/// Writes the numbers of contacts, as many as there is room for.
fn write_numbers(contacts: &[Contact], numbers: &mut [u32])
    ensures { numbers.new ≡ put_over numbers.old (numbers_of contacts.now) }
{
    for (i, contact) in contacts.iter().enumerate() {
        if i < numbers.len() {
            numbers[i] = contact.number;
        }
    }
}

/// Opens the renumbered copy of a plan behind a closed handle, and writes the numbers that its contacts had.
fn renumber_to(
    alloc: Global,
    plan: &Plan<Global>,
    second: u64,
    copy: &mut PlanHandle,
    numbers: &mut [u32],
) -> u32
    requires { IsValidHandle copy.old }
    ensures whole { IsValidHandle copy.new }
    ensures copied { Opens copy.old copy.new result (Makes (renumbered plan.now.plan second) result copy.new) }
    ensures given { result ≡ 0 → numbers.new ≡ put_over numbers.old (numbers_of (contacts_after second plan.now.plan.contacts)) }
    ensures kept { result ≢ 0 → numbers.new ≡ numbers.old }
{
    if copy.is_open {
        return OPEN;
    }
    let Ok(kept) = contacts_after(alloc, plan.contacts(), second) else {
        return MEMORY;
    };
    let Ok(made) = renumbered(alloc, plan, &kept, second) else {
        return MEMORY;
    };
    let status = open(alloc, copy, Opened::of(made));
    if status == DONE {
        write_numbers(&kept, numbers);
    }
    status
}

/// Opens a copy of a plan behind another handle: what ends after a second, with the contacts numbered from 1 on in
/// their order. Gives the numbers that they had, as many as there is room for.
#[unsafe(no_mangle)]
pub extern "C" fn cgrlist_plan_renumber(
    alloc: Global,
    handle: &mut PlanHandle,
    second: u64,
    copy: &mut PlanHandle,
    numbers: &mut [u32],
) -> u32
    requires handle { IsValidHandle handle.old }
    requires copy { IsValidHandle copy.old }
    ensures copy_whole { IsValidHandle copy.new }
    ensures copied { Calls handle.old handle.new result (λ o n. (n ≡ o) × Opens copy.old copy.new result (Makes (renumbered o.plan.plan second) result copy.new)) }
    ensures given { Calls handle.old handle.new result (λ o n. result ≡ 0 → numbers.new ≡ put_over numbers.old (numbers_of (contacts_after second o.plan.plan.contacts))) }
    ensures kept { result ≢ 0 → numbers.new ≡ numbers.old }
    ensures closed { IsFalse handle.old.is_open → (copy.new.is_open ≡ copy.old.is_open) × (copy.new.place.held ≡ copy.old.place.held) }
{
    over_plan!(handle, alloc, opened => renumber_to(alloc, opened.plan(), second, copy, numbers))
}
