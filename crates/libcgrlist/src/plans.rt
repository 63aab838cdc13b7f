//! Opening plans, preparing them, and closing them.

ghost use Rattle.std.specs.Prelude.{◌≡◌, ◌⊎◌, [], None, false, true, IsFalse, IsTrue, if◌then◌else◌};
ghost use Rattle.sabr_plan.specs.Reading.{plan_of};
ghost use Rattle.libcgrlist.specs.Open.{Calls, IsValidHandle};
ghost use Rattle.libcgrlist.specs.Plans.{Makes, Opens, Reads, Refused};
ghost use Rattle.libcgrlist.specs.Status.{done, no_memory};

use crate::handle::{PlanHandle, over_plan};
use crate::held::Held;
use crate::opened::Opened;
use crate::status::{CLOSED, DONE, MEMORY, OPEN, of_line};
use sabr_model::Plan;
use sabr_plan::{PlanKind, parse_plan};
use std::alloc::Global;

/// Puts a plan over which no listing is open behind a closed handle.
pub fn open(alloc: Global, handle: &mut PlanHandle, opened: Opened) -> u32
    requires closed { handle.old.is_open ≡ false }
    requires alone { opened.listing ≡ None }
    ensures { Makes opened.plan.plan result handle.new }
{
    match Box::new(alloc, Held::of(opened)) {
        Ok(held) => {
            handle.give(held);
            DONE
        }
        Err(_) => MEMORY,
    }
}

/// Opens an empty plan.
#[unsafe(no_mangle)]
pub extern "C" fn cgrlist_plan_new(alloc: Global, handle: &mut PlanHandle) -> u32
    requires { IsValidHandle handle.old }
    ensures whole { IsValidHandle handle.new }
    ensures opens { Opens handle.old handle.new result (Makes (record { contacts = []; ranges = []; largest = 0 }) result handle.new) }
{
    if handle.is_open {
        return OPEN;
    }
    open(alloc, handle, Opened::of(Plan::new(alloc)))
}

/// Opens the plan that a text spells, or gives the number of its first bad line.
#[unsafe(no_mangle)]
pub extern "C" fn cgrlist_plan_read(
    alloc: Global,
    handle: &mut PlanHandle,
    text: &[u8],
    line: &mut u32,
) -> u32
    requires { IsValidHandle handle.old }
    ensures whole { IsValidHandle handle.new }
    ensures opens { Opens handle.old handle.new result (Reads (plan_of text.now true) result line.new handle.new ⊎ Refused result line.new handle.new) }
    ensures no_line { IsTrue handle.old.is_open → line.new ≡ 0 }
{
    *line = 0;
    if handle.is_open {
        return OPEN;
    }
    match parse_plan(alloc, text) {
        Ok(plan) => open(alloc, handle, Opened::of(plan)),
        Err(fault) if fault.kind == PlanKind::NoMemory => MEMORY,
        Err(fault) => {
            *line = fault.line;
            of_line(fault.kind)
        }
    }
}

/// Opens a copy of a plan behind a closed handle.
fn copy_to(alloc: Global, opened: &Opened, copy: &mut PlanHandle) -> u32
    requires { IsValidHandle copy.old }
    ensures whole { IsValidHandle copy.new }
    ensures copied { Opens copy.old copy.new result (Makes opened.now.plan.plan result copy.new) }
{
    if copy.is_open {
        return OPEN;
    }
    match opened.copied(alloc) {
        Ok(made) => open(alloc, copy, made),
        Err(_refused) => MEMORY,
    }
}

/// Opens a copy of a plan behind another handle, with no listing.
#[unsafe(no_mangle)]
pub extern "C" fn cgrlist_plan_copy(
    alloc: Global,
    handle: &mut PlanHandle,
    copy: &mut PlanHandle,
) -> u32
    requires handle { IsValidHandle handle.old }
    requires copy { IsValidHandle copy.old }
    ensures copy_whole { IsValidHandle copy.new }
    ensures copied { Calls handle.old handle.new result (λ o n. (n ≡ o) × Opens copy.old copy.new result (Makes o.plan.plan result copy.new)) }
    ensures closed { IsFalse handle.old.is_open → (copy.new.is_open ≡ copy.old.is_open) × (copy.new.place.held ≡ copy.old.place.held) }
{
    over_plan!(handle, alloc, opened => copy_to(alloc, opened, copy))
}

/// Makes what serves until a plan changes: its index, its digest and its counts.
#[unsafe(no_mangle)]
pub extern "C" fn cgrlist_plan_prepare(alloc: Global, handle: &mut PlanHandle) -> u32
    requires { IsValidHandle handle.old }
    ensures same { Calls handle.old handle.new result (λ o n. (n ≡ o) × ((result ≡ done) ⊎ (result ≡ no_memory))) }
{
    let prepared = over_plan!(handle, alloc, opened => opened.prepare(alloc));
    match prepared {
        Ok(()) => DONE,
        Err(_refused) => MEMORY,
    }
}

/// Closes a plan and its listing, and frees them. A closed one stays so.
#[unsafe(no_mangle)]
pub extern "C" fn cgrlist_plan_close(alloc: Global, handle: &mut PlanHandle)
    requires { IsValidHandle handle.old }
    ensures closed { handle.new.is_open ≡ false }
    ensures freed { handle.new.place.held ≡ (if handle.old.is_open then None else handle.old.place.held) }
{
    if handle.is_open {
        drop(handle.take(alloc));
        handle.is_open = false;
    }
}
