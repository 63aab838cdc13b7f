//! The first routes of a request.

ghost use Rattle.std.specs.Prelude.{◌≡◌, ◌≤◌, IfOk, OnErr};
ghost use Rattle.sabr_frontier.specs.listing.Listing.{most_routes};
ghost use Rattle.libcgrlist.specs.Answers.{AnswersFirst, UnlessWritten, asked_page, page_status, IsFirst, IsLastOf, first_routes, goes_on_after, asked_request};
ghost use Rattle.libcgrlist.specs.Open.{Calls, IsValidHandle};
ghost use Rattle.libcgrlist.specs.Buffers.{IsPage, buffers};

use crate::best::Asked;
use crate::buffers::{Page, RouteRow, write_routes};
use crate::handle::PlanHandle;
use crate::opened::Opened;
use crate::status::{CLOSED, DONE, MEMORY, ROOM, VALUE_COUNT, of_request};
use sabr_frontier::{LastPage, MAX_ROUTES, Session, law6};
use sabr_index::Index;
use sabr_model::{NoMemory, Request, law3};
use sabr_search::Settled;
use std::alloc::Global;

/// How many of the first routes of a request are wanted.
#[derive(Drop)]
pub struct FirstRoutes {
    pub request: Request,
    pub count: u32,
}

/// The status of a page that was written as far as there was room.
pub fn page_status(page: &Page) -> u32
    ensures { result ≡ page_status page.now }
{
    if page.written < page.routes {
        ROOM
    } else {
        DONE
    }
}

/// Finds the first page of a listing.
fn first_page<'p>(
    alloc: Global,
    index: Index<'p, Global>,
    request: Request,
    count: u32,
) -> Result<LastPage<'p, Settled<Global>, Global>, NoMemory>
    requires { count ≤ most_routes }
    ensures { IfOk result (IsLastOf index.entry request count) }
{
    Session::start_with_index(alloc, index, request, Settled::new(alloc))?.last_page(count)
}

/// Finds the first routes of the list of all routes of a request.
fn listed<'p>(
    alloc: Global,
    index: Index<'p, Global>,
    request: Request,
    count: u32,
) -> Result<LastPage<'p, Settled<Global>, Global>, NoMemory>
    requires { count ≤ most_routes }
    ensures { IfOk result (IsFirst index.entry request count) }
{
    law3();
    law6();
    index.plan().rules_hold();
    request.limits_hold();
    first_page(alloc, index, request, count)
}

/// Finds the first routes of a request, and writes them.
fn find_first(
    alloc: Global,
    opened: &mut Opened,
    wanted: FirstRoutes,
    rows: &mut [RouteRow],
    contacts: &mut [u32],
) -> Result<Page, NoMemory>
    requires { wanted.count ≤ most_routes }
    ensures same { opened.new ≡ opened.old }
    ensures page { IfOk result (IsPage (first_routes opened.old.plan.plan wanted.request wanted.count) (goes_on_after opened.old.plan.plan wanted.request wanted.count) (buffers rows.old contacts.old) (buffers rows.new contacts.new)) }
    ensures kept { OnErr result ((rows.new ≡ rows.old) × (contacts.new ≡ contacts.old)) }
{
    let FirstRoutes { request, count } = wanted;
    opened.link(alloc)?;
    let index = opened.index(alloc)?;
    let last = listed(alloc, index, request, count)?;
    Ok(write_routes(last.routes(), last.more(), rows, contacts))
}

/// Gives the first routes of a request, best first.
#[unsafe(no_mangle)]
pub extern "C" fn cgrlist_first(
    alloc: Global,
    handle: &mut PlanHandle,
    asked: &Asked,
    avoid: &[u64],
    count: u32,
    rows: &mut [RouteRow],
    contacts: &mut [u32],
    page: &mut Page,
) -> u32
    requires { IsValidHandle handle.old }
    ensures first { Calls handle.old handle.new result (λ o n. (n ≡ o) × AnswersFirst o.plan.plan count (asked_page count (asked_request asked.now avoid.now)) result (buffers rows.old contacts.old) (buffers rows.new contacts.new) page.new) }
    ensures kept { UnlessWritten result ((rows.new ≡ rows.old) × (contacts.new ≡ contacts.old) × (page.new ≡ page.old)) }
{
    if !handle.is_open {
        return CLOSED;
    }
    let mut held = handle.take(alloc);
    held.insert_ranges();
    if MAX_ROUTES < count {
        handle.give(held);
        return VALUE_COUNT;
    }
    let request = match asked.request(avoid) {
        Ok(request) => request,
        Err(error) => {
            handle.give(held);
            return of_request(error);
        }
    };
    let wanted = FirstRoutes { request, count };
    let found = find_first(alloc, &mut held.opened, wanted, rows, contacts);
    handle.give(held);
    match found {
        Ok(found) => {
            *page = found;
            page_status(&found)
        }
        Err(_refused) => MEMORY,
    }
}
