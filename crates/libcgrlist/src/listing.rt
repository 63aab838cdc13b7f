//! A listing: the list of all routes of a request, page after page.

ghost use Rattle.std.specs.Prelude.{◌≡◌, ◌≢◌, ◌≤◌, IfOk, None, OnErr, OnOk, Some};
ghost use Rattle.sabr_frontier.specs.listing.Listing.{most_routes};
ghost use Rattle.sabr_frontier.specs.session.Session.{started};
ghost use Rattle.sabr_search.specs.questions.Calls.{no_calls};
ghost use Rattle.libcgrlist.specs.Answers.{UnlessWritten, asked_request, asked_status, page_status};
ghost use Rattle.libcgrlist.specs.Buffers.{IsPage, buffers};
ghost use Rattle.libcgrlist.specs.Listings.{AnswersBack, AnswersNext, AnswersPlace, GivesNext, GoesBack, OpensListing, TakesUp, goes_on, listing_then, next_records, second_refusal};
ghost use Rattle.libcgrlist.specs.Open.{Calls, IsValidHandle};
ghost use Rattle.libcgrlist.specs.Opened.{listing_of};
ghost use Rattle.libcgrlist.specs.Standing.{BackActs, LoadedBegin, NextActs, OpenedBegin};
ghost use Rattle.libcgrlist.specs.Status.{refused_or};

use crate::best::Asked;
use crate::buffers::{Page, RouteRow, write_routes};
use crate::first::page_status;
use crate::handle::{PlanHandle, over_plan};
use crate::opened::{Opened, Paused, paused};
use crate::status::{CLOSED, DONE, LISTING, MEMORY, NO, NO_LISTING, VALUE_COUNT, of_request};
use sabr_frontier::{MAX_ROUTES, Session};
use sabr_model::{NoMemory, Request, RequestError};
use sabr_search::Settled;
use std::alloc::Global;

/// `cgrlist_place`: where a listing stands.
#[repr(C)]
#[derive(Clone, Copy)]
pub struct ListingPlace {
    /// How many routes were given and not taken back.
    pub given: u64,
    /// Whether the list goes on.
    pub more: bool,
    /// Whether a page can be taken back.
    pub can_back: bool,
}

/// Opens the listing of a request, before its first route. It takes one search.
fn open_listing(alloc: Global, opened: &mut Opened, request: Request) -> Result<(), NoMemory>
    requires { opened.old.listing ≡ None }
    ensures ok { OnOk result (opened.new ≡ record opened.old { listing = Some (listing_of (started opened.old.plan request no_calls)) }) }
    ensures err { OnErr result (opened.new ≡ opened.old) }
{
    opened.link(alloc)?;
    let index = opened.index(alloc)?;
    let session = Session::start_with_index(alloc, index, request, Settled::new(alloc))?;
    let listing = paused(session);
    opened.keep_listing(listing);
    Ok(())
}

/// Opens the listing of a request, if it is one and no listing is open, and returns the status.
fn open_asked(alloc: Global, opened: &mut Opened, request: Result<Request, RequestError>) -> u32
    ensures { OpensListing opened.old (refused_or (second_refusal opened.old.listing) (asked_status request)) result opened.new }
{
    if opened.has_listing() {
        return LISTING;
    }
    match request {
        Ok(request) => match open_listing(alloc, opened, request) {
            Ok(()) => DONE,
            Err(_refused) => MEMORY,
        },
        Err(error) => of_request(error),
    }
}

/// Takes the listing out of what is behind a handle, and makes the plan's links unless it has them.
pub fn take_up(alloc: Global, opened: &mut Opened) -> Result<Paused, u32>
    ensures { TakesUp opened.old result opened.new }
{
    // Asked first, since NO_LISTING comes before MEMORY.
    if !opened.has_listing() {
        return Err(NO_LISTING);
    }
    let Ok(()) = opened.link(alloc) else {
        return Err(MEMORY);
    };
    match opened.take_listing() {
        Some(listing) => Ok(listing),
        None => Err(NO_LISTING),
    }
}

/// What an expression makes of the session of the listing, which is then paused again. The function that calls this
/// returns the status of a listing that can't be taken up.
macro_rules! over_listing {
    ($opened:ident, $alloc:ident, $session:ident => $call:expr) => {{
        let listing = take_up($alloc, $opened)?;
        let Ok(index) = $opened.index($alloc) else {
            $opened.keep_listing(listing);
            return Err(MEMORY);
        };
        let mut $session = listing.resume(index);
        let made = $call;
        let listing = paused($session);
        $opened.keep_listing(listing);
        made
    }};
}

pub(crate) use over_listing;

/// Writes the next page of a session, and takes it back if there is no room for all of it.
fn give_page(
    session: &mut Session<'_, Settled<Global>, Global>,
    count: u32,
    rows: &mut [RouteRow],
    contacts: &mut [u32],
) -> Result<Page, NoMemory>
    requires { count ≤ most_routes }
    ensures plan { session.new.plan ≡ session.old.plan }
    ensures page { IfOk result (IsPage (next_records session.old count) (goes_on session.old count) (buffers rows.old contacts.old) (buffers rows.new contacts.new)) }
    ensures listing { IfOk result (λ page. listing_of session.new ≡ listing_then (listing_of session.old) count page) }
    ensures err { OnErr result (listing_of session.new ≡ listing_of session.old) }
    ensures kept { OnErr result (buffers rows.new contacts.new ≡ buffers rows.old contacts.old) }
{
    session.request().limits_hold();
    let routes = session.page(count)?;
    let page = write_routes(routes.as_slice(), session.more(), rows, contacts);
    if page.written < page.routes {
        session.back();
    }
    Ok(page)
}

/// Gives the next page of the listing.
fn next_page(
    alloc: Global,
    opened: &mut Opened,
    count: u32,
    rows: &mut [RouteRow],
    contacts: &mut [u32],
) -> Result<Page, u32>
    requires { count ≤ most_routes }
    ensures { GivesNext opened.old count result (buffers rows.old contacts.old) (buffers rows.new contacts.new) opened.new }
{
    let given =
        over_listing!(opened, alloc, session => give_page(&mut session, count, rows, contacts));
    match given {
        Ok(page) => Ok(page),
        Err(_refused) => Err(MEMORY),
    }
}

/// Takes back the last page of the listing that gave routes, if there is one.
fn go_back(alloc: Global, opened: &mut Opened) -> Result<bool, u32>
    ensures { GoesBack opened.old result opened.new }
{
    let gone = over_listing!(opened, alloc, session => session.back());
    Ok(gone)
}

/// Opens the listing of a request.
#[unsafe(no_mangle)]
pub extern "C" fn cgrlist_listing_open(
    alloc: Global,
    handle: &mut PlanHandle,
    asked: &Asked,
    avoid: &[u64],
) -> u32
    requires { IsValidHandle handle.old }
    ensures listing { Calls handle.old handle.new result (λ o n. OpensListing o (refused_or (second_refusal o.listing) (asked_status (asked_request asked.now avoid.now))) result n) }
{
    let request = asked.request(avoid);
    over_plan!(handle, alloc, opened => open_asked(alloc, opened, request))
}

/// Gives the next page of the listing. If there is no room for all of it, the listing stays where it was.
#[unsafe(no_mangle)]
pub extern "C" fn cgrlist_listing_next(
    alloc: Global,
    handle: &mut PlanHandle,
    count: u32,
    rows: &mut [RouteRow],
    contacts: &mut [u32],
    page: &mut Page,
) -> u32
    requires { IsValidHandle handle.old }
    ensures next { Calls handle.old handle.new result (λ o n. AnswersNext o o.listing count result (buffers rows.old contacts.old) (buffers rows.new contacts.new) page.new n) }
    ensures kept { UnlessWritten result ((rows.new ≡ rows.old) × (contacts.new ≡ contacts.old) × (page.new ≡ page.old)) }
{
    if !handle.is_open {
        return CLOSED;
    }
    let mut held = handle.take(alloc);
    held.insert_ranges();
    // NO_LISTING comes before VALUE_COUNT, and that before MEMORY. Each return gives the plan back.
    if !held.opened.has_listing() {
        handle.give(held);
        return NO_LISTING;
    }
    if MAX_ROUTES < count {
        handle.give(held);
        return VALUE_COUNT;
    }
    let given = next_page(alloc, &mut held.opened, count, rows, contacts);
    handle.give(held);
    match given {
        Ok(given) => {
            *page = given;
            page_status(&given)
        }
        Err(status) => status,
    }
}

/// Takes back the last page of the listing that gave routes.
#[unsafe(no_mangle)]
pub extern "C" fn cgrlist_listing_back(alloc: Global, handle: &mut PlanHandle) -> u32
    requires { IsValidHandle handle.old }
    ensures back { Calls handle.old handle.new result (λ o n. AnswersBack o result n) }
{
    let gone = over_plan!(handle, alloc, opened => go_back(alloc, opened));
    match gone {
        Ok(true) => DONE,
        Ok(false) => NO,
        Err(status) => status,
    }
}

/// Gives the place of the listing.
#[unsafe(no_mangle)]
pub extern "C" fn cgrlist_listing_place(
    alloc: Global,
    handle: &mut PlanHandle,
    place: &mut ListingPlace,
) -> u32
    requires { IsValidHandle handle.old }
    ensures place { Calls handle.old handle.new result (λ o n. AnswersPlace o o.listing result place.new n) }
    ensures kept { result ≢ 0 → place.new ≡ place.old }
{
    let found = over_plan!(handle, alloc, opened => opened.place());
    match found {
        Some(found) => {
            *place = found;
            DONE
        }
        None => NO_LISTING,
    }
}

/// States where a listing stands in the list of all routes of its request. One that was opened begins before the first
/// route, and one of a session text that [`cgrlist_verify`](crate::cgrlist_verify) accepts at the text's place. From
/// there each call for a page, and each that takes one back, does one of the acts after which
/// [`pages_stand`](sabr_session::pages_stand) says where a session stands and what its next page is.
pub fn listings_stand()
    ensures opened { OpenedBegin }
    ensures loaded { LoadedBegin }
    ensures next { NextActs }
    ensures back { BackActs }
{}
