//! What is written into the buffers of a caller: routes as rows and contact numbers, as many as fit, and other lists
//! whole or not at all.

ghost use Rattle.std.specs.Prelude.{◌≡◌, ◌+◌, ◌<◌, ◌≤◌, ◌++◌, ◌∷◌, [], drop, length, take};
ghost use Rattle.std.specs.List.{All};
ghost use Rattle.sabr_model.specs.routes.Asking.{most_hops};
ghost use Rattle.sabr_frontier.specs.listing.Listing.{most_routes};
ghost use Rattle.libcgrlist.specs.Buffers.{PutsWhole, IsPage, IsWritten, buffers, contacts_of, row_of};

use crate::status::{DONE, ROOM};
use sabr_model::Route;
use std::alloc::Global;

/// A route. Its contact numbers are `hops` numbers of the buffer, from `first` on.
#[repr(C)]
#[derive(Clone, Copy)]
pub struct RouteRow {
    /// The best-case delivery time.
    pub delivery: u64,
    /// The termination time.
    pub until: u64,
    /// The entry node.
    pub entry: u64,
    /// The place of its first contact number.
    pub first: usize,
    /// How many contacts it has.
    pub hops: usize,
}

/// What a page has, and how much of it was written.
#[repr(C)]
#[derive(Clone, Copy)]
pub struct Page {
    /// How many routes it has.
    pub routes: usize,
    /// How many contact numbers they have.
    pub contacts: usize,
    /// How many of the routes were written.
    pub written: usize,
    /// Whether the list goes on after the page.
    pub more: bool,
}

/// Writes a route after others: its row at a place, and its contact numbers from another on.
fn write_route(
    route: &Route<Global>,
    at: usize,
    first: usize,
    rows: &mut [RouteRow],
    contacts: &mut [u32],
)
    requires row { at < length rows.old }
    requires room { first + length route.now.contacts ≤ length contacts.old }
    ensures row { rows.new ≡ take at rows.old ++ row_of first route.now ∷ [] ++ drop (at + 1) rows.old }
    ensures contacts { contacts.new ≡ take first contacts.old ++ route.now.contacts ++ drop (first + length route.now.contacts) contacts.old }
{
    let numbers = route.contacts.as_slice();
    rows[at] = RouteRow {
        delivery: route.delivery,
        until: route.until,
        entry: route.entry,
        first,
        hops: numbers.len(),
    };
    contacts[first..first + numbers.len()].copy_from_slice(numbers);
}

/// Writes routes, one after another, up to the first that doesn't fit, and returns how many.
fn write_fitting(routes: &[Route<Global>], rows: &mut [RouteRow], contacts: &mut [u32]) -> usize
    ensures { IsWritten routes.now (buffers rows.old contacts.old) (buffers rows.new contacts.new) result }
{
    let mut first = 0;
    for at in 0..routes.len() {
        let route = &routes[at];
        let hops = route.contacts.as_slice().len();
        if rows.len() <= at {
            return at;
        }
        if contacts.len() - first < hops {
            return at;
        }
        write_route(route, at, first, rows, contacts);
        first += hops;
    }
    routes.len()
}

/// Counts the contact numbers of routes.
fn count_contacts(routes: &[Route<Global>]) -> usize
    requires few { length routes.now ≤ most_routes }
    requires short { All (λ a. length a.contacts ≤ most_hops) routes.now }
    ensures { result ≡ length (contacts_of routes.now) }
{
    let mut count = 0;
    for route in routes {
        count += route.contacts.as_slice().len();
    }
    count
}

/// Writes a page: as many of its routes as there is room for.
pub fn write_routes(
    routes: &[Route<Global>],
    more: bool,
    rows: &mut [RouteRow],
    contacts: &mut [u32],
) -> Page
    requires few { length routes.now ≤ most_routes }
    requires short { All (λ a. length a.contacts ≤ most_hops) routes.now }
    ensures { IsPage routes.now more (buffers rows.old contacts.old) (buffers rows.new contacts.new) result }
{
    Page {
        routes: routes.len(),
        contacts: count_contacts(routes),
        written: write_fitting(routes, rows, contacts),
        more,
    }
}

/// Writes a list to the front of a buffer if there is room for all of it, and returns the status.
pub fn put_whole<T: Copy>(items: &[T], buffer: &mut [T]) -> u32
    ensures { PutsWhole items.now result buffer.old buffer.new }
{
    let count = items.len();
    if buffer.len() < count {
        return ROOM;
    }
    buffer[..count].copy_from_slice(items);
    DONE
}
