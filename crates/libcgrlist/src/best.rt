//! What C asks, and the best route of a request.

ghost use Rattle.std.specs.Prelude.{◌≡◌, IfOk};
ghost use Rattle.libcgrlist.specs.Answers.{AnswersBest, UnlessWritten, WritesBest, none_or_one, first_routes, asked_request};
ghost use Rattle.libcgrlist.specs.Open.{Calls, IsValidHandle};

use crate::buffers::{RouteRow, put_whole};
use crate::handle::{PlanHandle, over_plan};
use crate::opened::Opened;
use crate::status::{CLOSED, MEMORY, NO, of_request};
use sabr_index::Index;
use sabr_model::{MAX_HOPS, NoMemory, Request, RequestError, Route, law3};
use sabr_search::{BestOf, Excluded, SearchCache, Settled};
use std::alloc::Global;

/// `cgrlist_request`: what a request asks, but for the nodes to avoid.
#[repr(C)]
#[derive(Clone, Copy)]
pub struct Asked {
    /// The source.
    pub from: u64,
    /// The destination.
    pub to: u64,
    /// When the bundle is at the source, in seconds since 1970-01-01T00:00:00Z.
    pub at: u64,
    /// The margin on light times, in parts per million.
    pub margin_ppm: u32,
    /// The most contacts that a route may have; 0 is no limit.
    pub max_hops: u32,
}

impl Asked {
    /// Makes the request, with these nodes to avoid.
    ///
    /// # Errors
    ///
    /// Those of [`Request::new`] and [`Request::with_limits`], the first that holds.
    pub fn request(&self, avoid: &[u64]) -> Result<Request, RequestError>
        ensures { result ≡ asked_request self.now avoid.now }
    {
        let request = Request::new(self.from, self.to, self.at, self.margin_ppm)?;
        let max_hops = if self.max_hops == 0 {
            MAX_HOPS
        } else {
            self.max_hops
        };
        request.with_limits(max_hops, avoid)
    }
}

/// Finds the best route of a request.
pub fn best_route(
    alloc: Global,
    finder: &mut Settled<Global>,
    index: &Index<'_, Global>,
    request: &Request,
) -> Result<Option<Route<Global>>, NoMemory>
    ensures { IfOk result (λ best. none_or_one best ≡ first_routes index.now.plan request.now 1) }
{
    law3();
    index.plan().rules_hold();
    let mut cache = SearchCache::new(alloc);
    finder.best_beside(&mut cache, index, request, &[], Excluded::of(&[]))
}

/// Writes a route, if there is one, and returns the status.
fn write_best(best: Option<Route<Global>>, row: &mut RouteRow, contacts: &mut [u32]) -> u32
    ensures best { WritesBest (none_or_one best) result row.new contacts.old contacts.new }
    ensures kept { UnlessWritten result ((row.new ≡ row.old) × (contacts.new ≡ contacts.old)) }
{
    let Some(route) = best else {
        return NO;
    };
    let numbers = route.contacts.as_slice();
    *row = RouteRow {
        delivery: route.delivery,
        until: route.until,
        entry: route.entry,
        first: 0,
        hops: numbers.len(),
    };
    put_whole(numbers, contacts)
}

/// Finds the best route of a request. It writes nothing into a plan that has its links.
fn find_best(
    alloc: Global,
    opened: &mut Opened,
    request: &Request,
) -> Result<Option<Route<Global>>, NoMemory>
    ensures same { opened.new ≡ opened.old }
    ensures best { IfOk result (λ best. none_or_one best ≡ first_routes opened.old.plan.plan request.now 1) }
{
    opened.link(alloc)?;
    let index = opened.index(alloc)?;
    let mut finder = Settled::new(alloc);
    best_route(alloc, &mut finder, &index, request)
}

/// Finds the best route of what is asked, if that is a request, writes it if there is one, and returns the status.
fn give_best(
    alloc: Global,
    opened: &mut Opened,
    asked: Result<Request, RequestError>,
    row: &mut RouteRow,
    contacts: &mut [u32],
) -> u32
    ensures same { opened.new ≡ opened.old }
    ensures best { AnswersBest opened.old.plan.plan asked result row.new contacts.old contacts.new }
    ensures kept { UnlessWritten result ((row.new ≡ row.old) × (contacts.new ≡ contacts.old)) }
{
    match asked {
        Ok(request) => match find_best(alloc, opened, &request) {
            Ok(best) => write_best(best, row, contacts),
            Err(_refused) => MEMORY,
        },
        Err(error) => of_request(error),
    }
}

/// Gives the best route of a request.
#[unsafe(no_mangle)]
pub extern "C" fn cgrlist_best(
    alloc: Global,
    handle: &mut PlanHandle,
    asked: &Asked,
    avoid: &[u64],
    row: &mut RouteRow,
    contacts: &mut [u32],
) -> u32
    requires { IsValidHandle handle.old }
    ensures best { Calls handle.old handle.new result (λ o n. (n ≡ o) × AnswersBest o.plan.plan (asked_request asked.now avoid.now) result row.new contacts.old contacts.new) }
    ensures kept { UnlessWritten result ((row.new ≡ row.old) × (contacts.new ≡ contacts.old)) }
{
    let request = asked.request(avoid);
    over_plan!(handle, alloc, opened => give_best(alloc, opened, request, row, contacts))
}
