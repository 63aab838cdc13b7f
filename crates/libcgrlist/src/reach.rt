//! The best routes to many destinations.

ghost use Rattle.std.specs.Prelude.{◌≡◌, ◌<◌, ◌≤◌, IsFalse, Ok, length, slice_index_or};
ghost use Rattle.libcgrlist.specs.Answers.{none_or_one, AnswersReaches, AreReaches, IsReachOf, asked_to, first_reach, unreached, asked_request};
ghost use Rattle.libcgrlist.specs.Open.{Calls, IsValidHandle};

use crate::best::{Asked, best_route};
use crate::handle::{PlanHandle, over_plan};
use crate::opened::Opened;
use crate::status::{CLOSED, DONE, MEMORY, NO, ROOM, of_request};
use sabr_index::Index;
use sabr_model::{Request, RequestError, Route};
use sabr_search::Settled;
use std::alloc::Global;

/// `cgrlist_reach`: the best route to a destination, without its contact numbers, or the status that says why there is
/// none.
#[repr(C)]
#[derive(Clone, Copy)]
pub struct Reach {
    /// The best-case delivery time.
    pub delivery: u64,
    /// The termination time.
    pub until: u64,
    /// The entry node.
    pub entry: u64,
    /// How many contacts it has.
    pub hops: usize,
    /// What asking for it alone returns.
    pub status: u32,
}

impl Reach {
    /// No route, for this reason.
    fn none(status: u32) -> Reach
        ensures { result ≡ unreached status }
    {
        Reach {
            delivery: 0,
            until: 0,
            entry: 0,
            hops: 0,
            status,
        }
    }

    /// A route, if there is one.
    fn of(best: Option<Route<Global>>) -> Reach
        ensures { result ≡ first_reach (none_or_one best) }
    {
        match best {
            Some(route) => Reach {
                delivery: route.delivery,
                until: route.until,
                entry: route.entry,
                hops: route.contacts.len(),
                status: DONE,
            },
            None => Reach::none(NO),
        }
    }
}

/// What is asked of each destination: a request, the nodes to avoid, and the destinations.
#[derive(Clone, Copy)]
struct Destinations<'a> {
    asked: &'a Asked,
    avoid: &'a [u64],
    to: &'a [u64],
}

impl Destinations<'_> {
    /// The request of the destination at a place.
    fn request(&self, place: usize) -> Result<Request, RequestError>
        requires { place < length self.now.to.now }
        ensures { result ≡ asked_request (asked_to self.now.asked.now (slice_index_or self.now.to.now place 0)) self.now.avoid.now }
    {
        let asked = Asked {
            to: self.to[place],
            ..*self.asked
        };
        asked.request(self.avoid)
    }
}

/// Finds the best route of a request.
fn best_reach(
    alloc: Global,
    finder: &mut Settled<Global>,
    index: &Index<'_, Global>,
    request: &Request,
) -> Reach
    ensures { IsReachOf index.now.plan (Ok request.now) result }
{
    match best_route(alloc, finder, index, request) {
        Ok(best) => Reach::of(best),
        Err(_refused) => Reach::none(MEMORY),
    }
}

/// Finds the best route of what is asked, if it is a request.
fn asked_reach(
    alloc: Global,
    finder: &mut Settled<Global>,
    index: &Index<'_, Global>,
    asked: Result<Request, RequestError>,
) -> Reach
    ensures { IsReachOf index.now.plan asked result }
{
    match asked {
        Ok(request) => best_reach(alloc, finder, index, &request),
        Err(error) => Reach::none(of_request(error)),
    }
}

/// Finds the best route to each destination.
fn write_reaches(
    alloc: Global,
    finder: &mut Settled<Global>,
    index: &Index<'_, Global>,
    destinations: &Destinations<'_>,
    reaches: &mut [Reach],
)
    requires { length destinations.now.to.now ≤ length reaches.old }
    ensures { AreReaches index.now.plan destinations.now.asked.now destinations.now.avoid.now destinations.now.to.now reaches.old reaches.new }
{
    for place in 0..destinations.to.len() {
        reaches[place] = asked_reach(alloc, finder, index, destinations.request(place));
    }
}

/// Finds the best route to each destination, if there is room for all of them, and returns the status.
fn give_reaches(
    alloc: Global,
    opened: &mut Opened,
    destinations: &Destinations<'_>,
    reaches: &mut [Reach],
) -> u32
    ensures same { opened.new ≡ opened.old }
    ensures reaches { AnswersReaches opened.old.plan.plan destinations.now.asked.now destinations.now.avoid.now destinations.now.to.now result reaches.old reaches.new }
{
    if reaches.len() < destinations.to.len() {
        return ROOM;
    }
    let Ok(()) = opened.link(alloc) else {
        return MEMORY;
    };
    let Ok(index) = opened.index(alloc) else {
        return MEMORY;
    };
    let mut finder = Settled::new(alloc);
    write_reaches(alloc, &mut finder, &index, destinations, reaches);
    DONE
}

/// Gives the best route to each destination, which stands in place of the request's own.
#[unsafe(no_mangle)]
pub extern "C" fn cgrlist_best_each(
    alloc: Global,
    handle: &mut PlanHandle,
    asked: &Asked,
    avoid: &[u64],
    to: &[u64],
    reaches: &mut [Reach],
) -> u32
    requires { IsValidHandle handle.old }
    ensures reaches { Calls handle.old handle.new result (λ o n. (n ≡ o) × AnswersReaches o.plan.plan asked.now avoid.now to.now result reaches.old reaches.new) }
    ensures closed { IsFalse handle.old.is_open → reaches.new ≡ reaches.old }
{
    let destinations = Destinations { asked, avoid, to };
    over_plan!(handle, alloc, opened => give_reaches(alloc, opened, &destinations, reaches))
}
