//! Following lists of contacts: the route that they make, and its hops.

ghost use Rattle.std.specs.Prelude.{◌≡◌, IsFalse, length};
ghost use Rattle.sabr_model.specs.routes.Route.{is_route};
ghost use Rattle.host.specs.Buffers.{put_over};
ghost use Rattle.libcgrlist.specs.Following.{Follows, GivesHops, hops_of, outcome_of, outcome_of_fault, route_status};
ghost use Rattle.libcgrlist.specs.Open.{Calls, IsValidHandle};
ghost use Rattle.libcgrlist.specs.Answers.{asked_request};

use crate::best::Asked;
use crate::handle::{PlanHandle, over_plan};
use crate::status::{CLOSED, DONE, NO, ROOM, of_request};
use sabr_model::{HopFault, Plan, Request, RequestError};
use sabr_session::Hops;
use std::alloc::Global;

/// `cgrlist_outcome`: the record of the route that a list of contacts makes, its times in seconds since
/// 1970-01-01T00:00:00Z; or its first fault and the fault's place from 1.
#[repr(C)]
#[derive(Clone, Copy)]
pub struct Outcome {
    /// The best-case delivery time.
    pub delivery: u64,
    /// The termination time.
    pub until: u64,
    /// The entry node.
    pub entry: u64,
    /// The fault's place; 0 if there is none, and for an empty list or a wrong end.
    pub place: u64,
    /// The fault; 0 if there is none.
    pub fault: u32,
}

/// `cgrlist_hop`: who sends to whom over which contact, when the bundle is sent and when it arrives, in seconds since
/// 1970-01-01T00:00:00Z.
#[repr(C)]
#[derive(Clone, Copy)]
pub struct HopRow {
    pub from: u64,
    pub to: u64,
    pub sent: u64,
    pub arrival: u64,
    pub contact: u32,
}

/// What contacts do over a plan.
#[derive(Clone, Copy)]
struct Followed {
    /// How many hops they have before the first fault.
    count: usize,
    /// Whether they make a route.
    status: u32,
    outcome: Outcome,
}

/// Makes the outcome of a fault.
fn outcome_of_fault(fault: HopFault) -> Outcome
    ensures { result ≡ outcome_of_fault fault }
{
    let (fault, place) = match fault {
        HopFault::Empty => (1, 0),
        HopFault::NoSuchContact(place) => (2, place),
        HopFault::NotChained(place) => (3, place),
        HopFault::NodeAgain(place) => (4, place),
        HopFault::NoLight(place) => (5, place),
        HopFault::TooLate(place) => (6, place),
        HopFault::WrongEnd => (7, 0),
        HopFault::AvoidedNode(place) => (8, place),
        HopFault::TooManyHops(place) => (9, place),
    };
    Outcome {
        delivery: 0,
        until: 0,
        entry: 0,
        place: place as u64,
        fault,
    }
}

/// Follows contacts over a plan, once, and gives what they do. Their hops before the first fault are written, as many as
/// there is room for.
fn follow_contacts(
    plan: &Plan<Global>,
    request: &Request,
    contacts: &[u32],
    rows: &mut [HopRow],
) -> Followed
    ensures count { result.count ≡ length (hops_of plan.now.plan request.now contacts.now) }
    ensures rows { rows.new ≡ put_over rows.old (hops_of plan.now.plan request.now contacts.now) }
    ensures status { result.status ≡ route_status (is_route plan.now.plan request.now contacts.now) }
    ensures outcome { result.outcome ≡ outcome_of plan.now.plan request.now contacts.now }
{
    let mut hops = Hops::new(plan, request, contacts);
    let mut count = 0;
    while let Some(hop) = hops.next() {
        if count < rows.len() {
            rows[count] = HopRow {
                from: hop.contact.from,
                to: hop.contact.to,
                sent: hop.sent,
                arrival: hop.arrived,
                contact: hop.contact.number,
            };
        }
        count += 1;
    }
    match hops.ending() {
        Ok((delivery, summary)) => Followed {
            count,
            status: DONE,
            outcome: Outcome {
                delivery,
                until: summary.until,
                entry: summary.entry,
                place: 0,
                fault: 0,
            },
        },
        Err(fault) => Followed {
            count,
            status: NO,
            outcome: outcome_of_fault(fault),
        },
    }
}

/// Follows the contacts of a request, if it is one, and gives what they do.
fn follow_asked(
    plan: &Plan<Global>,
    request: Result<Request, RequestError>,
    contacts: &[u32],
    outcome: &mut Outcome,
) -> u32
    ensures { Follows plan.now.plan request contacts.now result outcome.old outcome.new }
{
    match request {
        Ok(request) => {
            let followed = follow_contacts(plan, &request, contacts, &mut []);
            *outcome = followed.outcome;
            followed.status
        }
        Err(error) => of_request(error),
    }
}

/// Gives what a list of contacts does: its route's record, or its first fault.
#[unsafe(no_mangle)]
pub extern "C" fn cgrlist_follow(
    alloc: Global,
    handle: &mut PlanHandle,
    asked: &Asked,
    avoid: &[u64],
    contacts: &[u32],
    outcome: &mut Outcome,
) -> u32
    requires { IsValidHandle handle.old }
    ensures follow { Calls handle.old handle.new result (λ o n. (n ≡ o) × Follows o.plan.plan (asked_request asked.now avoid.now) contacts.now result outcome.old outcome.new) }
    ensures closed { IsFalse handle.old.is_open → outcome.new ≡ outcome.old }
{
    let request = asked.request(avoid);
    over_plan!(handle, alloc, opened => follow_asked(opened.plan(), request, contacts, outcome))
}

/// Gives the hops of the contacts of a request, if it is one, and how many there are.
fn give_hops(
    plan: &Plan<Global>,
    request: Result<Request, RequestError>,
    contacts: &[u32],
    hops: &mut [HopRow],
    count: &mut usize,
) -> u32
    ensures { GivesHops plan.now.plan request contacts.now result hops.old hops.new count.new }
{
    *count = 0;
    let request = match request {
        Ok(request) => request,
        Err(error) => return of_request(error),
    };
    let followed = follow_contacts(plan, &request, contacts, hops);
    *count = followed.count;
    if followed.count > hops.len() {
        return ROOM;
    }
    followed.status
}

/// Gives the hops of a list of contacts before its first fault, as many as there is room for, and how many there are.
#[unsafe(no_mangle)]
pub extern "C" fn cgrlist_hops(
    alloc: Global,
    handle: &mut PlanHandle,
    asked: &Asked,
    avoid: &[u64],
    contacts: &[u32],
    hops: &mut [HopRow],
    count: &mut usize,
) -> u32
    requires { IsValidHandle handle.old }
    ensures hops { Calls handle.old handle.new result (λ o n. (n ≡ o) × GivesHops o.plan.plan (asked_request asked.now avoid.now) contacts.now result hops.old hops.new count.new) }
    ensures closed { IsFalse handle.old.is_open → (hops.new ≡ hops.old) × (count.new ≡ 0) }
{
    *count = 0;
    let request = asked.request(avoid);
    over_plan!(handle, alloc, opened => give_hops(opened.plan(), request, contacts, hops, count))
}
