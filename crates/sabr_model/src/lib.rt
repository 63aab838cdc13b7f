//! Contact plans, requests, arrivals and routes, after CCSDS 734.3-B-1 (Schedule-Aware Bundle Routing, SABR).
//!
//! A [`Plan`] holds [`Contact`]s and [`Range`]s. A [`Request`] names a source, a destination, the second at which a
//! bundle is at the source, a margin on light times, and limits. A route is a list of contact numbers that leads a
//! bundle from the source to the destination in time, and visits no node twice. A [`Route`] is such a list with its
//! delivery time, termination time and entry node, and `Ord` puts the best route first.
//!
//! - [`Plan::add_contact`] and [`Plan::add_range`] add a record, and [`Plan::delete_contact`] and
//!   [`Plan::delete_range`] delete one. A record is *standing* from its addition until its deletion.
//! - [`arrive`] is the arrival over one contact, and [`follow`] the delivery over a list of contacts.
//! - [`Read`] and [`Write`] are the traits of readers and writers, and [`Device`] makes std's into such.
//!
//! **Units.** Times are whole seconds since 1970-01-01T00:00:00Z, up to [`LAST_TIME`]. Each day has 86400 seconds. Data
//! rates are bytes per second. Light times are whole seconds, and a margin is in parts per million of them. Nodes are
//! numbers from 1 to 18446744073709551615. A window includes its start and excludes its end.
//!
//! **Errors.** [`AddFault`] refuses a record with an empty window or one node twice, a second contact with the same
//! sender, receiver and start, ranges of one ordered pair that overlap, and more than [`MAX_RECORDS`] records.
//! [`RequestError`] refuses a request, and [`HopFault`] says why a list is no route. [`NoMemory`] and
//! `AddFault::NoMemory` are failed allocations. No call panics.
//!
//! **Sources.** Contact, range, earliest transmission time, earliest arrival time, one-way light time margin, best-case
//! delivery time, termination time and entry node are those of CCSDS 734.3-B-1. Adding and deleting records follows
//! ionrc(5). The limits, the order of routes and the names of the errors are this project's profile.
//!
//! A contact from node 1 to node 2 over the first 100 seconds of the year 2030, with a light time of 10 seconds:
//!
//! ```ignore
//! let mut plan = Plan::new(rt.alloc());
//! let number = plan.add_contact(1, 2, 1893456000, 1893456100, 1000)?;
//! plan.add_range(1, 2, 1893456000, 1893457000, 10)?;
//! let request = Request::new(1, 2, 1893456000, 0)?;
//! assert_eq!(rt; follow(&plan, &request, &[number]), Ok(1893456010));
//! assert_eq!(rt; follow(&plan, &request, &[7]), Err(HopFault::NoSuchContact(1)));
//! ```
//!
//! The contracts of [`row_of_plan_a`] and its neighbours are worked examples with three to five routes: the prover
//! computes their lists from the definitions.
#![tactic(auto)]

mod contact;
mod devices;
mod fault;
mod following;
mod ghost_values;
mod grouping;
mod hop;
mod laws;
mod limits;
mod node_list;
mod node_set;
mod node_table;
mod numbers;
mod opening;
mod plan;
mod request;
mod request_values;
mod route;
mod route_summary;
mod rows;

pub use contact::{Contact, Range};
pub use devices::{Device, Failed, Read, Write, WriteFault, write_text};
pub use fault::{AddFault, HopFault, NoMemory, RequestError};
pub use following::{FollowedPath, NextHop, Reached, follow, follow_after, follow_hop};
pub use ghost_values::{GhostBytes, GhostCount, GhostFlag};
pub use grouping::{Grouped, Groups, group};
pub use hop::Hop;
pub use laws::{
    candidates_hold_each_once, every_way_is_listed, faults_tell_routes, law1, law2, law3,
};
pub use limits::{LAST_TIME, MAX_AVOIDED, MAX_HOPS, MAX_LIGHT, MAX_MARGIN, MAX_RECORDS};
pub use node_list::NodeList;
pub use numbers::Numbers;
pub use opening::Opening;
pub use plan::{Known, Plan, arrive};
pub use request::Request;
pub use request_values::RequestValues;
pub use route::Route;
pub use route_summary::RouteSummary;
pub use rows::{
    row_of_deleting, row_of_faults, row_of_light, row_of_limits, row_of_parts_of_a,
    row_of_parts_of_c, row_of_plan_a, row_of_plan_a_later, row_of_plan_b, row_of_plan_c,
    row_of_the_last_day, row_of_windows, worked_plans_are_plans, worked_requests_are_requests,
};
