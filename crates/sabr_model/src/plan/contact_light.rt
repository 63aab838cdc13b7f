//! The one-way light time in force at a contact's start, and the arrival over a contact.

ghost use Rattle.std.specs.Prelude.{◌≡◌, ◌<◌, ◌≤◌, [], Some, IfSome};
ghost use Rattle.sabr_model.specs.plan.Plan.{most_light, last_time};
ghost use Rattle.sabr_model.specs.plan.Light.{light_of};
ghost use Rattle.sabr_model.specs.plan.RangeOrder.{IsRangeList};
ghost use Rattle.sabr_model.specs.routes.Arrival.{arrival};

use super::Plan;
use super::ranges::light_in_force;
use crate::contact::{Contact, Range};
use crate::request::Request;
use std::alloc::Allocator;

impl<A: Allocator + Copy> Plan<A> {
    /// Returns the one-way light time in seconds, 0 to 1000000, in force at the contact's start. `None` if no range
    /// states one.
    ///
    /// A range from the larger node to the smaller holds only that way, and there takes precedence over one that holds
    /// both ways (this project's profile). It is one or two binary searches of the ranges.
    pub fn light(&self, contact: &Contact) -> Option<u32>
        ensures value { result ≡ light_of self.now.plan contact.now }
        ensures limit { IfSome result (λ l. l ≤ most_light) }
    {
        light_of_contact(&self.ranges, contact)
    }
}

/// Returns the light time that these ranges state for a contact.
#[cold]
#[inline(never)]
pub fn light_of_contact(ranges: &[Range], contact: &Contact) -> Option<u32>
    requires { IsRangeList ranges.now }
    ensures { result ≡ light_of (record { contacts = []; ranges = ranges.now; largest = 0 }) contact.now }
{
    match light_in_force(ranges, contact.from, contact.to, contact.start) {
        Some(light) => Some(light),
        None if contact.from > contact.to => {
            light_in_force(ranges, contact.to, contact.from, contact.start)
        }
        None => None,
    }
}

/// Returns the second at which a bundle that is at the contact's sender at `t` arrives at its receiver (CCSDS
/// 734.3-B-1: earliest transmission time, one-way light time and margin). `None` if the contact has ended by the second
/// at which the bundle could be sent, or if no light time is known.
pub fn arrive<A: Allocator + Copy>(
    plan: &Plan<A>,
    request: &Request,
    t: u64,
    contact: &Contact,
) -> Option<u64>
    requires { contact.now.end ≤ last_time }
    ensures { result ≡ arrival plan.now.plan request.now t contact.now }
{
    let light = plan.light(contact)?;
    request.arrive_over(t, contact.start, contact.end, light)
}
