//! The hops of a list of contacts, one after another, in time that grows with its length.

ghost use Rattle.std.specs.Prelude.{◌≡◌, ◌+◌, ◌<◌, ◌≤◌, ◌∷◌, [], IfErr, IfNone, IfOk, IfSome, IsTrue, Some};
ghost use Rattle.sabr_model.specs.routes.Arrival.{arrival_after};
ghost use Rattle.sabr_model.specs.routes.Fault.{fault_of};
ghost use Rattle.sabr_model.specs.routes.Route.{is_route};
ghost use Rattle.sabr_model.specs.routes.Telling.{summary_of};
ghost use Rattle.sabr_plan.specs.Times.{last_spelled};
ghost use Rattle.sabr_session.specs.Hops.{hops_left, placed_after, seen_hop, told_of};

use sabr_model::{Contact, FollowedPath, HopFault, Plan, Request, RouteSummary};
use std::alloc::{Allocator, Global};
use std::marker::Model;

/// A hop without a fault. Its times are seconds since 1970-01-01T00:00:00Z.
#[derive(Clone, Copy)]
pub struct FollowedHop<'p> {
    /// Its place in the list, from 1.
    pub place: usize,
    /// Its contact.
    pub contact: &'p Contact,
    /// When the bundle is sent.
    pub sent: u64,
    /// When it arrives.
    pub arrived: u64,
}

/// The hops of a list of contacts, one after another, up to the first fault. It doesn't allocate.
///
/// Each contact is looked up by its number, and its receiver in a set of the nodes that were met. So a list is followed
/// in time that grows with its length. Contracts see the list, how much of it was followed, and whether that is all.
#[derive(Drop)]
pub struct Hops<'a, A: Allocator + Copy = Global> {
    plan: &'a Plan<A>,
    request: &'a Request,
    /// The numbers of the contacts.
    contacts: &'a [u32],
    /// The number of contacts that were followed.
    count: usize,
    /// Where they lead, and the nodes that they met.
    path: FollowedPath,
    /// Their earliest end, and their entry node.
    summary: RouteSummary,
    /// The fault of the next hop, once it is found.
    fault: Option<HopFault>,
}

impl<'a, A: Allocator + Copy> Model for Hops<'a, A> {
    ghost use Rattle.std.specs.Prelude.{◌||◌, ◌==◌, is_some, length};
    ghost use Rattle.sabr_session.specs.Hops.{Followed, IsFollowed};

    ghost Value = { Followed };

    ghost view = { λ h. record { question = record { plan = h.plan.now; request = h.request.now; contacts = h.contacts.now }; count = h.count; over = is_some h.fault || (h.count == length h.contacts.now) } };

    ghost invariant = { λ h. IsFollowed h.plan.now h.request.now h.contacts.now h.count h.path h.summary h.fault };
}

impl<'a, A: Allocator + Copy> Hops<'a, A> {
    /// Returns the hops over the contacts of these numbers, before the first.
    pub fn new(plan: &'a Plan<A>, request: &'a Request, contacts: &'a [u32]) -> Hops<'a, A>
        ensures question { result.question ≡ record { plan = plan.now; request = request.now; contacts = contacts.now } }
        ensures left { hops_left result ≡ told_of placed_after plan.now.plan request.now [] contacts.now }
    {
        Hops {
            plan,
            request,
            contacts,
            count: 0,
            path: FollowedPath::at_source(plan, request, contacts.len()),
            summary: RouteSummary::of(plan, &[]),
            fault: None,
        }
    }

    /// Returns the next hop. `None` after the hops before the first fault, or after all.
    pub fn next(&mut self) -> Option<FollowedHop<'a>>
        ensures hop { IfSome result (λ h. hops_left self.old ≡ seen_hop h ∷ hops_left self.new) }
        ensures times { IfSome result (λ h. (h.sent ≤ last_spelled) × (h.arrived ≤ last_spelled)) }
        ensures none { IfNone result (hops_left self.old ≡ []) }
        ensures over { IfNone result (IsTrue self.new.over) }
        ensures question { self.new.question ≡ self.old.question }
    {
        if self.fault.is_some() {
            return None;
        }
        let number = *self.contacts.get(self.count)?;
        let front = &self.contacts[..self.count];
        let before = self.path.here.at;
        // For the proof alone, by its contract.
        self.request.limits_hold();
        match self.path.go_on(self.plan, self.request, front, number) {
            Ok(hop) => {
                self.summary = self.summary.extended(self.plan, front, number);
                self.count += 1;
                Some(FollowedHop {
                    place: self.count,
                    contact: hop.contact,
                    sent: before.max(hop.contact.start),
                    arrived: hop.arrived,
                })
            }
            Err(fault) => {
                self.fault = Some(fault);
                None
            }
        }
    }

    /// Returns the best-case delivery time of the route that the contacts make, in seconds since 1970-01-01T00:00:00Z,
    /// and its summary, once [`next`](Hops::next) has returned `None`.
    ///
    /// # Errors
    ///
    /// If the list is no route: what [`follow`](sabr_model::follow) returns.
    pub fn ending(&self) -> Result<(u64, RouteSummary), HopFault>
        requires { IsTrue self.now.over }
        ensures route { IfOk result (λ _. IsTrue (is_route self.now.question.plan.plan self.now.question.request self.now.question.contacts)) }
        ensures delivery { IfOk result (λ e. arrival_after self.now.question.plan.plan self.now.question.request self.now.question.request.at self.now.question.contacts ≡ Some e.0) }
        ensures summary { IfOk result (λ e. e.1 ≡ summary_of self.now.question.plan.plan self.now.question.contacts) }
        ensures fault { IfErr result (λ f. fault_of self.now.question.plan.plan self.now.question.request self.now.question.contacts ≡ Some f) }
    {
        if let Some(fault) = self.fault {
            return Err(fault);
        }
        if self.contacts.is_empty() {
            return Err(HopFault::Empty);
        }
        if self.path.here.node != self.request.to() {
            return Err(HopFault::WrongEnd);
        }
        Ok((self.path.here.at, self.summary))
    }
}
