//! Following a list of contacts: when it delivers, or why it is no route.

ghost use Rattle.std.specs.Prelude.{◌≡◌, ℕ, false, ◌+◌, ◌<◌, ◌≤◌, ◌^◌, [], ◌∷◌, ◌++◌, Some, None, IfSome, IfOk, IfErr, OnOk, OnErr, IsTrue, length, slice_get, take};
ghost use Rattle.sabr_model.specs.plan.Plan.{contact_named, has};
ghost use Rattle.sabr_model.specs.routes.Arrival.{arrival, arrival_after};
ghost use Rattle.sabr_model.specs.routes.Route.{is_path, is_route, receivers};
ghost use Rattle.sabr_model.specs.routes.Fault.{fault_at, first_fault, fault_of};
ghost use Rattle.sabr_model.specs.routes.Following.{AreMet, IsFollowedPath, IsReachedBy, has_index, most_nodes, receives};

use crate::contact::Contact;
use crate::fault::HopFault;
use crate::node_set::NodeSet;
use crate::plan::Plan;
use crate::request::Request;
use std::alloc::Allocator;

/// A node that a bundle has reached, and when.
#[derive(Clone, Copy)]
pub struct Reached {
    /// The node where the bundle is.
    pub node: u64,
    /// The second of its arrival there, in seconds since 1970-01-01T00:00:00Z.
    pub at: u64,
}

/// A hop without a fault.
#[derive(Clone, Copy)]
pub struct NextHop<'p> {
    /// Its contact.
    pub contact: &'p Contact,
    /// The index of its receiver in the table of nodes.
    pub receiver: usize,
    /// When the bundle arrives there, in seconds since 1970-01-01T00:00:00Z.
    pub arrived: u64,
}

/// The most contacts of a list that is followed without a set of nodes. A list of 16 then takes half the instructions
/// that it takes with a set, whose 5000 bytes are cleared first; a list of 24 takes as many, and of 64 five times as many:
/// in a loop of plain Rust.
const FEW: usize = 16;

/// Where a path leads, and the nodes that it met on its way. With a set of them, it goes on by a contact in constant time.
#[derive(Clone, Copy)]
pub struct FollowedPath {
    /// Where the path leads, and when.
    pub here: Reached,
    /// The receivers of its contacts. Without this set, the contacts are looked through for a receiver.
    met: Option<NodeSet>,
}

/// Returns true if the node receives the contact with this number.
fn receives<A: Allocator + Copy>(plan: &Plan<A>, number: u32, node: u64) -> bool
    ensures { result ≡ receives plan.now.plan node number }
{
    match plan.contact(number) {
        Some(contact) => node == contact.to,
        None => false,
    }
}

/// Returns true if the node receives one of these contacts.
fn is_received<A: Allocator + Copy>(plan: &Plan<A>, numbers: &[u32], node: u64) -> bool
    ensures { result ≡ has node (receivers plan.now.plan numbers.now) }
{
    for number in numbers {
        if receives(plan, *number, node) {
            return true;
        }
    }
    false
}

/// Returns the empty set of nodes for a list of this many contacts. None for a short list.
fn set_for(count: usize) -> Option<NodeSet>
    ensures { IfSome result (λ met. (k : ℕ) → has_index met k ≡ false) }
{
    if count > FEW {
        return Some(NodeSet::new());
    }
    None
}

/// Returns the receivers of these contacts.
fn met_by<A: Allocator + Copy>(plan: &Plan<A>, numbers: &[u32]) -> NodeSet
    ensures { AreMet plan.now result numbers.now }
{
    // For the proof alone, by its contract.
    plan.nodes();
    let mut met = NodeSet::new();
    for number in numbers {
        if let Some(hop) = plan.hop(*number) {
            met.insert(hop.receiver);
        }
    }
    met
}

impl FollowedPath {
    /// The empty path, at the source, which will go along a list of this many contacts.
    pub fn at_source<A: Allocator + Copy>(
        plan: &Plan<A>,
        request: &Request,
        count: usize,
    ) -> FollowedPath
        ensures { IsFollowedPath plan.now request.now [] result }
    {
        // Both calls are for the proof alone, by their contracts.
        plan.rules_hold();
        plan.nodes();
        FollowedPath {
            here: Reached {
                node: request.from(),
                at: request.at(),
            },
            met: set_for(count),
        }
    }

    /// Returns whether the path, whose numbers are `front`, met the node at this index of the table.
    fn has_met<A: Allocator + Copy>(
        &self,
        plan: &Plan<A>,
        front: &[u32],
        node: u64,
        index: usize,
    ) -> bool
        requires few { length plan.now.table ≤ most_nodes }
        requires met { IfSome self.now.met (λ met. AreMet plan.now met front.now) }
        requires index { slice_get plan.now.table index ≡ Some node }
        ensures { result ≡ has node (receivers plan.now.plan front.now) }
    {
        match &self.met {
            Some(met) => met.contains(index),
            None => is_received(plan, front, node),
        }
    }

    /// Returns the hop over the contact of this number, after the numbers of the path.
    ///
    /// # Errors
    ///
    /// The fault of the hop, in the order of [`follow`].
    pub fn hop_over<'p, A: Allocator + Copy>(
        &self,
        plan: &'p Plan<A>,
        request: &Request,
        front: &[u32],
        number: u32,
    ) -> Result<NextHop<'p>, HopFault>
        requires place { length front.now + 1 < 2 ^ 64 }
        requires path { IsFollowedPath plan.now request.now front.now self.now }
        ensures good { IfOk result (λ _. fault_at plan.now.plan request.now front.now number ≡ None) }
        ensures contact { IfOk result (λ h. contact_named plan.now.plan number ≡ Some h.contact.now) }
        ensures receiver { IfOk result (λ h. slice_get plan.now.table h.receiver ≡ Some h.contact.now.to) }
        ensures arrives { IfOk result (λ h. arrival plan.now.plan request.now self.now.here.at h.contact.now ≡ Some h.arrived) }
        ensures reached { IfOk result (λ h. IsReachedBy plan.now.plan request.now (front.now ++ number ∷ []) (record { node = h.contact.now.to; at = h.arrived })) }
        ensures err { IfErr result (λ f. fault_at plan.now.plan request.now front.now number ≡ Some f) }
    {
        let place = front.len() + 1;
        let Some(contact) = plan.contact(number) else {
            return Err(HopFault::NoSuchContact(place));
        };
        let Some(hop) = plan.hop(number) else {
            return Err(HopFault::NoSuchContact(place));
        };
        if self.here.node != contact.from {
            return Err(HopFault::NotChained(place));
        }
        if contact.to == request.from() || self.has_met(plan, front, contact.to, hop.receiver) {
            return Err(HopFault::NodeAgain(place));
        }
        if hop.light.is_none() {
            return Err(HopFault::NoLight(place));
        }
        let Some(arrived) = hop.arrive(request, self.here.at) else {
            return Err(HopFault::TooLate(place));
        };
        if request.avoids(contact.to) {
            return Err(HopFault::AvoidedNode(place));
        }
        if place > request.max_hops() as usize {
            return Err(HopFault::TooManyHops(place));
        }
        Ok(NextHop {
            contact,
            receiver: hop.receiver,
            arrived,
        })
    }

    /// Goes on by the contact of this number, after the numbers of the path, and returns the hop over it.
    ///
    /// # Errors
    ///
    /// The fault of the hop, in the order of [`follow`].
    pub fn go_on<'p, A: Allocator + Copy>(
        &mut self,
        plan: &'p Plan<A>,
        request: &Request,
        front: &[u32],
        number: u32,
    ) -> Result<NextHop<'p>, HopFault>
        requires place { length front.now + 1 < 2 ^ 64 }
        requires path { IsFollowedPath plan.now request.now front.now self.old }
        ensures good { IfOk result (λ _. fault_at plan.now.plan request.now front.now number ≡ None) }
        ensures contact { IfOk result (λ h. contact_named plan.now.plan number ≡ Some h.contact.now) }
        ensures arrives { IfOk result (λ h. arrival plan.now.plan request.now self.old.here.at h.contact.now ≡ Some h.arrived) }
        ensures path { OnOk result (IsFollowedPath plan.now request.now (front.now ++ number ∷ []) self.new) }
        ensures same { OnErr result (self.new ≡ self.old) }
        ensures err { IfErr result (λ f. fault_at plan.now.plan request.now front.now number ≡ Some f) }
    {
        let hop = self.hop_over(plan, request, front, number)?;
        self.here = Reached {
            node: hop.contact.to,
            at: hop.arrived,
        };
        if let Some(set) = &mut self.met {
            set.insert(hop.receiver);
        }
        Ok(hop)
    }

    /// Goes on along a list, whose first `first` numbers are the path, and returns what [`follow`] returns for the list.
    fn end_of<A: Allocator + Copy>(
        &mut self,
        plan: &Plan<A>,
        request: &Request,
        contacts: &[u32],
        first: usize,
    ) -> Result<u64, HopFault>
        requires longer { first < length contacts.now }
        requires path { IsFollowedPath plan.now request.now (take first contacts.now) self.old }
        ensures route { IfOk result (λ _. IsTrue (is_route plan.now.plan request.now contacts.now)) }
        ensures delivery { IfOk result (λ d. arrival_after plan.now.plan request.now request.now.at contacts.now ≡ Some d) }
        ensures fault { IfErr result (λ f. fault_of plan.now.plan request.now contacts.now ≡ Some f) }
    {
        for i in first..contacts.len() {
            self.go_on(plan, request, &contacts[..i], contacts[i])?;
        }
        if self.here.node != request.to() {
            return Err(HopFault::WrongEnd);
        }
        Ok(self.here.at)
    }
}

/// Returns the best-case delivery time of the route that the contacts of these numbers make, in seconds since
/// 1970-01-01T00:00:00Z (CCSDS 734.3-B-1: best-case delivery time).
///
/// It doesn't allocate. Its time grows with the number of hops before the first fault.
///
/// # Errors
///
/// If the list is no route of the request over the plan: the fault of the first hop that has one. If a hop has several,
/// the first of [`HopFault::NoSuchContact`], [`HopFault::NotChained`], [`HopFault::NodeAgain`], [`HopFault::NoLight`],
/// [`HopFault::TooLate`], [`HopFault::AvoidedNode`], [`HopFault::TooManyHops`]. [`HopFault::Empty`] for the empty list.
/// [`HopFault::WrongEnd`] if no hop has a fault and the last receiver isn't the destination.
pub fn follow<A: Allocator + Copy>(
    plan: &Plan<A>,
    request: &Request,
    contacts: &[u32],
) -> Result<u64, HopFault>
    ensures route { IfOk result (λ _. IsTrue (is_route plan.now.plan request.now contacts.now)) }
    ensures delivery { IfOk result (λ d. arrival_after plan.now.plan request.now request.now.at contacts.now ≡ Some d) }
    ensures fault { IfErr result (λ f. fault_of plan.now.plan request.now contacts.now ≡ Some f) }
{
    if contacts.is_empty() {
        return Err(HopFault::Empty);
    }
    FollowedPath::at_source(plan, request, contacts.len()).end_of(plan, request, contacts, 0)
}

/// Returns where a path and one more number lead. `here` is where the path leads; the empty path leads to the source,
/// where the bundle is.
///
/// It looks up each contact once.
///
/// # Errors
///
/// The fault of the hop that the number adds, in the order of [`follow`].
pub fn follow_hop<A: Allocator + Copy>(
    plan: &Plan<A>,
    request: &Request,
    prefix: &[u32],
    here: Reached,
    number: u32,
) -> Result<Reached, HopFault>
    requires path { IsTrue (is_path plan.now.plan request.now prefix.now) }
    requires reached { IsReachedBy plan.now.plan request.now prefix.now here }
    ensures path { IfOk result (λ _. IsTrue (is_path plan.now.plan request.now (prefix.now ++ number ∷ []))) }
    ensures reached { IfOk result (IsReachedBy plan.now.plan request.now (prefix.now ++ number ∷ [])) }
    ensures fault { IfErr result (λ f. first_fault plan.now.plan request.now [] (prefix.now ++ number ∷ []) ≡ Some f) }
{
    // Both calls are for the proof alone, by their contracts.
    plan.rules_hold();
    plan.nodes();
    let path = FollowedPath { here, met: None };
    let hop = path.hop_over(plan, request, prefix, number)?;
    Ok(Reached {
        node: hop.contact.to,
        at: hop.arrived,
    })
}

/// Returns what [`follow`] returns, for a list whose first `first` numbers are a path that leads to `here`.
///
/// It doesn't allocate. Of the contacts that were followed before, it looks up only the receivers.
///
/// # Errors
///
/// Those of [`follow`].
pub fn follow_after<A: Allocator + Copy>(
    plan: &Plan<A>,
    request: &Request,
    contacts: &[u32],
    first: usize,
    here: Reached,
) -> Result<u64, HopFault>
    requires longer { first < length contacts.now }
    requires path { IsTrue (is_path plan.now.plan request.now (take first contacts.now)) }
    requires reached { IsReachedBy plan.now.plan request.now (take first contacts.now) here }
    ensures route { IfOk result (λ _. IsTrue (is_route plan.now.plan request.now contacts.now)) }
    ensures delivery { IfOk result (λ d. arrival_after plan.now.plan request.now request.now.at contacts.now ≡ Some d) }
    ensures fault { IfErr result (λ f. fault_of plan.now.plan request.now contacts.now ≡ Some f) }
{
    // Both calls are for the proof alone, by their contracts.
    plan.rules_hold();
    plan.nodes();
    let mut path = FollowedPath {
        here,
        met: if contacts.len() > FEW {
            Some(met_by(plan, &contacts[..first]))
        } else {
            None
        },
    };
    path.end_of(plan, request, contacts, first)
}
