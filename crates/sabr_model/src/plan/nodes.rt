//! The nodes of a plan, each by its index in the table, and the contacts that a node sends.

ghost use Rattle.std.specs.Prelude.{◌≡◌, ◌<◌, ◌≤◌, ◌*◌, Some, None, MatchOption, IsFalse, length, map, slice_get, slice_index, slice_index_or};
ghost use Rattle.sabr_model.specs.plan.Plan.{contact_named, has, most_records};
ghost use Rattle.sabr_model.specs.plan.Table.{sent_by, node_count};
ghost use Rattle.sabr_model.specs.plan.Tabled.{IsTabled, IsHopOf, IsHopNamed};

use super::Plan;
use super::contact_light::light_of_contact;
use super::contacts_by_number::place_of_number;
use crate::contact::Contact;
use crate::hop::Hop;
use std::alloc::Allocator;

impl<A: Allocator + Copy> Plan<A> {
    /// The number of nodes that send or receive a standing contact, at most 40000.
    pub fn nodes(&self) -> usize
        ensures value { result ≡ node_count self.now.plan.contacts }
        ensures table { result ≡ length self.now.table }
        ensures tabled { IsTabled self.now }
        ensures few { result ≤ 2 * most_records }
    {
        self.table.len()
    }

    /// The numbers of the standing contacts that the node sends, in ascending order. The list is empty for a node that
    /// sends none. It is O(1).
    pub fn from_node(&self, node: u64) -> &[u32]
        ensures { result.now ≡ sent_by self.now.plan.contacts node }
    {
        match self.table.get(&node) {
            Some(numbers) => numbers,
            None => &[],
        }
    }

    /// Returns the index of a node in the table of nodes, from 0. `None` if the node sends and receives no standing
    /// contact. It is O(1).
    ///
    /// Adding a record keeps all indexes, and deleting a contact may change them.
    pub fn node_index(&self, node: u64) -> Option<usize>
        ensures { MatchOption result (IsFalse (has node self.now.table)) (λ k. slice_get self.now.table k ≡ Some node) }
    {
        self.table.get_index_of(&node)
    }

    /// Returns the window, receiver and light time of the standing contact with this number. `None` if the number was
    /// never assigned, or its contact was deleted.
    ///
    /// It is O(1) for a plan that was read from lines without deletions, and not changed since. Otherwise it is up to
    /// three binary searches: one of the contacts, and two of the ranges.
    #[inline(always)]
    pub fn hop(&self, number: u32) -> Option<Hop>
        ensures { MatchOption result (contact_named self.now.plan number ≡ None) (IsHopNamed self.now number) }
    {
        let place = place_of_number(&self.contacts, number)?;
        Some(self.hop_of(place, &self.contacts[place]))
    }

    /// Returns the number of the contact at an index of [`contacts`](Plan::contacts), and its window, receiver and
    /// light time. The index is below the number of standing contacts.
    ///
    /// It is O(1) for a plan that was read and not changed since, and one or two binary searches of the ranges
    /// otherwise.
    #[inline(always)]
    pub fn hop_at(&self, place: usize) -> (u32, Hop)
        requires { place < length self.now.plan.contacts }
        ensures number { result.0 ≡ slice_index (map (λ c. c.number) self.now.plan.contacts) place }
        ensures hop { IsHopNamed self.now result.0 result.1 }
    {
        let contact = &self.contacts[place];
        (contact.number, self.hop_of(place, contact))
    }

    /// Returns the window, receiver and light time of the contact at an index.
    #[inline(always)]
    fn hop_of(&self, place: usize, contact: &Contact) -> Hop
        requires within { place < length self.now.plan.contacts }
        requires there { contact.now ≡ slice_index_or self.now.plan.contacts place contact.now }
        ensures { IsHopOf self.now contact.now result }
    {
        let receiver = self.known[place].to as usize;
        let light = if self.lit {
            self.known[place].light_time()
        } else {
            light_of_contact(&self.ranges, contact)
        };
        Hop {
            start: contact.start,
            end: contact.end,
            receiver,
            light,
        }
    }
}
