//! Contacts that are gathered one by one, for a plan that is made of all at once.

ghost use Rattle.std.specs.Prelude.{◌≡◌, ◌<◌, ◌≤◌, ◌+◌, [], None, Some, Err, IfOk, OnOk, OnErr, IsOkUnless, ok_or, unwrap_or};
ghost use Rattle.sabr_model.specs.plan.Plan.{last_time, IsPlan};
ghost use Rattle.sabr_model.specs.declared.fault.AddFault.{AddFault};
ghost use Rattle.sabr_model.specs.declared.fault.AddFault.TheVariants.{NoMemory, NothingToDelete};
ghost use Rattle.sabr_model.specs.plan.Adding.{next_contact, contact_refusal, with_contact, number_of_opening, without_contact};

use crate::gathering::duplicate_check::{DuplicateCheck, find_by_pass, find_standing};
use sabr_model::{AddFault, Contact, MAX_RECORDS, Opening};
use std::alloc::{Allocator, Global};
use std::marker::Model;

/// Contacts that obey the rules of a plan's contacts, by ascending number, and the largest number assigned so far.
///
/// A hash table of their senders, receivers and starts finds a duplicate in O(1) on average.
#[derive(Drop)]
pub struct GatheredContacts<A: Allocator + Copy = Global> {
    /// The contacts that were added, at most `MAX_RECORDS`. A deleted one ends at its start.
    contacts: Vec<Contact, A>,
    openings: DuplicateCheck<A>,
    largest: u32,
    /// Whether one of them was deleted.
    has_deleted: bool,
}

impl<A: Allocator + Copy> Model for GatheredContacts<A> {
    ghost use Rattle.sabr_model.specs.plan.Plan.{ContactPlan, IsPlan};
    ghost use Rattle.std.specs.Prelude.{◌≡◌, false};
    ghost use Rattle.sabr_plan.specs.Gathering.{plan_of_contacts, standing, KnowsSome, IsTreed};

    ghost Value = { ContactPlan };

    ghost view = { λ g. plan_of_contacts (standing g.contacts.items) g.largest };

    ghost invariant = { λ g. IsPlan (plan_of_contacts (standing g.contacts.items) g.largest) × KnowsSome g.openings.chains.befores.items g.openings.chains.lasts.items g.openings.in_order g.openings.last g.contacts.items × IsTreed g.openings.tree.indexes g.openings.tree.treed g.contacts.items × (g.has_deleted ≡ false → standing g.contacts.items ≡ g.contacts.items) };
}

impl<A: Allocator + Copy> GatheredContacts<A> {
    /// Makes an empty value. It doesn't allocate.
    pub fn new(alloc: A) -> GatheredContacts<A>
        ensures { result ≡ record { contacts = []; ranges = []; largest = 0 } }
    {
        GatheredContacts {
            contacts: Vec::new(alloc),
            openings: DuplicateCheck::new(alloc),
            largest: 0,
            has_deleted: false,
        }
    }

    /// Adds a contact, as `Plan::add_contact` does, and returns its number: nodes, times in seconds since
    /// 1970-01-01T00:00:00Z, rate in bytes per second, and the same errors. It is O(1) on average, and a pass over the
    /// contacts if it returns an error.
    #[inline(always)]
    pub fn add(
        &mut self,
        from: u64,
        to: u64,
        start: u64,
        end: u64,
        rate: u64,
    ) -> Result<u32, AddFault>
        requires from { 0 < from }
        requires to { 0 < to }
        requires end { end ≤ last_time }

        // The first reason to refuse it is returned. Without one, only an allocation can fail.
        ensures refused { (f : AddFault) → contact_refusal self.old from to start end ≡ Some f → result ≡ Err f }
        ensures accepted { contact_refusal self.old from to start end ≡ None → IsOkUnless result NoMemory }

        // It has the next number. An error changes nothing.
        ensures number { IfOk result (λ n. n ≡ self.old.largest + 1) }
        ensures ok { OnOk result (self.new ≡ with_contact self.old (next_contact self.old from to start end rate)) }
        ensures err { OnErr result (self.new ≡ self.old) }
    {
        if start >= end || from == to || self.largest as usize >= MAX_RECORDS {
            return Err(self.fault(from, to, start, end));
        }
        let opening = Opening { from, to, start };
        if self.contacts.reserve(1).is_err() || self.openings.has(&self.contacts, opening) {
            return Err(self.fault(from, to, start, end));
        }
        let number = self.largest + 1;
        self.contacts.push_reserved(Contact {
            number,
            from,
            to,
            start,
            end,
            rate,
        });
        self.openings.last = opening;
        self.largest = number;
        Ok(number)
    }

    /// Returns the first reason to refuse a contact, or `None`.
    #[cold]
    #[inline(never)]
    fn fault(&self, from: u64, to: u64, start: u64, end: u64) -> AddFault
        ensures { result ≡ unwrap_or (contact_refusal self.now from to start end) NoMemory }
    {
        let opening = Opening { from, to, start };
        let clashes = find_by_pass(&self.contacts, &opening).is_some();
        opening
            .refusal(end, clashes, self.largest)
            .unwrap_or(AddFault::NoMemory)
    }

    /// Deletes the contact with this sender, receiver and start, and returns its number, which is never assigned again.
    /// The start is in seconds since 1970-01-01T00:00:00Z.
    ///
    /// It is O(1) on average, and a pass over the contacts if an allocation fails.
    ///
    /// # Errors
    ///
    /// `NothingToDelete` if there is no such contact. Then the contacts stay as they were.
    pub fn delete(&mut self, from: u64, to: u64, start: u64) -> Result<u32, AddFault>
        ensures value { result ≡ ok_or (number_of_opening self.old from to start) NothingToDelete }
        ensures ok { OnOk result (self.new ≡ without_contact self.old from to start) }
        ensures err { OnErr result (self.new ≡ self.old) }
    {
        let opening = Opening { from, to, start };
        let Some(index) = find_standing(
            &mut self.openings.chains,
            &mut self.openings.tree,
            &self.contacts,
            &opening,
        ) else {
            return Err(AddFault::NothingToDelete);
        };
        let number = self.contacts[index].number;
        self.contacts[index].end = start;
        self.has_deleted = true;
        Ok(number)
    }

    /// Returns the contacts by ascending number, and the largest number assigned so far. It doesn't allocate.
    pub fn into_contacts(self) -> (Vec<Contact, A>, u32)
        ensures contacts { result.0.items ≡ self.contacts }
        ensures largest { result.1 ≡ self.largest }
        ensures alone { self.ranges ≡ [] }
        ensures rules { IsPlan self }
    {
        let GatheredContacts {
            mut contacts,
            openings: _,
            largest,
            has_deleted,
        } = self;
        if has_deleted {
            contacts.retain(|c| c.start < c.end);
        }
        (contacts, largest)
    }
}
