//! Adding contacts, and refusing them.

ghost use Rattle.std.specs.Prelude.{◌≡◌, ◌<◌, ◌≤◌, ◌+◌, None, Some, Err, IfOk, OnOk, OnErr, IsOkUnless};
ghost use Rattle.sabr_model.specs.plan.Plan.{last_time};
ghost use Rattle.sabr_model.specs.declared.fault.AddFault.{AddFault};
ghost use Rattle.sabr_model.specs.declared.fault.AddFault.TheVariants.{NoMemory};
ghost use Rattle.sabr_model.specs.plan.Adding.{next_contact, contact_refusal, with_contact};

use super::contact_light::light_of_contact;
use super::{Known, Plan};
use crate::contact::Contact;
use crate::fault::AddFault;
use crate::node_table::note_contact;
use crate::opening::Opening;
use std::alloc::{AllocError, Allocator};

impl<A: Allocator + Copy> Plan<A> {
    /// Adds a contact that is not refused.
    fn append(
        &mut self,
        from: u64,
        to: u64,
        start: u64,
        end: u64,
        rate: u64,
    ) -> Result<u32, AllocError>
        requires from { 0 < from }
        requires to { 0 < to }
        requires end { end ≤ last_time }
        requires accepted { contact_refusal self.old.plan from to start end ≡ None }

        // It has the next number. An error changes nothing.
        ensures number { IfOk result (λ n. n ≡ self.old.plan.largest + 1) }
        ensures ok { OnOk result (self.new.plan ≡ with_contact self.old.plan (next_contact self.old.plan from to start end rate)) }
        ensures err { OnErr result (self.new ≡ self.old) }
    {
        let number = self.largest + 1;
        let contact = Contact {
            number,
            from,
            to,
            start,
            end,
            rate,
        };
        self.contacts.reserve(1)?;
        self.known.reserve(1)?;
        let both = note_contact(self.alloc, &mut self.table, &contact, (0, 0))?;
        let light = light_of_contact(&self.ranges, &contact);
        self.known.push_reserved(Known::of(both.0, both.1, light));
        self.contacts.push_reserved(contact);
        self.largest = number;
        self.openings.note_all(&self.contacts).is_ok();
        Ok(number)
    }

    /// Adds a contact, and returns its number: one more than the largest number ever assigned.
    ///
    /// Times are seconds since 1970-01-01T00:00:00Z, and `end` is at most 253370764799. The rate is in bytes per
    /// second. An error leaves the plan as it was. The first addition is a pass over the contacts, and later ones look
    /// the contact up by its sender, receiver and start.
    ///
    /// # Errors
    ///
    /// The first that applies: `EmptyWindow` if the contact does not start before its end, `SelfPair` if sender and
    /// receiver are the same, `DuplicateContact` if a standing contact has this sender, receiver and start, `TooMany`
    /// if 20000 numbers were assigned, and `NoMemory` if an allocation failed.
    pub fn add_contact(
        &mut self,
        from: u64,
        to: u64,
        start: u64,
        end: u64,
        rate: u64,
    ) -> Result<u32, AddFault>
        requires from { 0 < from }
        requires to { 0 < to }
        requires end { end ≤ last_time }

        // The first reason to refuse it is returned. Without one, only an allocation can fail.
        ensures refused { (f : AddFault) → contact_refusal self.old.plan from to start end ≡ Some f → result ≡ Err f }
        ensures accepted { contact_refusal self.old.plan from to start end ≡ None → IsOkUnless result NoMemory }

        // It has the next number. An error changes nothing.
        ensures number { IfOk result (λ n. n ≡ self.old.plan.largest + 1) }
        ensures ok { OnOk result (self.new.plan ≡ with_contact self.old.plan (next_contact self.old.plan from to start end rate)) }
        ensures err { OnErr result (self.new ≡ self.old) }
    {
        let clashes = self.openings.has(&self.contacts, from, to, start);
        let opening = Opening { from, to, start };
        if let Some(fault) = opening.refusal(end, clashes, self.largest) {
            return Err(fault);
        }
        self.append(from, to, start, end, rate)
            .map_err(|_| AddFault::NoMemory)
    }
}
