//! Deleting contacts and ranges.

ghost use Rattle.std.specs.Prelude.{◌≡◌, ◌↔◌, IsTrue, OnOk, OnErr, IfErr, IsOk, ok_or};
ghost use Rattle.std.specs.List.{list_any};
ghost use Rattle.sabr_model.specs.declared.fault.AddFault.TheVariants.{NothingToDelete};
ghost use Rattle.sabr_model.specs.plan.Adding.{number_of_opening, without_contact, begins, without_range};

use super::Plan;
use super::known::remove_known;
use crate::contact::Range;
use crate::fault::AddFault;
use crate::node_table::forget_contact;
use std::alloc::Allocator;

impl<A: Allocator + Copy> Plan<A> {
    /// Deletes the contact with this sender, receiver and start, and returns its number, which is never assigned again.
    /// The start is in seconds since 1970-01-01T00:00:00Z.
    ///
    /// It doesn't allocate, and moves the later contacts. It is a pass over the contacts, unless a contact was added by
    /// a call before. If one of the nodes has no other contact, it is a pass more, and a node whose
    /// index has changed is looked up for each of its contacts.
    ///
    /// # Errors
    ///
    /// `NothingToDelete` if there is no such standing contact. Then the plan stays as it was.
    pub fn delete_contact(&mut self, from: u64, to: u64, start: u64) -> Result<u32, AddFault>
        ensures value { result ≡ ok_or (number_of_opening self.old.plan from to start) NothingToDelete }
        ensures ok { OnOk result (self.new.plan ≡ without_contact self.old.plan from to start) }
        ensures err { OnErr result (self.new ≡ self.old) }
    {
        let Some(place) = self.openings.find(&self.contacts, from, to, start) else {
            return Err(AddFault::NothingToDelete);
        };
        let contact = self.contacts[place];
        let same_nodes = forget_contact(&mut self.table, &self.contacts, &contact);
        self.contacts.remove(place);
        remove_known(
            &self.table,
            &self.contacts,
            &mut self.known,
            place,
            same_nodes,
        );
        self.openings.remove(place);
        Ok(contact.number)
    }

    /// Deletes the range of this ordered pair that begins at this start, in seconds since 1970-01-01T00:00:00Z.
    ///
    /// It doesn't allocate. Its time grows with the number of records. Afterwards reading a light time is a binary
    /// search.
    ///
    /// # Errors
    ///
    /// `NothingToDelete` if there is no such standing range. Then the plan stays as it was.
    pub fn delete_range(&mut self, one: u64, other: u64, start: u64) -> Result<(), AddFault>
        ensures deleted { IsOk result ↔ IsTrue (list_any (begins one other start) self.old.plan.ranges) }
        ensures fault { IfErr result (λ f. f ≡ NothingToDelete) }
        ensures ok { OnOk result (self.new ≡ record { plan = without_range self.old.plan one other start; table = self.old.table }) }
        ensures err { OnErr result (self.new ≡ self.old) }
    {
        if !Range::any_begins(&self.ranges, one, other, start) {
            return Err(AddFault::NothingToDelete);
        }
        self.lit = false;
        self.ranges.retain(|r| !r.begins(one, other, start));
        Ok(())
    }
}
