//! The standing contacts by sender, receiver and start.

ghost use Rattle.std.specs.Prelude.{◌≡◌, ◌<◌, ◌+◌, ◌-◌, None, MatchOption, IsTrue, OnOk, length, map, find, slice_get, nat_lt, if◌then◌else◌};
ghost use Rattle.std.specs.List.{list_any};
ghost use Rattle.sabr_model.specs.plan.Plan.{opens, rises_above, same_opening, none_twice};
ghost use Rattle.sabr_model.specs.plan.Openings.{IsNoted};

use super::contacts_by_number::{place_of_number, place_of_opening};
use crate::contact::Contact;
use std::alloc::{AllocError, Allocator};
use std::collections::BTreeMap;

/// The numbers of the first contacts, by sender, receiver and start. The map may also have those of contacts that were
/// deleted.
#[derive(Drop)]
pub struct Openings<A: Allocator + Copy> {
    /// The number of the first contacts that the map has.
    pub noted: usize,
    pub numbers: BTreeMap<(u64, u64, u64), u32, A>,
}

impl<A: Allocator + Copy> Openings<A> {
    /// Makes a map of no contact. It doesn't allocate.
    pub fn new(alloc: A) -> Openings<A>
        ensures { result.noted ≡ 0 }
    {
        Openings {
            noted: 0,
            numbers: BTreeMap::new(alloc),
        }
    }

    /// Notes the contacts that the map does not have. After an error it has some of them.
    pub fn note_all(&mut self, contacts: &[Contact]) -> Result<(), AllocError>
        requires noted { IsNoted self.old.numbers self.old.noted contacts.now }
        requires apart { IsTrue (none_twice same_opening contacts.now) }
        ensures noted { IsNoted self.new.numbers self.new.noted contacts.now }
    {
        while self.noted < contacts.len() {
            self.note_next(contacts)?;
        }
        Ok(())
    }

    /// Notes the next contact.
    fn note_next(&mut self, contacts: &[Contact]) -> Result<(), AllocError>
        requires more { self.old.noted < length contacts.now }
        requires noted { IsNoted self.old.numbers self.old.noted contacts.now }
        requires apart { IsTrue (none_twice same_opening contacts.now) }
        ensures noted { IsNoted self.new.numbers self.new.noted contacts.now }
        ensures next { OnOk result (self.new.noted ≡ self.old.noted + 1) }
    {
        let place = self.noted;
        let contact = contacts[place];
        let opening = (contact.from, contact.to, contact.start);
        let Ok(_) = self.numbers.insert(opening, contact.number) else {
            return Err(AllocError);
        };
        self.noted = place + 1;
        Ok(())
    }

    /// Notes that the contact at an index was deleted.
    pub fn remove(&mut self, place: usize)
        ensures noted { self.new.noted ≡ (if nat_lt place self.old.noted then self.old.noted - 1 else self.old.noted) }
        ensures numbers { self.new.numbers ≡ self.old.numbers }
    {
        if place < self.noted {
            self.noted -= 1;
        }
    }

    /// Returns the index of the contact with this sender, receiver and start. It looks the contact up if the map has
    /// all contacts, and otherwise is a pass over them.
    pub fn find(&self, contacts: &[Contact], from: u64, to: u64, start: u64) -> Option<usize>
        requires noted { IsNoted self.now.numbers self.now.noted contacts.now }
        requires numbered { IsTrue (rises_above 0 (map (λ c. c.number) contacts.now)) }
        ensures { MatchOption result (find (opens from to start) contacts.now ≡ None) (λ k. (k < length contacts.now) × (find (opens from to start) contacts.now ≡ slice_get contacts.now k)) }
    {
        if self.noted < contacts.len() {
            return place_of_opening(contacts, from, to, start);
        }
        let Some(number) = self.numbers.get(&(from, to, start)) else {
            return None;
        };
        let Some(place) = place_of_number(contacts, *number) else {
            return None;
        };
        let contact = contacts[place];
        if contact.opens(from, to, start) {
            return Some(place);
        }
        None
    }

    /// Returns true if one of the contacts has this sender, receiver and start. Its cost is that of `find`.
    pub fn has(&self, contacts: &[Contact], from: u64, to: u64, start: u64) -> bool
        requires noted { IsNoted self.now.numbers self.now.noted contacts.now }
        requires numbered { IsTrue (rises_above 0 (map (λ c. c.number) contacts.now)) }
        ensures { result ≡ list_any (opens from to start) contacts.now }
    {
        self.find(contacts, from, to, start).is_some()
    }
}
