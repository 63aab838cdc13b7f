//! A contact plan: its contacts, its ranges and the table of its nodes, under one invariant.

mod add_contact;
mod add_range;
mod contact_light;
mod contacts_by_number;
mod delete;
pub mod guessed_lights;
pub mod known;
mod nodes;
mod openings;
mod ranges;
mod refusals;

ghost use Rattle.std.specs.Prelude.{◌≡◌, [], IfOk};
ghost use Rattle.std.specs.Option.{option_copied};
ghost use Rattle.sabr_model.specs.plan.Plan.{IsPlan, contact_named};

use crate::contact::{Contact, Range};
use crate::fault::NoMemory;
use crate::node_table::{NodeTable, table_of};
pub use contact_light::arrive;
use contacts_by_number::contact_of_number;
use indexmap::IndexMap;
pub use known::Known;
use openings::Openings;
use std::alloc::{Allocator, Global};
use std::marker::Model;

/// A contact plan (CCSDS 734.3-B-1): contacts by number, ranges by pair of nodes and start, and the table of nodes.
///
/// Which contacts and ranges a plan accepts is this project's profile of ionrc(5); see
/// [`add_contact`](Plan::add_contact) and [`add_range`](Plan::add_range).
#[derive(Drop)]
pub struct Plan<A: Allocator + Copy = Global> {
    /// The allocator of the tables.
    alloc: A,
    /// The standing contacts, by ascending number.
    contacts: Vec<Contact, A>,
    /// The standing ranges, in ascending order of pair and start.
    ranges: Vec<Range, A>,
    /// The nodes, each with the numbers of the contacts that it sends.
    table: NodeTable<A>,
    /// The largest number ever assigned.
    largest: u32,
    /// The indexes of each contact's nodes, and its light time.
    known: Vec<Known, A>,
    /// Whether those light times are right: no range has changed since.
    lit: bool,
    /// The contacts by sender, receiver and start, from the first that is added by a call on.
    openings: Openings<A>,
}

impl<A: Allocator + Copy> Model for Plan<A> {
    ghost use Rattle.indexmap.specs.IndexMap.{keys};
    ghost use Rattle.sabr_model.specs.plan.Plan.{TabledPlan, IsPlan};
    ghost use Rattle.sabr_model.specs.plan.Table.{IsTableOf};
    ghost use Rattle.sabr_model.specs.plan.Known.{AreKnown};
    ghost use Rattle.sabr_model.specs.plan.Openings.{IsNoted};

    ghost Value = { TabledPlan };

    ghost view = { λ a. record { plan = record { contacts = a.contacts.items; ranges = a.ranges.items; largest = a.largest }; table = keys a.table } };

    ghost invariant = { λ a. IsPlan (record { contacts = a.contacts.items; ranges = a.ranges.items; largest = a.largest }) × IsTableOf a.contacts.items a.table × AreKnown (keys a.table) a.ranges.items a.lit a.contacts.items a.known.items × IsNoted a.openings.numbers a.openings.noted a.contacts.items };
}

impl<A: Allocator + Copy> Plan<A> {
    /// Makes an empty plan. It doesn't allocate.
    pub fn new(alloc: A) -> Plan<A>
        ensures { result ≡ record { plan = record { contacts = []; ranges = []; largest = 0 }; table = [] } }
    {
        Plan {
            alloc,
            contacts: Vec::new(alloc),
            ranges: Vec::new(alloc),
            table: IndexMap::new(alloc),
            largest: 0,
            known: Vec::new(alloc),
            lit: false,
            openings: Openings::new(alloc),
        }
    }

    /// Makes the plan of these contacts and ranges, where `largest` is the largest number ever assigned.
    ///
    /// Its time grows with the number of contacts and ranges.
    ///
    /// # Errors
    ///
    /// [`NoMemory`] if an allocation for its tables failed.
    pub fn of_parts(
        alloc: A,
        contacts: Vec<Contact, A>,
        ranges: Vec<Range, A>,
        largest: u32,
    ) -> Result<Plan<A>, NoMemory>
        requires { IsPlan (record { contacts = contacts.items; ranges = ranges.items; largest = largest }) }
        ensures { IfOk result (λ p. p.plan ≡ record { contacts = contacts.items; ranges = ranges.items; largest = largest }) }
    {
        let (table, known) = table_of(alloc, &contacts, &ranges)?;
        Ok(Plan {
            alloc,
            contacts,
            ranges,
            table,
            largest,
            known,
            lit: true,
            openings: Openings::new(alloc),
        })
    }

    /// The standing contacts, by ascending number.
    pub fn contacts(&self) -> &[Contact]
        ensures value { result.now ≡ self.now.plan.contacts }
        ensures rules { IsPlan self.now.plan }
    {
        &self.contacts
    }

    /// States that a plan obeys the rules of contact plans, for proofs. It does nothing at run time.
    pub fn rules_hold(&self)
        ensures { IsPlan self.now.plan }
    {
        self.contacts();
    }

    /// The standing ranges, in ascending order of (one, other, start).
    pub fn ranges(&self) -> &[Range]
        ensures { result.now ≡ self.now.plan.ranges }
    {
        &self.ranges
    }

    /// Puts these ranges in place of the plan's. It doesn't allocate.
    pub fn set_ranges(&mut self, ranges: Vec<Range, A>)
        requires { IsPlan (record { contacts = self.old.plan.contacts; ranges = ranges.items; largest = self.old.plan.largest }) }
        ensures { self.new ≡ record { plan = record { contacts = self.old.plan.contacts; ranges = ranges.items; largest = self.old.plan.largest }; table = self.old.table } }
    {
        self.lit = false;
        self.ranges = ranges;
    }

    /// The largest number ever assigned to a contact, 0 at first.
    pub fn largest(&self) -> u32
        ensures { result ≡ self.now.plan.largest }
    {
        self.largest
    }

    /// Returns the standing contact with this number. `None` if the number was never assigned, or its contact was
    /// deleted.
    ///
    /// It is O(1) if no contact was deleted, and a binary search otherwise.
    pub fn contact(&self, number: u32) -> Option<&Contact>
        ensures { option_copied result ≡ contact_named self.now.plan number }
    {
        contact_of_number(&self.contacts, number)
    }
}
