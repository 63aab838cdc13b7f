//! What stands behind an open handle.

ghost use Rattle.std.specs.Prelude.{◌≡◌, None, Some, IfOk, IfSome, OnOk, OnErr, is_some};
ghost use Rattle.std.specs.Option.{option_map};
ghost use Rattle.sabr_plan.specs.Canonical.{digest_of};
ghost use Rattle.sabr_frontier.specs.session.Paused.{IsPausedOver};
ghost use Rattle.libcgrlist.specs.Listings.{IsPlaceIn};
ghost use Rattle.sabr_plan.specs.WithoutLight.{contacts_without_light};
ghost use Rattle.libcgrlist.specs.Opened.{OpenPlan, listing_of, listing_over};

use crate::listing::ListingPlace;
use sabr_frontier::{PausedSession, Session};
use sabr_index::{Index, PlanLinks};
use sabr_model::{AddFault, NoMemory, Plan, Range};
use sabr_plan::{contacts_without_light, digest};
use sabr_search::Settled;
use std::alloc::Global;
use std::marker::Model;

/// A listing that waits for its next call.
pub type Paused = PausedSession<Settled<Global>, Global>;

/// A plan, the listing over it if one is open, and what was made for the plan and serves until it changes.
#[derive(Drop)]
pub struct Opened {
    /// The plan.
    plan: Plan<Global>,
    /// The plan's links.
    links: Option<PlanLinks<Global>>,
    /// The listing.
    listing: Option<Paused>,
    /// The plan's digest.
    digest: Option<[u8; 32]>,
    /// The number of the contacts that have no light time at their start.
    without_light: Option<usize>,
}

impl Model for Opened {
    ghost use Rattle.std.specs.Prelude.{◌≡◌, IfSome};
    ghost use Rattle.std.specs.Option.{option_map};
    ghost use Rattle.sabr_plan.specs.Canonical.{digest_of};
    ghost use Rattle.sabr_frontier.specs.session.Paused.{IsPausedOver};
    ghost use Rattle.sabr_index.specs.Index.{AreLinksOfPlan};
    ghost use Rattle.sabr_plan.specs.WithoutLight.{contacts_without_light};
    ghost use Rattle.libcgrlist.specs.Opened.{OpenPlan, listing_over};

    ghost Value = { OpenPlan };

    ghost view = { λ o. record { plan = o.plan; listing = option_map (listing_over o.plan) o.listing } };

    ghost invariant = { λ o. IfSome o.links (AreLinksOfPlan o.plan) × IfSome o.listing (IsPausedOver o.plan) × IfSome o.digest (λ d. d ≡ digest_of o.plan.plan) × IfSome o.without_light (λ n. n ≡ contacts_without_light o.plan.plan) };
}

impl Opened {
    /// Opens a plan, with no listing.
    pub fn of(plan: Plan<Global>) -> Opened
        ensures { result ≡ record { plan = plan; listing = None } }
    {
        Opened {
            plan,
            links: None,
            listing: None,
            digest: None,
            without_light: None,
        }
    }

    /// Returns a copy of the plan, with its digest and its counts if they were made, and with no listing.
    ///
    /// # Errors
    ///
    /// [`NoMemory`] if an allocation failed.
    pub fn copied(&self, alloc: Global) -> Result<Opened, NoMemory>
        ensures plan { IfOk result (λ copy. copy.plan.plan ≡ self.now.plan.plan) }
        ensures alone { IfOk result (λ copy. copy.listing ≡ None) }
    {
        let plan = copy_of(alloc, &self.plan)?;
        Ok(Opened {
            plan,
            links: None,
            listing: None,
            digest: self.digest,
            without_light: self.without_light,
        })
    }

    /// The plan.
    pub fn plan(&self) -> &Plan<Global>
        ensures { result.now ≡ self.now.plan }
    {
        &self.plan
    }

    /// Returns true if a listing is open.
    pub fn has_listing(&self) -> bool
        ensures { result ≡ is_some self.now.listing }
    {
        self.listing.is_some()
    }

    /// Returns where the listing stands, if one is open.
    pub fn place(&self) -> Option<ListingPlace>
        ensures { IsPlaceIn self.now.listing result }
    {
        match &self.listing {
            Some(paused) => {
                let given = paused.emitted() as u64;
                let more = paused.more();
                let can_back = paused.can_back();
                Some(ListingPlace {
                    given,
                    more,
                    can_back,
                })
            }
            None => None,
        }
    }

    /// Makes the plan's links, and keeps them, unless it has them.
    ///
    /// # Errors
    ///
    /// [`NoMemory`] if an allocation failed.
    pub fn link(&mut self, alloc: Global) -> Result<(), NoMemory>
        ensures { self.new ≡ self.old }
    {
        if self.links.is_none() {
            let links = PlanLinks::new(alloc, &self.plan)?;
            self.links = Some(links);
        }
        Ok(())
    }

    /// The plan's index, over the links that are kept. If none are, it has links of its own.
    ///
    /// # Errors
    ///
    /// [`NoMemory`] if no links are kept, and an allocation failed.
    pub fn index(&self, alloc: Global) -> Result<Index<'_, Global>, NoMemory>
        ensures { IfOk result (λ index. index ≡ self.now.plan) }
    {
        match &self.links {
            Some(links) => Ok(Index::over(&self.plan, links)),
            None => Index::new(alloc, &self.plan),
        }
    }

    /// Takes out the listing: none is open then.
    pub fn take_listing(&mut self) -> Option<Paused>
        ensures paused { IfSome result (IsPausedOver self.old.plan) }
        ensures taken { option_map (listing_over self.old.plan) result ≡ self.old.listing }
        ensures left { self.new ≡ record self.old { listing = None } }
    {
        self.listing.take()
    }

    /// Opens a listing, in place of any other.
    pub fn keep_listing(&mut self, listing: Paused)
        requires { IsPausedOver self.old.plan listing }
        ensures { self.new ≡ record self.old { listing = Some (listing_over self.old.plan listing) } }
    {
        self.listing = Some(listing);
    }

    /// The plan's digest, which is made once.
    pub fn digest(&mut self) -> [u8; 32]
        ensures digest { result ≡ digest_of self.old.plan.plan }
        ensures same { self.new ≡ self.old }
    {
        if let Some(made) = self.digest {
            return made;
        }
        let made = digest(&self.plan);
        self.digest = Some(made);
        made
    }

    /// The number of the contacts that have no light time at their start, which are counted once.
    pub fn without_light(&mut self) -> usize
        ensures count { result ≡ contacts_without_light self.old.plan.plan }
        ensures same { self.new ≡ self.old }
    {
        if let Some(counted) = self.without_light {
            return counted;
        }
        let counted = contacts_without_light(&self.plan);
        self.without_light = Some(counted);
        counted
    }

    /// Makes what serves until the plan changes: its links, its digest and its counts.
    ///
    /// # Errors
    ///
    /// [`NoMemory`] if an allocation failed.
    pub fn prepare(&mut self, alloc: Global) -> Result<(), NoMemory>
        ensures { self.new ≡ self.old }
    {
        self.digest();
        self.without_light();
        self.link(alloc)
    }
}

/// Returns a copy of a plan.
pub fn copy_of(alloc: Global, plan: &Plan<Global>) -> Result<Plan<Global>, NoMemory>
    ensures { IfOk result (λ copy. copy.plan ≡ plan.now.plan) }
{
    let contacts = Vec::from_slice(alloc, plan.contacts())?;
    let ranges = Vec::from_slice(alloc, plan.ranges())?;
    let copy = Plan::of_parts(alloc, contacts, ranges, plan.largest())?;
    Ok(copy)
}

/// Pauses the session of a listing.
pub fn paused(session: Session<'_, Settled<Global>, Global>) -> Paused
    ensures paused { IsPausedOver session.entry.plan result }
    ensures listing { listing_over session.entry.plan result ≡ listing_of session.entry }
{
    session.pause()
}

/// A contact to add: its sender and receiver, its window in seconds since 1970-01-01T00:00:00Z, and its rate in bytes a
/// second.
#[repr(C)]
#[derive(Clone, Copy)]
pub struct NewContact {
    pub from: u64,
    pub to: u64,
    pub start: u64,
    pub end: u64,
    pub rate: u64,
}

/// The changes of the plan, while no listing is open. Each forgets what was made for the plan before. After an error
/// the plan is as it was.
impl Opened {
    ghost use Rattle.std.specs.Prelude.{◌≡◌, ◌+◌, ◌<◌, ◌≤◌, ◌↔◌, None, Some, Err, IfOk, IfErr, IsOk, OnOk, OnErr, IsFalse, IsOkUnless, IsTrue, is_some, ok_or};
    ghost use Rattle.std.specs.List.{list_any};
    ghost use Rattle.sabr_model.specs.plan.Plan.{IsPlan, last_time, most_light};
    ghost use Rattle.sabr_model.specs.declared.fault.AddFault.{AddFault};
    ghost use Rattle.sabr_model.specs.declared.fault.AddFault.TheVariants as fault;
    ghost use Rattle.sabr_model.specs.plan.Adding.{begins, next_contact, contact_refusal, with_contact, range_refusal, with_range, number_of_opening, without_contact, without_range};
    ghost use Rattle.libcgrlist.specs.Changes.{Becomes};
    ghost use Rattle.libcgrlist.specs.Held.{with_ranges};

    /// Adds a contact, and returns its number.
    ///
    /// # Errors
    ///
    /// Those of [`Plan::add_contact`].
    pub fn add_contact(&mut self, new: &NewContact) -> Result<u32, AddFault>
        requires listing { IsFalse (is_some self.old.listing) }
        requires from { 0 < new.now.from }
        requires to { 0 < new.now.to }
        requires end { new.now.end ≤ last_time }
        ensures refused { (f : AddFault) → contact_refusal self.old.plan.plan new.now.from new.now.to new.now.start new.now.end ≡ Some f → result ≡ Err f }
        ensures accepted { contact_refusal self.old.plan.plan new.now.from new.now.to new.now.start new.now.end ≡ None → IsOkUnless result fault.NoMemory }
        ensures number { IfOk result (λ n. n ≡ self.old.plan.plan.largest + 1) }
        ensures ok { OnOk result (Becomes self.old (with_contact self.old.plan.plan (next_contact self.old.plan.plan new.now.from new.now.to new.now.start new.now.end new.now.rate)) self.new) }
        ensures err { OnErr result (self.new ≡ self.old) }
    {
        let number = self
            .plan
            .add_contact(new.from, new.to, new.start, new.end, new.rate)?;
        self.links = None;
        self.digest = None;
        self.without_light = None;
        Ok(number)
    }

    /// Adds a range.
    ///
    /// # Errors
    ///
    /// Those of [`Plan::add_range`].
    pub fn add_range(&mut self, new: &Range) -> Result<(), AddFault>
        requires listing { IsFalse (is_some self.old.listing) }
        requires one { 0 < new.now.one }
        requires other { 0 < new.now.other }
        requires end { new.now.end ≤ last_time }
        requires light { new.now.light ≤ most_light }
        ensures refused { (f : AddFault) → range_refusal self.old.plan.plan new.now ≡ Some f → result ≡ Err f }
        ensures accepted { range_refusal self.old.plan.plan new.now ≡ None → IsOkUnless result fault.NoMemory }
        ensures ok { OnOk result (Becomes self.old (with_range self.old.plan.plan new.now) self.new) }
        ensures err { OnErr result (self.new ≡ self.old) }
    {
        match self
            .plan
            .add_range(new.one, new.other, new.start, new.end, new.light)
        {
            Ok(()) => {
                self.links = None;
                self.digest = None;
                self.without_light = None;
                Ok(())
            }
            Err(fault) => Err(fault),
        }
    }

    /// Deletes the contact with this sender, receiver and start, and returns its number.
    ///
    /// # Errors
    ///
    /// Those of [`Plan::delete_contact`].
    pub fn delete_contact(&mut self, from: u64, to: u64, start: u64) -> Result<u32, AddFault>
        requires listing { IsFalse (is_some self.old.listing) }
        ensures value { result ≡ ok_or (number_of_opening self.old.plan.plan from to start) fault.NothingToDelete }
        ensures ok { OnOk result (Becomes self.old (without_contact self.old.plan.plan from to start) self.new) }
        ensures err { OnErr result (self.new ≡ self.old) }
    {
        let number = self.plan.delete_contact(from, to, start)?;
        self.links = None;
        self.digest = None;
        self.without_light = None;
        Ok(number)
    }

    /// Deletes the range of this ordered pair with this start.
    ///
    /// # Errors
    ///
    /// Those of [`Plan::delete_range`].
    pub fn delete_range(&mut self, one: u64, other: u64, start: u64) -> Result<(), AddFault>
        requires listing { IsFalse (is_some self.old.listing) }
        ensures deleted { IsOk result ↔ IsTrue (list_any (begins one other start) self.old.plan.plan.ranges) }
        ensures fault { IfErr result (λ e. e ≡ fault.NothingToDelete) }
        ensures ok { OnOk result (Becomes self.old (without_range self.old.plan.plan one other start) self.new) }
        ensures err { OnErr result (self.new ≡ self.old) }
    {
        self.plan.delete_range(one, other, start)?;
        self.links = None;
        self.digest = None;
        self.without_light = None;
        Ok(())
    }

    /// Puts these ranges in place of the plan's. It doesn't allocate.
    pub fn set_ranges(&mut self, ranges: Vec<Range, Global>)
        requires listing { IsFalse (is_some self.old.listing) }
        requires rules { IsPlan (record { contacts = self.old.plan.plan.contacts; ranges = ranges.items; largest = self.old.plan.plan.largest }) }
        ensures { self.new ≡ with_ranges (Some ranges.items) self.old }
    {
        self.plan.set_ranges(ranges);
        self.links = None;
        self.digest = None;
        self.without_light = None;
    }

    /// Puts another plan in place of this one.
    pub fn replace_plan(&mut self, plan: Plan<Global>)
        requires { IsFalse (is_some self.old.listing) }
        ensures { Becomes self.old plan.plan self.new }
    {
        self.plan = plan;
        self.links = None;
        self.digest = None;
        self.without_light = None;
    }
}
