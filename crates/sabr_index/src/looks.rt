//! Counted accesses to the records of contacts (looks), and a record that was accessed.

ghost use Rattle.std.specs.Prelude.{◌≡◌, ◌+◌, ◌<◌, ◌≤◌, min, length, ltb};
ghost use Rattle.sabr_index.specs.Looks.{many_looks, looks_taken};

use crate::link::Pass;
use sabr_model::Plan;
use std::alloc::Allocator;
use std::marker::Model;

/// More looks than a search ever needs.
const MANY_LOOKS: u64 = u64::MAX;

/// The looks that a search may still take. Each use of a contact's record takes one.
///
/// It can't be copied. Only looks that were set aside come back.
#[derive(Drop)]
pub struct Looks {
    left: u64,
}

/// Looks that were set aside.
#[derive(Drop)]
pub struct SetAside {
    count: u64,
}

impl Looks {
    /// Has more looks than a search ever needs.
    pub fn many() -> Looks
        ensures { looks_taken result ≡ 0 }
    {
        Looks { left: MANY_LOOKS }
    }

    /// Has taken one look for each contact of a plan, as making its index does.
    pub fn over<A: Allocator + Copy>(plan: &Plan<A>) -> Looks
        ensures { looks_taken result ≡ length plan.now.plan.contacts }
    {
        Looks {
            left: MANY_LOOKS - plan.contacts().len() as u64,
        }
    }

    /// The number of looks that are left.
    #[inline(always)]
    pub fn left(&self) -> u64
        ensures { result ≡ self.now.left }
    {
        self.left
    }

    /// The number of looks that were taken.
    pub fn taken(&self) -> u64
        ensures { result ≡ looks_taken self.now }
    {
        MANY_LOOKS - self.left
    }

    /// Takes a look.
    #[inline(always)]
    pub fn take(&mut self)
        requires few { 0 < self.old.left }
        ensures counted { self.old.left ≡ self.new.left + 1 }
    {
        self.left -= 1;
    }

    /// Takes a number of looks.
    pub fn take_many(&mut self, count: u64)
        requires few { count ≤ self.old.left }
        ensures counted { self.old.left ≡ self.new.left + count }
        ensures most { self.old.left ≤ many_looks }
    {
        self.left -= count;
    }

    /// Sets looks aside, so that no more than `most` are taken in all.
    pub fn set_aside(&mut self, most: u64) -> SetAside
        requires few { looks_taken self.old ≤ most }
        ensures left { self.old.left ≡ self.new.left + result.count }
        ensures aside { result.count + most ≡ many_looks }
    {
        let count = MANY_LOOKS - most;
        self.take_many(count);
        SetAside { count }
    }

    /// Puts back looks that were set aside.
    pub fn put_back(&mut self, aside: SetAside)
        ensures left { self.new.left ≡ min (self.old.left + aside.count) many_looks }
        ensures aside { aside.count ≤ self.new.left }
    {
        self.left = self.left.saturating_add(aside.count);
    }
}

/// A pass that was looked at: its record may be read as long as this value lives. Contracts see the pass.
#[derive(Drop)]
pub struct Looked<'a> {
    pass: &'a Pass,
}

impl<'a> Model for Looked<'a> {
    ghost use Rattle.sabr_index.specs.declared.link.Pass.{Pass};

    ghost Value = { Pass };

    ghost view = { λ l. l.pass.now };
}

impl Pass {
    /// Looks at the contact's record. Other crates have no other way to it.
    #[inline(always)]
    pub fn look(&self, looks: &mut Looks) -> Looked<'_>
        requires few { 0 < looks.old.left }
        ensures counted { looks.old.left ≡ looks.new.left + 1 }
        ensures same { result ≡ self.now }
    {
        looks.take();
        Looked { pass: self }
    }

    /// Returns true if the contact starts before a second. It takes no look: since the passes of a link are in order
    /// of their starts, it is a bound on all passes from this one on, for a binary search.
    #[inline(always)]
    pub fn begins_before(&self, before: u64) -> bool
        ensures { result ≡ ltb self.now.start before }
    {
        self.start < before
    }
}

impl<'a> Looked<'a> {
    /// The contact's number.
    #[inline(always)]
    pub fn number(&self) -> u32
        ensures { result ≡ self.now.number }
    {
        self.pass.number
    }

    /// The one-way light time in seconds that is in force at its start.
    #[inline(always)]
    pub fn light(&self) -> u32
        ensures { result ≡ self.now.light }
    {
        self.pass.light
    }

    /// The first second at which the contact can be used.
    #[inline(always)]
    pub fn start(&self) -> u64
        ensures { result ≡ self.now.start }
    {
        self.pass.start
    }

    /// The first second at which the contact can no longer be used.
    #[inline(always)]
    pub fn end(&self) -> u64
        ensures { result ≡ self.now.end }
    {
        self.pass.end
    }

    /// The pass, with its bounds.
    #[inline(always)]
    pub fn pass(&self) -> &'a Pass
        ensures { result.now ≡ self.now }
    {
        self.pass
    }
}
