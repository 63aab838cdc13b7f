//! The contacts that stand, by their openings, for contacts that are chosen to share a bucket of the hash table.

ghost use Rattle.std.specs.Prelude.{◌≡◌, ◌<◌, ◌+◌, IsTrue, OnOk, length};
ghost use Rattle.sabr_model.specs.plan.Plan.{same_opening, none_twice};
ghost use Rattle.sabr_plan.specs.Gathering.{IsFound, IsTreed, standing};

use crate::gathering::duplicate_check::{find_by_pass, stands_at};
use sabr_model::{Contact, Opening};
use std::alloc::{AllocError, Allocator};
use std::collections::BTreeMap;

/// The number of steps along chains, for each contact, after which the tree is made.
const LONG: usize = 4;

/// The indexes of the first contacts, by sender, receiver and start.
#[derive(Drop)]
pub struct OpeningTree<A: Allocator + Copy> {
    /// The number of steps along chains so far.
    walked: usize,
    /// The number of the first contacts. Of these, the tree has each that stands.
    pub treed: usize,
    /// Their indexes, by their openings.
    pub indexes: BTreeMap<(u64, u64, u64), usize, A>,
}

impl<A: Allocator + Copy> OpeningTree<A> {
    /// Makes a tree of no contact. It doesn't allocate.
    pub fn new(alloc: A) -> OpeningTree<A>
        ensures { result.treed ≡ 0 }
    {
        OpeningTree {
            walked: 0,
            treed: 0,
            indexes: BTreeMap::new(alloc),
        }
    }

    /// Returns true if the chains of this number of contacts are so long that the tree is to be used.
    #[inline(always)]
    pub fn is_due(&self, count: usize) -> bool {
        self.walked / LONG > count
    }

    /// Counts steps along chains.
    #[inline(always)]
    pub fn count(&mut self, walked: usize)
        ensures treed { self.new.treed ≡ self.old.treed }
        ensures indexes { self.new.indexes ≡ self.old.indexes }
    {
        self.walked = self.walked.wrapping_add(walked);
    }

    /// Adds the contacts that stand and aren't in the tree.
    pub fn add_all(&mut self, contacts: &[Contact]) -> Result<(), AllocError>
        requires treed { IsTreed self.old.indexes self.old.treed contacts.now }
        requires apart { IsTrue (none_twice same_opening (standing contacts.now)) }
        ensures treed { IsTreed self.new.indexes self.new.treed contacts.now }
        ensures all { OnOk result (self.new.treed ≡ length contacts.now) }
    {
        while self.treed < contacts.len() {
            let index = self.treed;
            let contact = contacts[index];
            if contact.start < contact.end {
                let opening = (contact.from, contact.to, contact.start);
                let Ok(_) = self.indexes.insert(opening, index) else {
                    return Err(AllocError);
                };
            }
            self.treed = index + 1;
        }
        Ok(())
    }

    /// Returns the index of the contact that stands and has this opening, or `None`. It is a pass over the contacts if
    /// an allocation for the tree fails.
    #[tactic(auto, using(crate::proofs::GatheredOpenings::by_pass, crate::proofs::GatheredOpenings::found_at))]
    #[cold]
    #[inline(never)]
    pub fn find(&mut self, contacts: &[Contact], opening: &Opening) -> Option<usize>
        requires treed { IsTreed self.old.indexes self.old.treed contacts.now }
        requires apart { IsTrue (none_twice same_opening (standing contacts.now)) }
        ensures found { IsFound opening.now contacts.now result }
        ensures treed { IsTreed self.new.indexes self.new.treed contacts.now }
    {
        let Ok(()) = self.add_all(contacts) else {
            return find_by_pass(contacts, opening);
        };
        let Some(index) = self.indexes.get(&(opening.from, opening.to, opening.start)) else {
            return None;
        };
        let index = *index;
        if index < contacts.len() && stands_at(&contacts[index], opening) {
            return Some(index);
        }
        None
    }
}
