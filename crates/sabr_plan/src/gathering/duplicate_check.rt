//! What tells whether a contact has the opening of one that came before it. A contact whose opening is the largest so
//! far needs no search.

ghost use Rattle.std.specs.Prelude.{◌≡◌, ◌<◌, ◌≤◌, [], IsTrue, length, map};
ghost use Rattle.std.specs.List.{list_any, position};
ghost use Rattle.sabr_plan.specs.Gathering.{AreChained, opening_bucket, opening_buckets, contact_bucket, stands_at, OpenBy, KnowsSome, IsFound, IsTreed, standing};
ghost use Rattle.sabr_model.specs.plan.Plan.{same_opening, none_twice};

use crate::gathering::chains::Chains;
use crate::gathering::opening_tree::OpeningTree;
use sabr_model::{Contact, Opening};
use std::alloc::Allocator;

/// The number of buckets. A chain of the largest plan has five contacts. With 8192, plans of 448 and 1833 contacts take
/// 4 and 2 percent more instructions for one route, and four of 17000 to 20000 contacts 0.3 to 0.8 percent fewer; with
/// 2048, the small ones take 2 and 1 percent fewer, and the large ones 1 to 2 percent more. To vary it:
/// `bench/figures.py --counts 1 --only grid-8,dense-20,relay-moon-20000,walker-24-20000,dense-60,line-19998`.
const BUCKETS: usize = 4096;

/// The largest opening of contacts, by start, sender and receiver, and a hash table of the first contacts.
///
/// While each contact opens after those before it, the table is empty. From the first that doesn't, all contacts are in
/// the table.
#[derive(Drop)]
pub struct DuplicateCheck<A: Allocator + Copy> {
    /// The hash table of the first contacts, by their openings.
    pub chains: Chains<A>,
    /// A tree of the first contacts, made when the walks along chains took long.
    pub tree: OpeningTree<A>,
    /// Whether each contact so far opens after those before it.
    pub in_order: bool,
    /// If so, no contact opens after it.
    pub last: Opening,
}

impl<A: Allocator + Copy> DuplicateCheck<A> {
    /// Makes a value for no contact. It doesn't allocate.
    pub fn new(alloc: A) -> DuplicateCheck<A>
        ensures lasts { result.chains.lasts.items ≡ [] }
        ensures befores { result.chains.befores.items ≡ [] }
        ensures treed { result.tree.treed ≡ 0 }
    {
        DuplicateCheck {
            chains: Chains::new(alloc),
            tree: OpeningTree::new(alloc),
            in_order: true,
            last: Opening {
                from: 0,
                to: 0,
                start: 0,
            },
        }
    }

    /// Returns true if one of these contacts stands and has this opening, that of a contact that is to come after them.
    #[tactic(auto, using(crate::proofs::GatheredOpenings::after_all, crate::proofs::GatheredOpenings::later_opening, crate::proofs::GatheredOpenings::found_any))]
    #[inline(always)]
    pub fn has(&mut self, contacts: &[Contact], opening: Opening) -> bool
        requires knows { KnowsSome self.old.chains.befores.items self.old.chains.lasts.items self.old.in_order self.old.last contacts.now }
        requires treed { IsTreed self.old.tree.indexes self.old.tree.treed contacts.now }
        requires apart { IsTrue (none_twice same_opening (standing contacts.now)) }
        ensures value { result ≡ list_any (stands_at opening) contacts.now }
        ensures knows { KnowsSome self.new.chains.befores.items self.new.chains.lasts.items self.new.in_order self.new.last contacts.now }
        ensures treed { IsTreed self.new.tree.indexes self.new.tree.treed contacts.now }
        ensures rises { IsTrue self.new.in_order → OpenBy opening contacts.now }
    {
        let last = self.last;
        if self.in_order
            && (opening.start, opening.from, opening.to) > (last.start, last.from, last.to)
        {
            return false;
        }
        self.in_order = false;
        // A copy, so that an opening that comes last stays in registers.
        let late = opening;
        find_standing(&mut self.chains, &mut self.tree, contacts, &late).is_some()
    }
}

/// Returns the index of the contact that stands and has this opening, or `None`. It is O(1) on average with all
/// contacts in the hash table, O(log n) with all in the tree, and a pass over them if an allocation for these fails.
#[tactic(auto, using(crate::proofs::GatheredOpenings::by_pass))]
#[cold]
#[inline(never)]
pub fn find_standing<A: Allocator + Copy>(
    chains: &mut Chains<A>,
    tree: &mut OpeningTree<A>,
    contacts: &[Contact],
    opening: &Opening,
) -> Option<usize>
    requires chained { AreChained (map contact_bucket contacts.now) chains.old.befores.items chains.old.lasts.items }
    requires treed { IsTreed tree.old.indexes tree.old.treed contacts.now }
    requires apart { IsTrue (none_twice same_opening (standing contacts.now)) }
    ensures found { IsFound opening.now contacts.now result }
    ensures chained { AreChained (map contact_bucket contacts.now) chains.new.befores.items chains.new.lasts.items }
    ensures treed { IsTreed tree.new.indexes tree.new.treed contacts.now }
{
    if tree.is_due(contacts.len()) {
        return tree.find(contacts, opening);
    }
    let chained = chains.add_all(BUCKETS, contacts, |c| bucket_of(c.from, c.to, c.start));
    let Ok(()) = chained else {
        return find_by_pass(contacts, opening);
    };
    let (found, walked) = find_in_chain(contacts, &chains.befores, &chains.lasts, opening);
    tree.count(walked);
    found
}

/// Returns true if the contact stands and has this opening.
pub fn stands_at(contact: &Contact, opening: &Opening) -> bool
    ensures { result ≡ stands_at opening.now contact.now }
{
    contact.opens(opening.from, opening.to, opening.start) && contact.start < contact.end
}

/// The bucket of an opening.
fn bucket_of(from: u64, to: u64, start: u64) -> usize
    ensures value { result ≡ opening_bucket (record { from = from; to = to; start = start }) }
    ensures limit { result < opening_buckets }
{
    let from = from.wrapping_mul(11_400_714_819_323_198_485);
    let to = to.wrapping_mul(14_029_467_366_897_019_727);
    let start = start.wrapping_mul(1_609_587_929_392_839_161);
    let mixed = from.wrapping_add(to).wrapping_add(start);
    ((mixed >> 44) % BUCKETS as u64) as usize
}

/// Returns the index of the contact that stands and has this opening, or `None`, and the number of steps along a chain.
/// All contacts are in the hash table.
#[inline(always)]
fn find_in_chain(
    contacts: &[Contact],
    befores: &[usize],
    lasts: &[usize],
    opening: &Opening,
) -> (Option<usize>, usize)
    requires sized { opening_buckets ≤ length lasts.now }
    requires chained { AreChained (map contact_bucket contacts.now) befores.now lasts.now }
    requires all { length befores.now ≡ length contacts.now }
    ensures { IsFound opening.now contacts.now result.0 }
{
    let mut walked = 0usize;
    let mut at = lasts[bucket_of(opening.from, opening.to, opening.start)];
    while at > 0 {
        if stands_at(&contacts[at - 1], opening) {
            return (Some(at - 1), walked);
        }
        at = befores[at - 1];
        walked = walked.wrapping_add(1);
    }
    (None, walked)
}

/// Returns the index of the contact that stands and has this opening, or `None`. It is a pass over the contacts.
pub fn find_by_pass(contacts: &[Contact], opening: &Opening) -> Option<usize>
    ensures { result ≡ position (stands_at opening.now) contacts.now }
{
    contacts.iter().position(|c| stands_at(c, opening))
}
