//! What a plan knows of each contact: the indexes of its nodes in the table, and its light time.

ghost use Rattle.std.specs.Prelude.{◌≡◌, ℕ, ◌<◌, ◌≤◌, ◌^◌, Some, IfSome, IsTrue, length, remove, slice_get, slice_index_or};
ghost use Rattle.indexmap.specs.IndexMap.{keys};
ghost use Rattle.sabr_model.specs.plan.Plan.{has, most_records, most_light};
ghost use Rattle.sabr_model.specs.plan.Table.{IsTableOf};
ghost use Rattle.sabr_model.specs.plan.Known.{AreEnds, light_of_word};

use super::Plan;
use crate::contact::Contact;
use crate::node_table::{NodeTable, stands_at};
use std::alloc::Allocator;

/// The number that means "no light time". It is above the largest light time.
const NO_LIGHT: u32 = u32::MAX;

/// The indexes of a contact's sender and receiver in the table of nodes, which has at most 40000 nodes, and its light
/// time in seconds, or [`NO_LIGHT`].
#[derive(Clone, Copy)]
pub struct Known {
    pub from: u16,
    pub to: u16,
    pub light: u32,
}

impl Known {
    /// Makes what is known of a contact.
    #[inline(always)]
    pub(crate) fn of(from: usize, to: usize, light: Option<u32>) -> Known
        requires from { from < 2 ^ 16 }
        requires to { to < 2 ^ 16 }
        requires light { IfSome light (λ l. l ≤ most_light) }
        ensures from { result.from ≡ from }
        ensures to { result.to ≡ to }
        ensures light { light_of_word result.light ≡ light }
    {
        Known {
            from: from as u16,
            to: to as u16,
            light: light.unwrap_or(NO_LIGHT),
        }
    }

    /// The light time.
    #[inline(always)]
    pub(super) fn light_time(&self) -> Option<u32>
        ensures { result ≡ light_of_word self.now.light }
    {
        if self.light == NO_LIGHT {
            None
        } else {
            Some(self.light)
        }
    }
}

impl<A: Allocator + Copy> Plan<A> {
    /// What is known of each contact, by number.
    pub fn known(&self) -> &[Known]
        ensures { AreEnds self.now.table self.now.plan.contacts result.now }
    {
        &self.known
    }
}

/// Looks up each node that no longer has its index in the table.
fn renew_known<A: Allocator + Copy>(
    table: &NodeTable<A>,
    contacts: &[Contact],
    known: &mut Vec<Known, A>,
)
    requires table { IsTableOf contacts.now table.now }
    requires few { length contacts.now ≤ most_records }
    requires as_many { length known.old.items ≡ length contacts.now }
    ensures ends { AreEnds (keys table.now) contacts.now known.new.items }
    ensures lights { (k : ℕ) (e : Known) → (slice_index_or known.new.items k e).light ≡ (slice_index_or known.old.items k e).light }
{
    for place in 0..contacts.len() {
        let contact = contacts[place];
        let old = known[place];
        let from = index_of(table, contact.from, old.from as usize);
        let to = index_of(table, contact.to, old.to as usize);
        let ends = Known::of(from, to, None);
        known[place] = Known {
            from: ends.from,
            to: ends.to,
            light: old.light,
        };
    }
}

/// Removes what is known of a contact that was deleted. If one of its nodes is no longer in the table, another node may
/// have its index, and the indexes of all are renewed.
pub fn remove_known<A: Allocator + Copy>(
    table: &NodeTable<A>,
    contacts: &[Contact],
    known: &mut Vec<Known, A>,
    place: usize,
    same_nodes: bool,
)
    requires table { IsTableOf contacts.now table.now }
    requires few { length contacts.now ≤ most_records }
    requires place { place < length known.old.items }
    requires as_many { length (remove known.old.items place) ≡ length contacts.now }
    requires same_nodes { IsTrue same_nodes → AreEnds (keys table.now) contacts.now (remove known.old.items place) }
    ensures ends { AreEnds (keys table.now) contacts.now known.new.items }
    ensures lights { (k : ℕ) (e : Known) → (slice_index_or known.new.items k e).light ≡ (slice_index_or (remove known.old.items place) k e).light }
{
    known.remove(place);
    if !same_nodes {
        renew_known(table, contacts, known);
    }
}

/// Returns the index of a node of the table. It computes a hash unless the guess is right.
fn index_of<A: Allocator + Copy>(table: &NodeTable<A>, node: u64, guess: usize) -> usize
    requires { IsTrue (has node (keys table.now)) }
    ensures { slice_get (keys table.now) result ≡ Some node }
{
    if stands_at(table, node, guess) {
        return guess;
    }
    table.get_index_of(&node).unwrap_or(0)
}
