//! The table of nodes: for each node, the numbers of the contacts that it sends.

ghost use Rattle.std.specs.Prelude.{◌≡◌, ℕ, ◌==◌, ◌<◌, ◌≤◌, ◌+◌, true, Some, None, is_some, IsTrue, map, find, not, ◌&&◌, ◌||◌, filter, nat_eq, slice_get, IfOk, OnOk, OnErr, IsOk, length, if◌then◌else◌};
ghost use Rattle.std.specs.Option.{option_map};
ghost use Rattle.indexmap.specs.IndexMap.{IsUnique, get, keys, spare};
ghost use Rattle.std.specs.List.{list_any, AllByRecursion};
ghost use Rattle.sabr_model.specs.plan.Plan.{rises_above, most_records, most_light};
ghost use Rattle.sabr_model.specs.plan.Table.{without_number, list_at, with_number, with_node, with_ends, KeepsPlaces, IsTableOf};
ghost use Rattle.sabr_model.specs.plan.Known.{AreKnown};
ghost use Rattle.sabr_model.specs.plan.RangeOrder.{IsRangeList};

use crate::contact::{Contact, Range};
use crate::plan::guessed_lights::{all_hold_both_ways, guesses_of, light_of_contact_guessed};
use crate::plan::known::Known;
use indexmap::IndexMap;
use std::alloc::{AllocError, Allocator};
use std::hash::{BuildHasherDefault, FoldHasher};

/// The number of guessed indexes, each for the nodes of one remainder. To vary it: `bench/figures.py --counts 1 --only
/// walker-66-20000,grid-40,sparse-20000,cube`.
const GUESSES: usize = 2048;

/// The number of contacts for which a node has room once it sends one. With 4, grid-40 takes 4 percent longer to read.
const ROOM_AT_FIRST: usize = 16;

/// For each node, the numbers of the contacts that it sends, in ascending order.
pub type NodeTable<A> = IndexMap<u64, Vec<u32, A>, BuildHasherDefault<FoldHasher>, A>;

/// Returns true if the node has this index in the table. It computes no hash.
pub fn stands_at<A: Allocator + Copy>(table: &NodeTable<A>, node: u64, place: usize) -> bool
    ensures index { IsTrue result → slice_get (keys table.now) place ≡ Some node }
    ensures found { IsTrue result → IsTrue (is_some (get nat_eq table.now node)) }
{
    match table.get_index(place) {
        Some((key, _)) => *key == node,
        None => false,
    }
}

/// Adds the number after those that the node sends, and returns the node's index.
fn add_number<A: Allocator + Copy>(
    alloc: A,
    table: &mut NodeTable<A>,
    node: u64,
    number: u32,
) -> Result<usize, AllocError>
    requires { IsUnique nat_eq table.old }

    // The node has the number, and each node keeps its index.
    ensures ok { OnOk result ((q : ℕ) → list_at table.new q ≡ with_number (list_at table.old q) (q == node) number) }
    ensures index { IfOk result (λ i. slice_get (keys table.new) i ≡ Some node) }
    ensures places { OnOk result (KeepsPlaces (keys table.old) (keys table.new)) }

    // An error changes no list and no node.
    ensures err { OnErr result ((q : ℕ) → list_at table.new q ≡ list_at table.old q) }
    ensures err_nodes { OnErr result (keys table.new ≡ keys table.old) }

    // Each node is there once, and at most one spare entry is used.
    ensures unique { IsUnique nat_eq table.new }
    ensures room { spare table.old ≤ spare table.new + 1 }
{
    match table.get_index_of(&node) {
        Some(index) => {
            push_number(table, index, number)?;
            Ok(index)
        }
        None => {
            let index = table.len();
            let mut numbers = Vec::with_capacity(alloc, ROOM_AT_FIRST)?;
            numbers.push(number)?;
            table.insert(node, numbers)?;
            Ok(index)
        }
    }
}

/// Adds the number after those that the node at an index sends.
fn push_number<A: Allocator + Copy>(
    table: &mut NodeTable<A>,
    index: usize,
    number: u32,
) -> Result<(), AllocError>
    requires { IsUnique nat_eq table.old }
    ensures ok { OnOk result ((node q : ℕ) → slice_get (keys table.old) index ≡ Some node → list_at table.new q ≡ with_number (list_at table.old q) (q == node) number) }
    ensures err { OnErr result ((node q : ℕ) → slice_get (keys table.old) index ≡ Some node → list_at table.new q ≡ list_at table.old q) }
    ensures nodes { keys table.new ≡ keys table.old }
    ensures unique { IsUnique nat_eq table.new }
    ensures room { spare table.old ≤ spare table.new }
{
    if let Some(numbers) = table.get_index_mut(index) {
        numbers.push(number)?;
    }
    Ok(())
}

/// Makes sure that the node is in the table, and returns its index.
fn add_node<A: Allocator + Copy>(
    alloc: A,
    table: &mut NodeTable<A>,
    node: u64,
) -> Result<usize, AllocError>
    requires { IsUnique nat_eq table.old }

    // The node is there, and each node keeps its index.
    ensures ok { OnOk result ((q : ℕ) → list_at table.new q ≡ with_node (list_at table.old q) (q == node)) }
    ensures index { IfOk result (λ i. slice_get (keys table.new) i ≡ Some node) }
    ensures places { OnOk result (KeepsPlaces (keys table.old) (keys table.new)) }

    // An error changes no list and no node.
    ensures err { OnErr result ((q : ℕ) → list_at table.new q ≡ list_at table.old q) }
    ensures err_nodes { OnErr result (keys table.new ≡ keys table.old) }

    // Each node is there once. With a spare entry it succeeds.
    ensures unique { IsUnique nat_eq table.new }
    ensures succeeds { 0 < spare table.old → IsOk result }
{
    match table.get_index_of(&node) {
        Some(index) => Ok(index),
        None => {
            let index = table.len();
            table.insert(node, Vec::new(alloc))?;
            Ok(index)
        }
    }
}

/// Notes a contact that is to be added after the others, and returns the indexes of its nodes. Unless both are as
/// guessed, each is looked up.
#[inline(always)] // Otherwise a program that also adds contacts takes 5 percent longer to read a plan.
pub fn note_contact<A: Allocator + Copy>(
    alloc: A,
    table: &mut NodeTable<A>,
    contact: &Contact,
    guess: (usize, usize),
) -> Result<(usize, usize), AllocError>
    requires { IsUnique nat_eq table.old }

    // Both nodes are there, and the sender has the number.
    ensures ok { OnOk result ((q : ℕ) → list_at table.new q ≡ with_ends (list_at table.old q) (q == contact.now.from) (q == contact.now.to) contact.now.number) }
    ensures from { IfOk result (λ e. slice_get (keys table.new) e.0 ≡ Some contact.now.from) }
    ensures to { IfOk result (λ e. slice_get (keys table.new) e.1 ≡ Some contact.now.to) }
    ensures places { OnOk result (KeepsPlaces (keys table.old) (keys table.new)) }

    // An error changes no list and no node.
    ensures err { OnErr result ((q : ℕ) → list_at table.new q ≡ list_at table.old q) }
    ensures err_nodes { OnErr result (keys table.new ≡ keys table.old) }
    ensures unique { IsUnique nat_eq table.new }
{
    if stands_at(table, contact.from, guess.0) && stands_at(table, contact.to, guess.1) {
        push_number(table, guess.0, contact.number)?;
        return Ok(guess);
    }
    table.reserve(2)?;
    let from = add_number(alloc, table, contact.from, contact.number)?;
    let to = add_node(alloc, table, contact.to)?;
    Ok((from, to))
}

/// Makes the table of the nodes of contacts in order of number, and what is known of each contact over these ranges.
pub fn table_of<A: Allocator + Copy>(
    alloc: A,
    contacts: &[Contact],
    ranges: &[Range],
) -> Result<(NodeTable<A>, Vec<Known, A>), AllocError>
    requires few { length contacts.now ≤ most_records }
    requires ranges { IsRangeList ranges.now }
    requires limit { AllByRecursion (λ r. r.light ≤ most_light) ranges.now }
    ensures table { IfOk result (λ t. IsTableOf contacts.now t.0) }
    ensures known { IfOk result (λ t. AreKnown (keys t.0) ranges.now true contacts.now t.1.items) }
{
    let mut table = IndexMap::new(alloc);
    let mut known = Vec::new(alloc);
    known.reserve(contacts.len())?;
    let mut guesses = Vec::new(alloc);
    guesses.resize(GUESSES, 0)?;
    let both_ways = all_hold_both_ways(ranges);
    let mut range_guesses = guesses_of(alloc, ranges)?;
    for contact in contacts {
        let slots = (
            contact.from as usize % GUESSES,
            contact.to as usize % GUESSES,
        );
        let guess = (guess_at(&guesses, slots.0), guess_at(&guesses, slots.1));
        let found = note_contact(alloc, &mut table, contact, guess)?;
        if found.0 != guess.0 {
            note_guess(&mut guesses, slots.0, found.0);
        }
        if found.1 != guess.1 {
            note_guess(&mut guesses, slots.1, found.1);
        }
        let light = light_of_contact_guessed(ranges, contact, both_ways, &mut range_guesses);
        known.push_reserved(Known::of(found.0, found.1, light));
    }
    Ok((table, known))
}

/// Returns the guess in a slot.
#[inline(always)]
pub fn guess_at(guesses: &[u16], slot: usize) -> usize {
    match guesses.get(slot) {
        Some(guess) => *guess as usize,
        None => 0,
    }
}

/// Notes an index in a slot, as a guess.
#[inline(always)]
pub fn note_guess(guesses: &mut [u16], slot: usize, index: usize) {
    if slot < guesses.len() {
        guesses[slot] = index.min(u16::MAX as usize) as u16;
    }
}

/// Removes the number from those that the node sends.
fn take_number<A: Allocator + Copy>(table: &mut NodeTable<A>, node: u64, number: u32)
    requires { IsUnique nat_eq table.old }
    ensures nodes { keys table.new ≡ keys table.old }
    ensures lists { (q : ℕ) → list_at table.new q ≡ (if q == node then option_map (filter (λ n. not (n == number))) (list_at table.old q) else list_at table.old q) }
    ensures unique { IsUnique nat_eq table.new }
{
    if let Some(numbers) = table.get_mut(&node) {
        take_out(numbers, number);
    }
}

/// Removes the number from the list.
fn take_out<A: Allocator + Copy>(numbers: &mut Vec<u32, A>, number: u32)
    ensures { numbers.new.items ≡ filter (λ n. not (n == number)) numbers.old.items }
{
    numbers.retain(|n| !(*n == number));
}

/// Removes the node from the table unless it is in use.
fn keep_node<A: Allocator + Copy>(table: &mut NodeTable<A>, node: u64, used: bool)
    requires { IsUnique nat_eq table.old }
    ensures same_nodes { IsTrue used → keys table.new ≡ keys table.old }
    ensures lists { (q : ℕ) → list_at table.new q ≡ (if q == node && not used then None else list_at table.old q) }
    ensures unique { IsUnique nat_eq table.new }
{
    if !used {
        table.swap_remove(&node);
    }
}

/// Returns true if the node sends or receives a contact of another number.
fn is_in_use(contacts: &[Contact], number: u32, node: u64) -> bool
    ensures { result ≡ list_any (λ c. not (c.number == number) && (node == c.from || node == c.to)) contacts.now }
{
    contacts.iter().any(|c| !(c.number == number) && (node == c.from || node == c.to))
}

/// Removes a contact that is to be deleted, and each of its nodes that no other contact has. Returns true if both nodes
/// stay.
pub fn forget_contact<A: Allocator + Copy>(
    table: &mut NodeTable<A>,
    contacts: &[Contact],
    contact: &Contact,
) -> bool
    requires numbered { IsTrue (rises_above 0 (map (λ c. c.number) contacts.now)) }
    requires stands { find (λ c. c.number == contact.now.number) contacts.now ≡ Some contact.now }
    requires table { IsTableOf contacts.now table.old }
    ensures table { IsTableOf (without_number contact.now.number contacts.now) table.new }
    ensures same_nodes { IsTrue result → keys table.new ≡ keys table.old }
{
    take_number(table, contact.from, contact.number);
    let from_used = is_in_use(contacts, contact.number, contact.from);
    keep_node(table, contact.from, from_used);
    let to_used = is_in_use(contacts, contact.number, contact.to);
    keep_node(table, contact.to, to_used);
    from_used & to_used
}
