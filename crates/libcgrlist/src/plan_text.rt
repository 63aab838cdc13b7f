//! The text of a plan, from which reading makes the plan again.

ghost use Rattle.std.specs.Prelude.{◌≡◌, ◌==◌, ◌+◌, ◌≤◌, ◌++◌, ◌∷◌, decimal, IfOk, IsFalse, OnOk, codes};
ghost use Rattle.std.specs.List.{flat_map, list_any, AllByRecursion};
ghost use Rattle.sabr_model.specs.plan.Plan.{IsWindow, last_time};
ghost use Rattle.libcgrlist.specs.Buffers.{GivesNoText, GivesText};
ghost use Rattle.libcgrlist.specs.Open.{Calls, IsValidHandle};
ghost use Rattle.libcgrlist.specs.PlanTexts.{PlanTextsReadBack, addition_line, contacts_text, deletion_line, free_start, gap_text, plan_text, range_line};

use crate::buffers::put_whole;
use crate::handle::{PlanHandle, over_plan};
use crate::status::{CLOSED, MEMORY};
use itoa::Buffer;
use sabr_model::{Contact, NoMemory, Plan, Range};
use sabr_plan::time_text;
use std::alloc::Global;

/// A line that adds a record: its window in seconds since 1970-01-01T00:00:00Z, two nodes, and a contact's rate or a
/// range's light time.
#[derive(Clone, Copy)]
struct Addition {
    start: u64,
    end: u64,
    one: u64,
    other: u64,
    value: u64,
}

/// Appends a space and a word.
fn put_word(text: &mut Vec<u8, Global>, word: &[u8]) -> Result<(), NoMemory>
    ensures { OnOk result (text.new.items ≡ text.old.items ++ (32 ∷ word.now)) }
{
    text.push(b' ')?;
    text.extend_from_slice(word)?;
    Ok(())
}

/// Appends a space and a number.
fn put_number(text: &mut Vec<u8, Global>, number: u64) -> Result<(), NoMemory>
    ensures { OnOk result (text.new.items ≡ text.old.items ++ (32 ∷ decimal number)) }
{
    let mut digits = Buffer::new();
    put_word(text, digits.format(number).as_bytes())
}

/// Appends a line that adds a record of this name.
fn put_addition(
    text: &mut Vec<u8, Global>,
    name: &[u8],
    addition: &Addition,
) -> Result<(), NoMemory>
    requires start { addition.now.start ≤ last_time }
    requires end { addition.now.end ≤ last_time }
    ensures { OnOk result (text.new.items ≡ text.old.items ++ addition_line name.now addition.now.start addition.now.end addition.now.one addition.now.other addition.now.value) }
{
    text.push(b'a')?;
    put_word(text, name)?;
    put_word(text, &time_text(addition.start))?;
    put_word(text, &time_text(addition.end))?;
    put_number(text, addition.one)?;
    put_number(text, addition.other)?;
    put_number(text, addition.value)?;
    text.push(b'\n')?;
    Ok(())
}

/// Appends a line that deletes the contact from node 1 to node 2 with this start.
fn put_deletion(text: &mut Vec<u8, Global>, start: u64) -> Result<(), NoMemory>
    requires { start ≤ last_time }
    ensures { OnOk result (text.new.items ≡ text.old.items ++ deletion_line start 1 2) }
{
    text.push(b'd')?;
    put_word(text, b"contact")?;
    put_word(text, &time_text(start))?;
    put_number(text, 1)?;
    put_number(text, 2)?;
    text.push(b'\n')?;
    Ok(())
}

/// Appends `count` times a line that adds a contact with this start, which gets a number, and one that deletes it.
fn put_gap(text: &mut Vec<u8, Global>, start: u64, count: u32) -> Result<(), NoMemory>
    requires { start + 1 ≤ last_time }
    ensures { OnOk result (text.new.items ≡ text.old.items ++ gap_text start count) }
{
    let addition = Addition {
        start,
        end: start + 1,
        one: 1,
        other: 2,
        value: 0,
    };
    for _number in 0..count {
        put_addition(text, b"contact", &addition)?;
        put_deletion(text, start)?;
    }
    Ok(())
}

/// Appends the line of a contact.
fn put_contact(text: &mut Vec<u8, Global>, contact: &Contact) -> Result<(), NoMemory>
    requires { IsWindow contact.now.start contact.now.end }
    ensures { OnOk result (text.new.items ≡ text.old.items ++ addition_line (codes "contact") contact.now.start contact.now.end contact.now.from contact.now.to contact.now.rate) }
{
    let addition = Addition {
        start: contact.start,
        end: contact.end,
        one: contact.from,
        other: contact.to,
        value: contact.rate,
    };
    put_addition(text, b"contact", &addition)
}

/// Appends the line of a range.
fn put_range(text: &mut Vec<u8, Global>, range: &Range) -> Result<(), NoMemory>
    requires { IsWindow range.now.start range.now.end }
    ensures { OnOk result (text.new.items ≡ text.old.items ++ range_line range.now) }
{
    let addition = Addition {
        start: range.start,
        end: range.end,
        one: range.one,
        other: range.other,
        value: range.light as u64,
    };
    put_addition(text, b"range", &addition)
}

/// Appends the lines of contacts, with those that give the numbers between them, up to the largest.
fn put_contacts(
    text: &mut Vec<u8, Global>,
    contacts: &[Contact],
    start: u64,
    largest: u32,
) -> Result<(), NoMemory>
    requires start { start + 1 ≤ last_time }
    requires windows { AllByRecursion (λ c. IsWindow c.start c.end) contacts.now }
    ensures { OnOk result (text.new.items ≡ text.old.items ++ contacts_text start largest 0 contacts.now) }
{
    let mut low = 0;
    for contact in contacts {
        put_gap(
            text,
            start,
            contact.number.saturating_sub(1).saturating_sub(low),
        )?;
        put_contact(text, contact)?;
        low = contact.number;
    }
    put_gap(text, start, largest.saturating_sub(low))?;
    Ok(())
}

/// Appends the lines of ranges.
fn put_ranges(text: &mut Vec<u8, Global>, ranges: &[Range]) -> Result<(), NoMemory>
    requires { AllByRecursion (λ r. IsWindow r.start r.end) ranges.now }
    ensures { OnOk result (text.new.items ≡ text.old.items ++ flat_map range_line ranges.now) }
{
    for range in ranges {
        put_range(text, range)?;
    }
    Ok(())
}

/// Returns true if a contact starts in this second.
fn has_start(contacts: &[Contact], start: u64) -> bool
    ensures { result ≡ list_any (λ c. start == c.start) contacts.now }
{
    contacts.iter().any(|contact| start == contact.start)
}

/// Returns the first second in which no contact starts.
fn free_start(contacts: &[Contact]) -> u64
    ensures { result ≡ free_start contacts.now }
{
    for place in 0..contacts.len() {
        if !has_start(contacts, place as u64) {
            return place as u64;
        }
    }
    contacts.len() as u64
}

/// Returns the text of a plan.
///
/// # Errors
///
/// [`NoMemory`] if an allocation failed.
fn text_of_plan(alloc: Global, plan: &Plan<Global>) -> Result<Vec<u8, Global>, NoMemory>
    ensures { IfOk result (λ text. text.items ≡ plan_text plan.now.plan) }
{
    let mut text = Vec::new(alloc);
    let start = free_start(plan.contacts());
    put_contacts(&mut text, plan.contacts(), start, plan.largest())?;
    put_ranges(&mut text, plan.ranges())?;
    Ok(text)
}

/// Writes the text of the plan, and gives its length. If there is no room for all of it, none of it is written.
#[unsafe(no_mangle)]
pub extern "C" fn cgrlist_plan_text(
    alloc: Global,
    handle: &mut PlanHandle,
    text: &mut [u8],
    bytes: &mut usize,
) -> u32
    requires { IsValidHandle handle.old }
    ensures text { Calls handle.old handle.new result (λ o n. (n ≡ o) × GivesText (plan_text o.plan.plan) result text.old text.new bytes.old bytes.new) }
    ensures closed { IsFalse handle.old.is_open → GivesNoText text.old text.new bytes.old bytes.new }
{
    let given = over_plan!(handle, alloc, opened => text_of_plan(alloc, opened.plan()));
    match given {
        Ok(given) => {
            *bytes = given.len();
            put_whole(given.as_slice(), text)
        }
        Err(_refused) => MEMORY,
    }
}

/// States that reading the text of a plan, as [`cgrlist_plan_text`] writes it, makes the plan again: its contacts with
/// their numbers, its ranges, and the largest number given.
#[tactic(auto, using(crate::proofs::PlanTextLemmas::reads_back))]
pub fn plan_texts_read_back()
    ensures { PlanTextsReadBack }
{}
