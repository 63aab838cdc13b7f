//! Light times of one contact after another, for which ranges are guessed before they are searched.

ghost use Rattle.std.specs.Prelude.{◌≡◌, [], IfSome, Some, IsTrue};
ghost use Rattle.std.specs.List.{list_all};
ghost use Rattle.sabr_model.specs.plan.Light.{light_of, light_of_pair, holds_both_ways};
ghost use Rattle.sabr_model.specs.plan.RangeOrder.{IsRangeList};

use super::ranges::{light_of_range, light_until, ranges_until};
use crate::contact::{Contact, Range};
use crate::node_table::{guess_at, note_guess};
use std::alloc::{AllocError, Allocator};

/// The number of slots with guesses for each range. With 8, relay-moon-20000 has some 2300 wrong guesses, each of which
/// costs a binary search. To vary it and the next: `bench/figures.py --counts 1 --only relay-moon-20000,cube`.
const SLOTS_OF_RANGE: usize = 16;

/// The largest number of ranges for which slots are made. More ranges share these slots. With half as many slots, cube
/// has 990 more wrong guesses.
const MAX_RANGES: usize = 4096;

/// Returns for each pair of nodes the index of its first range, as a guess. Pairs may share a slot.
pub fn guesses_of<A: Allocator + Copy>(
    alloc: A,
    ranges: &[Range],
) -> Result<Vec<u16, A>, AllocError> {
    let mut guesses = Vec::new(alloc);
    let slots = (ranges.len().min(MAX_RANGES) * SLOTS_OF_RANGE).next_power_of_two();
    guesses.resize(slots, 0)?;
    for after in 0..ranges.len() {
        let place = ranges.len() - 1 - after;
        let slot = slot_of(&guesses, ranges[place].one, ranges[place].other);
        note_guess(&mut guesses, slot, place);
    }
    Ok(guesses)
}

/// The slot of an ordered pair; the number of slots is a power of two.
#[inline(always)]
fn slot_of(guesses: &[u16], one: u64, other: u64) -> usize {
    one.wrapping_mul(509).wrapping_add(other) as usize & guesses.len().saturating_sub(1)
}

/// Returns true if each range is written from the smaller node, so that it holds both ways.
pub fn all_hold_both_ways(ranges: &[Range]) -> bool
    ensures { result ≡ list_all holds_both_ways ranges.now }
{
    ranges.iter().all(|r| r.one < r.other)
}

/// Returns the light time that these ranges state for a contact. `both_ways` means that each is written from the smaller
/// node. The pair's first range is guessed first, and then the range of the pair's last contact. It takes a few steps
/// for a contact whose range is the guessed one or the one after it, and one or two binary searches for others.
pub fn light_of_contact_guessed(
    ranges: &[Range],
    contact: &Contact,
    both_ways: bool,
    guesses: &mut [u16],
) -> Option<u32>
    requires ranges { IsRangeList ranges.now }
    requires both_ways { IsTrue both_ways → IsTrue (list_all holds_both_ways ranges.now) }
    ensures { result ≡ light_of (record { contacts = []; ranges = ranges.now; largest = 0 }) contact.now }
{
    let (from, to, start) = (contact.from, contact.to, contact.start);
    if from <= to {
        return light_guessed(ranges, from, to, start, guesses);
    }
    if !both_ways {
        let light = light_guessed(ranges, from, to, start, guesses);
        if light.is_some() {
            return light;
        }
    }
    light_guessed(ranges, to, from, start, guesses)
}

/// Returns the light time of the range of this ordered pair that is in force at `t`. The index of the range is guessed
/// for the pair, which may share its slot with others. A wrong guess costs a binary search.
#[inline(always)]
fn light_guessed(ranges: &[Range], one: u64, other: u64, t: u64, guesses: &mut [u16]) -> Option<u32>
    requires { IsRangeList ranges.now }
    ensures { result ≡ light_of_pair ranges.now one other t }
{
    let slot = slot_of(guesses, one, other);
    let guess = guess_at(guesses, slot);
    let light = light_at(ranges, guess, one, other, t);
    if light.is_some() {
        return light;
    }
    let (light, place) = light_searched(ranges, one, other, t, guess.saturating_add(1));
    note_guess(guesses, slot, place);
    light
}

/// Returns the light time of the range of this ordered pair that is in force at `t`. The range at a guessed index is
/// tried first. Also returns the index where a later light time of the pair may be found.
fn light_searched(
    ranges: &[Range],
    one: u64,
    other: u64,
    t: u64,
    place: usize,
) -> (Option<u32>, usize)
    requires { IsRangeList ranges.now }
    ensures { result.0 ≡ light_of_pair ranges.now one other t }
{
    let light = light_at(ranges, place, one, other, t);
    if light.is_some() {
        return (light, place);
    }
    let count = ranges_until(ranges, (one, other, t));
    (
        light_until(ranges, count, one, other, t),
        count.saturating_sub(1),
    )
}

/// Returns the light time of the range at an index, if it is of this ordered pair and in force at `t`.
#[inline(always)]
fn light_at(ranges: &[Range], place: usize, one: u64, other: u64, t: u64) -> Option<u32>
    requires { IsRangeList ranges.now }
    ensures { IfSome result (λ l. light_of_pair ranges.now one other t ≡ Some l) }
{
    light_of_range(ranges.get(place)?, one, other, t)
}
