//! A search in a list of numbers that begins where the last one ended.

ghost use Rattle.std.specs.Prelude.{◌≡◌, ◌↔◌, ℕ, ◌+◌, ◌<◌, ◌≤◌, Contains, IsTrue, true, false};
ghost use Rattle.std.specs.List.Sorted.{IsNonDecreasing, IsStrictlyIncreasing};
ghost use Rattle.sabr_model.specs.plan.Plan.{has};

use crate::part::Excluded;

/// Where the next number is looked for first. It may be anywhere: the answer rests on what is compared.
#[derive(Clone, Copy)]
pub struct Finger {
    place: usize,
}

impl Finger {
    /// Starts at the front of the list.
    pub fn new() -> Finger {
        Finger { place: 0 }
    }

    /// Returns how many consecutive numbers from this one on are in the list: 0 if this one isn't, else at least half
    /// of them. At most `after` more are asked for. If the list isn't known to increase, only this number is
    /// looked for.
    #[inline(always)]
    pub fn counts(&mut self, excluded: Excluded<'_>, number: u32, after: u32) -> usize
        ensures none { result ≡ 0 → has number excluded.entry.numbers.now ≡ false }
        ensures some { (j : ℕ) → j < result → has (number + j) excluded.entry.numbers.now ≡ true }
        ensures limit { result ≤ after + 1 }
    {
        let numbers = excluded.numbers;
        let in_order = excluded.in_order;
        if !self.finds(numbers, in_order, number) {
            return 0;
        }
        if !in_order || after == 0 {
            return 1;
        }
        let more = row_after(numbers, self.place, number, after);
        self.place = self.place.saturating_add(more);
        more + 1
    }

    /// Returns true if the number is in the list. It takes one comparison if the number stands after the one that was
    /// found last, a few if it is outside the span of the list, else a binary search.
    #[inline(always)]
    fn finds(&mut self, numbers: &[u32], in_order: bool, number: u32) -> bool
        requires { IsTrue in_order → IsNonDecreasing numbers.now }
        ensures { IsTrue result ↔ Contains numbers.now number }
    {
        if self.place < numbers.len() && numbers[self.place] == number {
            self.place += 1;
            return true;
        }
        if in_order && is_outside(numbers, number) {
            return false;
        }
        self.seeks(numbers, in_order, number)
    }

    /// Does the same wherever the number stands. In an increasing list it takes a binary search, after which the finger
    /// stands after the number, or where the number would stand. In another list it takes a pass, and the finger stays.
    #[inline(never)]
    fn seeks(&mut self, numbers: &[u32], in_order: bool, number: u32) -> bool
        requires { IsTrue in_order → IsNonDecreasing numbers.now }
        ensures { IsTrue result ↔ Contains numbers.now number }
    {
        if !in_order {
            return numbers.contains(&number);
        }
        match numbers.binary_search(&number) {
            Ok(place) => {
                self.place = place + 1;
                true
            }
            Err(place) => {
                self.place = place;
                false
            }
        }
    }
}

/// Returns true if the number is less than the first of an increasing list, or greater than the last. Over 24 questions
/// for 100 and 1000 routes, that saves 2 to 6 percent of the instructions.
#[inline(always)]
fn is_outside(numbers: &[u32], number: u32) -> bool
    requires { IsNonDecreasing numbers.now }
    ensures { IsTrue result → Contains numbers.now number → ⊥ }
{
    if numbers.is_empty() {
        return true;
    }
    let least = numbers[0];
    let largest = numbers[numbers.len() - 1];
    if number < least {
        return true;
    }
    if largest < number {
        return true;
    }
    false
}

/// Returns true if each number is greater than the one before it. It compares all of them, several at a time.
pub fn is_increasing(numbers: &[u32]) -> bool
    ensures { IsTrue result → IsStrictlyIncreasing numbers.now }
{
    let mut increases = true;
    for place in 1..numbers.len() {
        increases &= numbers[place - 1] < numbers[place];
    }
    increases
}

/// Returns how many of the numbers after this one stand one by one in an increasing list from a place on: at least half of
/// them, and at most `most`.
#[inline(never)]
fn row_after(numbers: &[u32], place: usize, number: u32, most: u32) -> usize
    requires { IsStrictlyIncreasing numbers.now }
    ensures some { (j : ℕ) → j < result → has (number + 1 + j) numbers.now ≡ true }
    ensures limit { result ≤ most }
{
    if place >= numbers.len() || numbers[place] as u64 != number as u64 + 1 {
        return 0;
    }
    let mut more = (most as usize).min(numbers.len() - place);
    while more > 1 {
        if numbers[place + more - 1] as u64 == number as u64 + more as u64 {
            return more;
        }
        more /= 2;
    }
    more
}
