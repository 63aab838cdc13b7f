//! The operands of a plan line.

ghost use Rattle.std.specs.Prelude.{◌≡◌, ◌≤◌, Some, None, Ok, Err};
ghost use Rattle.sabr_model.specs.plan.Plan.{last_time};
ghost use Rattle.sabr_plan.specs.Operands.{relative_of, after_reference, absolute_time, time_at, node_of, largest_value, value_of, both_of};

use crate::command::Target;
use crate::fault::PlanKind;
use crate::number::{digits_value, number_within};
use crate::time::parse_time;
use sabr_model::{LAST_TIME, MAX_LIGHT};
use std::marker::Model;

/// The second from which relative times count, if a line has set it.
#[derive(Drop)]
pub struct Reference {
    second: u64,
    /// The number of seconds from `second` up to the latest time, both included. 0 if no line has set the reference.
    room: u64,
}

impl Model for Reference {
    ghost use Rattle.std.specs.Prelude.{ℕ, ◌≡◌, ◌+◌, ◌<◌, ◌==◌, Some, None, if◌then◌else◌};
    ghost use Rattle.std.specs.declared.option.Option.{Option};
    ghost use Rattle.sabr_model.specs.plan.Plan.{last_time};

    ghost Value = { Option ℕ };

    ghost view = { λ r. if r.room == 0 then None else Some r.second };

    ghost invariant = { λ r. 0 < r.room → r.second + r.room ≡ last_time + 1 };
}

impl Reference {
    /// Returns the reference before any line has set it.
    pub fn new() -> Reference
        ensures { result ≡ None }
    {
        Reference { second: 0, room: 0 }
    }

    /// Returns the reference that a line has set to this second.
    pub fn at(second: u64) -> Reference
        requires { second ≤ last_time }
        ensures { result ≡ Some second }
    {
        Reference {
            second,
            room: LAST_TIME + 1 - second,
        }
    }

    /// Returns the time that is this many seconds later.
    #[inline(always)]
    pub fn after(&self, seconds: u64) -> Result<u64, PlanKind>
        ensures { result ≡ after_reference self.now seconds }
    {
        if seconds < self.room {
            Ok(self.second + seconds)
        } else if self.room > 0 {
            Err(PlanKind::BadTime)
        } else {
            Err(PlanKind::NoReference)
        }
    }
}

/// Returns the seconds of a relative time: `+` and one to twelve digits.
fn relative_of(word: &[u8]) -> Option<u64>
    ensures { result ≡ relative_of word.now }
{
    if word.is_empty() || word[0] != b'+' || word.len() > 13 {
        return None;
    }
    digits_value(&word[1..])
}

/// Reads an absolute time.
pub fn absolute_time(word: &[u8]) -> Result<u64, PlanKind>
    ensures { result ≡ absolute_time word.now }
{
    parse_time(word).ok_or(PlanKind::BadTime)
}

/// Reads a time, absolute or relative to the reference.
#[tactic(auto, unfolding(crate::specs::Operands::time_at))]
pub fn time_at(reference: &Reference, word: &[u8]) -> Result<u64, PlanKind>
    ensures { result ≡ time_at reference.now word.now }
{
    match relative_of(word) {
        Some(seconds) => reference.after(seconds),
        None => absolute_time(word),
    }
}

/// Reads a node.
pub fn node_of(word: &[u8]) -> Result<u64, PlanKind>
    ensures { result ≡ node_of word.now }
{
    number_within(word, 1, u64::MAX).ok_or(PlanKind::BadNode)
}

/// Returns the largest rate of a contact, in bytes per second, or the largest light time of a range, in seconds.
pub fn largest_value(target: Target) -> u64
    ensures { result ≡ largest_value target }
{
    match target {
        Target::Contact => u64::MAX,
        Target::Range => MAX_LIGHT as u64,
    }
}

/// Reads a rate or a light time.
pub fn value_of(target: Target, word: &[u8]) -> Result<u64, PlanKind>
    ensures { result ≡ value_of target word.now }
{
    number_within(word, 0, largest_value(target)).ok_or(PlanKind::BadNumber)
}

/// Returns both values, or the first fault: `BadTime` before any other.
pub fn both_of(
    first: Result<u64, PlanKind>,
    second: Result<u64, PlanKind>,
) -> Result<(u64, u64), PlanKind>
    ensures { result ≡ both_of first second }
{
    match (first, second) {
        (Ok(a), Ok(b)) => Ok((a, b)),
        (Ok(_), Err(kind)) => Err(kind),
        (Err(PlanKind::BadTime), _) => Err(PlanKind::BadTime),
        (Err(kind), Ok(_)) => Err(kind),
        (Err(_), Err(kind)) => Err(kind),
    }
}
