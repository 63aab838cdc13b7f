//! A link that is walked, and what the bounds of the whole link rule out.

ghost use Rattle.std.specs.Prelude.{◌≡◌, ◌⊎◌, ◌+◌, ◌≤◌, ◌<◌, IsTrue, false};
ghost use Rattle.sabr_search.specs.questions.Linked.{IsRuledOut};

use sabr_index::{LinkBounds, Pass};

/// A link that is walked: the indexes of its sender and its receiver in the table of nodes, its passes by start, and
/// bounds for all of them.
#[derive(Clone, Copy)]
pub struct WalkedLink<'a> {
    pub from: usize,
    pub to: usize,
    pub passes: &'a [Pass],
    pub bounds: LinkBounds,
}

/// Returns true if two bounds of a whole link, `soonest` and `least_light`, show that nothing that is at its sender at
/// second `at` or later arrives sooner than `before`.
#[inline(always)]
pub fn arrives_no_sooner(soonest: u64, least_light: u32, at: u64, before: u64) -> bool
    ensures no_sooner { IsTrue result → (before ≤ soonest) ⊎ (before ≤ at + least_light) }
    ensures early { result ≡ false → at < before }
{
    before <= soonest.max(at.saturating_add(least_light as u64))
}

/// Returns true if, by the bounds of the whole link, nothing that is at its sender at second `at` or later arrives
/// sooner than `before`. Whether the link has ended is seen first.
#[inline(always)]
pub fn rules_out(bounds: LinkBounds, at: u64, before: u64) -> bool
    ensures ruled_out { IsTrue result → IsRuledOut bounds at before }
    ensures early { result ≡ false → at < before }
{
    bounds.latest_end <= at || arrives_no_sooner(bounds.soonest, bounds.least_light, at, before)
}
