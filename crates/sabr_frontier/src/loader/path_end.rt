//! Where the prefixes of parts end.

ghost use Rattle.std.specs.Prelude.{◌≡◌, ◌≤◌, ◌∷◌, ◌++◌, [], length, take, IfSome, IfNone, IsTrue, IsFalse};
ghost use Rattle.sabr_model.specs.routes.Route.{is_path};
ghost use Rattle.sabr_model.specs.routes.Telling.{summary_of};
ghost use Rattle.sabr_frontier.specs.loading.Partial.{IsPathEnd, expected_prefix};

use sabr_model::{Plan, Reached, Request, RouteSummary, follow_hop};
use std::alloc::Allocator;

/// Where a path leads, and what its record says besides its numbers and its delivery.
#[derive(Clone, Copy)]
pub struct PathEnd {
    pub here: Reached,
    pub summary: RouteSummary,
}

/// A prefix that has to come as a part: it begins as the last part's prefix.
#[derive(Clone, Copy)]
pub struct ExpectedPrefix {
    /// The number of contacts at the front that it shares with the last part's prefix.
    pub length: usize,
    /// The one number after them.
    pub number: u32,
    /// Where it leads.
    pub end: PathEnd,
}

impl ExpectedPrefix {
    /// Returns true if this is the prefix: a part of the last prefix, then the one number.
    pub fn is(&self, last: &[u32], prefix: &[u32]) -> bool
        requires { self.now.length ≤ length last.now }
        ensures same { IsTrue result → prefix.now ≡ expected_prefix last.now self.now }
        ensures other { IsFalse result → prefix.now ≡ expected_prefix last.now self.now → ⊥ }
    {
        let Some((number, front)) = prefix.split_last() else {
            return false;
        };
        *number == self.number && front == &last[..self.length]
    }
}

impl PathEnd {
    /// Starts at the source, with no number.
    pub fn at_source<A: Allocator + Copy>(plan: &Plan<A>, request: &Request) -> PathEnd
        ensures { IsPathEnd plan.now.plan request.now [] result }
    {
        PathEnd {
            here: Reached {
                node: request.from(),
                at: request.at(),
            },
            summary: RouteSummary::of(plan, &[]),
        }
    }

    /// Returns where the path leads with one more number, or none if they make no path.
    pub fn extended<A: Allocator + Copy>(
        self,
        plan: &Plan<A>,
        request: &Request,
        prefix: &[u32],
        number: u32,
    ) -> Option<PathEnd>
        requires { IsPathEnd plan.now.plan request.now prefix.now self }
        ensures end { IfSome result (IsPathEnd plan.now.plan request.now (prefix.now ++ number ∷ [])) }
        ensures none { IfNone result (IsTrue (is_path plan.now.plan request.now (prefix.now ++ number ∷ [])) → ⊥) }
    {
        let Ok(here) = follow_hop(plan, request, prefix, self.here, number) else {
            return None;
        };
        Some(PathEnd {
            here,
            summary: self.summary.extended(plan, prefix, number),
        })
    }

    /// Returns the summary of a list whose first `first` numbers lead here. It reads only the contacts after them.
    pub fn summary_of<A: Allocator + Copy>(
        self,
        plan: &Plan<A>,
        numbers: &[u32],
        first: usize,
    ) -> RouteSummary
        requires within { first ≤ length numbers.now }
        requires front { self.summary ≡ summary_of plan.now.plan (take first numbers.now) }
        ensures { result ≡ summary_of plan.now.plan numbers.now }
    {
        let mut summary = self.summary;
        for place in first..numbers.len() {
            summary = summary.extended(plan, &numbers[..place], numbers[place]);
        }
        summary
    }
}
