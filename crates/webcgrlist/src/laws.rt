//! A law of calls, the contract of a function that does nothing.

ghost use Rattle.webcgrlist.specs.FirstLists.{FirstLists};

/// States what a done call of [`cgrlist_first`](crate::cgrlist_first) gives: the text of the plan is that of an accepted
/// plan, and the report, which fits into its buffer whole, is that of the first routes over this plan.
#[tactic(auto, using(crate::proofs::FirstLemmas::first_lists))]
pub fn first_lists_the_routes()
    ensures { FirstLists }
{}
