//! The route that a part has to carry.

ghost use Rattle.std.specs.Prelude.{◌≡◌, true, IfOk, IfErr, IfSome, OnOk};
ghost use Rattle.std.specs.Option.{option_copied, option_map};
ghost use Rattle.sabr_model.specs.plan.Plan.{has};
ghost use Rattle.sabr_model.specs.routes.Parts.{goes_on};
ghost use Rattle.sabr_model.specs.routes.Record.{record_of};
ghost use Rattle.sabr_frontier.specs.loading.Partial.{IsPathEnd};
ghost use Rattle.sabr_frontier.specs.loading.Loading.{IsCarryFault, may_carry};
ghost use Rattle.sabr_frontier.specs.listing.State.{part_with};

use crate::loader::load_fault::LoadFault;
use crate::loader::path_end::PathEnd;
use crate::plan_request::PlanRequest;
use sabr_model::{Route, follow_after};
use std::alloc::Allocator;

/// Returns true if the number is one of these.
fn holds(numbers: &[u32], number: u32) -> bool
    ensures { result ≡ has number numbers.now }
{
    numbers.iter().any(|other| number == *other)
}

/// Returns true if a list begins with the prefix, is longer, and takes none of the excluded numbers next.
fn goes_on(prefix: &[u32], excluded: &[u32], numbers: &[u32]) -> bool
    ensures { result ≡ goes_on prefix.now excluded.now numbers.now }
{
    let Some(rest) = numbers.strip_prefix(prefix) else {
        return false;
    };
    let Some(next) = rest.first() else {
        return false;
    };
    !holds(excluded, *next)
}

/// Returns the record of the route that a part has to carry. If its prefix is known to lead to `end`, the route is
/// followed from there on. [`LoadFault::BadRoute`] says that it is no route of the part.
pub fn carried<A: Allocator + Copy>(
    question: &PlanRequest<'_, A>,
    prefix: &[u32],
    excluded: &[u32],
    end: Option<PathEnd>,
    route: Option<&[u32]>,
) -> Result<Option<Route<A>>, LoadFault>
    requires { IfSome end (IsPathEnd question.now.plan.now.plan question.now.request prefix.now) }
    ensures ok { IfOk result (λ o. o ≡ option_map (record_of question.now.plan.now.plan question.now.request) (option_copied route.entry)) }
    ensures may { OnOk result (may_carry question.now.plan.now.plan question.now.request (part_with prefix.now excluded.now (option_copied route.entry)) ≡ true) }
    ensures err { IfErr result (IsCarryFault (may_carry question.now.plan.now.plan question.now.request (part_with prefix.now excluded.now (option_copied route.entry)))) }
{
    let Some(route) = route else {
        return Ok(None);
    };
    if !goes_on(prefix, excluded, route) {
        return Err(LoadFault::BadRoute);
    }
    let (end, first) = match end {
        Some(end) => (end, prefix.len()),
        None => (PathEnd::at_source(question.plan, &question.request), 0),
    };
    let Ok(delivery) = follow_after(question.plan, &question.request, route, first, end.here) else {
        return Err(LoadFault::BadRoute);
    };
    let Ok(numbers) = Vec::from_slice(question.alloc, route) else {
        return Err(LoadFault::NoMemory);
    };
    let summary = end.summary_of(question.plan, route, first);
    Ok(Some(summary.route(numbers, delivery)))
}
