//! The run that explains a list of contacts.

ghost use Rattle.std.specs.Prelude.{◌≡◌, Bool, Result};
ghost use Rattle.sabr_model.specs.plan.Plan.{TabledPlan};
ghost use Rattle.sabr_plan.specs.PlanRead.{ReadsPlan};
ghost use Rattle.sabr_plan.specs.declared.fault.PlanFault.{PlanFault};
ghost use Rattle.commands.specs.declared.failure.Failure.{Failure};
ghost use Rattle.commands.specs.texts.Messages.{ReportsEnd, status_of_answer};
ghost use Rattle.commands.specs.texts.PlanTexts.{WritesExplanation};

use crate::failure::{Failure, Status};
use crate::texts::{report_answer, write_explanation};
use sabr_model::{Plan, Read, Request, Write};
use sabr_plan::read_plan;
use std::alloc::Allocator;

/// Writes and flushes the explanation, and returns whether the contacts make a route.
fn explain<O: Write, A: Allocator + Copy>(
    plan: &Plan<A>,
    request: &Request,
    contacts: &[u32],
    out: &mut O,
) -> Result<bool, Failure>
    ensures { WritesExplanation (Ok plan.now) request.now contacts.now result (O.output out.old) (O.output out.new) }
{
    let is_route = write_explanation(plan, request, contacts, out)?;
    let Ok(()) = out.flush() else {
        return Err(Failure::Write);
    };
    Ok(is_route)
}

/// Reads the plan, and explains the contacts over it.
fn read_and_explain<P: Read, O: Write, A: Allocator + Copy>(
    alloc: A,
    plan: &mut P,
    request: &Request,
    contacts: &[u32],
    out: &mut O,
) -> Result<bool, Failure>
    ensures { (planned : Result TabledPlan PlanFault)
        × ReadsPlan (P.input plan.old) planned (P.input plan.new)
        × WritesExplanation planned request.now contacts.now result (O.output out.old) (O.output out.new) }
{
    let plan = read_plan(alloc, plan)?;
    explain(&plan, request, contacts, out)
}

/// Explains the contacts of these numbers over a plan: reads it whole from `plan`, and writes and flushes to `out` a
/// line for each hop before the first fault, with its contact and the times of sending and of arrival. Then comes the
/// line of the route that they make, or that of the fault.
///
/// A failure's message goes to `err`; a failure of `err` changes nothing else. The status is [`Status::Done`] for a
/// route and [`Status::No`] for another list, [`Status::Plan`] if the plan is refused, [`Status::Io`] if its reader or
/// `out` failed, and [`Status::Memory`] if an allocation failed while the plan was read. If `out` failed, it holds a
/// beginning of the text, and else all of it or nothing.
pub fn run_explain<P: Read, O: Write, E: Write, A: Allocator + Copy>(
    alloc: A,
    plan: &mut P,
    request: Request,
    contacts: &[u32],
    out: &mut O,
    err: &mut E,
) -> Status
    ensures { (planned : Result TabledPlan PlanFault) × ((end : Result Bool Failure)
        × ReadsPlan (P.input plan.old) planned (P.input plan.new)
        × WritesExplanation planned request contacts.now end (O.output out.old) (O.output out.new)
        × ReportsEnd end (E.output err.old) (E.output err.new)
        × (result ≡ status_of_answer end)) }
{
    let end = read_and_explain(alloc, plan, &request, contacts, out);
    report_answer(end, err)
}
