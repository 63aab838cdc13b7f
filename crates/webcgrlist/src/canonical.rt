//! The run that writes the canonical text of a plan, over readers and writers.

ghost use Rattle.std.specs.Prelude.{◌≡◌, Result};
ghost use Rattle.sabr_model.specs.plan.Plan.{TabledPlan};
ghost use Rattle.sabr_plan.specs.PlanRead.{ReadsPlan};
ghost use Rattle.sabr_plan.specs.declared.fault.PlanFault.{PlanFault};
ghost use Rattle.commands.specs.declared.failure.Failure.{Failure};
ghost use Rattle.commands.specs.texts.Messages.{ReportsEnd, status_at};
ghost use Rattle.webcgrlist.specs.Canonical.{WritesCanonical};

use commands::{Failure, Status, report_failure};
use sabr_model::{Read, Write};
use sabr_plan::{canonical, read_plan};
use std::alloc::Allocator;

/// Reads the plan, and writes its canonical text.
fn read_and_write<P: Read, O: Write, A: Allocator + Copy>(
    alloc: A,
    plan: &mut P,
    out: &mut O,
) -> Result<(), Failure>
    ensures { (planned : Result TabledPlan PlanFault)
        × ReadsPlan (P.input plan.old) planned (P.input plan.new)
        × WritesCanonical planned result (O.output out.old) (O.output out.new) }
{
    let plan = read_plan(alloc, plan)?;
    canonical(&plan, out)?;
    Ok(())
}

/// Reads a plan whole from `plan`, and writes its canonical text to `out`.
///
/// A failure's message goes to `err`; a failure of `err` changes nothing else. The status is [`Status::Plan`] if the
/// plan is refused, [`Status::Io`] if its reader or `out` failed, and [`Status::Memory`] if an allocation failed while
/// the plan was read. If `out` failed, it holds a beginning of the text, and else all of it or nothing.
pub fn run_canonical<P: Read, O: Write, E: Write, A: Allocator + Copy>(
    alloc: A,
    plan: &mut P,
    out: &mut O,
    err: &mut E,
) -> Status
    ensures { (planned : Result TabledPlan PlanFault) × ((end : Result (Unit {0}) Failure)
        × ReadsPlan (P.input plan.old) planned (P.input plan.new)
        × WritesCanonical planned end (O.output out.old) (O.output out.new)
        × ReportsEnd end (E.output err.old) (E.output err.new)
        × (result ≡ status_at end)) }
{
    match read_and_write(alloc, plan, out) {
        Ok(()) => Status::Done,
        Err(failure) => report_failure(err, failure),
    }
}
