//! The run that lists the first page, over readers and writers.

ghost use Rattle.std.specs.Prelude.{◌≡◌, ◌≤◌, Result};
ghost use Rattle.sabr_model.specs.plan.Plan.{TabledPlan};
ghost use Rattle.sabr_plan.specs.PlanRead.{ReadsPlan};
ghost use Rattle.sabr_plan.specs.declared.fault.PlanFault.{PlanFault};
ghost use Rattle.sabr_frontier.specs.listing.Listing.{most_routes};
ghost use Rattle.commands.specs.declared.failure.Failure.{Failure};
ghost use Rattle.commands.specs.texts.Messages.{ReportsEnd, status_at};
ghost use Rattle.commands.specs.words.Values.{IsCount};
ghost use Rattle.commands.specs.runs.SessionRuns.{WritesFirstPage};

use crate::failure::{Failure, Status};
use crate::runs::pages::{PageWriters, write_page};
use crate::texts::report_end;
use sabr_frontier::Session;
use sabr_model::{Read, Request, Write};
use sabr_plan::{digest, read_plan};
use sabr_search::Settled;
use std::alloc::Allocator;

/// Reads the plan, and writes the first page of the listing over it.
fn write_first<P: Read, O: Write, S: Write, A: Allocator + Copy>(
    alloc: A,
    plan: &mut P,
    request: Request,
    count: u32,
    to: PageWriters<'_, O, S>,
) -> Result<(), Failure>
    requires { count ≤ most_routes }
    ensures { (planned : Result TabledPlan PlanFault)
        × ReadsPlan (P.input plan.old) planned (P.input plan.new)
        × WritesFirstPage planned request to.entry.keep count result (O.output to.entry.out.now) (O.output to.exit.0.now) (S.output to.entry.session.now) (S.output to.exit.1.0.now) }
{
    let plan = read_plan(alloc, plan)?;
    let PageWriters { out, session, keep } = to;
    plan.rules_hold();
    let listing = Session::start(alloc, &plan, request, Settled::new(alloc))?;
    let digest = if keep { Some(digest(&plan)) } else { None };
    write_page(listing, count, out, digest, session)
}

/// Lists the first `count` routes, from 1 to 10000, over a plan, best first, and whether the listing goes on: reads the
/// plan whole from `plan`, finds the routes, and writes and flushes the report to `out`. If `keep`, it then writes and
/// flushes to `session` the text of the session after them, from which a later run goes on; else it writes nothing
/// there.
///
/// A failure's message goes to `err`; a failure of `err` changes nothing else. The status is [`Status::Plan`] if the
/// plan is refused, [`Status::Io`] if its reader or a writer failed, and [`Status::Memory`] if an allocation failed. A
/// writer that failed holds a beginning of its text; any other holds all of its text, or nothing. Nothing is written to
/// `session` before the report was written whole and flushed.
pub fn run_first<P: Read, O: Write, S: Write, E: Write, A: Allocator + Copy>(
    alloc: A,
    plan: &mut P,
    request: Request,
    count: u32,
    out: &mut O,
    keep: bool,
    session: &mut S,
    err: &mut E,
) -> Status
    requires { IsCount count }
    ensures { (planned : Result TabledPlan PlanFault) × ((end : Result (Unit {0}) Failure)
        × ReadsPlan (P.input plan.old) planned (P.input plan.new)
        × WritesFirstPage planned request keep count end (O.output out.old) (O.output out.new) (S.output session.old) (S.output session.new)
        × ReportsEnd end (E.output err.old) (E.output err.new)
        × (result ≡ status_at end)) }
{
    let to = PageWriters { out, session, keep };
    let end = write_first(alloc, plan, request, count, to);
    report_end(end, err)
}
