//! The run that lists the page after an old session, over readers and writers.

ghost use Rattle.std.specs.Prelude.{◌≡◌, ◌≤◌, Result};
ghost use Rattle.sabr_model.specs.plan.Plan.{TabledPlan};
ghost use Rattle.sabr_plan.specs.PlanRead.{ReadsPlan};
ghost use Rattle.sabr_plan.specs.declared.fault.PlanFault.{PlanFault};
ghost use Rattle.sabr_frontier.specs.listing.Listing.{most_routes};
ghost use Rattle.sabr_frontier.specs.session.Session.{Seen};
ghost use Rattle.sabr_session.specs.declared.session_fault.SessionFault.{SessionFault};
ghost use Rattle.commands.specs.declared.failure.Failure.{Failure};
ghost use Rattle.commands.specs.texts.Messages.{ReportsEnd, status_at};
ghost use Rattle.commands.specs.words.Values.{IsCount};
ghost use Rattle.commands.specs.runs.SessionRuns.{ReadsOldSession, WritesNextPage, place_of};

use crate::failure::{Failure, Status};
use crate::runs::pages::{PageWriters, write_page};
use crate::texts::report_end;
use sabr_model::{Read, Write};
use sabr_plan::{digest, read_plan};
use sabr_search::Settled;
use sabr_session::read_session;
use std::alloc::Allocator;

/// Reads the plan, and then the old session over it, and writes the session's next page.
fn write_next<P: Read, I: Read, O: Write, S: Write, A: Allocator + Copy>(
    alloc: A,
    plan: &mut P,
    old: &mut I,
    count: u32,
    to: PageWriters<'_, O, S>,
) -> Result<(), Failure>
    requires { count ≤ most_routes }
    ensures { (planned : Result TabledPlan PlanFault) × ((resumed : Result Seen SessionFault)
        × ReadsPlan (P.input plan.old) planned (P.input plan.new)
        × ReadsOldSession planned (I.input old.old) resumed (I.input old.new)
        × WritesNextPage planned (place_of resumed) to.entry.keep count result (O.output to.entry.out.now) (O.output to.exit.0.now) (S.output to.entry.session.now) (S.output to.exit.1.0.now)) }
{
    let plan = read_plan(alloc, plan)?;
    let PageWriters { out, session, keep } = to;
    let digest = digest(&plan);
    let listing = read_session(alloc, old, &plan, &digest, Settled::new(alloc))?;
    let keep = if keep { Some(digest) } else { None };
    write_page(listing, count, out, keep, session)
}

/// Lists the `count` routes, from 1 to 10000, that follow an old session, and whether the listing goes on: reads the
/// plan whole from `plan` and then the session from `old`, finds the routes, and writes and flushes the report to
/// `out`. Its ranks go on from the routes that the session counts as given. If `keep`, it then writes and flushes to
/// `session` the text of the session after them; else it writes nothing there.
///
/// A failure's message goes to `err`; a failure of `err` changes nothing else. The status is [`Status::Plan`] if the
/// plan is refused, and then `old` isn't read; [`Status::Session`] if the session is refused; [`Status::Io`] if a
/// reader or a writer failed; and [`Status::Memory`] if an allocation failed. A writer that failed holds a
/// beginning of its text; any other holds all of its text, or nothing. Nothing is written to `session` before the
/// report was written whole and flushed.
pub fn run_next<P: Read, I: Read, O: Write, S: Write, E: Write, A: Allocator + Copy>(
    alloc: A,
    plan: &mut P,
    old: &mut I,
    count: u32,
    out: &mut O,
    keep: bool,
    session: &mut S,
    err: &mut E,
) -> Status
    requires { IsCount count }
    ensures { (planned : Result TabledPlan PlanFault) × ((resumed : Result Seen SessionFault) × ((end : Result (Unit {0}) Failure)
        × ReadsPlan (P.input plan.old) planned (P.input plan.new)
        × ReadsOldSession planned (I.input old.old) resumed (I.input old.new)
        × WritesNextPage planned (place_of resumed) keep count end (O.output out.old) (O.output out.new) (S.output session.old) (S.output session.new)
        × ReportsEnd end (E.output err.old) (E.output err.new)
        × (result ≡ status_at end))) }
{
    let to = PageWriters { out, session, keep };
    let end = write_next(alloc, plan, old, count, to);
    report_end(end, err)
}
