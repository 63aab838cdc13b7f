//! The run that verifies a session over a plan.

ghost use Rattle.std.specs.Prelude.{◌≡◌, Bool, Result};
ghost use Rattle.sabr_model.specs.plan.Plan.{TabledPlan};
ghost use Rattle.sabr_plan.specs.PlanRead.{ReadsPlan};
ghost use Rattle.sabr_plan.specs.declared.fault.PlanFault.{PlanFault};
ghost use Rattle.sabr_session.specs.declared.session_fault.SessionFault.{SessionFault};
ghost use Rattle.commands.specs.declared.failure.Failure.{Failure};
ghost use Rattle.commands.specs.texts.Messages.{ReportsEnd, status_of_answer};
ghost use Rattle.commands.specs.runs.SessionRuns.{VerifiesOldSession, WritesAnswer, WritesVerified};

use crate::failure::{Failure, Status};
use crate::texts::report_answer;
use sabr_model::{Read, Write, write_text};
use sabr_plan::{digest, read_plan};
use sabr_search::Settled;
use sabr_session::{SessionFault, verify};
use std::alloc::Allocator;

/// Writes and flushes `yes` or `no` as a line, and returns which. If verifying failed, it writes nothing.
///
/// # Errors
///
/// The failure of `verified`, or [`Failure::Write`] if `out` failed. Then a beginning of the line was written.
fn write_verified<O: Write>(
    verified: Result<bool, SessionFault>,
    out: &mut O,
) -> Result<bool, Failure>
    ensures { WritesVerified verified result (O.output out.old) (O.output out.new) }
{
    let answer = verified?;
    if answer {
        write_text(out, b"yes\n")?;
    } else {
        write_text(out, b"no\n")?;
    }
    let Ok(()) = out.flush() else {
        return Err(Failure::Write);
    };
    Ok(answer)
}

/// Reads the plan, verifies the old session over it, and writes the answer.
fn read_and_verify<P: Read, I: Read, O: Write, A: Allocator + Copy>(
    alloc: A,
    plan: &mut P,
    old: &mut I,
    out: &mut O,
) -> Result<bool, Failure>
    ensures { (planned : Result TabledPlan PlanFault) × ((verified : Result Bool SessionFault)
        × ReadsPlan (P.input plan.old) planned (P.input plan.new)
        × VerifiesOldSession planned (I.input old.old) verified (I.input old.new)
        × WritesAnswer planned verified result (O.output out.old) (O.output out.new)) }
{
    let plan = read_plan(alloc, plan)?;
    let verified = verify(alloc, old, &plan, &digest(&plan), Settled::new(alloc));
    write_verified(verified, out)
}

/// Verifies that an old session is that of some request and some place in its listing: reads the plan whole from `plan`
/// and then the session from `old`, compares it with the listing, and writes and flushes `yes` or `no` to `out` as a
/// line. The session's author isn't trusted; a text that is no session gets `no`.
///
/// A failure's message goes to `err`; a failure of `err` changes nothing else. The status is [`Status::Done`] for yes
/// and [`Status::No`] for no; [`Status::Plan`] if the plan is refused, and then `old` isn't read; [`Status::Io`] if a
/// reader or `out` failed; and [`Status::Memory`] if an allocation failed. If `out` failed, it holds a beginning of the
/// line, and else all of it or nothing.
pub fn run_verify<P: Read, I: Read, O: Write, E: Write, A: Allocator + Copy>(
    alloc: A,
    plan: &mut P,
    old: &mut I,
    out: &mut O,
    err: &mut E,
) -> Status
    ensures { (planned : Result TabledPlan PlanFault) × ((verified : Result Bool SessionFault) × ((end : Result Bool Failure)
        × ReadsPlan (P.input plan.old) planned (P.input plan.new)
        × VerifiesOldSession planned (I.input old.old) verified (I.input old.new)
        × WritesAnswer planned verified end (O.output out.old) (O.output out.new)
        × ReportsEnd end (E.output err.old) (E.output err.new)
        × (result ≡ status_of_answer end))) }
{
    let end = read_and_verify(alloc, plan, old, out);
    report_answer(end, err)
}
