//! The run that reports what a plan holds.

ghost use Rattle.std.specs.Prelude.{◌≡◌, Result};
ghost use Rattle.sabr_model.specs.plan.Plan.{TabledPlan};
ghost use Rattle.sabr_plan.specs.PlanRead.{ReadsPlan};
ghost use Rattle.sabr_plan.specs.declared.fault.PlanFault.{PlanFault};
ghost use Rattle.commands.specs.declared.failure.Failure.{Failure};
ghost use Rattle.commands.specs.texts.Messages.{ReportsEnd, status_at};
ghost use Rattle.commands.specs.texts.PlanTexts.{WritesCheck, check_text};
ghost use Rattle.sabr_model.specs.Devices.{WritesText};

use crate::failure::{Failure, Status};
use crate::texts::{report_end, write_pieces};
use itoa::Buffer;
use sabr_model::{Plan, Read, Write, WriteFault};
use sabr_plan::{contacts_without_light, digest, read_plan};
use sabr_session::digest_text;
use std::alloc::Allocator;

/// Writes what the plan holds in five lines: the numbers of contacts and of ranges that weren't deleted, of nodes that
/// send or receive a contact, and of contacts without light time at their start, and then the plan's digest.
///
/// It allocates nothing and doesn't flush.
///
/// # Errors
///
/// [`WriteFault`] if the writer failed. Then a beginning of the text was written.
#[tactic(auto, unfolding(crate::specs::texts::PlanTexts::check_text))]
fn write_check_text<W: Write, A: Allocator + Copy>(
    plan: &Plan<A>,
    writer: &mut W,
) -> Result<(), WriteFault>
    ensures { WritesText (W.output writer.old) (check_text plan.now.plan) result (W.output writer.new) }
{
    let mut contacts = Buffer::new();
    let mut ranges = Buffer::new();
    let mut nodes = Buffer::new();
    let mut unlit = Buffer::new();
    let digits = digest_text(&digest(plan));
    let pieces: [&[u8]; 11] = [
        b"contacts ",
        contacts.format(plan.contacts().len()).as_bytes(),
        b"\nranges ",
        ranges.format(plan.ranges().len()).as_bytes(),
        b"\nnodes ",
        nodes.format(plan.nodes()).as_bytes(),
        b"\nwithout light ",
        unlit.format(contacts_without_light(plan)).as_bytes(),
        b"\ndigest ",
        &digits,
        b"\n",
    ];
    write_pieces(writer, &pieces)
}

/// Writes and flushes the text of a check.
fn write_check<O: Write, A: Allocator + Copy>(plan: &Plan<A>, out: &mut O) -> Result<(), Failure>
    ensures { WritesCheck (Ok plan.now) result (O.output out.old) (O.output out.new) }
{
    write_check_text(plan, out)?;
    let Ok(()) = out.flush() else {
        return Err(Failure::Write);
    };
    Ok(())
}

/// Reads the plan, and reports what it holds.
fn read_and_write_check<P: Read, O: Write, A: Allocator + Copy>(
    alloc: A,
    plan: &mut P,
    out: &mut O,
) -> Result<(), Failure>
    ensures { (planned : Result TabledPlan PlanFault)
        × ReadsPlan (P.input plan.old) planned (P.input plan.new)
        × WritesCheck planned result (O.output out.old) (O.output out.new) }
{
    let plan = read_plan(alloc, plan)?;
    write_check(&plan, out)
}

/// Reports what a plan holds: reads it whole from `plan`, and writes and flushes to `out` the numbers of contacts and
/// of ranges that weren't deleted, of nodes that send or receive a contact, and of contacts without light time at their
/// start, and then the plan's digest.
///
/// A failure's message goes to `err`; a failure of `err` changes nothing else. The status is [`Status::Plan`] if the
/// plan is refused, [`Status::Io`] if its reader or `out` failed, and [`Status::Memory`] if an allocation failed while
/// the plan was read. If `out` failed, it holds a beginning of the text, and else all of it or nothing.
pub fn run_check<P: Read, O: Write, E: Write, A: Allocator + Copy>(
    alloc: A,
    plan: &mut P,
    out: &mut O,
    err: &mut E,
) -> Status
    ensures { (planned : Result TabledPlan PlanFault) × ((end : Result (Unit {0}) Failure)
        × ReadsPlan (P.input plan.old) planned (P.input plan.new)
        × WritesCheck planned end (O.output out.old) (O.output out.new)
        × ReportsEnd end (E.output err.old) (E.output err.new)
        × (result ≡ status_at end)) }
{
    let end = read_and_write_check(alloc, plan, out);
    report_end(end, err)
}
