//! The runs that read lines, and answer them over one plan.

ghost use Rattle.std.specs.Prelude.{◌≡◌, List, None, Ok, Result};
ghost use Rattle.sabr_model.specs.plan.Plan.{TabledPlan};
ghost use Rattle.sabr_plan.specs.PlanRead.{ReadsPlan};
ghost use Rattle.sabr_plan.specs.declared.fault.PlanFault.{PlanFault};
ghost use Rattle.commands.specs.declared.failure.Failure.{Failure};
ghost use Rattle.commands.specs.declared.runs.answering.AnswerKind.TheVariants.{Explanation, FirstRoutes};
ghost use Rattle.commands.specs.declared.words.lines.LineForm.TheVariants.{Lists, Requests};
ghost use Rattle.commands.specs.declared.words.lines.LinesFault.{LinesFault};
ghost use Rattle.commands.specs.texts.Messages.{ReportsEnd, status_at};
ghost use Rattle.commands.specs.runs.Many.{IsWithin, LeavesAnswers, ReadsLinesOver, WritesAll, WritesAnswers, form_of, has_broken};
ghost use Rattle.commands.specs.words.Lines.{AskedLine, fault_of, lines_in, asked_from};
ghost use Rattle.commands.specs.words.Values.{IsCount};

use crate::failure::{Failure, Status};
use crate::runs::answering::{AnswerKind, Answering};
use crate::texts::report_end;
use crate::words::{first_line, read_lines};
use sabr_model::{Plan, Read, Write};
use sabr_plan::read_plan;
use std::alloc::Allocator;

/// Writes the answers of this kind to the lines of a text without a bad one.
fn answer_all<O: Write, A: Allocator + Copy>(
    answering: &mut Answering<'_, A>,
    kind: AnswerKind,
    text: &[u8],
    out: &mut O,
) -> Result<(), Failure>
    requires count { IsWithin kind }
    requires requests { fault_of (asked_from (form_of kind) 1 (lines_in text.now)) ≡ None }
    ensures { (xs : List AskedLine) × (asked_from (form_of kind) 1 (lines_in text.now) ≡ Ok xs) × LeavesAnswers answering.old.plan xs kind result (O.output out.old) (O.output out.new) }
{
    let mut rest = text;
    while let Some((line, after)) = first_line(rest) {
        answering.answer(kind, line, out)?;
        rest = after;
    }
    Ok(())
}

/// Whether the writer failed while the answers were written.
fn has_broken(answered: &Result<(), Failure>) -> bool
    ensures { result ≡ has_broken answered.now }
{
    match answered {
        Err(Failure::Write) => true,
        _ => false,
    }
}

/// Writes the answers of this kind to the lines of a text without a bad one, and flushes them: all, or those before the
/// line at which an allocation failed.
fn send_answers<O: Write, A: Allocator + Copy>(
    alloc: A,
    plan: &Plan<A>,
    kind: AnswerKind,
    text: &[u8],
    out: &mut O,
) -> Result<(), Failure>
    requires count { IsWithin kind }
    requires requests { fault_of (asked_from (form_of kind) 1 (lines_in text.now)) ≡ None }
    ensures { (xs : List AskedLine) × (asked_from (form_of kind) 1 (lines_in text.now) ≡ Ok xs) × WritesAll plan.now.plan xs kind result (O.output out.old) (O.output out.new) }
{
    let answered = answer_all(&mut Answering::new(alloc, plan), kind, text, out);
    if has_broken(&answered) {
        return answered;
    }
    let Ok(()) = out.flush() else {
        return Err(Failure::Write);
    };
    answered
}

/// Reads the plan whole, and then the lines, and sends the answers of this kind to these.
///
/// # Errors
///
/// [`Failure::NoMemory`] if an allocation failed. If one failed at a line, the answers to those before it were written
/// and flushed. [`Failure::Write`] if the writer failed. Then a beginning of the answers was written. Else nothing was
/// written: the plan was refused, and then no line was read, or the lines were refused.
fn write_answers<P: Read, Q: Read, O: Write, A: Allocator + Copy>(
    alloc: A,
    plan: &mut P,
    kind: AnswerKind,
    lines: &mut Q,
    out: &mut O,
) -> Result<(), Failure>
    requires { IsWithin kind }
    ensures { (planned : Result TabledPlan PlanFault) × ((requested : Result (List AskedLine) LinesFault)
        × ReadsPlan (P.input plan.old) planned (P.input plan.new)
        × ReadsLinesOver (form_of kind) planned (Q.input lines.old) requested (Q.input lines.new)
        × WritesAnswers planned requested kind result (O.output out.old) (O.output out.new)) }
{
    let plan = read_plan(alloc, plan)?;
    match read_lines(alloc, kind.form(), lines) {
        Ok(text) => send_answers(alloc, &plan, kind, text.as_slice(), out),
        Err(fault) => Err(Failure::of_lines(kind.form(), fault)),
    }
}

/// Answers the requests of a text over one plan: reads the plan whole from `plan`, and then the text from `requests`, to
/// its end or to its first bad line. For each request in order, it then writes to `out` the word `request` and its line,
/// and the report of its first `count` routes, from 1 to 10000, as [`run_first`](crate::run_first) does. The output is
/// flushed at the end.
///
/// A failure's message goes to `err`; a failure of `err` changes nothing else. The status is [`Status::Plan`] if the
/// plan is refused, and then `requests` isn't read; [`Status::Session`] if a line is bad; [`Status::Io`] if `out` or a
/// reader failed (`requests`: before any bad line); and [`Status::Memory`] if an allocation failed. If one failed at a
/// request, `out` holds the answers to those before it, whole and flushed, and no others. If `out` failed, it holds a
/// beginning of the answers.
pub fn run_many<P: Read, Q: Read, O: Write, E: Write, A: Allocator + Copy>(
    alloc: A,
    plan: &mut P,
    requests: &mut Q,
    count: u32,
    out: &mut O,
    err: &mut E,
) -> Status
    requires { IsCount count }
    ensures { (planned : Result TabledPlan PlanFault) × ((requested : Result (List AskedLine) LinesFault) × ((end : Result (Unit {0}) Failure)
        × ReadsPlan (P.input plan.old) planned (P.input plan.new)
        × ReadsLinesOver Requests planned (Q.input requests.old) requested (Q.input requests.new)
        × WritesAnswers planned requested (FirstRoutes count) end (O.output out.old) (O.output out.new)
        × ReportsEnd end (E.output err.old) (E.output err.new)
        × (result ≡ status_at end))) }
{
    let kind = AnswerKind::FirstRoutes(count);
    let end = write_answers(alloc, plan, kind, requests, out);
    report_end(end, err)
}

/// Explains the lists of a text over one plan: reads the plan whole from `plan`, and then the text from `lists`, to its
/// end or to its first bad line. For each list in order, it then writes to `out` the word `list` and its line, and what
/// [`run_explain`](crate::run_explain) writes of its contacts for its request. The output is flushed at the end.
///
/// A failure's message goes to `err`; a failure of `err` changes nothing else. The status is [`Status::Done`] whether
/// or not the lists are routes; [`Status::Plan`] if the plan is refused, and then `lists` isn't read;
/// [`Status::Session`] if a line is bad; [`Status::Io`] if `out` or a reader failed (`lists`: before any bad line);
/// and [`Status::Memory`] if an allocation failed. If one failed at a list, `out` holds the answers to those before it,
/// whole and flushed, and no others. If `out` failed, it holds a beginning of the answers.
pub fn run_follow<P: Read, Q: Read, O: Write, E: Write, A: Allocator + Copy>(
    alloc: A,
    plan: &mut P,
    lists: &mut Q,
    out: &mut O,
    err: &mut E,
) -> Status
    ensures { (planned : Result TabledPlan PlanFault) × ((requested : Result (List AskedLine) LinesFault) × ((end : Result (Unit {0}) Failure)
        × ReadsPlan (P.input plan.old) planned (P.input plan.new)
        × ReadsLinesOver Lists planned (Q.input lists.old) requested (Q.input lists.new)
        × WritesAnswers planned requested Explanation end (O.output out.old) (O.output out.new)
        × ReportsEnd end (E.output err.old) (E.output err.new)
        × (result ≡ status_at end))) }
{
    let end = write_answers(alloc, plan, AnswerKind::Explanation, lists, out);
    report_end(end, err)
}
