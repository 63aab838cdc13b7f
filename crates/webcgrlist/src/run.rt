//! Running a call, over writers.

ghost use Rattle.webcgrlist.specs.declared.call.Run.TheVariants as run;
ghost use Rattle.webcgrlist.specs.Calls.{EndsCall};
ghost use Rattle.webcgrlist.specs.Runs.{seen};

use crate::asked::Asked;
use crate::call::{Call, Run};
use crate::runs::{check, explain, first, follow, list_canonical, many, next, verify};
use crate::writers::Writers;
use commands::{
    CommandName, Status, explain_values_in, first_values_in, page_count_in, report_failure,
};
use sabr_model::Write;
use std::alloc::Allocator;

/// Runs a command over the texts that a call is asked, or writes the message of why their values are refused.
fn run_command<O: Write, S: Write, E: Write, A: Allocator + Copy>(
    alloc: A,
    command: CommandName,
    asked: &Asked<'_>,
    to: Writers<'_, O, S, E>,
) -> Status
    ensures { EndsCall (run.Command command) asked.now (seen O.output S.output E.output to.entry.report.now to.entry.session.now to.entry.message.now) (seen O.output S.output E.output to.exit.0.now to.exit.1.0.now to.exit.1.1.0.now) result }
{
    let texts = asked.values();
    match command {
        CommandName::First => match first_values_in(&texts) {
            Ok((request, count)) => first(alloc, asked, request, count, to),
            Err(fault) => report_failure(to.message, fault.into()),
        },
        CommandName::Next => match page_count_in(&texts) {
            Ok(count) => next(alloc, asked, count, to),
            Err(fault) => report_failure(to.message, fault.into()),
        },
        CommandName::Verify => verify(alloc, asked, to),
        CommandName::Check => check(alloc, asked, to),
        CommandName::Explain => match explain_values_in(alloc, &texts) {
            Ok((request, contacts)) => explain(alloc, asked, request, contacts.as_slice(), to),
            Err(fault) => report_failure(to.message, fault.into()),
        },
        CommandName::Many => match page_count_in(&texts) {
            Ok(count) => many(alloc, asked, count, to),
            Err(fault) => report_failure(to.message, fault.into()),
        },
        CommandName::Follow => follow(alloc, asked, to),
    }
}

/// Runs a call. If its values are refused, their message is all that it writes.
pub fn run_call<O: Write, S: Write, E: Write, A: Allocator + Copy>(
    alloc: A,
    call: Call<'_, '_>,
    to: Writers<'_, O, S, E>,
) -> Status
    ensures { EndsCall call.entry.run call.entry.asked.now (seen O.output S.output E.output to.entry.report.now to.entry.session.now to.entry.message.now) (seen O.output S.output E.output to.exit.0.now to.exit.1.0.now to.exit.1.1.0.now) result }
{
    match call.run {
        Run::Command(command) => run_command(alloc, command, call.asked, to),
        Run::Canonical => list_canonical(alloc, call.asked, to),
    }
}
