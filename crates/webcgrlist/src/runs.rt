//! The runs, over texts in memory.

ghost use Rattle.commands.specs.words.Values.{IsCount};
ghost use Rattle.webcgrlist.specs.Runs.{RunsCanonical, RunsCheck, RunsExplain, RunsFirst, RunsFollow, RunsMany, RunsNext, RunsVerify, seen};

use crate::asked::Asked;
use crate::canonical::run_canonical;
use crate::writers::Writers;
use commands::{
    Status, run_check, run_explain, run_first, run_follow, run_many, run_next, run_verify,
};
use host::Bytes;
use sabr_model::{Request, Write};
use std::alloc::Allocator;

/// Lists the first page of a request. Writes the session after it if that is asked.
pub fn first<O: Write, S: Write, E: Write, A: Allocator + Copy>(
    alloc: A,
    asked: &Asked<'_>,
    request: Request,
    count: u32,
    to: Writers<'_, O, S, E>,
) -> Status
    requires { IsCount count }
    ensures { RunsFirst asked.now request count (seen O.output S.output E.output to.entry.report.now to.entry.session.now to.entry.message.now) (seen O.output S.output E.output to.exit.0.now to.exit.1.0.now to.exit.1.1.0.now) result }
{
    let keep = asked.keep;
    let mut plan = Bytes::new(asked.plan);
    let Writers {
        report,
        session,
        message,
    } = to;
    run_first(
        alloc, &mut plan, request, count, report, keep, session, message,
    )
}

/// Lists the page after a session. Writes the session after it if that is asked.
pub fn next<O: Write, S: Write, E: Write, A: Allocator + Copy>(
    alloc: A,
    asked: &Asked<'_>,
    count: u32,
    to: Writers<'_, O, S, E>,
) -> Status
    requires { IsCount count }
    ensures { RunsNext asked.now count (seen O.output S.output E.output to.entry.report.now to.entry.session.now to.entry.message.now) (seen O.output S.output E.output to.exit.0.now to.exit.1.0.now to.exit.1.1.0.now) result }
{
    let keep = asked.keep;
    let mut plan = Bytes::new(asked.plan);
    let mut old = Bytes::new(asked.session);
    let Writers {
        report,
        session,
        message,
    } = to;
    run_next(
        alloc, &mut plan, &mut old, count, report, keep, session, message,
    )
}

/// Verifies a session over a plan.
pub fn verify<O: Write, S: Write, E: Write, A: Allocator + Copy>(
    alloc: A,
    asked: &Asked<'_>,
    to: Writers<'_, O, S, E>,
) -> Status
    ensures { RunsVerify asked.now (seen O.output S.output E.output to.entry.report.now to.entry.session.now to.entry.message.now) (seen O.output S.output E.output to.exit.0.now to.exit.1.0.now to.exit.1.1.0.now) result }
{
    let mut plan = Bytes::new(asked.plan);
    let mut old = Bytes::new(asked.session);
    let Writers {
        report,
        message,
        ..
    } = to;
    run_verify(alloc, &mut plan, &mut old, report, message)
}

/// Reports what a plan holds.
pub fn check<O: Write, S: Write, E: Write, A: Allocator + Copy>(
    alloc: A,
    asked: &Asked<'_>,
    to: Writers<'_, O, S, E>,
) -> Status
    ensures { RunsCheck asked.now (seen O.output S.output E.output to.entry.report.now to.entry.session.now to.entry.message.now) (seen O.output S.output E.output to.exit.0.now to.exit.1.0.now to.exit.1.1.0.now) result }
{
    let mut plan = Bytes::new(asked.plan);
    let Writers {
        report,
        message,
        ..
    } = to;
    run_check(alloc, &mut plan, report, message)
}

/// Explains contacts over a plan.
pub fn explain<O: Write, S: Write, E: Write, A: Allocator + Copy>(
    alloc: A,
    asked: &Asked<'_>,
    request: Request,
    contacts: &[u32],
    to: Writers<'_, O, S, E>,
) -> Status
    ensures { RunsExplain asked.now request contacts.now (seen O.output S.output E.output to.entry.report.now to.entry.session.now to.entry.message.now) (seen O.output S.output E.output to.exit.0.now to.exit.1.0.now to.exit.1.1.0.now) result }
{
    let mut plan = Bytes::new(asked.plan);
    let Writers {
        report,
        message,
        ..
    } = to;
    run_explain(alloc, &mut plan, request, contacts, report, message)
}

/// Answers many requests over a plan.
pub fn many<O: Write, S: Write, E: Write, A: Allocator + Copy>(
    alloc: A,
    asked: &Asked<'_>,
    count: u32,
    to: Writers<'_, O, S, E>,
) -> Status
    requires { IsCount count }
    ensures { RunsMany asked.now count (seen O.output S.output E.output to.entry.report.now to.entry.session.now to.entry.message.now) (seen O.output S.output E.output to.exit.0.now to.exit.1.0.now to.exit.1.1.0.now) result }
{
    let mut plan = Bytes::new(asked.plan);
    let mut requests = Bytes::new(asked.requests);
    let Writers {
        report,
        message,
        ..
    } = to;
    run_many(alloc, &mut plan, &mut requests, count, report, message)
}

/// Explains many lists of contacts over a plan.
pub fn follow<O: Write, S: Write, E: Write, A: Allocator + Copy>(
    alloc: A,
    asked: &Asked<'_>,
    to: Writers<'_, O, S, E>,
) -> Status
    ensures { RunsFollow asked.now (seen O.output S.output E.output to.entry.report.now to.entry.session.now to.entry.message.now) (seen O.output S.output E.output to.exit.0.now to.exit.1.0.now to.exit.1.1.0.now) result }
{
    let mut plan = Bytes::new(asked.plan);
    let mut lists = Bytes::new(asked.lists);
    let Writers {
        report,
        message,
        ..
    } = to;
    run_follow(alloc, &mut plan, &mut lists, report, message)
}

/// Writes the canonical text of a plan.
pub fn list_canonical<O: Write, S: Write, E: Write, A: Allocator + Copy>(
    alloc: A,
    asked: &Asked<'_>,
    to: Writers<'_, O, S, E>,
) -> Status
    ensures { RunsCanonical asked.now (seen O.output S.output E.output to.entry.report.now to.entry.session.now to.entry.message.now) (seen O.output S.output E.output to.exit.0.now to.exit.1.0.now to.exit.1.1.0.now) result }
{
    let mut plan = Bytes::new(asked.plan);
    let Writers {
        report,
        message,
        ..
    } = to;
    run_canonical(alloc, &mut plan, report, message)
}
