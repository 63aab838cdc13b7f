//! The calls of the commands: each reads the values of its words, if it has any, opens
//! the files that they name, and runs over these.
//!
//! A call fails where its values are bad, or a file can't be opened or made, before its run. Then it has written
//! nothing, and no file is made.

ghost use Rattle.std.specs.Prelude.{◌≡◌, IfErr, IfOk, OnErr};
ghost use Rattle.clap.specs.Matches.{found_of};
ghost use Rattle.commands.specs.declared.command.CommandName.TheVariants as command;
ghost use Rattle.commands.specs.runs.Calls.{RunsCheck, RunsExplain, RunsFirst, RunsFollow, RunsMany, RunsNext, RunsVerify, StopsBefore};

use crate::failure::{Failure, Status};
use crate::files::{
    FileSystem, keep_if_done, make_session, open_file, open_plan, open_session, session_out,
};
use crate::runs::{run_check, run_explain, run_first, run_follow, run_many, run_next, run_verify};
use crate::words::{LISTS, REQUESTS, explain_values, first_values, page_count};
use clap::ArgMatches;
use sabr_model::{Device, Write};
use std::alloc::Global;
use std::io;

/// Lists the first page of a request. Keeps the session after it if the words say so.
pub fn first<'w, D: FileSystem<'w>, O: Write, E: Write>(
    alloc: Global,
    words: &ArgMatches<'w>,
    files: &mut D,
    out: &mut O,
    err: &mut E,
) -> Result<Status, Failure>
    ensures ran { IfOk result (λ s. RunsFirst D.rules (found_of words.now) (D.left files.old) (D.left files.new) (O.output out.old) (O.output out.new) (E.output err.old) (E.output err.new) s) }
    ensures stopped { IfErr result (StopsBefore D.rules command.First (found_of words.now)) }
    ensures not_run { OnErr result ((O.output out.new ≡ O.output out.old) × (E.output err.new ≡ E.output err.old) × (D.left files.new ≡ D.left files.old)) }
{
    let (request, count) = first_values(words)?;
    let mut plan = open_plan(files, words)?;
    let Some(path) = session_out(words) else {
        let mut sink = Device::new(io::sink());
        let status = run_first(alloc, &mut plan, request, count, out, false, &mut sink, err);
        return Ok(status);
    };
    let mut new = make_session(files, path)?;
    let status = run_first(alloc, &mut plan, request, count, out, true, &mut new, err);
    keep_if_done(files, new, status);
    Ok(status)
}

/// Lists the page after an old session. Keeps the session after it if the words say so.
pub fn next<'w, D: FileSystem<'w>, O: Write, E: Write>(
    alloc: Global,
    words: &ArgMatches<'w>,
    files: &mut D,
    out: &mut O,
    err: &mut E,
) -> Result<Status, Failure>
    ensures ran { IfOk result (λ s. RunsNext D.rules (found_of words.now) (D.left files.old) (D.left files.new) (O.output out.old) (O.output out.new) (E.output err.old) (E.output err.new) s) }
    ensures stopped { IfErr result (StopsBefore D.rules command.Next (found_of words.now)) }
    ensures not_run { OnErr result ((O.output out.new ≡ O.output out.old) × (E.output err.new ≡ E.output err.old) × (D.left files.new ≡ D.left files.old)) }
{
    let count = page_count(words)?;
    let mut plan = open_plan(files, words)?;
    let mut old = open_session(files, words)?;
    let Some(path) = session_out(words) else {
        let mut none = Device::new(io::sink());
        let status = run_next(
            alloc, &mut plan, &mut old, count, out, false, &mut none, err,
        );
        return Ok(status);
    };
    let mut new = make_session(files, path)?;
    let status = run_next(alloc, &mut plan, &mut old, count, out, true, &mut new, err);
    keep_if_done(files, new, status);
    Ok(status)
}

/// Verifies a session over a plan.
pub fn verify<'w, D: FileSystem<'w>, O: Write, E: Write>(
    alloc: Global,
    words: &ArgMatches<'w>,
    files: &D,
    out: &mut O,
    err: &mut E,
) -> Result<Status, Failure>
    ensures ran { IfOk result (λ s. RunsVerify D.rules (found_of words.now) (O.output out.old) (O.output out.new) (E.output err.old) (E.output err.new) s) }
    ensures stopped { IfErr result (StopsBefore D.rules command.Verify (found_of words.now)) }
    ensures not_run { OnErr result ((O.output out.new ≡ O.output out.old) × (E.output err.new ≡ E.output err.old)) }
{
    let mut plan = open_plan(files, words)?;
    let mut old = open_session(files, words)?;
    Ok(run_verify(alloc, &mut plan, &mut old, out, err))
}

/// Reports what a plan holds.
pub fn check<'w, D: FileSystem<'w>, O: Write, E: Write>(
    alloc: Global,
    words: &ArgMatches<'w>,
    files: &D,
    out: &mut O,
    err: &mut E,
) -> Result<Status, Failure>
    ensures ran { IfOk result (λ s. RunsCheck D.rules (found_of words.now) (O.output out.old) (O.output out.new) (E.output err.old) (E.output err.new) s) }
    ensures stopped { IfErr result (StopsBefore D.rules command.Check (found_of words.now)) }
    ensures not_run { OnErr result ((O.output out.new ≡ O.output out.old) × (E.output err.new ≡ E.output err.old)) }
{
    let mut plan = open_plan(files, words)?;
    Ok(run_check(alloc, &mut plan, out, err))
}

/// Explains contacts over a plan.
pub fn explain<'w, D: FileSystem<'w>, O: Write, E: Write>(
    alloc: Global,
    words: &ArgMatches<'w>,
    files: &D,
    out: &mut O,
    err: &mut E,
) -> Result<Status, Failure>
    ensures ran { IfOk result (λ s. RunsExplain D.rules (found_of words.now) (O.output out.old) (O.output out.new) (E.output err.old) (E.output err.new) s) }
    ensures stopped { IfErr result (StopsBefore D.rules command.Explain (found_of words.now)) }
    ensures not_run { OnErr result ((O.output out.new ≡ O.output out.old) × (E.output err.new ≡ E.output err.old)) }
{
    let (request, contacts) = explain_values(alloc, words)?;
    let mut plan = open_plan(files, words)?;
    let status = run_explain(alloc, &mut plan, request, contacts.as_slice(), out, err);
    Ok(status)
}

/// Answers many requests over a plan.
pub fn many<'w, D: FileSystem<'w>, O: Write, E: Write>(
    alloc: Global,
    words: &ArgMatches<'w>,
    files: &D,
    out: &mut O,
    err: &mut E,
) -> Result<Status, Failure>
    ensures ran { IfOk result (λ s. RunsMany D.rules (found_of words.now) (O.output out.old) (O.output out.new) (E.output err.old) (E.output err.new) s) }
    ensures stopped { IfErr result (StopsBefore D.rules command.Many (found_of words.now)) }
    ensures not_run { OnErr result ((O.output out.new ≡ O.output out.old) × (E.output err.new ≡ E.output err.old)) }
{
    let count = page_count(words)?;
    let mut plan = open_plan(files, words)?;
    let mut requests = open_file(files, words, REQUESTS.name, Failure::CannotOpenRequests)?;
    Ok(run_many(alloc, &mut plan, &mut requests, count, out, err))
}

/// Explains many lists of contacts over a plan.
pub fn follow<'w, D: FileSystem<'w>, O: Write, E: Write>(
    alloc: Global,
    words: &ArgMatches<'w>,
    files: &D,
    out: &mut O,
    err: &mut E,
) -> Result<Status, Failure>
    ensures ran { IfOk result (λ s. RunsFollow D.rules (found_of words.now) (O.output out.old) (O.output out.new) (E.output err.old) (E.output err.new) s) }
    ensures stopped { IfErr result (StopsBefore D.rules command.Follow (found_of words.now)) }
    ensures not_run { OnErr result ((O.output out.new ≡ O.output out.old) × (E.output err.new ≡ E.output err.old)) }
{
    let mut plan = open_plan(files, words)?;
    let mut lists = open_file(files, words, LISTS.name, Failure::CannotOpenLists)?;
    Ok(run_follow(alloc, &mut plan, &mut lists, out, err))
}
