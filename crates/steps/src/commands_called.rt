//! The steps that run a command over the plan's text and the session's text.

ghost use Rattle.std.specs.Prelude.{◌≤◌, IfSome};
ghost use Rattle.sabr_frontier.specs.listing.Listing.{most_routes};

use crate::answers::refused;
use crate::failing::LimitedWriter;
use crate::harness::Harness;
use crate::words::{Words, numbers, small_number};
use commands::{
    Disk, Status, ValueFault, ValueName, run_check, run_explain, run_first, run_follow, run_many,
    run_next, run_verify, run_words,
};
use sabr_frontier::MAX_ROUTES;
use std::alloc::{Allocator, Global};

/// What a command writes to.
#[derive(Drop)]
struct Writers {
    out: LimitedWriter,
    kept: LimitedWriter,
    err: LimitedWriter,
}

/// Runs a command: its status, and what each writer holds.
pub fn command_step<A: Allocator + Copy>(
    alloc: A,
    harness: &Harness<'_>,
    words: &mut Words<'_>,
) -> Option<String> {
    let mut writers = Writers {
        out: harness.out.writer(harness.alloc),
        kept: harness.kept.writer(harness.alloc),
        err: harness.err.writer(harness.alloc),
    };
    let status = status_of(alloc, harness, words, &mut writers)?;
    let out = digits(harness.alloc, &writers.out)?;
    let kept = digits(harness.alloc, &writers.kept)?;
    let err = digits(harness.alloc, &writers.err)?;
    format!(in harness.alloc; "{} {out} {kept} {err}", status.number()).ok()
}

/// The fault of a value that the next word names, and its text.
pub fn value_fault(alloc: Global, words: &mut Words<'_>) -> Option<String> {
    let fault = match words.next()? {
        "Bad" => ValueFault::Bad(ValueName::Count),
        "SameNode" => ValueFault::SameNode,
        "NoMemory" => ValueFault::NoMemory,
        "BadAvoid" => ValueFault::BadAvoid,
        _ => return None,
    };
    refused(alloc, fault)
}

/// What a writer holds, in hexadecimal digits; `-` for nothing.
fn digits(alloc: Global, writer: &LimitedWriter) -> Option<String> {
    if writer.held().is_empty() {
        return String::from_str(alloc, "-").ok();
    }
    hex::encode(alloc, writer.held()).ok()
}

/// Runs the command that the next word names.
fn status_of<A: Allocator + Copy>(
    alloc: A,
    harness: &Harness<'_>,
    words: &mut Words<'_>,
    writers: &mut Writers,
) -> Option<Status> {
    match words.next()? {
        "first" => first(alloc, harness, words, writers),
        "next" => next(alloc, harness, words, writers),
        "verify" => Some(verify(alloc, harness, writers)),
        "check" => Some(check(alloc, harness, writers)),
        "explain" => explain(alloc, harness, words, writers),
        "many" => many(alloc, harness, words, writers),
        "follow" => Some(follow(alloc, harness, writers)),
        "words" => program(harness, words, writers),
        _ => None,
    }
}

fn first<A: Allocator + Copy>(
    alloc: A,
    harness: &Harness<'_>,
    words: &mut Words<'_>,
    writers: &mut Writers,
) -> Option<Status> {
    let (count, keeps) = count_of(words)?;
    let request = harness.asked.request().ok()?;
    let plan = &mut harness.plan.reader();
    let (out, kept, err) = (&mut writers.out, &mut writers.kept, &mut writers.err);
    Some(run_first(alloc, plan, request, count, out, keeps, kept, err))
}

fn next<A: Allocator + Copy>(
    alloc: A,
    harness: &Harness<'_>,
    words: &mut Words<'_>,
    writers: &mut Writers,
) -> Option<Status> {
    let (count, keeps) = count_of(words)?;
    let (plan, old) = (&mut harness.plan.reader(), &mut harness.session.reader());
    let (out, kept, err) = (&mut writers.out, &mut writers.kept, &mut writers.err);
    Some(run_next(alloc, plan, old, count, out, keeps, kept, err))
}

fn verify<A: Allocator + Copy>(alloc: A, harness: &Harness<'_>, writers: &mut Writers) -> Status {
    let (plan, old) = (&mut harness.plan.reader(), &mut harness.session.reader());
    run_verify(alloc, plan, old, &mut writers.out, &mut writers.err)
}

fn check<A: Allocator + Copy>(alloc: A, harness: &Harness<'_>, writers: &mut Writers) -> Status {
    run_check(
        alloc,
        &mut harness.plan.reader(),
        &mut writers.out,
        &mut writers.err,
    )
}

fn explain<A: Allocator + Copy>(
    alloc: A,
    harness: &Harness<'_>,
    words: &mut Words<'_>,
    writers: &mut Writers,
) -> Option<Status> {
    let contacts = numbers(harness.alloc, words)?;
    let request = harness.asked.request().ok()?;
    let plan = &mut harness.plan.reader();
    let (out, err) = (&mut writers.out, &mut writers.err);
    Some(run_explain(alloc, plan, request, &contacts, out, err))
}

fn many<A: Allocator + Copy>(
    alloc: A,
    harness: &Harness<'_>,
    words: &mut Words<'_>,
    writers: &mut Writers,
) -> Option<Status> {
    let (count, _) = count_of(words)?;
    let (plan, requests) = (&mut harness.plan.reader(), &mut harness.session.reader());
    let (out, err) = (&mut writers.out, &mut writers.err);
    Some(run_many(alloc, plan, requests, count, out, err))
}

fn follow<A: Allocator + Copy>(alloc: A, harness: &Harness<'_>, writers: &mut Writers) -> Status {
    let (plan, lists) = (&mut harness.plan.reader(), &mut harness.session.reader());
    run_follow(alloc, plan, lists, &mut writers.out, &mut writers.err)
}

/// Runs the program over these words.
fn program(harness: &Harness<'_>, words: &mut Words<'_>, writers: &mut Writers) -> Option<Status> {
    let mut taken = Vec::new(harness.alloc);
    for word in words {
        taken.push(word).ok()?;
    }
    let mut files = Disk::new(harness.rt);
    let (out, err) = (&mut writers.out, &mut writers.err);
    Some(run_words(harness.alloc, &taken, &mut files, out, err))
}

/// Takes a count of routes, and whether the session is kept.
fn count_of(words: &mut Words<'_>) -> Option<(u32, bool)>
    ensures { IfSome result (λ asked. (1 ≤ asked.0) × (asked.0 ≤ most_routes)) }
{
    let count = small_number(words)?;
    let keeps = words.next() == Some("keep");
    if count < 1 || count > MAX_ROUTES {
        return None;
    }
    Some((count, keeps))
}
