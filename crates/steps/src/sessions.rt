//! The steps of a session.

use crate::answers::{done, no_memory, put_numbers, put_route, routes, yes_or_no};
use crate::harness::Harness;
use crate::plans::held;
use crate::words::{Words, small_number};
use sabr_frontier::{MAX_ROUTES, Session};
use sabr_plan::digest;
use sabr_search::BestOf;
use sabr_session::write_session;
use std::alloc::{Allocator, Global};

/// Does a step of a session.
pub fn session_step<A: Allocator + Copy, B: BestOf<A>>(
    session: &mut Session<'_, B, A>,
    harness: &mut Harness<'_>,
    name: &str,
    words: &mut Words<'_>,
) -> Option<String> {
    match name {
        "page" => page(session, harness.alloc, small_number(words)),
        "page-looks" => format!(in harness.alloc; "{}", session.looks()).ok(),
        "back" => yes_or_no(harness.alloc, session.back()),
        "certify" => certified(session, harness.alloc),
        "place" => place(session, harness.alloc),
        "parts" => parts(session, harness.alloc),
        "write" => written(session, harness),
        "keep" => kept(session, harness),
        _ => None,
    }
}

/// A page of at most 10000 routes.
fn page<A: Allocator + Copy, B: BestOf<A>>(
    session: &mut Session<'_, B, A>,
    alloc: Global,
    count: Option<u32>,
) -> Option<String> {
    match session.page(count?.min(MAX_ROUTES)) {
        Ok(given) => routes(alloc, given.as_slice()),
        Err(_) => no_memory(alloc),
    }
}

/// Whether the session is that of its place.
fn certified<A: Allocator + Copy, B: BestOf<A>>(
    session: &mut Session<'_, B, A>,
    alloc: Global,
) -> Option<String> {
    match session.certify() {
        Ok(yes) => yes_or_no(alloc, yes),
        Err(_) => no_memory(alloc),
    }
}

/// Writes the session's text, and keeps it as the text of a session to read.
fn kept<A: Allocator + Copy, B: BestOf<A>>(
    session: &Session<'_, B, A>,
    harness: &mut Harness<'_>,
) -> Option<String> {
    let mut writer = harness.kept.writer(harness.alloc);
    write_session(session, &digest(session.plan()), &mut writer).ok()?;
    let text = Vec::from_slice(harness.alloc, writer.held()).ok()?;
    harness.session.set_text(text);
    done(harness.alloc)
}

/// What a session shows of its place: routes given, the last of them, whether there are more, parts, whether a page can
/// be taken back, and searches.
fn place<A: Allocator + Copy, B: BestOf<A>>(
    session: &Session<'_, B, A>,
    alloc: Global,
) -> Option<String> {
    let mut text = format!(in alloc; "emitted {} last", session.emitted()).ok()?;
    put_numbers(&mut text, session.last(), alloc)?;
    let more = if session.more() { "more" } else { "end" };
    let back = if session.can_back() { "back" } else { "-" };
    let rest = format!(in alloc;
        " {more} parts {} {back} searches {}",
        session.part_count(),
        session.searches()
    )
    .ok()?;
    text.push_str(rest.as_str()).ok()?;
    Some(text)
}

/// The parts of a session, each with the route that it carries.
fn parts<A: Allocator + Copy, B: BestOf<A>>(
    session: &Session<'_, B, A>,
    alloc: Global,
) -> Option<String> {
    let mut text = format!(in alloc; "{} parts", session.part_count()).ok()?;
    for part in session.parts() {
        text.push_str(" ;").ok()?;
        put_numbers(&mut text, part.prefix, alloc)?;
        text.push_str(" /").ok()?;
        put_numbers(&mut text, part.excluded, alloc)?;
        text.push_str(" /").ok()?;
        match part.route {
            Some(route) => put_route(&mut text, route, alloc)?,
            None => text.push_str(" -").ok()?,
        }
    }
    Some(text)
}

/// Writes the session's text: whether all of it was written, and what the writer holds.
fn written<A: Allocator + Copy, B: BestOf<A>>(
    session: &Session<'_, B, A>,
    harness: &Harness<'_>,
) -> Option<String> {
    let mut writer = harness.kept.writer(harness.alloc);
    let is_written = write_session(session, &digest(session.plan()), &mut writer).is_ok();
    held(harness.alloc, is_written, writer.held())
}
