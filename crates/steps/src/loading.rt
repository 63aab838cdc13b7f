//! The steps that load a session part by part, or feed its text.

use crate::answers::{done, refused};
use crate::harness::{Harness, decoded};
use crate::words::{Words, numbers};
use sabr_frontier::{LoadFault, Loader, Session};
use sabr_search::BestOf;
use sabr_session::{SessionFault, SessionFeed};
use std::alloc::{Allocator, Global};

/// Takes the steps up to `finish`, which ends the loading.
pub fn loaded<'p, A: Allocator + Copy, B: BestOf<A>>(
    mut loader: Loader<'p, B, A>,
    harness: &mut Harness<'_>,
) -> Option<Result<Session<'p, B, A>, LoadFault>> {
    let begun = done(harness.alloc);
    harness.answer(begun);
    let end = add_parts(&mut loader, harness)?;
    Some(loader.finish(end.emitted, &end.last))
}

/// What `finish` says of the parts before it: how many routes were given, and the last of them.
#[derive(Drop)]
struct End {
    emitted: u128,
    last: Vec<u32>,
}

/// Adds parts up to `finish`.
fn add_parts<A: Allocator + Copy, B: BestOf<A>>(
    loader: &mut Loader<'_, B, A>,
    harness: &mut Harness<'_>,
) -> Option<End> {
    for _ in 0..u64::MAX {
        let (name, mut words) = harness.next()?;
        if name == "finish" {
            let emitted = words.next()?.parse::<u128>().ok()?;
            let last = numbers(harness.alloc, &mut words)?;
            return Some(End { emitted, last });
        }
        let answer = match name {
            "part" => add_part(loader, harness.alloc, &mut words),
            _ => harness.step(name, &mut words),
        };
        harness.answer(answer);
    }
    None
}

/// Adds the part PREFIX / EXCLUDED / ROUTE.
fn add_part<A: Allocator + Copy, B: BestOf<A>>(
    loader: &mut Loader<'_, B, A>,
    alloc: Global,
    words: &mut Words<'_>,
) -> Option<String> {
    let prefix = numbers(alloc, words)?;
    let excluded = numbers(alloc, words)?;
    let route = numbers(alloc, words)?;
    let carried = if route.is_empty() {
        None
    } else {
        Some(route.as_slice())
    };
    match loader.add_part(&prefix, &excluded, carried) {
        Ok(()) => done(alloc),
        Err(fault) => refused(alloc, fault),
    }
}

/// Takes the steps up to `finish`, which ends the text.
pub fn fed<'p, A: Allocator + Copy, B: BestOf<A>>(
    mut feed: SessionFeed<'p, B, A>,
    harness: &mut Harness<'_>,
) -> Option<Result<Session<'p, B, A>, SessionFault>> {
    let begun = done(harness.alloc);
    harness.answer(begun);
    feed_pieces(&mut feed, harness)?;
    Some(feed.finish())
}

/// Feeds pieces up to `finish`.
fn feed_pieces<A: Allocator + Copy, B: BestOf<A>>(
    feed: &mut SessionFeed<'_, B, A>,
    harness: &mut Harness<'_>,
) -> Option<()> {
    for _ in 0..u64::MAX {
        let (name, mut words) = harness.next()?;
        if name == "finish" {
            return Some(());
        }
        let answer = feed_step(feed, harness, name, &mut words);
        harness.answer(answer);
    }
    None
}

/// Feeds a piece, or answers how many bytes are held.
fn feed_step<A: Allocator + Copy, B: BestOf<A>>(
    feed: &mut SessionFeed<'_, B, A>,
    harness: &mut Harness<'_>,
    name: &str,
    words: &mut Words<'_>,
) -> Option<String> {
    match name {
        "piece" => feed_piece(feed, harness.alloc, words),
        "held" => format!(in harness.alloc; "{}", feed.held()).ok(),
        _ => harness.step(name, words),
    }
}

/// Feeds a piece.
fn feed_piece<A: Allocator + Copy, B: BestOf<A>>(
    feed: &mut SessionFeed<'_, B, A>,
    alloc: Global,
    words: &mut Words<'_>,
) -> Option<String> {
    let piece = decoded(alloc, words)?;
    match feed.feed(&piece) {
        Ok(()) => done(alloc),
        Err(fault) => refused(alloc, fault),
    }
}
