//! The steps of a finder and of sessions over a plan.

use crate::answers::done;
use crate::harness::Harness;
use crate::held_session::{HeldSession, NewFinder};
use crate::parts::{best_beside, part_step};
use crate::words::Words;
use sabr_model::Plan;
use std::alloc::Allocator;

/// Takes the steps up to `done`, with this finder, and sessions that have a finder of its kind.
pub fn steps_over<A: Allocator + Copy, B: NewFinder<A>>(
    alloc: A,
    plan: &Plan<A>,
    finder: &mut B,
    harness: &mut Harness<'_>,
) {
    let begun = done(harness.alloc);
    harness.answer(begun);
    take_steps(&mut HeldSession::new(alloc, plan), finder, harness);
}

/// Takes the steps up to `done`.
fn take_steps<A: Allocator + Copy, B: NewFinder<A>>(
    held: &mut HeldSession<'_, B, A>,
    finder: &mut B,
    harness: &mut Harness<'_>,
) {
    for _ in 0..u64::MAX {
        let Some((name, mut words)) = harness.next() else {
            return;
        };
        if name == "done" {
            let ended = done(harness.alloc);
            harness.answer(ended);
            return;
        }
        let answer = step(held, finder, harness, name, &mut words);
        harness.answer(answer);
    }
}

/// Does a step that makes a session, one of the session that was made last, one of the finder, or one that needs no
/// plan.
fn step<A: Allocator + Copy, B: NewFinder<A>>(
    held: &mut HeldSession<'_, B, A>,
    finder: &mut B,
    harness: &mut Harness<'_>,
    name: &str,
    words: &mut Words<'_>,
) -> Option<String> {
    match name {
        "start" => held.start(harness),
        "read" => held.read(harness),
        "load" => held.load(harness),
        "feed" => held.feed(harness),
        "verify" => held.verify(harness),
        "fits" | "best" | "looks" | "follow" => part_step(
            held.plan(),
            finder,
            harness,
            name,
            words,
        ),
        "beside" => best_beside(held.alloc(), held.plan(), finder, harness, words),
        "last" => held.last(harness, words),
        "last-looks" => held.last_looks(harness, words),
        "last-detours" => held.last_detours(harness, words),
        "page" | "page-looks" | "back" | "certify" | "place" | "parts" | "write" | "keep" => {
            held.step(harness, name, words)
        }
        _ => harness.step(name, words),
    }
}
