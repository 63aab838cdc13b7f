//! The steps of a finder, and those that ask a plan without a session.

use crate::answers::{no_memory, put_route, refused, yes_or_no};
use crate::harness::Harness;
use crate::words::{Words, numbers};
use sabr_index::Index;
use sabr_model::{NoMemory, Plan, Request, Route, follow};
use sabr_search::{BestOf, Excluded, Part, SearchCache, fits};
use std::alloc::{Allocator, Global};

/// Does a step of a finder, or one that asks the plan.
pub fn part_step<A: Allocator + Copy, B: BestOf<A>>(
    plan: &Plan<A>,
    finder: &mut B,
    harness: &mut Harness<'_>,
    name: &str,
    words: &mut Words<'_>,
) -> Option<String> {
    let request = harness.asked.request().ok()?;
    match name {
        "fits" => fitting(plan, &request, harness.alloc, words),
        "best" => best_named(finder, plan, &request, harness.alloc, words),
        "looks" => format!(in harness.alloc; "{}", finder.looks()).ok(),
        "follow" => followed(plan, &request, harness.alloc, words),
        _ => None,
    }
}

/// Whether the prefix PREFIX fits.
fn fitting<A: Allocator + Copy>(
    plan: &Plan<A>,
    request: &Request,
    alloc: Global,
    words: &mut Words<'_>,
) -> Option<String> {
    let prefix = numbers(alloc, words)?;
    let part = Part {
        prefix: &prefix,
        excluded: &[],
    };
    yes_or_no(alloc, fits(plan, request, part))
}

/// The delivery of the contacts CONTACTS, or their fault.
fn followed<A: Allocator + Copy>(
    plan: &Plan<A>,
    request: &Request,
    alloc: Global,
    words: &mut Words<'_>,
) -> Option<String> {
    let contacts = numbers(alloc, words)?;
    match follow(plan, request, &contacts) {
        Ok(delivery) => format!(in alloc; "{delivery}").ok(),
        Err(fault) => refused(alloc, fault),
    }
}

/// The best route of the part PREFIX / EXCLUDED.
fn best_named<A: Allocator + Copy, B: BestOf<A>>(
    finder: &mut B,
    plan: &Plan<A>,
    request: &Request,
    alloc: Global,
    words: &mut Words<'_>,
) -> Option<String> {
    let prefix = numbers(alloc, words)?;
    let excluded = numbers(alloc, words)?;
    let part = Part {
        prefix: &prefix,
        excluded: &excluded,
    };
    best(finder, plan, request, part, alloc)
}

/// The best route of a part.
fn best<A: Allocator + Copy, B: BestOf<A>>(
    finder: &mut B,
    plan: &Plan<A>,
    request: &Request,
    part: Part<'_>,
    alloc: Global,
) -> Option<String> {
    if !fits(plan, request, part) {
        return String::from_str(alloc, "no prefix").ok();
    }
    found_text(finder.best(plan, request, part), alloc)
}

/// Asks for the best route of the part PREFIX / EXCLUDED, with an index of the plan and a new cache.
pub fn best_beside<A: Allocator + Copy, B: BestOf<A>>(
    over: A,
    plan: &Plan<A>,
    finder: &mut B,
    harness: &Harness<'_>,
    words: &mut Words<'_>,
) -> Option<String> {
    let request = harness.asked.request().ok()?;
    let prefix = numbers(harness.alloc, words)?;
    let excluded = numbers(harness.alloc, words)?;
    let part = Part {
        prefix: &prefix,
        excluded: &excluded,
    };
    if !fits(plan, &request, part) {
        return String::from_str(harness.alloc, "no prefix").ok();
    }
    let Ok(index) = Index::new(over, plan) else {
        return no_memory(harness.alloc);
    };
    let mut cache = SearchCache::new(over);
    let others = Excluded::of(&excluded);
    let found = finder.best_beside(&mut cache, &index, &request, &prefix, others);
    found_text(found, harness.alloc)
}

/// The route that a finder found, or what it answered instead.
fn found_text<A: Allocator + Copy>(
    found: Result<Option<Route<A>>, NoMemory>,
    alloc: Global,
) -> Option<String> {
    match found {
        Ok(Some(route)) => {
            let mut text = String::from_str(alloc, "route").ok()?;
            put_route(&mut text, &route, alloc)?;
            Some(text)
        }
        Ok(None) => String::from_str(alloc, "none").ok(),
        Err(_) => no_memory(alloc),
    }
}
