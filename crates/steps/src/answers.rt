//! What a step answers, in words.

use sabr_model::Route;
use std::alloc::{Allocator, Global};
use std::fmt::{Debug, Display};

/// The answer of a call that was done.
pub fn done(alloc: Global) -> Option<String> {
    String::from_str(alloc, "ok").ok()
}

/// The answer of a call that was refused: the fault by its name, and by its text.
pub fn refused<F: Debug + Display + Drop>(alloc: Global, fault: F) -> Option<String> {
    format!(in alloc; "{fault:?}: {fault}").ok()
}

/// The answer of a call in which an allocation failed.
pub fn no_memory(alloc: Global) -> Option<String> {
    String::from_str(alloc, "NoMemory").ok()
}

/// Yes or no.
pub fn yes_or_no(alloc: Global, yes: bool) -> Option<String> {
    String::from_str(alloc, if yes { "yes" } else { "no" }).ok()
}

/// Bytes, in hexadecimal digits.
pub fn bytes(alloc: Global, bytes: &[u8]) -> Option<String> {
    hex::encode(alloc, bytes).ok()
}

/// Puts the numbers, each after a space; `-` if there are none.
pub fn put_numbers(text: &mut String, numbers: &[u32], alloc: Global) -> Option<()> {
    if numbers.is_empty() {
        text.push_str(" -").ok()?;
    }
    for number in numbers {
        text.push_str(format!(in alloc; " {number}").ok()?.as_str())
            .ok()?;
    }
    Some(())
}

/// Puts a route: its contacts, delivery, end and entry.
pub fn put_route<A: Allocator + Copy>(
    text: &mut String,
    route: &Route<A>,
    alloc: Global,
) -> Option<()> {
    put_numbers(text, route.contacts.as_slice(), alloc)?;
    let times = format!(in alloc; " / {} {} {}", route.delivery, route.until, route.entry).ok()?;
    text.push_str(times.as_str()).ok()
}

/// The answer of a call that returned routes: their count, and each.
pub fn routes<A: Allocator + Copy>(alloc: Global, routes: &[Route<A>]) -> Option<String> {
    let mut text = format!(in alloc; "{} routes", routes.len()).ok()?;
    for route in routes {
        text.push_str(" ;").ok()?;
        put_route(&mut text, route, alloc)?;
    }
    Some(text)
}

/// The answer of a call that returned routes, and whether there are more.
pub fn routes_and_more<A: Allocator + Copy>(
    alloc: Global,
    given: &[Route<A>],
    more: bool,
) -> Option<String> {
    let mut text = routes(alloc, given)?;
    text.push_str(if more { " more" } else { " end" }).ok()?;
    Some(text)
}
