//! The report of a page.

ghost use Rattle.std.specs.Prelude.{◌+◌, ◌^◌, ◌<◌, ◌≤◌, All, length};
ghost use Rattle.std.specs.List.{concat};
ghost use Rattle.sabr_model.specs.Devices.{WritesText};
ghost use Rattle.sabr_plan.specs.Times.{last_spelled};
ghost use Rattle.sabr_session.specs.Gathering.{Puts};
ghost use Rattle.sabr_session.specs.ReportText.{HasSpelledTimes, figure_pieces, route_line, report_line, report_lines, last_line, report_text};

use crate::writing::pieces::put_pieces;
use crate::writing::put_numbers::{put_digits, put_numbers};
use crate::writing::text_buffer::TextBuffer;
use itoa::Buffer;
use sabr_model::{Route, Write, WriteFault};
use sabr_plan::DayText;
use std::alloc::Allocator;

/// The days of the last delivery and of the last end that were put.
#[derive(Clone, Copy)]
struct LastDays {
    delivery: DayText,
    until: DayText,
}

impl LastDays {
    fn new() -> LastDays {
        LastDays {
            delivery: DayText::new(),
            until: DayText::new(),
        }
    }
}

/// What the line of a route says: the numbers of its contacts, its best-case delivery time, its termination time and its
/// entry node.
#[derive(Clone, Copy)]
struct Figures<'r> {
    contacts: &'r [u32],
    delivery: u64,
    until: u64,
    entry: u64,
}

/// Writes a line for each route, with ranks counting up from the first one, and then `more` if another route follows,
/// or `end`.
///
/// It doesn't allocate or flush.
///
/// # Errors
///
/// [`WriteFault`] if the writer failed. Then a prefix of the report was written.
pub fn write_report<W: Write, A: Allocator + Copy>(
    routes: &[Route<A>],
    first_rank: u128,
    more: bool,
    writer: &mut W,
) -> Result<(), WriteFault>
    requires ranks { first_rank + length routes.now < 2 ^ 128 }
    requires times { All HasSpelledTimes routes.now }
    ensures { WritesText (W.output writer.old) (report_text routes.now first_rank more) result (W.output writer.new) }
{
    let mut text = TextBuffer::new(writer);
    put_report(&mut text, routes, first_rank, more)?;
    text.send()
}

/// Puts what [`write_report`] writes.
///
/// # Errors
///
/// [`WriteFault`] if the writer failed. Then a prefix of the bytes held and the report was written.
pub fn put_report<W: Write, A: Allocator + Copy>(
    text: &mut TextBuffer<'_, W>,
    routes: &[Route<A>],
    first_rank: u128,
    more: bool,
) -> Result<(), WriteFault>
    requires ranks { first_rank + length routes.now < 2 ^ 128 }
    requires times { All HasSpelledTimes routes.now }
    ensures { Puts W.output text.old (report_text routes.now first_rank more) result text.new }
{
    put_lines(text, routes, first_rank)?;
    put_last_line(text, more)
}

/// Puts a line for each route.
fn put_lines<W: Write, A: Allocator + Copy>(
    text: &mut TextBuffer<'_, W>,
    routes: &[Route<A>],
    first_rank: u128,
) -> Result<(), WriteFault>
    requires ranks { first_rank + length routes.now < 2 ^ 128 }
    requires times { All HasSpelledTimes routes.now }
    ensures { Puts W.output text.old (report_lines first_rank routes.now) result text.new }
{
    let mut days = LastDays::new();
    let mut rank = first_rank;
    for route in routes {
        put_line(text, &mut days, rank, route)?;
        rank += 1;
    }
    Ok(())
}

/// Puts the rank and the line of the route.
fn put_line<W: Write, A: Allocator + Copy>(
    text: &mut TextBuffer<'_, W>,
    days: &mut LastDays,
    rank: u128,
    route: &Route<A>,
) -> Result<(), WriteFault>
    requires { HasSpelledTimes route.now }
    ensures { Puts W.output text.old (report_line rank route.now) result text.new }
{
    put_digits(text, rank)?;
    text.put(b" ")?;
    put_route(text, days, route)
}

/// Puts the line of the route.
fn put_route<W: Write, A: Allocator + Copy>(
    text: &mut TextBuffer<'_, W>,
    days: &mut LastDays,
    route: &Route<A>,
) -> Result<(), WriteFault>
    requires { HasSpelledTimes route.now }
    ensures { Puts W.output text.old (route_line route.now) result text.new }
{
    let contacts = route.contacts.as_slice();
    let figures = Figures {
        contacts,
        delivery: route.delivery,
        until: route.until,
        entry: route.entry,
    };
    put_route_figures(text, days, figures)
}

/// Puts the line of a route, given by the numbers of its contacts, its best-case delivery time, its termination time
/// and its entry node. Both times are seconds since 1970-01-01T00:00:00Z, up to the end of the year 9999.
///
/// # Errors
///
/// [`WriteFault`] if the writer failed. Then a prefix of the bytes held and the line was written.
pub fn put_route_line<W: Write>(
    text: &mut TextBuffer<'_, W>,
    contacts: &[u32],
    delivery: u64,
    until: u64,
    entry: u64,
) -> Result<(), WriteFault>
    requires { (delivery ≤ last_spelled) × (until ≤ last_spelled) }
    ensures { Puts W.output text.old (route_line (record { contacts = contacts.now; delivery = delivery; until = until; entry = entry })) result text.new }
{
    let figures = Figures {
        contacts,
        delivery,
        until,
        entry,
    };
    put_route_figures(text, &mut LastDays::new(), figures)
}

/// Puts the line of a route.
fn put_route_figures<W: Write>(
    text: &mut TextBuffer<'_, W>,
    days: &mut LastDays,
    figures: Figures<'_>,
) -> Result<(), WriteFault>
    requires { (figures.delivery ≤ last_spelled) × (figures.until ≤ last_spelled) }
    ensures { Puts W.output text.old (route_line (record { contacts = figures.entry.contacts.now; delivery = figures.entry.delivery; until = figures.entry.until; entry = figures.entry.entry })) result text.new }
{
    put_figures(text, days, figures)?;
    put_numbers(text, figures.contacts)?;
    text.put(b"\n")
}

/// Puts the line of a route up to the numbers of its contacts.
fn put_figures<W: Write>(
    text: &mut TextBuffer<'_, W>,
    days: &mut LastDays,
    figures: Figures<'_>,
) -> Result<(), WriteFault>
    requires { (figures.delivery ≤ last_spelled) × (figures.until ≤ last_spelled) }
    ensures { Puts W.output text.old (concat (figure_pieces (record { contacts = figures.entry.contacts.now; delivery = figures.entry.delivery; until = figures.entry.until; entry = figures.entry.entry }))) result text.new }
{
    let mut hops = Buffer::new();
    let mut node = Buffer::new();
    let delivery = days.delivery.time_text(figures.delivery);
    let until = days.until.time_text(figures.until);
    let pieces: [&[u8]; 9] = [
        b"delivery ",
        &delivery,
        b" hops ",
        hops.format(figures.contacts.len()).as_bytes(),
        b" entry ",
        node.format(figures.entry).as_bytes(),
        b" until ",
        &until,
        b" contacts",
    ];
    put_pieces(text, &pieces)
}

/// Puts `more` if another route follows, and `end` otherwise.
fn put_last_line<W: Write>(text: &mut TextBuffer<'_, W>, more: bool) -> Result<(), WriteFault>
    ensures { Puts W.output text.old (last_line more) result text.new }
{
    if more {
        text.put(b"more\n")
    } else {
        text.put(b"end\n")
    }
}
