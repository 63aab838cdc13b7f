//! The text of an explanation: what a list of contacts does, hop by hop, and how it ends.

ghost use Rattle.std.specs.Prelude.{◌≡◌, ◌≤◌, IfOk, IsTrue, flat_map};
ghost use Rattle.sabr_model.specs.Devices.{WritesText};
ghost use Rattle.sabr_model.specs.routes.Route.{is_route};
ghost use Rattle.sabr_session.specs.Gathering.{Puts};
ghost use Rattle.commands.specs.texts.PlanTexts.{explanation_text, hop_line, placed_line, ending_text, fault_line, refused_at};
ghost use Rattle.sabr_plan.specs.Times.{last_spelled};
ghost use Rattle.sabr_session.specs.Hops.{hops_left};

use itoa::Buffer;
use sabr_model::{HopFault, Plan, Request, RouteSummary, Write, WriteFault};
use sabr_plan::time_text;
use sabr_session::{FollowedHop, Hops, TextBuffer, put_pieces, put_route_line};
use std::alloc::Allocator;

/// Puts the line of a hop.
fn put_hop<W: Write>(text: &mut TextBuffer<'_, W>, hop: &FollowedHop<'_>) -> Result<(), WriteFault>
    requires { (hop.now.sent ≤ last_spelled) × (hop.now.arrived ≤ last_spelled) }
    ensures { Puts W.output text.old (hop_line hop.now.place hop.now.contact.now hop.now.sent hop.now.arrived) result text.new }
{
    let contact = hop.contact;
    let mut place = Buffer::new();
    let mut number = Buffer::new();
    let mut from = Buffer::new();
    let mut to = Buffer::new();
    let sent = time_text(hop.sent);
    let arrived = time_text(hop.arrived);
    let pieces: [&[u8]; 13] = [
        b"hop ",
        place.format(hop.place).as_bytes(),
        b" contact ",
        number.format(contact.number).as_bytes(),
        b" from ",
        from.format(contact.from).as_bytes(),
        b" to ",
        to.format(contact.to).as_bytes(),
        b" send ",
        &sent,
        b" arrive ",
        &arrived,
        b"\n",
    ];
    put_pieces(text, &pieces)
}

/// Puts a line for each hop that is left, up to the first fault.
///
/// # Errors
///
/// [`WriteFault`] if the writer failed. Then a beginning of the texts put so far was written.
pub fn put_hops<W: Write, A: Allocator + Copy>(
    text: &mut TextBuffer<'_, W>,
    hops: &mut Hops<'_, A>,
) -> Result<(), WriteFault>
    ensures lines { Puts W.output text.old (flat_map placed_line (hops_left hops.old)) result text.new }
    ensures over { IfOk result (λ _. IsTrue hops.new.over) }
    ensures question { hops.new.question ≡ hops.old.question }
{
    while let Some(hop) = hops.next() {
        put_hop(text, &hop)?;
    }
    Ok(())
}

/// Puts the line of a fault at a place.
fn put_refusal<W: Write>(
    text: &mut TextBuffer<'_, W>,
    place: usize,
    kind: &[u8],
) -> Result<(), WriteFault>
    ensures { Puts W.output text.old (refused_at place kind.now) result text.new }
{
    let mut digits = Buffer::new();
    let pieces: [&[u8]; 5] = [
        b"refused hop ",
        digits.format(place).as_bytes(),
        b": ",
        kind,
        b"\n",
    ];
    put_pieces(text, &pieces)
}

/// Puts the line of a fault.
fn put_fault<W: Write>(text: &mut TextBuffer<'_, W>, fault: HopFault) -> Result<(), WriteFault>
    ensures { Puts W.output text.old (fault_line fault) result text.new }
{
    match fault {
        HopFault::Empty => text.put(b"refused: Empty\n"),
        HopFault::NoSuchContact(place) => put_refusal(text, place, b"NoSuchContact"),
        HopFault::NotChained(place) => put_refusal(text, place, b"NotChained"),
        HopFault::NodeAgain(place) => put_refusal(text, place, b"NodeAgain"),
        HopFault::NoLight(place) => put_refusal(text, place, b"NoLight"),
        HopFault::TooLate(place) => put_refusal(text, place, b"TooLate"),
        HopFault::WrongEnd => text.put(b"refused: WrongEnd\n"),
        HopFault::AvoidedNode(place) => put_refusal(text, place, b"AvoidedNode"),
        HopFault::TooManyHops(place) => put_refusal(text, place, b"TooManyHops"),
    }
}

/// Puts how the contacts of these numbers end: as a route with this delivery, in seconds since 1970-01-01T00:00:00Z, and
/// this summary, or in this fault.
///
/// # Errors
///
/// [`WriteFault`] if the writer failed. Then a beginning of the texts put so far was written.
pub fn put_ending<W: Write>(
    text: &mut TextBuffer<'_, W>,
    contacts: &[u32],
    ending: Result<(u64, RouteSummary), HopFault>,
) -> Result<(), WriteFault>
    requires { IfOk ending (λ e. (e.0 ≤ last_spelled) × (e.1.until ≤ last_spelled)) }
    ensures { Puts W.output text.old (ending_text contacts.now ending) result text.new }
{
    match ending {
        Ok((delivery, summary)) => {
            put_route_line(text, contacts, delivery, summary.until, summary.entry)
        }
        Err(fault) => put_fault(text, fault),
    }
}

/// Puts what the contacts of these numbers do in turn. Each hop before the first fault has a line, with its contact and
/// the times of sending and of arrival. Then comes the line of the route that they make, or that of the fault. Returns
/// whether they make a route.
///
/// It allocates nothing. Its time grows with the number of contacts.
///
/// # Errors
///
/// [`WriteFault`] if the writer failed. Then a beginning of the texts put so far was written.
pub fn put_explanation<W: Write, A: Allocator + Copy>(
    text: &mut TextBuffer<'_, W>,
    plan: &Plan<A>,
    request: &Request,
    contacts: &[u32],
) -> Result<bool, WriteFault>
    ensures text { Puts W.output text.old (explanation_text plan.now.plan request.now contacts.now) result text.new }
    ensures route { IfOk result (λ answer. answer ≡ is_route plan.now.plan request.now contacts.now) }
{
    plan.rules_hold();
    request.limits_hold();
    let mut hops = Hops::new(plan, request, contacts);
    put_hops(text, &mut hops)?;
    let ending = hops.ending();
    put_ending(text, contacts, ending)?;
    Ok(ending.is_ok())
}

/// Writes what the contacts of these numbers do in turn, as [`put_explanation`], and doesn't flush.
///
/// # Errors
///
/// [`WriteFault`] if the writer failed. Then a beginning of the text was written.
pub fn write_explanation<W: Write, A: Allocator + Copy>(
    plan: &Plan<A>,
    request: &Request,
    contacts: &[u32],
    writer: &mut W,
) -> Result<bool, WriteFault>
    ensures text { WritesText (W.output writer.old) (explanation_text plan.now.plan request.now contacts.now) result (W.output writer.new) }
    ensures route { IfOk result (λ answer. answer ≡ is_route plan.now.plan request.now contacts.now) }
{
    let mut text = TextBuffer::new(writer);
    let is_route = put_explanation(&mut text, plan, request, contacts)?;
    text.send()?;
    Ok(is_route)
}
