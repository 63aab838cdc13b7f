//! Writing the text of a session.

ghost use Rattle.std.specs.Prelude.{◌≡◌, [], flat_map, unwrap_or};
ghost use Rattle.std.specs.List.{concat};
ghost use Rattle.std.specs.Option.{option_map, option_copied};
ghost use Rattle.sabr_model.specs.Devices.{WritesText};
ghost use Rattle.sabr_plan.specs.Canonical.{digest_of};
ghost use Rattle.sabr_frontier.specs.tree.Shape.{numbers_of};
ghost use Rattle.sabr_frontier.specs.session.Views.{seen_of, seen_left};
ghost use Rattle.sabr_session.specs.Gathering.{Puts};
ghost use Rattle.sabr_session.specs.SessionText.{plan_line, request_line, state_lines, text_of, text_of_session, HasText, counts_pieces, seen_line};

use crate::hex_digest::digest_text;
use crate::writing::pieces::{Piece, put_all, put_pieces};
use crate::writing::text_buffer::TextBuffer;
use sabr_frontier::{PartView, Parts, Session};
use sabr_model::{Request, Route, Write, WriteFault};
use sabr_plan::time_text;
use sabr_search::BestOf;
use std::alloc::Allocator;

/// Writes the text of the session: the digest, which is that of its plan, its request, the number of emitted routes,
/// the last of them, and each part, also those without a route. There is one text for these values, in version 2.
///
/// It doesn't allocate or flush. The format of the text is this project's own. Its time grows with the length of the
/// text.
///
/// # Errors
///
/// [`WriteFault`] if the writer failed. Then a prefix of the text was written.
pub fn write_session<W: Write, B: BestOf<A>, A: Allocator + Copy>(
    session: &Session<'_, B, A>,
    digest: &[u8; 32],
    writer: &mut W,
) -> Result<(), WriteFault>
    requires { digest.now ≡ digest_of session.now.plan.plan }
    ensures there { HasText session.now.state }
    ensures text { WritesText (W.output writer.old) (text_of_session session.now) result (W.output writer.new) }
{
    count_fits(session);
    let mut text = TextBuffer::new(writer);
    put_session(&mut text, session, digest)?;
    text.send()
}

/// Shows that the number of parts of a session fits a text. It does nothing at run time.
fn count_fits<B: BestOf<A>, A: Allocator + Copy>(session: &Session<'_, B, A>)
    ensures { HasText session.now.state }
{
    session.part_count();
}

/// Puts the whole text.
fn put_session<W: Write, B: BestOf<A>, A: Allocator + Copy>(
    text: &mut TextBuffer<'_, W>,
    session: &Session<'_, B, A>,
    digest: &[u8; 32],
) -> Result<(), WriteFault>
    ensures { Puts W.output text.old (text_of digest.now session.now.request session.now.state) result text.new }
{
    text.put(b"cgr-session 2\n")?;
    put_digest(text, digest)?;
    put_request(text, session.request())?;
    put_state(text, session)
}

/// Puts the line of the digest.
fn put_digest<W: Write>(text: &mut TextBuffer<'_, W>, digest: &[u8; 32]) -> Result<(), WriteFault>
    ensures { Puts W.output text.old (plan_line digest.now) result text.new }
{
    let digits = digest_text(digest);
    let pieces: [&[u8]; 3] = [b"plan ", &digits, b"\n"];
    put_pieces(text, &pieces)
}

/// Puts the line of the request.
fn put_request<W: Write>(text: &mut TextBuffer<'_, W>, request: &Request) -> Result<(), WriteFault>
    ensures { Puts W.output text.old (request_line request.now) result text.new }
{
    let at = time_text(request.at());
    let pieces = [
        Piece::Text(b"request "),
        Piece::Number(request.from()),
        Piece::Text(b" "),
        Piece::Number(request.to()),
        Piece::Text(b" "),
        Piece::Text(&at),
        Piece::Text(b" "),
        Piece::Number(request.margin_ppm() as u64),
        Piece::Text(b" "),
        Piece::Number(request.max_hops() as u64),
        Piece::Text(b" / "),
        Piece::Nodes(request.avoided()),
        Piece::Text(b"\n"),
    ];
    put_all(text, &pieces)
}

/// Puts the lines after that of the request.
fn put_state<W: Write, B: BestOf<A>, A: Allocator + Copy>(
    text: &mut TextBuffer<'_, W>,
    session: &Session<'_, B, A>,
) -> Result<(), WriteFault>
    ensures { Puts W.output text.old (state_lines session.now.state) result text.new }
{
    put_counts(text, session)?;
    put_parts(text, session.parts())?;
    text.put(b"end\n")
}

/// Puts the number of emitted routes, the last of them, and the number of parts.
fn put_counts<W: Write, B: BestOf<A>, A: Allocator + Copy>(
    text: &mut TextBuffer<'_, W>,
    session: &Session<'_, B, A>,
) -> Result<(), WriteFault>
    ensures { Puts W.output text.old (concat (counts_pieces session.now.state)) result text.new }
{
    let pieces = [
        Piece::Text(b"emitted "),
        Piece::Number(session.emitted() as u64),
        Piece::Text(b"\nlast "),
        Piece::Contacts(session.last()),
        Piece::Text(b"\nparts "),
        Piece::Number(session.part_count() as u64),
        Piece::Text(b"\n"),
    ];
    put_all(text, &pieces)
}

/// Puts a line for each part.
fn put_parts<W: Write, A: Allocator + Copy>(
    text: &mut TextBuffer<'_, W>,
    parts: Parts<'_, A>,
) -> Result<(), WriteFault>
    ensures { Puts W.output text.old (flat_map seen_line (seen_left parts.entry)) result text.new }
{
    for part in parts {
        put_part(text, &part)?;
    }
    Ok(())
}

/// Puts the line of the part.
fn put_part<W: Write, A: Allocator + Copy>(
    text: &mut TextBuffer<'_, W>,
    part: &PartView<'_, A>,
) -> Result<(), WriteFault>
    ensures { Puts W.output text.old (seen_line (seen_of part.now)) result text.new }
{
    let pieces = [
        Piece::Text(b"part "),
        Piece::Contacts(part.prefix),
        Piece::Text(b" / "),
        Piece::Contacts(part.excluded),
        Piece::Text(b" / "),
        Piece::Contacts(numbers_in(part.route)),
        Piece::Text(b"\n"),
    ];
    put_all(text, &pieces)
}

/// The numbers of the best route of a part, or no number if it has none.
fn numbers_in<'a, A: Allocator + Copy>(route: Option<&'a Route<A>>) -> &'a [u32]
    ensures { result.now ≡ unwrap_or (option_map numbers_of (option_copied route.entry)) [] }
{
    match route {
        Some(route) => route.contacts.as_slice(),
        None => &[],
    }
}
