//! Texts in pieces, put in turn: slices, numbers and lists of numbers.

ghost use Rattle.std.specs.Prelude.{map};
ghost use Rattle.std.specs.List.{concat};
ghost use Rattle.sabr_session.specs.Gathering.{Puts};
ghost use Rattle.sabr_session.specs.Pieces.{piece_text};
ghost use Rattle.sabr_session.specs.SessionText.{listed_by};

use crate::writing::put_numbers::{put_digits, put_numbers};
use crate::writing::text_buffer::TextBuffer;
use itoa::Integer;
use sabr_model::{Write, WriteFault};

/// A piece of a text.
#[derive(Clone, Copy)]
pub(crate) enum Piece<'t, 'n> {
    /// These bytes.
    Text(&'t [u8]),
    /// The number in decimal digits.
    Number(u64),
    /// The numbers, separated by spaces, or `-` if there is none.
    Contacts(&'n [u32]),
    /// The same of the numbers of nodes.
    Nodes(&'n [u64]),
}

/// Puts the slices in turn.
///
/// # Errors
///
/// [`WriteFault`] if the writer failed. Then a beginning of these bytes was written: those that the buffer held, and
/// then those of the slices.
pub fn put_pieces<W: Write>(
    text: &mut TextBuffer<'_, W>,
    pieces: &[&[u8]],
) -> Result<(), WriteFault>
    ensures { Puts W.output text.old (concat (map (λ t. t.now) pieces.now)) result text.new }
{
    for piece in pieces {
        text.put(piece)?;
    }
    Ok(())
}

/// Puts the pieces in turn.
pub(crate) fn put_all<W: Write>(
    text: &mut TextBuffer<'_, W>,
    pieces: &[Piece<'_, '_>],
) -> Result<(), WriteFault>
    ensures { Puts W.output text.old (concat (map piece_text pieces.now)) result text.new }
{
    for piece in pieces {
        put_piece(text, *piece)?;
    }
    Ok(())
}

/// Puts the piece.
#[inline(always)]
fn put_piece<W: Write>(text: &mut TextBuffer<'_, W>, piece: Piece<'_, '_>) -> Result<(), WriteFault>
    ensures { Puts W.output text.old (piece_text piece.entry) result text.new }
{
    match piece {
        Piece::Text(bytes) => text.put(bytes),
        Piece::Number(number) => put_digits(text, number),
        Piece::Contacts(numbers) => put_list(text, numbers),
        Piece::Nodes(numbers) => put_list(text, numbers),
    }
}

/// Puts the numbers, separated by spaces, or `-` if there is none.
#[inline(always)]
fn put_list<W: Write, N: Integer>(
    text: &mut TextBuffer<'_, W>,
    numbers: &[N],
) -> Result<(), WriteFault>
    ensures { Puts W.output text.old (listed_by N.text numbers.now) result text.new }
{
    match numbers.split_first() {
        Some((first, others)) => {
            put_digits(text, *first)?;
            put_numbers(text, others)
        }
        None => text.put(b"-"),
    }
}
