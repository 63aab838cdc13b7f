//! Numbers put into a text.
//!
//! What puts one piece is inlined, since a call for each took half as many instructions again for the line of a part.

ghost use Rattle.std.specs.Prelude.{◌++◌};
ghost use Rattle.sabr_session.specs.Gathering.{Puts};
ghost use Rattle.sabr_session.specs.SessionText.{spaced_by};

use crate::writing::text_buffer::TextBuffer;
use itoa::{Buffer, Integer};
use sabr_model::{Write, WriteFault};

/// Puts the number in decimal digits.
#[inline(always)]
pub(crate) fn put_digits<W: Write, N: Integer>(
    text: &mut TextBuffer<'_, W>,
    number: N,
) -> Result<(), WriteFault>
    ensures { Puts W.output text.old (N.text number) result text.new }
{
    let mut digits = Buffer::new();
    text.put(digits.format(number).as_bytes())
}

/// Puts the label, and after it the number in decimal digits.
#[inline(always)]
pub(crate) fn put_number<W: Write, N: Integer>(
    text: &mut TextBuffer<'_, W>,
    label: &[u8],
    number: N,
) -> Result<(), WriteFault>
    ensures { Puts W.output text.old (label.now ++ N.text number) result text.new }
{
    text.put(label)?;
    put_digits(text, number)
}

/// Puts each number after a space.
#[inline(always)]
pub(crate) fn put_numbers<W: Write, N: Integer>(
    text: &mut TextBuffer<'_, W>,
    numbers: &[N],
) -> Result<(), WriteFault>
    ensures { Puts W.output text.old (spaced_by N.text numbers.now) result text.new }
{
    for number in numbers {
        put_number(text, b" ", *number)?;
    }
    Ok(())
}
