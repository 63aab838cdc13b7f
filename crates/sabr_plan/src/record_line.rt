//! A line of the canonical text of a plan, in a fixed array. It is made from its end to its front, since the last digit of
//! a number is known first, and then no byte is copied.

ghost use Rattle.std.specs.Prelude.{◌≡◌, ℕ, List, ◌+◌, ◌<◌, ◌≤◌, [], ◌∷◌, ◌++◌, decimal, length};
ghost use Rattle.sabr_plan.specs.Canonical.{contact_line, range_line};

use itoa::write_digits;
use sabr_model::{Contact, Range};
use std::marker::Model;

/// The size of the array, in bytes. A line has at most 128: a letter, six numbers of up to 20 digits with a space before
/// each, and LF.
const CAPACITY: usize = 128;

/// The bytes of a line.
#[derive(Drop)]
pub struct RecordLine {
    bytes: [u8; CAPACITY],
    /// The index of the line's first byte. The last byte of the line is that of the array.
    start: usize,
}

impl Model for RecordLine {
    ghost use Rattle.std.specs.Prelude.{ℕ, List, ◌≤◌, drop};

    ghost Value = { List ℕ };

    ghost view = { λ line. drop line.start line.bytes };

    ghost invariant = { λ line. line.start ≤ 128 };
}

impl RecordLine {
    /// The line's bytes.
    pub fn as_bytes(&self) -> &[u8]
        ensures { result.now ≡ self.now }
    {
        &self.bytes[self.start..]
    }

    /// Returns a line of which there is only the LF.
    #[inline(always)]
    fn ended() -> RecordLine
        ensures { result ≡ 10 ∷ [] }
    {
        RecordLine {
            bytes: [b'\n'; CAPACITY],
            start: CAPACITY - 1,
        }
    }

    /// Puts a space and a number before the line.
    fn put_number(&mut self, number: u64)
        requires { length self.old + 21 ≤ 128 }
        ensures value { self.new ≡ 32 ∷ decimal number ++ self.old }
        ensures bound { length self.new ≤ length self.old + 21 }
    {
        self.start = write_digits(number, &mut self.bytes, self.start);
        self.put(b' ');
    }

    /// Puts a byte before the line.
    #[inline(always)]
    fn put(&mut self, byte: u8)
        requires { length self.old < 128 }
        ensures { self.new ≡ byte ∷ self.old }
    {
        self.start -= 1;
        self.bytes[self.start] = byte;
    }
}

/// A record of a plan, which has a line in the plan's canonical text.
pub trait Record {
    /// The line, with its LF.
    ghost line_of: { Self → List ℕ };

    /// Returns the line, with its LF.
    fn line(&self) -> RecordLine
        ensures { result ≡ line_of self.now };
}

impl Record for Contact {
    ghost line_of = { contact_line };

    #[inline(always)]
    #[tactic(auto, unfolding(crate::specs::Canonical::contact_line))]
    fn line(&self) -> RecordLine {
        let mut line = RecordLine::ended();
        line.put_number(self.rate);
        line.put_number(self.to);
        line.put_number(self.from);
        line.put_number(self.end);
        line.put_number(self.start);
        line.put_number(self.number as u64);
        line.put(b'c');
        line
    }
}

impl Record for Range {
    ghost line_of = { range_line };

    #[inline(always)]
    #[tactic(auto, unfolding(crate::specs::Canonical::range_line))]
    fn line(&self) -> RecordLine {
        let mut line = RecordLine::ended();
        line.put_number(self.light as u64);
        line.put_number(self.end);
        line.put_number(self.start);
        line.put_number(self.other);
        line.put_number(self.one);
        line.put(b'r');
        line
    }
}
