//! A reader that returns its bytes in pieces.

ghost use Rattle.std.specs.Prelude.{◌≡◌, ◌<◌, ◌≤◌, Some, [], false, take, length};

use sabr_model::{Failed, GhostBytes, GhostCount, GhostFlag, Read};

/// What a reader returns after all its bytes.
#[derive(Clone, Copy, Debug, PartialEq, Eq)]
pub enum End {
    /// The end of the text.
    Ended,
    /// `Failed`, however often it is asked.
    Fails,
}

/// A reader that returns its bytes in pieces of at most a chosen size, and then ends or fails.
#[derive(Drop)]
pub struct PieceReader<'a> {
    /// The bytes that weren't read yet.
    bytes: &'a [u8],
    /// The most bytes of a piece.
    piece: usize,
    /// What comes after the bytes.
    end: End,
    /// The bytes that it returned, for proofs alone.
    given: GhostBytes,
    /// Whether its last answer reported the end, for proofs alone.
    ended: GhostFlag,
    /// How often it failed, for proofs alone.
    failures: GhostCount,
    ghost gives: { 0 < piece },
}

impl<'a> PieceReader<'a> {
    /// Creates a reader that returns these bytes, `piece` of them at a time.
    pub fn new(bytes: &'a [u8], piece: usize, end: End) -> PieceReader<'a>
        requires { 0 < piece }
        ensures bytes { result.bytes.now ≡ bytes.now }
        ensures given { result.given.bytes ≡ [] }
        ensures ended { result.ended.is_up ≡ false }
        ensures failures { result.failures.count ≡ 0 }
    {
        PieceReader {
            bytes,
            piece,
            end,
            given: GhostBytes::new(),
            ended: GhostFlag::down(),
            failures: GhostCount::new(),
        }
    }

    /// Creates a reader that returns the first `limit` bytes and then fails.
    pub fn failing_after(bytes: &'a [u8], limit: usize, piece: usize) -> PieceReader<'a>
        requires limit { limit ≤ length bytes.now }
        requires piece { 0 < piece }
        ensures bytes { result.bytes.now ≡ take limit bytes.now }
        ensures given { result.given.bytes ≡ [] }
        ensures ended { result.ended.is_up ≡ false }
        ensures failures { result.failures.count ≡ 0 }
    {
        PieceReader::new(&bytes[..limit], piece, End::Fails)
    }
}

impl<'a> Read for PieceReader<'a> {
    ghost input = { λ reader. record { remaining = Some reader.bytes.now; given = reader.given.bytes; ended = reader.ended.is_up; failures = reader.failures.count } };

    fn read(&mut self, buf: &mut [u8]) -> Result<usize, Failed> {
        self.ended = GhostFlag::down();
        if self.bytes.is_empty() && self.end == End::Fails {
            self.failures.add();
            return Err(Failed);
        }
        let count = self.piece.min(self.bytes.len()).min(buf.len());
        let (given, rest) = self.bytes.split_at(count);
        buf[..count].copy_from_slice(given);
        self.bytes = rest;
        self.given.append(given);
        if count == 0 && !buf.is_empty() {
            self.ended = GhostFlag::up();
        }
        Ok(count)
    }
}
