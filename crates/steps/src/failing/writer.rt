//! A writer that takes bytes in pieces up to a limit.

ghost use Rattle.std.specs.Prelude.{◌≡◌, Some, []};

use sabr_model::{Failed, GhostCount, Write};
use std::alloc::{Allocator, Global};

/// A writer that takes bytes in pieces of at most a chosen size, up to a limit, and fails beyond it. It keeps what it
/// took.
///
/// It also fails if there is no memory for the bytes.
#[derive(Drop)]
pub struct LimitedWriter<A: Allocator + Copy = Global> {
    /// What it took.
    held: Vec<u8, A>,
    /// The most bytes that it takes.
    limit: usize,
    /// The most bytes of a piece.
    piece: usize,
    /// Whether `flush` fails.
    flush_fails: bool,
    /// Whether nothing was taken since the last `flush` that succeeded.
    is_flushed: bool,
    /// How often it failed, for proofs alone.
    failures: GhostCount,
}

impl<A: Allocator + Copy> LimitedWriter<A> {
    /// Creates a writer that takes up to `limit` bytes, `piece` at a time, and whose `flush` succeeds.
    pub fn new(alloc: A, limit: usize, piece: usize) -> LimitedWriter<A>
        ensures held { result.held.items ≡ [] }
        ensures failures { result.failures.count ≡ 0 }
    {
        LimitedWriter {
            held: Vec::new(alloc),
            limit,
            piece,
            flush_fails: false,
            is_flushed: false,
            failures: GhostCount::new(),
        }
    }

    /// Creates such a writer, whose `flush` fails.
    pub fn with_failing_flush(alloc: A, limit: usize, piece: usize) -> LimitedWriter<A>
        ensures held { result.held.items ≡ [] }
        ensures failures { result.failures.count ≡ 0 }
    {
        let mut writer = LimitedWriter::new(alloc, limit, piece);
        writer.flush_fails = true;
        writer
    }

    /// The bytes that were taken.
    pub fn held(&self) -> &[u8]
        ensures { result.now ≡ self.now.held.items }
    {
        &self.held
    }

    /// Whether it was flushed, and has taken nothing and failed at nothing since.
    pub fn is_flushed(&self) -> bool
        ensures { result ≡ self.now.is_flushed }
    {
        self.is_flushed
    }
}

impl<A: Allocator + Copy> Write for LimitedWriter<A> {
    ghost output = { λ writer. record { contents = Some writer.held.items; taken = writer.held.items; failures = writer.failures.count; flushed = writer.is_flushed } };

    fn write(&mut self, buf: &[u8]) -> Result<usize, Failed> {
        self.is_flushed = false;
        let room = self.limit.saturating_sub(self.held.len());
        let count = room.min(self.piece).min(buf.len());
        if count == 0 && !buf.is_empty() {
            self.failures.add();
            return Err(Failed);
        }
        match self.held.extend_from_slice(&buf[..count]) {
            Ok(()) => Ok(count),
            Err(_) => {
                self.failures.add();
                Err(Failed)
            }
        }
    }

    fn flush(&mut self) -> Result<(), Failed> {
        self.is_flushed = !self.flush_fails;
        if self.flush_fails {
            self.failures.add();
            return Err(Failed);
        }
        Ok(())
    }
}
