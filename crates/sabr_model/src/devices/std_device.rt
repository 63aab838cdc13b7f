//! Readers and writers of std, as devices.

ghost use Rattle.std.specs.Prelude.{◌≡◌, [], false};

use crate::devices::{Failed, Read, Write};
use crate::ghost_values::{GhostBytes, GhostCount, GhostFlag};
use std::io;

/// A reader or writer of std. Every error of std becomes `Failed`.
///
/// Proofs see a log of the bytes that std's calls returned and took. They see it for files and standard streams, too,
/// whose bytes std's contracts don't mention.
#[derive(Drop)]
pub struct Device<T> {
    inner: T,
    /// The bytes that std's `read` returned.
    given: GhostBytes,
    /// Whether the last of these calls reported the end.
    ended: GhostFlag,
    /// The bytes that std's `write` took.
    taken: GhostBytes,
    /// Whether std's `flush` succeeded after that.
    flushed: GhostFlag,
    failures: GhostCount,
}

impl<T> Device<T> {
    /// Wraps a reader or writer that has returned and taken no byte, with no failure and no flush so far.
    pub fn new(inner: T) -> Device<T>
        ensures inner { result.inner ≡ inner }
        ensures given { result.given.bytes ≡ [] }
        ensures ended { result.ended.is_up ≡ false }
        ensures taken { result.taken.bytes ≡ [] }
        ensures failures { result.failures.count ≡ 0 }
    {
        Device {
            inner,
            given: GhostBytes::new(),
            ended: GhostFlag::down(),
            taken: GhostBytes::new(),
            flushed: GhostFlag::down(),
            failures: GhostCount::new(),
        }
    }
}

impl<T: io::Read> Read for Device<T> {
    ghost input = { λ d. record { remaining = T.remaining d.inner; given = d.given.bytes; ended = d.ended.is_up; failures = d.failures.count } };

    fn read(&mut self, buf: &mut [u8]) -> Result<usize, Failed> {
        self.ended = GhostFlag::down();
        match self.inner.read(buf) {
            Ok(count) => {
                self.given.append(&buf[..count]);
                let at_end = count == 0 && !buf.is_empty();
                if at_end {
                    self.ended = GhostFlag::up();
                }
                Ok(count)
            }
            Err(_) => {
                self.failures.add();
                Err(Failed)
            }
        }
    }
}

impl<T: io::Write> Write for Device<T> {
    ghost output = { λ d. record { contents = T.contents d.inner; taken = d.taken.bytes; failures = d.failures.count; flushed = d.flushed.is_up } };

    fn write(&mut self, buf: &[u8]) -> Result<usize, Failed> {
        self.flushed = GhostFlag::down();
        match self.inner.write(buf) {
            Ok(count) => {
                self.taken.append(&buf[..count]);
                if count == 0 && !buf.is_empty() {
                    self.failures.add();
                }
                Ok(count)
            }
            Err(_) => {
                self.failures.add();
                Err(Failed)
            }
        }
    }

    fn flush(&mut self) -> Result<(), Failed> {
        match self.inner.flush() {
            Ok(()) => {
                self.flushed = GhostFlag::up();
                Ok(())
            }
            Err(_) => {
                self.flushed = GhostFlag::down();
                self.failures.add();
                Err(Failed)
            }
        }
    }
}
