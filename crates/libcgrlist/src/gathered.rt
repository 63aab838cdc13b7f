//! A writer into memory.

ghost use Rattle.std.specs.Prelude.{◌≡◌, [], Some, true};

use sabr_model::{Failed, GhostCount, Write};
use std::alloc::Global;

/// A writer that keeps the bytes that it takes. It fails if an allocation does.
#[derive(Drop)]
pub struct Gathered {
    /// The bytes that it took.
    bytes: Vec<u8, Global>,
    /// How often it failed, for proofs alone.
    failures: GhostCount,
}

impl Gathered {
    /// Returns a writer that took no bytes yet. It doesn't allocate.
    pub fn new(alloc: Global) -> Gathered
        ensures bytes { result.bytes.items ≡ [] }
        ensures failures { result.failures.count ≡ 0 }
    {
        Gathered {
            bytes: Vec::new(alloc),
            failures: GhostCount::new(),
        }
    }

    /// The bytes that it took.
    pub fn into_bytes(self) -> Vec<u8, Global>
        ensures { result.items ≡ self.bytes.items }
    {
        self.bytes
    }
}

impl Write for Gathered {
    ghost output = { λ w. record { contents = Some w.bytes.items; taken = w.bytes.items; failures = w.failures.count; flushed = true } };

    fn write(&mut self, buf: &[u8]) -> Result<usize, Failed> {
        match self.bytes.extend_from_slice(buf) {
            Ok(()) => Ok(buf.len()),
            Err(_refused) => {
                self.failures.add();
                Err(Failed)
            }
        }
    }

    fn flush(&mut self) -> Result<(), Failed> {
        Ok(())
    }
}
