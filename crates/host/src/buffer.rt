//! A writer into a buffer of the caller.

ghost use Rattle.std.specs.Prelude.{◌≡◌, [], length};
ghost use Rattle.host.specs.Buffers.{buffer_output, put_over};

use crate::put::put_text;
use sabr_model::{Failed, GhostBytes, GhostCount, Write};

/// A writer into a buffer of the caller. It stores the bytes that fit, counts all, and allocates nothing. It fails only
/// where the count would pass `usize::MAX`.
#[derive(Drop)]
pub struct Buffer<'a> {
    /// The caller's buffer.
    room: &'a mut [u8],
    /// The number of bytes that it took.
    total: usize,
    /// What the buffer held at first, for proofs alone.
    before: GhostBytes,
    /// The bytes that it took, for proofs alone.
    taken: GhostBytes,
    /// How often it failed, for proofs alone.
    failures: GhostCount,
    ghost stored: { room.now ≡ put_over before.bytes taken.bytes },
    ghost counted: { total ≡ length taken.bytes },
}

impl<'a> Buffer<'a> {
    /// Writes to this buffer, from its front.
    pub fn new(room: &'a mut [u8]) -> Buffer<'a>
        ensures same_room { result.room.ghost_name ≡ room.entry.ghost_name }
        ensures before { result.before.bytes ≡ room.old }
        ensures taken { result.taken.bytes ≡ [] }
        ensures failures { result.failures.count ≡ 0 }
    {
        let mut before = GhostBytes::new();
        before.append(room);
        Buffer {
            room,
            total: 0,
            before,
            taken: GhostBytes::new(),
            failures: GhostCount::new(),
        }
    }

    /// The number of bytes that it took, also of those that didn't fit.
    pub fn length(&self) -> usize
        ensures { result ≡ length self.now.taken.bytes }
    {
        self.total
    }
}

impl<'a> Write for Buffer<'a> {
    ghost output = { λ w. buffer_output w.room.ghost_name w.before.bytes w.taken.bytes w.failures.count };

    fn write(&mut self, buf: &[u8]) -> Result<usize, Failed> {
        let Some(total) = self.total.checked_add(buf.len()) else {
            self.failures.add();
            return Err(Failed);
        };
        let at = self.total.min(self.room.len());
        put_text(buf, &mut self.room[at..]);
        self.total = total;
        self.taken.append(buf);
        Ok(buf.len())
    }

    fn flush(&mut self) -> Result<(), Failed> {
        Ok(())
    }
}
