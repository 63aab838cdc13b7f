//! Readers and writers whose contracts state which bytes move and how often a device has failed.

ghost use Rattle.std.specs.Prelude.{◌≡◌, ◌+◌, ◌≤◌, ◌<◌, length, IfOk, IsTrue};
ghost use Rattle.std.specs.Io.KnownBytes.{IsAtEnd};
ghost use Rattle.sabr_model.specs.Devices.{Input, Output, ReadGives, TakesNone, WriteTakes, call_faults, tells_end, write_faults, WritesText};

mod std_device;

pub use std_device::Device;

/// The one error of a device.
#[derive(Clone, Copy, Debug, PartialEq, Eq)]
pub struct Failed;

/// A reader of bytes.
///
/// A contract sees all bytes that were returned, whether the last read reported the end, and the count of the reader's
/// failures. It also sees the bytes that are left, if the reader knows them.
pub trait Read {
    /// What a contract sees of the reader.
    ghost input: { Self → Input };

    /// Reads bytes to the front of the buffer and returns their number. The number is 0 only at the end, or if the
    /// buffer is empty.
    ///
    /// `Failed` moves no byte and counts as one failure. Nothing else counts.
    fn read(&mut self, buf: &mut [u8]) -> Result<usize, Failed>
        ensures bound { IfOk result (λ n. n ≤ length buf.new) }
        ensures bytes { ReadGives (input self.old) result buf.new (input self.new) }
        ensures end { (input self.new).ended ≡ tells_end result buf.new }
        ensures left { IfOk result (λ n. n ≡ 0 → 0 < length buf.new → IsAtEnd (input self.new).remaining) }
        ensures count { (input self.new).failures ≡ (input self.old).failures + call_faults result };
}

/// A writer of bytes.
///
/// A contract sees all bytes that were taken, the count of the writer's failures, and whether all bytes that were taken
/// were flushed. It also sees the bytes that the writer holds, if it knows them.
pub trait Write {
    /// What a contract sees of the writer. `flushed` is known after a `flush` that returned `Ok`, until the next call.
    ghost output: { Self → Output };

    /// Takes bytes from the front of the slice and returns their number.
    ///
    /// `Failed` moves no byte and counts as one failure. So does taking no byte of a slice that isn't empty. Nothing
    /// else counts.
    fn write(&mut self, buf: &[u8]) -> Result<usize, Failed>
        ensures bound { IfOk result (λ n. n ≤ length buf.now) }
        ensures bytes { WriteTakes (output self.old) result buf.now (output self.new) }
        ensures count { (output self.new).failures ≡ (output self.old).failures + write_faults result buf.now };

    /// Passes on what the writer may still hold back. `Failed` counts as one failure.
    fn flush(&mut self) -> Result<(), Failed>
        ensures bytes { TakesNone (output self.old) (output self.new) }
        ensures count { (output self.new).failures ≡ (output self.old).failures + call_faults result }
        ensures mark { IfOk result (λ _. IsTrue (output self.new).flushed) };
}

/// A writer failed. The bytes that it took before are a prefix of the text.
#[derive(Clone, Copy, Debug, PartialEq, Eq)]
pub struct WriteFault;

/// Writes the whole text, with as many calls of the writer as that takes. It doesn't flush.
///
/// # Errors
///
/// [`WriteFault`] at the writer's first failure, which may be a call that took no byte. The writer has then taken a
/// prefix of the text.
pub fn write_text<W: Write>(writer: &mut W, text: &[u8]) -> Result<(), WriteFault>
    ensures { WritesText (W.output writer.old) text.now result (W.output writer.new) }
{
    let mut at = 0;
    while at < text.len() {
        let Ok(taken) = writer.write(&text[at..]) else {
            return Err(WriteFault);
        };
        if taken == 0 {
            return Err(WriteFault);
        }
        at += taken;
    }
    Ok(())
}
