//! A buffered writer with a fixed array, so that the writer is called seldom.

ghost use Rattle.sabr_session.specs.Gathering.{IsEmptyBefore, Puts, Sends};

use arrayvec::ArrayVec;
use sabr_model::{Write, WriteFault, write_text};

/// The size of the array, in bytes. Not varied in measurements.
const CAPACITY: usize = 4096;

/// A writer, and the bytes of a text that weren't passed to it yet. It doesn't allocate.
#[derive(Drop)]
pub struct TextBuffer<'w, W> {
    writer: &'w mut W,
    held: ArrayVec<u8, CAPACITY>,
}

impl<'w, W: Write> TextBuffer<'w, W> {
    /// Returns a buffer that holds no bytes yet.
    pub fn new(writer: &'w mut W) -> TextBuffer<'w, W>
        ensures { IsEmptyBefore writer.entry result }
    {
        TextBuffer {
            writer,
            held: ArrayVec::new(),
        }
    }

    /// Puts the text after the bytes held. If it doesn't fit, these are written first. A text longer than the buffer is
    /// then written directly.
    ///
    /// # Errors
    ///
    /// [`WriteFault`] if the writer failed. Then a prefix of the bytes held and the text was written.
    #[inline(always)]
    pub fn put(&mut self, text: &[u8]) -> Result<(), WriteFault>
        ensures { Puts W.output self.old text.now result self.new }
    {
        if text.len() > CAPACITY - self.held.len() {
            self.send()?;
            if text.len() > CAPACITY {
                return write_text(self.writer, text);
            }
        }
        let Ok(()) = self.held.try_extend_from_slice(text) else {
            unreachable!();
        };
        Ok(())
    }

    /// Passes all the bytes held to the writer, and doesn't flush.
    ///
    /// # Errors
    ///
    /// [`WriteFault`] if the writer failed. Then a prefix of them was written.
    pub fn send(&mut self) -> Result<(), WriteFault>
        ensures { Sends W.output self.old result self.new }
    {
        write_text(self.writer, self.held.as_slice())?;
        self.held.clear();
        Ok(())
    }
}
