//! A text to the front of a buffer.

ghost use Rattle.std.specs.Prelude.{◌≡◌, length};
ghost use Rattle.host.specs.Buffers.{put_over};

/// Writes as much of a text as there is room for, and returns the text's length.
pub fn put_text(text: &[u8], buffer: &mut [u8]) -> usize
    ensures buffer { buffer.new ≡ put_over buffer.old text.now }
    ensures length { result ≡ length text.now }
{
    let count = text.len().min(buffer.len());
    buffer[..count].copy_from_slice(&text[..count]);
    text.len()
}
