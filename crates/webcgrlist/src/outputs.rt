//! What a call writes.

/// A buffer of the host, and the length of the text that a call wrote to it.
#[repr(C)]
#[derive(Drop)]
pub struct OutputText<'a> {
    /// The buffer. It holds as much of the text as it has room for.
    pub buffer: &'a mut [u8],
    /// The bytes of the text, also of what didn't fit.
    pub length: usize,
}

/// The texts that a call writes.
#[repr(C)]
#[derive(Drop)]
pub struct Outputs<'r, 's, 'm> {
    /// The report of the run, or the canonical text.
    pub report: OutputText<'r>,
    /// The session after a page, if it is written.
    pub session: OutputText<'s>,
    /// The message of a call that failed.
    pub message: OutputText<'m>,
}

/// The lengths of the texts that a call wrote, in bytes.
#[derive(Clone, Copy)]
pub struct Lengths {
    /// The report's.
    pub report: usize,
    /// The session's.
    pub session: usize,
    /// The message's.
    pub message: usize,
}
