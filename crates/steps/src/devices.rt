//! The ways in which texts are given and taken.

use crate::failing::{End, LimitedWriter, PieceReader};
use crate::harness::decoded;
use crate::words::{Words, number};
use std::alloc::Global;

/// A text that is given in pieces, up to a limit, and what comes after the limit.
#[derive(Drop)]
pub struct Given {
    text: Vec<u8>,
    piece: usize,
    limit: usize,
    end: End,
}

impl Given {
    /// The empty text.
    pub fn new(alloc: Global) -> Given {
        Given {
            text: Vec::new(alloc),
            piece: 4096,
            limit: usize::MAX,
            end: End::Ended,
        }
    }

    /// Replaces the text, which is given in the same way.
    pub fn set_text(&mut self, text: Vec<u8>) {
        self.text = text;
    }

    /// Takes the text from its hexadecimal digits. It is given in the same way.
    pub fn take_text(&mut self, alloc: Global, words: &mut Words<'_>) -> Option<()> {
        self.text = decoded(alloc, words)?;
        Some(())
    }

    /// Takes how it is given: the bytes of a piece, the limit, and whether the reader then fails.
    pub fn take_way(&mut self, words: &mut Words<'_>) -> Option<()> {
        self.piece = number(words)? as usize;
        self.limit = number(words)? as usize;
        self.end = match words.next() {
            Some("fails") => End::Fails,
            _ => End::Ended,
        };
        Some(())
    }

    /// A reader of the text.
    pub fn reader(&self) -> PieceReader<'_> {
        let limit = self.limit.min(self.text.len());
        PieceReader::new(&self.text[..limit], self.piece.max(1), self.end)
    }
}

/// How much a writer takes.
#[derive(Clone, Copy)]
pub struct WriterSetup {
    limit: usize,
    piece: usize,
    flush_fails: bool,
}

impl WriterSetup {
    /// Ample room.
    pub fn ample() -> WriterSetup {
        WriterSetup {
            limit: usize::MAX,
            piece: usize::MAX,
            flush_fails: false,
        }
    }

    /// Takes the limit, the bytes of a piece, and whether the flush fails.
    pub fn take(&mut self, words: &mut Words<'_>) -> Option<()> {
        self.limit = number(words)? as usize;
        self.piece = number(words)? as usize;
        self.flush_fails = words.next() == Some("fails");
        Some(())
    }

    /// A writer with this room.
    pub fn writer(self, alloc: Global) -> LimitedWriter {
        if self.flush_fails {
            LimitedWriter::with_failing_flush(alloc, self.limit, self.piece)
        } else {
            LimitedWriter::new(alloc, self.limit, self.piece)
        }
    }
}
