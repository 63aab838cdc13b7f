//! What is asked.

use crate::answers::{done, refused};
use crate::words::{Words, number, small_number};
use sabr_model::{MAX_HOPS, Request, RequestError};
use std::alloc::Global;

/// The values of a request, which may be refused.
#[derive(Clone, Copy)]
pub struct Asked {
    from: u64,
    to: u64,
    at: u64,
    margin_ppm: u32,
    max_hops: u32,
    avoided: [u64; 17],
    avoids: usize,
}

impl Asked {
    /// From node 1 to node 3, in second 0 and without limits.
    pub fn new() -> Asked {
        Asked {
            from: 1,
            to: 3,
            at: 0,
            margin_ppm: 0,
            max_hops: MAX_HOPS,
            avoided: [0; 17],
            avoids: 0,
        }
    }

    /// Takes the values FROM TO AT MARGIN HOPS and the nodes to avoid, at most 17.
    pub fn taken(words: &mut Words<'_>) -> Option<Asked> {
        let mut asked = Asked {
            from: number(words)?,
            to: number(words)?,
            at: number(words)?,
            margin_ppm: small_number(words)?,
            max_hops: small_number(words)?,
            avoided: [0; 17],
            avoids: 0,
        };
        for place in &mut asked.avoided {
            let Some(word) = words.next() else {
                break;
            };
            *place = word.parse().ok()?;
            asked.avoids = asked.avoids.wrapping_add(1);
        }
        Some(asked)
    }

    /// Returns the request, or why it is refused.
    pub fn request(&self) -> Result<Request, RequestError> {
        let avoided = &self.avoided[..self.avoids.min(17)];
        Request::new(self.from, self.to, self.at, self.margin_ppm)?.with_limits(
            self.max_hops,
            avoided,
        )
    }

    /// The answer of the step `ask`.
    pub fn answer(&self, alloc: Global) -> Option<String> {
        match self.request() {
            Ok(_) => done(alloc),
            Err(fault) => refused(alloc, fault),
        }
    }
}
