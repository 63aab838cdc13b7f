//! The allocator that refuses one request, and the count of requests.

use std::alloc::{AllocError, Allocator, Global};
use std::cell::Cell;

/// An allocator that passes requests on to an inner one, counts them, and can refuse one of them.
///
/// Collections take a `&Ration`, which is `Copy` and an allocator as well. A `Ration` stays in one thread.
pub struct Ration<B: Allocator = Global> {
    inner: B,
    tally: Cell<Tally>,
}

impl<B: Allocator> Ration<B> {
    /// Creates an allocator that refuses the request of this number, counted from 1. For 0 it refuses none.
    pub fn new(inner: B, refused: u64) -> Ration<B> {
        Ration {
            inner,
            tally: Cell::new(Tally { made: 0, refused }),
        }
    }

    /// Starts to count anew, and refuses the request of this number, counted from 1. For 0 it refuses none.
    pub fn refuse(&self, refused: u64) {
        self.tally.set(Tally { made: 0, refused });
    }

    /// The number of requests since the count began, the refused one among them.
    pub fn requests(&self) -> u64 {
        self.tally.get().made
    }
}

impl<B: Allocator> Drop for Ration<B> {
    fn drop(self) {
        let Self { inner: _, tally: _ } = self;
    }
}

unsafe impl<B: Allocator> Allocator for Ration<B> {
    ghost dealloc_token = { λ ration ty ptr. B.dealloc_token ration.inner ty ptr };

    fn allocate(&self, size: usize, align: usize) -> Result<*mut u8, AllocError> {
        if is_refused(&self.tally) {
            return Err(AllocError);
        }
        self.inner.allocate(size, align)
    }

    unsafe fn deallocate(&self, ptr: *mut u8, size: usize, align: usize) {
        self.inner.deallocate(ptr, size, align);
    }
}

/// The number of requests, and the number of the one to refuse, 0 for none.
#[derive(Clone, Copy)]
struct Tally {
    made: u64,
    refused: u64,
}

/// Counts a request, and returns whether it is the one to refuse.
fn is_refused(tally: &Cell<Tally>) -> bool {
    let Tally { made, refused } = tally.get();
    let made = made.wrapping_add(1);
    tally.set(Tally { made, refused });
    made == refused
}
