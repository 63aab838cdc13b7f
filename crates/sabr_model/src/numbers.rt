//! A list of contact numbers.

ghost use Rattle.std.specs.Prelude.{◌≡◌, ◌==◌, length};

use std::alloc::{Allocator, Global};
use std::marker::Model;

/// A list of contact numbers. Contracts see the list.
#[derive(Debug, Drop)]
pub struct Numbers<A: Allocator + Copy = Global> {
    items: Vec<u32, A>,
}

impl<A: Allocator + Copy> Model for Numbers<A> {
    ghost use Rattle.std.specs.Prelude.{List, ℕ};

    ghost Value = { List ℕ };

    ghost view = { λ a. a.items.items };
}

impl<A: Allocator + Copy> Numbers<A> {
    /// Makes the list that a vector holds. It doesn't allocate.
    pub fn new(items: Vec<u32, A>) -> Numbers<A>
        ensures { result ≡ items.items }
    {
        Numbers { items }
    }

    /// The numbers, from the first to the last.
    pub fn as_slice(&self) -> &[u32]
        ensures { result.now ≡ self.now }
    {
        self.items.as_slice()
    }

    /// The number of contact numbers.
    pub fn len(&self) -> usize
        ensures { result ≡ length self.now }
    {
        self.items.len()
    }

    /// Returns true if the list is empty.
    pub fn is_empty(&self) -> bool
        ensures { result ≡ (length self.now == 0) }
    {
        self.items.is_empty()
    }
}
