//! The allocator of one block: the memory that a host lends.

ghost use Rattle.std.specs.Prelude.{◌≡◌, ◌<◌, ◌≤◌, IfSome};
ghost use Rattle.host.specs.Lending.{IsSize, gives_back};

use crate::memory::Memory;
use crate::region::Region;
use std::alloc::{AllocError, Allocator};
use std::cell::Cell;

/// An allocator of one block: the memory that a host lends. It hands all of it out for one request, takes it back, and
/// hands it out again. It refuses a request for more bytes, and each one while the memory is handed out. An arena such as
/// `Bump` of bumpalo makes smaller blocks of the memory.
#[derive(Drop)]
pub struct LentMemory {
    /// The memory, unless it is handed out.
    free: Cell<Option<Region>>,
    /// Its size in bytes.
    size: usize,
    ghost fits: { IsSize size },
}

impl LentMemory {
    /// Takes this memory to hand out.
    pub fn new(region: Region) -> LentMemory
        ensures { result.size ≡ region.size }
    {
        let size = region.size;
        LentMemory {
            free: Cell::new(Some(region)),
            size,
        }
    }

    /// The memory, unless it is still handed out.
    pub fn into_region(self) -> Option<Region>
        ensures { IfSome result (λ r. r.size ≡ self.size) }
    {
        of_size(self.free.into_inner(), self.size)
    }

    /// Takes the memory for a request of `size` bytes, unless it is smaller or handed out.
    fn take(&self, size: usize) -> Option<Memory>
        ensures { IfSome result (λ m. (m.size ≡ self.now.size) × (0 < m.size) × (size ≤ m.size)) }
    {
        if self.size == 0 || self.size < size {
            return None;
        }
        let Region { memory, size: _ } = of_size(self.free.replace(None), self.size)?;
        Some(memory)
    }

    /// Takes the memory back.
    fn give(&self, memory: Memory)
        requires { memory.size ≡ self.now.size }
    {
        let size = self.size;
        self.free.set(Some(Region { memory, size }));
    }
}

/// The region if it has this size. No contract says what a cell holds, so the size is compared.
fn of_size(region: Option<Region>, size: usize) -> Option<Region>
    ensures { IfSome result (λ r. r.size ≡ size) }
{
    region.filter(|region| region.size == size)
}

unsafe impl Allocator for LentMemory {
    ghost dealloc_token = { λ lent ty p. gives_back lent.size ty p };

    fn allocate(&self, size: usize, _align: usize) -> Result<*mut u8, AllocError> {
        match self.take(size) {
            Some(Memory { at }) => Ok(at),
            None => Err(AllocError),
        }
    }

    unsafe fn deallocate(&self, ptr: *mut u8, _size: usize, _align: usize) {
        self.give(Memory { at: ptr });
    }
}
