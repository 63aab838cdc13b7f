//! Memory that a host lends, with its size.

ghost use Rattle.std.specs.Prelude.{◌≡◌};
ghost use Rattle.host.specs.Lending.{IsSize};

use crate::memory::Memory;

/// Memory that a host lends: its address, which is a multiple of 16, and its size in bytes, which is one, too, and below
/// 2^63. Nothing lies in it. A region of size 0 has no memory, at any address.
#[repr(C)]
#[derive(Drop)]
pub struct Region {
    pub(crate) memory: Memory,
    pub size: usize,
    ghost whole: { memory.size ≡ size },
    ghost fits: { IsSize size },
}

impl Region {
    /// No memory.
    pub fn none() -> Region
        ensures { result.size ≡ 0 }
    {
        Region {
            memory: Memory::none(),
            size: 0,
        }
    }
}
