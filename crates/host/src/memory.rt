//! Memory at an address.

ghost use Rattle.std.specs.Prelude.{◌≡◌, ℕ};
ghost use Rattle.host.specs.Lending.{lent_at};

use std::marker::Model;
use std::ptr::null_mut;

/// Memory at an address, in which nothing lies. It owns `size` bytes there, or nothing if that is 0.
#[repr(C)]
#[derive(Drop)]
pub struct Memory {
    pub(crate) at: *mut u8,
    pub ghost size: { ℕ },
}

impl Model for Memory {
    ghost also_owns = { λ m. lent_at m.at m.size };
}

impl Memory {
    /// No memory.
    pub fn none() -> Memory
        ensures { result.size ≡ 0 }
    {
        Memory { at: null_mut() }
    }
}
