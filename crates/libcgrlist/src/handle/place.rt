//! A plan's place in memory.

ghost use Rattle.std.specs.Prelude.{◌≡◌, IsTrue, is_some, Option, None, Some};
ghost use Rattle.std.specs.Coded.{coded_option};
ghost use Rattle.libcgrlist.specs.declared.held.Held.{Held};
ghost use Rattle.libcgrlist.specs.contracts.held.Held.{the_row};

use super::loose::Loose;
use crate::held::Held;
use std::alloc::Global;
use std::marker::Model;
use std::ptr::null_mut;

/// Where a value lies, if one does. It owns the value. The pointer's type says nothing of the value, since C may hold
/// no pointer to what a `Vec` owns.
#[repr(C)]
#[derive(Drop)]
pub struct Place {
    at: *mut u8,
    alloc: Global,
    pub ghost held: { Option Held } by { coded_option the_row.coded },
}

impl Model for Place {
    ghost use Rattle.std.specs.contracts.impls.GlobalAllocator.TheImpl.{ghosts};
    ghost use Rattle.libcgrlist.specs.Owned.{owned};
    ghost use Rattle.libcgrlist.specs.contracts.held.Held.{the_row};

    ghost also_owns = { λ h. owned (ghosts.dealloc_token h.alloc) the_row h.at h.held };
}

impl Place {
    /// No value.
    pub fn closed(alloc: Global) -> Place
        ensures held { result.held ≡ None }
    {
        Place {
            at: null_mut(),
            alloc,
        }
    }

    /// The place of a value.
    pub fn of(value: Loose<Held, Global>) -> Place
        ensures held { result.held ≡ Some value.value }
    {
        let Loose { at, alloc } = value;
        Place {
            at: at as *mut u8,
            alloc,
        }
    }

    /// The value.
    pub fn into_loose(self) -> Loose<Held, Global>
        requires { IsTrue (is_some self.held) }
        ensures { self.held ≡ Some result.value }
    {
        let Place { at, alloc } = self;
        Loose {
            at: at as *mut Held,
            alloc,
        }
    }
}
