//! A handle that C keeps: whether a plan is open, and where it lies.

mod loose;
mod place;

ghost use Rattle.std.specs.Prelude.{◌≡◌, IsTrue, is_some, None, Some, true};
ghost use Rattle.sabr_model.specs.plan.Plan.{IsPlan};

use crate::held::Held;
pub use loose::Loose;
pub use place::Place;
use std::alloc::Global;
use std::mem::replace;

/// A handle: whether a plan is open, and its place. C makes it of zeros, and changes nothing in it.
#[repr(C)]
#[derive(Drop)]
pub struct PlanHandle {
    pub is_open: bool,
    pub place: Place,
}

/// What an expression makes of the plan behind a handle, which is then given back. Over a closed handle, the function
/// that calls this returns `CLOSED`.
macro_rules! over_plan {
    ($handle:ident, $alloc:ident, $opened:ident => $call:expr) => {{
        if !$handle.is_open {
            return CLOSED;
        }
        let mut held = $handle.take($alloc);
        held.insert_ranges();
        let $opened = &mut held.opened;
        let made = $call;
        $handle.give(held);
        made
    }};
}

pub(crate) use over_plan;

impl PlanHandle {
    /// Takes the plan out of an open handle, which stays open. The caller gives it back.
    pub fn take(&mut self, alloc: Global) -> Box<Held, Global>
        requires { IsTrue (is_some self.old.place.held) }
        ensures taken { self.old.place.held ≡ Some result.value }
        ensures open { self.new.is_open ≡ self.old.is_open }
        ensures left { self.new.place.held ≡ None }
    {
        replace(&mut self.place, Place::closed(alloc))
            .into_loose()
            .into_box()
    }

    /// Puts a plan into a handle, which is open then.
    pub fn give(&mut self, held: Box<Held, Global>)
        ensures open { self.new.is_open ≡ true }
        ensures held { self.new.place.held ≡ Some held.value }
        ensures rules { IsPlan held.value.opened.plan.plan }
    {
        held.opened.plan().rules_hold();
        self.place = Place::of(Loose::of(held));
        self.is_open = true;
    }
}
