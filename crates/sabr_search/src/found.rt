//! What a search for the best way finds.

ghost use Rattle.std.specs.Prelude.{◌≡◌, IsTrue};
ghost use Rattle.sabr_search.specs.answers.Answers.{IsEnough};
ghost use Rattle.sabr_search.specs.layers.Lists.{IsFoundBest};

use crate::bound::Bound;
use std::alloc::{Allocator, Global};

/// The earliest delivery so far, and the hops of a way with it. It begins with [`Best::none`], and is read by
/// [`found`](Best::found).
#[derive(Clone, Copy)]
pub struct Best {
    pub delivery: u64,
    pub hops: usize,
}

impl Best {
    /// No way is found yet, and only deliveries before this second are sought.
    pub fn none(before: u64) -> Best
        ensures { result ≡ record { delivery = before; hops = 0 } }
    {
        Best {
            delivery: before,
            hops: 0,
        }
    }

    /// This, if it is before `until`, as the delivery of a way is that was found.
    pub fn found(self, until: u64) -> Option<Best>
        ensures { IsFoundBest until self result }
    {
        if self.delivery < until {
            Some(self)
        } else {
            None
        }
    }
}

/// The contact numbers of a way, and when it delivers.
#[derive(Drop)]
pub struct FoundWay<A: Allocator + Copy = Global> {
    pub numbers: Vec<u32, A>,
    pub delivery: u64,
}

/// What a search for the best way finds. It has the way itself, or the delivery of one whose numbers stand elsewhere.
#[derive(Drop)]
pub enum Found<W> {
    /// The best way.
    Way(W),
    /// Each way is above this bound. If every route is up to the bound ([`Bound::is_none`]), there is no way.
    Beyond(Bound),
}

impl<W> Found<W> {
    /// Returns true if this result decides a question up to `bound`: it is a way, or each way is above a bound that is
    /// no lower than `bound`.
    pub fn is_enough(&self, bound: Bound) -> bool
        ensures { IsTrue result → IsEnough bound self.now }
    {
        match self {
            Found::Way(_) => true,
            Found::Beyond(own) => bound.is_within(*own),
        }
    }
}
