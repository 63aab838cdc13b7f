//! What a question asks up to, and its answer.

ghost use Rattle.std.specs.Prelude.{◌≡◌, ◌≢◌, ◌+◌, ◌≤◌, min};
ghost use Rattle.sabr_search.specs.questions.Bounded.{at_any_hops, bound_after, is_none, is_up_to, no_bound, sought_of};
ghost use Rattle.sabr_search.specs.questions.Task.{latest_arrival};

use crate::part::Excluded;
use crate::visit::{NEVER, UNDELIVERED};
use sabr_model::Route;
use std::alloc::{Allocator, Global};

/// A delivery, and a number of hops with it. A route that delivers later, or then with more hops, isn't asked for.
#[derive(Clone, Copy)]
pub struct Bound {
    pub delivery: u64,
    pub hops: usize,
}

impl Bound {
    /// Every route is up to this one.
    pub fn none() -> Bound
        ensures { result ≡ no_bound }
    {
        Bound {
            delivery: NEVER,
            hops: usize::MAX,
        }
    }

    /// Returns true if a route with this delivery and that many hops is up to it.
    pub fn holds(&self, delivery: u64, hops: usize) -> bool
        ensures { result ≡ is_up_to self.now delivery hops }
    {
        delivery < self.delivery || (delivery == self.delivery && hops <= self.hops)
    }

    /// Returns true if every route is up to it.
    pub fn is_none(&self) -> bool
        ensures { result ≡ is_none self.now }
    {
        self.delivery >= UNDELIVERED
    }

    /// Returns true if every route that is up to this bound is also up to the bound `other`.
    pub fn is_within(&self, other: Bound) -> bool
        ensures { result ≡ is_up_to other self.now.delivery self.now.hops }
    {
        other.holds(self.delivery, self.hops)
    }

    /// What it leaves after that many hops.
    pub fn after(&self, hops: usize) -> Bound
        ensures { result ≡ bound_after self.now hops }
    {
        Bound {
            delivery: self.delivery,
            hops: self.hops.saturating_sub(hops),
        }
    }

    /// Returns the bound with the same delivery and any number of hops. If every arrival is before that delivery,
    /// returns [`Bound::none`].
    pub fn at_any_hops(&self) -> Bound
        ensures { result ≡ at_any_hops self.now }
    {
        if self.is_none() {
            return Bound::none();
        }
        Bound {
            delivery: self.delivery,
            hops: usize::MAX,
        }
    }

    /// Returns the most hops that a way with this delivery may have: `hops`, but no more than the bound has if
    /// `delivery` is the bound's own.
    pub fn hops_at(&self, delivery: u64, hops: usize) -> usize
        ensures most { result ≤ hops }
        ensures same { delivery ≡ self.now.delivery → result ≡ min hops self.now.hops }
        ensures other { delivery ≢ self.now.delivery → result ≡ hops }
    {
        if delivery == self.delivery {
            return hops.min(self.hops);
        }
        hops
    }

    /// Returns the first second at which every delivery is above this bound, at most the first second after every
    /// arrival.
    pub fn until(&self) -> u64
        ensures { result ≡ min (self.now.delivery + 1) (latest_arrival + 1) }
    {
        self.delivery.saturating_add(1).min(UNDELIVERED)
    }
}

/// A part whose best route is asked for, if it is up to a bound.
#[derive(Clone, Copy)]
pub struct BoundedPart<'a> {
    /// The contact numbers that each route of the part begins with.
    pub prefix: &'a [u32],
    /// The contact numbers that no route of the part takes next.
    pub excluded: Excluded<'a>,
    /// What is asked up to.
    pub bound: Bound,
    /// A second before which no route of the part delivers. 0 is one for each part.
    pub floor: u64,
}

/// The answer to a question for the best route of a part up to a bound.
#[derive(Drop)]
pub enum Sought<A: Allocator + Copy = Global> {
    /// The best route. It may be above the bound.
    Route(Route<A>),
    /// The part has no route.
    None,
    /// Each route of the part is above the bound.
    Beyond,
}

impl<A: Allocator + Copy> Sought<A> {
    /// The answer without a bound.
    pub fn of(found: Option<Route<A>>) -> Sought<A>
        ensures { result ≡ sought_of found }
    {
        match found {
            Some(route) => Sought::Route(route),
            None => Sought::None,
        }
    }
}
