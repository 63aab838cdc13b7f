//! The lists of an answer, in one.

ghost use Rattle.std.specs.Prelude.{◌≡◌, OnOk};

use sabr_model::NoMemory;
use std::alloc::{Allocator, Global};
use std::marker::Model;

/// The three lists of an answer, one after the other, so that one allocation serves. Contracts see the three.
#[derive(Drop)]
pub struct Lists<A: Allocator + Copy = Global> {
    items: Vec<u32, A>,
    /// The place of the first node that was forbidden.
    forbidden_from: usize,
    /// The place of the way's first number.
    way_from: usize,
}

impl<A: Allocator + Copy> Model for Lists<A> {
    ghost use Rattle.std.specs.Prelude.{◌≤◌, ◌-◌, length, take, drop};
    ghost use Rattle.sabr_search.specs.answers.AnswerLists.{AnswerLists};

    ghost Value = { AnswerLists };

    ghost view = { λ l. record { excluded = take l.forbidden_from l.items.items; forbidden = take (l.way_from - l.forbidden_from) (drop l.forbidden_from l.items.items); way = drop l.way_from l.items.items } };

    ghost invariant = { λ l. (l.forbidden_from ≤ l.way_from) × (l.way_from ≤ length l.items.items) };
}

impl<A: Allocator + Copy> Lists<A> {
    /// Makes empty lists. It doesn't allocate.
    pub fn new(alloc: A) -> Lists<A> {
        Lists {
            items: Vec::new(alloc),
            forbidden_from: 0,
            way_from: 0,
        }
    }

    /// Replaces the three lists, in the memory that they have if it is large enough. If an allocation failed, the
    /// lists are of no more use.
    pub fn set(&mut self, excluded: &[u32], forbidden: &[u32], way: &[u32]) -> Result<(), NoMemory>
        ensures { OnOk result (self.new ≡ record { excluded = excluded.now; forbidden = forbidden.now; way = way.now }) }
    {
        self.forbidden_from = 0;
        self.way_from = 0;
        self.items.clear();
        self.items
            .reserve(excluded.len() + forbidden.len() + way.len())?;
        self.items.extend_from_slice(excluded)?;
        self.items.extend_from_slice(forbidden)?;
        self.items.extend_from_slice(way)?;
        self.forbidden_from = excluded.len();
        self.way_from = excluded.len() + forbidden.len();
        Ok(())
    }

    /// The numbers that no way takes first.
    pub fn excluded(&self) -> &[u32]
        ensures { result.now ≡ self.now.excluded }
    {
        &self.items[..self.forbidden_from]
    }

    /// The indices of the nodes that were forbidden.
    pub fn forbidden(&self) -> &[u32]
        ensures { result.now ≡ self.now.forbidden }
    {
        &self.items[self.forbidden_from..self.way_from]
    }

    /// The contact numbers of the best way.
    pub fn way(&self) -> &[u32]
        ensures { result.now ≡ self.now.way }
    {
        &self.items[self.way_from..]
    }
}
