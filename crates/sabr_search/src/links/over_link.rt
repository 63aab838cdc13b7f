//! The arrival over a whole link: a binary search and a few looks instead of one look for each of its contacts.

ghost use Rattle.std.specs.Prelude.{◌≡◌, ℕ, ◌+◌, ◌^◌, ◌≤◌, ◌<◌, max, IsTrue, false, Some, length, slice_get, slice_index_or};
ghost use Rattle.sabr_index.specs.declared.link.Pass.{Pass};
ghost use Rattle.sabr_model.specs.routes.Hops.{IsSmall};
ghost use Rattle.sabr_search.specs.questions.Task.{IsTask, Takes};
ghost use Rattle.sabr_search.specs.questions.Linked.{IsHopAt, IsPassAt, IsLinkWithin, IsLinkHere, AreLinksAt, HasNumber};
ghost use Rattle.sabr_index.specs.Links.{AreInOrder};

use crate::links::finger::Finger;
use crate::links::walked_link::{WalkedLink, arrives_no_sooner, rules_out};
use crate::task::Task;
use sabr_index::{Links, Looked, Looks, Pass};
use sabr_model::Hop;
use std::alloc::Allocator;

/// Returns the number of passes at the front of a link that have ended by `at`. Those after them, or the only one, may
/// have ended as well. A binary search: it compares the bounds that stand beside the passes.
pub fn first_unended(passes: &[Pass], at: u64) -> usize
    requires { AreInOrder passes.now }
    ensures within { result ≤ length passes.now }
    ensures ended { (k : ℕ) (x : Pass) → k < result → slice_get passes.now k ≡ Some x → x.end ≤ at }
{
    if passes.len() <= 1 || passes[0].latest_end > at {
        return 0;
    }
    passes.partition_point(|pass| pass.latest_end <= at)
}

/// Returns true if, by its start and the light times from it on, what is at the sender at second `at` arrives no sooner
/// than `before` over this pass and over each one after it. The margin is left out.
pub fn comes_late(pass: &Looked<'_>, at: u64, before: u64) -> bool
    ensures { IsTrue result → before ≤ max at pass.now.start + pass.now.least_light_after }
{
    before.saturating_sub(at.max(pass.start())) <= pass.pass().least_light_after as u64
}

impl<'a, A: Allocator + Copy> Task<'a, A> {
    /// Returns the link at a place among those of a node.
    #[inline(always)]
    pub fn link<'l>(&self, links: Links<'l>, from: usize, place: usize) -> WalkedLink<'l>
        requires links { AreLinksAt self.now from links.links.now links.passes.now }
        requires place { place < length links.links.now }
        ensures from { result.from ≡ from }
        ensures receiver { result.to < length self.now.table }
        ensures link { IsLinkWithin self.now from result.to result.passes.now result.bounds }
        ensures here { IsLinkHere links.entry.links.now links.entry.passes.now place result.to result.passes.now }
    {
        let link = &links.links[place];
        WalkedLink {
            from,
            to: link.receiver as usize,
            passes: &links.passes[link.first as usize..link.end as usize],
            bounds: link.bounds,
        }
    }

    /// Returns the hop over a pass whose record was fetched.
    pub fn hop_over(&self, to: usize, pass: &Looked<'_>) -> Hop
        requires pass { (node : ℕ) × IsPassAt self.now node to pass.now }
        requires task { IsTask self.now }
        ensures value { IsHopAt self.now pass.now.number result }
        ensures small { IsSmall result }
        ensures receiver { result.receiver ≡ to }
    {
        Hop {
            start: pass.start(),
            end: pass.end(),
            receiver: to,
            light: Some(pass.light()),
        }
    }

    /// Returns the earliest arrival over a link of what is at its sender at second `at`, but `before` at the latest. It
    /// takes a binary search and one look for each pass in question, mostly two. Excluded passes with consecutive
    /// numbers take one look.
    #[inline(always)]
    pub fn arrive_over(&self, looks: &mut Looks, link: WalkedLink<'_>, at: u64, before: u64) -> u64
        requires task { IsTask self.now }
        requires link { IsLinkWithin self.now link.from link.to link.passes.now link.bounds }
        requires few { length link.passes.now ≤ looks.old.left }

        // The looks.
        ensures looks { looks.old.left ≤ looks.new.left + length link.entry.passes.now }
        ensures looked { looks.new.left ≤ looks.old.left }
        ensures some_looks { result < before → looks.new.left < looks.old.left }

        // The arrival.
        ensures upper { result ≤ before }
        ensures later { result < before → at ≤ result }
        ensures sound { result < before → slice_index_or self.now.forbidden link.entry.to false ≡ false → (n : ℕ) × Takes self.now n link.entry.from at link.entry.to result }
        ensures full { (n w b : ℕ) → HasNumber link.entry.passes.now n → Takes self.now n link.entry.from at w b → result ≤ b }
    {
        if rules_out(link.bounds, at, before) {
            return before;
        }
        let passes = link.passes;
        let mut earliest = before;
        let mut finger = Finger::new();
        let mut place = first_unended(passes, at);
        while place < passes.len() {
            let pass = passes[place].look(looks);
            let excluded = self.excluded_from(link.from, &pass, &mut finger);
            if excluded > 0 {
                place += excluded.min(passes.len() - place);
                continue;
            }
            if comes_late(&pass, at, earliest) {
                return earliest;
            }
            let hop = self.hop_over(link.to, &pass);
            if let Some(arrival) = self.arrive_before(at, &hop, earliest) {
                if arrives_no_sooner(link.bounds.soonest, link.bounds.least_light, at, arrival) {
                    return arrival;
                }
                earliest = arrival;
            }
            place += 1;
        }
        earliest
    }
}
