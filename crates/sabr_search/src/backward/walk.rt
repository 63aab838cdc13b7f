//! The pick of the smallest contact numbers, by layers made backward. Layers over the whole graph know neither the
//! nodes that a question forbids nor the numbers that it excludes. So the pick may come to a dead end there, and then
//! goes back.

ghost use Rattle.std.specs.Prelude.{◌≡◌, ◌⊎◌, ℕ, ◌+◌, ◌*◌, ◌≤◌, ◌<◌, Some, [], map, IfOk, IfSome, IfNone, OnOk, IsTrue, List, ◌-◌, length, slice_get};
ghost use Rattle.sabr_search.specs.questions.Task.{IsTask, Takes};
ghost use Rattle.sabr_search.specs.layers.Late.{IsNoneSooner};
ghost use Rattle.sabr_search.specs.questions.Linked.{AreLinksAt};
ghost use Rattle.sabr_search.specs.layers.Deadlines.{IsInTimeWithin};
ghost use Rattle.sabr_search.specs.layers.WholeDeadlines.{AreDeadEnds, IsDeadEnd, AreWholeDeadlinesOf, IsStepOn, IsWalked, LeadOn, last_visit};
ghost use Rattle.sabr_search.specs.questions.FirstSteps.{Leads};
ghost use Rattle.sabr_search.specs.questions.Stops.{StopsOnlyIf};

use crate::backward::deadlines::Deadlines;
use crate::found::FoundWay;
use crate::stopped::Stopped;
use crate::task::Task;
use crate::visit::{Step, Visit};
use sabr_index::{Links, Looks};
use sabr_model::NoMemory;
use std::alloc::Allocator;

/// A pick stops after this many dead ends. With 3, 1000 routes over a grid of 1600 nodes took 73 percent more
/// instructions, and over one of 64 nodes 17 percent; with 32, the smaller grid took 4 percent more. It was varied in a
/// copy of this design in plain Rust.
const MAX_ENDS: usize = 8;

/// Where nothing leads on: from this node, at this second or later, no way of that many hops or fewer delivers in time.
#[derive(Clone, Copy)]
pub struct DeadEnd {
    node: usize,
    at: u64,
    hops: usize,
}

/// The steps of a pick, and the dead ends that it came to.
#[derive(Drop)]
pub struct Walk<A: Allocator + Copy> {
    /// The delivery of the layers that it goes by.
    delivery: u64,
    steps: Vec<Step, A>,
    ends: Vec<DeadEnd, A>,
}

impl<A: Allocator + Copy> Walk<A> {
    /// Has no step. It doesn't allocate.
    pub fn new(alloc: A) -> Walk<A> {
        Walk {
            delivery: 0,
            steps: Vec::new(alloc),
            ends: Vec::new(alloc),
        }
    }

    /// Begins a question by layers for a delivery: no dead end is known.
    pub fn begin(&mut self, delivery: u64)
        ensures delivery { self.new.delivery ≡ delivery }
        ensures ends { self.new.ends.items ≡ [] }
    {
        self.delivery = delivery;
        self.ends.clear();
    }

    /// The way of the steps.
    fn way(&self, alloc: A) -> Result<FoundWay<A>, NoMemory>
        ensures delivery { IfOk result (λ w. w.delivery ≡ self.now.delivery) }
        ensures numbers { IfOk result (λ w. w.numbers.items ≡ map (λ s. s.number) self.now.steps.items) }
    {
        let mut numbers = Vec::with_capacity(alloc, self.steps.len())?;
        for place in 0..self.steps.len() {
            numbers.push(self.steps[place].number)?;
        }
        Ok(FoundWay {
            numbers,
            delivery: self.delivery,
        })
    }

    /// Where the steps lead, and when.
    fn here(&self, task: &Task<'_, A>) -> Visit
        ensures { result ≡ last_visit (record { node = task.now.start; at = task.now.at }) self.now.steps.items }
    {
        match self.steps.as_slice().last() {
            Some(step) => Visit {
                node: step.node,
                at: step.at,
            },
            None => task.beginning(),
        }
    }

    /// Returns true if the start of a question is too late for that many hops by the layers. Those over the whole graph
    /// don't hold for the source, which is forbidden in them.
    pub fn is_too_late(&self, layers: &Deadlines<A>, task: &Task<'_, A>, hops: usize) -> bool
        requires task { IsTask task.now }
        requires whole_deadlines { AreWholeDeadlinesOf task.now self.now.delivery hops layers.now }
        ensures { IsTrue result → IsDeadEnd task.now self.now.delivery task.now.start task.now.at hops }
    {
        let start = task.start();
        if layers.head(start) == 0 {
            return false;
        }
        let end = layers.end_of(hops);
        layers.before(start, end) <= task.at()
    }

    /// Returns this second, or an earlier one from which on a dead end at the node with that many hops left is known.
    #[inline(always)]
    fn before_end(&self, node: usize, hops: usize, before: u64) -> u64
        ensures upper { result ≤ before }
        ensures end { (result ≡ before) ⊎ ((k : ℕ) × (x : DeadEnd) × (slice_get self.now.ends.items k ≡ Some x) × (x.node ≡ node) × (hops ≤ x.hops) × (x.at ≡ result)) }
    {
        let mut earliest = before;
        for place in 0..self.ends.len() {
            let end = self.ends[place];
            if end.node == node && hops <= end.hops && end.at < earliest {
                earliest = end.at;
            }
        }
        earliest
    }

    /// Returns the step of smallest number from a visit after which that many hops may still lead to the goal in time,
    /// as far as the layers and the dead ends show.
    fn next(
        &self,
        layers: &Deadlines<A>,
        task: &Task<'_, A>,
        looks: &mut Looks,
        hops: usize,
        from: Visit,
        links: Links<'_>,
    ) -> Option<Step>
        requires task { IsTask task.now }

        // What the layers and the dead ends show.
        requires whole_deadlines { AreWholeDeadlinesOf task.now self.now.delivery hops layers.now }
        requires ends { AreDeadEnds task.now self.now.delivery self.now.ends.items }

        // Where the steps lead.
        requires here { (ns : List ℕ) × Leads (Takes task.now) task.now.start task.now.at ns from.node from.at }
        requires links { AreLinksAt task.now from.node links.links.now links.passes.now }
        requires goal { IsDeadEnd task.now self.now.delivery from.node from.at 0 }
        requires few { length links.passes.now ≤ looks.old.left }

        // The looks.
        ensures looks { looks.old.left ≤ looks.new.left + length links.entry.passes.now }
        ensures looked { looks.new.left ≤ looks.old.left }

        // The step.
        ensures some { IfSome result (IsStepOn task.now self.now.delivery hops from) }
        ensures in_time { IfSome result (λ s. IsInTimeWithin layers.now.ends.items layers.now.entries.items hops s.node s.at) }
        ensures none { IfNone result (IsDeadEnd task.now self.now.delivery from.node from.at (hops + 1)) }
    {
        let end = layers.end_of(hops);
        let mut best: Option<Step> = None;
        for place in 0..links.links.len() {
            let link = task.link(links, from.node, place);
            // Too late for any number of hops.
            if layers.deadline[link.to] <= from.at {
                continue;
            }
            if task.forbidden()[link.to] {
                continue;
            }
            let deadline = layers.before(link.to, end);
            if deadline <= from.at {
                continue;
            }
            let before = self.before_end(link.to, hops, deadline);
            best = task.least_over(looks, link, from.at, before, best);
        }
        best
    }

    /// Picks the way of `hops` hops with the smallest numbers that is at the goal by the delivery of the layers. The
    /// caller knows that no way of fewer hops is there by then. The pick goes back from dead ends, of which there are
    /// none by a question's own layers. It stops after too many of them.
    pub fn pick(
        &mut self,
        layers: &Deadlines<A>,
        task: &Task<'_, A>,
        looks: &mut Looks,
        hops: usize,
    ) -> Result<Option<FoundWay<A>>, Stopped>
        requires task { IsTask task.now }
        requires some { 0 < hops }

        // What the layers and the dead ends show.
        requires whole_deadlines { AreWholeDeadlinesOf task.now self.old.delivery (hops - 1) layers.now }
        requires floor { IsNoneSooner task.now hops self.old.delivery }
        requires ends { AreDeadEnds task.now self.old.delivery self.old.ends.items }
        requires fewer { IsDeadEnd task.now self.old.delivery task.now.start task.now.at (hops - 1) }

        // The way, or that there is none.
        ensures delivery { self.new.delivery ≡ self.old.delivery }
        ensures ends { OnOk result (AreDeadEnds task.now self.old.delivery self.new.ends.items) }
        ensures walked { IfOk result (IsWalked task.now self.old.delivery hops) }

        // The looks.
        ensures stops { StopsOnlyIf result (LeadOn task.now hops layers.now self.old → looks.old.left < hops * length task.now.plan.contacts) }
        ensures counted { LeadOn task.now hops layers.now self.old → looks.old.left ≤ looks.new.left + hops * length task.now.plan.contacts }
    {
        self.steps.clear();
        while self.ends.len() < MAX_ENDS {
            let from = self.here(task);
            let left = hops - 1 - self.steps.len();
            let links = task.links(from.node);
            if links.passes.len() as u64 > looks.left() {
                return Err(Stopped::NoLooks);
            }
            if let Some(step) = self.next(layers, task, looks, left, from, links) {
                self.steps.push(step)?;
                if left == 0 {
                    return Ok(Some(self.way(layers.alloc)?));
                }
                continue;
            }
            self.ends.push(DeadEnd {
                node: from.node,
                at: from.at,
                hops: left + 1,
            })?;
            let Some(_) = self.steps.pop() else {
                return Ok(None);
            };
        }
        Err(Stopped::NoLooks)
    }
}
