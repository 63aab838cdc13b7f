//! Nodes settled in order of arrival plus a lower bound on the rest (A*), up to the first delivery at the goal.

ghost use Rattle.std.specs.Prelude.{◌≡◌, ◌≢◌, ℕ, min, [], ◌+◌, ◌-◌, ◌^◌, ◌≤◌, ◌<◌, length, slice_get, slice_set, slice_index, slice_index_or, replicate, Some, OnOk, IfOk, true, false};
ghost use Rattle.sabr_search.specs.questions.Task.{IsTask, Takes, latest_arrival};
ghost use Rattle.sabr_search.specs.questions.Stops.{StopsOnlyIf};
ghost use Rattle.sabr_search.specs.questions.Linked.{AreLinksAt, IsLinkWithin, HasNumber};
ghost use Rattle.sabr_search.specs.layers.Lists.{IsKnown, AreOpened};
ghost use Rattle.sabr_search.specs.questions.FirstSteps.{AreFirstSteps};
ghost use Rattle.sabr_search.specs.layers.Settling.{IsBound, AreReal, IsReached, StaySettling, StaySettled, IsKnownOver, IsFallen, AreSettledTaken};

use crate::forward::arrivals::{initial_arrivals, news_before};
use crate::found::Best;
use crate::links::walked_link::{WalkedLink, rules_out};
use crate::queue::Queue;
use crate::stopped::Stopped;
use crate::task::Task;
use crate::visit::{Visit, seconds_of};
use sabr_index::{Links, Looks};
use sabr_model::NoMemory;
use std::alloc::Allocator;

/// What nodes are settled for.
#[derive(Drop)]
pub struct Forward<'t, 'a, 'b, A: Allocator + Copy> {
    /// The search.
    pub task: &'t Task<'a, A>,
    /// For each node, a second from which on no way is at the goal before `until`; none is known after the list's end.
    pub deadline: &'b [u64],
    /// For each node, a number of seconds that each way to the goal takes at least; 0 after the list's end.
    pub costs: &'b [u64],
    /// For each node, the hops of such a way, as far as the list goes.
    pub hops: &'b [u64],
    /// Only deliveries before this second are sought. It is at most the first second after every arrival.
    pub until: u64,
}

impl<'t, 'a, 'b, A: Allocator + Copy> Forward<'t, 'a, 'b, A> {
    /// Returns a number of seconds that each way from a node to the goal takes at least.
    #[inline(always)]
    fn cost(&self, node: usize) -> u64
        ensures { result ≡ slice_index self.now.costs.now node }
    {
        seconds_of(self.costs, node)
    }

    /// Returns the rank of a node among those of one second: the hops from it to the goal.
    #[inline(always)]
    fn rank(&self, node: usize) -> u64 {
        seconds_of(self.hops, node)
    }
}

/// For each node, its earliest arrival so far, the hops of a way with it, and whether it is settled; and the waiting
/// arrivals.
#[derive(Drop)]
pub struct Settling<A: Allocator + Copy> {
    pub arrival: Vec<u64, A>,
    hops: Vec<u32, A>,
    settled: Vec<bool, A>,
    queue: Queue<A>,
}

impl<A: Allocator + Copy> Settling<A> {
    /// Makes an empty value. It doesn't allocate.
    pub fn new(alloc: A) -> Settling<A> {
        Settling {
            arrival: Vec::new(alloc),
            hops: Vec::new(alloc),
            settled: Vec::new(alloc),
            queue: Queue::new(alloc),
        }
    }

    /// Starts with no node settled, no event waiting, and nothing reached but the start.
    fn first_events(&mut self, forward: &Forward<'_, '_, '_, A>) -> Result<(), NoMemory>
        requires { IsTask forward.now.task.now }
        ensures arrivals { OnOk result (AreOpened forward.now.task.now forward.now.deadline.now self.new.arrival.items) }
        ensures hops { OnOk result (length self.new.hops.items ≡ length forward.now.task.now.forbidden) }
        ensures settled { OnOk result (self.new.settled.items ≡ replicate (length forward.now.task.now.forbidden) false) }
        ensures queue { OnOk result (self.new.queue ≡ []) }
    {
        let nodes = forward.task.node_count();
        initial_arrivals(&mut self.arrival, forward.task, forward.deadline)?;
        self.hops.resize(nodes, 0)?;
        self.settled.clear();
        self.settled.resize(nodes, false)?;
        self.queue.clear();
        Ok(())
    }

    /// Notes an arrival that is news. Returns the first delivery so far.
    #[inline(always)]
    fn reach(
        &mut self,
        forward: &Forward<'_, '_, '_, A>,
        event: Visit,
        step: Visit,
        best: Best,
    ) -> Result<Best, NoMemory>
        requires task { IsTask forward.now.task.now }
        requires receiver { step.node < length forward.now.task.now.table }

        // The step is taken from the node of the event, and is news.
        requires later { event.at ≤ step.at }
        requires sooner { step.at + slice_index forward.now.costs.now step.node < best.delivery }
        requires news { step.node ≢ forward.now.task.now.goal → step.at < slice_index self.old.arrival.items step.node }
        requires step { slice_index_or forward.now.task.now.forbidden step.node false ≡ false → (n : ℕ) × Takes forward.now.task.now n event.node event.at step.node step.at }
        requires state { StaySettling forward.now self.old.settled.items event self.old best }

        // What is known afterwards.
        ensures settled { self.new.settled ≡ self.old.settled }
        ensures state { IfOk result (StaySettling forward.now self.old.settled.items event self.new) }
        ensures fallen { IfOk result (λ b. IsFallen self.old.settled.items self.old.arrival.items best self.new.arrival.items b) }
        ensures known { IfOk result (λ b. IsKnown forward.now.task.now.goal self.new.arrival.items (b.delivery - slice_index forward.now.costs.now step.node) step.node step.at) }

        // The events that wait.
        ensures pushes { OnOk result (length self.new.queue ≤ length self.old.queue + 1) }
    {
        let Visit { node, at } = step;
        let hops = self.hops[event.node] + 1;
        if node == forward.task.goal() {
            return Ok(Best {
                delivery: at,
                hops: hops as usize,
            });
        }
        let cost = forward.cost(node);
        let rank = forward.rank(node);
        let waiting = Visit {
            at: at + cost,
            node,
        };
        self.queue.push(waiting, rank)?;
        self.arrival[node] = at;
        self.hops[node] = hops;
        Ok(best)
    }

    /// Takes one link of a settled node. Returns the first delivery so far.
    fn take_link(
        &mut self,
        forward: &Forward<'_, '_, '_, A>,
        looks: &mut Looks,
        event: Visit,
        link: WalkedLink<'_>,
        best: Best,
    ) -> Result<Best, NoMemory>
        requires task { IsTask forward.now.task.now }

        // The link leads from the node of the event.
        requires from { link.from ≡ event.node }
        requires link { IsLinkWithin forward.now.task.now link.from link.to link.passes.now link.bounds }
        requires receiver { link.to < length forward.now.task.now.table }
        requires few { length link.passes.now ≤ looks.old.left }
        requires state { StaySettling forward.now self.old.settled.items event self.old best }

        // The looks, and what is known afterwards.
        ensures settled { self.new.settled ≡ self.old.settled }
        ensures looks { looks.old.left ≤ looks.new.left + length link.entry.passes.now }
        ensures state { IfOk result (StaySettling forward.now self.old.settled.items event self.new) }
        ensures fallen { IfOk result (λ b. IsFallen self.old.settled.items self.old.arrival.items best self.new.arrival.items b) }
        ensures known { IfOk result (λ b. IsKnownOver forward.now.task.now link.entry.passes.now link.entry.from event.at forward.now.costs.now self.new.arrival.items b.delivery) }

        // The events that wait.
        ensures pushes { OnOk result (length self.new.queue + looks.new.left ≤ length self.old.queue + looks.old.left) }
    {
        let task = forward.task;
        let to = link.to;
        let before = news_before(&self.arrival, forward.costs, to, best.delivery);
        let at = task.arrive_over(looks, link, event.at, before);
        if at >= before {
            return Ok(best);
        }
        let earliest = self.reach(forward, event, Visit { node: to, at }, best)?;
        Ok(earliest)
    }

    /// Settles a node that is reached at the event, and takes every contact of it. Returns the first delivery so far.
    fn settle(
        &mut self,
        forward: &Forward<'_, '_, '_, A>,
        looks: &mut Looks,
        event: Visit,
        links: Links<'_>,
        best: Best,
    ) -> Result<Best, NoMemory>
        requires task { IsTask forward.now.task.now }

        // The node is reached at the event, and not yet settled.
        requires node { event.node < length forward.now.task.now.table }
        requires many { length self.old.settled.items ≡ length forward.now.task.now.table }
        requires unsettled { slice_index_or self.old.settled.items event.node false ≡ false }
        requires reached { slice_index self.old.arrival.items event.node ≡ event.at }

        // The links of the node.
        requires links { AreLinksAt forward.now.task.now event.node links.links.now links.passes.now }
        requires few { length links.passes.now ≤ looks.old.left }

        // What is known so far.
        requires state { StaySettling forward.now (slice_set self.old.settled.items event.node true) event self.old best }
        requires taken { AreSettledTaken forward.now.task.now forward.now.costs.now self.old.settled.items self.old.arrival.items best.delivery }

        // The looks, and what is known afterwards.
        ensures settled { self.new.settled.items ≡ slice_set self.old.settled.items event.node true }
        ensures looks { looks.old.left ≤ looks.new.left + length links.entry.passes.now }
        ensures state { IfOk result (StaySettling forward.now (slice_set self.old.settled.items event.node true) event self.new) }
        ensures fallen { IfOk result (λ b. IsFallen (slice_set self.old.settled.items event.node true) self.old.arrival.items best self.new.arrival.items b) }
        ensures taken { IfOk result (λ b. AreSettledTaken forward.now.task.now forward.now.costs.now (slice_set self.old.settled.items event.node true) self.new.arrival.items b.delivery) }

        // The events that wait.
        ensures pushes { OnOk result (length self.new.queue + looks.new.left ≤ length self.old.queue + looks.old.left) }
    {
        self.settled[event.node] = true;
        let mut earliest = best;
        for place in 0..links.links.len() {
            let link = &links.links[place];
            if rules_out(link.bounds, event.at, self.arrival[link.receiver as usize]) {
                continue;
            }
            let link = forward.task.link(links, event.node, place);
            earliest = self.take_link(forward, looks, event, link, earliest)?;
        }
        Ok(earliest)
    }

    /// Settles the start, from where its first steps come to. Returns the first delivery among them.
    fn settle_start(
        &mut self,
        forward: &Forward<'_, '_, '_, A>,
        first: &[Visit],
    ) -> Result<Best, NoMemory>
        requires task { IsTask forward.now.task.now }

        // What bounds the search.
        requires until { forward.now.until ≤ latest_arrival + 1 }
        requires bound { IsBound forward.now.task.now forward.now.until forward.now.deadline.now forward.now.costs.now }

        // All first steps.
        requires steps { AreFirstSteps forward.now.task.now first.now }
        requires real { AreReal forward.now.task.now first.now }

        // Nothing is reached yet.
        requires arrivals { AreOpened forward.now.task.now forward.now.deadline.now self.old.arrival.items }
        requires hops { length self.old.hops.items ≡ length forward.now.task.now.forbidden }
        requires settled { self.old.settled.items ≡ replicate (length forward.now.task.now.forbidden) false }
        requires queue { self.old.queue ≡ [] }

        // What is known afterwards.
        ensures settled { self.new.settled.items ≡ slice_set self.old.settled.items forward.now.task.now.start true }
        ensures state { IfOk result (StaySettled forward.now self.new) }
    {
        let event = forward.task.beginning();
        self.hops[event.node] = 0;
        self.settled[event.node] = true;
        let mut best = Best::none(forward.until);
        for place in 0..first.len() {
            let step = first[place];
            let before = news_before(&self.arrival, forward.costs, step.node, best.delivery);
            if step.at < before {
                best = self.reach(forward, event, step, best)?;
            }
        }
        Ok(best)
    }

    /// Settles as many nodes as it takes to find the first delivery at the goal. Returns that delivery and the hops of
    /// a way with it, or `None` if no way delivers before `forward.until`. Each way comes to a node `n` at `arrival[n]`
    /// or later, or so late that it doesn't deliver before the first delivery or `forward.until`.
    #[tactic(auto, using(crate::proofs::WholeLemmas::Walks::degree_at_most))]
    pub fn run(
        &mut self,
        forward: &Forward<'_, '_, '_, A>,
        looks: &mut Looks,
        first: &mut Vec<Visit, A>,
    ) -> Result<Option<Best>, Stopped>
        requires task { IsTask forward.now.task.now }
        requires until { forward.now.until ≤ latest_arrival + 1 }
        requires bound { IsBound forward.now.task.now forward.now.until forward.now.deadline.now forward.now.costs.now }

        // The delivery, and the first steps.
        ensures reached { IfOk result (IsReached forward.now.task.now forward.now.until forward.now.costs.now self.new.arrival.items) }
        ensures steps { OnOk result (AreFirstSteps forward.now.task.now first.new.items) }
        ensures real { OnOk result (AreReal forward.now.task.now first.new.items) }

        // The looks.
        ensures counted { looks.old.left ≤ looks.new.left + length forward.now.task.now.plan.contacts }
        ensures stops { StopsOnlyIf result (looks.old.left < length forward.now.task.now.plan.contacts) }
    {
        forward.task.first_steps(looks, first)?;
        self.first_events(forward)?;
        let mut best = self.settle_start(forward, first)?;
        while let Some(event) = self.queue.pop() {
            if event.at >= best.delivery {
                return Ok(best.found(forward.until));
            }
            if !self.settled[event.node] {
                let links = forward.task.links(event.node);
                if links.passes.len() as u64 > looks.left() {
                    return Err(Stopped::NoLooks);
                }
                let reached = Visit {
                    at: self.arrival[event.node],
                    node: event.node,
                };
                best = self.settle(forward, looks, reached, links, best)?;
            }
        }
        Ok(best.found(forward.until))
    }
}
