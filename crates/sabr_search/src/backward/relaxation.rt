//! For each node, a second from which on no way from there is at the destination in time: from the goal backward over
//! the whole graph. By the passes of links these are deadlines; by the bounds of links alone they show what a way costs.

ghost use Rattle.std.specs.Prelude.{◌≡◌, ℕ, ◌-◌, ◌^◌, ◌≤◌, ◌<◌, IfOk, OnOk, length, slice_index};
ghost use Rattle.sabr_search.specs.declared.backward.relaxation.Rule.TheVariants as rule;
ghost use Rattle.sabr_search.specs.questions.Task.{IsTask};
ghost use Rattle.sabr_search.specs.questions.Linked.{AreSendersAt};
ghost use Rattle.sabr_search.specs.questions.FirstSteps.{tabled_of};
ghost use Rattle.sabr_search.specs.layers.NodeBounds.{AreCostsFor, AreDeadlinesFor};
ghost use Rattle.sabr_search.specs.layers.Relaxation.{AreAllRelaxed, AreRelaxing, IsBegun, IsRaised, IsReachedBy, IsRelaxed, IsWholeGraph, last_at};

use crate::backward::deadlines::Deadline;
use crate::links::walked_link::{WalkedLink, rules_out};
use crate::queue::{LAST_AT, Queue};
use crate::stopped::Stopped;
use crate::task::Task;
use crate::visit::Visit;
use sabr_index::{Looks, Senders};
use sabr_model::{MAX_LIGHT, NoMemory};
use std::alloc::Allocator;

/// What links are relaxed by.
#[derive(Clone, Copy)]
pub enum Rule {
    /// By their passes.
    Passes,
    /// By their bounds: a link that hasn't ended when the request begins takes its smallest cost, at any second.
    Bounds,
}

/// What is relaxed, which doesn't change meanwhile.
#[derive(Drop)]
pub struct Backward<'t, 'a, A: Allocator + Copy> {
    /// The search, over the whole graph.
    pub task: &'t Task<'a, A>,
    /// What its links are relaxed by.
    pub rule: Rule,
}

impl<'t, 'a, A: Allocator + Copy> Backward<'t, 'a, A> {
    /// Returns the second for the sender of the link at a place, by the bounds of the link.
    #[inline(always)]
    fn by_bounds(&self, senders: &Senders<'_, A>, place: usize, to: Deadline) -> u64
        requires task { IsTask self.now.task.now }
        requires senders { AreSendersAt self.now.task.now to.node senders.now }
        requires place { place < length senders.now }
        ensures { IsReachedBy rule.Bounds self.now.task.now senders.now place to result }
    {
        let head = senders.head(place);
        if !self.task.is_between(head.node) {
            return 0;
        }
        if head.bounds.latest_end <= self.task.request().at() {
            return 0;
        }
        let cost = self.task.cost(head.bounds.least_light.min(MAX_LIGHT));
        to.before.saturating_sub(cost)
    }

    /// Returns the second for the sender of the link at a place, by the passes of the link; `latest` if it isn't later.
    #[inline(always)]
    fn by_passes(
        &self,
        looks: &mut Looks,
        senders: &Senders<'_, A>,
        place: usize,
        to: Deadline,
        latest: u64,
    ) -> Result<u64, Stopped>
        requires task { IsTask self.now.task.now }
        requires senders { AreSendersAt self.now.task.now to.node senders.now }
        requires place { place < length senders.now }
        ensures { IfOk result (IsReachedBy rule.Passes self.now.task.now senders.now place to) }
    {
        let head = senders.head(place);
        if rules_out(head.bounds, latest, to.before) {
            return Ok(latest);
        }
        if !self.task.is_between(head.node) {
            return Ok(latest);
        }
        let from = senders.at(place);
        if from.passes.len() as u64 > looks.left() {
            return Err(Stopped::NoLooks);
        }
        let link = WalkedLink {
            from: from.node,
            to: to.node,
            passes: from.passes,
            bounds: from.bounds,
        };
        Ok(self.task.leave_over(looks, link, to.before, latest))
    }

    /// Returns the second for the sender of the link at a place, by the rule. A second up to `latest` raises nothing.
    #[inline(always)]
    fn reach(
        &self,
        looks: &mut Looks,
        senders: &Senders<'_, A>,
        place: usize,
        to: Deadline,
        latest: u64,
    ) -> Result<u64, Stopped>
        requires task { IsTask self.now.task.now }
        requires senders { AreSendersAt self.now.task.now to.node senders.now }
        requires place { place < length senders.now }
        ensures { IfOk result (IsReachedBy self.now.rule self.now.task.now senders.now place to) }
    {
        match self.rule {
            Rule::Passes => self.by_passes(looks, senders, place, to, latest),
            Rule::Bounds => Ok(self.by_bounds(senders, place, to)),
        }
    }
}

/// The seconds so far, and the nodes whose links are to be relaxed.
#[derive(Drop)]
pub struct Relaxation<A: Allocator + Copy> {
    /// For each node, the second from which on it is too late there, so far.
    seconds: Vec<u64, A>,
    /// For each node, the hops of a way that shows that second.
    hops: Vec<u64, A>,
    /// For each node, whether the links to it were relaxed since its second last rose.
    relaxed: Vec<bool, A>,
    /// The nodes whose links are to be relaxed, the latest first.
    queue: Queue<A>,
}

impl<A: Allocator + Copy> Relaxation<A> {
    /// Begins with the goal alone, where it is too late from this second on.
    fn begin(alloc: A, task: &Task<'_, A>, until: u64) -> Result<Relaxation<A>, NoMemory>
        requires task { IsTask task.now }
        ensures { IfOk result (IsBegun task.now until) }
    {
        let nodes = task.node_count();
        let mut seconds = Vec::new(alloc);
        seconds.resize(nodes, 0)?;
        seconds[task.goal()] = until;
        let mut hops = Vec::new(alloc);
        hops.resize(nodes, 0)?;
        let mut relaxed = Vec::new(alloc);
        relaxed.resize(nodes, false)?;
        let mut queue = Queue::new(alloc);
        let first = Visit {
            at: 0,
            node: task.goal(),
        };
        queue.push(first, 0)?;
        Ok(Relaxation {
            seconds,
            hops,
            relaxed,
            queue,
        })
    }

    /// Raises the second of a node, by a link to the node `next`.
    #[inline(always)]
    fn raise(&mut self, node: usize, second: u64, next: usize) -> Result<(), NoMemory>
        requires node { node < 2 ^ 16 }
        requires seconds { node < length self.old.seconds.items }
        requires relaxed { node < length self.old.relaxed.items }
        requires hops { (node < length self.old.hops.items) × (next < length self.old.hops.items) }
        ensures { OnOk result (IsRaised node second self.old self.new) }
    {
        let hops = self.hops[next].saturating_add(1);
        let event = Visit {
            at: LAST_AT.saturating_sub(second),
            node,
        };
        self.queue.push(event, hops)?;
        self.seconds[node] = second;
        self.hops[node] = hops;
        self.relaxed[node] = false;
        Ok(())
    }

    /// Relaxes every link to a node.
    #[inline(always)]
    fn relax_senders(
        &mut self,
        backward: &Backward<'_, '_, A>,
        looks: &mut Looks,
        node: usize,
    ) -> Result<(), Stopped>
        requires task { IsTask backward.now.task.now }
        requires node { node < length backward.now.task.now.table }
        requires relaxing { AreRelaxing backward.now self.old node }
        ensures relaxing { OnOk result (AreRelaxing backward.now self.new node) }
        ensures rises { OnOk result ((k : ℕ) → slice_index self.old.seconds.items k ≤ slice_index self.new.seconds.items k) }
        ensures relaxed { OnOk result (IsRelaxed backward.now.rule backward.now.task.now self.new.seconds.items node) }
    {
        let to = Deadline {
            node,
            before: self.seconds[node],
        };
        let senders = backward.task.senders(node);
        for place in 0..senders.len() {
            let from = senders.head(place).node;
            let latest = self.seconds[from];
            let second = backward.reach(looks, &senders, place, to, latest)?;
            if second <= latest {
                continue;
            }
            if from == node {
                continue;
            }
            self.raise(from, second, node)?;
        }
        Ok(())
    }

    /// Relaxes the links to the nodes that wait, until none does. It stops after two nodes for each contact.
    #[inline(always)]
    fn relax_all(
        &mut self,
        backward: &Backward<'_, '_, A>,
        looks: &mut Looks,
    ) -> Result<(), Stopped>
        requires task { IsTask backward.now.task.now }
        requires relaxing { AreRelaxing backward.now self.old (length backward.now.task.now.table) }
        ensures rises { OnOk result ((k : ℕ) → slice_index self.old.seconds.items k ≤ slice_index self.new.seconds.items k) }
        ensures relaxed { OnOk result (AreAllRelaxed backward.now.rule backward.now.task.now self.new.seconds.items) }
    {
        for _ in 0..2 * backward.task.one_scan() {
            let Some(event) = self.queue.pop() else {
                return Ok(());
            };
            if self.relaxed[event.node] {
                continue;
            }
            self.relaxed[event.node] = true;
            self.relax_senders(backward, looks, event.node)?;
        }
        Err(Stopped::NoLooks)
    }
}

/// Returns for each node a second from which on no way over the whole graph delivers before `until`.
pub fn latest_by<A: Allocator + Copy>(
    alloc: A,
    task: &Task<'_, A>,
    looks: &mut Looks,
    until: u64,
) -> Result<Vec<u64, A>, Stopped>
    requires whole { IsWholeGraph task.now }
    ensures deadline { IfOk result (λ v. AreDeadlinesFor (tabled_of task.now) task.now.request until v.items) }
{
    let backward = Backward {
        task,
        rule: Rule::Passes,
    };
    let mut latest = Relaxation::begin(alloc, task, until)?;
    latest.relax_all(&backward, looks)?;
    Ok(latest.seconds)
}

/// Replaces each second by those from it to `LAST_AT`.
fn turn<A: Allocator + Copy>(seconds: &mut Vec<u64, A>)
    ensures { (k : ℕ) → k < length seconds.old.items → slice_index seconds.new.items k ≡ last_at - slice_index seconds.old.items k }
{
    for place in 0..seconds.len() {
        seconds[place] = LAST_AT.saturating_sub(seconds[place]);
    }
}

/// Returns for each node what a way to the destination costs: the smallest sum of the links' smallest costs on a way
/// over the links that haven't ended when the request begins; and the hops of such a way.
pub fn costs_of<A: Allocator + Copy>(
    alloc: A,
    task: &Task<'_, A>,
    looks: &mut Looks,
) -> Result<(Vec<u64, A>, Vec<u64, A>), Stopped>
    requires whole { IsWholeGraph task.now }
    ensures costs { IfOk result (λ v. AreCostsFor (tabled_of task.now) task.now.request v.0.items) }
{
    let backward = Backward {
        task,
        rule: Rule::Bounds,
    };
    let mut relaxed = Relaxation::begin(alloc, task, LAST_AT)?;
    relaxed.relax_all(&backward, looks)?;
    turn(&mut relaxed.seconds);
    Ok((relaxed.seconds, relaxed.hops))
}
