//! What holds for the ways of every question of a session, over the whole graph.

ghost use Rattle.std.specs.Prelude.{◌≡◌, ◌≤◌, ℕ, [], IfOk, min, slice_index};
ghost use Rattle.sabr_model.specs.plan.Plan.{TabledPlan};
ghost use Rattle.sabr_model.specs.routes.Arrival.{RouteRequest};
ghost use Rattle.sabr_search.specs.layers.NodeBounds.{AreDeadlinesFor, AreNodeBounds, AreSoonFor};
ghost use Rattle.sabr_search.specs.layers.Relaxation.{IsWholeGraph};
ghost use Rattle.sabr_search.specs.questions.FirstSteps.{tabled_of};
ghost use Rattle.sabr_search.specs.questions.Task.{IsAsked, IsBehind, never};

use crate::backward::relaxation::{costs_of, latest_by};
use crate::forward::settling::{Forward, Settling};
use crate::stopped::Stopped;
use crate::task::Task;
use crate::visit::{NEVER, UNDELIVERED};
use sabr_index::Looks;
use std::alloc::Allocator;

/// How many questions are asked before any of this is found. Finding it takes as long as several searches,
/// and a list's first route, with the question whether another follows, takes two. With 1, runs for one route take 4
/// percent more instructions, the mean of 24 questions; with 3, those for ten routes take 0.3 percent more. To vary it:
/// `bench/figures.py --counts 1,10`, over all plans.
const FIRST_QUESTIONS: u32 = 2;

/// How many questions later last seconds are found for a bound, at the earliest; each time after it is twice as many.
/// With 8 and four times as many, runs for ten routes take 1 percent more instructions, the mean of 24 questions; with
/// 256, those for 100 routes over sparse-20000 take 29 percent more: in a copy of this design in plain Rust. To vary
/// it: `bench/figures.py --counts 10,100`, over all plans.
const FIRST_GAP: u32 = 128;

/// Lowers each second to a given one at the most.
fn lower<A: Allocator + Copy>(seconds: &mut Vec<u64, A>, most: u64)
    ensures { (k : ℕ) → slice_index seconds.new.items k ≤ min (slice_index seconds.old.items k) most }
{
    for place in 0..seconds.len() {
        seconds[place] = seconds[place].min(most);
    }
}

/// Finds for each node a second before which no way over the whole graph comes there from the source: its soonest
/// arrival, or the first delivery if that is sooner.
fn soonest_of<A: Allocator + Copy>(
    alloc: A,
    task: &Task<'_, A>,
    looks: &mut Looks,
    deadline: &[u64],
) -> Result<Vec<u64, A>, Stopped>
    requires whole { IsWholeGraph task.now }
    requires source { IsBehind task.now [] }
    requires deadline { AreDeadlinesFor (tabled_of task.now) task.now.request never deadline.now }
    ensures soon { IfOk result (λ v. AreSoonFor (tabled_of task.now) task.now.request v.items) }
{
    let forward = Forward {
        task,
        deadline,
        costs: &[],
        hops: &[],
        until: UNDELIVERED,
    };
    let mut settling = Settling::new(alloc);
    let mut first = Vec::new(alloc);
    let found = settling.run(&forward, looks, &mut first)?;
    let most = match found {
        Some(best) => best.delivery,
        None => UNDELIVERED,
    };
    lower(&mut settling.arrival, most);
    Ok(settling.arrival)
}

/// What is known of the ways of every question of a request.
#[derive(Drop)]
pub struct NodeBounds<A: Allocator + Copy> {
    /// For each node, a second from which on no way leads to the destination; none is known after the list's end.
    deadline: Vec<u64, A>,
    /// The second for which last seconds were last looked for: at first the one after every arrival, for which `deadline`
    /// has them. None before the lists were looked for.
    until: Option<u64>,
    /// For each node, a second from which on no way delivers before `until`, if `deadline` isn't all that is known.
    deadline_until: Option<Vec<u64, A>>,
    /// For each node, a number of seconds that each way to the destination takes at least; 0 after the list's end.
    pub costs: Vec<u64, A>,
    /// For each node, the hops of such a way, as far as the list goes.
    pub hops: Vec<u64, A>,
    /// For each node, a second before which no way from the source comes there; 0 after the list's end.
    pub soon: Vec<u64, A>,
    /// How many questions are still asked before more of this is looked for.
    wait: u32,
    /// How many will be asked after the next time.
    gap: u32,
}

impl<A: Allocator + Copy> NodeBounds<A> {
    /// Makes bounds that know nothing of any node. It doesn't allocate.
    pub fn new(alloc: A) -> NodeBounds<A>
        ensures { (p : TabledPlan) (r : RouteRequest) → AreNodeBounds p r result }
    {
        NodeBounds {
            deadline: Vec::new(alloc),
            until: None,
            deadline_until: None,
            costs: Vec::new(alloc),
            hops: Vec::new(alloc),
            soon: Vec::new(alloc),
            wait: FIRST_QUESTIONS,
            gap: FIRST_GAP,
        }
    }

    /// For each node, a second from which on no way delivers before `until`; none is known after the list's end.
    pub fn deadlines_for(&self, until: u64) -> &[u64]
        ensures { (p : TabledPlan) (r : RouteRequest) → AreNodeBounds p r self.now → AreDeadlinesFor p r until result.now }
    {
        if let Some(last) = self.until
            && until <= last
            && let Some(deadline) = &self.deadline_until
        {
            return deadline;
        }
        &self.deadline
    }

    /// Counts a question for ways that deliver before `until`. Returns true if [`find`](NodeBounds::find) is to be
    /// called: first for the lists that hold for every question, and later for last seconds, if `until` is earlier than
    /// the last time. At least `FIRST_GAP` questions go by between the first two calls, and twice as many before each
    /// later one.
    pub fn is_due(&mut self, until: u64) -> bool
        ensures { (p : TabledPlan) (r : RouteRequest) → AreNodeBounds p r self.old → AreNodeBounds p r self.new }
    {
        if self.wait > 0 {
            self.wait -= 1;
            return false;
        }
        if let Some(last) = self.until
            && until >= last
        {
            return false;
        }
        self.wait = self.gap;
        self.gap = self.gap.saturating_mul(2);
        true
    }

    /// Finds last seconds for `until`, or the first time what doesn't depend on it, from the question of the empty
    /// prefix, which excludes nothing. What might need more looks than are left, or an allocation that failed, isn't
    /// known.
    pub fn find(&mut self, alloc: A, task: &Task<'_, A>, looks: &mut Looks, until: u64)
        requires asked { IsAsked task.now [] }
        requires none { task.now.excluded ≡ [] }
        requires node_bounds { AreNodeBounds (tabled_of task.now) task.now.request self.old }
        ensures { AreNodeBounds (tabled_of task.now) task.now.request self.new }
    {
        if let Some(_) = self.until {
            self.deadline_until = latest_by(alloc, task, looks, until).ok();
            self.until = Some(until);
            return;
        }
        let deadline = latest_by(alloc, task, looks, NEVER).unwrap_or(Vec::new(alloc));
        let soon = soonest_of(alloc, task, looks, &deadline).unwrap_or(Vec::new(alloc));
        self.deadline = deadline;
        let none = (Vec::new(alloc), Vec::new(alloc));
        let (costs, hops) = costs_of(alloc, task, looks).unwrap_or(none);
        self.costs = costs;
        self.hops = hops;
        self.soon = soon;
        self.until = Some(UNDELIVERED);
        self.deadline_until = None;
    }
}
