//! Layers backward over the whole graph for one delivery, which hold for every question about it.
//!
//! Parts come in order of delivery, so that many questions in a row have the same floor. The layers forbid only what
//! every question of the request forbids. So they leave out no way of a part; and where they have none in time, there
//! is none.

mod budget;

ghost use Rattle.std.specs.Prelude.{◌≡◌, Some, [], IfOk, IfSome, IsTrue};
ghost use Rattle.sabr_model.specs.plan.Plan.{TabledPlan};
ghost use Rattle.sabr_model.specs.routes.Arrival.{RouteRequest};
ghost use Rattle.sabr_search.specs.answers.Asked.{bound_left, hops_left};
ghost use Rattle.sabr_search.specs.answers.Answers.{IsEnough, IsFound};
ghost use Rattle.sabr_search.specs.layers.Late.{IsNoneSooner};
ghost use Rattle.sabr_search.specs.layers.WholeDeadlines.{AreWholeDeadlines, AreWholeDeadlinesOf};
ghost use Rattle.sabr_search.specs.layers.NodeBounds.{AreSoonFor};
ghost use Rattle.sabr_search.specs.questions.FirstSteps.{tabled_of};
ghost use Rattle.sabr_search.specs.questions.Task.{IsAsked};

use crate::backward::deadlines::Deadlines;
use crate::backward::from_goal::Aim;
use crate::backward::since::Since;
use crate::backward::walk::Walk;
use crate::bound::Bound;
use crate::early::whole_deadlines::budget::WholeBudget;
use crate::found::{Found, FoundWay};
use crate::question::Question;
use crate::stopped::Stopped;
use crate::task::Task;
use crate::visit::NEVER;
use sabr_index::Looks;
use sabr_model::NoMemory;
use std::alloc::Allocator;

/// Layers for one delivery.
#[derive(Drop)]
pub struct WholeDeadlines<A: Allocator + Copy> {
    /// The delivery that they are made for, if there are any.
    delivery: Option<u64>,
    /// The layers.
    layers: Deadlines<A>,
    /// When they are made, and whether questions are asked of them.
    budget: WholeBudget,
}

impl<A: Allocator + Copy> WholeDeadlines<A> {
    /// Has no layers. It doesn't allocate.
    pub fn new(alloc: A) -> WholeDeadlines<A>
        ensures { (p : TabledPlan) (r : RouteRequest) → AreWholeDeadlines p r result }
    {
        WholeDeadlines {
            delivery: None,
            layers: Deadlines::new(alloc),
            budget: WholeBudget::new(),
        }
    }

    /// Begins a question with a floor. Returns true if layers are to be made for it.
    pub fn is_due(&mut self, floor: u64) -> bool
        ensures { (p : TabledPlan) (r : RouteRequest) → AreWholeDeadlines p r self.old → AreWholeDeadlines p r self.new }
    {
        self.budget.is_due(floor)
    }

    /// Makes layers for a delivery from the question of the empty prefix, which excludes nothing. There are none if
    /// they might need more looks than are left, or if an allocation failed.
    pub fn make(
        &mut self,
        task: &Task<'_, A>,
        looks: &mut Looks,
        soon: &[u64],
        delivery: u64,
    ) -> Result<(), Stopped>
        requires asked { IsAsked task.now [] }
        requires none { task.now.excluded ≡ [] }
        requires soon { AreSoonFor (tabled_of task.now) task.now.request soon.now }
        ensures { AreWholeDeadlines (tabled_of task.now) task.now.request self.new }
    {
        self.delivery = None;
        if delivery == NEVER {
            return Ok(());
        }
        let since = Since::soonest(task.node_count(), soon);
        let aim = Aim {
            task,
            since: &since,
            first: &[],
            delivery,
        };
        let before = looks.left();
        let made = self.layers.make_all(&aim, looks);
        self.budget
            .count_layers(before.saturating_sub(looks.left()));
        made?;
        self.delivery = Some(delivery);
        Ok(())
    }

    /// Returns true if there are layers for this delivery.
    fn is_for(&self, delivery: u64) -> bool
        ensures { IsTrue result → self.now.delivery ≡ Some delivery }
    {
        match self.delivery {
            Some(own) => own == delivery,
            None => false,
        }
    }

    /// Returns the best way of a question by layers for its floor, or what each way is above.
    fn find(
        &self,
        walk: &mut Walk<A>,
        asked: &Question<'_, '_, '_, A>,
        looks: &mut Looks,
    ) -> Result<Found<FoundWay<A>>, Stopped>
        requires asked { IsAsked asked.now.task.now asked.now.prefix.now }
        requires floor { IsNoneSooner asked.now.task.now (hops_left asked.now) asked.now.floor }
        requires whole_deadlines { AreWholeDeadlinesOf asked.now.task.now asked.now.floor (hops_left asked.now) self.now.layers }
        ensures { IfOk result (IsFound asked.now.task.now (hops_left asked.now)) }
    {
        let hops = asked.hops_left();
        let most = asked.bound_left().hops_at(asked.floor, hops);
        walk.begin(asked.floor);
        for count in 1..most + 1 {
            if walk.is_too_late(&self.layers, asked.task, count) {
                continue;
            }
            if let Some(way) = walk.pick(&self.layers, asked.task, looks, count)? {
                return Ok(Found::Way(way));
            }
        }
        Ok(Found::Beyond(Bound {
            delivery: asked.floor,
            hops: if most == hops { usize::MAX } else { most },
        }))
    }

    /// The answer to a question by the layers. None if there are none for its floor, if they aren't to be asked just now, if they
    /// don't decide it up to its bound, or if that might take too many looks or dead ends.
    pub fn answer(
        &mut self,
        walk: &mut Walk<A>,
        asked: &Question<'_, '_, '_, A>,
        looks: &mut Looks,
    ) -> Result<Option<Found<FoundWay<A>>>, NoMemory>
        requires asked { IsAsked asked.now.task.now asked.now.prefix.now }
        requires floor { IsNoneSooner asked.now.task.now (hops_left asked.now) asked.now.floor }
        requires whole_deadlines { AreWholeDeadlines (tabled_of asked.now.task.now) asked.now.task.now.request self.old }
        ensures whole_deadlines { AreWholeDeadlines (tabled_of asked.now.task.now) asked.now.task.now.request self.new }
        ensures found { IfOk result (λ o. IfSome o (IsFound asked.now.task.now (hops_left asked.now))) }
        ensures enough { IfOk result (λ o. IfSome o (IsEnough (bound_left asked.now))) }
    {
        if !self.is_for(asked.floor) || !self.budget.allows() {
            return Ok(None);
        }
        let found = match self.find(walk, asked, looks) {
            Ok(found) => found,
            Err(Stopped::NoLooks) => return Ok(None),
            Err(Stopped::NoMemory) => return Err(NoMemory),
        };
        if !found.is_enough(asked.bound_left()) {
            return Ok(None);
        }
        self.budget.count_answer();
        Ok(Some(found))
    }

    /// Learns that a question was searched with that many looks.
    pub fn learn(&mut self, looks: u64)
        ensures { (p : TabledPlan) (r : RouteRequest) → AreWholeDeadlines p r self.old → AreWholeDeadlines p r self.new }
    {
        self.budget.count_search(looks);
    }
}
