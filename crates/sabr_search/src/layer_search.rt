//! A search by layers alone: forward for the earliest delivery within a limit on hops, and backward for its best way.

ghost use Rattle.std.specs.Prelude.{◌+◌, ◌*◌, ◌≤◌, ◌<◌, IfOk, length};
ghost use Rattle.sabr_search.specs.questions.Task.{IsTask};
ghost use Rattle.sabr_search.specs.answers.Asked.{bound_left, hops_left};
ghost use Rattle.sabr_search.specs.answers.Answers.{IsEnough, IsFound, found_hops};
ghost use Rattle.sabr_search.specs.layers.Late.{AreArrivals, AreSince, IsNoneSooner, HasWayAt};
ghost use Rattle.sabr_search.specs.layers.Settling.{AreReal};
ghost use Rattle.sabr_search.specs.questions.FirstSteps.{AreFirstSteps, IsNoneBefore};
ghost use Rattle.sabr_search.specs.questions.Stops.{StopsOnlyIf};

use crate::backward::deadlines::Deadlines;
use crate::backward::from_goal::Aim;
use crate::backward::since::Since;
use crate::backward::walk::Walk;
use crate::bound::Bound;
use crate::forward::layers::Layers;
use crate::found::{Found, FoundWay};
use crate::question::Question;
use crate::stopped::Stopped;
use crate::visit::Visit;
use sabr_index::Looks;
use std::alloc::Allocator;

/// Layers forward from the start, and layers backward from the goal, reused from call to call.
#[derive(Drop)]
pub struct LayerSearch<A: Allocator + Copy> {
    /// Layers forward, for the earliest delivery within a limit on hops.
    forward: Layers<A>,
    /// Layers backward, for the best way with a delivery.
    backward: Deadlines<A>,
    /// A pick by these or by layers for one delivery.
    pub walk: Walk<A>,
}

impl<A: Allocator + Copy> LayerSearch<A> {
    /// Has no layers. It doesn't allocate.
    pub fn new(alloc: A) -> LayerSearch<A> {
        LayerSearch {
            forward: Layers::new(alloc),
            backward: Deadlines::new(alloc),
            walk: Walk::new(alloc),
        }
    }

    /// Returns the best way of a question, by layers forward for the earliest delivery and layers backward for its way.
    /// For each node, `soon` has a second before which no way comes there.
    #[tactic(auto, using(crate::proofs::AnswerLemmas::Answered::left_fewer))]
    pub fn best_of(
        &mut self,
        asked: &Question<'_, '_, '_, A>,
        soon: &[u64],
        first: &mut Vec<Visit, A>,
        looks: &mut Looks,
    ) -> Result<Found<FoundWay<A>>, Stopped>
        requires task { IsTask asked.now.task.now }
        requires soon { AreSince asked.now.task.now soon.now }
        ensures counted { looks.old.left ≤ looks.new.left + (3 * hops_left asked.now + 1) * length asked.now.task.now.plan.contacts }
        ensures found { IfOk result (IsFound asked.now.task.now (hops_left asked.now)) }
        ensures enough { IfOk result (IsEnough (bound_left asked.now)) }
        ensures stops { StopsOnlyIf result (looks.old.left < (3 * hops_left asked.now + 1) * length asked.now.task.now.plan.contacts) }
    {
        let task = asked.task;
        task.first_steps(looks, first)?;
        let since = Since::soonest(task.node_count(), soon);
        self.best_within(asked, &since, first.as_slice(), 0, looks)
    }

    /// Returns the best way of a question if it is up to its bound, and otherwise that each way is above the bound. The
    /// earliest delivery of these ways is `delivery`.
    #[tactic(auto, using(crate::proofs::AnswerLemmas::Answered::left_fewer))]
    pub fn best_at(
        &mut self,
        asked: &Question<'_, '_, '_, A>,
        since: &Since<'_>,
        first: &[Visit],
        delivery: u64,
        looks: &mut Looks,
    ) -> Result<Found<FoundWay<A>>, Stopped>
        requires task { IsTask asked.now.task.now }
        requires arrivals { AreArrivals asked.now.task.now since.now }
        requires steps { AreFirstSteps asked.now.task.now first.now }
        requires real { AreReal asked.now.task.now first.now }
        requires least { IsNoneSooner asked.now.task.now (hops_left asked.now) delivery }
        requires some { HasWayAt asked.now.task.now (hops_left asked.now) delivery }

        // The best way.
        ensures found { IfOk result (IsFound asked.now.task.now (hops_left asked.now)) }
        ensures enough { IfOk result (IsEnough (bound_left asked.now)) }

        // The looks.
        ensures counted { looks.old.left ≤ looks.new.left + 2 * (hops_left asked.now * length asked.now.task.now.plan.contacts) }
        ensures cut { IfOk result (λ f. looks.old.left ≤ looks.new.left + 2 * (found_hops (bound_left asked.now) f * length asked.now.task.now.plan.contacts)) }
        ensures stops { StopsOnlyIf result (looks.old.left < 2 * (hops_left asked.now * length asked.now.task.now.plan.contacts)) }
    {
        let aim = Aim {
            task: asked.task,
            since,
            first,
            delivery,
        };
        let most = asked.bound_left().hops_at(delivery, asked.hops_left());
        let Some(layer) = self.backward.make_back(&aim, looks, most)? else {
            return Ok(Found::Beyond(Bound {
                delivery,
                hops: most,
            }));
        };
        self.walk.begin(delivery);
        let Some(way) = self
            .walk
            .pick(&self.backward, asked.task, looks, layer + 1)?
        else {
            unreachable!();
        };
        Ok(Found::Way(way))
    }

    /// Returns the best way of a question if it is up to its bound, and otherwise that each way is above the bound. No
    /// way delivers before `lower`.
    pub fn best_within(
        &mut self,
        asked: &Question<'_, '_, '_, A>,
        since: &Since<'_>,
        first: &[Visit],
        lower: u64,
        looks: &mut Looks,
    ) -> Result<Found<FoundWay<A>>, Stopped>
        requires task { IsTask asked.now.task.now }
        requires arrivals { AreArrivals asked.now.task.now since.now }
        requires steps { AreFirstSteps asked.now.task.now first.now }
        requires real { AreReal asked.now.task.now first.now }
        requires lower { IsNoneBefore asked.now.task.now lower }

        // The best way.
        ensures found { IfOk result (IsFound asked.now.task.now (hops_left asked.now)) }
        ensures enough { IfOk result (IsEnough (bound_left asked.now)) }

        // The looks.
        ensures counted { looks.old.left ≤ looks.new.left + 3 * (hops_left asked.now * length asked.now.task.now.plan.contacts) }
        ensures stops { StopsOnlyIf result (looks.old.left < 3 * (hops_left asked.now * length asked.now.task.now.plan.contacts)) }
    {
        let bound = asked.bound_left();
        let made = self
            .forward
            .make(asked.task, looks, asked.hops_left(), lower, bound.until())?;
        let Some(best) = made else {
            return Ok(Found::Beyond(bound.at_any_hops()));
        };
        self.best_at(asked, since, first, best.delivery, looks)
    }
}
