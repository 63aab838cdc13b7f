//! One search for the best way of a question.

ghost use Rattle.std.specs.Prelude.{◌≡◌, ◌+◌, ◌*◌, ◌^◌, ◌≤◌, ◌<◌, IfOk, IfSome, length};
ghost use Rattle.sabr_index.specs.Looks.{looks_taken};
ghost use Rattle.sabr_model.specs.routes.Telling.{summary_of};
ghost use Rattle.sabr_search.specs.answers.Answers.{narrowed, IsEnough, IsFound, found_hops, ForbidsFewer};
ghost use Rattle.sabr_search.specs.answers.Asked.{AnswersAt, bound_left, hops_left, IsEarly};
ghost use Rattle.sabr_search.specs.answers.SearchCache.{IsMemory};
ghost use Rattle.sabr_search.specs.layers.Late.{AreSince, IsNoneSooner};
ghost use Rattle.sabr_search.specs.layers.NodeBounds.{AreNodeBounds};
ghost use Rattle.sabr_search.specs.questions.Bounded.{IsSought, IsCutUpTo, IsDecided, sought_hops};
ghost use Rattle.sabr_search.specs.questions.FirstSteps.{tabled_of};
ghost use Rattle.sabr_search.specs.questions.Task.{IsAsked, IsOfRequest, IsTask};
ghost use Rattle.sabr_search.specs.questions.Stops.{StopsOnlyIf};

use crate::backward::since::Since;
use crate::bound::Sought;
use crate::early::wide_questions::Breadth;
use crate::early::{Early, Memory};
use crate::forward::settling::{Forward, Settling};
use crate::found::{Found, FoundWay};
use crate::layer_search::LayerSearch;
use crate::node_bounds::NodeBounds;
use crate::question::Question;
use crate::stopped::Stopped;
use crate::throttle::Throttle;
use crate::visit::Visit;
use sabr_index::Looks;
use sabr_model::NoMemory;
use std::alloc::Allocator;

/// Of the questions whose limit on hops may bind, `TRIES` begin by settling nodes. If settling answered fewer than
/// `LEAST` questions meanwhile, `PAUSE` of them then begin with layers forward (see [`Throttle`]).
/// With 64 tries and half as the least, 1000 routes over eight plans took 3 percent more instructions, and over
/// dense-60, whose limit mostly binds, 11; with 32, 1 and 3; and with no layers first, 16 and 87: all in a copy of this
/// design in plain Rust. To vary it: `bench/further.py --parts limits`.
const TRIES: u32 = 16;

/// How many settling must answer: see [`TRIES`]. With 4, the same eight took 0.4 percent more, and with 12 it was 0.1.
const LEAST: u64 = 8;

/// How many then begin with layers forward: see [`TRIES`]. With 256, dense-60 took 4 percent more; with 4096 nothing
/// changed.
const PAUSE: u32 = 1024;

/// What a search keeps from call to call.
#[derive(Drop)]
pub struct Search<A: Allocator + Copy> {
    /// The allocator of the buffers and routes.
    pub alloc: A,
    /// Where the first steps come to, and when.
    first: Vec<Visit, A>,
    /// Nodes in order of arrival plus a lower bound on the rest (A*).
    settling: Settling<A>,
    /// Decides whether a question whose limit on hops may bind begins by settling, or with layers forward.
    settles: Throttle,
    /// Layers by hops, forward within a limit and backward.
    layers: LayerSearch<A>,
}

impl<A: Allocator + Copy> Search<A> {
    /// Makes an empty value. It doesn't allocate.
    pub fn new(alloc: A) -> Search<A> {
        Search {
            alloc,
            first: Vec::new(alloc),
            settling: Settling::new(alloc),
            settles: Throttle::new(TRIES, LEAST, PAUSE),
            layers: LayerSearch::new(alloc),
        }
    }

    /// Returns the best way of a question up to its bound, or a bound that each way is above.
    ///
    /// Settling finds a way with the earliest delivery. If that way has no more hops than are left, layers backward find
    /// the best way with that delivery. Otherwise layers forward first find the earliest delivery within these hops. If
    /// settling answered too few of the latest questions whose limit may bind, the search begins with layers forward.
    #[tactic(auto, using(crate::proofs::AnswerLemmas::Answered::left_fewer))]
    pub fn run(
        &mut self,
        asked: &Question<'_, '_, '_, A>,
        node_bounds: &NodeBounds<A>,
        looks: &mut Looks,
    ) -> Result<Found<FoundWay<A>>, Stopped>
        requires task { IsTask asked.now.task.now }
        requires request { IsOfRequest asked.now.task.now }
        requires node_bounds { AreNodeBounds (tabled_of asked.now.task.now) asked.now.task.now.request node_bounds.now }
        requires soon { AreSince asked.now.task.now node_bounds.now.soon.items }

        // The best way.
        ensures found { IfOk result (IsFound asked.now.task.now (hops_left asked.now)) }
        ensures enough { IfOk result (IsEnough (bound_left asked.now)) }

        // The looks.
        ensures counted { looks.old.left ≤ looks.new.left + (3 * hops_left asked.now + 1) * length asked.now.task.now.plan.contacts }
        ensures cut { IfOk result (λ f. length asked.now.task.now.table ≤ hops_left asked.now + 1 → looks.old.left ≤ looks.new.left + (2 * found_hops (bound_left asked.now) f + 1) * length asked.now.task.now.plan.contacts) }
        ensures stops { StopsOnlyIf result (looks.old.left < (3 * hops_left asked.now + 1) * length asked.now.task.now.plan.contacts) }
    {
        let task = asked.task;
        let (hops, bound) = (asked.hops_left(), asked.bound_left());
        // A way enters no node twice: N - 1 hops are no limit for N nodes.
        let is_limited = hops + 1 < task.node_count();
        if is_limited && !self.settles.allows() {
            return self
                .layers
                .best_of(asked, node_bounds.soon.as_slice(), &mut self.first, looks);
        }
        let until = bound.until();
        let forward = Forward {
            task,
            deadline: node_bounds.deadlines_for(until),
            costs: &node_bounds.costs,
            hops: &node_bounds.hops,
            until,
        };
        let reached = self.settling.run(&forward, looks, &mut self.first)?;
        let Some(best) = reached else {
            self.settles.count_saved(1);
            return Ok(Found::Beyond(bound.at_any_hops()));
        };
        let since = Since {
            nodes: task.node_count(),
            arrival: &self.settling.arrival,
            costs: &node_bounds.costs,
            soon: &node_bounds.soon,
            delivery: best.delivery,
        };
        let delivery = best.delivery;
        if best.hops > hops {
            return self
                .layers
                .best_within(asked, &since, &self.first, delivery, looks);
        }
        self.settles.count_saved(1);
        self.layers
            .best_at(asked, &since, &self.first, delivery, looks)
    }

    /// Searches for the answer to a wide question, which forbids the nodes in `memory.wide_questions.forbidden`, and
    /// caches it. Returns the place of that answer in the cache, unless an allocation for it failed.
    fn run_wide(
        &mut self,
        memory: &mut Memory<A>,
        asked: &Question<'_, '_, '_, A>,
        looks: &mut Looks,
        breadth: Breadth,
    ) -> Result<Option<usize>, Stopped>
        requires asked { IsAsked asked.now.task.now asked.now.prefix.now }
        requires request { IsOfRequest (narrowed asked.now.task.now memory.old.wide_questions.forbidden asked.now.task.now.at) }
        requires fewer { ForbidsFewer asked.now.task.now memory.old.wide_questions.forbidden }
        requires memory { IsMemory (tabled_of asked.now.task.now) asked.now.task.now.request memory.old }
        ensures memory { IsMemory (tabled_of asked.now.task.now) asked.now.task.now.request memory.new }
    {
        let task = asked.task.with_forbidden(&memory.wide_questions.forbidden);
        let wide = Question {
            task: &task,
            prefix: asked.prefix,
            summary: asked.summary,
            bound: asked.bound,
            floor: asked.floor,
        };
        let found = self.run(&wide, &memory.node_bounds, looks)?;
        Ok(memory.answers.cache(&wide, &found, breadth))
    }

    /// Finds the answer to a wide question, which forbids the nodes in `memory.wide_questions.forbidden`. Returns its
    /// place in the cache if it is also the answer to the question `asked`.
    fn find_wide(
        &mut self,
        memory: &mut Memory<A>,
        asked: &Question<'_, '_, '_, A>,
        looks: &mut Looks,
        breadth: Breadth,
    ) -> Result<Option<usize>, Stopped>
        requires asked { IsAsked asked.now.task.now asked.now.prefix.now }
        requires fewer { ForbidsFewer asked.now.task.now memory.old.wide_questions.forbidden }
        requires request { IsOfRequest (narrowed asked.now.task.now memory.old.wide_questions.forbidden asked.now.task.now.at) }
        requires memory { IsMemory (tabled_of asked.now.task.now) asked.now.task.now.request memory.old }
        ensures memory { IsMemory (tabled_of asked.now.task.now) asked.now.task.now.request memory.new }
        ensures some { IfOk result (λ o. IfSome o (AnswersAt memory.new.answers.slots.items asked.now)) }
    {
        let before = looks.left();
        let cached = self.run_wide(memory, asked, looks, breadth);
        memory.count(breadth, before.saturating_sub(looks.left()));
        let Some(place) = cached? else {
            return Ok(None);
        };
        memory.answers.recall_at(place, asked, looks)
    }

    /// Tries to answer a question without its own search: from the cache, by the layers for its floor, or by a wide
    /// question. It takes only the looks that are left, since the caller has set aside those of the own search. Bounds
    /// and layers that are due are found first; if an allocation for these fails, it goes on without.
    fn find_early(
        &mut self,
        memory: &mut Memory<A>,
        asked: &Question<'_, '_, '_, A>,
        looks: &mut Looks,
    ) -> Result<Option<Early<A>>, Stopped>
        requires asked { IsAsked asked.now.task.now asked.now.prefix.now }
        requires floor { IsNoneSooner asked.now.task.now (hops_left asked.now) asked.now.floor }
        requires memory { IsMemory (tabled_of asked.now.task.now) asked.now.task.now.request memory.old }
        ensures memory { IsMemory (tabled_of asked.now.task.now) asked.now.task.now.request memory.new }
        ensures early { IfOk result (λ o. IfSome o (IsEarly asked.now memory.new.answers.slots.items)) }
    {
        let _prepared = memory.prepare(asked, looks);
        let walk = &mut self.layers.walk;
        if !memory.answers.serves(asked) {
            let Some(found) = memory.whole_deadlines.answer(walk, asked, looks)? else {
                return Ok(None);
            };
            return Ok(Some(Early::Found(found)));
        }
        let recalled = memory.answers.recall(asked, looks)?;
        if let Some(place) = recalled.place {
            return Ok(Some(Early::Cached(place)));
        }
        if let Some(found) = memory.whole_deadlines.answer(walk, asked, looks)? {
            return Ok(Some(Early::Found(found)));
        }
        let Some(breadth) = memory.wide_questions.next(recalled.near, asked)? else {
            return Ok(None);
        };
        let Some(place) = self.find_wide(memory, asked, looks, breadth)? else {
            return Ok(None);
        };
        Ok(Some(Early::Cached(place)))
    }

    /// The best route after the prefix up to the bound: by an early answer, or else by the question's own search, whose
    /// answer is cached.
    pub fn find_route(
        &mut self,
        memory: &mut Memory<A>,
        asked: &Question<'_, '_, '_, A>,
        looks: &mut Looks,
    ) -> Result<Sought<A>, NoMemory>
        requires asked { IsAsked asked.now.task.now asked.now.prefix.now }
        requires summary { asked.now.summary ≡ summary_of asked.now.task.now.plan asked.now.prefix.now }
        requires floor { IsNoneSooner asked.now.task.now (hops_left asked.now) asked.now.floor }
        requires few { looks_taken looks.old ≤ 2 * length asked.now.task.now.plan.contacts }
        requires memory { IsMemory (tabled_of asked.now.task.now) asked.now.task.now.request memory.old }

        // The answer, and what is remembered.
        ensures memory { IsMemory (tabled_of asked.now.task.now) asked.now.task.now.request memory.new }
        ensures sought { IfOk result (IsSought asked.now.task.now.plan asked.now.task.now.request asked.now.prefix.now asked.now.task.now.excluded asked.now.bound) }
        ensures decided { IfOk result (IsDecided asked.now.bound) }

        // The looks.
        ensures bound { looks_taken looks.new ≤ (3 * length asked.now.task.now.table + 1) * length asked.now.task.now.plan.contacts }
        ensures counted { IfOk result (λ answer. sought_hops answer ≤ looks_taken looks.new) }
        ensures cut { IfOk result (IsCutUpTo asked.now.task.now.plan asked.now.task.now.request.max_hops asked.now.bound asked.now.prefix.now (looks_taken looks.new)) }
    {
        let aside = looks.set_aside(2 * asked.task.one_scan());
        let found = self.find_early(memory, asked, looks);
        looks.put_back(aside);
        match found {
            Ok(Some(Early::Cached(place))) => {
                let answer = &memory.answers.slots[place];
                memory.wide_questions.count_answer(answer.breadth);
                match &answer.found {
                    Found::Way(delivery) => {
                        return asked.route(self.alloc, looks, answer.lists.way(), *delivery);
                    }
                    Found::Beyond(above) => return Ok(asked.above(*above)),
                }
            }
            Ok(Some(Early::Found(found))) => return asked.answer(self.alloc, looks, &found),
            Ok(None) | Err(Stopped::NoLooks) => {}
            Err(Stopped::NoMemory) => return Err(NoMemory),
        }
        let before = looks.left();
        let found = match self.run(asked, &memory.node_bounds, looks) {
            Ok(found) => found,
            Err(Stopped::NoLooks) => unreachable!(),
            Err(Stopped::NoMemory) => return Err(NoMemory),
        };
        memory.count(Breadth::Own, before.saturating_sub(looks.left()));
        let answer = asked.answer(self.alloc, looks, &found)?;
        memory.answers.learn(asked, &found);
        Ok(answer)
    }
}
