//! A question after a prefix.

ghost use Rattle.std.specs.Prelude.{◌≡◌, ℕ, ◌++◌, ◌+◌, ◌-◌, ◌*◌, ◌^◌, ◌≤◌, IfOk, IsTrue, length, take};
ghost use Rattle.sabr_model.specs.routes.Telling.{summary_of};
ghost use Rattle.sabr_search.specs.questions.Task.{IsAsked, IsTask};
ghost use Rattle.sabr_search.specs.layers.Picks.{IsBestWay};
ghost use Rattle.sabr_search.specs.answers.Answers.{IsWayBeyond, IsEnough, IsFound, found_hops, hops_above};
ghost use Rattle.sabr_search.specs.answers.Asked.{bound_left, hops_left, IsCutBefore, IsCutAfter};
ghost use Rattle.sabr_search.specs.questions.Bounded.{IsSought, IsDecided, sought_hops, is_up_to};
ghost use Rattle.sabr_index.specs.Looks.{looks_taken};

use crate::bound::{Bound, BoundedPart, Sought};
use crate::found::{Found, FoundWay};
use crate::task::Task;
use sabr_index::{CountedPlan, Looks};
use sabr_model::{MAX_HOPS, NoMemory, RouteSummary};
use std::alloc::Allocator;

/// What is asked for a part: the best route after its prefix, up to a bound. The task is the search for its way.
#[derive(Drop)]
pub struct Question<'t, 'a, 'p, A: Allocator + Copy> {
    /// The search after the prefix.
    pub task: &'t Task<'a, A>,
    /// The contact numbers that the route begins with.
    pub prefix: &'p [u32],
    /// Their summary.
    pub summary: RouteSummary,
    /// What is asked up to.
    pub bound: Bound,
    /// A second before which no way after the prefix delivers. 0 is one for each question.
    pub floor: u64,
}

/// The numbers of a way after those of a prefix.
fn joined<A: Allocator + Copy>(
    alloc: A,
    prefix: &[u32],
    way: &[u32],
) -> Result<Vec<u32, A>, NoMemory>
    ensures { IfOk result (λ v. v.items ≡ prefix.now ++ way.now) }
{
    let mut contacts = Vec::with_capacity(alloc, prefix.len() + way.len())?;
    contacts.extend_from_slice(prefix)?;
    contacts.extend_from_slice(way)?;
    Ok(contacts)
}

/// Finds the summary of these numbers, from that of the first of them: one look for each, though no contact of the
/// first is read.
fn summary_from<A: Allocator + Copy>(
    plan: &CountedPlan<'_, A>,
    looks: &mut Looks,
    known: RouteSummary,
    first: usize,
    numbers: &[u32],
) -> RouteSummary
    requires within { first ≤ length numbers.now }
    requires few { length numbers.now ≤ looks.old.left }
    requires known { known ≡ summary_of plan.now.plan (take first numbers.now) }
    ensures counted { looks_taken looks.new ≡ looks_taken looks.old + length numbers.now }
    ensures value { result ≡ summary_of plan.now.plan numbers.now }
{
    looks.take_many(first as u64);
    let mut summary = known;
    for place in first..numbers.len() {
        summary = plan.summarize(looks, summary, &numbers[..place], numbers[place]);
    }
    summary
}

impl<'t, 'a, 'p, A: Allocator + Copy> Question<'t, 'a, 'p, A> {
    /// The question for a part, after whose prefix the search starts.
    pub fn of(
        task: &'t Task<'a, A>,
        part: BoundedPart<'p>,
        summary: RouteSummary,
    ) -> Question<'t, 'a, 'p, A>
        ensures task { result.task.now ≡ task.now }
        ensures prefix { result.prefix.now ≡ part.entry.prefix.now }
        ensures summary { result.summary ≡ summary }
        ensures bound { result.bound ≡ part.entry.bound }
        ensures floor { result.floor ≡ part.entry.floor }
    {
        Question {
            task,
            prefix: part.prefix,
            summary,
            bound: part.bound,
            floor: part.floor,
        }
    }

    /// The most hops that a way after the prefix may have: those that the limit leaves, and fewer than there are nodes.
    pub fn hops_left(&self) -> usize
        requires { IsTask self.now.task.now }
        ensures { result ≡ hops_left self.now }
    {
        let others = self.task.node_count() - 1;
        let max_hops = self.task.request().max_hops();
        if max_hops == MAX_HOPS {
            return others;
        }
        let left = (max_hops as usize).saturating_sub(self.prefix.len());
        others.min(left)
    }

    /// What the bound leaves after the prefix.
    pub fn bound_left(&self) -> Bound
        ensures { result ≡ bound_left self.now }
    {
        self.bound.after(self.prefix.len())
    }

    /// The answer with the route that goes on by the best way.
    ///
    /// It takes one look for each contact of the route: those of the prefix count, too, though their summary is known.
    pub fn route(
        &self,
        alloc: A,
        looks: &mut Looks,
        way: &[u32],
        delivery: u64,
    ) -> Result<Sought<A>, NoMemory>
        requires asked { IsAsked self.now.task.now self.now.prefix.now }
        requires summary { self.now.summary ≡ summary_of self.now.task.now.plan self.now.prefix.now }
        requires few { looks_taken looks.old ≤ 3 * length self.now.task.now.table * length self.now.task.now.plan.contacts }
        requires least { IsBestWay self.now.task.now (hops_left self.now) (delivery + 1) way.now delivery }

        // The answer.
        ensures sought { IfOk result (IsSought self.now.task.now.plan self.now.task.now.request self.now.prefix.now self.now.task.now.excluded self.now.bound) }
        ensures decided { IfOk result (IsDecided self.now.bound) }

        // The looks.
        ensures bound { looks_taken looks.new ≤ (3 * length self.now.task.now.table + 1) * length self.now.task.now.plan.contacts }
        ensures counted { IfOk result (λ answer. sought_hops answer ≤ looks_taken looks.new) }
        ensures cut { IsCutBefore self.now (length way.now) (looks_taken looks.old) → IfOk result (IsCutAfter self.now (looks_taken looks.new)) }
    {
        let contacts = joined(alloc, self.prefix, way)?;
        let first = self.prefix.len();
        let summary = summary_from(self.task.plan(), looks, self.summary, first, &contacts);
        Ok(Sought::Route(summary.route(contacts, delivery)))
    }

    /// The answer where each way is above a bound: each route is above the one asked for, or there is none.
    pub fn above(&self, bound: Bound) -> Sought<A>
        requires asked { IsAsked self.now.task.now self.now.prefix.now }
        requires beyond { IsWayBeyond self.now.task.now (hops_left self.now) bound }
        requires enough { IsTrue (is_up_to bound self.now.bound.delivery (self.now.bound.hops - length self.now.prefix.now)) }
        ensures sought { IsSought self.now.task.now.plan self.now.task.now.request self.now.prefix.now self.now.task.now.excluded self.now.bound result }
        ensures decided { IsDecided self.now.bound result }
        ensures none { sought_hops result ≡ 0 }
        ensures cut { (looks : ℕ) → IsCutBefore self.now (hops_above (bound_left self.now) bound) looks → IsCutAfter self.now looks result }
    {
        if bound.is_none() {
            Sought::None
        } else {
            Sought::Beyond
        }
    }

    /// The answer by what a search for the way found.
    pub fn answer(
        &self,
        alloc: A,
        looks: &mut Looks,
        found: &Found<FoundWay<A>>,
    ) -> Result<Sought<A>, NoMemory>
        requires asked { IsAsked self.now.task.now self.now.prefix.now }
        requires summary { self.now.summary ≡ summary_of self.now.task.now.plan self.now.prefix.now }
        requires few { looks_taken looks.old ≤ 3 * length self.now.task.now.table * length self.now.task.now.plan.contacts }
        requires found { IsFound self.now.task.now (hops_left self.now) found.now }
        requires enough { IsEnough (bound_left self.now) found.now }

        // The answer.
        ensures sought { IfOk result (IsSought self.now.task.now.plan self.now.task.now.request self.now.prefix.now self.now.task.now.excluded self.now.bound) }
        ensures decided { IfOk result (IsDecided self.now.bound) }

        // The looks.
        ensures bound { looks_taken looks.new ≤ (3 * length self.now.task.now.table + 1) * length self.now.task.now.plan.contacts }
        ensures counted { IfOk result (λ answer. sought_hops answer ≤ looks_taken looks.new) }
        ensures cut { IsCutBefore self.now (found_hops (bound_left self.now) found.now) (looks_taken looks.old) → IfOk result (IsCutAfter self.now (looks_taken looks.new)) }
    {
        match found {
            Found::Way(way) => self.route(alloc, looks, &way.numbers, way.delivery),
            Found::Beyond(bound) => Ok(self.above(*bound)),
        }
    }
}
