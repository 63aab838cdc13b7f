//! Where a prefix leads, stop by stop, so that the next one goes on from what both have in common.

pub mod forbidden_nodes;
pub mod source_and_avoided;

ghost use Rattle.std.specs.Prelude.{◌≡◌, ℕ, List, ◌+◌, ◌^◌, ◌≤◌, IfOk, IfSome, IfNone, OnOk, IsTrue, length, take};
ghost use Rattle.sabr_model.specs.plan.Plan.{IsPlan};
ghost use Rattle.sabr_model.specs.routes.Route.{is_route, is_prefix};
ghost use Rattle.sabr_model.specs.routes.Telling.{summary_of};
ghost use Rattle.sabr_search.specs.questions.PrefixPath.{IsPrefixPath, IsEntered};

use crate::prefix_path::forbidden_nodes::ForbiddenNodes;
use crate::prefix_path::source_and_avoided::forbid_source_and_avoided;
use sabr_index::{CountedPlan, Looks};
use sabr_model::{NoMemory, Request, RouteSummary};
use std::alloc::{Allocator, Global};

/// Where some numbers lead, and when, and what the record of a route that begins with them holds of them.
#[derive(Clone, Copy)]
pub struct Stop {
    pub node: usize,
    pub at: u64,
    pub summary: RouteSummary,
}

/// Where the last prefix of a request over a plan led.
#[derive(Drop)]
pub struct PrefixPath<A: Allocator + Copy = Global> {
    /// The numbers of the prefix.
    numbers: Vec<u32, A>,
    /// Where its first numbers lead, for each count of them from 0 on.
    stops: Vec<Stop, A>,
    /// The nodes that no route goes on to: those of the stops, and those to avoid.
    pub forbidden: ForbiddenNodes<A>,
    /// The index of the destination.
    pub goal: usize,
}

/// Returns how many numbers two lists have in common at their fronts.
fn common_front(one: &[u32], other: &[u32]) -> usize
    ensures within { result ≤ length one.now }
    ensures within_other { result ≤ length other.now }
    ensures same { take result one.now ≡ take result other.now }
{
    let most = one.len().min(other.len());
    for place in 0..most {
        if one[place] != other[place] {
            return place;
        }
    }
    most
}

impl<A: Allocator + Copy> PrefixPath<A> {
    /// Makes the path of the empty prefix, at the source. None unless the plan has both the source and the destination.
    pub fn at_source(
        alloc: A,
        plan: &CountedPlan<'_, A>,
        request: &Request,
    ) -> Result<Option<PrefixPath<A>>, NoMemory>
        ensures plan { IsPlan plan.now.plan }
        ensures none { IfOk result (λ o. IfNone o ((s : List ℕ) → IsTrue (is_route plan.now.plan request.now s) → ⊥)) }
        ensures some { IfOk result (λ o. IfSome o (IsPrefixPath plan.now request.now)) }
    {
        plan.rules_hold();
        let nodes = plan.nodes();
        let Some(source) = plan.node_index(request.from()) else {
            return Ok(None);
        };
        let Some(goal) = plan.node_index(request.to()) else {
            return Ok(None);
        };
        let mut forbidden = ForbiddenNodes::new(alloc);
        forbidden.reset(nodes)?;
        forbid_source_and_avoided(&mut forbidden, plan, request)?;
        let mut stops = Vec::new(alloc);
        stops.push(Stop {
            node: source,
            at: request.at(),
            summary: plan.summary_of_none(),
        })?;
        Ok(Some(PrefixPath {
            numbers: Vec::new(alloc),
            stops,
            forbidden,
            goal,
        }))
    }

    /// Goes along a prefix that fits, and returns where it leads: one look for each number after those that it has in
    /// common with the last prefix.
    ///
    /// If an allocation failed, the path is of no more use.
    pub fn go(
        &mut self,
        looks: &mut Looks,
        plan: &CountedPlan<'_, A>,
        request: &Request,
        prefix: &[u32],
    ) -> Result<Stop, NoMemory>
        requires prefix_path { IsPrefixPath plan.now request.now self.old }
        requires fits { IsTrue (is_prefix plan.now.plan request.now prefix.now) }
        requires few { length prefix.now ≤ looks.old.left }
        ensures looks { looks.old.left ≤ looks.new.left + length prefix.now }
        ensures prefix_path { OnOk result (IsPrefixPath plan.now request.now self.new) }
        ensures entered { IfOk result (λ stop. IsEntered plan.now request.now prefix.now self.new.forbidden stop.node stop.at self.new.goal) }
        ensures summary { IfOk result (λ stop. stop.summary ≡ summary_of plan.now.plan prefix.now) }
    {
        let front = common_front(&self.numbers, prefix);
        while self.stops.len() > front + 1 {
            let Some(stop) = self.stops.pop() else {
                unreachable!();
            };
            self.forbidden.allow(stop.node);
        }
        let mut here = self.stops[front];
        for place in front..prefix.len() {
            let number = prefix[place];
            let followed = plan.follow(looks, here.summary, &prefix[..place], number);
            let Some(hop) = followed.hop else {
                unreachable!();
            };
            let Some(at) = hop.arrive(request, here.at) else {
                unreachable!();
            };
            here = Stop {
                node: hop.receiver,
                at,
                summary: followed.summary,
            };
            self.forbidden.put(here.node)?;
            self.stops.push(here)?;
        }
        self.numbers.clear();
        self.numbers.extend_from_slice(prefix)?;
        Ok(here)
    }
}
