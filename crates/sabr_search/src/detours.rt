//! Whether a route may end otherwise than by its last number, seen without a search.

ghost use Rattle.std.specs.Prelude.{◌≡◌, ◌+◌, ◌*◌, ◌≤◌, ◌<◌, IfOk, IfSome, IsTrue, false, length, slice_index_or};
ghost use Rattle.sabr_model.specs.routes.Route.{is_route};
ghost use Rattle.sabr_search.specs.answers.SearchCache.{IsSearchCache};
ghost use Rattle.sabr_search.specs.questions.Detours.{EndsOtherwise, GoesOtherwise, IsRouteEnd, detour_looks, most_links};
ghost use Rattle.sabr_search.specs.questions.Linked.{IsLinkWithin, IsPassAt};
ghost use Rattle.sabr_search.specs.questions.Task.{IsTask, Takes};

use crate::links::finger::Finger;
use crate::links::walked_link::WalkedLink;
use crate::part::Excluded;
use crate::search_cache::SearchCache;
use crate::task::Task;
use crate::visit::{Step, Visit};
use sabr_index::{Index, Looks, Pass};
use sabr_model::{NoMemory, Request};
use std::alloc::Allocator;

/// How many links of the last contact's sender are looked at for a detour, so that little is lost where there is none.
/// A request of `many` for one route takes 0.52 times the instructions with it as without detours over cube-1-2, 0.66
/// times over iridium-1-2, 0.95 over walker-66-5000, 0.96 over sparse-2000, 0.97 over dense-60, and 0.1 percent more
/// over grid-8 and relay-mars-2000, in a copy of this design in plain Rust. With 8 it takes 21 percent more over
/// cube-1-2, 3 over walker-66-5000 and 1 over iridium-1-2 and sparse-2000; with 32, 1 percent more over the first two;
/// with all links, none takes 0.1 percent fewer. To vary it: `bench/further.py --parts many`, `bench/figures.py
/// --counts 1`.
const MAX_LINKS: usize = 64;

/// The end of a route: the search that starts before its last number, the numbers before it, and the last number.
#[derive(Drop)]
pub struct RouteEnd<'t, 'a, 'f, A: Allocator + Copy> {
    task: &'t Task<'a, A>,
    front: &'f [u32],
    last: u32,
}

/// Returns the link at a place among those of a node, or none if it has fewer.
fn link_at<'l, A: Allocator + Copy>(
    task: &'l Task<'_, A>,
    from: usize,
    place: usize,
) -> Option<WalkedLink<'l>>
    requires task { IsTask task.now }
    requires from { from < length task.now.table }
    ensures receiver { IfSome result (λ link. link.to < length task.now.table) }
    ensures link { IfSome result (λ link. IsLinkWithin task.now from link.to link.passes.now link.bounds) }
{
    let links = task.links(from);
    if place >= links.links.len() {
        return None;
    }
    Some(task.link(links, from, place))
}

/// Returns the last contact from one node to another. That links stand in the order of their receivers need not be
/// proved: if one isn't found, no detour is.
fn last_pass<'l, A: Allocator + Copy>(
    task: &'l Task<'_, A>,
    from: usize,
    to: usize,
) -> Option<&'l Pass>
    requires task { IsTask task.now }
    requires from { from < length task.now.table }
    ensures { IfSome result (λ pass. IsPassAt task.now from to pass.now) }
{
    let place = task
        .links(from)
        .links
        .partition_point(|link| (link.receiver as usize) < to);
    let link = link_at(task, from, place)?;
    if link.to != to {
        return None;
    }
    link.passes.last()
}

/// Takes a contact to an open node: one look. None if that is too late, or if no way takes the contact first.
fn take_pass<A: Allocator + Copy>(
    task: &Task<'_, A>,
    looks: &mut Looks,
    here: Visit,
    to: usize,
    pass: &Pass,
) -> Option<Step>
    requires task { IsTask task.now }
    requires few { 0 < looks.old.left }
    requires pass { IsPassAt task.now here.node to pass.now }
    requires permitted { slice_index_or task.now.forbidden to false ≡ false }
    ensures counted { looks.old.left ≡ looks.new.left + 1 }
    ensures takes { IfSome result (λ step. Takes task.now step.number here.node here.at to step.at) }
{
    let pass = pass.look(looks);
    let mut finger = Finger::new();
    if task.excluded_from(here.node, &pass, &mut finger) > 0 {
        return None;
    }
    let hop = task.hop_over(to, &pass);
    let at = hop.arrive(task.request(), here.at)?;
    Some(Step {
        number: pass.number(),
        node: to,
        at,
    })
}

impl<'t, 'a, 'f, A: Allocator + Copy> RouteEnd<'t, 'a, 'f, A> {
    /// The end of a route whose last number is this one. The search starts after the numbers before it.
    fn of(task: &'t Task<'a, A>, front: &'f [u32], last: u32) -> RouteEnd<'t, 'a, 'f, A>
        ensures task { result.task.now ≡ task.now }
        ensures front { result.front.now ≡ front.now }
        ensures last { result.last ≡ last }
    {
        RouteEnd { task, front, last }
    }

    /// Returns true if the route may end on the last contact to the destination in place of its own.
    fn ends_directly(&self, looks: &mut Looks) -> bool
        requires few { 0 < looks.old.left }
        requires end { IsRouteEnd self.now }
        ensures most { looks.old.left ≤ looks.new.left + 1 }
        ensures fewer { looks.new.left ≤ looks.old.left }
        ensures yes { IsTrue result → EndsOtherwise self.now }
        ensures both { IsTrue result → looks.new.left + 1 ≤ looks.old.left }
    {
        let task = self.task;
        let here = task.beginning();
        let goal = task.goal();
        let Some(pass) = last_pass(task, here.node, goal) else {
            return false;
        };
        let Some(step) = take_pass(task, looks, here, goal, pass) else {
            return false;
        };
        step.number != self.last
    }

    /// Returns true if the route may take a contact of this link in place of its last one, and then end on one more
    /// contact. Only one pair is tried: the first contact of the link that hasn't ended, and the last contact to the
    /// destination.
    fn takes(&self, looks: &mut Looks, link: WalkedLink<'_>) -> bool
        requires few { 2 ≤ looks.old.left }
        requires end { IsRouteEnd self.now }

        // The link leads from the start, and there is room for two contacts.
        requires room { length self.now.front.now + 1 < self.now.task.now.request.max_hops }
        requires receiver { link.to < length self.now.task.now.table }
        requires link { IsLinkWithin self.now.task.now self.now.task.now.start link.to link.passes.now link.bounds }

        // The looks.
        ensures most { looks.old.left ≤ looks.new.left + 2 }
        ensures fewer { looks.new.left ≤ looks.old.left }
        ensures both { IsTrue result → looks.new.left + 2 ≤ looks.old.left }

        // The answer.
        ensures yes { IsTrue result → EndsOtherwise self.now }
    {
        let task = self.task;
        if !task.is_between(link.to) {
            return false;
        }
        let here = task.beginning();
        let goal = task.goal();
        let unended = link
            .passes
            .partition_point(|pass| pass.latest_end <= here.at);
        if unended >= link.passes.len() {
            return false;
        }
        let Some(second) = last_pass(task, link.to, goal) else {
            return false;
        };
        let Some(first) = take_pass(task, looks, here, link.to, &link.passes[unended]) else {
            return false;
        };
        if first.number == self.last {
            return false;
        }
        let relay = Visit {
            node: link.to,
            at: first.at,
        };
        take_pass(task, looks, relay, goal, second).is_some()
    }

    /// Returns true if the route may take a detour over one of the first links in place of its last number.
    fn takes_detour(&self, looks: &mut Looks) -> bool
        requires few { 2 * most_links ≤ looks.old.left }
        requires end { IsRouteEnd self.now }
        ensures most { looks.old.left ≤ looks.new.left + 2 * most_links }
        ensures fewer { looks.new.left ≤ looks.old.left }
        ensures both { IsTrue result → looks.new.left + 2 ≤ looks.old.left }
        ensures yes { IsTrue result → EndsOtherwise self.now }
    {
        let task = self.task;
        if self.front.len() + 1 >= task.request().max_hops() as usize {
            return false;
        }
        for place in 0..MAX_LINKS {
            let Some(link) = link_at(task, task.start(), place) else {
                return false;
            };
            if self.takes(looks, link) {
                return true;
            }
        }
        false
    }

    /// Returns true if the route may end otherwise, by one number or two.
    fn ends_otherwise(&self, looks: &mut Looks) -> bool
        requires few { 1 + 2 * most_links ≤ looks.old.left }
        requires end { IsRouteEnd self.now }
        ensures most { looks.old.left ≤ looks.new.left + 1 + 2 * most_links }
        ensures fewer { looks.new.left ≤ looks.old.left }
        ensures least { IsTrue result → looks.new.left + 1 ≤ looks.old.left }
        ensures yes { IsTrue result → EndsOtherwise self.now }
    {
        if self.ends_directly(looks) {
            return true;
        }
        self.takes_detour(looks)
    }
}

impl<A: Allocator + Copy> SearchCache<A> {
    /// Returns true if a route is seen to have another ending in place of its last number. Either one number that isn't
    /// excluded leads to the destination; only the last contact of its link is tried. Or there is a detour of two
    /// numbers.
    ///
    /// It takes a look for each contact before the last, also for those that the path of the last search has, and at
    /// most two for each link that is tried: a look at least for each contact of the route if it returns true.
    ///
    /// # Errors
    ///
    /// [`NoMemory`] if an allocation failed.
    pub fn goes_otherwise(
        &mut self,
        looks: &mut Looks,
        index: &Index<'_, A>,
        request: &Request,
        route: &[u32],
        excluded: &[u32],
    ) -> Result<bool, NoMemory>
        requires cache { IsSearchCache index.now request.now self.old }
        requires route { IsTrue (is_route index.now.plan request.now route.now) }
        requires few { detour_looks (length route.now) ≤ looks.old.left }

        // The answer.
        ensures yes { IfOk result (λ yes. IsTrue yes → GoesOtherwise index.now.plan request.now route.now excluded.now) }

        // The looks.
        ensures most { looks.old.left ≤ looks.new.left + detour_looks (length route.now) }
        ensures fewer { looks.new.left ≤ looks.old.left }
        ensures least { IfOk result (λ yes. IsTrue yes → looks.new.left + length route.now ≤ looks.old.left) }
        ensures cache { IsSearchCache index.now request.now self.new }
    {
        let plan = index.counted();
        let Some((last, front)) = route.split_last() else {
            return Ok(false);
        };
        self.prepare_path(plan, request)?;
        let Some(prefix_path) = self.prefix_path.as_mut() else {
            return Ok(false);
        };
        looks.take_many(front.len() as u64);
        let Ok(stop) = prefix_path.go(&mut Looks::many(), plan, request, front) else {
            self.prefix_path = None;
            return Err(NoMemory);
        };
        let task = Task::new(plan, request, prefix_path, Excluded::of(excluded), stop);
        let end = RouteEnd::of(&task, front, *last);
        Ok(end.ends_otherwise(looks))
    }
}
