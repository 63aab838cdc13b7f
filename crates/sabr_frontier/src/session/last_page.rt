//! The page after which a listing isn't gone on with.

ghost use Rattle.std.specs.Prelude.{◌≡◌, ◌+◌, ◌-◌, ◌<◌, ◌≤◌, ◌++◌, is_some, IfOk, OnOk, IsTrue};
ghost use Rattle.sabr_model.specs.plan.Plan.{IsPlan};
ghost use Rattle.sabr_model.specs.routes.Asking.{IsRequest};
ghost use Rattle.sabr_frontier.specs.listing.Listing.{most_routes, next_route, searches_in};
ghost use Rattle.sabr_frontier.specs.session.LastPage.{IsLastPage};
ghost use Rattle.sabr_frontier.specs.session.Session.{IsSound, IsStarted};
ghost use Rattle.sabr_search.specs.questions.Detours.{detour_looks};
ghost use Rattle.sabr_frontier.specs.tree.Left.{HasLooks};
ghost use Rattle.sabr_index.specs.Looks.{looks_taken};
ghost use Rattle.sabr_frontier.specs.tree.Searching.{records_for, steps_for};
ghost use Rattle.sabr_frontier.specs.tree.Shape.{shape_of, shown};
ghost use Rattle.sabr_frontier.specs.tree.Undo.{IsRoomy};

use crate::giving::searcher::Searcher;
use crate::session::Session;
use crate::tree::Tree;
use sabr_index::Looks;
use sabr_model::{NoMemory, Request, Route};
use sabr_search::BestOf;
use std::alloc::{Allocator, Global};
use std::marker::Model;

/// The last page of a session. The session has ended. Its index and its finder serve another request.
///
/// Contracts see the plan, the routes, whether one is left after them, the finder's calls, and the looks that the page
/// took.
#[derive(Drop)]
pub struct LastPage<'p, B: BestOf<A>, A: Allocator + Copy = Global> {
    /// What found the routes.
    searcher: Searcher<'p, B, A>,
    /// The routes given, those of earlier pages first.
    leaves: Vec<Route<A>, A>,
    /// How many earlier pages gave.
    first: usize,
    /// Whether a route is left after them.
    more: bool,
    /// The looks that the searches took.
    looks: u64,
    /// The looks that finding this out took besides.
    detour_looks: u64,
}

impl<'p, B: BestOf<A>, A: Allocator + Copy> Model for LastPage<'p, B, A> {
    ghost use Rattle.std.specs.Prelude.{◌≤◌, drop, length};
    ghost use Rattle.sabr_frontier.specs.session.LastPage.{LastSeen};

    ghost Value = { LastSeen };

    ghost view = { λ l. record { plan = l.searcher.asked.plan; routes = drop l.first l.leaves.items; more = l.more; calls = l.searcher.calls; looks = l.looks; detour_looks = l.detour_looks } };

    ghost invariant = { λ l. l.first ≤ length l.leaves.items };
}

impl<'p, B: BestOf<A>, A: Allocator + Copy> Session<'p, B, A> {
    /// Returns the next `count` routes, at most 10000, or all that are left if they are fewer, and whether a route is
    /// left after them. The part of the last of these routes isn't divided: it is searched only until it is known
    /// whether a route is left. The parts aren't put in order.
    ///
    /// # Errors
    ///
    /// [`NoMemory`] if an allocation failed. The finder is dropped.
    pub fn last_page(self, count: u32) -> Result<LastPage<'p, B, A>, NoMemory>
        requires { count ≤ most_routes }
        ensures { IfOk result (IsLastPage self.entry count) }
    {
        let mut searcher = self.searcher;
        let mut tree = self.tree;
        let first = tree.leaves.len();
        let mut detours = Looks::many();
        let more = tree.give_last_page(&mut searcher, count, &mut detours)?;
        let looks = searcher.take_looks();
        Ok(LastPage {
            searcher,
            leaves: tree.leaves,
            first,
            more,
            looks,
            detour_looks: detours.taken(),
        })
    }
}

impl<A: Allocator + Copy> Tree<A> {
    /// Gives the next `count` routes, or all that are left if they are fewer, and returns whether a route is left after
    /// them. The tree is borrowed, so that contracts can speak of it before and after.
    fn give_last_page<B: BestOf<A>>(
        &mut self,
        searcher: &mut Searcher<'_, B, A>,
        count: u32,
        looks: &mut Looks,
    ) -> Result<bool, NoMemory>
        requires plan { IsPlan searcher.old.asked.plan.plan }
        requires few { detour_looks searcher.old.asked.request.max_hops ≤ looks.old.left }
        requires limits { IsRequest searcher.old.asked.request }
        requires count { count ≤ most_routes }
        requires sound { IsSound searcher.old.asked.plan.plan searcher.old.asked.request (shape_of self.old) }
        requires room { IsRoomy self.old }

        // The routes are those of the steps, and the answer is whether one is left after these.
        ensures routes { OnOk result (self.new.leaves.items ≡ self.old.leaves.items ++ records_for searcher.old.asked (steps_for searcher.old.asked count (shown (shape_of self.old))).0) }
        ensures more { IfOk result (λ more. more ≡ is_some (next_route searcher.old.asked.plan.plan searcher.old.asked.request (steps_for searcher.old.asked count (shown (shape_of self.old))).1)) }

        // It takes no more searches than the steps would. The question stays.
        ensures no_fewer { OnOk result (searcher.old.calls.count ≤ searcher.new.calls.count) }
        ensures at_most { OnOk result (searcher.new.calls.count ≤ searcher.old.calls.count + searches_in searcher.old.asked.plan.plan searcher.old.asked.request count (shown (shape_of self.old))) }
        ensures looks { OnOk result (looks.old.left ≤ looks.new.left + detour_looks searcher.old.asked.request.max_hops) }

        // If more is known for the last route by no search, there was a detour, or another part carries a route.
        ensures least { IfOk result (λ more. IsTrue more → 0 < count → searcher.new.calls.count ≡ searcher.old.calls.count + searches_in searcher.old.asked.plan.plan searcher.old.asked.request (count - 1) (shown (shape_of self.old)) → HasLooks (looks_taken looks.new) searcher.old.asked.plan.plan searcher.old.asked.request (steps_for searcher.old.asked (count - 1) (shown (shape_of self.old))).1) }
        ensures same { searcher.new.asked ≡ searcher.old.asked }
    {
        if count == 0 {
            return Ok(!self.is_empty());
        }
        self.give_page_up_to(searcher, count - 1)?;
        self.give_last(searcher, looks)
    }
}

impl<'p, B: BestOf<A>, A: Allocator + Copy> LastPage<'p, B, A> {
    /// The routes.
    pub fn routes(&self) -> &[Route<A>]
        ensures { result.now ≡ self.now.routes }
    {
        &self.leaves[self.first..]
    }

    /// Returns true if a route is left after them.
    pub fn more(&self) -> bool
        ensures { result ≡ self.now.more }
    {
        self.more
    }

    /// The looks that the page's searches took, each a use of a contact's record; `u64::MAX` if they are more.
    pub fn looks(&self) -> u64
        ensures { result ≡ self.now.looks }
    {
        self.looks
    }

    /// The looks that the page took besides those of its searches: uses of contacts' records that showed without a
    /// search that a route is left.
    pub fn detour_looks(&self) -> u64
        ensures { result ≡ self.now.detour_looks }
    {
        self.detour_looks
    }

    /// Starts a session over the same plan for another request, as [`start`](Session::start) does, with this one's
    /// index and finder.
    ///
    /// # Errors
    ///
    /// [`NoMemory`] if an allocation failed. The finder is dropped.
    pub fn start_again(self, request: Request) -> Result<Session<'p, B, A>, NoMemory>
        ensures { IfOk result (IsStarted self.entry.plan request self.entry.calls) }
    {
        let alloc = self.searcher.alloc();
        let (index, finder) = self.searcher.into_index_and_finder();
        Session::start_with_index(alloc, index, request, finder)
    }
}
