//! A session over a listing of routes: the next routes a page at a time, and back.

ghost use Rattle.std.specs.Prelude.{◌≡◌, ◌+◌, ◌^◌, ◌<◌, ◌≤◌, ◌⊎◌, ◌↔◌, ◌∷◌, [], map, length, is_some, None, Ok, IfOk, OnOk, OnErr, IsOk, IsTrue, IsFalse};
ghost use Rattle.sabr_model.specs.routes.Record.{record_of};
ghost use Rattle.sabr_frontier.specs.listing.Fresh.{GivesNewRoutes};
ghost use Rattle.sabr_frontier.specs.listing.Listing.{most_routes, next_route, state_at};
ghost use Rattle.sabr_frontier.specs.session.Session.{IsStarted, former_then, next_page, page_searches, seen_part};
ghost use Rattle.sabr_frontier.specs.tree.Searching.{GoOn, looks_since};
ghost use Rattle.sabr_frontier.specs.session.Views.{seen_left};

pub mod last_page;
pub mod paused;

use crate::giving::searcher::{PausedSearcher, Searcher};
use crate::parts::Parts;
use crate::tree::Tree;
use sabr_index::Index;
use sabr_model::{NoMemory, Plan, Request, Route};
use sabr_search::BestOf;
use std::alloc::{Allocator, Global};
use std::marker::Model;

/// The most routes of a page (this project's profile).
pub const MAX_ROUTES: u32 = 10000;

/// A listing of the routes of a plan for a request, as far as they were given. It keeps the parts that are left (Yen,
/// Lawler), each with its best route.
///
/// Contracts see the plan, the request, the state, and the states that `back` leads to, the latest first. They also see
/// how many searches were made, how many records these fetched, and the finder's calls.
#[derive(Drop)]
pub struct Session<'p, B: BestOf<A>, A: Allocator + Copy = Global> {
    /// What finds the parts' best routes.
    searcher: Searcher<'p, B, A>,
    /// The parts and the routes given.
    tree: Tree<A>,
    /// How long the journal was before each page that can be taken back.
    pages: Vec<usize, A>,
    /// The searches of the last call that counts them.
    searches: u64,
    /// The looks that the searches of the last page took.
    looks: u64,
}

impl<'p, B: BestOf<A>, A: Allocator + Copy> Model for Session<'p, B, A> {
    ghost use Rattle.sabr_frontier.specs.session.Session.{Seen, IsSession, seen};
    ghost use Rattle.sabr_frontier.specs.tree.Searching.{IsAtRest};

    ghost Value = { Seen };

    ghost view = { λ s. seen s.searcher s.tree s.pages.items s.searches s.looks };

    ghost invariant = { λ s. IsSession s.searcher.asked.plan s.searcher.asked.request s.tree s.pages.items × IsAtRest s.searcher };
}

impl<'p, B: BestOf<A>, A: Allocator + Copy> Session<'p, B, A> {
    /// Starts a session: no route was given yet. It makes the plan's index, and takes one search.
    ///
    /// # Errors
    ///
    /// [`NoMemory`] if an allocation failed. The finder is dropped.
    pub fn start(
        alloc: A,
        plan: &'p Plan<A>,
        request: Request,
        finder: B,
    ) -> Result<Session<'p, B, A>, NoMemory>
        ensures { IfOk result (IsStarted plan.now request (B.calls_of finder)) }
    {
        let index = Index::new(alloc, plan)?;
        Session::start_with_index(alloc, index, request, finder)
    }

    /// Starts a session as [`start`](Session::start) does, over an index that is there. It takes one search.
    ///
    /// # Errors
    ///
    /// [`NoMemory`] if an allocation failed. The index and the finder are dropped.
    pub fn start_with_index(
        alloc: A,
        index: Index<'p, A>,
        request: Request,
        finder: B,
    ) -> Result<Session<'p, B, A>, NoMemory>
        ensures { IfOk result (IsStarted index.entry request (B.calls_of finder)) }
    {
        index.plan().rules_hold();
        request.limits_hold();
        let mut searcher = PausedSearcher::new(alloc, request, finder).resume(index);
        let found = searcher.find_best(&[], &[], 0, None)?;
        let tree = Tree::root(alloc, found)?;
        searcher.take_looks();
        Ok(Session {
            searcher,
            tree,
            pages: Vec::new(alloc),
            searches: 1,
            looks: 0,
        })
    }

    /// Returns the next `count` routes, at most 10000, or all that are left if they are fewer. They come by key: by
    /// delivery, then by number of hops, then by contact numbers (this project's profile).
    ///
    /// A route takes a search for each of its hops after the prefix of the part that carried it. No part is copied. If
    /// no route is asked for, or none is left, nothing is allocated.
    ///
    /// # Errors
    ///
    /// [`NoMemory`] if an allocation failed. The session is as it was before, and the same call can be made again. The
    /// failed call made at most as many searches as the whole page.
    pub fn page(&mut self, count: u32) -> Result<Vec<Route<A>, A>, NoMemory>
        requires { count ≤ most_routes }

        // It gives the next routes of the list, and the state is the one after them. The former one can be had back.
        ensures routes { IfOk result (λ given. given.items ≡ map (record_of self.old.plan.plan self.old.request) (next_page self.old count).0) }
        ensures state { OnOk result (self.new.state ≡ (next_page self.old count).1) }
        ensures former { OnOk result (self.new.former ≡ former_then (next_page self.old count).0 self.old.state self.old.former) }

        // It took this number of searches.
        ensures searches { OnOk result (self.new.searches ≡ page_searches self.old count) }
        ensures calls { OnOk result (self.new.calls.count ≡ self.old.calls.count + page_searches self.old count) }

        // Their looks are those that the finder took for them, no more than that many calls take at most.
        ensures looks { OnOk result (self.new.looks ≡ looks_since self.old.calls self.new.calls) }
        ensures go_on { GoOn self.old.plan.plan self.old.calls self.new.calls }

        // The plan and the request stay, and no route comes twice.
        ensures plan { self.new.plan ≡ self.old.plan }
        ensures request { self.new.request ≡ self.old.request }
        ensures new_routes { GivesNewRoutes self.old.plan.plan self.old.request count self.old.state }

        // If an allocation failed, all but the calls is as before. A page without routes allocates nothing.
        ensures err { OnErr result (self.new ≡ record self.old { calls = self.new.calls }) }
        ensures at_most { OnErr result (self.new.calls.count ≤ self.old.calls.count + page_searches self.old count) }
        ensures free { (count ≡ 0) ⊎ (next_route self.old.plan.plan self.old.request self.old.state ≡ None) → IsOk result }
    {
        if count == 0 || self.tree.is_empty() {
            self.searches = 0;
            self.looks = 0;
            return Ok(Vec::new(self.searcher.alloc()));
        }
        self.pages.reserve(1)?;
        let start = self.tree.journal.len();
        match self.tree.give_page(&mut self.searcher, count) {
            Ok(page) => {
                self.tree.merge_new(self.searcher.alloc());
                self.pages.push_reserved(start);
                self.searches = page.searches;
                self.looks = self.searcher.take_looks();
                Ok(page.routes)
            }
            Err(refused) => {
                self.tree.undo_to(start);
                self.searcher.take_looks();
                Err(refused)
            }
        }
    }

    /// Takes back the last page that gave routes and wasn't taken back yet: the state is the one before it. Returns
    /// false, and changes nothing, if there is none. It allocates nothing, and passes over the parts for each route.
    pub fn back(&mut self) -> bool

        // The state before the last page is back.
        ensures yes { IsTrue result → self.new.state ∷ self.new.former ≡ self.old.former }
        ensures searches { IsTrue result → self.new.searches ≡ 0 }
        ensures looks { IsTrue result → self.new.looks ≡ 0 }

        // The plan, the request and the calls stay.
        ensures plan { self.new.plan ≡ self.old.plan }
        ensures request { self.new.request ≡ self.old.request }
        ensures calls { self.new.calls ≡ self.old.calls }

        // There was no page to take back, and all stays.
        ensures no { IsFalse result → self.new ≡ self.old }
        ensures none { IsFalse result → self.old.former ≡ [] }
    {
        let Some(start) = self.pages.pop() else {
            return false;
        };
        self.tree.undo_to(start);
        self.searches = 0;
        self.looks = 0;
        true
    }

    /// Returns true if the state is that of the place `emitted` in the listing: the routes that it counts as given are
    /// the first of them, and each part carries its best route. All is shown as before in any case. It takes a search
    /// for each part, and a pass over the routes given.
    ///
    /// # Errors
    ///
    /// [`NoMemory`] if an allocation failed.
    pub fn certify(&mut self) -> Result<bool, NoMemory>
        ensures same { self.new ≡ record self.old { calls = self.new.calls } }
        ensures calls { self.new.calls.count ≤ self.old.calls.count + length self.old.state.parts }
        ensures go_on { GoOn self.old.plan.plan self.old.calls self.new.calls }
        ensures ok { IfOk result (λ yes. IsTrue yes ↔ (self.old.state ≡ state_at self.old.plan.plan self.old.request self.old.state.emitted)) }
    {
        let placed = self.tree.is_placed(&mut self.searcher);
        self.searcher.take_looks();
        placed
    }

    /// Returns true if there is a page to take back: one that gave routes and wasn't taken back yet.
    pub fn can_back(&self) -> bool
        ensures { IsTrue result ↔ (0 < length self.now.former) }
    {
        !self.pages.is_empty()
    }

    /// How many routes were given and not taken back.
    pub fn emitted(&self) -> u128
        ensures count { result ≡ self.now.state.emitted }
        ensures bound { result < 2 ^ 64 }
    {
        self.tree.leaves.len() as u128
    }

    /// Returns true if routes are left: some part carries one.
    pub fn more(&self) -> bool
        ensures { result ≡ is_some (next_route self.now.plan.plan self.now.request self.now.state) }
    {
        !self.tree.is_empty()
    }

    /// The contact numbers of the last route given, empty if none was.
    pub fn last(&self) -> &[u32]
        ensures { result.now ≡ self.now.state.last }
    {
        let Some(last) = self.tree.last else {
            return &[];
        };
        match self.tree.leaves.get(last) {
            Some(leaf) => leaf.contacts.as_slice(),
            None => &[],
        }
    }

    /// How many parts there are, those without a route among them.
    pub fn part_count(&self) -> usize
        ensures { result ≡ length self.now.state.parts }
    {
        self.tree.index.len()
    }

    /// The parts in order of prefix, all borrowed. Those without a route are among them. It takes a step for each, and
    /// allocates nothing.
    pub fn parts(&self) -> Parts<'_, A>
        ensures { seen_left result ≡ map (seen_part self.now.plan.plan self.now.request) self.now.state.parts }
    {
        Parts {
            index: self.tree.index.as_slice(),
            nodes: self.tree.nodes.as_slice(),
            leaves: self.tree.leaves.as_slice(),
        }
    }

    /// The searches, each a call of the finder, of the last call of `start` or `page` that succeeded; 0 after a `back`
    /// that was true.
    pub fn searches(&self) -> u64
        ensures { result ≡ self.now.searches }
    {
        self.searches
    }

    /// The looks that the searches of the last page took, each a use of a contact's record: 0 if there was none yet, or
    /// after a `back` that was true, and `u64::MAX` if they are more. A page that failed doesn't count.
    pub fn looks(&self) -> u64
        ensures { result ≡ self.now.looks }
    {
        self.looks
    }

    /// The plan whose routes are listed.
    pub fn plan(&self) -> &'p Plan<A>
        ensures { result.now ≡ self.now.plan }
    {
        self.searcher.plan()
    }

    /// The request.
    pub fn request(&self) -> &Request
        ensures { result.now ≡ self.now.request }
    {
        self.searcher.request()
    }
}
