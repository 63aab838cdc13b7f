//! A session without the index that borrows its plan.

ghost use Rattle.std.specs.Prelude.{◌≡◌, ◌^◌, ◌<◌, ◌↔◌, IsTrue, [], length};
ghost use Rattle.sabr_model.specs.plan.Plan.{IsPlan, TabledPlan};
ghost use Rattle.sabr_model.specs.routes.Asking.{IsRequest};
ghost use Rattle.sabr_frontier.specs.session.Paused.{IsPausedOver, former_states, has_more_over, seen_over, state_of};
ghost use Rattle.sabr_frontier.specs.session.Session.{session_over};
ghost use Rattle.sabr_frontier.specs.tree.Shape.{shape_of, shown};
ghost use Rattle.sabr_frontier.specs.tree.Sound.{IsTree};
ghost use Rattle.sabr_frontier.specs.tree.Undo.{IsRoomy};

use crate::giving::searcher::PausedSearcher;
use crate::plan_request::PlanRequest;
use crate::session::Session;
use crate::tree::Tree;
use sabr_index::Index;
use sabr_search::BestOf;
use std::alloc::{Allocator, Global};

/// A paused session: a [`Session`] without the index of its plan. So it borrows no plan, and an owner of the plan can
/// keep it. It has the parts that are left, the routes given, the pages that can be taken back, the finder, and the
/// cache of its searches: a session that was paused goes on at the cost of one that wasn't.
#[derive(Drop)]
pub struct PausedSession<B: BestOf<A>, A: Allocator + Copy = Global> {
    /// What finds the parts' best routes.
    searcher: PausedSearcher<B, A>,
    /// The parts and the routes given.
    tree: Tree<A>,
    /// How long the journal was before each page that can be taken back.
    pages: Vec<usize, A>,
    /// The searches of the last call that counts them.
    searches: u64,
    /// The looks that the searches of the last page took.
    looks: u64,
}

impl<'p, B: BestOf<A>, A: Allocator + Copy> Session<'p, B, A> {
    /// Pauses the session: returns it without its plan's index, which is dropped. Its cost is constant if the owner of
    /// the plan lent the links.
    pub fn pause(self) -> PausedSession<B, A>

        // Over the plan it shows what it showed, and it can go on.
        ensures seen { seen_over B.calls_of self.entry.plan result ≡ self.entry }
        ensures paused { IsPausedOver self.entry.plan result }
    {
        PausedSession {
            searcher: self.searcher.pause(),
            tree: self.tree,
            pages: self.pages,
            searches: self.searches,
            looks: self.looks,
        }
    }
}

impl<B: BestOf<A>, A: Allocator + Copy> PausedSession<B, A> {
    /// Makes a paused session over a tree that no page has changed.
    pub(crate) fn of_tree(
        question: PlanRequest<'_, A>,
        finder: B,
        tree: Tree<A>,
    ) -> PausedSession<B, A>
        requires rules { IsPlan question.plan.now.plan }
        requires limits { IsRequest question.request }
        requires sound { IsTree question.plan.now.plan question.request (shape_of tree) }
        requires fresh { tree.journal.items ≡ [] }
        requires index { tree.index.items ≡ (shape_of tree).index }
        requires room { IsRoomy tree }

        // Nothing can be taken back, and no search was counted.
        ensures seen { seen_over B.calls_of question.entry.plan.now result ≡ session_over question.entry.plan.now question.entry.request (shown (shape_of tree)) (B.calls_of finder) }
        ensures paused { IsPausedOver question.entry.plan.now result }
    {
        let alloc = question.alloc();
        PausedSession {
            searcher: PausedSearcher::new(alloc, question.request, finder),
            tree,
            pages: Vec::new(alloc),
            searches: 0,
            looks: 0,
        }
    }

    /// Goes on with the session over an index of the plan that it was paused over: all is shown as before. Its cost is
    /// constant.
    pub fn resume<'p>(self, index: Index<'p, A>) -> Session<'p, B, A>
        requires { IsPausedOver index self }
        ensures { result ≡ seen_over B.calls_of index.entry self }
    {
        Session {
            searcher: self.searcher.resume(index),
            tree: self.tree,
            pages: self.pages,
            searches: self.searches,
            looks: self.looks,
        }
    }

    /// How many routes were given and not taken back.
    pub fn emitted(&self) -> u128
        ensures count { result ≡ (state_of self.now).emitted }
        ensures bound { result < 2 ^ 64 }
    {
        self.tree.leaves.len() as u128
    }

    /// Returns true if routes are left: some part carries one. The session was paused over a plan.
    pub fn more(&self) -> bool
        requires { (p : TabledPlan) × IsPausedOver p self.now }
        ensures { (p : TabledPlan) → IsPausedOver p self.now → result ≡ has_more_over p self.now }
    {
        !self.tree.is_empty()
    }

    /// Returns true if there is a page to take back: one that gave routes and wasn't taken back yet.
    pub fn can_back(&self) -> bool
        ensures { IsTrue result ↔ (0 < length (former_states self.now)) }
    {
        !self.pages.is_empty()
    }
}
