//! Loads a state, part by part, into a session.

mod carrying;
mod check;
mod ghost_parts;
pub mod load_fault;
mod partial_tree;
mod path_end;

ghost use Rattle.std.specs.Prelude.{◌≡◌, [], Some, None, Err, IfOk, IfErr, OnOk, OnErr, IsOkUnless};
ghost use Rattle.std.specs.Option.{option_copied};
ghost use Rattle.sabr_frontier.specs.declared.loader.load_fault.LoadFault.{LoadFault};
ghost use Rattle.sabr_frontier.specs.declared.loader.load_fault.LoadFault.TheVariants as load;
ghost use Rattle.sabr_frontier.specs.listing.Listing.{IsState};
ghost use Rattle.sabr_frontier.specs.loading.Loading.{IsRefusedBy, refusal_by, session_with, state_with, with_part};
ghost use Rattle.sabr_frontier.specs.listing.State.{part_with};
ghost use Rattle.sabr_frontier.specs.session.Paused.{IsPausedOver, seen_over};

use crate::loader::carrying::carried;
use crate::loader::ghost_parts::GhostParts;
use crate::loader::load_fault::LoadFault;
use crate::loader::partial_tree::{PartialTree, last_place};
use crate::plan_request::PlanRequest;
use crate::session::Session;
use crate::session::paused::PausedSession;
use sabr_index::Index;
use sabr_model::{Plan, Request};
use sabr_search::BestOf;
use std::alloc::{Allocator, Global};
use std::marker::Model;

/// The parts of a state that will become a session. It runs no search: a carried route is checked to be a route of its
/// part, but not to be its best. Contracts see the plan, the request, the parts so far, and the finder's calls.
#[derive(Drop)]
pub struct Loader<'p, B: BestOf<A>, A: Allocator + Copy = Global> {
    /// What the session will be asked for.
    question: PlanRequest<'p, A>,
    /// The finder that the session will ask.
    finder: B,
    /// The parts so far.
    parts: GhostParts,
    /// What is kept of them.
    partial: PartialTree<A>,
}

impl<'p, B: BestOf<A>, A: Allocator + Copy> Model for Loader<'p, B, A> {
    ghost use Rattle.sabr_frontier.specs.loading.Loading.{Loaded};
    ghost use Rattle.sabr_frontier.specs.loading.Partial.{IsLoader, loaded};

    ghost Value = { Loaded };

    ghost view = { λ l. loaded l.question.plan.now l.question.request l.parts.items (B.calls_of l.finder) };

    ghost invariant = { λ l. IsLoader l.question.plan.now l.question.request l.parts.items l.partial };
}

impl<'p, B: BestOf<A>, A: Allocator + Copy> Loader<'p, B, A> {
    /// Makes a loader without a part. It allocates nothing.
    pub fn new(alloc: A, plan: &'p Plan<A>, request: Request, finder: B) -> Loader<'p, B, A>
        ensures { result ≡ record { plan = plan.now; request = request; parts = []; calls = B.calls_of finder } }
    {
        plan.rules_hold();
        request.limits_hold();
        let question = PlanRequest {
            alloc,
            plan,
            request,
        };
        Loader {
            question,
            finder,
            parts: GhostParts::new(),
            partial: PartialTree::new(alloc),
        }
    }

    /// Adds a part after the others: its prefix, the numbers that it excludes, and the route that it carries, if any.
    ///
    /// Where the prefix leads is known from the part that made it. The carried route is followed from there, and so is
    /// each excluded number, whose receiver is looked for in the prefix. So each takes a time that grows with its hops.
    ///
    /// # Errors
    ///
    /// [`LoadFault::BadOrder`] if the excluded numbers don't rise strictly, or the prefix isn't greater than the one
    /// before, by its numbers from the front. Else [`LoadFault::BadRoute`] if the carried list is no route that begins
    /// with the prefix, is longer, and takes none of the excluded numbers next. Else [`LoadFault::NoMemory`] if an
    /// allocation failed. The loader is then as it was.
    pub fn add_part(
        &mut self,
        prefix: &[u32],
        excluded: &[u32],
        route: Option<&[u32]>,
    ) -> Result<(), LoadFault>

        // It is refused for the first reason that holds, and else is added, or an allocation failed.
        ensures refused { (f : LoadFault) → refusal_by self.old (part_with prefix.now excluded.now (option_copied route.entry)) ≡ Some f → result ≡ Err f }
        ensures accepted { refusal_by self.old (part_with prefix.now excluded.now (option_copied route.entry)) ≡ None → IsOkUnless result load.NoMemory }

        // It stands after the others. If it was refused, all is as before.
        ensures ok { OnOk result (self.new ≡ with_part self.old (part_with prefix.now excluded.now (option_copied route.entry))) }
        ensures err { OnErr result (self.new ≡ self.old) }
    {
        if !self.partial.is_next(prefix, excluded) {
            return Err(LoadFault::BadOrder);
        }
        let end = self.partial.expected_end(&self.question, prefix);
        let record = carried(&self.question, prefix, excluded, end, route)?;
        self.partial
            .take_in(&self.question, prefix, excluded, end, record)?;
        self.parts.push(prefix, excluded, route);
        Ok(())
    }

    /// Returns the session of the parts after `emitted` routes were given. `last` is the last of them, empty if there
    /// is none. No page can be taken back, and no search was counted. The plan's index is made after all checks.
    ///
    /// # Errors
    ///
    /// [`LoadFault::NotClosed`] if the parts aren't closed. Else [`LoadFault::BadCount`] if `emitted` isn't the number
    /// of their leaves, or `last` isn't one of them, or isn't empty if there is none. Else [`LoadFault::NoMemory`] if
    /// an allocation failed. The loader is dropped with its finder.
    pub fn finish(self, emitted: u128, last: &[u32]) -> Result<Session<'p, B, A>, LoadFault>
        ensures ok { IfOk result (λ s. s ≡ session_with self.entry emitted last.now) }
        ensures formed { OnOk result (IsState self.entry.plan.plan self.entry.request (state_with self.entry.parts emitted last.now)) }
        ensures err { IfErr result (IsRefusedBy self.entry.plan.plan self.entry.request (state_with self.entry.parts emitted last.now)) }
    {
        let alloc = self.question.alloc();
        let plan = self.question.plan;
        let paused = self.finish_paused(emitted, last)?;
        let index = Index::new(alloc, plan)?;
        Ok(paused.resume(index))
    }

    /// Returns the session of the parts as [`finish`](Loader::finish) does, but paused: no index of the plan is made.
    /// [`PausedSession::resume`] takes one that the caller has.
    ///
    /// # Errors
    ///
    /// Those of [`finish`](Loader::finish).
    pub fn finish_paused(
        self,
        emitted: u128,
        last: &[u32],
    ) -> Result<PausedSession<B, A>, LoadFault>
        ensures ok { IfOk result (λ s. seen_over B.calls_of self.entry.plan s ≡ session_with self.entry emitted last.now) }
        ensures paused { IfOk result (IsPausedOver self.entry.plan) }
        ensures formed { OnOk result (IsState self.entry.plan.plan self.entry.request (state_with self.entry.parts emitted last.now)) }
        ensures err { IfErr result (IsRefusedBy self.entry.plan.plan self.entry.request (state_with self.entry.parts emitted last.now)) }
    {
        if !self.partial.is_complete() {
            return Err(LoadFault::NotClosed);
        }
        let Some(last) = last_place(self.partial.leaves.as_slice(), emitted, last) else {
            return Err(LoadFault::BadCount);
        };
        let tree = self.partial.into_tree(self.question.alloc(), last)?;
        Ok(PausedSession::of_tree(self.question, self.finder, tree))
    }
}
