//! The session that was made last over a plan, and the steps that make one.

use crate::answers::{done, no_memory, refused, routes_and_more, yes_or_no};
use crate::harness::Harness;
use crate::loading::{fed, loaded};
use crate::sessions::session_step;
use crate::words::{Words, small_number};
use sabr_frontier::{LastPage, Loader, MAX_ROUTES, Session};
use sabr_model::Plan;
use sabr_plan::digest;
use sabr_search::{BestOf, Layered, Settled};
use sabr_session::{SessionFeed, read_session, verify};
use std::alloc::Allocator;

/// The session that was made last over a plan.
#[derive(Drop)]
pub struct HeldSession<'p, B: NewFinder<A>, A: Allocator + Copy> {
    alloc: A,
    plan: &'p Plan<A>,
    session: Option<Session<'p, B, A>>,
}

impl<'p, B: NewFinder<A>, A: Allocator + Copy> HeldSession<'p, B, A> {
    /// Begins without a session.
    pub fn new(alloc: A, plan: &'p Plan<A>) -> HeldSession<'p, B, A> {
        HeldSession {
            alloc,
            plan,
            session: None,
        }
    }

    /// The plan.
    pub fn plan(&self) -> &'p Plan<A> {
        self.plan
    }

    /// The allocator.
    pub fn alloc(&self) -> A {
        self.alloc
    }

    /// Does a step of the session.
    pub fn step(
        &mut self,
        harness: &mut Harness<'_>,
        name: &str,
        words: &mut Words<'_>,
    ) -> Option<String> {
        session_step(self.session.as_mut()?, harness, name, words)
    }

    /// The last page of the session, at most 10000 routes, and whether there are more. The session is gone then.
    pub fn last(&mut self, harness: &Harness<'_>, words: &mut Words<'_>) -> Option<String> {
        match self.last_page(words)? {
            Some(last) => routes_and_more(harness.alloc, last.routes(), last.more()),
            None => no_memory(harness.alloc),
        }
    }

    /// The looks of the searches of the session's last page. The session is gone then.
    pub fn last_looks(&mut self, harness: &Harness<'_>, words: &mut Words<'_>) -> Option<String> {
        match self.last_page(words)? {
            Some(last) => format!(in harness.alloc; "{}", last.looks()).ok(),
            None => no_memory(harness.alloc),
        }
    }

    /// The looks of the session's last page besides those of its searches. The session is gone then.
    pub fn last_detours(&mut self, harness: &Harness<'_>, words: &mut Words<'_>) -> Option<String> {
        match self.last_page(words)? {
            Some(last) => format!(in harness.alloc; "{}", last.detour_looks()).ok(),
            None => no_memory(harness.alloc),
        }
    }

    /// The last page of the session, at most 10000 routes. It is `Some(None)` if an allocation failed, and `None`
    /// without a session or a number.
    fn last_page(&mut self, words: &mut Words<'_>) -> Option<Option<LastPage<'p, B, A>>> {
        let count = small_number(words)?.min(MAX_ROUTES);
        Some(self.session.take()?.last_page(count).ok())
    }

    /// Holds a session in place of the one before.
    fn hold(&mut self, session: Session<'p, B, A>, harness: &Harness<'_>) -> Option<String> {
        self.session = Some(session);
        done(harness.alloc)
    }

    /// Starts a session.
    pub fn start(&mut self, harness: &Harness<'_>) -> Option<String> {
        let request = harness.asked.request().ok()?;
        match Session::start(self.alloc, self.plan, request, B::new_finder(self.alloc)) {
            Ok(started) => self.hold(started, harness),
            Err(_) => no_memory(harness.alloc),
        }
    }

    /// Reads a session from its text.
    pub fn read(&mut self, harness: &Harness<'_>) -> Option<String> {
        let mut reader = harness.session.reader();
        let digest = digest(self.plan);
        let finder = B::new_finder(self.alloc);
        match read_session(self.alloc, &mut reader, self.plan, &digest, finder) {
            Ok(session) => self.hold(session, harness),
            Err(fault) => refused(harness.alloc, fault),
        }
    }

    /// Loads a session part by part, by the steps up to `finish`.
    pub fn load(&mut self, harness: &mut Harness<'_>) -> Option<String> {
        let request = harness.asked.request().ok()?;
        let loader = Loader::new(self.alloc, self.plan, request, B::new_finder(self.alloc));
        match loaded(loader, harness)? {
            Ok(loaded) => self.hold(loaded, harness),
            Err(fault) => refused(harness.alloc, fault),
        }
    }

    /// Feeds a session's text, by the steps up to `finish`.
    pub fn feed(&mut self, harness: &mut Harness<'_>) -> Option<String> {
        let digest = digest(self.plan);
        let finder = B::new_finder(self.alloc);
        let feed = SessionFeed::new(self.alloc, self.plan, &digest, finder);
        match fed(feed, harness)? {
            Ok(session) => self.hold(session, harness),
            Err(fault) => refused(harness.alloc, fault),
        }
    }

    /// Verifies a session's text.
    pub fn verify(&self, harness: &Harness<'_>) -> Option<String> {
        let mut reader = harness.session.reader();
        let digest = digest(self.plan);
        let finder = B::new_finder(self.alloc);
        match verify(self.alloc, &mut reader, self.plan, &digest, finder) {
            Ok(yes) => yes_or_no(harness.alloc, yes),
            Err(fault) => refused(harness.alloc, fault),
        }
    }
}

/// A finder that is created without arguments.
pub trait NewFinder<A: Allocator + Copy>: BestOf<A> {
    /// Creates a finder that was never asked.
    fn new_finder(alloc: A) -> Self;
}

impl<A: Allocator + Copy> NewFinder<A> for Settled<A> {
    fn new_finder(alloc: A) -> Settled<A> {
        Settled::new(alloc)
    }
}

impl<A: Allocator + Copy> NewFinder<A> for Layered<A> {
    fn new_finder(alloc: A) -> Layered<A> {
        Layered::new(alloc)
    }
}
