//! A session text that is read in chunks, or from a reader.

ghost use Rattle.std.specs.Prelude.{◌≡◌, ◌+◌, ◌<◌, ◌≤◌, length, Ok, MatchResult, IfOk, IfErr, OnOk};
ghost use Rattle.sabr_model.specs.routes.Asking.{IsRequest};
ghost use Rattle.sabr_plan.specs.Canonical.{digest_of};
ghost use Rattle.sabr_frontier.specs.listing.Listing.{IsState};
ghost use Rattle.sabr_frontier.specs.session.Paused.{IsPausedOver, state_of};
ghost use Rattle.sabr_session.specs.PausedTexts.{IsFinishedPaused, shown_over};
ghost use Rattle.sabr_session.specs.SessionRead.{most_bytes};
ghost use Rattle.sabr_session.specs.SessionFed.{IsFed, IsFinished, opened_over, weight_of, weight_bound};
ghost use Rattle.sabr_session.specs.SessionGiven.{ReadsSession};
ghost use Rattle.sabr_session.specs.declared.session_fault.SessionFault.TheVariants as fault;

use crate::reading::line_reader::LineReader;
use crate::session_fault::SessionFault;
use sabr_frontier::{PausedSession, Session};
use sabr_index::Index;
use sabr_model::{Failed, Plan, Read};
use sabr_search::BestOf;
use std::alloc::{Allocator, Global};
use std::marker::Model;

/// The size of the buffer that the reader fills, in bytes. Not varied in measurements.
const PIECE_BYTES: usize = 4096;

/// A session text over a plan that is read in chunks of any length. It holds one line at a time.
///
/// Contracts see the bytes that were fed, or their fault.
#[derive(Drop)]
pub struct SessionFeed<'p, B: BestOf<A>, A: Allocator + Copy = Global> {
    text: Result<LineReader<'p, B, A>, SessionFault>,
}

impl<'p, B: BestOf<A>, A: Allocator + Copy> Model for SessionFeed<'p, B, A> {
    ghost use Rattle.std.specs.Prelude.{Result};
    ghost use Rattle.sabr_session.specs.SessionFed.{OpenText};
    ghost use Rattle.sabr_session.specs.declared.session_fault.SessionFault.{SessionFault};

    ghost Value = { Result OpenText SessionFault };

    ghost view = { λ f. f.text };
}

impl<'p, B: BestOf<A>, A: Allocator + Copy> SessionFeed<'p, B, A> {
    /// Returns a feed before its first chunk. The digest is that of the plan. It doesn't allocate.
    pub fn new(alloc: A, plan: &'p Plan<A>, digest: &[u8; 32], finder: B) -> SessionFeed<'p, B, A>
        requires { digest.now ≡ digest_of plan.now.plan }
        ensures { result ≡ Ok (opened_over plan.now (B.calls_of finder)) }
    {
        SessionFeed {
            text: Ok(LineReader::new(alloc, plan, digest, finder)),
        }
    }

    /// Reads the next chunk of the text, of any length.
    ///
    /// A part's line costs what [`Loader::add_part`](sabr_frontier::Loader::add_part) does, and the time of each other
    /// line grows with its length.
    ///
    /// # Errors
    ///
    /// The first fault in the lines so far: [`SessionFault::BadHeader`], [`BadLine`](SessionFault::BadLine),
    /// [`OtherPlan`](SessionFault::OtherPlan), [`BadRequest`](SessionFault::BadRequest) or
    /// [`BadRoute`](SessionFault::BadRoute). The fault of a line is found at its LF, at its byte 660009 or, after
    /// `end`, at its first byte. [`NoMemory`](SessionFault::NoMemory) if an allocation failed. Each later call returns
    /// the same error. The finder and what was read are dropped.
    pub fn feed(&mut self, piece: &[u8]) -> Result<(), SessionFault>
        ensures fed { IsFed self.old piece.now result self.new }
        ensures grows { OnOk result (weight_of self.old + length piece.now ≤ weight_of self.new) }
        ensures bound { OnOk result (weight_of self.new < weight_bound) }
    {
        let fault = match &mut self.text {
            Ok(text) => match text.take_in(piece) {
                Ok(()) => return Ok(()),
                Err(fault) => fault,
            },
            Err(fault) => *fault,
        };
        self.text = Err(fault);
        Err(fault)
    }

    /// Ends the text, and makes its session. It runs no search, and no page of the session can be undone.
    ///
    /// # Errors
    ///
    /// The error of an earlier [`feed`](SessionFeed::feed), if there was one. Otherwise the first that applies:
    /// [`SessionFault::BadHeader`] or [`BadLine`](SessionFault::BadLine) if a line is missing or unfinished,
    /// [`NotClosed`](SessionFault::NotClosed) if the parts aren't closed, [`BadCount`](SessionFault::BadCount) if the
    /// count or the last route is wrong. [`NoMemory`](SessionFault::NoMemory) if an allocation failed. The finder is
    /// dropped.
    pub fn finish(self) -> Result<Session<'p, B, A>, SessionFault>
        ensures finished { IsFinished self.entry result }
        ensures calls { IfOk self.entry (λ t. IfOk result (λ s. s.calls ≡ t.calls)) }
        ensures formed { IfOk result (λ s. IsState s.plan.plan s.request s.state) }
        ensures accepted { IfOk result (λ s. IsRequest s.request) }
    {
        let text = self.text?;
        let (alloc, plan) = text.base();
        let paused = text.finish()?;
        let index = Index::new(alloc, plan)?;
        let session = paused.resume(index);
        session.request().limits_hold();
        Ok(session)
    }

    /// Ends the text as [`finish`](SessionFeed::finish) does, but pauses its session: no index of the plan is made.
    fn finish_paused(self) -> Result<PausedSession<B, A>, SessionFault>
        ensures { IsFinishedPaused B.calls_of self.entry result }
    {
        self.text?.finish()
    }

    /// The number of bytes held of the incomplete line.
    pub fn held(&self) -> usize
        ensures value { MatchResult self.now (λ t. result ≡ length t.fed.held) (λ _. result ≡ 0) }
        ensures limit { result ≤ most_bytes }
    {
        match &self.text {
            Ok(text) => text.held(),
            Err(_) => 0,
        }
    }
}

/// Reads the session of a text over a plan, to the end of the text or to its first fault.
///
/// The digest is that of the plan. It runs no search, so the routes of the text need not be the best: a text that was
/// changed may leave routes out. For any text the state is well formed, and later pages list only routes that the text
/// doesn't count as emitted. After a fault, more of the reader's bytes may have been read.
///
/// # Errors
///
/// The errors of [`SessionFeed::feed`], as soon as the bytes that show them were read. [`SessionFault::Read`] if the
/// reader failed after bytes without a fault. At the end of the text, those of [`SessionFeed::finish`]. The finder is
/// dropped.
pub fn read_session<'p, R: Read, B: BestOf<A>, A: Allocator + Copy>(
    alloc: A,
    reader: &mut R,
    plan: &'p Plan<A>,
    digest: &[u8; 32],
    finder: B,
) -> Result<Session<'p, B, A>, SessionFault>
    requires { digest.now ≡ digest_of plan.now.plan }
    ensures read { ReadsSession plan.now (R.input reader.old) result (R.input reader.new) }
    ensures failed { IfErr result (λ f. f ≡ fault.Read → (R.input reader.new).failures ≡ (R.input reader.old).failures + 1) }
    ensures calls { IfOk result (λ s. s.calls ≡ B.calls_of finder) }
    ensures formed { IfOk result (λ s. IsState s.plan.plan s.request s.state) }
    ensures accepted { IfOk result (λ s. IsRequest s.request) }
{
    let paused = read_paused(alloc, reader, plan, digest, finder)?;
    let index = Index::new(alloc, plan)?;
    let session = paused.resume(index);
    session.request().limits_hold();
    Ok(session)
}

/// Reads the session of a text as [`read_session`] does, but pauses it: no index of the plan is made.
/// [`PausedSession::resume`] takes one that the caller has.
///
/// # Errors
///
/// Those of [`read_session`].
pub fn read_paused<R: Read, B: BestOf<A>, A: Allocator + Copy>(
    alloc: A,
    reader: &mut R,
    plan: &Plan<A>,
    digest: &[u8; 32],
    finder: B,
) -> Result<PausedSession<B, A>, SessionFault>
    requires { digest.now ≡ digest_of plan.now.plan }
    ensures read { ReadsSession plan.now (R.input reader.old) (shown_over B.calls_of plan.now result) (R.input reader.new) }
    ensures failed { IfErr result (λ f. f ≡ fault.Read → (R.input reader.new).failures ≡ (R.input reader.old).failures + 1) }
    ensures paused { IfOk result (IsPausedOver plan.now) }
    ensures calls { IfOk result (λ s. B.calls_of s.searcher.finder ≡ B.calls_of finder) }
    ensures formed { IfOk result (λ s. IsState plan.now.plan s.searcher.request (state_of s)) }
{
    let mut buffer = [0u8; PIECE_BYTES];
    let mut feed = SessionFeed::new(alloc, plan, digest, finder);
    loop {
        match reader.read(&mut buffer) {
            Ok(0) => return feed.finish_paused(),
            Ok(count) => feed.feed(&buffer[..count])?,
            Err(Failed) => return Err(SessionFault::Read),
        }
    }
}
