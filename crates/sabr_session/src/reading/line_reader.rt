//! A session text without a fault so far.

ghost use Rattle.std.specs.Prelude.{◌≡◌, ◌+◌, ◌<◌, ◌≤◌, [], ◌++◌, length, true, false, IsTrue, IfOk, IfErr, OnOk, OnErr};
ghost use Rattle.sabr_plan.specs.Canonical.{digest_of};
ghost use Rattle.sabr_plan.specs.Words.{is_one_line};
ghost use Rattle.sabr_frontier.specs.listing.Listing.{IsState};
ghost use Rattle.sabr_frontier.specs.session.Paused.{IsPausedOver, state_of};
ghost use Rattle.sabr_session.specs.PausedTexts.{shown_over};
ghost use Rattle.sabr_session.specs.SessionRead.{misspelled, most_bytes, read_line};
ghost use Rattle.sabr_session.specs.SessionFed.{GoesOn, IsRefusedFront, IsRefusedPiece, IsSessionFrom, is_bad_front, opened_over, outcome_of, weight, weight_bound, Leaves};

use crate::reading::session_lines::SessionLines;
use crate::session_fault::SessionFault;
use sabr_frontier::PausedSession;
use sabr_model::{NoMemory, Plan};
use sabr_plan::ended_line;
use sabr_search::BestOf;
use std::alloc::Allocator;
use std::marker::Model;

/// The largest number of bytes of a line without its LF.
const MAX_BYTES: usize = 660008;

/// The lines that LF has ended, and the line after them.
#[derive(Drop)]
pub(crate) struct LineReader<'p, B: BestOf<A>, A: Allocator + Copy> {
    digest: [u8; 32],
    lines: SessionLines<'p, B, A>,
    /// The bytes after the last LF, at most [`MAX_BYTES`].
    held: Vec<u8, A>,
}

impl<'p, B: BestOf<A>, A: Allocator + Copy> Model for LineReader<'p, B, A> {
    ghost use Rattle.std.specs.Prelude.{◌≡◌, ◌+◌, ◌≤◌, ◌&&◌, false, length, IsTrue};
    ghost use Rattle.sabr_plan.specs.Canonical.{digest_of};
    ghost use Rattle.sabr_plan.specs.Words.{has_bytes, is_one_line};
    ghost use Rattle.sabr_session.specs.SessionRead.{is_after, most_bytes};
    ghost use Rattle.sabr_session.specs.SessionFed.{OpenText};

    ghost Value = { OpenText };

    ghost view = { λ t. record { plan = t.lines.plan; calls = t.lines.calls; fed = record { lines = t.lines.fed.lines; said = t.lines.fed.said; held = t.held.items } } };

    ghost invariant = { λ t. (t.digest ≡ digest_of t.lines.plan.plan) × ((is_after (t.lines.fed.lines + 1) t.lines.fed.said && has_bytes t.held.items) ≡ false) × IsTrue (is_one_line t.held.items) × (length t.held.items ≤ most_bytes) };
}

/// Returns the fault of a malformed line of this number.
fn misspelled(number: u128) -> SessionFault
    ensures { result ≡ misspelled number }
{
    if number == 1 {
        SessionFault::BadHeader
    } else {
        SessionFault::BadLine(number)
    }
}

/// Appends bytes to a line. If that fails, the line stays as it was.
fn append<A: Allocator + Copy>(line: &mut Vec<u8, A>, bytes: &[u8]) -> Result<(), NoMemory>
    ensures ok { OnOk result (line.new.items ≡ line.old.items ++ bytes.now) }
    ensures err { OnErr result (line.new.items ≡ line.old.items) }
{
    line.extend_from_slice(bytes)?;
    Ok(())
}

impl<'p, B: BestOf<A>, A: Allocator + Copy> LineReader<'p, B, A> {
    /// Returns an empty text. It doesn't allocate.
    pub(crate) fn new(
        alloc: A,
        plan: &'p Plan<A>,
        digest: &[u8; 32],
        finder: B,
    ) -> LineReader<'p, B, A>
        requires { digest.now ≡ digest_of plan.now.plan }
        ensures { result ≡ opened_over plan.now (B.calls_of finder) }
    {
        LineReader {
            digest: *digest,
            lines: SessionLines::new(alloc, plan, finder),
            held: Vec::new(alloc),
        }
    }

    /// The number of bytes after the last LF.
    pub(crate) fn held(&self) -> usize
        ensures value { result ≡ length self.now.fed.held }
        ensures limit { result ≤ most_bytes }
    {
        self.held.len()
    }

    /// Reads the next chunk of the text.
    pub(crate) fn take_in(&mut self, piece: &[u8]) -> Result<(), SessionFault>
        ensures ok { OnOk result (GoesOn self.old piece.now self.new) }
        ensures err { IfErr result (IsRefusedPiece self.old piece.now) }
        ensures grows { OnOk result (weight self.old + length piece.now ≤ weight self.new) }
        ensures bound { OnOk result (weight self.new < weight_bound) }
    {
        let mut rest = piece;
        while let Some((line, after)) = ended_line(rest) {
            self.end_line(line)?;
            rest = after;
        }
        self.hold(rest)
    }

    /// Reads the line that ends in these bytes.
    fn end_line(&mut self, back: &[u8]) -> Result<(), SessionFault>
        requires { IsTrue (is_one_line back.now) }

        // The line is read, or its fault is returned.
        ensures value { Leaves (read_line self.old.plan.plan (digest_of self.old.plan.plan) (self.old.fed.lines + 1) self.old.fed.said (self.old.fed.held ++ back.now)) result self.new.fed.said }
        ensures rest { OnOk result ((self.new.fed.lines ≡ self.old.fed.lines + 1) × (self.new.fed.held ≡ [])) }
        ensures fits { OnOk result (length self.old.fed.held + length back.now ≤ most_bytes) }
        ensures held { IsTrue (is_one_line self.old.fed.held) }

        // The plan and the calls are the same.
        ensures plan { self.new.plan ≡ self.old.plan }
        ensures calls { self.new.calls ≡ self.old.calls }
    {
        let number = self.lines.next_number();
        if back.len() > MAX_BYTES - self.held.len() {
            return Err(misspelled(number));
        }
        if self.held.is_empty() {
            return self.lines.read_line(&self.digest, back);
        }
        append(&mut self.held, back)?;
        let answer = self.lines.read_line(&self.digest, self.held.as_slice());
        self.held.clear();
        answer
    }

    /// Holds the bytes after the last LF of a chunk.
    fn hold(&mut self, bytes: &[u8]) -> Result<(), SessionFault>
        requires { IsTrue (is_one_line bytes.now) }
        ensures ok { OnOk result (self.new ≡ record self.old { fed = record self.old.fed { held = self.old.fed.held ++ bytes.now } }) }
        ensures bound { OnOk result (weight self.new < weight_bound) }
        ensures held { IsTrue (is_one_line self.old.fed.held) }
        ensures fine { OnOk result (is_bad_front (self.old.fed.lines + 1) self.old.fed.said (self.old.fed.held ++ bytes.now) ≡ false) }
        ensures err { IfErr result (IsRefusedFront self.old bytes.now) }
    {
        let number = self.lines.next_number();
        let room = MAX_BYTES - self.held.len();
        if bytes.is_empty() {
            return Ok(());
        }
        if self.lines.has_end() || bytes.len() > room {
            return Err(misspelled(number));
        }
        append(&mut self.held, bytes)?;
        Ok(())
    }

    /// The allocator, and the plan.
    pub(crate) fn base(&self) -> (A, &'p Plan<A>)
        ensures { result.1.now ≡ self.now.plan }
    {
        self.lines.base()
    }

    /// Ends the text, and makes its session, paused.
    pub(crate) fn finish(self) -> Result<PausedSession<B, A>, SessionFault>
        ensures from { IsSessionFrom self.entry.plan (outcome_of self.entry [] true) (shown_over B.calls_of self.entry.plan result) }
        ensures paused { IfOk result (IsPausedOver self.entry.plan) }
        ensures calls { IfOk result (λ s. B.calls_of s.searcher.finder ≡ self.entry.calls) }
        ensures formed { IfOk result (λ s. IsState self.entry.plan.plan s.searcher.request (state_of s)) }
    {
        if !self.lines.has_end() {
            return Err(misspelled(self.lines.next_number()));
        }
        self.lines.into_paused()
    }
}
