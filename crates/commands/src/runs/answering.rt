//! Answering lines over one plan, one after the other.

ghost use Rattle.std.specs.Prelude.{◌≡◌, ◌≤◌, ◌++◌, [], All, IfOk, IfSome};
ghost use Rattle.sabr_model.specs.Devices.{WritesText};
ghost use Rattle.sabr_frontier.specs.listing.Listing.{most_routes, state_at};
ghost use Rattle.sabr_session.specs.Gathering.{Puts};
ghost use Rattle.sabr_session.specs.ReportText.{HasSpelledTimes, report_text};
ghost use Rattle.commands.specs.declared.runs.answering.AnswerKind.TheVariants as kind;
ghost use Rattle.commands.specs.words.Lines.{asked_in, list_in, seen_list};
ghost use Rattle.commands.specs.runs.Many.{IsFirstPage, IsWithin, LeavesAnswer, answer_text, form_of, heading, word_of};

use crate::failure::Failure;
use crate::texts::put_explanation;
use crate::words::{LineForm, Listed, list_in, request_in};
use sabr_frontier::{LastPage, Session};
use sabr_model::{NoMemory, Plan, Request, Write, WriteFault};
use sabr_search::Settled;
use sabr_session::{TextBuffer, put_pieces, put_report};
use std::alloc::{Allocator, Global};
use std::marker::Model;

/// What a line is answered with.
#[derive(Clone, Copy)]
pub enum AnswerKind {
    /// The report of the first routes of its request, at most as many as this number.
    FirstRoutes(u32),
    /// The explanation of its contacts.
    Explanation,
}

impl AnswerKind {
    /// The form of the lines that are answered so.
    pub fn form(self) -> LineForm
        ensures { result ≡ form_of self }
    {
        match self {
            AnswerKind::FirstRoutes(_) => LineForm::Requests,
            AnswerKind::Explanation => LineForm::Lists,
        }
    }

    /// The word before a line that is answered so.
    pub fn word<'a>(self) -> &'a [u8]
        ensures { result.now ≡ word_of self }
    {
        match self {
            AnswerKind::FirstRoutes(_) => b"request ",
            AnswerKind::Explanation => b"list ",
        }
    }
}

/// What answers lines over one plan. Each request has a session, over the index of the one before. Contracts see the
/// plan.
#[derive(Drop)]
pub struct Answering<'p, A: Allocator + Copy = Global> {
    /// The allocator of all that is made.
    alloc: A,
    /// The plan.
    plan: &'p Plan<A>,
    /// The page of the request before. `None` before the first, and after one without a page.
    before: Option<LastPage<'p, Settled<A>, A>>,
}

impl<'p, A: Allocator + Copy> Model for Answering<'p, A> {
    ghost use Rattle.std.specs.Prelude.{◌≡◌, IfSome};
    ghost use Rattle.sabr_model.specs.plan.Plan.{TabledPlan};

    ghost Value = { TabledPlan };

    ghost view = { λ a. a.plan.now };

    ghost invariant = { λ a. IfSome a.before (λ last. last.plan ≡ a.plan.now) };
}

impl<'p, A: Allocator + Copy> Answering<'p, A> {
    /// Answers no line yet. Allocates nothing.
    pub fn new(alloc: A, plan: &'p Plan<A>) -> Answering<'p, A>
        ensures { result ≡ plan.now }
    {
        Answering {
            alloc,
            plan,
            before: None,
        }
    }

    /// Starts a session for the next request: over the index of the one before, or over one of its own.
    fn start(&mut self, request: Request) -> Result<Session<'p, Settled<A>, A>, NoMemory>
        ensures started { IfOk result (λ s. (s.plan ≡ self.old) × (s.request ≡ request) × (s.state ≡ state_at self.old.plan request 0)) }
        ensures plan { self.new ≡ self.old }
    {
        match self.before.take() {
            Some(before) => before.start_again(request),
            None => Session::start(self.alloc, self.plan, request, Settled::new(self.alloc)),
        }
    }

    /// Finds the first `count` routes of the next request.
    fn first_page(
        &mut self,
        request: Request,
        count: u32,
    ) -> Result<LastPage<'p, Settled<A>, A>, NoMemory>
        requires { count ≤ most_routes }
        ensures page { IfOk result (IsFirstPage self.old request count) }
        ensures plan { self.new ≡ self.old }
    {
        let listing = self.start(request)?;
        listing.plan().rules_hold();
        listing.request().limits_hold();
        listing.last_page(count)
    }

    /// Writes the answer to the request of this line, with `count` routes. All of them are found first.
    fn answer_request<O: Write>(
        &mut self,
        line: &[u8],
        request: Request,
        count: u32,
        out: &mut O,
    ) -> Result<(), Failure>
        requires { count ≤ most_routes }
        ensures answer { LeavesAnswer self.old.plan (kind.FirstRoutes count) (record { line = line.now; asked = record { contacts = []; request = request } }) result (O.output out.old) (O.output out.new) }
        ensures plan { self.new ≡ self.old }
    {
        let last = self.first_page(request, count)?;
        let written = write_answer(&last, count, line, out);
        self.before = Some(last);
        written?;
        Ok(())
    }

    /// Writes the answer of this kind to a line. One that has a fault gets none.
    ///
    /// # Errors
    ///
    /// [`Failure::NoMemory`] if an allocation failed; then nothing was written. [`Failure::Write`] if the writer
    /// failed. Then a beginning of the answer was written.
    pub fn answer<O: Write>(
        &mut self,
        kind: AnswerKind,
        line: &[u8],
        out: &mut O,
    ) -> Result<(), Failure>
        requires { IsWithin kind }
        ensures answer { IfOk (asked_in (form_of kind) line.now) (λ a. LeavesAnswer self.old.plan kind (record { line = line.now; asked = a }) result (O.output out.old) (O.output out.new)) }
        ensures plan { self.new ≡ self.old }
    {
        match kind {
            AnswerKind::FirstRoutes(count) => match request_in(line) {
                Ok(request) => self.answer_request(line, request, count, out),
                Err(_) => Ok(()),
            },
            AnswerKind::Explanation => answer_list(self.alloc, self.plan, line, out),
        }
    }
}

/// Writes an answer by one buffer: its heading, and the report of a first page.
fn write_answer<O: Write, A: Allocator + Copy>(
    last: &LastPage<'_, Settled<A>, A>,
    count: u32,
    line: &[u8],
    out: &mut O,
) -> Result<(), WriteFault>
    requires { All HasSpelledTimes last.now.routes }
    ensures { WritesText (O.output out.old) (heading (kind.FirstRoutes count) line.now ++ report_text last.now.routes 1 last.now.more) result (O.output out.new) }
{
    let mut text = TextBuffer::new(out);
    put_heading(&mut text, AnswerKind::FirstRoutes(count), line)?;
    put_report(&mut text, last.routes(), 1, last.more())?;
    text.send()
}

/// Writes the answer to a line of lists. One that has a fault gets none.
fn answer_list<O: Write, A: Allocator + Copy>(
    alloc: A,
    plan: &Plan<A>,
    line: &[u8],
    out: &mut O,
) -> Result<(), Failure>
    ensures { IfOk (list_in line.now) (λ a. LeavesAnswer plan.now.plan kind.Explanation (record { line = line.now; asked = a }) result (O.output out.old) (O.output out.new)) }
{
    let Some(listed) = list_in(alloc, line)? else {
        return Ok(());
    };
    write_explained(plan, line, &listed, out)?;
    Ok(())
}

/// Writes the answer to these contacts and this request of a line, by one buffer: its heading, and their explanation.
fn write_explained<O: Write, A: Allocator + Copy>(
    plan: &Plan<A>,
    line: &[u8],
    listed: &Listed<A>,
    out: &mut O,
) -> Result<(), WriteFault>
    ensures { WritesText (O.output out.old) (answer_text plan.now.plan kind.Explanation (record { line = line.now; asked = seen_list listed.now })) result (O.output out.new) }
{
    let mut text = TextBuffer::new(out);
    put_heading(&mut text, AnswerKind::Explanation, line)?;
    put_explanation(&mut text, plan, &listed.request, listed.contacts.as_slice())?;
    text.send()
}

/// Puts the line before an answer.
fn put_heading<O: Write>(
    text: &mut TextBuffer<'_, O>,
    kind: AnswerKind,
    line: &[u8],
) -> Result<(), WriteFault>
    ensures { Puts O.output text.old (heading kind line.now) result text.new }
{
    let pieces: [&[u8]; 3] = [kind.word(), line, b"\n"];
    put_pieces(text, &pieces)
}
