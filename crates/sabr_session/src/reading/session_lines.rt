//! The lines of a session text that LF has ended.

ghost use Rattle.std.specs.Prelude.{◌≡◌, ◌+◌, ◌<◌, ◌≤◌, true, Ok, Err, MatchResult, IfOk, OnOk};
ghost use Rattle.std.specs.Str.{bytes_eq};
ghost use Rattle.hex.specs.Hex.{encode_lower};
ghost use Rattle.sabr_frontier.specs.listing.Listing.{IsState};
ghost use Rattle.sabr_frontier.specs.session.Paused.{IsPausedOver, state_of};
ghost use Rattle.sabr_session.specs.PausedTexts.{shown_over};
ghost use Rattle.sabr_session.specs.SessionRead.{asked, is_after, line_said, other_said, part_said, request_said};
ghost use Rattle.sabr_session.specs.SessionFed.{most_lines, opened_over, IsSessionFrom, Leaves};

use crate::hex_digest::digest_text;
use crate::reading::first_lines::{
    Version, count_of, digest_named, emitted_of, header_of, is_end, last_listed, request_of,
};
use crate::reading::part_line::PartLine;
use crate::session_fault::SessionFault;
use sabr_frontier::{LoadFault, Loader, PausedSession};
use sabr_model::{Numbers, Plan, Request, RequestValues};
use sabr_search::BestOf;
use std::alloc::Allocator;
use std::marker::Model;

/// The number of lines before and after those of the parts.
const OTHER_LINES: u128 = 7;

/// The complete lines of a text. A value that wasn't read yet is 0 or empty. Contracts see a text without an incomplete
/// line.
#[derive(Drop)]
pub(crate) struct SessionLines<'p, B: BestOf<A>, A: Allocator + Copy> {
    /// The allocator of the session.
    alloc: A,
    /// The plan that the text was written for.
    plan: &'p Plan<A>,
    /// The number of lines.
    lines: u128,
    /// The version in line 1.
    version: Version,
    /// The finder, until there is a request.
    finder: Option<B>,
    /// The loader of the request in line 3.
    loader: Option<Loader<'p, B, A>>,
    /// The number of emitted routes.
    emitted: u128,
    /// The last of these routes.
    last: Numbers<A>,
    /// The number of parts to come.
    count: u64,
    /// Memory for the lists of a part, used for each part.
    part: PartLine<A>,
}

impl<'p, B: BestOf<A>, A: Allocator + Copy> Model for SessionLines<'p, B, A> {
    ghost use Rattle.std.specs.Prelude.{◌≡◌, ◌≤◌, nat_lt, [], is_some, option_map};
    ghost use Rattle.sabr_session.specs.SessionFed.{OpenText, most_lines};
    ghost use Rattle.sabr_session.specs.PausedTexts.{calls_by, request_by, parts_by, HasFinder};

    ghost Value = { OpenText };

    ghost view = { λ l. record { plan = l.plan.now; calls = calls_by (option_map B.calls_of l.finder) l.loader; fed = record { lines = l.lines; said = record { version = l.version; request = request_by l.loader; emitted = l.emitted; last_route = l.last; count = l.count; parts = parts_by l.loader }; held = [] } } };

    ghost invariant = { λ l. HasFinder l.plan.now l.finder l.loader × (is_some l.loader ≡ nat_lt 2 l.lines) × (l.lines ≤ most_lines) };
}

/// Returns the number of the line `end`, after lines for this many parts.
fn end_number(count: u64) -> u128
    ensures value { result ≡ 7 + count }
    ensures limit { result ≤ most_lines }
{
    OTHER_LINES + u128::from(count)
}

/// Returns whether the digits are those of the digest.
fn is_digest_of(digits: &[u8], digest: &[u8; 32]) -> bool
    ensures { result ≡ bytes_eq digits.now (encode_lower digest.now) }
{
    digits == digest_text(digest).as_slice()
}

/// Returns the request of these values.
fn asked(values: &RequestValues) -> Result<Request, SessionFault>
    ensures { MatchResult result (λ r. asked values.now ≡ Ok r) (λ f. asked values.now ≡ Err f) }
{
    let Ok(request) = Request::new(values.from, values.to, values.at, values.margin_ppm) else {
        return Err(SessionFault::BadRequest);
    };
    let Ok(request) = request.with_limits(values.max_hops, values.avoid.as_slice()) else {
        return Err(SessionFault::BadRequest);
    };
    Ok(request)
}

impl<'p, B: BestOf<A>, A: Allocator + Copy> SessionLines<'p, B, A> {
    /// Returns a text before any line is read. It doesn't allocate.
    pub(crate) fn new(alloc: A, plan: &'p Plan<A>, finder: B) -> SessionLines<'p, B, A>
        ensures { result ≡ opened_over plan.now (B.calls_of finder) }
    {
        SessionLines {
            alloc,
            plan,
            lines: 0,
            version: Version::Two,
            finder: Some(finder),
            loader: None,
            emitted: 0,
            last: Numbers::new(Vec::new(alloc)),
            count: 0,
            part: PartLine::new(alloc),
        }
    }

    /// The number of the next line.
    pub(crate) fn next_number(&self) -> u128
        ensures value { result ≡ self.now.fed.lines + 1 }
        ensures limit { result ≤ most_lines + 1 }
    {
        self.lines + 1
    }

    /// Returns whether `end` was read.
    pub(crate) fn has_end(&self) -> bool
        ensures { result ≡ is_after (self.now.fed.lines + 1) self.now.fed.said }
    {
        self.lines + 1 > end_number(self.count)
    }

    /// Reads the next line, for a plan of this digest.
    pub(crate) fn read_line(&mut self, digest: &[u8; 32], line: &[u8]) -> Result<(), SessionFault>
        ensures value { Leaves (line_said self.old.plan.plan digest.now (self.old.fed.lines + 1) self.old.fed.said line.now) result self.new.fed.said }
        ensures plan { self.new.plan ≡ self.old.plan }
        ensures calls { self.new.calls ≡ self.old.calls }
        ensures lines { OnOk result (self.new.fed.lines ≡ self.old.fed.lines + 1) }
    {
        let number = self.lines + 1;
        match number {
            1 => self.version = header_of(line).ok_or(SessionFault::BadHeader)?,
            2 => {
                let digits = digest_named(line).ok_or(SessionFault::BadLine(2))?;
                if !is_digest_of(digits, digest) {
                    return Err(SessionFault::OtherPlan);
                }
            }
            3 => return self.read_request(line),
            4 => self.emitted = emitted_of(line).ok_or(SessionFault::BadLine(4))?,
            5 => self.last = last_listed(self.alloc, line)?.ok_or(SessionFault::BadLine(5))?,
            6 => self.count = count_of(line).ok_or(SessionFault::BadLine(6))?,
            _ => return self.read_other(line),
        }
        self.lines = number;
        Ok(())
    }

    /// Reads the third line, and makes the loader of its request.
    fn read_request(&mut self, line: &[u8]) -> Result<(), SessionFault>
        requires { self.old.fed.lines ≡ 2 }
        ensures value { Leaves (request_said self.old.fed.said line.now) result self.new.fed.said }
        ensures plan { self.new.plan ≡ self.old.plan }
        ensures calls { self.new.calls ≡ self.old.calls }
        ensures lines { OnOk result (self.new.fed.lines ≡ 3) }
    {
        let values = request_of(self.version, line).ok_or(SessionFault::BadLine(3))?;
        let request = asked(&values)?;
        let Some(finder) = self.finder.take() else {
            unreachable!()
        };
        self.loader = Some(Loader::new(self.alloc, self.plan, request, finder));
        self.lines = 3;
        Ok(())
    }

    /// Reads the next line, after the first six.
    fn read_other(&mut self, line: &[u8]) -> Result<(), SessionFault>
        requires { 6 ≤ self.old.fed.lines }
        ensures value { Leaves (other_said self.old.plan.plan (self.old.fed.lines + 1) self.old.fed.said line.now) result self.new.fed.said }
        ensures plan { self.new.plan ≡ self.old.plan }
        ensures calls { self.new.calls ≡ self.old.calls }
        ensures lines { OnOk result (self.new.fed.lines ≡ self.old.fed.lines + 1) }
    {
        let number = self.lines + 1;
        let end = end_number(self.count);
        if number < end {
            self.read_part(line)
        } else if number == end && is_end(line) {
            self.lines = number;
            Ok(())
        } else {
            Err(SessionFault::BadLine(number))
        }
    }

    /// Reads the next line as that of a part, and adds the part.
    fn read_part(&mut self, line: &[u8]) -> Result<(), SessionFault>
        requires request { 2 < self.old.fed.lines }
        requires limit { self.old.fed.lines < most_lines }
        ensures value { Leaves (part_said self.old.plan.plan (self.old.fed.lines + 1) self.old.fed.said line.now) result self.new.fed.said }
        ensures plan { self.new.plan ≡ self.old.plan }
        ensures calls { self.new.calls ≡ self.old.calls }
        ensures lines { OnOk result (self.new.fed.lines ≡ self.old.fed.lines + 1) }
    {
        let number = self.lines + 1;
        if !self.part.read(line)? {
            return Err(SessionFault::BadLine(number));
        }
        let Some(loader) = &mut self.loader else {
            unreachable!()
        };
        let part = &self.part;
        match loader.add_part(part.prefix(), part.excluded(), part.carried()) {
            Ok(()) => {
                self.lines = number;
                Ok(())
            }
            Err(LoadFault::BadOrder) => Err(SessionFault::BadLine(number)),
            Err(LoadFault::BadRoute) => Err(SessionFault::BadRoute(number)),
            Err(_) => Err(SessionFault::NoMemory),
        }
    }

    /// The allocator, and the plan.
    pub(crate) fn base(&self) -> (A, &'p Plan<A>)
        ensures { result.1.now ≡ self.now.plan }
    {
        (self.alloc, self.plan)
    }

    /// Returns the session of all lines, paused, after `end`.
    pub(crate) fn into_paused(self) -> Result<PausedSession<B, A>, SessionFault>
        requires { is_after (self.fed.lines + 1) self.fed.said ≡ true }
        ensures from { IsSessionFrom self.entry.plan (Ok self.entry.fed.said) (shown_over B.calls_of self.entry.plan result) }
        ensures paused { IfOk result (IsPausedOver self.entry.plan) }
        ensures calls { IfOk result (λ s. B.calls_of s.searcher.finder ≡ self.entry.calls) }
        ensures formed { IfOk result (λ s. IsState self.entry.plan.plan s.searcher.request (state_of s)) }
    {
        let SessionLines {
            loader,
            emitted,
            last,
            ..
        } = self;
        let Some(loader) = loader else { unreachable!() };
        match loader.finish_paused(emitted, last.as_slice()) {
            Ok(paused) => Ok(paused),
            Err(LoadFault::NotClosed) => Err(SessionFault::NotClosed),
            Err(LoadFault::BadCount) => Err(SessionFault::BadCount),
            Err(_) => Err(SessionFault::NoMemory),
        }
    }
}
