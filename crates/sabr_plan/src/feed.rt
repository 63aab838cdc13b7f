//! A plan text that is read chunk by chunk. One line at a time is held, in a fixed array.

ghost use Rattle.std.specs.Prelude.{◌≡◌, ◌≢◌, ◌+◌, ◌-◌, ◌*◌, ◌≤◌, ◌<◌, [], ◌∷◌, ◌++◌, ◌⊎◌, Ok, Err, OnOk, IfErr, IsTrue, IsFalse, length, slice_index, MatchResult, false, true};
ghost use Rattle.sabr_plan.specs.Words.{is_one_line};
ghost use Rattle.sabr_plan.specs.Commands.{line_command};
ghost use Rattle.sabr_plan.specs.declared.fault.PlanKind.TheVariants as kind;

use crate::command::Command;
use crate::fault::{PlanFault, PlanKind};
use crate::pieces::ended_line;
use crate::reading::PlanReading;
use arrayvec::ArrayVec;
use memchr::memrchr;
use sabr_model::{NoMemory, Plan};
use std::alloc::Allocator;
use std::marker::Model;

/// The largest number of bytes of a line without its LF (this project's profile).
const MAX_LINE_BYTES: usize = 255;

/// The largest number of lines of a text (this project's profile).
pub const MAX_LINES: u32 = 1000000;

/// The plan that the lines so far build, the number of these lines, and the bytes of the line after them.
#[derive(Drop)]
pub struct PlanFeed<A: Allocator + Copy> {
    /// The number of lines that LF has ended.
    lines: u32,
    /// The plan that they build.
    reading: PlanReading<A>,
    /// The bytes of the line after them.
    held: ArrayVec<u8, MAX_LINE_BYTES>,
}

impl<A: Allocator + Copy> Model for PlanFeed<A> {
    ghost use Rattle.sabr_plan.specs.Feeding.{Fed, BeginsLine};

    ghost Value = { Fed };

    ghost view = { λ f. record { lines = f.lines; reading = f.reading; held = f.held.items } };

    ghost invariant = { λ f. BeginsLine f.lines f.held.items };
}

/// Returns the lines of a chunk with their LF, and the bytes after the last LF.
#[tactic(auto, using(crate::proofs::Held::one_line_from))]
fn ended_lines(piece: &[u8]) -> (&[u8], &[u8])
    ensures parts { piece.now ≡ result.0.now ++ result.1.now }
    ensures ended { 0 < length result.0.now → slice_index result.0.now (length result.0.now - 1) ≡ 10 }
    ensures line { IsTrue (is_one_line result.1.now) }
{
    match memrchr(b'\n', piece) {
        Some(last) => piece.split_at(last + 1),
        None => piece.split_at(0),
    }
}

impl<A: Allocator + Copy> PlanFeed<A> {
    ghost use Rattle.sabr_plan.specs.Reading.{Leaves, most_line_bytes, most_lines, limited, ended_line, broken_line};
    ghost use Rattle.sabr_plan.specs.Feeding.{Fed, nothing_fed, outcome, EndsLine, IsFed, weight, Answers};

    /// Returns the feed before the first chunk.
    pub fn new(alloc: A) -> PlanFeed<A>
        ensures { result ≡ nothing_fed }
    {
        PlanFeed {
            lines: 0,
            reading: PlanReading::new(alloc),
            held: ArrayVec::new(),
        }
    }

    /// Reads the next chunk of the text.
    pub fn feed(&mut self, piece: &[u8]) -> Result<(), PlanFault>
        ensures fed { IsFed self.old piece.now result self.new }
        ensures grows { OnOk result (weight self.old + length piece.now ≤ weight self.new) }
        ensures bound { OnOk result (weight self.new ≤ 256 * most_lines) }
    {
        let (lines, tail) = ended_lines(piece);
        let mut rest = lines;
        while !rest.is_empty() {
            let (_, next, ended) = self.feed_line(rest);
            if let Err(kind) = ended {
                return Err(self.fault(kind));
            }
            rest = next;
        }
        self.hold(tail)
    }

    /// Ends the first line of a text. Returns the line, the text after its LF, and whether the line was read.
    #[inline(always)]
    fn feed_line<'a>(&mut self, text: &'a [u8]) -> (&'a [u8], &'a [u8], Result<(), PlanKind>)
        requires { IsFalse (is_one_line text.now) }
        ensures parts { text.now ≡ result.0.now ++ 10 ∷ result.1.now }
        ensures line { IsTrue (is_one_line result.0.now) }
        ensures ended { EndsLine self.old result.0.now result.2 self.new }
    {
        if self.held.is_empty() {
            if let Some((command, rest)) = self.reading.fast_addition(text) {
                let (line, _) = text.split_at(text.len() - rest.len() - 1);
                let ended = self.end_known_line(line, command);
                return (line, rest, ended);
            }
        }
        let Some((line, rest)) = ended_line(text) else {
            unreachable!();
        };
        let ended = self.end_line(line);
        (line, rest, ended)
    }

    /// Ends the text.
    pub fn finish(mut self) -> Result<Plan<A>, PlanFault>
        ensures { Answers (outcome self [] true) result }
    {
        self.end_text()?;
        let fault = self.fault(PlanKind::NoMemory);
        let PlanFeed {
            lines: _,
            reading,
            held: _,
        } = self;
        match reading.into_plan() {
            Ok(plan) => Ok(plan),
            Err(NoMemory) => Err(fault),
        }
    }

    /// Ends the held bytes as a line, if there are any.
    fn end_text(&mut self) -> Result<(), PlanFault>
        ensures value { MatchResult result (λ _. ended_line (self.old.lines + 1) self.old.reading self.old.held ≡ Ok self.new.reading) (λ f. (f.kind ≡ kind.NoMemory) ⊎ (ended_line (self.old.lines + 1) self.old.reading self.old.held ≡ Err f)) }
        ensures held { IsTrue (is_one_line self.old.held) }
    {
        if self.held.is_empty() {
            return Ok(());
        }
        if let Err(kind) = self.end_line(b"") {
            return Err(self.fault(kind));
        }
        Ok(())
    }

    /// Returns the fault of a text whose reader failed.
    pub fn failed(&self) -> PlanFault
        ensures kind { result.kind ≡ kind.Read }
        ensures value { outcome self.now [] false ≡ Err result }
    {
        PlanFault {
            line: self.lines + 1,
            kind: PlanKind::Read,
        }
    }

    /// Returns the fault of this kind in the line after those that have ended.
    fn fault(&self, kind: PlanKind) -> PlanFault
        ensures { result ≡ record { line = self.now.lines + 1; kind = kind } }
    {
        PlanFault {
            line: self.lines + 1,
            kind,
        }
    }

    /// Ends the held line with these bytes.
    #[cold]
    #[inline(never)]
    fn end_line(&mut self, back: &[u8]) -> Result<(), PlanKind>
        requires { IsTrue (is_one_line back.now) }
        ensures { EndsLine self.old back.now result self.new }
    {
        let lines = self.lines + 1;
        self.take_line(back)?;
        self.lines = lines;
        self.held.clear();
        Ok(())
    }

    /// Ends this line, whose command was read. No other byte is held.
    #[inline(always)]
    fn end_known_line(&mut self, line: &[u8], command: Command) -> Result<(), PlanKind>
        requires line { IsTrue (is_one_line line.now) }
        requires held { self.old.held ≡ [] }
        requires known { line_command self.old.reading.reference line.now ≡ Ok command }
        ensures { EndsLine self.old line.now result self.new }
    {
        if self.lines >= MAX_LINES || line.len() > MAX_LINE_BYTES {
            return self.end_line(line);
        }
        if let Err(kind) = self.reading.execute_known(line, command) {
            return Err(kind);
        }
        self.lines += 1;
        Ok(())
    }

    /// Reads the held line with these bytes at its end, if it is within the limits.
    #[tactic(auto, using(crate::proofs::Held::held_line_executed), unfolding(crate::specs::Reading::limited))]
    fn take_line(&mut self, back: &[u8]) -> Result<(), PlanKind>
        requires { IsTrue (is_one_line back.now) }
        ensures value { Leaves (limited (self.old.lines + 1) self.old.reading (self.old.held ++ back.now)) result self.new.reading }
        ensures lines { self.new.lines ≡ self.old.lines }
        ensures fits { OnOk result ((self.old.lines < most_lines) × (length self.old.held + length back.now ≤ most_line_bytes)) }
    {
        if self.lines >= MAX_LINES {
            return Err(PlanKind::TooMany);
        }
        if back.len() > MAX_LINE_BYTES - self.held.len() {
            return Err(PlanKind::LineTooLong);
        }
        self.append(back);
        self.reading.execute_line(self.held.as_slice())
    }

    /// Holds more bytes of a line.
    fn append(&mut self, bytes: &[u8])
        requires room { length self.old.held + length bytes.now ≤ most_line_bytes }
        requires lines { self.old.lines < most_lines }
        requires line { IsTrue (is_one_line bytes.now) }
        ensures { self.new ≡ record { lines = self.old.lines; reading = self.old.reading; held = self.old.held ++ bytes.now } }
    {
        let Ok(()) = self.held.try_extend_from_slice(bytes) else {
            unreachable!();
        };
    }

    /// Holds the bytes after the last LF of a chunk.
    fn hold(&mut self, bytes: &[u8]) -> Result<(), PlanFault>
        requires { IsTrue (is_one_line bytes.now) }
        ensures ok { OnOk result (self.new ≡ record { lines = self.old.lines; reading = self.old.reading; held = self.old.held ++ bytes.now }) }
        ensures bound { OnOk result (weight self.new ≤ 256 * most_lines) }
        ensures held { IsTrue (is_one_line self.old.held) }
        ensures err { IfErr result (λ f. (f ≡ broken_line (self.old.lines + 1) (self.old.held ++ bytes.now)) × (f.kind ≢ kind.Read)) }
    {
        let full = self.lines >= MAX_LINES;
        if bytes.is_empty() {
            return Ok(());
        }
        if full {
            return Err(self.fault(PlanKind::TooMany));
        }
        if bytes.len() > MAX_LINE_BYTES - self.held.len() {
            return Err(self.fault(PlanKind::LineTooLong));
        }
        self.append(bytes);
        Ok(())
    }
}
