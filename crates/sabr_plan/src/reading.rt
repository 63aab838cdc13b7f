//! The plan that the lines of a text build, one after another.

ghost use Rattle.std.specs.Prelude.{◌≡◌, Ok, Err, IsOk, IfOk, MatchResult, IfSome, IsFalse};
ghost use Rattle.sabr_plan.specs.Commands.{line_command, HasBounds};
ghost use Rattle.sabr_plan.specs.PlainWords.{BeginsWithLine};
ghost use Rattle.sabr_plan.specs.Reading.{kind_of, Leaves};
ghost use Rattle.sabr_plan.specs.Words.{is_one_line};
ghost use Rattle.sabr_plan.specs.declared.command.Command.TheVariants.{Add, Delete};
ghost use Rattle.sabr_plan.specs.declared.command.Target.TheVariants as target;

use crate::command::{Addition, Command, Deletion, Target, line_command};
use crate::fast_line::fast_addition;
use crate::fault::PlanKind;
use crate::gathering::{GatheredContacts, GatheredRanges, gathered_plan};
use crate::known_day::KnownDay;
use crate::operand::Reference;
use sabr_model::{AddFault, NoMemory, Plan};
use std::alloc::Allocator;
use std::marker::Model;

/// The gathered contacts and ranges of a plan, and the time that relative times are counted from.
#[derive(Drop)]
pub struct PlanReading<A: Allocator + Copy> {
    /// The allocator of the plan.
    alloc: A,
    /// The contacts so far.
    contacts: GatheredContacts<A>,
    /// The ranges so far.
    ranges: GatheredRanges<A>,
    /// The second from which relative times count, if an `@` line has set it.
    reference: Reference,
    /// The day of the last absolute start.
    start_day: KnownDay,
    /// The day of the last absolute end.
    end_day: KnownDay,
}

impl<A: Allocator + Copy> Model for PlanReading<A> {
    ghost use Rattle.sabr_plan.specs.Reading.{Reading};

    ghost Value = { Reading };

    ghost view = { λ r. record { plan = record { contacts = r.contacts.contacts; ranges = r.ranges; largest = r.contacts.largest }; reference = r.reference } };
}

/// Returns the result of a change of the plan as that of a line.
#[inline(always)]
fn answered<X: Copy>(answer: Result<X, AddFault>) -> Result<(), PlanKind>
    ensures { MatchResult answer (λ _. IsOk result) (λ f. result ≡ Err (kind_of f)) }
{
    match answer {
        Ok(_) => Ok(()),
        Err(fault) => Err(kind_of(fault)),
    }
}

/// Returns an error of the plan as the fault of a line.
fn kind_of(fault: AddFault) -> PlanKind
    ensures { result ≡ kind_of fault }
{
    match fault {
        AddFault::EmptyWindow => PlanKind::EmptyWindow,
        AddFault::SelfPair => PlanKind::SelfPair,
        AddFault::DuplicateContact => PlanKind::DuplicateContact,
        AddFault::RangeOverlap => PlanKind::RangeOverlap,
        AddFault::TooMany => PlanKind::TooMany,
        AddFault::NoMemory => PlanKind::NoMemory,
        AddFault::NothingToDelete => PlanKind::NothingToDelete,
    }
}

impl<A: Allocator + Copy> PlanReading<A> {
    ghost use Rattle.sabr_plan.specs.Reading.{nothing_read, executed, line_executed};

    /// Returns the reading before the first line.
    pub fn new(alloc: A) -> PlanReading<A>
        ensures { result ≡ nothing_read }
    {
        PlanReading {
            alloc,
            contacts: GatheredContacts::new(alloc),
            ranges: GatheredRanges::new(alloc),
            reference: Reference::new(),
            start_day: KnownDay::new(),
            end_day: KnownDay::new(),
        }
    }

    /// Returns the plan that the lines build.
    pub fn into_plan(self) -> Result<Plan<A>, NoMemory>
        ensures { IfOk result (λ p. p.plan ≡ self.plan) }
    {
        let PlanReading {
            alloc,
            contacts,
            ranges,
            reference: _,
            start_day: _,
            end_day: _,
        } = self;
        gathered_plan(alloc, contacts, ranges)
    }

    /// Returns the command of a text's first line, if it is an addition in the usual form, and the text after the
    /// line's LF. `None` means: use the general reader.
    #[inline(always)]
    pub fn fast_addition<'a>(&mut self, text: &'a [u8]) -> Option<(Command, &'a [u8])>
        requires { IsFalse (is_one_line text.now) }
        ensures same { self.new ≡ self.old }
        ensures value { IfSome result (λ r. BeginsWithLine (λ line. line_command self.old.reference line ≡ Ok r.0) text.now r.1.now) }
    {
        fast_addition(
            &self.reference,
            &mut self.start_day,
            &mut self.end_day,
            text,
        )
    }

    /// Reads a line without its LF, and executes its command.
    #[cold]
    #[inline(never)]
    #[tactic(auto, using(crate::proofs::SpelledPlans::line_bounds), unfolding(crate::specs::Reading::line_executed))]
    pub fn execute_line(&mut self, line: &[u8]) -> Result<(), PlanKind>
        ensures { Leaves (line_executed self.old line.now) result self.new }
    {
        let command = line_command(&self.reference, line)?;
        self.execute(command)
    }

    /// Executes the command of a line, which was read.
    #[inline(always)]
    #[tactic(auto, using(crate::proofs::SpelledPlans::line_bounds), unfolding(crate::specs::Reading::line_executed))]
    pub fn execute_known(&mut self, line: &[u8], command: Command) -> Result<(), PlanKind>
        requires { line_command self.old.reference line.now ≡ Ok command }
        ensures { Leaves (line_executed self.old line.now) result self.new }
    {
        self.execute(command)
    }

    /// Executes the command of a line.
    #[inline(always)]
    #[tactic(auto, unfolding(crate::specs::Reading::executed))]
    fn execute(&mut self, command: Command) -> Result<(), PlanKind>
        requires { HasBounds command }
        ensures { Leaves (executed self.old command) result self.new }
    {
        match command {
            Command::Nothing => Ok(()),
            Command::SetReference(time) => {
                self.reference = Reference::at(time);
                Ok(())
            }
            Command::Add(Target::Contact, a) => answered(
                self.contacts
                    .add(a.first, a.second, a.start, a.end, a.value),
            ),
            Command::Add(Target::Range, a) => self.add_range(a),
            Command::Delete(Target::Contact, d) => {
                answered(self.contacts.delete(d.first, d.second, d.start))
            }
            Command::Delete(Target::Range, d) => {
                answered(self.ranges.delete(d.first, d.second, d.start))
            }
        }
    }

    #[tactic(auto, unfolding(crate::specs::Reading::executed))]
    #[inline(never)]
    fn add_range(&mut self, a: Addition) -> Result<(), PlanKind>
        requires { HasBounds (Add target.Range a) }
        ensures { Leaves (executed self.old (Add target.Range a)) result self.new }
    {
        let light = a.value as u32;
        answered(self.ranges.add(a.first, a.second, a.start, a.end, light))
    }
}
