//! The steps that make a plan.

use crate::answers::{bytes, done, refused};
use crate::commands_called::{command_step, value_fault};
use crate::failing::Ration;
use crate::harness::Harness;
use crate::over_plan::steps_over;
use crate::words::{Words, number, small_number};
use sabr_model::{AddFault, LAST_TIME, MAX_LIGHT, Plan};
use sabr_plan::{canonical, digest, read_plan};
use sabr_search::{Layered, Settled};
use std::alloc::{Allocator, Global};

/// Takes all steps.
pub fn perform<'r>(ration: &'r Ration, harness: &mut Harness<'_>) {
    let mut made = Made {
        plan: Plan::new(ration),
        settled: Settled::new(ration),
        layered: Layered::new(ration),
    };
    made.take_steps(ration, harness);
}

/// The plan, and a finder of each kind.
#[derive(Drop)]
struct Made<'r> {
    plan: Plan<&'r Ration>,
    settled: Settled<&'r Ration>,
    layered: Layered<&'r Ration>,
}

impl<'r> Made<'r> {
    /// Takes all steps.
    fn take_steps(&mut self, ration: &'r Ration, harness: &mut Harness<'_>) {
        for _ in 0..u64::MAX {
            let Some((name, mut words)) = harness.next() else {
                return;
            };
            self.step(ration, harness, name, &mut words);
        }
    }

    /// Takes a step, and the steps over the plan that follow it.
    fn step(
        &mut self,
        ration: &'r Ration,
        harness: &mut Harness<'_>,
        name: &str,
        words: &mut Words<'_>,
    ) {
        match name {
            "settled" => steps_over(ration, &self.plan, &mut self.settled, harness),
            "layered" => steps_over(ration, &self.plan, &mut self.layered, harness),
            _ => {
                let answer = self.answer(ration, harness, name, words);
                harness.answer(answer);
            }
        }
    }

    /// Makes both finders anew, or does a step that needs none.
    fn answer(
        &mut self,
        ration: &'r Ration,
        harness: &mut Harness<'_>,
        name: &str,
        words: &mut Words<'_>,
    ) -> Option<String> {
        if name != "fresh" {
            return plan_step(ration, &mut self.plan, harness, name, words);
        }
        self.settled = Settled::new(ration);
        self.layered = Layered::new(ration);
        done(harness.alloc)
    }
}

/// Does a step that changes the plan, shows it, or needs none.
fn plan_step<A: Allocator + Copy>(
    alloc: A,
    plan: &mut Plan<A>,
    harness: &mut Harness<'_>,
    name: &str,
    words: &mut Words<'_>,
) -> Option<String> {
    match name {
        "new" => renewed(alloc, plan, harness),
        "read" => read(alloc, plan, harness),
        "contact" => numbered(harness.alloc, add_contact(plan, words)),
        "range" => answered(harness.alloc, add_range(plan, words)),
        "drop-contact" => numbered(harness.alloc, delete_contact(plan, words)),
        "drop-range" => answered(harness.alloc, delete_range(plan, words)),
        "canonical" => canonical_text(plan, harness),
        "digest" => bytes(harness.alloc, &digest(plan)),
        "run" => command_step(alloc, harness, words),
        "value-fault" => value_fault(harness.alloc, words),
        _ => harness.step(name, words),
    }
}

/// Makes an empty plan.
fn renewed<A: Allocator + Copy>(
    alloc: A,
    plan: &mut Plan<A>,
    harness: &Harness<'_>,
) -> Option<String> {
    *plan = Plan::new(alloc);
    done(harness.alloc)
}

/// Reads the plan's text.
fn read<A: Allocator + Copy>(
    alloc: A,
    plan: &mut Plan<A>,
    harness: &Harness<'_>,
) -> Option<String> {
    match read_plan(alloc, &mut harness.plan.reader()) {
        Ok(planned) => {
            *plan = planned;
            done(harness.alloc)
        }
        Err(fault) => { format!(in harness.alloc; "{} {:?}: {fault}", fault.line, fault.kind).ok() }
    }
}

/// Writes the canonical text: what the writer holds, and whether all of it was written.
fn canonical_text<A: Allocator + Copy>(plan: &Plan<A>, harness: &Harness<'_>) -> Option<String> {
    let mut writer = harness.out.writer(harness.alloc);
    let written = canonical(plan, &mut writer).is_ok();
    held(harness.alloc, written, writer.held())
}

/// Whether a text was written, and what its writer holds.
pub fn held(alloc: Global, written: bool, held: &[u8]) -> Option<String> {
    let word = if written { "ok" } else { "WriteFault" };
    let digits = hex::encode(alloc, held).ok()?;
    format!(in alloc; "{word} {digits}").ok()
}

fn numbered(alloc: Global, answer: Option<Result<u32, AddFault>>) -> Option<String> {
    match answer? {
        Ok(number) => format!(in alloc; "{number}").ok(),
        Err(fault) => refused(alloc, fault),
    }
}

fn answered(alloc: Global, answer: Option<Result<(), AddFault>>) -> Option<String> {
    match answer? {
        Ok(()) => done(alloc),
        Err(fault) => refused(alloc, fault),
    }
}

/// Adds the contact FROM TO START END RATE.
fn add_contact<A: Allocator + Copy>(
    plan: &mut Plan<A>,
    words: &mut Words<'_>,
) -> Option<Result<u32, AddFault>> {
    let (from, to) = (number(words)?, number(words)?);
    let (start, end) = (number(words)?, number(words)?);
    let rate = number(words)?;
    if from < 1 || to < 1 || start > LAST_TIME || end > LAST_TIME {
        return None;
    }
    Some(plan.add_contact(from, to, start, end, rate))
}

/// Adds the range ONE OTHER START END LIGHT.
fn add_range<A: Allocator + Copy>(
    plan: &mut Plan<A>,
    words: &mut Words<'_>,
) -> Option<Result<(), AddFault>> {
    let (one, other) = (number(words)?, number(words)?);
    let (start, end) = (number(words)?, number(words)?);
    let light = small_number(words)?;
    if one < 1 || other < 1 || start > LAST_TIME || end > LAST_TIME || light > MAX_LIGHT {
        return None;
    }
    Some(plan.add_range(one, other, start, end, light))
}

/// Deletes the contact FROM TO START.
fn delete_contact<A: Allocator + Copy>(
    plan: &mut Plan<A>,
    words: &mut Words<'_>,
) -> Option<Result<u32, AddFault>> {
    let (from, to, start) = (number(words)?, number(words)?, number(words)?);
    Some(plan.delete_contact(from, to, start))
}

/// Deletes the range ONE OTHER START.
fn delete_range<A: Allocator + Copy>(
    plan: &mut Plan<A>,
    words: &mut Words<'_>,
) -> Option<Result<(), AddFault>> {
    let (one, other, start) = (number(words)?, number(words)?, number(words)?);
    Some(plan.delete_range(one, other, start))
}
