//! Reading a plan.

ghost use Rattle.std.specs.Prelude.{◌≡◌, ◌+◌, IfErr, true};
ghost use Rattle.sabr_plan.specs.declared.fault.PlanKind.TheVariants as kind;
ghost use Rattle.sabr_plan.specs.Feeding.{Answers};
ghost use Rattle.sabr_plan.specs.PlanRead.{ReadsPlan};
ghost use Rattle.sabr_plan.specs.Reading.{plan_of};

use crate::fault::PlanFault;
use crate::feed::PlanFeed;
use sabr_model::{Failed, Plan, Read};
use std::alloc::Allocator;

/// Reads a plan, to the text's end or up to its first bad line.
///
/// The text has the format of ionrc(5), as far as this project's profile goes. It is one pass over the text, in chunks
/// of 8192 bytes.
///
/// # Errors
///
/// The first bad line, and of that line the first kind that applies. `Read` only if the reader failed, and `NoMemory`
/// only if an allocation failed. The number of bytes after a bad line that were taken from the reader is unspecified.
#[tactic(auto, using(crate::proofs::TextReading::nothing_read, crate::proofs::TextReading::piece_read, crate::proofs::Held::at_first))]
pub fn read_plan<R: Read, A: Allocator + Copy>(
    alloc: A,
    reader: &mut R,
) -> Result<Plan<A>, PlanFault>
    ensures read { ReadsPlan (R.input reader.old) result (R.input reader.new) }
    ensures failed { IfErr result (λ f. f.kind ≡ kind.Read → (R.input reader.new).failures ≡ (R.input reader.old).failures + 1) }
{
    let mut buffer = [0u8; 8192];
    let mut feed = PlanFeed::new(alloc);
    loop {
        match reader.read(&mut buffer) {
            Ok(0) => return feed.finish(),
            Ok(count) => feed.feed(&buffer[..count])?,
            Err(Failed) => return Err(feed.failed()),
        }
    }
}

/// Reads a plan from a text in memory, as [`read_plan`] reads it, without a copy of the text.
///
/// # Errors
///
/// The first bad line, and of that line the first kind that applies. `NoMemory` only if an allocation failed.
pub fn parse_plan<A: Allocator + Copy>(alloc: A, text: &[u8]) -> Result<Plan<A>, PlanFault>
    ensures { Answers (plan_of text.now true) result }
{
    let mut feed = PlanFeed::new(alloc);
    feed.feed(text)?;
    feed.finish()
}
