//! A call over memory on loan.

ghost use Rattle.webcgrlist.specs.Calls.{EndsCall};
ghost use Rattle.webcgrlist.specs.Lent.{ComesBack};
ghost use Rattle.webcgrlist.specs.Runs.{seen};

use crate::call::Call;
use crate::run::run_call;
use crate::writers::Writers;
use bumpalo::Bump;
use commands::{Failure, Status, report_failure};
use host::{LentMemory, Region};
use sabr_model::Write;
use std::mem::replace;

/// What the arena takes of its memory for itself, in bytes.
const FOOTER: usize = 48;

/// Runs a call in an arena that takes all memory of its allocator, `size` bytes.
fn run_in_arena<O: Write, S: Write, E: Write>(
    lent: &LentMemory,
    size: usize,
    call: Call<'_, '_>,
    to: Writers<'_, O, S, E>,
) -> Status
    ensures { EndsCall call.entry.run call.entry.asked.now (seen O.output S.output E.output to.entry.report.now to.entry.session.now to.entry.message.now) (seen O.output S.output E.output to.exit.0.now to.exit.1.0.now to.exit.1.1.0.now) result }
{
    match Bump::try_with_capacity(lent, size.saturating_sub(FOOTER)) {
        Ok(arena) => run_call(&arena, call, to),
        Err(_refused) => report_failure(to.message, Failure::NoMemory),
    }
}

/// Runs a call with this memory, which comes back. If it is too small for an arena, the call ends for want of memory.
pub fn run_within<O: Write, S: Write, E: Write>(
    memory: &mut Region,
    call: Call<'_, '_>,
    report: &mut O,
    session: &mut S,
    message: &mut E,
) -> Status
    ensures ends { EndsCall call.entry.run call.entry.asked.now (seen O.output S.output E.output report.old session.old message.old) (seen O.output S.output E.output report.new session.new message.new) result }
    ensures memory { ComesBack memory.old memory.new }
{
    let size = memory.size;
    let lent = LentMemory::new(replace(memory, Region::none()));
    let to = Writers {
        report,
        session,
        message,
    };
    let ended = run_in_arena(&lent, size, call, to);
    if let Some(region) = lent.into_region() {
        *memory = region;
    }
    ended
}
