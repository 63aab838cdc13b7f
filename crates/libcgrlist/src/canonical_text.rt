//! The canonical text of a plan.

ghost use Rattle.std.specs.Prelude.{◌≡◌, IfOk, IsFalse};
ghost use Rattle.sabr_plan.specs.Canonical.{canonical_text};
ghost use Rattle.libcgrlist.specs.Buffers.{GivesNoText, GivesText};
ghost use Rattle.libcgrlist.specs.Open.{Calls, IsValidHandle};

use crate::buffers::put_whole;
use crate::gathered::Gathered;
use crate::handle::{PlanHandle, over_plan};
use crate::status::{CLOSED, MEMORY};
use sabr_model::{NoMemory, Plan};
use sabr_plan::canonical;
use std::alloc::Global;

/// Returns the canonical text of a plan.
///
/// # Errors
///
/// [`NoMemory`] if an allocation failed.
fn text_of_plan(alloc: Global, plan: &Plan<Global>) -> Result<Vec<u8, Global>, NoMemory>
    ensures { IfOk result (λ text. text.items ≡ canonical_text plan.now.plan) }
{
    let mut writer = Gathered::new(alloc);
    match canonical(plan, &mut writer) {
        Ok(()) => Ok(writer.into_bytes()),
        Err(_failed) => Err(NoMemory),
    }
}

/// Writes the canonical text of the plan, of which its digest is the SHA-256, and gives its length. If there is no room
/// for all of it, none of it is written.
#[unsafe(no_mangle)]
pub extern "C" fn cgrlist_plan_canonical(
    alloc: Global,
    handle: &mut PlanHandle,
    text: &mut [u8],
    bytes: &mut usize,
) -> u32
    requires { IsValidHandle handle.old }
    ensures text { Calls handle.old handle.new result (λ o n. (n ≡ o) × GivesText (canonical_text o.plan.plan) result text.old text.new bytes.old bytes.new) }
    ensures closed { IsFalse handle.old.is_open → GivesNoText text.old text.new bytes.old bytes.new }
{
    let given = over_plan!(handle, alloc, opened => text_of_plan(alloc, opened.plan()));
    match given {
        Ok(given) => {
            *bytes = given.len();
            put_whole(given.as_slice(), text)
        }
        Err(_refused) => MEMORY,
    }
}
