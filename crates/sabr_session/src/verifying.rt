//! Whether bytes are the text of a session that has listed the first routes.

ghost use Rattle.std.specs.Prelude.{◌≡◌};
ghost use Rattle.sabr_plan.specs.Canonical.{digest_of};
ghost use Rattle.sabr_session.specs.Verifying.{VerifiesText};

use crate::reading::read_paused;
use crate::session_fault::SessionFault;
use sabr_index::Index;
use sabr_model::{Plan, Read};
use sabr_search::BestOf;
use std::alloc::Allocator;

/// Verifies that the bytes are the text of a session after some number of the first routes: that
/// [`write_session`](crate::write_session) would have written precisely these bytes over this plan, for some request
/// and after some number of its best routes, or that the bytes are the same text in version 1. The author of the text
/// isn't trusted.
///
/// The digest is that of the plan. The result is false as soon as the bytes so far are no prefix of such a text. Then
/// more of the reader's bytes may have been read. It makes the plan's index first, and costs a search for each part, and
/// a pass over the emitted routes.
///
/// # Errors
///
/// [`SessionFault::Read`] if the reader failed after a prefix of such a text. [`SessionFault::NoMemory`] if an
/// allocation failed. No other error occurs. The finder is dropped.
pub fn verify<R: Read, B: BestOf<A>, A: Allocator + Copy>(
    alloc: A,
    reader: &mut R,
    plan: &Plan<A>,
    digest: &[u8; 32],
    finder: B,
) -> Result<bool, SessionFault>
    requires { digest.now ≡ digest_of plan.now.plan }
    ensures { VerifiesText plan.now.plan (R.input reader.old) result (R.input reader.new) }
{
    let index = Index::new(alloc, plan)?;
    verify_over(alloc, reader, index, digest, finder)
}

/// Verifies bytes as [`verify`] does, over an index of the plan.
///
/// # Errors
///
/// Those of [`verify`].
pub fn verify_over<R: Read, B: BestOf<A>, A: Allocator + Copy>(
    alloc: A,
    reader: &mut R,
    index: Index<'_, A>,
    digest: &[u8; 32],
    finder: B,
) -> Result<bool, SessionFault>
    requires { digest.now ≡ digest_of index.plan }
    ensures { VerifiesText index.entry.plan (R.input reader.old) result (R.input reader.new) }
{
    let plan = index.plan();
    plan.rules_hold();
    match read_paused(alloc, reader, plan, digest, finder) {
        Ok(paused) => {
            let mut session = paused.resume(index);
            let certified = session.certify();
            match certified {
                Ok(placed) => Ok(placed),
                Err(_refused) => Err(SessionFault::NoMemory),
            }
        }
        Err(fault) => match fault {
            SessionFault::Read => Err(SessionFault::Read),
            SessionFault::NoMemory => Err(SessionFault::NoMemory),
            _ => Ok(false),
        },
    }
}
