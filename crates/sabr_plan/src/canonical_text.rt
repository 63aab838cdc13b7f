//! The canonical text of a plan, and its digest.

ghost use Rattle.std.specs.Prelude.{◌≡◌, ◌++◌, List, ℕ};
ghost use Rattle.std.specs.List.{flat_map};
ghost use Rattle.sabr_model.specs.Devices.{WritesText};
ghost use Rattle.sabr_plan.specs.Canonical.{canonical_text, digest_of};
ghost use Rattle.sha2.specs.Hashers.{Holds256};

use crate::record_line::Record;
use sabr_model::{Plan, Write, WriteFault, write_text};
use sha2::{Digest, Sha256};
use std::alloc::Allocator;

/// The first line of a canonical text.
const FIRST_LINE: &[u8] = b"cgr-plan 1\n";

/// The last line of a canonical text.
const LAST_LINE: &[u8] = b"end\n";

/// Writes the canonical text of a plan: a line for each standing contact by number, and one for each standing range by
/// pair of nodes and start, between a first and a last line. The text is this project's profile. Its time grows with
/// the number of records.
///
/// It doesn't allocate or flush.
///
/// # Errors
///
/// [`WriteFault`] if the writer failed. Then a prefix of the text was written.
pub fn canonical<W: Write, A: Allocator + Copy>(
    plan: &Plan<A>,
    writer: &mut W,
) -> Result<(), WriteFault>
    ensures { WritesText (W.output writer.old) (canonical_text plan.now.plan) result (W.output writer.new) }
{
    write_text(writer, FIRST_LINE)?;
    write_lines(plan.contacts(), writer)?;
    write_lines(plan.ranges(), writer)?;
    write_text(writer, LAST_LINE)
}

/// Writes the lines of records.
fn write_lines<T: Record, W: Write>(records: &[T], writer: &mut W) -> Result<(), WriteFault>
    ensures { WritesText (W.output writer.old) (flat_map T.line_of records.now) result (W.output writer.new) }
{
    for record in records {
        write_text(writer, record.line().as_bytes())?;
    }
    Ok(())
}

/// Returns the digest of a plan: the SHA-256 of its canonical text (this project's profile), which is hashed line by
/// line. Plans with the same contacts in the same order and the same ranges have the same digest. It doesn't allocate.
pub fn digest<A: Allocator + Copy>(plan: &Plan<A>) -> [u8; 32]
    ensures { result ≡ digest_of plan.now.plan }
{
    let mut hasher = Sha256::new();
    hasher.update(FIRST_LINE);
    feed_lines(plan.contacts(), &mut hasher);
    feed_lines(plan.ranges(), &mut hasher);
    hasher.update(LAST_LINE);
    hasher.finalize()
}

/// Feeds the lines of records to a hasher.
fn feed_lines<T: Record>(records: &[T], hasher: &mut Sha256)
    ensures { (m : List ℕ) → Holds256 hasher.old m → Holds256 hasher.new (m ++ flat_map T.line_of records.now) }
{
    for record in records {
        hasher.update(record.line().as_bytes());
    }
}
