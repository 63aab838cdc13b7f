//! Writing a page: its report, and then the session after it, if a writer is to have that.

ghost use Rattle.std.specs.Prelude.{◌≡◌, ℕ, ◌+◌, ◌^◌, ◌<◌, ◌≤◌, All, IfOk, IfSome, IsTrue, false, true, is_some, length};
ghost use Rattle.sabr_model.specs.Devices.{Output, WritesText};
ghost use Rattle.sabr_plan.specs.Canonical.{digest_of};
ghost use Rattle.sabr_frontier.specs.listing.Listing.{most_routes};
ghost use Rattle.sabr_session.specs.ReportText.{HasSpelledTimes, report_text};
ghost use Rattle.sabr_session.specs.SessionText.{text_of_session, HasText};
ghost use Rattle.commands.specs.runs.SessionRuns.{WritesPageOf};

use crate::failure::Failure;
use sabr_frontier::Session;
use sabr_model::{Route, Write, WriteFault};
use sabr_search::BestOf;
use sabr_session::{write_report, write_session};
use std::alloc::Allocator;

/// The writers of a page. In clauses, `to.entry` is such a parameter as it was passed, and its writers at the call's
/// end are `to.exit.0`, for `out`, and `to.exit.1.0`, for `session`.
#[derive(Drop)]
pub struct PageWriters<'w, O, S> {
    /// For the report.
    pub out: &'w mut O,
    /// For the session after the page.
    pub session: &'w mut S,
    /// Whether the session is written.
    pub keep: bool,
}

/// Writes and flushes the report of a page.
fn send_report<O: Write, A: Allocator + Copy>(
    routes: &[Route<A>],
    first_rank: u128,
    more: bool,
    out: &mut O,
) -> Result<(), WriteFault>
    requires ranks { first_rank + length routes.now < 2 ^ 128 }
    requires times { All HasSpelledTimes routes.now }
    ensures text { WritesText (O.output out.old) (report_text routes.now first_rank more) result (O.output out.new) }
    ensures flushed { IfOk result (λ _. IsTrue (O.output out.new).flushed) }
{
    write_report(routes, first_rank, more, out)?;
    let Ok(()) = out.flush() else {
        return Err(WriteFault);
    };
    Ok(())
}

/// Writes and flushes the text of a session.
fn send_session<S: Write, B: BestOf<A>, A: Allocator + Copy>(
    listing: &Session<'_, B, A>,
    digest: &[u8; 32],
    session: &mut S,
) -> Result<(), WriteFault>
    requires { digest.now ≡ digest_of listing.now.plan.plan }
    ensures there { HasText listing.now.state }
    ensures text { WritesText (S.output session.old) (text_of_session listing.now) result (S.output session.new) }
    ensures flushed { IfOk result (λ _. IsTrue (S.output session.new).flushed) }
{
    write_session(listing, digest, session)?;
    let Ok(()) = session.flush() else {
        return Err(WriteFault);
    };
    Ok(())
}

/// Writes the next `count` routes of a listing, and whether it goes on. None is written before all are found.
fn write_last_page<O: Write, B: BestOf<A>, A: Allocator + Copy>(
    listing: Session<'_, B, A>,
    count: u32,
    out: &mut O,
) -> Result<(), Failure>
    requires { count ≤ most_routes }
    ensures { (kept : Output) → WritesPageOf listing.entry false count result (O.output out.old) (O.output out.new) kept kept }
{
    listing.plan().rules_hold();
    listing.request().limits_hold();
    let first_rank = listing.emitted() + 1;
    let last = listing.last_page(count)?;
    send_report(last.routes(), first_rank, last.more(), out)?;
    Ok(())
}

/// Writes the next `count` routes of a listing, and whether it goes on, and then the session after them.
fn write_kept_page<O: Write, S: Write, B: BestOf<A>, A: Allocator + Copy>(
    listing: &mut Session<'_, B, A>,
    count: u32,
    out: &mut O,
    digest: &[u8; 32],
    session: &mut S,
) -> Result<(), Failure>
    requires count { count ≤ most_routes }
    requires digest { digest.now ≡ digest_of listing.old.plan.plan }
    ensures { WritesPageOf listing.old true count result (O.output out.old) (O.output out.new) (S.output session.old) (S.output session.new) }
{
    listing.plan().rules_hold();
    listing.request().limits_hold();
    let first_rank = listing.emitted() + 1;
    let routes = listing.page(count)?;
    send_report(routes.as_slice(), first_rank, listing.more(), out)?;
    send_session(listing, digest, session)?;
    Ok(())
}

/// Writes the next `count` routes of a listing to `out`, with ranks that go on from the routes given before, and
/// whether the listing goes on. Then, if `keep` is the digest of its plan, it writes the session after them to
/// `session`. No route is written before all are found. Each writer is flushed after its text, `out` before anything is
/// written to `session`.
///
/// # Errors
///
/// [`Failure::NoMemory`] if an allocation failed; then nothing was written. [`Failure::Write`] if a writer failed:
/// `out`, with a beginning of the report, or else `session`, with a beginning of the session.
pub fn write_page<O: Write, S: Write, B: BestOf<A>, A: Allocator + Copy>(
    mut listing: Session<'_, B, A>,
    count: u32,
    out: &mut O,
    keep: Option<[u8; 32]>,
    session: &mut S,
) -> Result<(), Failure>
    requires count { count ≤ most_routes }
    requires digest { IfSome keep (λ digest. digest ≡ digest_of listing.plan.plan) }
    ensures { WritesPageOf listing.entry (is_some keep) count result (O.output out.old) (O.output out.new) (S.output session.old) (S.output session.new) }
{
    match keep {
        None => write_last_page(listing, count, out),
        Some(digest) => write_kept_page(&mut listing, count, out, &digest, session),
    }
}
