//! Session texts: the text of a listing's place, the listing of a text, and whether a text is that of a place.

ghost use Rattle.std.specs.Prelude.{◌≡◌, None, IfErr, IfOk, OnErr, OnOk, IsFalse, true};
ghost use Rattle.sabr_session.specs.SessionText.{text_of_session};
ghost use Rattle.libcgrlist.specs.Buffers.{GivesNoText};
ghost use Rattle.libcgrlist.specs.Listings.{IfOpen, listing_refusal};
ghost use Rattle.libcgrlist.specs.Open.{Calls, IsValidHandle};
ghost use Rattle.libcgrlist.specs.SessionTexts.{AnswersLoad, AnswersText, IsLoaded, IsRefusal, IsVerified, Verifies, session_line};

use crate::buffers::put_whole;
use crate::gathered::Gathered;
use crate::handle::{PlanHandle, over_plan};
use crate::listing::{over_listing, take_up};
use crate::opened::{Opened, paused};
use crate::status::{CLOSED, DONE, LISTING, MEMORY, NO, of_session};
use host::Bytes;
use sabr_search::Settled;
use sabr_session::{SessionFault, read_paused, verify_over, write_session};
use std::alloc::Global;

/// Returns the session text of the listing's place.
fn text_of_place(alloc: Global, opened: &mut Opened) -> Result<Vec<u8, Global>, u32>
    ensures same { opened.new ≡ opened.old }
    ensures text { IfOk result (λ text. IfOpen opened.old.listing (λ s. text.items ≡ text_of_session s)) }
    ensures refused { IfErr result (λ e. e ≡ listing_refusal opened.old.listing) }
{
    let digest = opened.digest();
    let mut writer = Gathered::new(alloc);
    let written =
        over_listing!(opened, alloc, session => write_session(&session, &digest, &mut writer));
    match written {
        Ok(()) => Ok(writer.into_bytes()),
        Err(_failed) => Err(MEMORY),
    }
}

/// Writes the session text of the listing's place, and gives its length. If there is no room for all of it, none of it
/// is written.
#[unsafe(no_mangle)]
pub extern "C" fn cgrlist_listing_text(
    alloc: Global,
    handle: &mut PlanHandle,
    text: &mut [u8],
    bytes: &mut usize,
) -> u32
    requires { IsValidHandle handle.old }
    ensures text { Calls handle.old handle.new result (λ o n. (n ≡ o) × AnswersText o.listing result text.old text.new bytes.old bytes.new) }
    ensures closed { IsFalse handle.old.is_open → GivesNoText text.old text.new bytes.old bytes.new }
{
    let given = over_plan!(handle, alloc, opened => text_of_place(alloc, opened));
    match given {
        Ok(given) => {
            *bytes = given.len();
            put_whole(given.as_slice(), text)
        }
        Err(status) => status,
    }
}

/// The line that a fault names, or 0 if it names none.
fn line_of(fault: SessionFault) -> u64
    ensures { result ≡ session_line fault }
{
    match fault {
        SessionFault::BadLine(line) | SessionFault::BadRoute(line) => {
            line.min(u64::MAX as u128) as u64
        }
        _ => 0,
    }
}

/// Opens the listing of a session text, at its place. It runs no search, and makes no index of the plan.
fn load_text(alloc: Global, opened: &mut Opened, text: &[u8]) -> Result<(), SessionFault>
    requires { opened.old.listing ≡ None }
    ensures loaded { OnOk result (IsLoaded opened.old text.now opened.new) }
    ensures refused { IfErr result (λ f. IsRefusal opened.old text.now f) }
    ensures same { OnErr result (opened.new ≡ opened.old) }
{
    let digest = opened.digest();
    let mut reader = Bytes::new(text);
    let finder = Settled::new(alloc);
    let paused = read_paused(alloc, &mut reader, opened.plan(), &digest, finder)?;
    opened.keep_listing(paused);
    Ok(())
}

/// Opens the listing of a session text if no listing is open, and returns the status.
fn open_text(alloc: Global, opened: &mut Opened, text: &[u8], line: &mut u64) -> u32
    requires { line.old ≡ 0 }
    ensures { AnswersLoad opened.old.listing opened.old text.now result line.new opened.new }
{
    if opened.has_listing() {
        return LISTING;
    }
    match load_text(alloc, opened, text) {
        Ok(()) => DONE,
        Err(fault) => {
            *line = line_of(fault);
            of_session(fault)
        }
    }
}

/// Opens the listing of a session text, or gives the number of the text's bad line.
#[unsafe(no_mangle)]
pub extern "C" fn cgrlist_listing_load(
    alloc: Global,
    handle: &mut PlanHandle,
    text: &[u8],
    line: &mut u64,
) -> u32
    requires { IsValidHandle handle.old }
    ensures load { Calls handle.old handle.new result (λ o n. AnswersLoad o.listing o text.now result line.new n) }
    ensures no_line { IsFalse handle.old.is_open → line.new ≡ 0 }
{
    *line = 0;
    over_plan!(handle, alloc, opened => open_text(alloc, opened, text, line))
}

/// Verifies that bytes are the session text of a place over the plan. It writes nothing into a plan that has its links
/// and its digest.
fn verify_text(alloc: Global, opened: &mut Opened, text: &[u8]) -> Result<bool, SessionFault>
    ensures same { opened.new ≡ opened.old }
    ensures verified { Verifies opened.old.plan.plan text.now result }
{
    let digest = opened.digest();
    opened.link(alloc)?;
    let index = opened.index(alloc)?;
    let mut reader = Bytes::new(text);
    verify_over(alloc, &mut reader, index, &digest, Settled::new(alloc))
}

/// Returns whether a text is the session text of a place in the list of its request over the plan.
#[unsafe(no_mangle)]
pub extern "C" fn cgrlist_verify(alloc: Global, handle: &mut PlanHandle, text: &[u8]) -> u32
    requires { IsValidHandle handle.old }
    ensures verify { Calls handle.old handle.new result (λ o n. (n ≡ o) × IsVerified o.plan.plan text.now result) }
{
    let verified = over_plan!(handle, alloc, opened => verify_text(alloc, opened, text));
    match verified {
        Ok(true) => DONE,
        Ok(false) => NO,
        Err(_refused) => MEMORY,
    }
}
