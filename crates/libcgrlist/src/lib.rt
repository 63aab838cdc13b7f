//! The functions that the C library is made of. `library/proved.h` declares them for `library/shims.c`, whose functions
//! are those of `cgrlist.h`: they take `NULL`, and make and close handles. There the functions' names begin with
//! `cgrlist_proved_`, `alloc` is no argument, and a slice is two: a pointer and a length.
//!
//! A [`PlanHandle`] is what C has of a plan: whether it is open, and where it lies. An open one has an [`Opened`]: the
//! plan, a listing over it if one is open, and what serves until the plan changes, which is its links, its digest and
//! its counts. Of the ranges that calls add one after another most wait, in a [`Held`], until another call needs them in
//! their place. Each export takes the plan out of the handle, asks it, and gives it back:
//!
//! - [`cgrlist_plan_new`], [`cgrlist_plan_read`], [`cgrlist_plan_copy`] and [`cgrlist_plan_renumber`] open a handle,
//!   [`cgrlist_plan_prepare`] makes what serves until the next change, and [`cgrlist_plan_close`] frees all of it.
//! - [`cgrlist_plan_add_contact`] and the like change the plan: wholly, or not at all.
//! - [`cgrlist_plan_counts`] and the like, [`cgrlist_plan_text`] and [`cgrlist_plan_canonical`], show it.
//! - [`cgrlist_best`], [`cgrlist_best_each`] and [`cgrlist_first`] search; [`cgrlist_follow`] and [`cgrlist_hops`] follow
//!   a list of contacts.
//! - [`cgrlist_listing_open`] and [`cgrlist_listing_load`] open a listing, of a request or of a session text. It waits as
//!   a paused session between [`cgrlist_listing_next`], [`cgrlist_listing_back`] and [`cgrlist_listing_text`].
//!   [`cgrlist_verify`] says whether a session text is that of a place in a list.
//!
//! A contract says of each status what stands in the buffers and behind the handle after the call. [`listings_stand`] and
//! [`plan_texts_read_back`] are laws.
#![tactic(auto)]

mod additions;
mod best;
mod buffers;
mod canonical_text;
mod changes;
mod first;
mod follow;
mod gathered;
mod handle;
mod held;
mod listing;
mod opened;
mod plan_text;
mod plans;
mod reach;
mod renumber;
mod session_texts;
mod status;
mod views;

pub use additions::{RefusedRecord, cgrlist_plan_add_contacts, cgrlist_plan_add_ranges};
pub use best::cgrlist_best;
pub use buffers::{Page, RouteRow};
pub use canonical_text::cgrlist_plan_canonical;
pub use changes::{
    cgrlist_plan_add_contact, cgrlist_plan_add_range, cgrlist_plan_delete_contact,
    cgrlist_plan_delete_number, cgrlist_plan_delete_range,
};
pub use first::cgrlist_first;
pub use follow::{cgrlist_follow, cgrlist_hops};
pub use handle::{Loose, Place, PlanHandle};
pub use held::Held;
pub use listing::{
    ListingPlace, cgrlist_listing_back, cgrlist_listing_next, cgrlist_listing_open,
    cgrlist_listing_place, listings_stand,
};
pub use opened::Opened;
pub use plan_text::{cgrlist_plan_text, plan_texts_read_back};
pub use plans::{
    cgrlist_plan_close, cgrlist_plan_copy, cgrlist_plan_new, cgrlist_plan_prepare,
    cgrlist_plan_read,
};
pub use reach::{Reach, cgrlist_best_each};
pub use renumber::cgrlist_plan_renumber;
pub use session_texts::{cgrlist_listing_load, cgrlist_listing_text, cgrlist_verify};
pub use views::{
    cgrlist_plan_contact, cgrlist_plan_contact_at, cgrlist_plan_counts, cgrlist_plan_digest,
    cgrlist_plan_greatest, cgrlist_plan_nodes, cgrlist_plan_range_at,
};
