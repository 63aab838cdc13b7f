//! Laws of plans, listings and session texts: what the definitions imply for every plan and request.
//!
//! Each law is the contract of a function without arguments that does nothing. So a law costs nothing when the program
//! runs, and no crate of the program uses this one. Another proof uses a law by a call of its function, after which the
//! law is known.
//!
//! - **Listings.** [`fewer_contacts_take_their_routes`], [`lost_contacts_take_their_routes`] and
//!   [`limits_leave_routes_out`] say which routes are left, in the same order and with the same deliveries, if a plan
//!   loses contacts or a request gets stricter limits. So lists that were computed before can be filtered.
//! - **Texts.** By [`canonical_texts_tell_plans`], plans with one canonical text have the same listings, so the text's
//!   digest stands for the plan. By [`no_text_begins_another`] and [`cut_texts_are_refused`], a session's text that was
//!   written in part isn't taken for a whole one.
//!
//! The laws of single definitions, such as that the listing has exactly the routes, are in `sabr_model`.
#![tactic(auto)]

mod laws;

pub use laws::{
    canonical_texts_tell_plans, cut_texts_are_refused, fewer_contacts_take_their_routes,
    limits_leave_routes_out, lost_contacts_take_their_routes, no_text_begins_another,
};
