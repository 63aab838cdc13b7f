//! The routes of a plan for a request, best first, a page at a time.
//!
//! [`Session::start`] begins a listing with a finder of best routes ([`BestOf`](sabr_search::BestOf)).
//! [`Session::page`] returns the next routes, and [`Session::back`] takes a page back. [`Session::last_page`] ends a
//! listing with a page, at fewer searches, and [`LastPage::start_again`] begins one for another request over the same
//! index. Between calls [`Session::pause`] releases the plan. A [`Loader`] makes a session of saved parts, without a
//! search. [`Session::certify`] tests by searches that these are the parts at their place in the listing.
//!
//! **Parts.** A part is a prefix, a list of contact numbers, and numbers that may not come next. Its routes are those
//! that begin with the prefix, are longer, and take none of these numbers next. It carries its best route. A page gives
//! the best route that a part carries, and divides this part at each hop after its prefix, so that no route comes
//! twice.
//!
//! **Units.** Times are seconds, as in [`sabr_model`]. A page has at most 10000 routes.
//!
//! **Cost.** A route takes a search for each of its hops after the prefix of its part, and no part is copied.
//! [`Session::searches`] counts the searches of a page, and [`Session::looks`] their uses of contacts' records.
//!
//! **Errors.** [`NoMemory`](sabr_model::NoMemory) is a failed allocation: the session is as before, and the same page
//! can be asked for again. [`LoadFault`] says why parts are no state of a listing. No call panics.
//!
//! **Sources.** Dividing parts is Yen's algorithm for the k best paths, in Lawler's form. Routes and their times are
//! those of [`sabr_model`]. The order of routes is this project's profile.
//!
//! The first six routes of a request, and back to the place after three:
//!
//! ```ignore
//! let mut session = Session::start(rt.alloc(), &plan, request, Settled::new(rt.alloc()))?;
//! let first = session.page(3)?;
//! let next = session.page(3)?;
//! assert_eq!(rt; session.back(), true);
//! assert_eq!(rt; session.emitted(), 3);
//! ```
#![tactic(auto)]

mod certify;
mod giving;
mod laws;
mod loader;
mod parts;
mod plan_request;
mod rows;
mod session;
mod tree;

pub use laws::{law4, law5, law6, pages_give_new_routes};
pub use loader::Loader;
pub use loader::load_fault::LoadFault;
pub use parts::{PartView, Parts};
pub use rows::{states_of_plan_a, states_of_plan_c, steps_of_plan_a};
pub use session::last_page::LastPage;
pub use session::paused::PausedSession;
pub use session::{MAX_ROUTES, Session};
