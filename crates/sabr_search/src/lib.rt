//! Finders of the best route of a part of the routes.
//!
//! **Words.** A *part* has the routes that begin with a *prefix* of contact numbers, are longer, and take no *excluded*
//! number next. A *question* asks for the best route of a part, up to a *bound*: a delivery and a number of hops. Its
//! *floor* is a second before which no route of the part delivers. A *way* is the rest of a route after the prefix, up
//! to the *goal*, the destination. A *task* is the search for the best way; it enters no *forbidden* node, and the
//! other nodes are *open*. A *pass* is a contact in the index, and a *link* has the passes from one node to another. A
//! *look* is a use of a contact's record.
//!
//! **A call.** `Settled::find` follows the prefix (`prefix_path.rt`) and calls `Search::find_route`. That tries an
//! early answer (`early.rt`): from the cache, by layers over the whole graph, or by a wide question. Otherwise
//! `Search::run` searches: it settles nodes (`forward`), makes layers backward, and picks the smallest numbers by them
//! (`backward`). A search that stops returns an error, `Stopped`. What is tried early and stops for want of looks isn't
//! known.
#![tactic(auto)]

mod backward;
mod best;
mod bound;
mod detours;
mod early;
mod forward;
mod found;
mod ghost_calls;
mod laws;
mod layer_search;
mod layered;
mod links;
mod node_bounds;
mod part;
mod prefix_path;
mod question;
mod queue;
mod search;
mod search_cache;
mod settled;
mod stopped;
mod task;
mod throttle;
mod visit;

pub use best::BestOf;
pub use bound::{Bound, BoundedPart, Sought};
pub use ghost_calls::GhostCalls;
pub use laws::answers_stay;
pub use layered::Layered;
pub use part::{Excluded, Part, fits};
pub use search_cache::SearchCache;
pub use settled::Settled;
