//! The contacts and ranges of a plan, gathered line by line in any order.
//!
//! A [`Plan`](sabr_model::Plan) keeps its tables after each change. A reader of thousands of lines needs them only at
//! the end. It adds the records to [`GatheredContacts`] and [`GatheredRanges`], and makes the plan of both by
//! [`gathered_plan`].
//!
//! Records come in any order, and a record is refused with the [`AddFault`](sabr_model::AddFault) that the plan so far
//! would return. Contracts say that the plan is that of the same changes, one by one: gathering adds only speed.
//!
//! ```ignore
//! let mut contacts = GatheredContacts::new(rt.alloc());
//! let mut ranges = GatheredRanges::new(rt.alloc());
//! contacts.add(1, 2, 1893456000, 1893456100, 1000)?;
//! ranges.add(1, 2, 1893456000, 1893457000, 10)?;
//! let plan = gathered_plan(rt.alloc(), contacts, ranges)?;
//! assert_eq!(rt; plan.hop(1).and_then(|h| h.light), Some(10));
//! ```

ghost use Rattle.std.specs.Prelude.{◌≡◌, IfOk};

mod chains;
mod duplicate_check;
mod gathered_contacts;
mod gathered_ranges;
mod growing_ranges;
mod known_ranges;
mod opening_tree;
mod range_tree;
mod sorted_ranges;

pub use gathered_contacts::GatheredContacts;
pub use gathered_ranges::GatheredRanges;
pub use growing_ranges::GrowingRanges;
use sabr_model::{NoMemory, Plan};
use std::alloc::Allocator;

/// Makes the plan of these contacts and ranges.
///
/// Its time grows with the number of contacts and ranges, and with sorting the ranges that came late.
///
/// # Errors
///
/// [`NoMemory`] if an allocation for its tables failed.
pub fn gathered_plan<A: Allocator + Copy>(
    alloc: A,
    contacts: GatheredContacts<A>,
    ranges: GatheredRanges<A>,
) -> Result<Plan<A>, NoMemory>
    ensures { IfOk result (λ p. p.plan ≡ record { contacts = contacts.contacts; ranges = ranges; largest = contacts.largest }) }
{
    let (contacts, largest) = contacts.into_contacts();
    let ranges = ranges.into_ranges()?;
    Plan::of_parts(alloc, contacts, ranges, largest)
}
