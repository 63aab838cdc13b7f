//! The summary of a list of contacts: its earliest end and its entry node.

ghost use Rattle.std.specs.Prelude.{◌≡◌, ◌∷◌, ◌++◌, []};
ghost use Rattle.sabr_model.specs.routes.Telling.{summary_of};

use crate::limits::LAST_TIME;
use crate::numbers::Numbers;
use crate::plan::Plan;
use crate::route::Route;
use std::alloc::Allocator;

/// The summary of a list of contacts, which can be updated contact by contact. With the numbers and their delivery it
/// makes the record of a route.
#[derive(Clone, Copy)]
pub struct RouteSummary {
    /// The termination time: the earliest end of the contacts, in seconds since 1970-01-01T00:00:00Z.
    pub until: u64,
    /// The entry node: the receiver of the first contact; 0 if there is none.
    pub entry: u64,
}

impl RouteSummary {
    /// Finds the earliest end and the entry node of the contacts with these numbers.
    pub fn of<A: Allocator + Copy>(plan: &Plan<A>, numbers: &[u32]) -> RouteSummary
        ensures { result ≡ summary_of plan.now.plan numbers.now }
    {
        let mut summary = RouteSummary {
            until: LAST_TIME,
            entry: 0,
        };
        for (i, number) in numbers.iter().enumerate() {
            summary = summary.extended(plan, &numbers[..i], *number);
        }
        summary
    }

    /// Returns the summary of a longer list: `self` is that of a prefix, which one more number extends. It reads only
    /// the contact with that number.
    pub fn extended<A: Allocator + Copy>(
        self,
        plan: &Plan<A>,
        prefix: &[u32],
        number: u32,
    ) -> RouteSummary
        requires { self ≡ summary_of plan.now.plan prefix.now }
        ensures { result ≡ summary_of plan.now.plan (prefix.now ++ number ∷ []) }
    {
        let Some(contact) = plan.contact(number) else {
            return self;
        };
        let until = self.until.min(contact.end);
        if prefix.is_empty() {
            return RouteSummary {
                until,
                entry: contact.to,
            };
        }
        RouteSummary {
            until,
            entry: self.entry,
        }
    }

    /// Makes the record of the list that `self` summarizes, with this delivery. It doesn't allocate.
    pub fn route<A: Allocator + Copy>(self, numbers: Vec<u32, A>, delivery: u64) -> Route<A>
        ensures { result ≡ record { contacts = numbers.items; delivery = delivery; until = self.until; entry = self.entry } }
    {
        Route {
            contacts: Numbers::new(numbers),
            delivery,
            until: self.until,
            entry: self.entry,
        }
    }
}
