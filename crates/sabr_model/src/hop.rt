//! A contact as a search reads it.

ghost use Rattle.std.specs.Prelude.{◌≡◌};
ghost use Rattle.sabr_model.specs.routes.Hops.{IsSmall, hop_arrival};

use crate::request::Request;

/// What a search reads of a contact: its window, its receiver and its light time. Times are seconds since
/// 1970-01-01T00:00:00Z.
#[derive(Clone, Copy)]
pub struct Hop {
    /// The first second at which the contact can be used.
    pub start: u64,
    /// The first second at which the contact can no longer be used.
    pub end: u64,
    /// The index of its receiver in the table of nodes.
    pub receiver: usize,
    /// The one-way light time in seconds that is in force at the contact's start, if a range states one.
    pub light: Option<u32>,
}

impl Hop {
    /// Returns the second at which a bundle that is at the sender at `at` arrives at the receiver. `None` if the
    /// contact has ended by the second at which the bundle could be sent, or if no light time is known.
    pub fn arrive(&self, request: &Request, at: u64) -> Option<u64>
        requires { IsSmall self.now }
        ensures { result ≡ hop_arrival request.now.margin at self.now }
    {
        request.arrive_over(at, self.start, self.end, self.light?)
    }
}
