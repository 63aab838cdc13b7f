//! Calls of a finder, as proofs alone see them.

ghost use Rattle.std.specs.Prelude.{◌≡◌};
ghost use Rattle.std.specs.Borrow.{ftrue};
ghost use Rattle.sabr_search.specs.questions.Calls.{Calls, no_calls, with_call};

use std::marker::Model;

/// Calls of a finder that only proofs see: how many they are, and how many looks they took together. It has no size at
/// run time, and neither number has an upper bound.
#[derive(Drop)]
pub struct GhostCalls {
    pub ghost calls: { Calls },
}

impl Model for GhostCalls {
    ghost also_owns = { λ _. ftrue };
}

impl GhostCalls {
    /// Starts with no call.
    pub fn new() -> GhostCalls
        ensures { result.calls ≡ no_calls }
    {
        GhostCalls {}
    }

    /// Counts one more call, with this number of looks.
    pub fn add(&mut self, looks: u64)
        ensures { self.new.calls ≡ with_call self.old.calls looks }
    {}
}
