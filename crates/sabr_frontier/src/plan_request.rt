//! What routes are asked for.

use sabr_model::{Plan, Request};
use std::alloc::{Allocator, Global};

/// A plan, a request for its routes, and the allocator of what is made for them.
#[derive(Drop)]
pub struct PlanRequest<'p, A: Allocator + Copy = Global> {
    /// The allocator.
    pub alloc: A,
    /// The plan whose routes are listed.
    pub plan: &'p Plan<A>,
    /// The request.
    pub request: Request,
}

impl<'p, A: Allocator + Copy> PlanRequest<'p, A> {
    /// The allocator. A question that is taken apart later is asked for it, since the prover doesn't read its field then.
    pub fn alloc(&self) -> A {
        self.alloc
    }
}
