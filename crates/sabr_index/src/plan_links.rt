//! The links of a plan.

ghost use Rattle.std.specs.Prelude.{◌<◌, ◌^◌, IfOk, length};
ghost use Rattle.sabr_model.specs.plan.Known.{AreEnds};
ghost use Rattle.sabr_model.specs.plan.Tabled.{IsTabled};
ghost use Rattle.sabr_index.specs.Index.{AreLinksOfPlan};

use crate::building::link_nodes;
use crate::incoming::incoming_links;
use crate::order::order_of_contacts;
use crate::senders::Incoming;
use crate::table::LinkTable;
use sabr_model::{Grouped, Known, NoMemory, Plan};
use std::alloc::{Allocator, Global};

/// The links of a plan. The owner of a plan can store them beside it, and lend them to each index of it, as long as the
/// plan stays the same.
#[derive(Drop)]
pub struct PlanLinks<A: Allocator + Copy = Global> {
    /// By node its links.
    pub linked: LinkTable<A>,
    /// By node the links to it.
    pub incoming: Grouped<Incoming, A>,
}

/// The links that an index reads.
#[derive(Drop)]
pub enum HeldLinks<'p, A: Allocator + Copy = Global> {
    /// Its own.
    Owned(PlanLinks<A>),
    /// Those that the owner of the plan lends.
    Borrowed(&'p PlanLinks<A>),
}

impl<A: Allocator + Copy> PlanLinks<A> {
    /// Makes the links of a plan.
    ///
    /// It takes some steps for each contact and node, and a binary search or two of the ranges for each contact whose
    /// light time the plan doesn't keep. If the contacts of a link weren't added in order of their starts, it sorts
    /// them.
    ///
    /// # Errors
    ///
    /// [`NoMemory`] if an allocation failed.
    pub fn new(alloc: A, plan: &Plan<A>) -> Result<PlanLinks<A>, NoMemory>
        ensures { IfOk result (AreLinksOfPlan plan.now) }
    {
        plan.nodes();
        PlanLinks::with_ends(alloc, plan, plan.known())
    }

    /// Makes the links of a plan whose contacts have these ends.
    fn with_ends(alloc: A, plan: &Plan<A>, ends: &[Known]) -> Result<PlanLinks<A>, NoMemory>
        requires tabled { IsTabled plan.now }
        requires few { length plan.now.table < 2 ^ 16 }
        requires ends { AreEnds plan.now.table plan.now.plan.contacts ends.now }
        ensures { IfOk result (AreLinksOfPlan plan.now) }
    {
        let order = order_of_contacts(alloc, plan, ends)?;
        let linked = link_nodes(alloc, plan, order)?;
        let incoming = incoming_links(alloc, &linked)?;
        Ok(PlanLinks { linked, incoming })
    }
}
