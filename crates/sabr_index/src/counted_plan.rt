//! A plan as searches hold it: a contact's record is read for a look.

ghost use Rattle.std.specs.Prelude.{◌≡◌, ◌<◌, ◌≤◌, ◌+◌, ◌^◌, ◌++◌, ◌∷◌, [], ℕ, Some, None, MatchOption, IsFalse, length, slice_get};
ghost use Rattle.sabr_model.specs.plan.Plan.{IsPlan, contact_named, has};
ghost use Rattle.sabr_model.specs.plan.Table.{node_count};
ghost use Rattle.sabr_model.specs.plan.Tabled.{IsTabled, IsHopNamed};
ghost use Rattle.sabr_model.specs.routes.Telling.{summary_of};
ghost use Rattle.sabr_index.specs.Index.{AreLinksOfPlan, held_links};
ghost use Rattle.sabr_index.specs.Links.{AreLinksOf, AreLinksTo};

use crate::link::Links;
use crate::looks::Looks;
use crate::plan_links::{HeldLinks, PlanLinks};
use crate::senders::Senders;
use sabr_model::{Hop, Plan, RouteSummary};
use std::alloc::{Allocator, Global};
use std::marker::Model;

/// What searches read of a plan: for each node the links from it and the links to it, and a contact's record by its
/// number, for a look. Contracts see the plan.
#[derive(Drop)]
pub struct CountedPlan<'p, A: Allocator + Copy = Global> {
    /// The plan.
    plan: &'p Plan<A>,
    /// Its links.
    links: HeldLinks<'p, A>,
}

impl<'p, A: Allocator + Copy> Model for CountedPlan<'p, A> {
    ghost use Rattle.sabr_model.specs.plan.Plan.{TabledPlan};
    ghost use Rattle.sabr_index.specs.Index.{AreLinksOfPlan, held_links};

    ghost Value = { TabledPlan };

    ghost view = { λ i. i.plan.now };

    ghost invariant = { λ i. AreLinksOfPlan i.plan.now (held_links i.links) };
}

/// What one look at a contact returns, if a list of contacts goes on by it: the contact as a search reads it, unless the
/// plan doesn't have it, and the summary of the longer list.
#[derive(Clone, Copy)]
pub struct Followed {
    pub hop: Option<Hop>,
    pub summary: RouteSummary,
}

impl<'p, A: Allocator + Copy> CountedPlan<'p, A> {
    /// Joins a plan and its links.
    pub(crate) fn over(plan: &'p Plan<A>, links: HeldLinks<'p, A>) -> CountedPlan<'p, A>
        requires { AreLinksOfPlan plan.now (held_links links) }
        ensures { result ≡ plan.now }
    {
        CountedPlan { plan, links }
    }

    /// The plan's links.
    #[inline(always)]
    fn plan_links(&self) -> &PlanLinks<A>
        ensures { AreLinksOfPlan self.now result.now }
    {
        match &self.links {
            HeldLinks::Owned(links) => links,
            HeldLinks::Borrowed(links) => links,
        }
    }

    /// The plan.
    pub(crate) fn plan(&self) -> &'p Plan<A>
        ensures { result.now ≡ self.now }
    {
        self.plan
    }

    /// States that the plan obeys the rules of contact plans, for contracts. It does nothing.
    pub fn rules_hold(&self)
        ensures { IsPlan self.now.plan }
    {
        self.plan.rules_hold();
    }

    /// The number of standing contacts.
    pub fn contacts(&self) -> u64
        ensures value { result ≡ length self.now.plan.contacts }
        ensures limit { result ≤ 2 ^ 60 }
    {
        self.plan.contacts().len() as u64
    }

    /// The number of nodes that send or receive some standing contact.
    pub fn nodes(&self) -> usize
        ensures value { result ≡ node_count self.now.plan.contacts }
        ensures table { result ≡ length self.now.table }
        ensures tabled { IsTabled self.now }
    {
        self.plan.nodes()
    }

    /// Returns the index of a node that sends or receives some standing contact.
    pub fn node_index(&self, node: u64) -> Option<usize>
        ensures { MatchOption result (IsFalse (has node self.now.table)) (λ k. slice_get self.now.table k ≡ Some node) }
    {
        self.plan.node_index(node)
    }

    /// Returns the standing contact with this number, as a search reads it: one look.
    #[inline(always)]
    pub fn hop(&self, looks: &mut Looks, number: u32) -> Option<Hop>
        requires few { 0 < looks.old.left }
        ensures counted { looks.old.left ≡ looks.new.left + 1 }
        ensures value { MatchOption result (contact_named self.now.plan number ≡ None) (IsHopNamed self.now number) }
    {
        looks.take();
        self.plan.hop(number)
    }

    /// The summary of no contacts.
    pub fn summary_of_none(&self) -> RouteSummary
        ensures { result ≡ summary_of self.now.plan [] }
    {
        RouteSummary::of(self.plan, &[])
    }

    /// Goes on by a contact, after a list of contacts with this summary: one look.
    #[inline(always)]
    pub fn follow(
        &self,
        looks: &mut Looks,
        summary: RouteSummary,
        prefix: &[u32],
        number: u32,
    ) -> Followed
        requires few { 0 < looks.old.left }
        requires summary { summary ≡ summary_of self.now.plan prefix.now }
        ensures counted { looks.old.left ≡ looks.new.left + 1 }
        ensures hop { MatchOption result.hop (contact_named self.now.plan number ≡ None) (IsHopNamed self.now number) }
        ensures summary { result.summary ≡ summary_of self.now.plan (prefix.now ++ number ∷ []) }
    {
        looks.take();
        Followed {
            hop: self.plan.hop(number),
            summary: summary.extended(self.plan, prefix, number),
        }
    }

    /// Returns the summary of a list of contacts that goes on by one more: one look.
    #[inline(always)]
    pub fn summarize(
        &self,
        looks: &mut Looks,
        summary: RouteSummary,
        prefix: &[u32],
        number: u32,
    ) -> RouteSummary
        requires few { 0 < looks.old.left }
        requires summary { summary ≡ summary_of self.now.plan prefix.now }
        ensures counted { looks.old.left ≡ looks.new.left + 1 }
        ensures summary { result ≡ summary_of self.now.plan (prefix.now ++ number ∷ []) }
    {
        looks.take();
        summary.extended(self.plan, prefix, number)
    }

    /// The links of the node at an index of the table.
    pub fn links(&self, index: usize) -> Links<'_>
        requires { index < length self.now.table }
        ensures { (node : ℕ) → slice_get self.now.table index ≡ Some node → AreLinksOf self.now node result.links.now result.passes.now }
    {
        self.plan_links().linked.of(index)
    }

    /// The links to the node at an index of the table, each with its sender.
    pub fn senders(&self, index: usize) -> Senders<'_, A>
        requires { index < length self.now.table }
        ensures { (node : ℕ) → slice_get self.now.table index ≡ Some node → AreLinksTo self.now node result }
    {
        let links = self.plan_links();
        Senders::over(links.incoming.of(index), &links.linked)
    }
}
