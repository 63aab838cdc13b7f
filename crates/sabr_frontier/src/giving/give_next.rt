//! Giving the best route that the tree carries.

ghost use Rattle.std.specs.Prelude.{◌≡◌, ◌+◌, ◌≤◌, None, IsTrue, IsFalse, IfOk, OnErr};
ghost use Rattle.sabr_model.specs.plan.Plan.{IsPlan};
ghost use Rattle.sabr_frontier.specs.listing.Listing.{searches_in};
ghost use Rattle.sabr_frontier.specs.tree.Searching.{best_for};
ghost use Rattle.sabr_frontier.specs.tree.Shape.{shape_of, shown};
ghost use Rattle.sabr_frontier.specs.tree.Undo.{IsRoomy};
ghost use Rattle.sabr_frontier.specs.tree.PageTrees.{IsNextGiven};
ghost use Rattle.sabr_frontier.specs.tree.Sound.{IsTree};
ghost use Rattle.sabr_frontier.specs.tree.Winners.{CarriesSome};

use crate::giving::divide::{Given, divide, numbers};
use crate::giving::searcher::Searcher;
use crate::tree::change::carry;
use crate::tree::prefixes::carried;
use crate::tree::undo::give_back;
use crate::tree::{NodeId, Tree};
use sabr_model::{NoMemory, Route};
use sabr_search::{BestOf, Bound};
use std::alloc::Allocator;

/// What giving a route changed.
#[derive(Clone, Copy)]
pub struct GivenRoute {
    /// The node that carried the route.
    pub node: NodeId,
    /// The first of the nodes that it made.
    pub first: usize,
    /// The searches that it took.
    pub searches: u64,
}

impl<A: Allocator + Copy> Tree<A> {
    /// Returns a second before which no route of the part that carries `route` delivers. If a search found `route`, it
    /// is the best of that part, and the second is its delivery. Otherwise no such second is known, and 0 is returned.
    pub fn floor_of(&self, route: &Route<A>) -> u64
        ensures yes { IsTrue self.now.is_searched → result ≡ route.now.delivery }
        ensures no { IsFalse self.now.is_searched → result ≡ 0 }
    {
        if self.is_searched {
            return route.delivery;
        }
        0
    }

    /// How many routes are to be found in place of all, if so many are needed. Only a route that a search found is known
    /// to be the best of its part, so that others are known to come after it; else all are to be found.
    pub fn needed_of(&self, needed: Option<usize>) -> Option<usize>
        ensures yes { IsTrue self.now.is_searched → result ≡ needed }
        ensures no { IsFalse self.now.is_searched → result ≡ None }
    {
        if self.is_searched {
            return needed;
        }
        None
    }

    /// Gives the best route that a node carries: it moves to the leaves. Room for all is reserved first. Then come the
    /// searches, and one that fails leaves the tree as it was. The new parts carry no route above the bound, where there
    /// is one, and needn't carry one that comes after as many as are needed, where only some are.
    pub fn give_next<B: BestOf<A>>(
        &mut self,
        searcher: &mut Searcher<'_, B, A>,
        bound: Option<Bound>,
        needed: Option<usize>,
    ) -> Result<GivenRoute, NoMemory>
        requires plan { IsPlan searcher.old.asked.plan.plan }
        requires tree { IsTree searcher.old.asked.plan.plan searcher.old.asked.request (shape_of self.old) }
        requires waiting { CarriesSome self.old.nodes.items }
        requires room { IsRoomy self.old }

        // The route is given.
        ensures ok { IfOk result (IsNextGiven (best_for searcher.old.asked bound) needed (shape_of self.old) (shape_of self.new)) }
        ensures called { IfOk result (λ given. searcher.new.calls.count ≡ searcher.old.calls.count + given.searches) }

        // If an allocation failed, it took no more searches, and the tree is as it was.
        ensures no_fewer { OnErr result (searcher.old.calls.count ≤ searcher.new.calls.count) }
        ensures at_most { OnErr result (searcher.new.calls.count ≤ searcher.old.calls.count + searches_in searcher.old.asked.plan.plan searcher.old.asked.request 1 (shown (shape_of self.old))) }
        ensures err { OnErr result (shape_of self.new ≡ shape_of self.old) }

        // The index and the question stay, and there is room for what comes.
        ensures index { self.new.index.items ≡ self.old.index.items }
        ensures same { searcher.new.asked ≡ searcher.old.asked }
        ensures room { IsRoomy self.new }
    {
        let Some(node) = self.best_node() else {
            unreachable!()
        };
        let Some(next) = carried(self.nodes.as_slice(), node) else {
            unreachable!()
        };
        let hops = numbers(next).len();
        self.reserve(hops)?;
        let Some(route) = carry(&mut self.nodes, node, None) else {
            unreachable!()
        };
        let first = self.nodes.len();
        let given = Given {
            leaf: self.leaves.len(),
            floor: self.floor_of(&route),
            bound,
            needed: self.needed_of(needed),
        };
        match divide(searcher, &mut self.nodes, node, numbers(&route), given) {
            Ok(division) => {
                self.change(node, division.route, route);
                Ok(GivenRoute {
                    node,
                    first,
                    searches: division.searches,
                })
            }
            Err(refused) => {
                self.nodes.truncate(first);
                give_back(&mut self.nodes, node, route);
                Err(refused)
            }
        }
    }
}
