//! Dividing a part by the route that it carries: the number that it then excludes, and all searches.

ghost use Rattle.std.specs.Prelude.{◌≡◌, ◌+◌, ◌-◌, ◌≤◌, ◌<◌, ◌++◌, ◌∷◌, [], None, Some, List, take, drop, length, slice_index, vec_len, vec_capacity, ℕ, IfOk, OnOk, OnErr, IsTrue, IsFalse};
ghost use Rattle.sabr_model.specs.plan.Plan.{IsPlan};
ghost use Rattle.sabr_model.specs.routes.Record.{RouteRecord};
ghost use Rattle.sabr_model.specs.routes.Route.{is_route};
ghost use Rattle.sabr_frontier.specs.declared.tree.Node.{Node};
ghost use Rattle.sabr_frontier.specs.tree.Searching.{best_for};
ghost use Rattle.sabr_frontier.specs.tree.Undo.{modify, including};
ghost use Rattle.sabr_frontier.specs.tree.Giving.{OfNode, fresh_after, fresh_nodes, wide_of};
ghost use Rattle.sabr_frontier.specs.tree.Sound.{CanExclude};
ghost use Rattle.sabr_frontier.specs.tree.PageTrees.{AreFound, IsBestWhere, excluding};
ghost use Rattle.sabr_search.specs.questions.Bounded.{IsFloor};

use crate::giving::searcher::Searcher;
use crate::tree::change::carry;
use crate::tree::excluded_numbers::ExcludedNumbers;
use crate::tree::{Node, NodeId};
use sabr_model::{NoMemory, Route};
use sabr_search::{BestOf, Bound};
use std::alloc::Allocator;
use std::slice;

/// The contact numbers of a route.
pub fn numbers<A: Allocator + Copy>(route: &Route<A>) -> &[u32]
    ensures { result.now ≡ route.now.contacts }
{
    route.contacts.as_slice()
}

/// What is known of a route that is given, and of those that come after it.
#[derive(Clone, Copy)]
pub struct Given {
    /// The leaf that it is then.
    pub leaf: usize,
    /// A second before which no route of the part that carried it delivers.
    pub floor: u64,
    /// The bound of the searches for the new parts' routes, if they have one.
    pub bound: Option<Bound>,
    /// How many routes after it are needed. None if all are.
    pub needed: Option<usize>,
}

/// What dividing a part found.
#[derive(Drop)]
pub struct Division<A: Allocator + Copy> {
    /// The route that the part's node carries then, if it has one.
    pub route: Option<Route<A>>,
    /// The searches that it took.
    pub searches: u64,
}

/// Finds the best route that begins with the first `count` numbers of a route and takes another number next. None
/// that goes on after these delivers before the second `floor`.
#[tactic(auto, using(crate::proofs::ListingLemmas::AllRoutes::beginning_fits, crate::proofs::TreeLemmas::Floors::floor_one))]
pub fn find_best_after<B: BestOf<A>, A: Allocator + Copy>(
    searcher: &mut Searcher<'_, B, A>,
    route: &[u32],
    count: usize,
    floor: u64,
    bound: Option<Bound>,
) -> Result<Option<Route<A>>, NoMemory>
    requires floor { IsFloor searcher.old.asked.plan.plan searcher.old.asked.request (take count route.now) [] floor }
    requires route { IsTrue (is_route searcher.old.asked.plan.plan searcher.old.asked.request route.now) }
    requires longer { count < length route.now }
    ensures best { IfOk result (λ found. found ≡ best_for searcher.old.asked bound (take count route.now) (slice_index route.now count ∷ [])) }
    ensures called { searcher.new.calls.count ≡ searcher.old.calls.count + 1 }
    ensures same { searcher.new.asked ≡ searcher.old.asked }
{
    searcher.find_best(
        &route[..count],
        slice::from_ref(&route[count]),
        floor,
        bound,
    )
}

/// Adds the nodes of a leaf for the beginnings of a route from `first` numbers on, for which there is room. They carry
/// no route yet.
#[tactic(auto, using(crate::proofs::TreeLemmas::ListFronts::fresh_push, crate::proofs::TreeLemmas::ListFronts::fresh_all))]
fn add_nodes<A: Allocator + Copy>(
    alloc: A,
    nodes: &mut Vec<Node<A>, A>,
    route: &[u32],
    leaf: usize,
    first: usize,
)
    requires within { first ≤ length route.now }
    requires room { vec_len nodes.old + length route.now ≤ vec_capacity nodes.old + first }
    ensures { nodes.new.items ≡ nodes.old.items ++ fresh_nodes (λ _ _. None) leaf (take first route.now) (drop first route.now) }
{
    for count in first..route.len() {
        nodes.push_reserved(Node {
            leaf,
            length: count,
            excluded: ExcludedNumbers::one(alloc, route[count]),
            route: None,
        });
    }
}

/// 1 if a route was found that is delivered at this second with so many hops, and else 0.
fn count_tie<A: Allocator + Copy>(found: &Option<Route<A>>, delivery: u64, hops: usize) -> usize
    ensures most { result ≤ 1 }
    ensures tie { result ≡ 1 → (y : RouteRecord) × (found.now ≡ Some y) × (y.delivery ≡ delivery) × (length y.contacts ≡ hops) }
{
    match found {
        Some(route) if route.delivery == delivery && numbers(route).len() == hops => 1,
        _ => 0,
    }
}

/// Whether more routes than these are needed.
fn needs_more(needed: Option<usize>, found: usize) -> bool
    ensures no { IsFalse result → (k : ℕ) × (needed ≡ Some k) × (k ≤ found) }
{
    match needed {
        Some(count) => found < count,
        None => true,
    }
}

/// Adds the nodes of a leaf for the beginnings of a route from `first` numbers on, for which there is room, and finds
/// their routes, those of the longest beginnings first. Returns how many searches that took.
///
/// **It ends early** where only some routes are needed and as many ties were found: routes that are delivered with the
/// given one, with as many hops. The route of a shorter beginning comes after each of them: it comes after the given
/// one, and if it ties, too, it has a greater number where those still have the given one's.
fn fresh_nodes<B: BestOf<A>, A: Allocator + Copy>(
    searcher: &mut Searcher<'_, B, A>,
    nodes: &mut Vec<Node<A>, A>,
    route: &[u32],
    given: Given,
    first: usize,
) -> Result<u64, NoMemory>
    requires plan { IsPlan searcher.old.asked.plan.plan }
    requires route { IsTrue (is_route searcher.old.asked.plan.plan searcher.old.asked.request route.now) }
    requires floor { IsFloor searcher.old.asked.plan.plan searcher.old.asked.request (take first route.now) [] given.floor }
    requires best { IsBestWhere given.needed searcher.old.asked.plan.plan searcher.old.asked.request (take first route.now) [] route.now given.floor }
    requires within { first ≤ length route.now }
    requires room { vec_len nodes.old + length route.now ≤ vec_capacity nodes.old + first }

    // It adds a node for each number left, by at most a search each.
    ensures nodes { IfOk result (λ n. (new : List (Node A)) × (nodes.new.items ≡ nodes.old.items ++ new) × AreFound given.needed (length route.now - first) (fresh_nodes (best_for searcher.old.asked given.bound) given.leaf (take first route.now) (drop first route.now)) new n) }
    ensures called { IfOk result (λ n. searcher.new.calls.count ≡ searcher.old.calls.count + n) }

    // If an allocation failed, some of the searches were taken, and some of the nodes may stay.
    ensures no_fewer { OnErr result (searcher.old.calls.count ≤ searcher.new.calls.count) }
    ensures at_most { OnErr result (searcher.new.calls.count + first ≤ searcher.old.calls.count + length route.now) }

    // The question and the former nodes stay.
    ensures same { searcher.new.asked ≡ searcher.old.asked }
    ensures front { take (length nodes.old.items) nodes.new.items ≡ nodes.old.items }
{
    add_nodes(searcher.alloc(), nodes, route, given.leaf, first);
    let end = nodes.len();
    let mut ties = 0;
    let mut count = route.len();
    while first < count && needs_more(given.needed, ties) {
        count -= 1;
        let found = find_best_after(searcher, route, count, given.floor, given.bound)?;
        ties += count_tie(&found, given.floor, route.len());
        carry(nodes, NodeId(end - (route.len() - count)), found);
    }
    Ok((route.len() - count) as u64)
}

/// Excludes the number that a route takes after the node's prefix, or changes nothing if an allocation failed.
#[tactic(auto, using(crate::proofs::TreeLemmas::ModifiedPlaces::get_there))]
fn exclude_next<A: Allocator + Copy>(
    nodes: &mut Vec<Node<A>, A>,
    node: NodeId,
    route: &[u32],
) -> Result<(), NoMemory>
    requires in_range { node.0 < vec_len nodes.old }
    requires next { OfNode nodes.old.items node (λ n. CanExclude n route.now) }
    ensures ok { OnOk result (nodes.new.items ≡ modify (excluding route.now) nodes.old.items node.0) }
    ensures err { OnErr result (nodes.new.items ≡ nodes.old.items) }
    ensures len { vec_len nodes.new ≡ vec_len nodes.old }
    ensures capacity { vec_capacity nodes.new ≡ vec_capacity nodes.old }
{
    let part = &mut nodes[node.0];
    let number = route[part.length];
    part.excluded.put(number)?;
    Ok(())
}

/// Divides the part of a node by a route of it, which is then a leaf: the node excludes one number more, and the new
/// parts come after the others, for which there is room. It takes one search for the node itself, and one for each new
/// part, or fewer where only some routes are needed.
#[tactic(auto, using(crate::proofs::ListingLemmas::AllRoutes::beginning_fits, crate::proofs::TreeLemmas::ModifiedPlaces::get_there, crate::proofs::TreeLemmas::ListFronts::increasing))]
pub fn divide<B: BestOf<A>, A: Allocator + Copy>(
    searcher: &mut Searcher<'_, B, A>,
    nodes: &mut Vec<Node<A>, A>,
    node: NodeId,
    route: &[u32],
    given: Given,
) -> Result<Division<A>, NoMemory>
    requires in_range { node.0 < vec_len nodes.old }
    requires plan { IsPlan searcher.old.asked.plan.plan }
    requires route { IsTrue (is_route searcher.old.asked.plan.plan searcher.old.asked.request route.now) }
    requires next { OfNode nodes.old.items node (λ n. CanExclude n route.now) }
    requires floor { OfNode nodes.old.items node (λ n. IsFloor searcher.old.asked.plan.plan searcher.old.asked.request (take n.length route.now) n.excluded given.floor) }
    requires best { OfNode nodes.old.items node (λ n. IsBestWhere given.needed searcher.old.asked.plan.plan searcher.old.asked.request (take n.length route.now) n.excluded route.now given.floor) }
    requires room { vec_len nodes.old + length route.now ≤ vec_capacity nodes.old }

    // It finds what the node carries, and changes and adds nodes, by at most a search each.
    ensures found { IfOk result (λ d. OfNode nodes.old.items node (λ n. d.route ≡ best_for searcher.old.asked given.bound (take n.length route.now) (wide_of n route.now))) }
    ensures ok { IfOk result (λ d. OfNode nodes.old.items node (λ n. (new : List (Node A)) × (nodes.new.items ≡ modify (excluding route.now) nodes.old.items node.0 ++ new) × AreFound given.needed (length route.now - n.length) (fresh_after (best_for searcher.old.asked given.bound) given.leaf n route.now) new d.searches)) }
    ensures called { IfOk result (λ d. searcher.new.calls.count ≡ searcher.old.calls.count + d.searches) }

    // If an allocation failed, some of the searches were taken. Once the new nodes are cut off and the number is no
    // longer excluded, the nodes are as they were.
    ensures no_fewer { OnErr result (searcher.old.calls.count ≤ searcher.new.calls.count) }
    ensures at_most { OnErr result (OfNode nodes.old.items node (λ n. searcher.new.calls.count + n.length ≤ searcher.old.calls.count + length route.now)) }
    ensures err { OnErr result (modify (including route.now) (take (length nodes.old.items) nodes.new.items) node.0 ≡ nodes.old.items) }

    // The question stays.
    ensures same { searcher.new.asked ≡ searcher.old.asked }
{
    exclude_next(nodes, node, route)?;
    let part = &nodes[node.0];
    let count = part.length;
    let found = searcher.find_best(
        &route[..count],
        part.excluded.as_slice(),
        given.floor,
        given.bound,
    )?;
    let searches = fresh_nodes(searcher, nodes, route, given, count + 1)?;
    Ok(Division {
        route: found,
        searches: searches + 1,
    })
}
