//! The node with the best route, found as in a tournament: slot `k` names the winner among node `k` and the winners of
//! slots `2k + 1` and `2k + 2`.
//!
//! **Order.** Of two routes the lesser one wins: by delivery, then by number of hops, then by contact numbers. A node
//! that carries a route wins over one that carries none.
//!
//! **Cost**, for n nodes: the best node is in slot 0. A new node takes at most log2 n comparisons, a changed one at most
//! two for each level above it, and all of them n log2 n. Nothing allocates. In a binary heap, nodes change their places;
//! here they keep them, so that a route can be taken back.

ghost use Rattle.std.specs.Prelude.{◌≡◌, ◌+◌, ◌<◌, ◌≤◌, length, vec_len, vec_capacity};
ghost use Rattle.sabr_frontier.specs.tree.Shape.{route_at};
ghost use Rattle.sabr_frontier.specs.tree.Winners.{AreOthersWinners, AreWinners, IsLesser, IsSiftedUp, IsWinner, is_lesser};

use crate::tree::prefixes::carried;
use crate::tree::{Node, NodeId};
use std::alloc::Allocator;
use std::cmp::Ordering;

/// Whether a node carries a lesser route than another, or the other carries none.
fn is_lesser<A: Allocator + Copy>(nodes: &[Node<A>], id: NodeId, other: NodeId) -> bool
    ensures { result ≡ is_lesser (route_at nodes.now id) (route_at nodes.now other) }
{
    let Some(route) = carried(nodes, id) else {
        return false;
    };
    match carried(nodes, other) {
        Some(carried) => route.cmp(carried) == Ordering::Less,
        None => true,
    }
}

/// The node of two that carries the lesser route.
fn lesser<A: Allocator + Copy>(nodes: &[Node<A>], id: NodeId, other: NodeId) -> NodeId
    ensures { IsLesser nodes.now id other result }
{
    if is_lesser(nodes, other, id) {
        return other;
    }
    id
}

/// The winner of a slot among its own node and the winners of the two slots below it.
fn winner<A: Allocator + Copy>(nodes: &[Node<A>], ids: &[NodeId], slot: usize) -> NodeId
    requires { slot < length ids.now }
    ensures { IsWinner nodes.now ids.now slot result }
{
    if slot >= ids.len() / 2 {
        return NodeId(slot);
    }
    let left = lesser(nodes, NodeId(slot), ids[slot * 2 + 1]);
    if slot * 2 + 2 >= ids.len() {
        return left;
    }
    lesser(nodes, left, ids[slot * 2 + 2])
}

/// Finds the winners of a slot and of those above it.
pub fn replay_up<A: Allocator + Copy>(nodes: &[Node<A>], ids: &mut [NodeId], slot: usize)
    requires within { slot < length ids.old }
    requires others { AreOthersWinners nodes.now ids.old slot (slot + 1) }
    ensures won { AreWinners nodes.now ids.new }
    ensures len { length ids.new ≡ length ids.old }
{
    let mut end = slot + 1;
    while 0 < end {
        ids[end - 1] = winner(nodes, ids, end - 1);
        end /= 2;
    }
}

/// Moves a node up from its own slot: it wins each slot above, up to the first whose winner carries no greater route.
fn sift_up<A: Allocator + Copy>(nodes: &[Node<A>], ids: &mut [NodeId], id: NodeId)
    requires { IsSiftedUp nodes.now ids.old id.0 id }
    ensures won { AreWinners nodes.now ids.new }
    ensures len { length ids.new ≡ length ids.old }
{
    let mut slot = id.0;
    while 0 < slot {
        let over = (slot - 1) / 2;
        if !is_lesser(nodes, id, ids[over]) {
            return;
        }
        ids[over] = id;
        slot = over;
    }
}

/// Adds a slot for each node that has none, for which there is room.
pub fn fill<A: Allocator + Copy>(nodes: &[Node<A>], winners: &mut Vec<NodeId, A>)
    requires won { AreWinners nodes.now winners.old.items }
    requires within { vec_len winners.old ≤ length nodes.now }
    requires room { length nodes.now ≤ vec_capacity winners.old }
    ensures won { AreWinners nodes.now winners.new.items }
    ensures len { vec_len winners.new ≡ length nodes.now }
    ensures capacity { vec_capacity winners.old ≤ vec_capacity winners.new }
{
    for place in winners.len()..nodes.len() {
        winners.push_reserved(NodeId(place));
        sift_up(nodes, winners.as_mut_slice(), NodeId(place));
    }
}

/// Finds the winners of all nodes, for which there is room.
pub fn rebuild<A: Allocator + Copy>(nodes: &[Node<A>], winners: &mut Vec<NodeId, A>)
    requires { length nodes.now ≤ vec_capacity winners.old }
    ensures won { AreWinners nodes.now winners.new.items }
    ensures len { vec_len winners.new ≡ length nodes.now }
    ensures capacity { vec_capacity winners.old ≤ vec_capacity winners.new }
{
    winners.clear();
    fill(nodes, winners);
}
