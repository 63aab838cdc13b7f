//! How the links of each node are built. The passes of a node to one receiver are side by side, and are one link.

ghost use Rattle.std.specs.Prelude.{◌≡◌, ◌<◌, ◌^◌, All, IfOk, OnOk, MatchOption, length, ◌≤◌, ◌++◌, ℕ, List, IsPermutation, map, slice_index_or};
ghost use Rattle.sabr_index.specs.Linking.{AreByNode, number_at, numbers_at, HasNoLight, IsPassOfNumber, ArePassesMore, AreLinked, IsBounded, contact_of, AreRows, IsPartMore};
ghost use Rattle.sabr_index.specs.Links.{links_in};
ghost use Rattle.sabr_index.specs.declared.link.Link.{Link};
ghost use Rattle.sabr_index.specs.declared.link.Pass.{Pass};

use crate::bounds::order_row;
use crate::link::{Link, Pass};
use crate::table::{LinkTable, NodePart};
use sabr_model::{Grouped, Plan};
use std::alloc::{AllocError, Allocator};

/// Makes the links of each node of the table.
pub fn link_nodes<A: Allocator + Copy>(
    alloc: A,
    plan: &Plan<A>,
    order: Grouped<u16, A>,
) -> Result<LinkTable<A>, AllocError>
    requires { AreByNode plan.now.plan plan.now.table order.starts.items order.items.items }
    ensures linked { IfOk result (λ t. AreLinked plan.now t) }
    ensures as_many { IfOk result (λ t. length t ≡ length plan.now.table) }
    ensures few { IfOk result (λ t. links_in t < 2 ^ 16) }
{
    let count = plan.nodes();
    let mut nodes = Vec::with_capacity(alloc, count)?;
    let mut links = Vec::with_capacity(alloc, order.items.len())?;
    let mut passes = Vec::with_capacity(alloc, order.items.len())?;
    for index in 0..count {
        let node = add_node(plan, order.of(index), &mut links, &mut passes)?;
        nodes.push(node)?;
    }
    Ok(LinkTable::of_parts(nodes, links, passes))
}

/// Adds the links over the contacts at these places, which one node sends. Returns where they lie.
fn add_node<A: Allocator + Copy>(
    plan: &Plan<A>,
    places: &[u16],
    links: &mut Vec<Link, A>,
    passes: &mut Vec<Pass, A>,
) -> Result<NodePart, AllocError>
    requires there { All (λ q. q < length plan.now.plan.contacts) places.now }
    requires nodes { length plan.now.table < 2 ^ 16 }
    requires few { length places.now < 2 ^ 16 }
    ensures { IfOk result (λ n. IsPartMore plan.now (numbers_at plan.now.plan.contacts places.now) links.old.items links.new.items passes.old.items passes.new.items n) }
{
    let first_link = links.len();
    let first_pass = passes.len();
    push_passes(plan, places, passes)?;
    link_rows(&mut passes[first_pass..], links)?;
    Ok(NodePart {
        first_link,
        end_link: links.len(),
        first_pass,
        end_pass: passes.len(),
    })
}

/// Adds the passes of those contacts at these places that have a light time.
fn push_passes<A: Allocator + Copy>(
    plan: &Plan<A>,
    places: &[u16],
    passes: &mut Vec<Pass, A>,
) -> Result<(), AllocError>
    requires there { All (λ q. q < length plan.now.plan.contacts) places.now }
    requires nodes { length plan.now.table < 2 ^ 16 }
    ensures { OnOk result (ArePassesMore plan.now (numbers_at plan.now.plan.contacts places.now) passes.old.items passes.new.items) }
{
    for place in places {
        if let Some(pass) = pass_of(plan, *place as usize) {
            passes.push(pass)?;
        }
    }
    Ok(())
}

/// Makes the pass of the contact at a place, whose bounds are its own values. `None` if it has no light time.
#[inline(always)]
fn pass_of<A: Allocator + Copy>(plan: &Plan<A>, place: usize) -> Option<Pass>
    requires place { place < length plan.now.plan.contacts }
    requires few { length plan.now.table < 2 ^ 16 }
    ensures { MatchOption result (HasNoLight plan.now (number_at plan.now.plan.contacts place)) (IsPassOfNumber plan.now (number_at plan.now.plan.contacts place)) }
{
    let (number, hop) = plan.hop_at(place);
    let light = hop.light?;
    let receiver = hop.receiver as u16;
    Some(Pass {
        number,
        light,
        start: hop.start,
        end: hop.end,
        latest_end: hop.end,
        least_light_before: light,
        least_light_after: light,
        least_number_after: number,
        receiver,
        next_numbers: 0,
    })
}

/// Adds a link for each row of passes that have one receiver, and puts the row in order.
fn link_rows<A: Allocator + Copy>(
    passes: &mut [Pass],
    links: &mut Vec<Link, A>,
) -> Result<(), AllocError>
    requires few { length passes.old < 2 ^ 16 }
    requires bounded { All IsBounded passes.old }
    ensures moved { OnOk result (IsPermutation (map contact_of passes.old) (map contact_of passes.new)) }
    ensures rows { OnOk result ((rows : List Link) × (links.new.items ≡ links.old.items ++ rows) × AreRows passes.new rows (length passes.new) × (length rows ≤ length passes.new)) }
{
    let mut first = 0;
    while first < passes.len() {
        let receiver = passes[first].receiver;
        let end = end_of_row(passes, first);
        let bounds = order_row(&mut passes[first..end]);
        links.push(Link {
            receiver,
            first: first as u16,
            end: end as u16,
            bounds,
        })?;
        first = end;
    }
    Ok(())
}

/// Returns the place after the row of passes that begins at `first`, which have one receiver.
fn end_of_row(passes: &[Pass], first: usize) -> usize
    requires { first < length passes.now }
    ensures filled { first < result }
    ensures within { result ≤ length passes.now }
    ensures alike { (k : ℕ) (d : Pass) → first ≤ k → k < result → (slice_index_or passes.now k d).receiver ≡ (slice_index_or passes.now first d).receiver }
{
    let receiver = passes[first].receiver;
    let mut end = first + 1;
    while end < passes.len() && passes[end].receiver == receiver {
        end += 1;
    }
    end
}
