//! The arrivals of a search forward: for each node, the second that an arrival there has to beat at first, and what is
//! news later; and where the first steps come to, and when.

ghost use Rattle.std.specs.Prelude.{◌≡◌, ◌⊎◌, ℕ, ◌+◌, ◌-◌, ◌^◌, ◌≤◌, ◌<◌, min, Some, OnOk, true, false, length, slice_get, slice_index, slice_index_or};
ghost use Rattle.sabr_search.specs.questions.Task.{IsTask, never};
ghost use Rattle.sabr_search.specs.layers.Lists.{AreOpened};
ghost use Rattle.sabr_search.specs.layers.Settling.{AreReal};
ghost use Rattle.sabr_search.specs.questions.FirstSteps.{AreFirstSteps};
ghost use Rattle.sabr_search.specs.questions.Linked.{degree};
ghost use Rattle.sabr_search.specs.questions.Stops.{StopsOnlyIf};

use crate::stopped::Stopped;
use crate::task::Task;
use crate::visit::{NEVER, Visit, seconds_of};
use sabr_index::Looks;
use sabr_model::NoMemory;
use std::alloc::Allocator;

/// Makes a list with the first second that is too late at each node, as far as the list `deadline` goes.
fn too_late<A: Allocator + Copy>(
    arrival: &mut Vec<u64, A>,
    count: usize,
    deadline: &[u64],
) -> Result<(), NoMemory>
    ensures many { OnOk result (length arrival.new.items ≡ count) }
    ensures filled { OnOk result ((k : ℕ) → k < count → slice_index arrival.new.items k ≡ slice_index_or deadline.now k never) }
{
    arrival.clear();
    arrival.extend_from_slice(deadline)?;
    arrival.resize(count, NEVER)?;
    Ok(())
}

/// Sets the arrival of a forbidden node to 0, which no arrival beats.
fn close_arrival<A: Allocator + Copy>(arrival: &mut Vec<u64, A>, forbidden: &[bool], node: usize)
    requires { length arrival.old.items ≡ length forbidden.now }
    ensures many { length arrival.new.items ≡ length arrival.old.items }
    ensures others { (k : ℕ) → slice_index_or forbidden.now k false ≡ false → slice_index arrival.new.items k ≡ slice_index arrival.old.items k }
    ensures falls { (k : ℕ) → slice_index arrival.new.items k ≤ slice_index arrival.old.items k }
    ensures zero { slice_index_or forbidden.now node false ≡ true → slice_index arrival.new.items node ≡ 0 }
{
    if node < forbidden.len() && forbidden[node] {
        arrival[node] = 0;
    }
}

/// Fills the list of arrivals: 0 for a forbidden node, which no arrival beats, and for each other node the first second
/// that is too late there. The start has the second at which the search starts.
pub fn initial_arrivals<A: Allocator + Copy>(
    arrival: &mut Vec<u64, A>,
    task: &Task<'_, A>,
    deadline: &[u64],
) -> Result<(), NoMemory>
    requires { IsTask task.now }
    ensures { OnOk result (AreOpened task.now deadline.now arrival.new.items) }
{
    let forbidden = task.forbidden();
    too_late(arrival, forbidden.len(), deadline)?;
    let nodes = task.forbidden_nodes();
    for place in 0..nodes.len() {
        close_arrival(arrival, forbidden, nodes[place] as usize);
    }
    arrival[task.start()] = task.at();
    Ok(())
}

/// Returns the second before which an arrival at a node is news: the known arrival, or `delivery` less the lower bound
/// on the rest, if that is sooner. From the latter on, no way delivers before `delivery`. At the goal, which has no
/// arrival before `delivery`, only the latter counts. The list of costs may be empty.
#[inline(always)]
pub fn news_before(arrival: &[u64], costs: &[u64], node: usize, delivery: u64) -> u64
    requires { node < length arrival.now }
    ensures { result ≡ min (delivery - slice_index costs.now node) (slice_index arrival.now node) }
{
    delivery
        .saturating_sub(seconds_of(costs, node))
        .min(arrival[node])
}

/// Adds a node and when it is reached, if it is reached at all.
fn put_step<A: Allocator + Copy>(first: &mut Vec<Visit, A>, step: Visit) -> Result<(), NoMemory>
    ensures stay { OnOk result ((k : ℕ) (s : Visit) → slice_get first.old.items k ≡ Some s → slice_get first.new.items k ≡ Some s) }
    ensures put { OnOk result (step.at < never → (k : ℕ) × (slice_get first.new.items k ≡ Some step)) }
    ensures only { OnOk result ((k : ℕ) (s : Visit) → slice_get first.new.items k ≡ Some s → (slice_get first.old.items k ≡ Some s) ⊎ ((step ≡ s) × (step.at < never))) }
{
    if step.at == NEVER {
        return Ok(());
    }
    first.push(step)?;
    Ok(())
}

impl<'a, A: Allocator + Copy> Task<'a, A> {
    /// Gathers where the first steps come to, and when.
    pub fn first_steps(&self, looks: &mut Looks, first: &mut Vec<Visit, A>) -> Result<(), Stopped>
        requires task { IsTask self.now }
        ensures counted { looks.old.left ≤ looks.new.left + degree self.now self.now.start }
        ensures stops { StopsOnlyIf result (looks.old.left < degree self.now self.now.start) }
        ensures real { OnOk result (AreReal self.now first.new.items) }
        ensures all { OnOk result (AreFirstSteps self.now first.new.items) }
    {
        let from = self.beginning();
        first.clear();
        let links = self.links(from.node);
        for place in 0..links.links.len() {
            let link = self.link(links, from.node, place);
            if link.passes.len() as u64 > looks.left() {
                return Err(Stopped::NoLooks);
            }
            if self.forbidden()[link.to] {
                continue;
            }
            let at = self.arrive_over(looks, link, from.at, NEVER);
            put_step(first, Visit { node: link.to, at })?;
        }
        Ok(())
    }
}
