//! The nodes that no route of a request goes on to: the source, and those to avoid.

ghost use Rattle.std.specs.Prelude.{◌≡◌, ℕ, [], OnOk, false, length, slice_index_or};
ghost use Rattle.sabr_model.specs.plan.Plan.{has};
ghost use Rattle.sabr_search.specs.questions.Task.{HasNodes, is_forbidden};
ghost use Rattle.sabr_search.specs.questions.PrefixPath.{AreForbidden};

use crate::prefix_path::forbidden_nodes::ForbiddenNodes;
use sabr_index::CountedPlan;
use sabr_model::{NoMemory, Request};
use std::alloc::Allocator;

/// Forbids the source and the nodes to avoid. All are open before.
pub fn forbid_source_and_avoided<A: Allocator + Copy>(
    forbidden: &mut ForbiddenNodes<A>,
    plan: &CountedPlan<'_, A>,
    request: &Request,
) -> Result<(), NoMemory>
    requires nodes { HasNodes plan.now.plan plan.now.table }
    requires many { length forbidden.old ≡ length plan.now.table }
    requires none { (k : ℕ) → slice_index_or forbidden.old k false ≡ false }
    ensures { OnOk result (AreForbidden plan.now.table forbidden.new (is_forbidden plan.now.plan request.now [])) }
{
    for node in request.avoided() {
        if let Some(index) = plan.node_index(*node) {
            forbidden.put(index)?;
        }
    }
    let Some(source) = plan.node_index(request.from()) else {
        return Ok(());
    };
    forbidden.put(source)?;
    Ok(())
}
