//! Wide questions: they forbid fewer nodes than the question of a part, so that their answers serve other parts, too.

ghost use Rattle.std.specs.Prelude.{IfOk, IfSome, OnOk};
ghost use Rattle.sabr_search.specs.questions.Task.{IsTask, IsOfRequest};
ghost use Rattle.sabr_search.specs.answers.Answers.{narrowed, ForbidsFewer};

use crate::early::answers::NearMiss;
use crate::prefix_path::forbidden_nodes::ForbiddenNodes;
use crate::prefix_path::source_and_avoided::forbid_source_and_avoided;
use crate::question::Question;
use crate::task::Task;
use crate::throttle::Throttle;
use sabr_model::NoMemory;
use std::alloc::{Allocator, Global};

/// This many tries must save the looks that they take, or `PAUSE` go by. With 64 and 1024, 100 routes took 3 percent
/// more instructions on average over the plans of `bench/figures.py`, and relays up to 16 percent more; 1000 routes as
/// many on average, and `walker-24-5000` 9 percent fewer: in a copy of this design in plain Rust.
const TRIES: u32 = 16;

/// This many questions go by before one is tried again.
const PAUSE: u32 = 256;

/// Which nodes a question forbids. `Own`: those of its prefix, and those to avoid. `Wide`: only those that each search
/// from its start forbids. `NearMiss`: those of `Wide`, and those that a near miss needs forbidden.
#[derive(Clone, Copy)]
pub enum Breadth {
    Own,
    Wide,
    NearMiss,
}

/// Wide questions, as long as they save more looks than they take.
#[derive(Drop)]
pub struct WideQuestions<A: Allocator + Copy = Global> {
    /// Whether those are asked without a near miss.
    wide: Throttle,
    /// Whether those are asked after a near miss.
    near: Throttle,
    /// How many questions were searched as they are, and the looks of these searches.
    searched: u64,
    looks: u64,
    /// The nodes that the last one forbids.
    pub forbidden: ForbiddenNodes<A>,
}

/// Forbids the nodes that each search from the start of this one forbids: the source, those to avoid, and the start.
fn forbid_few<A: Allocator + Copy>(
    forbidden: &mut ForbiddenNodes<A>,
    task: &Task<'_, A>,
) -> Result<(), NoMemory>
    requires task { IsTask task.now }
    requires request { IsOfRequest task.now }
    ensures fewer { OnOk result (ForbidsFewer task.now forbidden.new) }
    ensures request { OnOk result (IsOfRequest (narrowed task.now forbidden.new task.now.at)) }
{
    forbidden.reset(task.node_count())?;
    forbid_source_and_avoided(forbidden, task.plan(), task.request())?;
    forbidden.put(task.start())?;
    Ok(())
}

/// Forbids one node more, if it is forbidden in the search.
fn forbid_if_forbidden<A: Allocator + Copy>(
    forbidden: &mut ForbiddenNodes<A>,
    task: &Task<'_, A>,
    node: usize,
) -> Result<(), NoMemory>
    requires task { IsTask task.now }
    requires fewer { ForbidsFewer task.now forbidden.old }
    requires request { IsOfRequest (narrowed task.now forbidden.old task.now.at) }
    ensures fewer { OnOk result (ForbidsFewer task.now forbidden.new) }
    ensures request { OnOk result (IsOfRequest (narrowed task.now forbidden.new task.now.at)) }
{
    let flags = task.forbidden();
    if node < flags.len() && flags[node] {
        forbidden.put(node)?;
    }
    Ok(())
}

/// Forbids the nodes that a near miss needs forbidden, and the one that its way passes.
fn forbid_near<A: Allocator + Copy>(
    forbidden: &mut ForbiddenNodes<A>,
    task: &Task<'_, A>,
    near: NearMiss<'_>,
) -> Result<(), NoMemory>
    requires task { IsTask task.now }
    requires fewer { ForbidsFewer task.now forbidden.old }
    requires request { IsOfRequest (narrowed task.now forbidden.old task.now.at) }
    ensures fewer { OnOk result (ForbidsFewer task.now forbidden.new) }
    ensures request { OnOk result (IsOfRequest (narrowed task.now forbidden.new task.now.at)) }
{
    forbid_if_forbidden(forbidden, task, near.node)?;
    for node in near.forbidden {
        forbid_if_forbidden(forbidden, task, *node as usize)?;
    }
    Ok(())
}

impl<A: Allocator + Copy> WideQuestions<A> {
    /// Has asked no wide question. It doesn't allocate.
    pub fn new(alloc: A) -> WideQuestions<A> {
        WideQuestions {
            wide: Throttle::new(TRIES, 0, PAUSE),
            near: Throttle::new(TRIES, 0, PAUSE),
            searched: 0,
            looks: 0,
            forbidden: ForbiddenNodes::new(alloc),
        }
    }

    /// Returns whether a wide question is to be asked for this one, for which there may be a near miss: it must forbid
    /// fewer nodes, and such questions must save looks.
    fn is_worth(&mut self, near: Option<NearMiss<'_>>, asked: &Question<'_, '_, '_, A>) -> bool {
        if asked.prefix.len() < 2 {
            return false;
        }
        let Some(answer) = near else {
            return self.wide.allows();
        };
        if answer.forbidden.len().saturating_add(1) >= asked.task.forbidden_nodes().len() {
            return false;
        }
        self.near.allows()
    }

    /// Forbids the nodes of the wide question to ask for this one, for which there may be a near miss, and returns
    /// which they are. None if no wide question is to be asked.
    pub fn next(
        &mut self,
        near: Option<NearMiss<'_>>,
        asked: &Question<'_, '_, '_, A>,
    ) -> Result<Option<Breadth>, NoMemory>
        requires task { IsTask asked.now.task.now }
        requires request { IsOfRequest asked.now.task.now }
        ensures fewer { IfOk result (λ o. IfSome o (λ breadth. ForbidsFewer asked.now.task.now self.new.forbidden)) }
        ensures request { IfOk result (λ o. IfSome o (λ breadth. IsOfRequest (narrowed asked.now.task.now self.new.forbidden asked.now.task.now.at))) }
    {
        if !self.is_worth(near, asked) {
            return Ok(None);
        }
        forbid_few(&mut self.forbidden, asked.task)?;
        let Some(answer) = near else {
            return Ok(Some(Breadth::Wide));
        };
        forbid_near(&mut self.forbidden, asked.task, answer)?;
        Ok(Some(Breadth::NearMiss))
    }

    /// Learns that a search took that many looks.
    pub fn learn(&mut self, breadth: Breadth, looks: u64) {
        match breadth {
            Breadth::Own => {
                self.searched = self.searched.saturating_add(1);
                self.looks = self.looks.saturating_add(looks);
            }
            Breadth::Wide => self.wide.count_cost(looks),
            Breadth::NearMiss => self.near.count_cost(looks),
        }
    }

    /// Counts a question that has been answered from the cache. The answer to a wide question has saved the looks of a
    /// search, on average.
    pub fn count_answer(&mut self, breadth: Breadth) {
        let looks = self.looks / self.searched.max(1);
        match breadth {
            Breadth::Own => {}
            Breadth::Wide => self.wide.count_saved(looks),
            Breadth::NearMiss => self.near.count_saved(looks),
        }
    }
}
