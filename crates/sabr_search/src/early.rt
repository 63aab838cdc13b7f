//! What may answer a question before a search of its own: answers to earlier questions, layers over the whole graph for
//! one delivery, and wide questions. Each decides itself whether it is asked, and learns what searches took and found.

pub mod answers;
pub mod whole_deadlines;
pub mod wide_questions;

ghost use Rattle.sabr_model.specs.plan.Plan.{TabledPlan};
ghost use Rattle.sabr_model.specs.routes.Arrival.{RouteRequest};
ghost use Rattle.sabr_search.specs.answers.SearchCache.{IsMemory};
ghost use Rattle.sabr_search.specs.questions.FirstSteps.{tabled_of};

use crate::early::answers::Answers;
use crate::early::whole_deadlines::WholeDeadlines;
use crate::early::wide_questions::{Breadth, WideQuestions};
use crate::found::{Found, FoundWay};
use crate::node_bounds::NodeBounds;
use crate::part::Excluded;
use crate::prefix_path::PrefixPath;
use crate::question::Question;
use crate::stopped::Stopped;
use crate::task::Task;
use sabr_index::Looks;
use std::alloc::{Allocator, Global};

/// An answer to a question before a search of its own.
#[derive(Drop)]
pub enum Early<A: Allocator + Copy> {
    /// The one that is cached at this place.
    Cached(usize),
    /// What the layers for the question's floor show.
    Found(Found<FoundWay<A>>),
}

/// What is remembered from question to question, and may spare a search or make it shorter.
#[derive(Drop)]
pub struct Memory<A: Allocator + Copy = Global> {
    /// The allocator of all of it.
    pub alloc: A,
    /// What is known of the ways of every question.
    pub node_bounds: NodeBounds<A>,
    /// Answers to questions so far.
    pub answers: Answers<A>,
    /// Layers for one delivery.
    pub whole_deadlines: WholeDeadlines<A>,
    /// Which wide questions are asked before a question's own search.
    pub wide_questions: WideQuestions<A>,
}

impl<A: Allocator + Copy> Memory<A> {
    /// Knows nothing. It doesn't allocate.
    pub fn new(alloc: A) -> Memory<A>
        ensures { (p : TabledPlan) (r : RouteRequest) → IsMemory p r result }
    {
        Memory {
            alloc,
            node_bounds: NodeBounds::new(alloc),
            answers: Answers::new(alloc),
            whole_deadlines: WholeDeadlines::new(alloc),
            wide_questions: WideQuestions::new(alloc),
        }
    }

    /// Prepares for a question: finds the bounds of nodes, and layers for the question's floor, if they are due. What might
    /// need more looks than are left, or an allocation that failed, isn't known.
    pub fn prepare(
        &mut self,
        asked: &Question<'_, '_, '_, A>,
        looks: &mut Looks,
    ) -> Result<(), Stopped>
        requires memory { IsMemory (tabled_of asked.now.task.now) asked.now.task.now.request self.old }
        ensures { IsMemory (tabled_of asked.now.task.now) asked.now.task.now.request self.new }
    {
        let until = asked.bound.until();
        let are_bounds_due = self.node_bounds.is_due(until);
        let are_deadlines_due = self.whole_deadlines.is_due(asked.floor);
        if !are_bounds_due && !are_deadlines_due {
            return Ok(());
        }
        let (plan, request) = (asked.task.plan(), asked.task.request());
        let Some(mut prefix_path) = PrefixPath::at_source(self.alloc, plan, request)? else {
            return Ok(());
        };
        let source = prefix_path.go(looks, plan, request, &[])?;
        let excluded = Excluded::of(&[]);
        let whole_graph = Task::new(plan, request, &prefix_path, excluded, source);
        if are_bounds_due {
            self.node_bounds
                .find(self.alloc, &whole_graph, looks, until);
        }
        if are_deadlines_due {
            let soon = &self.node_bounds.soon;
            self.whole_deadlines
                .make(&whole_graph, looks, soon, asked.floor)?;
        }
        Ok(())
    }

    /// Counts the looks of a search of this breadth.
    pub fn count(&mut self, breadth: Breadth, looks: u64)
        ensures { (p : TabledPlan) (r : RouteRequest) → IsMemory p r self.old → IsMemory p r self.new }
    {
        self.whole_deadlines.learn(looks);
        self.wide_questions.learn(breadth, looks);
    }
}
