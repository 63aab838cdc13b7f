//! Where the numbers that a part excludes lead: to leaves, and to prefixes that go on.

ghost use Rattle.std.specs.Prelude.{◌≡◌, true, ◌∷◌, ◌++◌, [], map, IfOk, IfSome, IfNone};
ghost use Rattle.sabr_model.specs.routes.Route.{is_path};
ghost use Rattle.sabr_frontier.specs.tree.Searching.{asked_of};
ghost use Rattle.sabr_frontier.specs.loading.Partial.{AllGoOn, AreSteps, IsChecked, IsPathEnd, leaves_with, onward_with, step_of};

use crate::loader::path_end::{ExpectedPrefix, PathEnd};
use crate::plan_request::PlanRequest;
use sabr_model::{NoMemory, Route};
use std::alloc::{Allocator, Global};

/// The routes that a prefix makes with its excluded numbers, and its steps over those that make no route and go on.
#[derive(Drop)]
pub struct Checked<A: Allocator + Copy = Global> {
    pub leaves: Vec<Route<A>, A>,
    pub onward: Vec<ExpectedPrefix, A>,
}

impl<A: Allocator + Copy> Checked<A> {
    /// Makes an empty value. It allocates nothing.
    pub fn none(alloc: A) -> Checked<A>
        ensures leaves { result.leaves.items ≡ [] }
        ensures onward { result.onward.items ≡ [] }
    {
        Checked {
            leaves: Vec::new(alloc),
            onward: Vec::new(alloc),
        }
    }

    /// Appends the path of a prefix and one more number to the others of its kind; false if they make none.
    fn put(
        &mut self,
        question: &PlanRequest<'_, A>,
        prefix: &[u32],
        end: PathEnd,
        number: u32,
    ) -> Result<bool, NoMemory>
        requires { IsPathEnd question.now.plan.now.plan question.now.request prefix.now end }
        ensures path { IfOk result (λ is. is ≡ is_path question.now.plan.now.plan question.now.request (prefix.now ++ number ∷ [])) }
        ensures leaves { IfOk result (λ is. is ≡ true → self.new.leaves.items ≡ leaves_with (asked_of question.now) self.old.leaves.items (prefix.now ++ number ∷ [])) }
        ensures onward { IfOk result (λ is. is ≡ true → map (step_of prefix.now) self.new.onward.items ≡ onward_with (asked_of question.now) prefix.now self.old.onward.items number) }
        ensures steps { IfOk result (λ _. AreSteps question.now.plan.now.plan question.now.request prefix.now self.old.onward.items → AreSteps question.now.plan.now.plan question.now.request prefix.now self.new.onward.items) }
    {
        let Some(end) = end.extended(question.plan, &question.request, prefix, number) else {
            return Ok(false);
        };
        if end.here.node == question.request.to() {
            let numbers = longer(question.alloc, prefix, number)?;
            let route = end.summary.route(numbers, end.here.at);
            self.leaves.push(route)?;
            return Ok(true);
        }
        let expected = ExpectedPrefix {
            length: prefix.len(),
            number,
            end,
        };
        self.onward.push(expected)?;
        Ok(true)
    }
}

/// Returns a copy of a list with one more number at its end.
fn longer<A: Allocator + Copy>(alloc: A, list: &[u32], number: u32) -> Result<Vec<u32, A>, NoMemory>
    ensures { IfOk result (λ v. v.items ≡ list.now ++ number ∷ []) }
{
    let mut numbers = Vec::with_capacity(alloc, list.len() + 1)?;
    let extended = numbers.extend_from_slice(list);
    let Ok(()) = extended else { unreachable!() };
    numbers.push_reserved(number);
    Ok(numbers)
}

/// Returns where the excluded numbers of a prefix lead, or none if one of them makes no path. The result is gathered in
/// `checked`, in place of what that had. The prefix leads to `end`.
pub fn check<A: Allocator + Copy>(
    question: &PlanRequest<'_, A>,
    prefix: &[u32],
    excluded: &[u32],
    end: PathEnd,
    mut checked: Checked<A>,
) -> Result<Option<Checked<A>>, NoMemory>
    requires { IsPathEnd question.now.plan.now.plan question.now.request prefix.now end }
    ensures some { IfOk result (λ o. IfSome o (λ j. AllGoOn question.now.plan.now.plan question.now.request (prefix.now, excluded.now) × IsChecked question.now.plan.now.plan question.now.request (prefix.now, excluded.now) j)) }
    ensures none { IfOk result (λ o. IfNone o (AllGoOn question.now.plan.now.plan question.now.request (prefix.now, excluded.now) → ⊥)) }
{
    checked.leaves.clear();
    checked.onward.clear();
    for number in excluded {
        if !checked.put(question, prefix, end, *number)? {
            return Ok(None);
        }
    }
    Ok(Some(checked))
}
