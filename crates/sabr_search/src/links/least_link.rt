//! The smallest number of a link that arrives in time.

ghost use Rattle.std.specs.Prelude.{◌≡◌, ◌⊎◌, ℕ, ◌+◌, ◌^◌, ◌≤◌, ◌<◌, IfSome, IsTrue, false, length};
ghost use Rattle.sabr_search.specs.questions.Task.{IsTask, Takes};
ghost use Rattle.sabr_search.specs.layers.Picks.{IsAtMost, IsStepOver};
ghost use Rattle.sabr_search.specs.questions.Linked.{IsLinkWithin, HasNumber};

use crate::links::finger::Finger;
use crate::links::over_link::{comes_late, first_unended};
use crate::links::walked_link::{WalkedLink, rules_out};
use crate::task::Task;
use crate::visit::Step;
use sabr_index::Looks;
use std::alloc::Allocator;

/// Returns true if there is a step and its number is at most this.
fn is_at_most(best: Option<Step>, number: u32) -> bool
    ensures at_most { IsTrue result → IsAtMost best number }
    ensures above { result ≡ false → (n : ℕ) → IsAtMost best n → number ≤ n }
{
    match best {
        Some(step) => step.number <= number,
        None => false,
    }
}

impl<'a, A: Allocator + Copy> Task<'a, A> {
    /// Returns the step of smallest number over a link, for what is at its sender at `at`. It arrives sooner than
    /// `before`, and its number is less than that of `best`. If there is no such step, returns `best`.
    #[inline(always)]
    pub fn least_over(
        &self,
        looks: &mut Looks,
        link: WalkedLink<'_>,
        at: u64,
        before: u64,
        best: Option<Step>,
    ) -> Option<Step>
        requires task { IsTask self.now }
        requires link { IsLinkWithin self.now link.from link.to link.passes.now link.bounds }
        requires few { length link.passes.now ≤ looks.old.left }

        // The looks.
        ensures looks { looks.old.left ≤ looks.new.left + length link.entry.passes.now }
        ensures looked { looks.new.left ≤ looks.old.left }
        ensures some_looks { (result ≡ best) ⊎ (looks.new.left < looks.old.left) }

        // The step.
        ensures lower { (n : ℕ) → IsAtMost best n → IsAtMost result n }
        ensures sound { (result ≡ best) ⊎ IfSome result (IsStepOver self.now link.entry.from at link.entry.to before) }
        ensures full { (n w b : ℕ) → HasNumber link.entry.passes.now n → Takes self.now n link.entry.from at w b → b < before → IsAtMost result n }
    {
        if rules_out(link.bounds, at, before) {
            return best;
        }
        let passes = link.passes;
        let mut chosen = best;
        let mut finger = Finger::new();
        let mut place = first_unended(passes, at);
        while place < passes.len() {
            let pass = passes[place].look(looks);
            if is_at_most(chosen, pass.pass().least_number_after) {
                return chosen;
            }
            let excluded = self.excluded_from(link.from, &pass, &mut finger);
            if excluded > 0 {
                place += excluded.min(passes.len() - place);
                continue;
            }
            if comes_late(&pass, at, before) {
                return chosen;
            }
            place += 1;
            let number = pass.number();
            if is_at_most(chosen, number) {
                continue;
            }
            let hop = self.hop_over(link.to, &pass);
            if let Some(arrival) = self.arrive_before(at, &hop, before) {
                chosen = Some(Step {
                    number,
                    node: link.to,
                    at: arrival,
                });
            }
        }
        chosen
    }
}
