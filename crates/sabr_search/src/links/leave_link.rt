//! The last second at which a link can be left in time, from its last passes backward.

ghost use Rattle.std.specs.Prelude.{◌≡◌, ◌≢◌, ◌⊎◌, ℕ, ◌+◌, ◌^◌, ◌≤◌, ◌<◌, max, IsTrue, false, Some, length, slice_get, slice_index_or};
ghost use Rattle.sabr_index.specs.declared.link.Pass.{Pass};
ghost use Rattle.sabr_search.specs.questions.Task.{IsTask, Takes};
ghost use Rattle.sabr_index.specs.Links.{AreInOrder};
ghost use Rattle.sabr_search.specs.questions.Linked.{IsLinkWithin, IsLeftBefore, HasNumber};

use crate::links::walked_link::WalkedLink;
use crate::task::Task;
use sabr_index::{Looks, Pass};
use std::alloc::Allocator;

/// Returns the number of passes that start sooner than `before`. The passes are in order of their starts, so it is a
/// binary search. It takes no look.
fn started(passes: &[Pass], before: u64) -> usize
    requires { AreInOrder passes.now }
    ensures within { result ≤ length passes.now }
    ensures late { (k : ℕ) (x : Pass) → result ≤ k → slice_get passes.now k ≡ Some x → before ≤ x.start }
{
    passes.partition_point(|pass| pass.begins_before(before))
}

/// Returns the number of passes of a link that start sooner than `before`; the first counts even if it starts later.
fn begun(passes: &[Pass], before: u64) -> usize
    requires { AreInOrder passes.now }
    ensures within { result ≤ length passes.now }
    ensures late { (k : ℕ) (x : Pass) → result ≤ k → slice_get passes.now k ≡ Some x → before ≤ x.start }
{
    let Some((_, rest)) = passes.split_first() else {
        return 0;
    };
    1 + started(rest, before)
}

/// Returns true if, by its end and the light times up to it, nothing that is at the sender at `latest` or later arrives
/// sooner than `before` over this pass or an earlier one. The margin is left out.
fn leaves_no_later(pass: &Pass, before: u64, latest: u64) -> bool
    ensures { IsTrue result → (pass.now.latest_end ≤ latest) ⊎ (before ≤ latest + pass.now.least_light_before) }
{
    pass.latest_end <= latest || before.saturating_sub(latest) <= pass.least_light_before as u64
}

impl<'a, A: Allocator + Copy> Task<'a, A> {
    /// Returns the first second from which on nothing leaves over a link and arrives sooner than `before`, if that is
    /// later than `latest`; otherwise `latest`. It takes a binary search and one look for each pass in question.
    #[inline(always)]
    pub fn leave_over(
        &self,
        looks: &mut Looks,
        link: WalkedLink<'_>,
        before: u64,
        latest: u64,
    ) -> u64
        requires task { IsTask self.now }
        requires link { IsLinkWithin self.now link.from link.to link.passes.now link.bounds }
        requires other { link.from ≢ self.now.start }
        requires few { length link.passes.now ≤ looks.old.left }

        // The looks.
        ensures looks { looks.old.left ≤ looks.new.left + length link.entry.passes.now }
        ensures some_looks { latest < result → looks.new.left < looks.old.left }

        // The second.
        ensures lower { latest ≤ result }
        ensures sound { (t : ℕ) → latest ≤ t → t < result → IsLeftBefore self.now link.entry.from link.entry.to before t }
        ensures full { (n t w b : ℕ) → HasNumber link.entry.passes.now n → Takes self.now n link.entry.from t w b → b < before → t < result }
    {
        let passes = link.passes;
        let mut last = latest;
        let end = begun(passes, before);
        for back in 0..end {
            let pass = passes[end - 1 - back].look(looks);
            if leaves_no_later(pass.pass(), before, last) {
                return last;
            }
            let hop = self.hop_over(link.to, &pass);
            last = last.max(self.leave_before(&hop, before));
        }
        last
    }
}
