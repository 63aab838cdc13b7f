//! A cache of answers for later questions of the same plan and request.
//!
//! The answer for a node, a second, excluded numbers, forbidden nodes and hops left is the answer to every later
//! question that forbids more, starts no earlier and leaves no more hops, as long as its way may be taken and delivers
//! at the same second. Where there was none, there is none; and where each way was above a bound, each is above a
//! smaller one.

mod lists;

ghost use Rattle.std.specs.Prelude.{◌≡◌, ◌^◌, ◌≤◌, ◌<◌, [], Some, All, IfOk, IfSome, IsTrue, length, slice_get, slice_set, false};
ghost use Rattle.sabr_search.specs.questions.FirstSteps.{Leads, tabled_of};
ghost use Rattle.sabr_search.specs.questions.Task.{IsTask, IsAsked, IsOfRequest, Takes};
ghost use Rattle.sabr_search.specs.answers.Asked.{AnswersAt, bound_left, hops_left};
ghost use Rattle.sabr_search.specs.answers.Answers.{IsFound};
ghost use Rattle.sabr_search.specs.answers.CachedAnswers.{AllForbidden, Covers, IsAnswerTo, IsAnswer, IsPut, AreAnswers, is_cached_after, most_answers};

use crate::early::answers::lists::Lists;
use crate::early::wide_questions::Breadth;
use crate::found::{Found, FoundWay};
use crate::question::Question;
use crate::stopped::Stopped;
use crate::task::Task;
use crate::visit::Visit;
use sabr_index::Looks;
use std::alloc::{Allocator, Global};
use std::mem::replace;

/// The size of the cache; the oldest answer goes first. With 1024, 1000 routes took 7 percent more instructions over a
/// grid of 64 nodes and 10 over one of two satellite plans; with 16384 they took up to 2 percent more, over nine plans.
/// To vary this and the next: `bench/figures.py --counts 1000 --only
/// grid-8,relay-mars-500,relay-mars-2000,iridium,cube,dense-60,walker-66-5000,sparse-2000`; they were varied in a copy
/// of this design in plain Rust.
const SLOTS: usize = 4096;

/// This many answers are compared for a question. With 4, relays took up to 17 percent more, satellites up to 31, and a
/// small relay 3 percent fewer; with 64, the grid took 14 percent more and a satellite plan 16 percent fewer.
const COMPARED: usize = 16;

/// Questions that exclude more numbers aren't cached, since each list is copied. With 16, 60 nodes that all see each
/// other took 7 percent more; with 256 nothing changed. Without a limit the ten thousandth route of a line of 20000
/// contacts took 4.25 times the instructions of a native program, with this one 1.18. To vary it: `bench/further.py
/// --parts long --only line-1000,dense-60`.
const MAX_EXCLUDED: usize = 64;

/// Questions after a longer prefix aren't cached: an answer lists the nodes that were forbidden. Without a limit 4096
/// answers of a line of 20000 contacts would take some 600 MB, with this one 4 MB. With 64 the half of all questions
/// over a grid of 1600 nodes weren't cached. To vary it: `bench/figures.py --counts 1000 --only grid-40,line-19998`.
const MAX_PREFIX: usize = 128;

/// A cached answer that covers a question, but whose way passes a node that the question forbids. The way isn't
/// followed past that node.
#[derive(Clone, Copy)]
pub struct NearMiss<'a> {
    /// The nodes that its question forbids.
    pub forbidden: &'a [u32],
    /// The first forbidden node that its way passes.
    pub node: usize,
}

/// What the cache has for a question: the place of its answer, or else the near miss whose question forbade most nodes.
#[derive(Clone, Copy)]
pub struct Recalled<'a> {
    pub place: Option<usize>,
    pub near: Option<NearMiss<'a>>,
}

/// What was asked, and the answer.
#[derive(Drop)]
pub struct Answer<A: Allocator + Copy = Global> {
    /// Where the search started, and when.
    pub from: Visit,
    /// The most hops that its way might have.
    pub hops: usize,
    /// The numbers that no way takes first, the nodes that were forbidden, and the numbers of the best way.
    pub lists: Lists<A>,
    /// When that way delivers; or what each way is above.
    pub found: Found<u64>,
    /// Which nodes the question forbids.
    pub breadth: Breadth,
    /// The place of the answer that was put into the same bucket before.
    pub next: Option<u32>,
}

/// Answers in slots, the oldest of which is the next to go, and by bucket the place of the latest.
///
/// A bucket only says where to look. Whether an answer fits a question is decided by the answer itself.
#[derive(Drop)]
pub struct Answers<A: Allocator + Copy = Global> {
    /// The allocator of the answers.
    alloc: A,
    /// The answers.
    pub slots: Vec<Answer<A>, A>,
    /// The slot of the oldest answer, once all are filled.
    oldest: usize,
    /// By bucket the place of the latest answer plus 1, or 0 if there is none: half the memory of options.
    heads: Vec<u32, A>,
    /// The memory of an answer that went, for the next one.
    spare: Lists<A>,
}

/// Of two near misses, the one whose question forbade more nodes, or else the second.
fn more_forbidden<'a>(first: Option<NearMiss<'a>>, second: NearMiss<'a>) -> Option<NearMiss<'a>> {
    if let Some(other) = first
        && second.forbidden.len() < other.forbidden.len()
    {
        return first;
    }
    Some(second)
}

/// Returns whether each of these nodes is forbidden. It tests the last node first, because prefixes that begin alike
/// differ at their ends.
fn are_forbidden(flags: &[bool], nodes: &[u32]) -> bool
    ensures { IsTrue result → AllForbidden flags.now nodes.now }
{
    let mut end = nodes.len();
    while 0 < end {
        end -= 1;
        let node = nodes[end] as usize;
        if node >= flags.len() || !flags[node] {
            return false;
        }
    }
    true
}

impl<A: Allocator + Copy> Answer<A> {
    /// Returns whether a question starts at the same node and no earlier, excludes the same numbers, forbids these
    /// nodes, too, and leaves no more hops.
    fn covers(&self, task: &Task<'_, A>, hops: usize) -> bool
        ensures { IsTrue result → Covers self.now task.now hops }
    {
        if self.from.node != task.start() || self.from.at > task.at() || hops > self.hops {
            return false;
        }
        if !are_forbidden(task.forbidden(), self.lists.forbidden()) {
            return false;
        }
        self.lists.excluded() == task.excluded()
    }

    /// Goes along its way from where a question stands, a look for each contact; returns whether it delivers at the
    /// same second. Notes the first forbidden node that it passes.
    fn leads(
        &self,
        task: &Task<'_, A>,
        looks: &mut Looks,
        delivery: u64,
        passed: &mut Option<usize>,
    ) -> Result<bool, Stopped>
        requires task { IsTask task.now }
        requires goal { slice_get task.now.table task.now.goal ≡ Some task.now.request.destination }
        requires answer { IsAnswer (tabled_of task.now) task.now.request self.now }
        requires node { self.now.from.node ≡ task.now.start }
        requires same { self.now.lists.excluded ≡ task.now.excluded }
        requires way { self.now.found ≡ Found.Way delivery }
        ensures { IfOk result (λ yes. IsTrue yes → Leads (Takes task.now) task.now.start task.now.at self.now.lists.way task.now.goal delivery) }
    {
        let mut from = task.beginning();
        let way = self.lists.way();
        for place in 0..way.len() {
            if looks.left() == 0 {
                return Err(Stopped::NoLooks);
            }
            let Some(next) = task.arrive_by(looks, way[place], from.at, passed) else {
                return Ok(false);
            };
            if next.at > delivery {
                return Ok(false);
            }
            from = next;
        }
        Ok(from.node == task.goal() && from.at == delivery)
    }

    /// Returns whether it is the answer to a question up to a bound, too. If its way passes a forbidden node, notes that.
    fn answers(
        &self,
        asked: &Question<'_, '_, '_, A>,
        looks: &mut Looks,
        passed: &mut Option<usize>,
    ) -> Result<bool, Stopped>
        requires asked { IsAsked asked.now.task.now asked.now.prefix.now }
        requires answer { IsAnswer (tabled_of asked.now.task.now) asked.now.task.now.request self.now }
        ensures { IfOk result (λ yes. IsTrue yes → IsAnswerTo self.now asked.now.task.now (hops_left asked.now) (bound_left asked.now)) }
    {
        let hops = asked.hops_left();
        if !self.covers(asked.task, hops) {
            return Ok(false);
        }
        let delivery = match &self.found {
            Found::Way(delivery) => *delivery,
            Found::Beyond(above) => return Ok(asked.bound_left().is_within(*above)),
        };
        if self.lists.way().len() > hops {
            return Ok(false);
        }
        self.leads(asked.task, looks, delivery, passed)
    }
}

/// Returns whether the answer to a question is cached: not if the prefix is empty, since no other one ends at the
/// source, and not if too many numbers are excluded or the prefix is too long.
fn is_cached<A: Allocator + Copy>(asked: &Question<'_, '_, '_, A>) -> bool
    ensures { result ≡ is_cached_after asked.now.prefix.now asked.now.task.now.excluded }
{
    !asked.prefix.is_empty()
        && asked.prefix.len() <= MAX_PREFIX
        && asked.task.excluded().len() <= MAX_EXCLUDED
}

/// Puts an answer in place of another one, and returns the lists of that.
fn put_at<A: Allocator + Copy>(
    slots: &mut Vec<Answer<A>, A>,
    place: usize,
    answer: Answer<A>,
) -> Lists<A>
    requires { place < length slots.old.items }
    ensures { slots.new.items ≡ slice_set slots.old.items place answer }
{
    let Answer { lists, .. } = replace(&mut slots[place], answer);
    lists
}

/// The bucket of a search: by the node where it starts, and the numbers that are excluded there.
fn bucket_of<A: Allocator + Copy>(task: &Task<'_, A>) -> usize {
    let mut sum = task.start().wrapping_mul(7919);
    for number in task.excluded() {
        sum = sum.wrapping_add(*number as usize);
    }
    sum % SLOTS
}

impl<A: Allocator + Copy> Answers<A> {
    /// Makes an empty cache. It doesn't allocate.
    pub fn new(alloc: A) -> Answers<A>
        ensures { result.slots.items ≡ [] }
    {
        Answers {
            alloc,
            slots: Vec::new(alloc),
            oldest: 0,
            heads: Vec::new(alloc),
            spare: Lists::new(alloc),
        }
    }

    /// Returns whether a question may have its answer here: some answer is cached, and its own would be, too.
    pub fn serves(&self, asked: &Question<'_, '_, '_, A>) -> bool
        ensures { IsTrue result → IsTrue (is_cached_after asked.now.prefix.now asked.now.task.now.excluded) }
    {
        !self.slots.is_empty() && is_cached(asked)
    }

    /// The place of the latest answer in a bucket.
    fn head(&self, bucket: usize) -> Option<u32> {
        self.heads.get(bucket)?.checked_sub(1)
    }

    /// The place of an answer that is the answer to this question, too; or else the near miss whose question forbade
    /// most nodes.
    pub fn recall(
        &self,
        asked: &Question<'_, '_, '_, A>,
        looks: &mut Looks,
    ) -> Result<Recalled<'_>, Stopped>
        requires asked { IsAsked asked.now.task.now asked.now.prefix.now }
        requires cached { All (IsAnswer (tabled_of asked.now.task.now) asked.now.task.now.request) self.now.slots.items }
        ensures { IfOk result (λ recalled. IfSome recalled.place (AnswersAt self.now.slots.items asked.now)) }
    {
        let mut near: Option<NearMiss<'_>> = None;
        let mut next = self.head(bucket_of(asked.task));
        for _ in 0..COMPARED {
            let Some(place) = next else {
                break;
            };
            let place = place as usize;
            let Some(answer) = self.slots.get(place) else {
                break;
            };
            let mut passed = None;
            if answer.answers(asked, looks, &mut passed)? {
                return Ok(Recalled {
                    place: Some(place),
                    near: None,
                });
            }
            if let Some(node) = passed {
                let forbidden = answer.lists.forbidden();
                near = more_forbidden(near, NearMiss { forbidden, node });
            }
            next = answer.next;
        }
        Ok(Recalled { place: None, near })
    }

    /// This place, if the answer there is the answer to a question, too.
    pub fn recall_at(
        &self,
        place: usize,
        asked: &Question<'_, '_, '_, A>,
        looks: &mut Looks,
    ) -> Result<Option<usize>, Stopped>
        requires asked { IsAsked asked.now.task.now asked.now.prefix.now }
        requires cached { All (IsAnswer (tabled_of asked.now.task.now) asked.now.task.now.request) self.now.slots.items }
        ensures { IfOk result (λ o. IfSome o (AnswersAt self.now.slots.items asked.now)) }
    {
        let mut passed = None;
        let Some(answer) = self.slots.get(place) else {
            return Ok(None);
        };
        if answer.answers(asked, looks, &mut passed)? {
            return Ok(Some(place));
        }
        Ok(None)
    }

    /// Makes the buckets, if there are none; returns whether there are some.
    fn make_heads(&mut self) -> bool
        ensures { self.new.slots ≡ self.old.slots }
    {
        if self.heads.is_empty() {
            return self.heads.resize(SLOTS, 0).is_ok();
        }
        true
    }

    /// Puts an answer into a new slot, or in place of the oldest one if there are enough, and returns its place; or
    /// leaves it out, where an allocation failed.
    fn put(&mut self, answer: Answer<A>) -> Option<usize>
        ensures put { IsPut self.old.slots.items self.new.slots.items answer }
        ensures few { length self.old.slots.items ≤ most_answers → length self.new.slots.items ≤ most_answers }
    {
        let end = self.slots.len();
        if end < SLOTS {
            let Ok(()) = self.slots.push(answer) else {
                return None;
            };
            return Some(end);
        }
        let place = self.oldest % SLOTS;
        self.spare = put_at(&mut self.slots, place, answer);
        self.oldest = place + 1;
        Some(place)
    }

    /// Puts an answer at the head of its bucket.
    fn put_head(&mut self, bucket: usize, place: usize)
        ensures { self.new.slots ≡ self.old.slots }
    {
        if bucket < self.heads.len() {
            self.heads[bucket] = place.min(SLOTS) as u32 + 1;
        }
    }

    /// Makes the answer to a question from what was found; or none, if an allocation failed.
    fn made(
        &mut self,
        asked: &Question<'_, '_, '_, A>,
        found: &Found<FoundWay<A>>,
        breadth: Breadth,
        bucket: usize,
    ) -> Option<Answer<A>>
        requires task { IsTask asked.now.task.now }
        requires request { IsOfRequest asked.now.task.now }
        requires found { IsFound asked.now.task.now (hops_left asked.now) found.now }
        ensures slots { self.new.slots ≡ self.old.slots }
        ensures answer { IfSome result (IsAnswer (tabled_of asked.now.task.now) asked.now.task.now.request) }
    {
        let task = asked.task;
        let (way, found): (&[u32], Found<u64>) = match found {
            Found::Way(way) => (&way.numbers, Found::Way(way.delivery)),
            Found::Beyond(bound) => (&[], Found::Beyond(*bound)),
        };
        let mut lists = replace(&mut self.spare, Lists::new(self.alloc));
        let Ok(()) = lists.set(task.excluded(), task.forbidden_nodes(), way) else {
            return None;
        };
        Some(Answer {
            from: task.beginning(),
            hops: asked.hops_left(),
            lists,
            found,
            breadth,
            next: self.head(bucket),
        })
    }

    /// Caches the answer to a question, and returns its place; or leaves it out, if an allocation failed.
    pub fn cache(
        &mut self,
        asked: &Question<'_, '_, '_, A>,
        found: &Found<FoundWay<A>>,
        breadth: Breadth,
    ) -> Option<usize>
        requires task { IsTask asked.now.task.now }
        requires request { IsOfRequest asked.now.task.now }
        requires cached { AreAnswers (tabled_of asked.now.task.now) asked.now.task.now.request self.old.slots.items }
        requires found { IsFound asked.now.task.now (hops_left asked.now) found.now }
        ensures { AreAnswers (tabled_of asked.now.task.now) asked.now.task.now.request self.new.slots.items }
    {
        if !self.make_heads() {
            return None;
        }
        let bucket = bucket_of(asked.task);
        let answer = self.made(asked, found, breadth, bucket)?;
        let place = self.put(answer)?;
        self.put_head(bucket, place);
        Some(place)
    }

    /// Learns what was found for a question: caches it, if it is one that is cached and no allocation fails.
    pub fn learn(&mut self, asked: &Question<'_, '_, '_, A>, found: &Found<FoundWay<A>>)
        requires asked { IsAsked asked.now.task.now asked.now.prefix.now }
        requires cached { AreAnswers (tabled_of asked.now.task.now) asked.now.task.now.request self.old.slots.items }
        requires found { IsFound asked.now.task.now (hops_left asked.now) found.now }
        ensures cached { AreAnswers (tabled_of asked.now.task.now) asked.now.task.now.request self.new.slots.items }
        ensures others { is_cached_after asked.now.prefix.now asked.now.task.now.excluded ≡ false → self.new.slots ≡ self.old.slots }
    {
        if is_cached(asked) {
            self.cache(asked, found, Breadth::Own);
        }
    }
}
