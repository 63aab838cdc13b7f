//! Hop layers made backward from the goal for a delivery. For each number of hops they hold the nodes from which that
//! many hops lead to the goal by then, starting later than fewer hops can.

ghost use Rattle.std.specs.Prelude.{◌≡◌, ◌≢◌, ℕ, ◌+◌, ◌*◌, ◌^◌, ◌≤◌, ◌<◌, length, true, false, IsTrue, slice_get, slice_index, slice_index_or, slice_set, Some, None, OnOk, IfOk, [], ◌∷◌};
ghost use Rattle.sabr_search.specs.questions.Task.{IsTask, never};
ghost use Rattle.sabr_search.specs.questions.Stops.{StopsOnlyIf};
ghost use Rattle.sabr_search.specs.questions.Linked.{received, IsLinkWithin};
ghost use Rattle.sabr_search.specs.layers.Deadlines.{IsApart, head_of};
ghost use Rattle.sabr_search.specs.questions.FirstSteps.{AreFirstSteps};
ghost use Rattle.sabr_search.specs.layers.Settling.{AreReal};
ghost use Rattle.sabr_search.specs.layers.Late.{IsInLayer, AreGrowing, AreGrown, IsNotedDeadline, AreLeftInTimeTo, AreLeftInTimeOver, AreLeftInTimeByHead, AreLeftInTimeFrom, AreArrivals};
ghost use Rattle.sabr_search.specs.layers.WholeDeadlines.{AreWhole, IsMadeBack};

use crate::backward::deadlines::{Deadline, Deadlines};
use crate::backward::since::Since;
use crate::links::walked_link::{WalkedLink, rules_out};
use crate::stopped::Stopped;
use crate::task::Task;
use crate::visit::Visit;
use sabr_index::{Looks, Sender, SenderHead};
use sabr_model::NoMemory;
use std::alloc::Allocator;

/// What layers are made for, backward from the goal.
#[derive(Drop)]
pub struct Aim<'t, 'a, 's, A: Allocator + Copy> {
    /// The search.
    pub task: &'t Task<'a, A>,
    /// For each node, a second before which no way comes there.
    pub since: &'s Since<'s>,
    /// Where the first steps come to, and when.
    pub first: &'s [Visit],
    /// The delivery that the layers are made for: over the whole graph the floor, and in a question's own search the
    /// earliest.
    pub delivery: u64,
}

impl<A: Allocator + Copy> Deadlines<A> {
    /// Notes the first second that is too late at a node, in the layer that begins at `begin`, once for each node.
    fn note_deadline(&mut self, entry: Deadline, begin: usize) -> Result<(), NoMemory>
        requires place { entry.node < length self.old.place.items }
        requires deadline { entry.node < length self.old.deadline.items }
        requires placed { head_of self.old.deadline.items self.old.place.items entry.node ≤ length self.old.entries.items }
        ensures ends { self.new.ends ≡ self.old.ends }
        ensures deadline { OnOk result (self.new.deadline.items ≡ slice_set self.old.deadline.items entry.node entry.before) }
        ensures noted { OnOk result (IsNotedDeadline (head_of self.old.deadline.items self.old.place.items entry.node) begin entry.node entry.before self.old self.new) }
    {
        let head = self.head(entry.node);
        if head > begin {
            self.entries[head - 1] = entry;
        } else {
            let end = self.entries.len();
            self.entries.push(entry)?;
            self.fewer.push(head)?;
            self.place[entry.node] = end;
        }
        self.deadline[entry.node] = entry.before;
        Ok(())
    }

    /// Returns true if a link needn't be taken to a node with the deadline `before`: its bounds show that the deadline
    /// of its sender doesn't rise, or that no way comes to its sender early enough; or its sender is forbidden, as the
    /// start is, or is the goal. The cheapest comparison comes first.
    #[inline(always)]
    fn brings_nothing(&self, aim: &Aim<'_, '_, '_, A>, head: SenderHead, before: u64) -> bool
        requires task { IsTask aim.now.task.now }
        requires many { length self.now.deadline.items ≡ length aim.now.task.now.table }
        requires arrivals { length aim.now.since.now ≡ length aim.now.task.now.table }
        requires node { head.node < length aim.now.task.now.table }
        ensures in_time { IsTrue result → AreLeftInTimeByHead aim.now.task.now aim.now.since.now self.now.deadline.items head before }
        ensures permitted { result ≡ false → slice_index_or aim.now.task.now.forbidden head.node false ≡ false }
        ensures other { result ≡ false → head.node ≢ aim.now.task.now.goal }
    {
        let node = head.node;
        let deadline = self.deadline[node];
        if rules_out(head.bounds, deadline, before) {
            return true;
        }
        let since = aim.since.at(node);
        if rules_out(head.bounds, since, before) {
            return true;
        }
        !aim.task.is_between(node)
    }

    /// Takes one link to the node of an entry of layer `left`, for layer `left + 1`.
    fn take_sender(
        &mut self,
        aim: &Aim<'_, '_, '_, A>,
        looks: &mut Looks,
        from: Sender<'_>,
        to: Deadline,
        left: usize,
    ) -> Result<(), NoMemory>
        requires growing { AreGrowing aim.now left self.old }

        // The link leads from an open node that isn't the goal to the node of an entry of layer `left`.
        requires link { IsLinkWithin aim.now.task.now from.node to.node from.passes.now from.bounds }
        requires node { from.node < length aim.now.task.now.table }
        requires permitted { slice_index_or aim.now.task.now.forbidden from.node false ≡ false }
        requires other { from.node ≢ aim.now.task.now.goal }
        requires receiver { slice_index_or aim.now.task.now.forbidden to.node false ≡ false }
        requires given { IsInLayer left self.old to }

        // It takes no more looks than the link has passes.
        requires few { length from.passes.now ≤ looks.old.left }
        ensures looks { looks.old.left ≤ looks.new.left + length from.entry.passes.now }
        ensures grown { OnOk result (AreGrown aim.now left self.old self.new) }
        ensures in_time { OnOk result (AreLeftInTimeOver aim.now.task.now aim.now.since.now self.new.deadline.items from.entry.node from.entry.passes.now to.before) }
    {
        let latest = self.deadline[from.node];
        let link = WalkedLink {
            from: from.node,
            to: to.node,
            passes: from.passes,
            bounds: from.bounds,
        };
        let last = aim.task.leave_over(looks, link, to.before, latest);
        if last <= latest.max(aim.since.at(from.node)) {
            return Ok(());
        }
        let entry = Deadline {
            node: from.node,
            before: last,
        };
        let begin = self.ends[left + 1];
        self.note_deadline(entry, begin)?;
        Ok(())
    }

    /// Takes every link to the node of an entry of layer `left`.
    fn take_senders(
        &mut self,
        aim: &Aim<'_, '_, '_, A>,
        looks: &mut Looks,
        to: Deadline,
        left: usize,
    ) -> Result<(), Stopped>
        requires growing { AreGrowing aim.now left self.old }

        // The entry is one of layer `left`.
        requires node { to.node < length aim.now.task.now.table }
        requires receiver { slice_index_or aim.now.task.now.forbidden to.node false ≡ false }
        requires given { IsInLayer left self.old to }
        ensures counted { looks.old.left ≤ looks.new.left + received aim.now.task.now to.node }
        ensures stops { StopsOnlyIf result (looks.old.left < received aim.now.task.now to.node) }
        ensures grown { OnOk result (AreGrown aim.now left self.old self.new) }
        ensures in_time { OnOk result (AreLeftInTimeTo aim.now.task.now aim.now.since.now self.new.deadline.items to) }
    {
        let senders = aim.task.senders(to.node);
        for place in 0..senders.len() {
            let head = senders.head(place);
            if self.brings_nothing(aim, head, to.before) {
                continue;
            }
            let from = senders.at(place);
            if from.passes.len() as u64 > looks.left() {
                return Err(Stopped::NoLooks);
            }
            self.take_sender(aim, looks, from, to, left)?;
        }
        Ok(())
    }

    /// Makes layer `left + 1` from layer `left`, with at most one look for each contact.
    fn next_back(
        &mut self,
        aim: &Aim<'_, '_, '_, A>,
        looks: &mut Looks,
        left: usize,
    ) -> Result<(), Stopped>
        requires growing { AreGrowing aim.now left self.old }
        requires apart { IsApart self.old.ends.items self.old.entries.items left }
        ensures counted { looks.old.left ≤ looks.new.left + length aim.now.task.now.plan.contacts }
        ensures stops { StopsOnlyIf result (looks.old.left < length aim.now.task.now.plan.contacts) }
        ensures grown { OnOk result (AreGrown aim.now left self.old self.new) }
        ensures in_time { OnOk result (AreLeftInTimeFrom aim.now.task.now aim.now.since.now self.old.entries.items (slice_index self.old.ends.items left) (slice_index self.old.ends.items (left + 1)) self.new.deadline.items) }
    {
        let first = self.ends[left];
        let begin = self.ends[left + 1];
        for place in first..begin {
            let to = self.entries[place];
            self.take_senders(aim, looks, to, left)?;
        }
        Ok(())
    }

    /// Makes layer 0: the goal alone.
    fn first_back(&mut self, task: &Task<'_, A>, delivery: u64) -> Result<(), NoMemory>
        requires task { IsTask task.now }
        requires early { delivery < never }

        // The layer.
        ensures ends { OnOk result (self.new.ends.items ≡ 0 ∷ 1 ∷ []) }
        ensures entries { OnOk result (self.new.entries.items ≡ record { node = task.now.goal; before = delivery + 1 } ∷ []) }
        ensures linked { OnOk result (self.new.fewer.items ≡ 0 ∷ []) }

        // What is known of each node.
        ensures flags { OnOk result (length self.new.place.items ≡ length task.now.forbidden) }
        ensures place { OnOk result (slice_index self.new.place.items task.now.goal ≡ 0) }
        ensures many { OnOk result (length self.new.deadline.items ≡ length task.now.forbidden) }
        ensures deadline { OnOk result (slice_index self.new.deadline.items task.now.goal ≡ delivery + 1) }
        ensures none { OnOk result ((k : ℕ) → k ≢ task.now.goal → slice_index self.new.deadline.items k ≡ 0) }
    {
        self.place.resize(task.node_count(), 0)?;
        self.place[task.goal()] = 0;
        self.deadline.clear();
        self.deadline.resize(task.node_count(), 0)?;
        self.deadline[task.goal()] = delivery + 1;
        self.entries.clear();
        self.entries.push(Deadline {
            node: task.goal(),
            before: delivery + 1,
        })?;
        self.fewer.clear();
        self.fewer.push(0)?;
        self.ends.clear();
        self.ends.push(0)?;
        self.ends.push(1)?;
        Ok(())
    }

    /// Returns true if some first step comes in time to a node of the layers so far.
    fn is_met(&self, first: &[Visit]) -> bool
        requires { (k : ℕ) (s : Visit) → slice_get first.now k ≡ Some s → s.node < length self.now.deadline.items }
        ensures met { IsTrue result → (k : ℕ) × (s : Visit) × (slice_get first.now k ≡ Some s) × (s.at < slice_index self.now.deadline.items s.node) }
        ensures unmet { result ≡ false → (k : ℕ) (s : Visit) → slice_get first.now k ≡ Some s → slice_index self.now.deadline.items s.node ≤ s.at }
    {
        for place in 0..first.len() {
            let step = first[place];
            if step.at < self.deadline[step.node] {
                return true;
            }
        }
        false
    }

    /// Makes layers backward from the goal until one has no node, each with at most one look for each contact. It stops
    /// after as many layers as there are nodes.
    pub fn make_all(&mut self, aim: &Aim<'_, '_, '_, A>, looks: &mut Looks) -> Result<(), Stopped>
        requires task { IsTask aim.now.task.now }
        requires arrivals { AreArrivals aim.now.task.now aim.now.since.now }
        requires early { aim.now.delivery < never }
        ensures whole { OnOk result ((most : ℕ) → AreWhole aim.now.task.now aim.now.since.now aim.now.delivery most self.new) }
    {
        self.first_back(aim.task, aim.delivery)?;
        for left in 0..aim.task.node_count() {
            if self.ends[left] == self.ends[left + 1] {
                return Ok(());
            }
            self.next_back(aim, looks, left)?;
            let end = self.entries.len();
            self.ends.push(end)?;
        }
        Err(Stopped::NoLooks)
    }

    /// Makes layers backward from the goal, each with at most one look for each contact, until a first step comes in
    /// time to a node of one of them. Returns the number of hops from there to the goal, which is below `hops`, or `None`
    /// if there is no such node.
    pub fn make_back(
        &mut self,
        aim: &Aim<'_, '_, '_, A>,
        looks: &mut Looks,
        hops: usize,
    ) -> Result<Option<usize>, Stopped>
        requires task { IsTask aim.now.task.now }
        requires arrivals { AreArrivals aim.now.task.now aim.now.since.now }
        requires early { aim.now.delivery < never }
        requires steps { AreFirstSteps aim.now.task.now aim.now.first.now }
        requires real { AreReal aim.now.task.now aim.now.first.now }

        // The layers, and the looks.
        ensures counted { looks.old.left ≤ looks.new.left + hops * length aim.now.task.now.plan.contacts }
        ensures made { IfOk result (IsMadeBack aim.now.task.now aim.now.delivery hops looks.old looks.new self.new) }
        ensures stops { StopsOnlyIf result (looks.old.left < hops * length aim.now.task.now.plan.contacts) }
    {
        self.first_back(aim.task, aim.delivery)?;
        for left in 0..hops {
            if self.is_met(aim.first) {
                return Ok(Some(left));
            }
            if self.ends[left] == self.ends[left + 1] {
                return Ok(None);
            }
            self.next_back(aim, looks, left)?;
            let end = self.entries.len();
            self.ends.push(end)?;
        }
        Ok(None)
    }
}
