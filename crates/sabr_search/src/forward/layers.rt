//! Hop layers, made forward: for each number of hops, the nodes that it reaches earlier than fewer do, and when.

ghost use Rattle.std.specs.Prelude.{◌≡◌, ◌⊎◌, ℕ, [], ◌∷◌, ◌+◌, ◌*◌, ◌^◌, ◌≤◌, ◌<◌, length, take, slice_set, slice_index, slice_index_or, false, OnOk, IfOk};
ghost use Rattle.sabr_search.specs.questions.Task.{IsTask, Takes, latest_arrival};
ghost use Rattle.sabr_search.specs.questions.Linked.{degree, IsLinkWithin, HasNumber};
ghost use Rattle.sabr_search.specs.questions.Stops.{StopsOnlyIf};
ghost use Rattle.sabr_search.specs.layers.Lists.{IsPlaced, StayLinked, IsLayer, AddsGiven, AreLists, AreLowered, IsKnown, AreSources, GivenAt, GivenFrom, IsKnownFrom, IsBroughtTo, IsMade};
ghost use Rattle.sabr_search.specs.questions.FirstSteps.{IsNoneBefore};

use crate::forward::arrivals::{initial_arrivals, news_before};
use crate::found::Best;
use crate::links::walked_link::{WalkedLink, rules_out};
use crate::stopped::Stopped;
use crate::task::Task;
use crate::visit::Visit;
use sabr_index::Looks;
use sabr_model::NoMemory;
use std::alloc::Allocator;

/// The layer that is made: where its entries begin, and the earliest delivery so far.
#[derive(Clone, Copy)]
struct Layer {
    begin: usize,
    best: u64,
}

/// The layers, and what is known of each node.
#[derive(Drop)]
pub struct Layers<A: Allocator + Copy> {
    /// For each node, the earliest arrival so far.
    pub arrival: Vec<u64, A>,
    /// For each node, the place of an entry; 0 if it has none.
    pub place: Vec<usize, A>,
    /// The entries, layer by layer; the first is the start.
    pub reached: Vec<Visit, A>,
}

impl<A: Allocator + Copy> Layers<A> {
    /// Starts without layers. It doesn't allocate.
    pub fn new(alloc: A) -> Layers<A> {
        Layers {
            arrival: Vec::new(alloc),
            place: Vec::new(alloc),
            reached: Vec::new(alloc),
        }
    }

    /// Notes an earlier arrival at a node in the layer that begins at `begin`, once for each node.
    fn note(&mut self, node: usize, arrival: u64, begin: usize) -> Result<(), NoMemory>
        requires node { node < length self.old.arrival.items }

        // The layers so far.
        requires placed { IsPlaced self.old.place.items self.old.reached.items }
        requires many { length self.old.place.items ≡ length self.old.arrival.items }
        requires layer { IsLayer begin self.old.place.items self.old.reached.items }
        requires later { 0 < begin }

        // The arrival is noted in the layer that is made. Those before it stay.
        ensures arrivals { OnOk result (self.new.arrival.items ≡ slice_set self.old.arrival.items node arrival) }
        ensures placed { OnOk result (IsPlaced self.new.place.items self.new.reached.items) }
        ensures linked { OnOk result (StayLinked self.old self.new) }
        ensures layer { OnOk result (IsLayer begin self.new.place.items self.new.reached.items) }
        ensures before { OnOk result (take begin self.new.reached.items ≡ take begin self.old.reached.items) }
        ensures entries { OnOk result (AddsGiven self.old.reached.items self.new.reached.items (λ w b. (w ≡ node) × (b ≡ arrival))) }
    {
        let at = self.place[node];
        if at >= begin {
            self.reached[at].at = arrival;
        } else {
            let end = self.reached.len();
            self.reached.push(Visit { node, at: arrival })?;
            self.place[node] = end;
        }
        self.arrival[node] = arrival;
        Ok(())
    }

    /// Takes one link of a node that is reached at `at`. Returns the earliest delivery so far.
    fn take_link(
        &mut self,
        task: &Task<'_, A>,
        looks: &mut Looks,
        at: u64,
        link: WalkedLink<'_>,
        layer: Layer,
    ) -> Result<u64, NoMemory>
        requires task { IsTask task.now }

        // The link leads from a node that is reached.
        requires link { IsLinkWithin task.now link.from link.to link.passes.now link.bounds }
        requires receiver { link.to < length task.now.table }
        requires since { task.now.at ≤ at }
        requires few { length link.passes.now ≤ looks.old.left }

        // The layers so far.
        requires later { 0 < layer.begin }
        requires lists { AreLists task.now.forbidden task.now.goal task.now.at layer.begin self.old.arrival.items self.old.place.items self.old.reached.items }

        // The looks, and what is known afterwards.
        ensures looks { looks.old.left ≤ looks.new.left + length link.entry.passes.now }
        ensures lowered { IfOk result (λ b. AreLowered task.now layer.begin (GivenAt task.now link.entry.from at) self.old layer.best self.new b) }
        ensures known { IfOk result (λ b. (n w x : ℕ) → HasNumber link.entry.passes.now n → Takes task.now n link.entry.from at w x → IsKnown task.now.goal self.new.arrival.items b w x) }
    {
        let to = link.to;
        let before = news_before(&self.arrival, &[], to, layer.best);
        let arrival = task.arrive_over(looks, link, at, before);
        if arrival >= before {
            return Ok(layer.best);
        }
        if to == task.goal() {
            return Ok(arrival);
        }
        self.note(to, arrival, layer.begin)?;
        Ok(layer.best)
    }

    /// Takes every contact of a node that is reached. Returns the earliest delivery so far.
    fn take_all(
        &mut self,
        task: &Task<'_, A>,
        looks: &mut Looks,
        from: Visit,
        begin: usize,
        best: u64,
    ) -> Result<u64, NoMemory>
        requires task { IsTask task.now }

        // The node is reached.
        requires node { from.node < length task.now.table }
        requires since { task.now.at ≤ from.at }
        requires early { from.at ≤ latest_arrival }
        requires few { degree task.now from.node ≤ looks.old.left }

        // The layers so far.
        requires later { 0 < begin }
        requires lists { AreLists task.now.forbidden task.now.goal task.now.at begin self.old.arrival.items self.old.place.items self.old.reached.items }

        // The looks, and what is known afterwards.
        ensures looks { looks.old.left ≤ looks.new.left + degree task.now from.node }
        ensures lowered { IfOk result (λ b. AreLowered task.now begin (GivenAt task.now from.node from.at) self.old best self.new b) }
        ensures known { IfOk result (λ b. (n w x : ℕ) → Takes task.now n from.node from.at w x → IsKnown task.now.goal self.new.arrival.items b w x) }
    {
        let links = task.links(from.node);
        let mut earliest = best;
        for place in 0..links.links.len() {
            let link = &links.links[place];
            if rules_out(link.bounds, from.at, self.arrival[link.receiver as usize]) {
                continue;
            }
            let link = task.link(links, from.node, place);
            let layer = Layer {
                begin,
                best: earliest,
            };
            earliest = self.take_link(task, looks, from.at, link, layer)?;
        }
        Ok(earliest)
    }

    /// Takes every contact of every node of the last layer, whose entries are those from `first` to before `begin`.
    /// Returns the earliest delivery so far.
    fn next_layer(
        &mut self,
        task: &Task<'_, A>,
        looks: &mut Looks,
        first: usize,
        begin: usize,
        best: u64,
    ) -> Result<u64, NoMemory>
        requires task { IsTask task.now }
        requires few { length task.now.plan.contacts ≤ looks.old.left }

        // The layers so far.
        requires last { begin ≡ length self.old.reached.items }
        requires later { 0 < begin }
        requires sources { AreSources task.now self.old.reached.items first begin }
        requires lists { AreLists task.now.forbidden task.now.goal task.now.at begin self.old.arrival.items self.old.place.items self.old.reached.items }

        // The looks, and what is known afterwards.
        ensures looks { looks.old.left ≤ looks.new.left + length task.now.plan.contacts }
        ensures lowered { IfOk result (λ b. AreLowered task.now begin (GivenFrom task.now self.old.reached.items first begin) self.old best self.new b) }
        ensures known { IfOk result (λ b. IsKnownFrom task.now self.old.reached.items first begin self.new.arrival.items b) }
    {
        let mut earliest = best;
        for place in first..begin {
            let from = self.reached[place];
            earliest = self.take_all(task, looks, from, begin, earliest)?;
        }
        Ok(earliest)
    }

    /// Takes every link to the goal from an open node that is reached, as the last layer. Returns the earliest delivery
    /// so far.
    fn last_layer(&self, task: &Task<'_, A>, looks: &mut Looks, best: u64) -> u64
        requires task { IsTask task.now }
        requires few { length task.now.plan.contacts ≤ looks.old.left }
        requires many { length self.now.arrival.items ≡ length task.now.table }
        ensures looks { looks.old.left ≤ looks.new.left + length task.now.plan.contacts }
        ensures lower { result ≤ best }
        ensures known { (n u b : ℕ) → Takes task.now n u (slice_index self.now.arrival.items u) task.now.goal b → slice_index_or task.now.forbidden u false ≡ false → result ≤ b }
        ensures found { (result ≡ best) ⊎ IsBroughtTo task.now self.now.arrival.items result }
    {
        let goal = task.goal();
        let senders = task.senders(goal);
        let mut earliest = best;
        for place in 0..senders.len() {
            let head = senders.head(place);
            let at = self.arrival[head.node];
            if rules_out(head.bounds, at, earliest) {
                continue;
            }
            if task.forbidden()[head.node] {
                continue;
            }
            let from = senders.at(place);
            let link = WalkedLink {
                from: from.node,
                to: goal,
                passes: from.passes,
                bounds: from.bounds,
            };
            earliest = task.arrive_over(looks, link, at, earliest);
        }
        earliest
    }

    /// Makes layer 0: the start alone.
    fn first_layer(&mut self, task: &Task<'_, A>) -> Result<(), NoMemory>
        requires { IsTask task.now }
        ensures reached { OnOk result (self.new.reached.items ≡ record { node = task.now.start; at = task.now.at } ∷ []) }
        ensures lists { OnOk result (AreLists task.now.forbidden task.now.goal task.now.at 1 self.new.arrival.items self.new.place.items self.new.reached.items) }
    {
        initial_arrivals(&mut self.arrival, task, &[])?;
        self.place.clear();
        self.place.resize(task.node_count(), 0)?;
        self.reached.clear();
        self.reached.push(task.beginning())?;
        Ok(())
    }

    /// Makes layers until the goal is reached at `lower` or before, a layer has no node, or the hops are used up. No
    /// way delivers before `lower`. Returns the earliest delivery and its hops, or `None` if no way delivers before
    /// `until`.
    pub fn make(
        &mut self,
        task: &Task<'_, A>,
        looks: &mut Looks,
        hops: usize,
        lower: u64,
        until: u64,
    ) -> Result<Option<Best>, Stopped>
        requires task { IsTask task.now }
        requires lower { IsNoneBefore task.now lower }
        ensures counted { looks.old.left ≤ looks.new.left + hops * length task.now.plan.contacts }
        ensures made { IfOk result (IsMade task.now until hops) }
        ensures stops { StopsOnlyIf result (looks.old.left < hops * length task.now.plan.contacts) }
    {
        self.first_layer(task)?;
        let mut best = Best::none(until);
        let mut first = 0;
        for hop in 0..hops {
            if task.one_scan() > looks.left() {
                return Err(Stopped::NoLooks);
            }
            if hop > 0 && hop + 1 == hops {
                let delivery = self.last_layer(task, looks, best.delivery);
                if delivery < best.delivery {
                    best = Best { delivery, hops };
                }
                return Ok(best.found(until));
            }
            let begin = self.reached.len();
            let delivery = self.next_layer(task, looks, first, begin, best.delivery)?;
            if delivery < best.delivery {
                best = Best {
                    delivery,
                    hops: hop + 1,
                };
            }
            let end = self.reached.len();
            if best.delivery <= lower {
                return Ok(best.found(until));
            }
            if end == begin {
                return Ok(best.found(until));
            }
            first = begin;
        }
        Ok(best.found(until))
    }
}
