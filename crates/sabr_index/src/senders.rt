//! The links to a node, which a search reads that goes backward from the goal.

ghost use Rattle.std.specs.Prelude.{◌≡◌, ◌<◌, Some, length, slice_get};
ghost use Rattle.sabr_index.specs.Links.{AreWithin};
ghost use Rattle.sabr_index.specs.Incoming.{links_named, LieThere, IsHeadAt};

use crate::link::{LinkBounds, Sender, SenderHead};
use crate::table::LinkTable;
use std::alloc::{Allocator, Global};
use std::marker::Model;

/// A link by the index of its sender in the table of nodes and its place among the sender's links, with its bounds,
/// which are compared before it is read. The entry has no gaps between its fields.
#[derive(Clone, Copy)]
pub struct Incoming {
    pub latest_end: u64,
    pub soonest: u64,
    pub least_light: u32,
    pub sender: u16,
    pub place: u16,
}

/// The links to one node, each with its sender.
#[derive(Drop)]
pub struct Senders<'a, A: Allocator + Copy = Global> {
    incoming: &'a [Incoming],
    linked: &'a LinkTable<A>,
}

impl<'a, A: Allocator + Copy> Model for Senders<'a, A> {
    ghost use Rattle.std.specs.Prelude.{List};
    ghost use Rattle.sabr_index.specs.Links.{SentLink};
    ghost use Rattle.sabr_index.specs.Incoming.{LieThere, links_named};

    ghost Value = { List SentLink };

    ghost view = { λ a. links_named a.linked.now a.incoming.now };

    ghost invariant = { λ a. LieThere a.linked.now a.incoming.now };
}

impl<'a, A: Allocator + Copy> Senders<'a, A> {
    /// Makes the list of these links, which are among those of all nodes.
    pub fn over(incoming: &'a [Incoming], linked: &'a LinkTable<A>) -> Senders<'a, A>
        requires { LieThere linked.now incoming.now }
        ensures { result ≡ links_named linked.now incoming.now }
    {
        Senders { incoming, linked }
    }

    /// The number of links to the node.
    pub fn len(&self) -> usize
        ensures { result ≡ length self.now }
    {
        self.incoming.len()
    }

    /// What is compared before the link at a place is read.
    #[inline(always)]
    pub fn head(&self, place: usize) -> SenderHead
        requires { place < length self.now }
        ensures { IsHeadAt self.now place result }
    {
        let incoming = self.incoming;
        let top = incoming[place];
        SenderHead {
            node: top.sender as usize,
            bounds: LinkBounds {
                latest_end: top.latest_end,
                least_light: top.least_light,
                soonest: top.soonest,
            },
        }
    }

    /// The link at a place.
    pub fn at(&self, place: usize) -> Sender<'a>
        requires { place < length self.now }
        ensures link { slice_get self.now place ≡ Some (record { sender = result.node; passes = result.passes.now }) }
        ensures bounds { AreWithin result.bounds result.passes.now }
    {
        let linked = self.linked;
        let named = self.incoming[place];
        let sent = linked.of(named.sender as usize);
        let link = sent.links[named.place as usize];
        let passes = sent.passes;
        Sender {
            node: named.sender as usize,
            passes: &passes[link.first as usize..link.end as usize],
            bounds: link.bounds,
        }
    }
}
