//! The index that searches read: the links of each node of a plan, and the links to it.
//!
//! A link is all contacts from one node to another that have a light time, in order of their starts. Each contact has
//! bounds on the others of its link, and each link has bounds on all its contacts, so that a search skips most of them.
//! The index is made once for a plan, and serves every request over it: [`Index::links`] lends the links from a node, and
//! [`CountedPlan::senders`] those that lead to it. [`Looks`] counts how often a search reads a contact's record.
//!
//! [`Index::new`] takes some steps for each contact and node, without a comparison: contacts are grouped by receiver and
//! then by sender, and links by receiver, each time by counting. Only the contacts of a link that weren't added in order
//! of their starts are sorted. An index takes 80 bytes for each contact, 24 for each
//! link and 40 for each node. The 80 bytes include room for a link, since links aren't counted before they are made.
//!
//! Two contacts from node 1 to node 2 are one link, over which nothing arrives before the first start and 10 seconds of
//! light time:
//!
//! ```ignore
//! let mut plan = Plan::new(rt.alloc());
//! plan.add_contact(1, 2, 1893456000, 1893456100, 1000)?;
//! plan.add_contact(1, 2, 1893456200, 1893456300, 1000)?;
//! plan.add_range(1, 2, 1893456000, 1893457000, 10)?;
//! let index = Index::new(rt.alloc(), &plan)?;
//! let from_node_1 = index.links(0);
//! assert_eq!(rt; from_node_1.links.len(), 1);
//! assert_eq!(rt; from_node_1.passes.len(), 2);
//! assert_eq!(rt; from_node_1.links[0].bounds.soonest, 1893456010);
//! ```
#![tactic(auto)]

mod bounds;
mod building;
mod counted_plan;
mod incoming;
mod index;
mod link;
mod looks;
mod order;
mod plan_links;
mod senders;
mod table;

pub use counted_plan::{CountedPlan, Followed};
pub use index::Index;
pub use link::{Link, LinkBounds, Links, Pass, Sender, SenderHead};
pub use looks::{Looked, Looks, SetAside};
pub use plan_links::{HeldLinks, PlanLinks};
pub use senders::Senders;
