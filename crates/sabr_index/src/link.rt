//! A node's contacts as a search reads them: link by link, and by start on each link.

/// A standing contact with a light time, among the contacts of one link in order of their starts. With it are bounds on
/// the contacts before and after it, so that a search can skip most of them.
///
/// Other crates read its record only by `look`, and its bounds without it.
#[derive(Clone, Copy)]
pub struct Pass {
    /// The contact's number.
    pub(crate) number: u32,
    /// The one-way light time in seconds that is in force at its start.
    pub(crate) light: u32,
    /// The first second at which the contact can be used.
    pub(crate) start: u64,
    /// The first second at which the contact can no longer be used.
    pub(crate) end: u64,
    /// The largest end of this contact and those before it on the link.
    pub latest_end: u64,
    /// The smallest light time of this contact and those before it on the link.
    pub least_light_before: u32,
    /// The smallest light time of this contact and those after it on the link.
    pub least_light_after: u32,
    /// The smallest number of this contact and those after it on the link.
    pub least_number_after: u32,
    /// The index of its receiver in the table of nodes.
    pub(crate) receiver: u16,
    /// How many contacts right after this one have the next numbers, one by one, as far as 16 bits count.
    pub next_numbers: u16,
}

/// Bounds that hold for each pass of a link, so that a search can skip the whole link.
#[derive(Clone, Copy)]
pub struct LinkBounds {
    /// A second by which each of its passes has ended.
    pub latest_end: u64,
    /// A light time in seconds that none of its passes is below.
    pub least_light: u32,
    /// A second before which no bundle arrives over any of its passes.
    pub soonest: u64,
}

/// The contacts from one node to another: a range of places among the node's passes, with bounds for all of them.
#[derive(Clone, Copy)]
pub struct Link {
    /// The index of the receiver in the table of nodes.
    pub receiver: u16,
    /// The place of the link's first pass.
    pub first: u16,
    /// The place after the link's last pass.
    pub end: u16,
    /// The bounds that hold for each of its passes.
    pub bounds: LinkBounds,
}

/// The links of one node, and the passes that they lie over, one link after another.
#[derive(Clone, Copy)]
pub struct Links<'a> {
    pub links: &'a [Link],
    pub passes: &'a [Pass],
}

/// What is compared before a link to a node is read: the index of its sender in the table of nodes, and the bounds for
/// all of its passes.
#[derive(Clone, Copy)]
pub struct SenderHead {
    pub node: usize,
    pub bounds: LinkBounds,
}

/// A link as its receiver sees it: the index of its sender in the table of nodes, its passes by start, and bounds for
/// all of them.
#[derive(Clone, Copy)]
pub struct Sender<'a> {
    pub node: usize,
    pub passes: &'a [Pass],
    pub bounds: LinkBounds,
}
