//! Why a contact or a range is refused.

ghost use Rattle.std.specs.Prelude.{◌≡◌};
ghost use Rattle.sabr_model.specs.declared.fault.AddFault.TheVariants.{DuplicateContact, RangeOverlap};
ghost use Rattle.sabr_model.specs.plan.Adding.{first_refusal};

use crate::contact::Range;
use crate::fault::AddFault;
use crate::limits::MAX_RECORDS;
use crate::opening::Opening;

impl Opening {
    /// Returns the first reason to refuse a contact with this opening and end, or `None`. A failed allocation is no
    /// reason here. `clashes` is whether another contact has this opening, and `given` is the number of contact numbers
    /// assigned so far.
    pub fn refusal(&self, end: u64, clashes: bool, given: u32) -> Option<AddFault>
        ensures { result ≡ first_refusal self.now.from self.now.to self.now.start end clashes DuplicateContact given }
    {
        let nodes = (self.from, self.to);
        let clash = AddFault::DuplicateContact;
        refusal(nodes, (self.start, end), clashes, clash, given as usize)
    }
}

impl Range {
    /// Returns the first reason to refuse this range, or `None`. A failed allocation is no reason here. `clashes` is
    /// whether it overlaps a range of its ordered pair, and `count` is the number of ranges.
    pub fn refusal(&self, clashes: bool, count: usize) -> Option<AddFault>
        ensures { result ≡ first_refusal self.now.one self.now.other self.now.start self.now.end clashes RangeOverlap count }
    {
        let nodes = (self.one, self.other);
        let window = (self.start, self.end);
        refusal(nodes, window, clashes, AddFault::RangeOverlap, count)
    }
}

/// Returns the first reason to refuse a contact or a range between two nodes, over a window. It is `clash` if another
/// record clashes with it, and `TooMany` if the count is at its limit.
fn refusal(
    nodes: (u64, u64),
    window: (u64, u64),
    clashes: bool,
    clash: AddFault,
    count: usize,
) -> Option<AddFault>
    ensures { result ≡ first_refusal nodes.0 nodes.1 window.0 window.1 clashes clash count }
{
    if window.0 >= window.1 {
        Some(AddFault::EmptyWindow)
    } else if nodes.0 == nodes.1 {
        Some(AddFault::SelfPair)
    } else if clashes {
        Some(clash)
    } else if count >= MAX_RECORDS {
        Some(AddFault::TooMany)
    } else {
        None
    }
}
