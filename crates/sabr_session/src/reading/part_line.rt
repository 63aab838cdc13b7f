//! The line of a part.

ghost use Rattle.std.specs.Prelude.{◌≡◌, [], None, Some, if◌then◌else◌, IfOk};
ghost use Rattle.std.specs.Option.{option_copied};
ghost use Rattle.sabr_session.specs.SessionWords.{words_of};
ghost use Rattle.sabr_session.specs.SessionLines.{carried_of, lists_of, part_of};

use crate::reading::first_lines::after_label;
use crate::reading::lists::{list_to_end, list_to_slash};
use sabr_model::NoMemory;
use std::alloc::Allocator;
use std::marker::Model;

/// The three lists of a part, in memory that is used for each part. The third is empty if the part has no route.
/// Contracts see the part.
#[derive(Drop)]
pub(crate) struct PartLine<A: Allocator + Copy> {
    prefix: Vec<u32, A>,
    excluded: Vec<u32, A>,
    route: Vec<u32, A>,
}

impl<A: Allocator + Copy> Model for PartLine<A> {
    ghost use Rattle.sabr_frontier.specs.listing.State.{PartState};
    ghost use Rattle.sabr_session.specs.SessionLines.{carried_of};

    ghost Value = { PartState };

    ghost view = { λ l. record { prefix = l.prefix.items; excluded = l.excluded.items; carried = carried_of l.route.items } };
}

impl<A: Allocator + Copy> PartLine<A> {
    /// Returns three empty lists. It doesn't allocate.
    pub(crate) fn new(alloc: A) -> PartLine<A>
        ensures { result ≡ record { prefix = []; excluded = []; carried = None } }
    {
        PartLine {
            prefix: Vec::new(alloc),
            excluded: Vec::new(alloc),
            route: Vec::new(alloc),
        }
    }

    /// Reads `part LIST / LIST / LIST` into the lists, and replaces their contents. Returns whether the line has that
    /// form.
    ///
    /// # Errors
    ///
    /// [`NoMemory`] if an allocation failed. Then, and if the line isn't a part's, the contents of the lists are
    /// unspecified.
    #[tactic(auto, unfolding(crate::specs::SessionLines::part_of))]
    pub(crate) fn read(&mut self, line: &[u8]) -> Result<bool, NoMemory>
        ensures { IfOk result (λ found. part_of line.now ≡ (if found then Some self.new else None)) }
    {
        let Some(text) = after_label(b"part ", line) else {
            return Ok(false);
        };
        self.read_lists(text)
    }

    /// Reads `LIST / LIST / LIST`, and returns whether the text has that form.
    fn read_lists(&mut self, text: &[u8]) -> Result<bool, NoMemory>
        ensures { IfOk result (λ found. lists_of (words_of text.now) ≡ (if found then Some self.new else None)) }
    {
        let Some(prefix) = list_to_slash(&mut self.prefix, text)? else {
            return Ok(false);
        };
        let Some(after) = prefix.rest else {
            return Ok(false);
        };
        let Some(excluded) = list_to_slash(&mut self.excluded, after)? else {
            return Ok(false);
        };
        let Some(after) = excluded.rest else {
            return Ok(false);
        };
        list_to_end(&mut self.route, after)
    }

    /// The prefix of the part: each route of the part begins with these numbers.
    pub(crate) fn prefix(&self) -> &[u32]
        ensures { result.now ≡ self.now.prefix }
    {
        self.prefix.as_slice()
    }

    /// The excluded contacts: no route of the part has one of these numbers right after the prefix.
    pub(crate) fn excluded(&self) -> &[u32]
        ensures { result.now ≡ self.now.excluded }
    {
        self.excluded.as_slice()
    }

    /// The numbers of the best route of the part, if it has one.
    pub(crate) fn carried(&self) -> Option<&[u32]>
        ensures { option_copied result ≡ self.now.carried }
    {
        if self.route.is_empty() {
            None
        } else {
            Some(self.route.as_slice())
        }
    }
}
