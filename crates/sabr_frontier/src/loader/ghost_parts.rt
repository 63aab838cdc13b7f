//! Parts that proofs alone see.

ghost use Rattle.std.specs.Prelude.{◌≡◌, List, [], ◌∷◌, ◌++◌, Some, None};
ghost use Rattle.std.specs.Option.{option_copied};
ghost use Rattle.std.specs.Borrow.{ftrue};
ghost use Rattle.sabr_frontier.specs.listing.State.{PartState, part_with};

use std::marker::Model;

/// Parts that proofs alone see. They take no bytes.
#[derive(Drop)]
pub struct GhostParts {
    pub ghost items: { List PartState },
}

impl Model for GhostParts {
    ghost also_owns = { λ _. ftrue };
}

impl GhostParts {
    /// Starts empty.
    pub fn new() -> GhostParts
        ensures { result.items ≡ [] }
    {
        GhostParts {}
    }

    /// Appends a part that carries no route.
    fn push_idle(&mut self, prefix: &[u32], excluded: &[u32])
        ensures { self.new.items ≡ self.old.items ++ part_with prefix.now excluded.now None ∷ [] }
    {}

    /// Appends a part that carries a route.
    fn push_carrying(&mut self, prefix: &[u32], excluded: &[u32], route: &[u32])
        ensures { self.new.items ≡ self.old.items ++ part_with prefix.now excluded.now (Some route.now) ∷ [] }
    {}

    /// Appends a part.
    pub fn push(&mut self, prefix: &[u32], excluded: &[u32], route: Option<&[u32]>)
        ensures { self.new.items ≡ self.old.items ++ part_with prefix.now excluded.now (option_copied route.entry) ∷ [] }
    {
        match route {
            Some(route) => self.push_carrying(prefix, excluded, route),
            None => self.push_idle(prefix, excluded),
        }
    }
}
