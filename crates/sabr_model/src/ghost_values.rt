//! What only proofs see of a device or a search: a log of bytes, a count, and a flag.

ghost use Rattle.std.specs.Prelude.{◌≡◌, ℕ, List, [], ◌++◌, ◌+◌, Bool, true, false};
ghost use Rattle.std.specs.Borrow.{ftrue};

use std::marker::Model;

/// A log of bytes that only proofs see. It has no size at run time and no largest length.
#[derive(Drop)]
pub struct GhostBytes {
    pub ghost bytes: { List ℕ },
}

impl Model for GhostBytes {
    ghost also_owns = { λ _. ftrue };
}

impl GhostBytes {
    /// Starts empty.
    pub fn new() -> GhostBytes
        ensures { result.bytes ≡ [] }
    {
        GhostBytes {}
    }

    /// Logs more bytes, after the others.
    pub fn append(&mut self, more: &[u8])
        ensures { self.new.bytes ≡ self.old.bytes ++ more.now }
    {}
}

/// A count that only proofs see. It has no size at run time and no upper bound.
#[derive(Drop)]
pub struct GhostCount {
    pub ghost count: { ℕ },
}

impl Model for GhostCount {
    ghost also_owns = { λ _. ftrue };
}

impl GhostCount {
    /// Starts at 0.
    pub fn new() -> GhostCount
        ensures { result.count ≡ 0 }
    {
        GhostCount {}
    }

    /// Counts one more.
    pub fn add(&mut self)
        ensures { self.new.count ≡ self.old.count + 1 }
    {}
}

/// A flag that only proofs see. It has no size at run time.
#[derive(Drop)]
pub struct GhostFlag {
    pub ghost is_up: { Bool },
}

impl Model for GhostFlag {
    ghost also_owns = { λ _. ftrue };
}

impl GhostFlag {
    /// Returns a flag that is down.
    pub fn down() -> GhostFlag
        ensures { result.is_up ≡ false }
    {
        GhostFlag {}
    }

    /// Returns a flag that is up.
    pub fn up() -> GhostFlag
        ensures { result.is_up ≡ true }
    {
        GhostFlag {}
    }
}
