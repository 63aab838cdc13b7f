//! Why a search stops before it is done.

ghost use Rattle.std.specs.Prelude.{◌≡◌};
ghost use Rattle.sabr_search.specs.declared.stopped.Stopped.TheVariants as stopped;

use std::alloc::{AllocError, AllocFailed};

/// Why a search, or a part of one, stopped before it was done.
#[derive(Clone, Copy)]
pub enum Stopped {
    /// An allocation failed.
    NoMemory,
    /// More looks might be needed than are left, or the search came to a limit of its own.
    NoLooks,
}

impl From<AllocError> for Stopped {
    ghost from_gives = { λ _ e. e ≡ stopped.NoMemory };

    fn from(_error: AllocError) -> Stopped {
        Stopped::NoMemory
    }
}

impl<T: Drop> From<AllocFailed<T>> for Stopped {
    ghost from_gives = { λ _ e. e ≡ stopped.NoMemory };

    fn from(_error: AllocFailed<T>) -> Stopped {
        Stopped::NoMemory
    }
}

impl From<sabr_model::NoMemory> for Stopped {
    ghost from_gives = { λ _ e. e ≡ stopped.NoMemory };

    fn from(_error: sabr_model::NoMemory) -> Stopped {
        Stopped::NoMemory
    }
}
