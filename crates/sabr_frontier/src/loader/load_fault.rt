//! The reasons why a state is not loaded.

use sabr_model::NoMemory;
use thiserror::Error;

/// The reason why a part was not added, or no session was made; the first that holds, in this order.
#[derive(Clone, Copy, Debug, PartialEq, Eq, Error)]
pub enum LoadFault {
    /// The excluded numbers don't rise strictly, or the prefix isn't greater than that of the part before.
    #[error("the part is out of order")]
    BadOrder,
    /// What the part is to carry is no route of the part.
    #[error("the carried list is no route of its part")]
    BadRoute,
    /// The parts aren't closed: they aren't those that are left after some routes were given.
    #[error("the parts are not closed")]
    NotClosed,
    /// The parts are closed, but the count isn't that of their leaves, or the last route isn't one of them.
    #[error("the count or the last route is wrong")]
    BadCount,
    /// An allocation failed.
    #[error("out of memory")]
    NoMemory,
}

ghost use Rattle.std.specs.Prelude.{◌≡◌};
ghost use Rattle.sabr_frontier.specs.declared.loader.load_fault.LoadFault.TheVariants as load;

impl From<NoMemory> for LoadFault {
    ghost from_gives = { λ _ e. e ≡ load.NoMemory };

    fn from(_error: NoMemory) -> LoadFault {
        LoadFault::NoMemory
    }
}
