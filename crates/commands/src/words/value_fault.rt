//! The names of the values on the command line, and why values are refused.

ghost use Rattle.std.specs.Prelude.{◌≡◌};
ghost use Rattle.commands.specs.declared.words.value_fault.ValueFault.TheVariants as fault;
ghost use Rattle.commands.specs.words.Values.{name_text};

use crate::words::table::{AT, AVOID, CONTACTS, COUNT, FROM, MARGIN_PPM, MAX_HOPS, TO};
use sabr_model::NoMemory;
use thiserror::Error;

/// A value of the command line, by its word. The first bad one in this order is reported.
#[derive(Clone, Copy, Debug, PartialEq, Eq)]
pub enum ValueName {
    /// The source.
    From,
    /// The destination.
    To,
    /// The time at which the bundle is at the source.
    At,
    /// The margin on light times, in parts per million.
    MarginPpm,
    /// The limit on hops.
    MaxHops,
    /// The nodes to avoid.
    Avoid,
    /// The number of routes asked for.
    Count,
    /// The contacts to explain.
    Contacts,
}

impl ValueName {
    /// The word, without its two dashes.
    pub fn text(self) -> &'static str
        ensures { result.now ≡ name_text self }
    {
        match self {
            ValueName::From => FROM.name,
            ValueName::To => TO.name,
            ValueName::At => AT.name,
            ValueName::MarginPpm => MARGIN_PPM.name,
            ValueName::MaxHops => MAX_HOPS.name,
            ValueName::Avoid => AVOID.name,
            ValueName::Count => COUNT.name,
            ValueName::Contacts => CONTACTS.name,
        }
    }
}

/// Why the values of a command are refused.
#[derive(Clone, Copy, Debug, PartialEq, Eq, Error)]
pub enum ValueFault {
    /// A value is missing, misspelled, or out of its range.
    #[error("--{} is missing or not spelled as it must be", .0.text())]
    Bad(ValueName),
    /// The source is the destination.
    #[error("source and destination are the same node")]
    SameNode,
    /// An allocation failed.
    #[error("out of memory")]
    NoMemory,
    /// The avoided nodes aren't strictly ascending, or hold the source or the destination.
    #[error("the avoided nodes do not rise strictly, or hold the source or the destination")]
    BadAvoid,
}

/// A failed allocation.
impl From<NoMemory> for ValueFault {
    ghost from_gives = { λ _ e. e ≡ fault.NoMemory };

    fn from(_refused: NoMemory) -> ValueFault {
        ValueFault::NoMemory
    }
}
