//! What no two standing contacts have in common: sender, receiver and start.

/// The sender, the receiver and the start of a contact, by which a contact is deleted (ionrc(5), `d contact`).
#[derive(Clone, Copy, PartialEq, Eq, Hash)]
pub struct Opening {
    /// The sending node.
    pub from: u64,
    /// The receiving node.
    pub to: u64,
    /// The first second at which the contact can be used, in seconds since 1970-01-01T00:00:00Z.
    pub start: u64,
}
