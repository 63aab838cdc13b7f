//! The words of the command line, as a table: each with its value and its help.

/// A word with a value.
#[derive(Clone, Copy)]
pub struct Word {
    /// The word, without its two dashes.
    pub name: &'static str,
    /// What its value looks like.
    pub form: &'static str,
    /// What its value is, and its limits.
    pub help: &'static str,
    /// Whether each command that has the word requires it.
    pub required: bool,
}

/// The plan's file.
pub const PLAN: Word = Word {
    name: "plan",
    form: "FILE",
    help: "The contact plan",
    required: true,
};

/// The source.
pub const FROM: Word = Word {
    name: "from",
    form: "NODE",
    help: "Source: a node from 1 to 18446744073709551615",
    required: true,
};

/// The destination.
pub const TO: Word = Word {
    name: "to",
    form: "NODE",
    help: "Destination: another node from 1 to 18446744073709551615",
    required: true,
};

/// The time at which the bundle is at the source.
pub const AT: Word = Word {
    name: "at",
    form: "yyyy/mm/dd-hh:mm:ss",
    help: "When the bundle is at the source: UTC, years 1970 to 9998",
    required: true,
};

/// The margin on light times.
pub const MARGIN_PPM: Word = Word {
    name: "margin-ppm",
    form: "PPM",
    help: "Margin on each light time, in ppm, rounded up: 0 (default) to 1000000",
    required: false,
};

/// The limit on hops.
pub const MAX_HOPS: Word = Word {
    name: "max-hops",
    form: "HOPS",
    help: "The most contacts of a route: 1 to 20000 (default)",
    required: false,
};

/// The nodes to avoid.
pub const AVOID: Word = Word {
    name: "avoid",
    form: "NODE,NODE..",
    help: "Nodes that no route visits, ascending: 1 to 16, without --from and --to",
    required: false,
};

/// The number of routes of a page.
pub const COUNT: Word = Word {
    name: "count",
    form: "COUNT",
    help: "The most routes to print: 1 to 10000",
    required: true,
};

/// The contacts to explain.
pub const CONTACTS: Word = Word {
    name: "contacts",
    form: "NUMBER,NUMBER..",
    help: "Contact numbers, 1 to 4294967295, in the order of use",
    required: true,
};

/// The file of requests.
pub const REQUESTS: Word = Word {
    name: "requests",
    form: "FILE",
    help: "The requests, each on a line",
    required: true,
};

/// The file of lists.
pub const LISTS: Word = Word {
    name: "lists",
    form: "FILE",
    help: "The lists of contacts, each on a line with its request",
    required: true,
};

/// The old session's file.
pub const SESSION: Word = Word {
    name: "session",
    form: "FILE",
    help: "The session text that an earlier run wrote",
    required: true,
};

/// The new session's file.
pub const SESSION_OUT: Word = Word {
    name: "session-out",
    form: "FILE",
    help: "A new file for the session text; one that exists stays as it is",
    required: false,
};
