//! A call.

use crate::asked::Asked;
use commands::CommandName;

/// What a call runs.
#[derive(Clone, Copy)]
pub enum Run {
    /// A command of the program.
    Command(CommandName),
    /// Writes the canonical text of the plan.
    Canonical,
}

/// A call: what it runs, and what it is asked.
#[derive(Clone, Copy)]
pub struct Call<'c, 'a> {
    /// What it runs.
    pub run: Run,
    /// What it is asked.
    pub asked: &'c Asked<'a>,
}
