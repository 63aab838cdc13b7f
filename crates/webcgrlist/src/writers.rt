//! The writers of a run.

/// The writers of a run. A clause names them at a call's end by their places: `exit.0` for `report`, `exit.1.0` for
/// `session`, and `exit.1.1.0` for `message`.
#[derive(Drop)]
pub struct Writers<'w, O, S, E> {
    /// For the report.
    pub report: &'w mut O,
    /// For the session after a page.
    pub session: &'w mut S,
    /// For the message of a run that failed.
    pub message: &'w mut E,
}
