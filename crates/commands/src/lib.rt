//! The commands of the program `cgrlist`: the words of its command line, its runs, and the texts that they write.
//!
//! [`run_words`] is the program, for the words after its name. It parses them with `clap`, reads their values strictly,
//! opens the files that they name, and runs a command over these. The runs are also functions of their own, over any
//! readers and writers: [`run_first`] and [`run_next`] list routes page by page, [`run_verify`] checks a session text,
//! [`run_check`] prints what a plan contains, [`run_explain`] follows a list of contacts, and [`run_many`] and
//! [`run_follow`] answer each line of a text.
//!
//! **Values.** [`read_values`] reads the values of a command from what `clap` found, and [`first_values_in`],
//! [`page_count_in`] and [`explain_values_in`] from texts, wherever they come from. Times are seconds since
//! 1970-01-01T00:00:00Z, a margin is in parts per million of light times, and a page has 1 to 10000 routes.
//!
//! **Files.** A [`FileSystem`] opens files and makes the one for a session, and its contract says what is left of it.
//! [`Disk`] is the system's.
//!
//! **Errors.** A [`Failure`] is the first reason why a run ended early: a bad value, a file, a bad line, a reader, a
//! writer or memory. It has a message on standard error, which [`report_failure`] writes, and a [`Status`].
//!
//! **Theorems.** [`runs_in_turn`] and [`calls_in_turn`] show that runs and calls in turn print the list of all routes
//! page by page, and [`many_answers_as_first`] and [`follow_answers_as_explain`] that each answer is that of a run of
//! its own.
//!
//! The first two routes of a request, and no session:
//!
//! ```ignore
//! let status = run_first(alloc, &mut plan, request, 2, &mut out, false, &mut session, &mut err);
//! ```
//!
//! The contract of [`explanations_of_plan_a`] is a worked example: the explanations of a route, and of lists with one
//! fault each.
#![tactic(auto)]

mod calls;
mod command;
mod failure;
mod files;
mod headline;
mod program;
mod runs;
mod texts;
mod words;
mod worked_explanations;

pub use command::CommandName;
pub use failure::{Failure, Status};
pub use files::{Disk, DiskRemover, FileSystem, Remover};
pub use headline::{
    calls_in_turn, every_run, follow_answers_as_explain, many_answers_as_first, next_goes_on,
    runs_go_on, runs_in_turn,
};
pub use program::run_words;
pub use runs::{run_check, run_explain, run_first, run_follow, run_many, run_next, run_verify};
pub use texts::report_failure;
pub use words::{
    RequestTexts, ValueFault, ValueName, ValueTexts, Values, explain_values_in, first_values_in,
    page_count_in, read_values,
};
pub use worked_explanations::explanations_of_plan_a;
