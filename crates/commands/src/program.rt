//! The program: words, files and the runs over them.

ghost use Rattle.std.specs.Prelude.{◌≡◌, ◌≢◌, MatchOption, None, map};
ghost use Rattle.clap.specs.Matches.{found_of};
ghost use Rattle.clap.specs.Simple.{subcommand_rows_of};
ghost use Rattle.clap.specs.Values.{kind_of};
ghost use Rattle.commands.specs.runs.Program.{EndsCommand, EndsWords, IsCall, ReportsRefusal, named_in};
ghost use Rattle.commands.specs.texts.Messages.{WritesMessage};

use crate::command::{CommandName, command_named};
use crate::failure::{Failure, Status};
use crate::files::FileSystem;
use crate::texts::report_failure;
use crate::words::parsed;
use clap::error::ErrorKind;
use clap::{ArgMatches, Error};
use sabr_model::{Write, write_text};
use std::alloc::Global;

/// Runs the program over the words after its name: reads their values, opens the files that they name, and runs the
/// command over these. The report goes to `out`, and messages and help go to `err`.
///
/// The status is [`Status::Usage`] if the words are refused or ask for help, [`Status::Io`] if a file can't be opened
/// or made, and [`Status::Memory`] if an allocation failed before the run. Then nothing is written to `out`. Else the
/// status is the run's. The file that was made for a session stays if the status is [`Status::Done`], and else
/// is removed; if that fails, it stays.
pub fn run_words<'w, D: FileSystem<'w>, O: Write, E: Write>(
    alloc: Global,
    words: &'w [&'w str],
    files: &mut D,
    out: &mut O,
    err: &mut E,
) -> Status
    ensures { EndsWords D.rules (map (λ w. w.now) words.now) (D.left files.old) (D.left files.new) (O.output out.old) (O.output out.new) (E.output err.old) (E.output err.new) result }
{
    match parsed(alloc, words) {
        Ok(matches) => match called(&matches) {
            Some((command, words)) => run_command(alloc, command, words, files, out, err),
            None => Status::Usage,
        },
        Err(refusal) => tell_usage(alloc, &refusal, err),
    }
}

/// Writes a text for the user. A failure of `err` changes nothing else.
fn tell_text<E: Write>(text: &str, err: &mut E)
    ensures { WritesMessage (E.output err.old) text.now (E.output err.new) }
{
    let _ = write_text(err, text.as_bytes());
}

/// Reports why the words were refused, or writes the help that they ask for.
fn tell_usage<E: Write>(alloc: Global, refusal: &Error, err: &mut E) -> Status
    ensures { ReportsRefusal (kind_of refusal.now ≢ ErrorKind.OutOfMemory) (E.output err.old) (E.output err.new) result }
{
    if refusal.kind() == ErrorKind::OutOfMemory {
        return report_failure(err, Failure::NoMemory);
    }
    let Ok(text) = refusal.to_string(alloc) else {
        return report_failure(err, Failure::NoMemory);
    };
    tell_text(text.as_str(), err);
    Status::Usage
}

/// Finds the command that the words name, with what they give it. `None` if they name none, which parsing refuses.
fn called<'m, 'w>(matches: &'m ArgMatches<'w>) -> Option<(CommandName, &'m ArgMatches<'w>)>
    ensures { MatchOption result (named_in (subcommand_rows_of matches.now) ≡ None) (λ c. IsCall (subcommand_rows_of matches.now) c.0 (found_of c.1.now)) }
{
    let (name, words) = matches.subcommand()?;
    let command = command_named(name)?;
    Some((command, words))
}

/// Runs a command over its words, or reports why it couldn't begin.
fn run_command<'w, D: FileSystem<'w>, O: Write, E: Write>(
    alloc: Global,
    command: CommandName,
    words: &ArgMatches<'w>,
    files: &mut D,
    out: &mut O,
    err: &mut E,
) -> Status
    ensures { EndsCommand D.rules command (found_of words.now) (D.left files.old) (D.left files.new) (O.output out.old) (O.output out.new) (E.output err.old) (E.output err.new) result }
{
    match command.run(alloc, words, files, out, err) {
        Ok(status) => status,
        Err(failure) => report_failure(err, failure),
    }
}
