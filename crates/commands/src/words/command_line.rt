//! The words of the command line, as one level of subcommands with texts as values.

ghost use Rattle.std.specs.Prelude.{◌≡◌, IfOk, IsTrue, is_some, map};
ghost use Rattle.clap.specs.Simple.{app_of, subcommand_rows_of};
ghost use Rattle.clap.specs.Faults.{fault_of};
ghost use Rattle.clap.specs.Kinds.{FailsBy};
ghost use Rattle.commands.specs.runs.Program.{named_in};
ghost use Rattle.commands.specs.words.CommandLine.{IsCommand, IsProgram, IsWord, given_by, program_app, shape_for, word_rule};

use crate::command::{COMMANDS, CommandName};
use crate::words::table::Word;
use clap::{Arg, ArgAction, ArgMatches, Command, Error};
use std::alloc::{AllocError, Global};

/// The version of the program, as `--version` shows it.
const VERSION: &str = "1.2.0";

/// What the program's help shows after its options: an example, and the statuses.
const AFTER_HELP: &str = "Example:
  $ cgrlist first --plan examples/a.txt --from 1 --to 3 --at 2030/01/01-00:00:00 --count 2
  1 delivery 2030/01/01-00:00:15 hops 2 entry 2 until 2030/01/01-00:01:40 contacts 1 4
  2 delivery 2030/01/01-00:00:25 hops 2 entry 2 until 2030/01/01-00:01:00 contacts 1 2
  more

Exit status:
  0  done
  1  the answer is no: the contacts aren't a route, or the session text isn't correct
  2  the options are invalid, or ask for help or the version
  3  the plan is refused
  4  the session text, or a line of requests or of lists, is refused
  5  a file can't be opened, read, made or written
  6  out of memory

The message 'cgrlist: bad --count' means that this value is misspelled or outside the limits in the command's help.
The manual page is cgrlist(1), docs/cgrlist.1 in the sources.";

/// The argument of a word.
fn argument<'a>(alloc: Global, word: &Word) -> Arg<'a>
    ensures { IsWord (word_rule word.now) result }
{
    Arg::new(alloc, word.name)
        .long(word.name)
        .action(ArgAction::Set)
        .value_name(word.form)
        .help(word.help)
        .required(word.required)
}

/// A command of the command line, as it is declared.
fn subcommand<'a>(alloc: Global, command: CommandName) -> Result<Command<'a>, AllocError>
    ensures { IfOk result (IsCommand (shape_for command)) }
{
    let declared = command.declared();
    let mut made = Command::new(alloc, declared.name)
        .about(declared.about)
        .after_help(declared.examples);
    for word in declared.words {
        made = made.arg(argument(alloc, word))?;
    }
    Ok(made)
}

/// Adds all commands, in the order in which help lists them.
fn with_commands<'a>(alloc: Global, program: Command<'a>) -> Result<Command<'a>, AllocError>
    ensures { IfOk result (IsProgram program.entry) }
{
    let mut made = program;
    for command in COMMANDS {
        made = made.subcommand(subcommand(alloc, command)?)?;
    }
    Ok(made)
}

/// The command line, with all commands.
fn program<'a>(alloc: Global) -> Result<Command<'a>, AllocError>
    ensures { IfOk result (λ c. app_of c ≡ program_app) }
{
    let program = Command::new(alloc, "cgrlist")
        .about("Lists every feasible route of a contact plan from one node to another, best first")
        .version(VERSION)
        .after_help(AFTER_HELP)
        .bin_name("cgrlist")?
        .no_binary_name(true)
        .subcommand_required(true);
    with_commands(alloc, program)
}

/// Parses the words after the program's name. A call for help or for the version is a refusal, too, with the answer as
/// its text. Words that are taken name a command.
///
/// # Errors
///
/// The error of clap, with the reason as its text; of the kind `OutOfMemory` if an allocation failed.
pub fn parsed<'a>(alloc: Global, words: &'a [&'a str]) -> Result<ArgMatches<'a>, Error>
    ensures given { IfOk result (λ m. subcommand_rows_of m ≡ given_by (map (λ w. w.now) words.entry.now)) }
    ensures named { IfOk result (λ m. IsTrue (is_some (named_in (subcommand_rows_of m)))) }
    ensures fault { FailsBy (fault_of program_app (map (λ w. w.now) words.entry.now)) result }
{
    program(alloc)?.try_get_matches_from(words)
}
