//! The commands, each declared in one place: its name, its help, its words, and its run.

ghost use Rattle.std.specs.Prelude.{◌≡◌, IfErr, IfOk, OnErr, Some, map};
ghost use Rattle.clap.specs.Matches.{found_of};
ghost use Rattle.commands.specs.runs.Calls.{RunsCommand, StopsBefore};
ghost use Rattle.commands.specs.words.CommandLine.{rules_for, word_rule};
ghost use Rattle.commands.specs.words.Values.{command_named, command_text};

use crate::calls::{check, explain, first, follow, many, next, verify};
use crate::failure::{Failure, Status};
use crate::files::FileSystem;
use crate::words::{
    AT, AVOID, CONTACTS, COUNT, FROM, LISTS, MARGIN_PPM, MAX_HOPS, PLAN, REQUESTS, SESSION,
    SESSION_OUT, TO, Word,
};
use clap::ArgMatches;
use sabr_model::Write;
use std::alloc::Global;

/// A command of the program.
#[derive(Clone, Copy)]
pub enum CommandName {
    /// Lists the first routes of a plan.
    First,
    /// Lists the routes that follow an old session.
    Next,
    /// Verifies a session over a plan.
    Verify,
    /// Reports what a plan holds.
    Check,
    /// Explains contacts over a plan.
    Explain,
    /// Answers many requests over a plan.
    Many,
    /// Explains many lists of contacts over a plan.
    Follow,
}

/// The commands, in the order in which help lists them.
pub const COMMANDS: [CommandName; 7] = [
    CommandName::First,
    CommandName::Next,
    CommandName::Verify,
    CommandName::Check,
    CommandName::Explain,
    CommandName::Many,
    CommandName::Follow,
];

/// What a command is on the command line.
#[derive(Clone, Copy)]
pub struct Declared<'a> {
    /// Its name on the command line.
    pub name: &'a str,
    /// What it does, in a line.
    pub about: &'a str,
    /// Calls of it with their answers, for its help.
    pub examples: &'a str,
    /// Its words, in the order in which its help lists them.
    pub words: &'a [Word],
}

// The words of each command, in the order in which its help lists them.
const FIRST: [Word; 9] = [
    PLAN,
    FROM,
    TO,
    AT,
    MARGIN_PPM,
    MAX_HOPS,
    AVOID,
    COUNT,
    SESSION_OUT,
];

const NEXT: [Word; 4] = [PLAN, SESSION, COUNT, SESSION_OUT];

const VERIFY: [Word; 2] = [PLAN, SESSION];

const CHECK: [Word; 1] = [PLAN];

const EXPLAIN: [Word; 8] = [PLAN, FROM, TO, AT, MARGIN_PPM, MAX_HOPS, AVOID, CONTACTS];

const MANY: [Word; 3] = [PLAN, REQUESTS, COUNT];

const FOLLOW: [Word; 2] = [PLAN, LISTS];

impl CommandName {
    /// The texts and the words of the command.
    pub fn declared<'a>(self) -> Declared<'a>
        ensures name { command_named result.name.now ≡ Some self }
        ensures text { result.name.now ≡ command_text self }
        ensures words { map word_rule result.words.now ≡ rules_for self }
    {
        match self {
            CommandName::First => Declared {
                name: "first",
                about: "Lists the first routes, best first, and whether there are more",
                examples: "Examples:
  $ cgrlist first --plan examples/a.txt --from 1 --to 3 --at 2030/01/01-00:00:00 --count 2 --session-out two.session
  1 delivery 2030/01/01-00:00:15 hops 2 entry 2 until 2030/01/01-00:01:40 contacts 1 4
  2 delivery 2030/01/01-00:00:25 hops 2 entry 2 until 2030/01/01-00:01:00 contacts 1 2
  more
  $ cgrlist first --plan examples/a.txt --from 1 --to 3 --at 2030/01/01-00:00:00 --count 1 --avoid 2
  1 delivery 2030/01/01-00:01:30 hops 1 entry 3 until 2030/01/01-00:01:30 contacts 3
  end
The session text, here in two.session, is for next and verify.",
                words: &FIRST,
            },
            CommandName::Next => Declared {
                name: "next",
                about: "Lists the routes after those of a session, and whether there are more",
                examples: "Example, after the first example of cgrlist first --help:
  $ cgrlist next --plan examples/a.txt --session two.session --count 5
  3 delivery 2030/01/01-00:01:30 hops 1 entry 3 until 2030/01/01-00:01:30 contacts 3
  end",
                words: &NEXT,
            },
            CommandName::Verify => Declared {
                name: "verify",
                about: "Checks that a session text is correct: its routes are the first ones of the list, and its parts have the best routes",
                examples: "Example, after the first example of cgrlist first --help:
  $ cgrlist verify --plan examples/a.txt --session two.session
  yes",
                words: &VERIFY,
            },
            CommandName::Check => Declared {
                name: "check",
                about: "Prints what a plan contains: contacts, ranges, nodes, contacts without light time, digest",
                examples: "Example:
  $ cgrlist check --plan /dev/stdin <examples/a.txt
  contacts 4
  ranges 3
  nodes 3
  without light 0
  digest 141332fc8a469d56442d0323b136f9e5ff2f4859004f96653cdeb76015a2a51f",
                words: &CHECK,
            },
            CommandName::Explain => Declared {
                name: "explain",
                about: "Prints what a list of contacts does, hop by hop, and whether it is a route",
                examples: "Example:
  $ cgrlist explain --plan examples/a.txt --from 1 --to 3 --at 2030/01/01-00:00:00 --contacts 1,2
  hop 1 contact 1 from 1 to 2 send 2030/01/01-00:00:00 arrive 2030/01/01-00:00:10
  hop 2 contact 2 from 2 to 3 send 2030/01/01-00:00:20 arrive 2030/01/01-00:00:25
  delivery 2030/01/01-00:00:25 hops 2 entry 2 until 2030/01/01-00:01:00 contacts 1 2",
                words: &EXPLAIN,
            },
            CommandName::Many => Declared {
                name: "many",
                about: "Lists the first routes of each request of a file, as first does",
                examples: "A request is a line FROM TO TIME, or FROM TO TIME PPM HOPS NODES, with single spaces. NODES, or HOPS and NODES, can
be left out. Each word is written like the value of its option.

Example:
  $ printf '1 3 2030/01/01-%s\\n' 00:01:00 '00:00:00 0 20000 2' >requests
  $ cgrlist many --plan examples/a.txt --requests requests --count 1
  request 1 3 2030/01/01-00:01:00
  1 delivery 2030/01/01-00:01:15 hops 2 entry 2 until 2030/01/01-00:01:40 contacts 1 4
  more
  request 1 3 2030/01/01-00:00:00 0 20000 2
  1 delivery 2030/01/01-00:01:30 hops 1 entry 3 until 2030/01/01-00:01:30 contacts 3
  end",
                words: &MANY,
            },
            CommandName::Follow => Declared {
                name: "follow",
                about: "Explains each list of contacts of a file, as explain does",
                examples: "A list is a line NUMBERS FROM TO TIME, or NUMBERS FROM TO TIME PPM HOPS NODES, with single spaces. NODES, or HOPS and
NODES, can be left out. Each word is written like the value of its option.

Example:
  $ printf '1,2 1 3 2030/01/01-%s\\n' 00:00:00 00:01:00 >lists
  $ cgrlist follow --plan examples/a.txt --lists lists
  list 1,2 1 3 2030/01/01-00:00:00
  hop 1 contact 1 from 1 to 2 send 2030/01/01-00:00:00 arrive 2030/01/01-00:00:10
  hop 2 contact 2 from 2 to 3 send 2030/01/01-00:00:20 arrive 2030/01/01-00:00:25
  delivery 2030/01/01-00:00:25 hops 2 entry 2 until 2030/01/01-00:01:00 contacts 1 2
  list 1,2 1 3 2030/01/01-00:01:00
  hop 1 contact 1 from 1 to 2 send 2030/01/01-00:01:00 arrive 2030/01/01-00:01:10
  refused hop 2: TooLate",
                words: &FOLLOW,
            },
        }
    }

    /// Runs the command over its words and the files that they name. The report goes to `out`, and messages go to
    /// `err`. The file that was made for a session stays if the run is done, and else is removed. If that fails, it
    /// stays.
    ///
    /// # Errors
    ///
    /// What stopped the command before its run: a bad value, a failed allocation, or a file that can't be opened or
    /// made. Then nothing was written, and no file was made.
    pub fn run<'w, D: FileSystem<'w>, O: Write, E: Write>(
        self,
        alloc: Global,
        words: &ArgMatches<'w>,
        files: &mut D,
        out: &mut O,
        err: &mut E,
    ) -> Result<Status, Failure>
        ensures ran { IfOk result (λ s. RunsCommand self D.rules (found_of words.now) (D.left files.old) (D.left files.new) (O.output out.old) (O.output out.new) (E.output err.old) (E.output err.new) s) }
        ensures stopped { IfErr result (StopsBefore D.rules self (found_of words.now)) }
        ensures not_run { OnErr result ((O.output out.new ≡ O.output out.old) × (E.output err.new ≡ E.output err.old) × (D.left files.new ≡ D.left files.old)) }
    {
        match self {
            CommandName::First => first(alloc, words, files, out, err),
            CommandName::Next => next(alloc, words, files, out, err),
            CommandName::Verify => verify(alloc, words, files, out, err),
            CommandName::Check => check(alloc, words, files, out, err),
            CommandName::Explain => explain(alloc, words, files, out, err),
            CommandName::Many => many(alloc, words, files, out, err),
            CommandName::Follow => follow(alloc, words, files, out, err),
        }
    }
}

/// Finds the command of this name.
pub fn command_named(name: &str) -> Option<CommandName>
    ensures { result ≡ command_named name.now }
{
    COMMANDS
        .iter()
        .copied()
        .find(|command| name == command.declared().name)
}
