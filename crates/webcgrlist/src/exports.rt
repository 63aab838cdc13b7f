//! The calls of the host.

ghost use Rattle.commands.specs.declared.command.CommandName.TheVariants as command;
ghost use Rattle.webcgrlist.specs.declared.call.Run.TheVariants as run;
ghost use Rattle.webcgrlist.specs.Answers.{Answers};
ghost use Rattle.webcgrlist.specs.Lent.{ComesBack};

use crate::answer::answer;
use crate::asked::Asked;
use crate::call::{Call, Run};
use crate::outputs::Outputs;
use commands::CommandName;
use host::Region;

/// Reports what a plan holds. Reads the plan.
#[unsafe(no_mangle)]
pub extern "C" fn cgrlist_check(
    memory: &mut Region,
    asked: &Asked<'_>,
    outputs: &mut Outputs<'_, '_, '_>,
) -> u32
    ensures answer { Answers (run.Command command.Check) asked.now outputs.old outputs.new result }
    ensures memory { ComesBack memory.old memory.new }
{
    let run = Run::Command(CommandName::Check);
    answer(memory, Call { run, asked }, outputs)
}

/// Lists the first routes of a request, best first, and whether there are more. Writes the session after them, if that
/// is asked. Reads the plan, the words of the request, which are the texts from `from` to `avoid`, and the count.
#[unsafe(no_mangle)]
pub extern "C" fn cgrlist_first(
    memory: &mut Region,
    asked: &Asked<'_>,
    outputs: &mut Outputs<'_, '_, '_>,
) -> u32
    ensures answer { Answers (run.Command command.First) asked.now outputs.old outputs.new result }
    ensures memory { ComesBack memory.old memory.new }
{
    let run = Run::Command(CommandName::First);
    answer(memory, Call { run, asked }, outputs)
}

/// Lists the routes that follow a session, best first, and whether there are more. Writes the session after them, if that
/// is asked. Reads the plan, the session and the count.
#[unsafe(no_mangle)]
pub extern "C" fn cgrlist_next(
    memory: &mut Region,
    asked: &Asked<'_>,
    outputs: &mut Outputs<'_, '_, '_>,
) -> u32
    ensures answer { Answers (run.Command command.Next) asked.now outputs.old outputs.new result }
    ensures memory { ComesBack memory.old memory.new }
{
    let run = Run::Command(CommandName::Next);
    answer(memory, Call { run, asked }, outputs)
}

/// Checks whether a session text is right: that its routes are the first of the list, and that each of its subproblems
/// has its best route. Any program may have written it. Reads the plan and the session. The status is 0 for yes and 1
/// for no.
#[unsafe(no_mangle)]
pub extern "C" fn cgrlist_verify(
    memory: &mut Region,
    asked: &Asked<'_>,
    outputs: &mut Outputs<'_, '_, '_>,
) -> u32
    ensures answer { Answers (run.Command command.Verify) asked.now outputs.old outputs.new result }
    ensures memory { ComesBack memory.old memory.new }
{
    let run = Run::Command(CommandName::Verify);
    answer(memory, Call { run, asked }, outputs)
}

/// Explains a list of contacts: what it does, hop by hop, and whether it is a route. Reads the plan, the words of the
/// request and the contacts. The status is 0 for a route, and 1 for another list.
#[unsafe(no_mangle)]
pub extern "C" fn cgrlist_explain(
    memory: &mut Region,
    asked: &Asked<'_>,
    outputs: &mut Outputs<'_, '_, '_>,
) -> u32
    ensures answer { Answers (run.Command command.Explain) asked.now outputs.old outputs.new result }
    ensures memory { ComesBack memory.old memory.new }
{
    let run = Run::Command(CommandName::Explain);
    answer(memory, Call { run, asked }, outputs)
}

/// Answers many requests over one plan, each as [`cgrlist_first`]. Reads the plan, the requests and the count.
#[unsafe(no_mangle)]
pub extern "C" fn cgrlist_many(
    memory: &mut Region,
    asked: &Asked<'_>,
    outputs: &mut Outputs<'_, '_, '_>,
) -> u32
    ensures answer { Answers (run.Command command.Many) asked.now outputs.old outputs.new result }
    ensures memory { ComesBack memory.old memory.new }
{
    let run = Run::Command(CommandName::Many);
    answer(memory, Call { run, asked }, outputs)
}

/// Explains many lists of contacts over one plan, each as [`cgrlist_explain`]. Reads the plan and the lists.
#[unsafe(no_mangle)]
pub extern "C" fn cgrlist_follow(
    memory: &mut Region,
    asked: &Asked<'_>,
    outputs: &mut Outputs<'_, '_, '_>,
) -> u32
    ensures answer { Answers (run.Command command.Follow) asked.now outputs.old outputs.new result }
    ensures memory { ComesBack memory.old memory.new }
{
    let run = Run::Command(CommandName::Follow);
    answer(memory, Call { run, asked }, outputs)
}

/// Writes the canonical text of a plan. Reads the plan.
#[unsafe(no_mangle)]
pub extern "C" fn cgrlist_canonical(
    memory: &mut Region,
    asked: &Asked<'_>,
    outputs: &mut Outputs<'_, '_, '_>,
) -> u32
    ensures answer { Answers run.Canonical asked.now outputs.old outputs.new result }
    ensures memory { ComesBack memory.old memory.new }
{
    let run = Run::Canonical;
    answer(memory, Call { run, asked }, outputs)
}
