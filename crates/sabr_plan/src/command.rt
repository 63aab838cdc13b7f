//! The command in a line of a plan text.

ghost use Rattle.std.specs.Prelude.{◌≡◌};
ghost use Rattle.sabr_plan.specs.Words.{words_of};
ghost use Rattle.sabr_plan.specs.Commands.{line_command, command_of, target_of, addition_of, deletion_of};

use crate::fault::PlanKind;
use crate::operand::{Reference, absolute_time, both_of, node_of, time_at, value_of};
use crate::words::{five_words, is_comment, is_plain, is_word, next_word, one_word, three_words};

/// The kind of record that a command adds or deletes.
#[derive(Clone, Copy)]
pub enum Target {
    Contact,
    Range,
}

/// The operands of `a contact` and `a range`: times in seconds since 1970-01-01T00:00:00Z, two nodes, and a rate or a
/// light time.
#[derive(Clone, Copy)]
pub struct Addition {
    /// The first second.
    pub start: u64,
    /// The second after the last.
    pub end: u64,
    /// The sender, or the node that a range names first.
    pub first: u64,
    /// The receiver, or the node that a range names second.
    pub second: u64,
    /// The rate in bytes per second, or the light time in seconds.
    pub value: u64,
}

/// The operands of `d contact` and `d range`.
#[derive(Clone, Copy)]
pub struct Deletion {
    pub start: u64,
    pub first: u64,
    pub second: u64,
}

/// The command in a line.
#[derive(Clone, Copy)]
pub enum Command {
    Nothing,
    SetReference(u64),
    Add(Target, Addition),
    Delete(Target, Deletion),
}

/// Returns the command in a line, or the first reason to refuse it. Relative times count from the reference.
#[tactic(auto, unfolding(crate::specs::Commands::line_command))]
#[cold]
#[inline(never)]
pub fn line_command(reference: &Reference, line: &[u8]) -> Result<Command, PlanKind>
    ensures { result ≡ line_command reference.now line.now }
{
    if is_comment(line) {
        return Ok(Command::Nothing);
    }
    if !is_plain(line) {
        return Err(PlanKind::BadByte);
    }
    command_of(reference, line)
}

/// Returns the command in the words of a line.
fn command_of(reference: &Reference, line: &[u8]) -> Result<Command, PlanKind>
    ensures { result ≡ command_of reference.now (words_of line.now) }
{
    let Some((word, rest)) = next_word(line) else {
        return Ok(Command::Nothing);
    };
    if is_word(word, b"@") {
        let Some(time) = one_word(rest) else {
            return Err(PlanKind::WrongOperands);
        };
        return Ok(Command::SetReference(absolute_time(time)?));
    }
    let adds = is_word(word, b"a");
    if !adds && !is_word(word, b"d") {
        return Err(PlanKind::UnknownCommand);
    }
    let Some((name, operands)) = next_word(rest) else {
        return Err(PlanKind::UnknownCommand);
    };
    match target_of(name) {
        Some(target) if adds => addition_of(reference, target, operands),
        Some(target) => deletion_of(reference, target, operands),
        None => Err(PlanKind::UnknownCommand),
    }
}

/// Returns the kind of record that the word after `a` or `d` names.
fn target_of(word: &[u8]) -> Option<Target>
    ensures { result ≡ target_of word.now }
{
    if is_word(word, b"contact") {
        Some(Target::Contact)
    } else if is_word(word, b"range") {
        Some(Target::Range)
    } else {
        None
    }
}

/// Reads start, stop, two nodes, and a rate or a light time.
fn addition_of(reference: &Reference, target: Target, text: &[u8]) -> Result<Command, PlanKind>
    ensures { result ≡ addition_of reference.now target (words_of text.now) }
{
    let Some((start, end, first, second, value)) = five_words(text) else {
        return Err(PlanKind::WrongOperands);
    };
    let (start, end) = both_of(time_at(reference, start), time_at(reference, end))?;
    let (first, second) = both_of(node_of(first), node_of(second))?;
    let value = value_of(target, value)?;
    Ok(Command::Add(
        target,
        Addition {
            start,
            end,
            first,
            second,
            value,
        },
    ))
}

/// Reads start and two nodes.
fn deletion_of(reference: &Reference, target: Target, text: &[u8]) -> Result<Command, PlanKind>
    ensures { result ≡ deletion_of reference.now target (words_of text.now) }
{
    let Some((start, first, second)) = three_words(text) else {
        return Err(PlanKind::WrongOperands);
    };
    let start = time_at(reference, start)?;
    let (first, second) = both_of(node_of(first), node_of(second))?;
    Ok(Command::Delete(
        target,
        Deletion {
            start,
            first,
            second,
        },
    ))
}
