//! The values of a command, read strictly.

ghost use Rattle.std.specs.Prelude.{◌≡◌, [], None, Some, Ok, Err, IfOk, IfErr, IfSome, IsTrue, IsErrOf, ◌⊎◌, is_some, option_map};
ghost use Rattle.std.specs.Option.{option_copied};
ghost use Rattle.clap.specs.Matches.{found_of};
ghost use Rattle.sabr_frontier.specs.listing.Listing.{most_routes};
ghost use Rattle.sabr_plan.specs.Numbers.{number_within};
ghost use Rattle.sabr_session.specs.SessionWords.{most_number};
ghost use Rattle.commands.specs.words.Values.{numbers_within, command_named, has_request, has_count, has_contacts, seen_values, value_of, values_given, values_in, values_of, IsCount, text_under, texts_given, texts_under, values_under};
ghost use Rattle.commands.specs.declared.command.CommandName.TheVariants as named;
ghost use Rattle.commands.specs.declared.words.value_fault.ValueName.TheVariants as word;

use crate::command::{CommandName, command_named};
use crate::words::pieces::contacts_listed;
use crate::words::request_words::{RequestTexts, number_given, request_of, request_words};
use crate::words::value_fault::{ValueFault, ValueName};
use clap::ArgMatches;
use sabr_frontier::MAX_ROUTES;
use sabr_model::{Numbers, Request};
use std::alloc::{Allocator, Global};

/// The values of a command. What the command doesn't have is `None` or empty.
#[derive(Drop)]
pub struct Values<A: Allocator + Copy = Global> {
    /// The request.
    pub request: Option<Request>,
    /// The number of routes asked for, 1 to 10000.
    pub count: Option<u32>,
    /// The contacts to explain.
    pub contacts: Numbers<A>,
}

/// Reads the number of routes of a page.
fn count_given(text: Option<&[u8]>) -> Result<u32, ValueFault>
    ensures value { result ≡ value_of (number_within 1 most_routes) word.Count (option_copied text.entry) }
    ensures range { IfOk result IsCount }
    ensures memory { ¬ IsErrOf result ValueFault.NoMemory }
{
    let count = number_given(text, ValueName::Count, 1, MAX_ROUTES as u64)?;
    Ok(count as u32)
}

/// Reads the contacts to explain.
fn contacts_given<A: Allocator + Copy>(
    alloc: A,
    text: Option<&[u8]>,
) -> Result<Numbers<A>, ValueFault>
    ensures ok { IfOk result (λ contacts. value_of (numbers_within 1 most_number) word.Contacts (option_copied text.entry) ≡ Ok contacts) }
    ensures err { IfErr result (λ e. (e ≡ ValueFault.NoMemory) ⊎ (value_of (numbers_within 1 most_number) word.Contacts (option_copied text.entry) ≡ Err e)) }
{
    let bad = ValueFault::Bad(ValueName::Contacts);
    contacts_listed(alloc, text.ok_or(bad)?)?.ok_or(bad)
}

/// Reads the values of `first` from texts: the request, and the number of routes of a page.
///
/// # Errors
///
/// Those of [`read_values`].
#[tactic(auto, unfolding(crate::specs::words::Values::values_in))]
pub fn first_values_in(texts: &ValueTexts<'_>) -> Result<(Request, u32), ValueFault>
    ensures ok { IfOk result (λ v. values_in named.First (values_given texts.now) ≡ Ok (record { request = Some v.0; count = Some v.1; contacts = [] })) }
    ensures err { IfErr result (λ e. values_in named.First (values_given texts.now) ≡ Err e) }
    ensures range { IfOk result (λ v. IsCount v.1) }
    ensures memory { ¬ IsErrOf result ValueFault.NoMemory }
{
    let words = request_words(&texts.request)?;
    let count = count_given(texts.count)?;
    let request = request_of(&words)?;
    Ok((request, count))
}

/// Reads the value of `next` and of `many` from texts: the number of routes of a page.
///
/// # Errors
///
/// Those of [`read_values`].
#[tactic(auto, unfolding(crate::specs::words::Values::values_in))]
pub fn page_count_in(texts: &ValueTexts<'_>) -> Result<u32, ValueFault>
    ensures next { IfOk result (λ n. values_in named.Next (values_given texts.now) ≡ Ok (record { request = None; count = Some n; contacts = [] })) }
    ensures many { IfOk result (λ n. values_in named.Many (values_given texts.now) ≡ Ok (record { request = None; count = Some n; contacts = [] })) }
    ensures not_next { IfErr result (λ e. values_in named.Next (values_given texts.now) ≡ Err e) }
    ensures not_many { IfErr result (λ e. values_in named.Many (values_given texts.now) ≡ Err e) }
    ensures range { IfOk result IsCount }
    ensures memory { ¬ IsErrOf result ValueFault.NoMemory }
{
    count_given(texts.count)
}

/// Reads the values of `explain` from texts: the request, and the contacts.
///
/// # Errors
///
/// Those of [`read_values`].
#[tactic(auto, unfolding(crate::specs::words::Values::values_in))]
pub fn explain_values_in<A: Allocator + Copy>(
    alloc: A,
    texts: &ValueTexts<'_>,
) -> Result<(Request, Numbers<A>), ValueFault>
    ensures ok { IfOk result (λ v. values_in named.Explain (values_given texts.now) ≡ Ok (record { request = Some v.0; count = None; contacts = v.1 })) }
    ensures err { IfErr result (λ e. (e ≡ ValueFault.NoMemory) ⊎ (values_in named.Explain (values_given texts.now) ≡ Err e)) }
{
    let words = request_words(&texts.request)?;
    let contacts = contacts_given(alloc, texts.contacts)?;
    let request = request_of(&words)?;
    Ok((request, contacts))
}

/// The values of a command that has no contacts.
fn without_contacts<A: Allocator + Copy>(
    alloc: A,
    request: Option<Request>,
    count: Option<u32>,
) -> Values<A>
    ensures { (result.request ≡ request) × (result.count ≡ count) × (result.contacts ≡ []) }
{
    Values {
        request,
        count,
        contacts: Numbers::new(Vec::new(alloc)),
    }
}

/// Reads the values of a command from texts.
#[tactic(auto, unfolding(crate::specs::words::Values::values_in))]
fn values_in<A: Allocator + Copy>(
    alloc: A,
    command: CommandName,
    texts: &ValueTexts<'_>,
) -> Result<Values<A>, ValueFault>
    ensures ok { IfOk result (λ v. values_in command (values_given texts.now) ≡ Ok (seen_values v)) }
    ensures err { IfErr result (λ e. (e ≡ ValueFault.NoMemory) ⊎ (values_in command (values_given texts.now) ≡ Err e)) }
    ensures memory { IsErrOf result ValueFault.NoMemory → IsTrue (has_contacts command) }
    ensures request { IfOk result (λ v. is_some v.request ≡ has_request command) }
    ensures count { IfOk result (λ v. is_some v.count ≡ has_count command) }
    ensures count_range { IfOk result (λ v. IfSome v.count IsCount) }
{
    match command {
        CommandName::First => {
            let (request, count) = first_values_in(texts)?;
            Ok(without_contacts(alloc, Some(request), Some(count)))
        }
        CommandName::Next => {
            let count = count_given(texts.count)?;
            Ok(without_contacts(alloc, None, Some(count)))
        }
        CommandName::Verify => Ok(without_contacts(alloc, None, None)),
        CommandName::Check => Ok(without_contacts(alloc, None, None)),
        CommandName::Explain => {
            let (request, contacts) = explain_values_in(alloc, texts)?;
            Ok(Values {
                request: Some(request),
                count: None,
                contacts,
            })
        }
        CommandName::Many => {
            let count = count_given(texts.count)?;
            Ok(without_contacts(alloc, None, Some(count)))
        }
        CommandName::Follow => Ok(without_contacts(alloc, None, None)),
    }
}

/// Reads the values of `first` from its words: the request, and the number of routes of a page.
///
/// # Errors
///
/// Those of [`read_values`].
pub fn first_values(words: &ArgMatches<'_>) -> Result<(Request, u32), ValueFault>
    ensures ok { IfOk result (λ v. values_of named.First (found_of words.now) ≡ Ok (record { request = Some v.0; count = Some v.1; contacts = [] })) }
    ensures err { IfErr result (λ e. values_of named.First (found_of words.now) ≡ Err e) }
    ensures range { IfOk result (λ v. IsCount v.1) }
    ensures memory { ¬ IsErrOf result ValueFault.NoMemory }
{
    first_values_in(&values_under(words))
}

/// Reads the value of `next` and of `many` from its words: the number of routes of a page.
///
/// # Errors
///
/// Those of [`read_values`].
pub fn page_count(words: &ArgMatches<'_>) -> Result<u32, ValueFault>
    ensures next { IfOk result (λ n. values_of named.Next (found_of words.now) ≡ Ok (record { request = None; count = Some n; contacts = [] })) }
    ensures many { IfOk result (λ n. values_of named.Many (found_of words.now) ≡ Ok (record { request = None; count = Some n; contacts = [] })) }
    ensures not_next { IfErr result (λ e. values_of named.Next (found_of words.now) ≡ Err e) }
    ensures not_many { IfErr result (λ e. values_of named.Many (found_of words.now) ≡ Err e) }
    ensures range { IfOk result IsCount }
    ensures memory { ¬ IsErrOf result ValueFault.NoMemory }
{
    page_count_in(&values_under(words))
}

/// Reads the values of `explain` from its words: the request, and the contacts.
///
/// # Errors
///
/// Those of [`read_values`].
pub fn explain_values<A: Allocator + Copy>(
    alloc: A,
    words: &ArgMatches<'_>,
) -> Result<(Request, Numbers<A>), ValueFault>
    ensures ok { IfOk result (λ v. values_of named.Explain (found_of words.now) ≡ Ok (record { request = Some v.0; count = None; contacts = v.1 })) }
    ensures err { IfErr result (λ e. (e ≡ ValueFault.NoMemory) ⊎ (values_of named.Explain (found_of words.now) ≡ Err e)) }
{
    explain_values_in(alloc, &values_under(words))
}

/// Reads the values of the command of this name strictly. `matches` holds the texts given under the names of its words.
/// The name is that of one of the commands.
///
/// Nodes, numbers and counts are decimal without a sign or leading zero and within their limits, a time is
/// `yyyy/mm/dd-hh:mm:ss`, and lists are joined by single commas. A margin that isn't given is 0, a limit on hops that
/// isn't given is 20000, and without nodes to avoid none is avoided.
///
/// # Errors
///
/// The first that holds: [`ValueFault::Bad`] with the first bad text in the order of [`ValueName`],
/// [`ValueFault::SameNode`], [`ValueFault::BadAvoid`]. [`ValueFault::NoMemory`] only if an allocation for contacts
/// failed.
pub fn read_values<A: Allocator + Copy>(
    alloc: A,
    command: &str,
    matches: &ArgMatches<'_>,
) -> Result<Values<A>, ValueFault>
    requires { IsTrue (is_some (command_named command.now)) }
    ensures ok { IfSome (command_named command.now) (λ name. IfOk result (λ v. values_of name (found_of matches.now) ≡ Ok (seen_values v))) }
    ensures err { IfSome (command_named command.now) (λ name. IfErr result (λ e. (e ≡ ValueFault.NoMemory) ⊎ (values_of name (found_of matches.now) ≡ Err e))) }
    ensures memory { IfSome (command_named command.now) (λ name. IsErrOf result ValueFault.NoMemory → IsTrue (has_contacts name)) }
    ensures request { IfSome (command_named command.now) (λ name. IfOk result (λ v. is_some v.request ≡ has_request name)) }
    ensures count { IfSome (command_named command.now) (λ name. IfOk result (λ v. is_some v.count ≡ has_count name)) }
    ensures count_range { IfOk result (λ v. IfSome v.count IsCount) }
{
    match command_named(command) {
        Some(command) => values_in(alloc, command, &values_under(matches)),
        None => Ok(without_contacts(alloc, None, None)),
    }
}

/// The texts that are given for the values of a command, wherever they come from. A text that isn't given is `None`.
/// Those of values that the command doesn't have aren't read.
#[derive(Clone, Copy)]
pub struct ValueTexts<'a> {
    /// For the request.
    pub request: RequestTexts<'a>,
    /// For the number of routes.
    pub count: Option<&'a [u8]>,
    /// For the contacts to explain.
    pub contacts: Option<&'a [u8]>,
}

/// Finds the text that was given under a name of the command line.
fn text_under<'a>(matches: &ArgMatches<'a>, name: ValueName) -> Option<&'a [u8]>
    ensures { option_map (λ s. s.now) result ≡ text_under (found_of matches.now) name }
{
    match matches.get_str(name.text()) {
        Some(text) => Some(text.as_bytes()),
        None => None,
    }
}

/// Finds the texts that a command line gives for a request.
fn texts_under<'a>(matches: &ArgMatches<'a>) -> RequestTexts<'a>
    ensures { texts_given result ≡ texts_under (found_of matches.now) }
{
    RequestTexts {
        from: text_under(matches, ValueName::From),
        to: text_under(matches, ValueName::To),
        at: text_under(matches, ValueName::At),
        margin_ppm: text_under(matches, ValueName::MarginPpm),
        max_hops: text_under(matches, ValueName::MaxHops),
        avoid: text_under(matches, ValueName::Avoid),
    }
}

/// Finds the texts that a command line gives for values.
pub fn values_under<'a>(matches: &ArgMatches<'a>) -> ValueTexts<'a>
    ensures { values_given result ≡ values_under (found_of matches.now) }
{
    ValueTexts {
        request: texts_under(matches),
        count: text_under(matches, ValueName::Count),
        contacts: text_under(matches, ValueName::Contacts),
    }
}
