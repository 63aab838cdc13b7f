//! The words of a request.

ghost use Rattle.std.specs.Prelude.{◌≡◌, ◌≤◌, [], IfOk, IsErrOf};
ghost use Rattle.std.specs.Option.{option_copied};
ghost use Rattle.sabr_plan.specs.Times.{time_of};
ghost use Rattle.commands.specs.words.Values.{nodes_listed, texts_given, value_of, value_or, limits_of, request_words, request_of, IsInRange};
ghost use Rattle.sabr_plan.specs.Numbers.{number_within};
ghost use Rattle.sabr_model.specs.plan.Plan.{IsNode, last_time};
ghost use Rattle.sabr_model.specs.routes.Asking.{most_margin};

use crate::words::pieces::nodes_listed;
use crate::words::value_fault::{ValueFault, ValueName};
use sabr_model::{MAX_HOPS, MAX_MARGIN, NodeList, Request, RequestValues};
use sabr_plan::{number_within, parse_time};

/// The texts that are given for a request, wherever they come from.
#[derive(Clone, Copy)]
pub struct RequestTexts<'a> {
    /// The source.
    pub from: Option<&'a [u8]>,
    /// The destination.
    pub to: Option<&'a [u8]>,
    /// The time at which the bundle is at the source.
    pub at: Option<&'a [u8]>,
    /// The margin on light times.
    pub margin_ppm: Option<&'a [u8]>,
    /// The limit on hops.
    pub max_hops: Option<&'a [u8]>,
    /// The nodes to avoid.
    pub avoid: Option<&'a [u8]>,
}

/// Reads a required number from `low` to `high`.
///
/// # Errors
///
/// [`ValueFault::Bad`] if it is missing, misspelled, or out of its range.
pub fn number_given(
    text: Option<&[u8]>,
    name: ValueName,
    low: u64,
    high: u64,
) -> Result<u64, ValueFault>
    ensures value { result ≡ value_of (number_within low high) name (option_copied text.entry) }
    ensures range { IfOk result (λ n. (low ≤ n) × (n ≤ high)) }
{
    let text = text.ok_or(ValueFault::Bad(name))?;
    number_within(text, low, high).ok_or(ValueFault::Bad(name))
}

/// Reads an optional number from `low` to `high`.
fn number_or(
    text: Option<&[u8]>,
    name: ValueName,
    low: u64,
    high: u64,
    otherwise: u64,
) -> Result<u64, ValueFault>
    requires { (low ≤ otherwise) × (otherwise ≤ high) }
    ensures value { result ≡ value_or otherwise (number_within low high) name (option_copied text.entry) }
    ensures range { IfOk result (λ n. (low ≤ n) × (n ≤ high)) }
{
    let Some(text) = text else {
        return Ok(otherwise);
    };
    number_within(text, low, high).ok_or(ValueFault::Bad(name))
}

/// Reads the time at which the bundle is at the source.
fn time_given(text: Option<&[u8]>) -> Result<u64, ValueFault>
    ensures value { result ≡ value_of time_of ValueName.At (option_copied text.entry) }
    ensures range { IfOk result (λ t. t ≤ last_time) }
{
    let bad = ValueFault::Bad(ValueName::At);
    let text = text.ok_or(bad)?;
    parse_time(text).ok_or(bad)
}

/// Reads the nodes to avoid.
fn avoided(text: Option<&[u8]>) -> Result<NodeList, ValueFault>
    ensures { result ≡ value_or [] nodes_listed ValueName.Avoid (option_copied text.entry) }
{
    let Some(text) = text else {
        return Ok(NodeList::new());
    };
    nodes_listed(text).ok_or(ValueFault::Bad(ValueName::Avoid))
}

/// Reads the limits, and adds them to the values of a request without limits.
#[tactic(auto, unfolding(crate::specs::words::Values::limits_of))]
fn with_limit_words(
    from: u64,
    to: u64,
    at: u64,
    margin_ppm: u32,
    texts: &RequestTexts<'_>,
) -> Result<RequestValues, ValueFault>
    requires { IsNode from × IsNode to × (at ≤ last_time) × (margin_ppm ≤ most_margin) }
    ensures value { result ≡ limits_of from to at margin_ppm (texts_given texts.now) }
    ensures range { IfOk result IsInRange }
    ensures memory { ¬ IsErrOf result ValueFault.NoMemory }
{
    let most = MAX_HOPS as u64;
    let max_hops = number_or(texts.max_hops, ValueName::MaxHops, 1, most, most)? as u32;
    let avoid = avoided(texts.avoid)?;
    Ok(RequestValues {
        from,
        to,
        at,
        margin_ppm,
        max_hops,
        avoid,
    })
}

/// Reads the words of a request in turn.
///
/// # Errors
///
/// [`ValueFault::Bad`] with the first bad word in the order of [`ValueName`].
#[tactic(auto, unfolding(crate::specs::words::Values::request_words))]
pub fn request_words(texts: &RequestTexts<'_>) -> Result<RequestValues, ValueFault>
    ensures value { result ≡ request_words (texts_given texts.now) }
    ensures range { IfOk result IsInRange }
    ensures memory { ¬ IsErrOf result ValueFault.NoMemory }
{
    let from = number_given(texts.from, ValueName::From, 1, u64::MAX)?;
    let to = number_given(texts.to, ValueName::To, 1, u64::MAX)?;
    let at = time_given(texts.at)?;
    let most = MAX_MARGIN as u64;
    let margin_ppm = number_or(texts.margin_ppm, ValueName::MarginPpm, 0, most, 0)? as u32;
    with_limit_words(from, to, at, margin_ppm, texts)
}

/// Returns the request of these words.
///
/// # Errors
///
/// [`ValueFault::SameNode`] if source and destination are one node. Else [`ValueFault::BadAvoid`] if the avoided nodes
/// aren't strictly ascending, or hold the source or the destination.
#[tactic(auto, unfolding(crate::specs::words::Values::request_of))]
pub fn request_of(words: &RequestValues) -> Result<Request, ValueFault>
    requires { IsInRange words.now }
    ensures value { result ≡ request_of words.now }
    ensures memory { ¬ IsErrOf result ValueFault.NoMemory }
{
    let Ok(request) = Request::new(words.from, words.to, words.at, words.margin_ppm) else {
        return Err(ValueFault::SameNode);
    };
    let Ok(limited) = request.with_limits(words.max_hops, words.avoid.as_slice()) else {
        return Err(ValueFault::BadAvoid);
    };
    Ok(limited)
}
