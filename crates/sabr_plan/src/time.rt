//! Absolute times as text: `yyyy/mm/dd-hh:mm:ss`, UTC without leap seconds.

ghost use Rattle.std.specs.Prelude.{◌≡◌, ℕ, ◌<◌, ◌≤◌, ◌+◌, ◌≢◌, Some, IfSome, IsNone, IsTrue, length};
ghost use Rattle.sabr_model.specs.plan.Plan.{last_time};
ghost use Rattle.sabr_plan.specs.Times.{day_after_epoch, pair_at, spelled, fields_of, last_spelled, time_text_of, time_of};
ghost use Rattle.sabr_plan.specs.Times.{is_pair, has_shape, fields_at, HasWidth};

use jiff_core::civil::Date;
use sabr_model::LAST_TIME;

/// The number of seconds of a day.
pub const DAY_SECONDS: u64 = 86400;

/// The number of days from the first day of jiff's calendar to 1970/01/01.
const DAYS_BEFORE_EPOCH: u32 = 4371587;

/// A date of the Gregorian calendar, and the time of day. Months and days count from 1, and the others from 0.
#[derive(Clone, Copy)]
pub struct TimeFields {
    pub year: u16,
    pub month: u8,
    pub day: u8,
    pub hour: u8,
    pub minute: u8,
    pub second: u8,
}

/// Returns the calendar and clock fields of a second.
fn fields_of(second: u64) -> TimeFields
    requires { second ≤ last_spelled }
    ensures { result ≡ fields_of second }
{
    let days = second / DAY_SECONDS;
    let clock = (second % DAY_SECONDS) as u32;
    let date = Date::from_days_since_min(days as u32 + DAYS_BEFORE_EPOCH);
    TimeFields {
        year: date.year as u16,
        month: date.month,
        day: date.day,
        hour: (clock / 3600) as u8,
        minute: (clock % 3600 / 60) as u8,
        second: (clock % 60) as u8,
    }
}

/// Returns the number of days from 1970/01/01 to a day of the calendar. `None` if the calendar doesn't have that day,
/// or if it is earlier.
fn day_number(year: u16, month: u8, day: u8) -> Option<u32>
    requires year { year < 10000 }
    requires month { month < 100 }
    requires day { day < 100 }
    ensures some { IfSome result (λ n. (n ≤ 2932896) × (day_after_epoch n ≡ record { year = year; month = month; day = day })) }
    ensures none { IsNone result → (n : ℕ) → n ≤ 2932896 → day_after_epoch n ≢ record { year = year; month = month; day = day } }
{
    let Ok(date) = Date::new(year as i16, month as i8, day as i8) else {
        return None;
    };
    date.days_since_min().checked_sub(DAYS_BEFORE_EPOCH)
}

/// Returns the second with these calendar and clock fields. `None` if there is no such second up to the latest time,
/// the last second of the year 9998.
#[tactic(auto, using(crate::proofs::Spelling::fields_clock))]
fn second_of(fields: TimeFields) -> Option<u64>
    requires { HasWidth fields }
    ensures some { IfSome result (λ t. (fields_of t ≡ fields) × (t ≤ last_time)) }
    ensures none { IsNone result → (t : ℕ) → t ≤ last_time → fields_of t ≢ fields }
{
    let days = day_number(fields.year, fields.month, fields.day)?;
    if fields.hour > 23 || fields.minute > 59 || fields.second > 59 {
        return None;
    }
    let clock = fields.hour as u64 * 3600 + fields.minute as u64 * 60 + fields.second as u64;
    let second = days as u64 * DAY_SECONDS + clock;
    if second > LAST_TIME {
        return None;
    }
    Some(second)
}

/// Returns true if there are two digits from an index on.
fn is_pair(text: &[u8], at: usize) -> bool
    requires { at + 1 < length text.now }
    ensures { result ≡ is_pair text.now at }
{
    text[at].is_ascii_digit() && text[at + 1].is_ascii_digit()
}

/// Returns the value of two digits.
fn pair_at(text: &[u8], at: usize) -> u8
    requires room { at + 1 < length text.now }
    requires digits { IsTrue (is_pair text.now at) }
    ensures value { result ≡ pair_at text.now at }
    ensures bound { result < 100 }
{
    (text[at] - b'0') * 10 + (text[at + 1] - b'0')
}

/// Returns true if the text has digits and separators where a time has them.
fn has_shape(text: &[u8]) -> bool
    ensures { result ≡ has_shape text.now }
{
    text.len() == 19
        && is_pair(text, 0)
        && is_pair(text, 2)
        && text[4] == b'/'
        && is_pair(text, 5)
        && text[7] == b'/'
        && is_pair(text, 8)
        && text[10] == b'-'
        && is_pair(text, 11)
        && text[13] == b':'
        && is_pair(text, 14)
        && text[16] == b':'
        && is_pair(text, 17)
}

/// Returns the fields of a text of that shape.
#[tactic(auto, using(crate::proofs::Spelling::shape_parts))]
fn fields_at(text: &[u8]) -> TimeFields
    requires { IsTrue (has_shape text.now) }
    ensures value { result ≡ fields_at text.now }
    ensures width { HasWidth result }
{
    TimeFields {
        year: pair_at(text, 0) as u16 * 100 + pair_at(text, 2) as u16,
        month: pair_at(text, 5),
        day: pair_at(text, 8),
        hour: pair_at(text, 11),
        minute: pair_at(text, 14),
        second: pair_at(text, 17),
    }
}

/// Returns the second of a text of exactly 19 bytes `yyyy/mm/dd-hh:mm:ss`, of the years 1970 to 9998, in seconds since
/// 1970-01-01T00:00:00Z. Each day has 86400 seconds (ionrc(5), absolute times; the years are this project's profile).
/// `None` for any other text. It is O(1).
pub fn parse_time(text: &[u8]) -> Option<u64>
    ensures some { IfSome result (λ t. (text.now ≡ time_text_of t) × (t ≤ last_time)) }
    ensures all { (t : ℕ) → t ≤ last_time → text.now ≡ time_text_of t → result ≡ Some t }
    ensures value { result ≡ time_of text.now }
{
    if !has_shape(text) {
        return None;
    }
    second_of(fields_at(text))
}

/// Returns the ASCII digit of a value.
pub fn digit(value: u8) -> u8
    requires { value < 10 }
    ensures { result ≡ 48 + value }
{
    b'0' + value
}

/// Returns the 19 bytes `yyyy/mm/dd-hh:mm:ss` of a second since 1970-01-01T00:00:00Z. The second is at most
/// 253402300799, the last of the year 9999. It is O(1).
#[tactic(auto, using(crate::proofs::Spelling::fields_of_width), unfolding(crate::specs::Times::time_text_of))]
pub fn time_text(second: u64) -> [u8; 19]
    requires { second ≤ last_spelled }
    ensures { result ≡ time_text_of second }
{
    spelled(fields_of(second))
}

/// Writes the fields in full width.
fn spelled(fields: TimeFields) -> [u8; 19]
    requires { HasWidth fields }
    ensures { result ≡ spelled fields }
{
    let century = (fields.year / 100) as u8;
    let year = (fields.year % 100) as u8;
    [
        digit(century / 10),
        digit(century % 10),
        digit(year / 10),
        digit(year % 10),
        b'/',
        digit(fields.month / 10),
        digit(fields.month % 10),
        b'/',
        digit(fields.day / 10),
        digit(fields.day % 10),
        b'-',
        digit(fields.hour / 10),
        digit(fields.hour % 10),
        b':',
        digit(fields.minute / 10),
        digit(fields.minute % 10),
        b':',
        digit(fields.second / 10),
        digit(fields.second % 10),
    ]
}
