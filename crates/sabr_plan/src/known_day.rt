//! A cache of one day: that of the last absolute start or end. If the next one has the same date, only its time of day
//! is read.

ghost use Rattle.std.specs.Prelude.{◌≡◌, ◌<◌, ◌≤◌, ◌∷◌, [], ◌++◌, IfSome, drop, length};
ghost use lib.Lanes.{digits_l};
ghost use Rattle.sabr_model.specs.plan.Plan.{last_time};
ghost use Rattle.sabr_plan.specs.Times.{time_text_of};
ghost use Rattle.sabr_plan.specs.Times.{IsDate};

use crate::eight_digits::{first_eight, mark_from_ten};
use crate::time::{DAY_SECONDS, parse_time};

/// The bytes `1970/01/` as one number, of which the first byte is the lowest.
const FIRST_MONTH: u64 = 0x2f31_302f_3037_3931;

/// The bytes `00:00:00` as one number, of which the first byte is the lowest.
const MIDNIGHT: u64 = 0x3030_3a30_303a_3030;

/// Those bits of such a number that stand for `:`.
const COLONS: u64 = 0x0000_ff00_00ff_0000;

/// A day: the bytes `yyyy/mm/dd`, and its first second.
#[derive(Clone, Copy)]
pub struct KnownDay {
    /// The bytes `yyyy/mm/` as one number, of which the first byte is the lowest.
    month: u64,
    /// The first byte of `dd`.
    tens: u8,
    /// The second byte.
    units: u8,
    begin: u64,
    ghost known: { IsDate (digits_l 256 8 month ++ tens ∷ units ∷ []) begin },
}

/// Returns the second of the day of the text after a date, `-hh:mm:ss`.
#[inline(always)]
fn clock_of(text: &[u8]) -> Option<u64>
    requires { length text.now ≡ 9 }
    ensures { IfSome result (λ s. (text.now ≡ drop 10 (time_text_of s)) × (s < 86400)) }
{
    // What each byte is above that of midnight: a digit's value, and 0 for `:`.
    let lanes = first_eight(&text[1..]).wrapping_sub(MIDNIGHT);
    if text[0] != b'-' || lanes & COLONS != 0 || mark_from_ten(lanes) != 0 {
        return None;
    }
    let pairs = lanes.wrapping_mul(10).wrapping_add(lanes >> 8);
    let hour = pairs % 256;
    let minute = (pairs >> 24) % 256;
    let second = (pairs >> 48) % 256;
    if hour > 23 || minute > 59 || second > 59 {
        return None;
    }
    Some(hour * 3600 + minute * 60 + second)
}

impl KnownDay {
    /// Returns the cache of the first day that a time may have.
    #[tactic(auto, unfolding(crate::specs::Times::time_text_of, crate::specs::Times::fields_of, crate::specs::Times::day_after_epoch))]
    pub fn new() -> KnownDay {
        KnownDay {
            month: FIRST_MONTH,
            tens: b'0',
            units: b'1',
            begin: 0,
        }
    }

    /// Returns the second of a text of 19 bytes. `None` means: use the general reader.
    #[inline(always)]
    pub fn second_of(&mut self, text: &[u8]) -> Option<u64>
        requires { length text.now ≡ 19 }
        ensures { IfSome result (λ t. (text.now ≡ time_text_of t) × (t ≤ last_time)) }
    {
        let month = first_eight(text);
        if month != self.month || text[8] != self.tens || text[9] != self.units {
            return self.meet(text);
        }
        let (_, clock) = text.split_at(10);
        let second = clock_of(clock)?;
        Some(self.begin + second)
    }

    /// Returns the second of a text with another date, and caches that date.
    #[cold]
    #[inline(never)]
    fn meet(&mut self, text: &[u8]) -> Option<u64>
        requires { length text.now ≡ 19 }
        ensures { IfSome result (λ t. (text.now ≡ time_text_of t) × (t ≤ last_time)) }
    {
        let time = parse_time(text)?;
        *self = KnownDay {
            month: first_eight(text),
            tens: text[8],
            units: text[9],
            begin: time - time % DAY_SECONDS,
        };
        Some(time)
    }
}
