//! Times as text, of which most have the day of the last one.

ghost use Rattle.std.specs.Prelude.{◌≡◌, ◌+◌, ◌%◌, ◌<◌, ◌≤◌};
ghost use Rattle.sabr_plan.specs.Times.{last_spelled, time_text_of};

use crate::time::{DAY_SECONDS, digit, time_text};

/// The text of the first second of a day. A writer of times keeps it, since most times that come one after another have
/// one day.
#[derive(Clone, Copy)]
pub struct DayText {
    /// The first second of the day.
    begin: u64,
    /// Its text.
    text: [u8; 19],
    ghost whole: { begin % 86400 ≡ 0 },
    ghost spelled: { text ≡ time_text_of begin },
}

impl DayText {
    /// Returns the text of 1970/01/01.
    #[tactic(auto, unfolding(crate::specs::Times::time_text_of, crate::specs::Times::fields_of, crate::specs::Times::day_after_epoch))]
    pub fn new() -> DayText {
        DayText {
            begin: 0,
            text: *b"1970/01/01-00:00:00",
        }
    }

    /// Returns the 19 bytes `yyyy/mm/dd-hh:mm:ss` of a second since 1970-01-01T00:00:00Z, as [`time_text`] does, and
    /// keeps the text of its day. The second is at most 253402300799, the last of the year 9999. It is O(1), and quicker
    /// for a second of the day that was kept.
    pub fn time_text(&mut self, second: u64) -> [u8; 19]
        requires { second ≤ last_spelled }
        ensures { result ≡ time_text_of second }
    {
        if second < self.begin || second - self.begin >= DAY_SECONDS {
            let begin = second - second % DAY_SECONDS;
            *self = DayText {
                begin,
                text: time_text(begin),
            };
        }
        self.at_clock((second - self.begin) as u32)
    }

    /// Returns the text of the second of the day that is this many seconds after its first.
    #[tactic(auto, unfolding(crate::specs::Times::time_text_of, crate::specs::Times::fields_of))]
    fn at_clock(&self, clock: u32) -> [u8; 19]
        requires { clock < 86400 }
        ensures { result ≡ time_text_of (self.now.begin + clock) }
    {
        let hour = (clock / 3600) as u8;
        let minute = (clock % 3600 / 60) as u8;
        let second = (clock % 60) as u8;
        let mut text = self.text;
        text[11] = digit(hour / 10);
        text[12] = digit(hour % 10);
        text[14] = digit(minute / 10);
        text[15] = digit(minute % 10);
        text[17] = digit(second / 10);
        text[18] = digit(second % 10);
        text
    }
}
