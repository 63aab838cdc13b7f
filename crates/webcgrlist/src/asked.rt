//! What a call is asked.

ghost use Rattle.std.specs.Prelude.{◌≡◌};
ghost use Rattle.std.specs.Option.{option_copied};
ghost use Rattle.commands.specs.words.Values.{values_given};
ghost use Rattle.webcgrlist.specs.Asked.{text_given, values_asked};

use commands::{RequestTexts, ValueTexts};

/// What a call is asked: texts, spelled as the words and the files of the program's command. An empty text is one that
/// isn't given.
#[repr(C)]
#[derive(Clone, Copy)]
pub struct Asked<'a> {
    /// The plan.
    pub plan: &'a [u8],
    /// The session from which `next` goes on, or that `verify` judges.
    pub session: &'a [u8],
    /// The requests that `many` answers.
    pub requests: &'a [u8],
    /// The lists that `follow` explains.
    pub lists: &'a [u8],
    /// The source.
    pub from: &'a [u8],
    /// The destination.
    pub to: &'a [u8],
    /// The time at which the bundle is at the source.
    pub at: &'a [u8],
    /// The margin on light times.
    pub margin_ppm: &'a [u8],
    /// The limit on hops.
    pub max_hops: &'a [u8],
    /// The nodes to avoid.
    pub avoid: &'a [u8],
    /// The number of routes, from 1 to 10000.
    pub count: &'a [u8],
    /// The contacts that `explain` explains.
    pub contacts: &'a [u8],
    /// Whether `first` and `next` write the session after their page.
    pub keep: bool,
}

/// A text, unless it is empty.
fn text_given(text: &[u8]) -> Option<&[u8]>
    ensures { option_copied result ≡ text_given text.now }
{
    if text.is_empty() { None } else { Some(text) }
}

impl<'a> Asked<'a> {
    /// The texts of its values.
    pub fn values(&self) -> ValueTexts<'a>
        ensures { values_given result ≡ values_asked self.now }
    {
        ValueTexts {
            request: RequestTexts {
                from: text_given(self.from),
                to: text_given(self.to),
                at: text_given(self.at),
                margin_ppm: text_given(self.margin_ppm),
                max_hops: text_given(self.max_hops),
                avoid: text_given(self.avoid),
            },
            count: text_given(self.count),
            contacts: text_given(self.contacts),
        }
    }
}
