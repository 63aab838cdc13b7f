//! Laws of session texts, and of a session's place in the list of its request: each is the contract of a function that
//! does nothing.

ghost use Rattle.sabr_session.specs.SessionPlaces.{PagesStand, TextsArePlaced};
ghost use Rattle.sabr_session.specs.TextLaws.{HasOneAnswer, PiecesAreOneText, TextsTellSessions};

/// States that after any pages, refusals and steps back a session is that of the pages that weren't taken back, in the
/// order in which they were given. So are the states that it can go back to. If it began at a place of the list, it
/// stands at the place after their routes. From there its next page has the next routes, says whether more follow, and
/// leads to the place after them.
#[tactic(auto, using(crate::proofs::SessionPlaces::pages_stand))]
pub fn pages_stand()
    ensures { PagesStand }
{}

/// States that the session of a text that [`verify`](crate::verify) accepts stands at the text's place.
#[tactic(auto, using(crate::proofs::SessionPlaces::texts_are_placed))]
pub fn texts_are_placed()
    ensures { TextsArePlaced }
{}

/// States that the text of an accepted request and a well-formed state is read back to exactly these, in both versions.
/// Different requests or states have different texts.
pub fn law7()
    ensures { TextsTellSessions }
{}

/// States that bytes have one meaning: a request and a state, or one fault.
#[tactic(auto, using(crate::proofs::TextLemmas::TextsRead::answers_once))]
pub fn one_answer()
    ensures { HasOneAnswer }
{}

/// States that the chunks fed to a [`SessionFeed`](crate::SessionFeed) are one text. The result for a chunk is that of
/// a reader that fails after all bytes so far. The result at the end is that of all bytes.
#[tactic(auto, using(crate::proofs::TextLemmas::TextsRead::pieces_joined))]
pub fn pieces_are_one_text()
    ensures { PiecesAreOneText }
{}
