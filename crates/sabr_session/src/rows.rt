//! Worked session texts of plan A, as equations of the definitions.

ghost use Rattle.std.specs.Prelude.{◌≡◌};
ghost use Rattle.sabr_model.specs.Rows.{from_1_to_3};
ghost use Rattle.sabr_frontier.specs.listing.Rows.{start_of_a, a_after_1, a_after_2, a_after_3};
ghost use Rattle.sabr_session.specs.SessionText.{text_of, old_text_of};
ghost use Rattle.sabr_session.specs.SessionRows.{digest_of_a, start_text_of_a, text_of_a_after_1, text_of_a_after_2, text_of_a_after_3, old_text_of_a_after_2};

/// Shows the texts of plan A before any route and after one, two and three, and that in version 1 after two.
pub fn texts_of_plan_a()
    ensures start { text_of digest_of_a from_1_to_3 start_of_a ≡ start_text_of_a }
    ensures one { text_of digest_of_a from_1_to_3 a_after_1 ≡ text_of_a_after_1 }
    ensures two { text_of digest_of_a from_1_to_3 a_after_2 ≡ text_of_a_after_2 }
    ensures three { text_of digest_of_a from_1_to_3 a_after_3 ≡ text_of_a_after_3 }
    ensures old { old_text_of digest_of_a from_1_to_3 a_after_2 ≡ old_text_of_a_after_2 }
{}
