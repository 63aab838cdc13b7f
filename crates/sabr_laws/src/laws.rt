//! Laws of the definitions, each the contract of a function that does nothing.

ghost use Rattle.sabr_laws.specs.Fewer.{FewerContactsTakeTheirRoutes, LostContactsTakeTheirRoutes, LimitsLeaveRoutesOut};
ghost use Rattle.sabr_laws.specs.CutTexts.{CutTextsAreRefused, NoTextBeginsAnother};
ghost use Rattle.sabr_laws.specs.OneText.{CanonicalTextsTellPlans};

/// States that the listing of a plan with some of its contacts is the routes over these alone, in the same order. They
/// deliver as they did, so a plan never delivers sooner with fewer contacts.
#[tactic(auto, using(crate::proofs::FewerContacts::fewer_contacts_take_their_routes))]
pub fn fewer_contacts_take_their_routes()
    ensures { FewerContactsTakeTheirRoutes }
{}

/// States that the listing of a plan without a contact is the listing without the routes that have the contact. The
/// others deliver as they did.
pub fn lost_contacts_take_their_routes()
    ensures { LostContactsTakeTheirRoutes }
{}

/// States that the listing under a lower limit on hops, or with more avoided nodes, is the listing without the routes
/// that have more hops or go over one of the nodes. The others deliver as they did, so a request never delivers sooner
/// with limits.
#[tactic(auto, using(crate::proofs::Limited::limits_leave_routes_out))]
pub fn limits_leave_routes_out()
    ensures { LimitsLeaveRoutesOut }
{}

/// States that plans with one canonical text have the same contacts, with their numbers, and the same ranges. So they
/// have the same listings, with the same records.
#[tactic(auto, using(crate::proofs::OneText::canonical_texts_tell_plans))]
pub fn canonical_texts_tell_plans()
    ensures { CanonicalTextsTellPlans }
{}

/// States that a text that spells a session over a plan spells none if bytes are left out at its end.
#[tactic(auto, using(crate::proofs::CutTexts::no_text_begins_another))]
pub fn no_text_begins_another()
    ensures { NoTextBeginsAnother }
{}

/// States that no proper beginning of the text of an accepted request and a well-formed state spells a session over its
/// plan, in either version. So a session that was written in part is refused.
#[tactic(auto, using(crate::proofs::CutTexts::cut_texts_are_refused))]
pub fn cut_texts_are_refused()
    ensures { CutTextsAreRefused }
{}
