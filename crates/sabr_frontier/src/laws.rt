//! Laws of the frontier, each the contract of a function that does nothing.

ghost use Rattle.sabr_frontier.specs.listing.Laws.{PartsDivide, StatesAreTold, StepsFollow};
ghost use Rattle.sabr_frontier.specs.listing.Fresh.{PagesGiveNewRoutes};

/// States that every route was given or is in exactly one part of the tree of those given, never both.
pub fn law4()
    ensures { PartsDivide }
{}

/// States that a well-formed state has the parts of its leaves. If each part carries its best route, and the leaves
/// come before all that is carried, it is the state of the place that it counts.
pub fn law5()
    ensures { StatesAreTold }
{}

/// States that, from each place of the list, steps give the next routes and lead to the place after them.
#[tactic(auto, using(crate::proofs::ListingLemmas::Lawful::steps_follow))]
pub fn law6()
    ensures { StepsFollow }
{}

/// States that, from every well-formed state, pages give only new routes, even if the state is of no place of the list.
/// None is one that the state counts as given, and none comes twice among the pages that weren't taken back.
pub fn pages_give_new_routes()
    ensures { PagesGiveNewRoutes }
{}
