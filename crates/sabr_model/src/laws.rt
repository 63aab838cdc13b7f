//! Laws of the definitions, each the contract of a function that does nothing.

ghost use Rattle.sabr_model.specs.Laws.{ArrivalIsMonotone, NoRouteBeginsAnother, RoutesAreListed, CandidatesAreListed, FaultsTellRoutes, EveryWayIsListed};

/// States that a bundle that is at the sender earlier also arrives, and no later than another.
pub fn law1()
    ensures { ArrivalIsMonotone }
{}

/// States that no route is a prefix of another.
#[tactic(auto, using(crate::proofs::ListLemmas::Begins::no_route_begins_another))]
pub fn law2()
    ensures { NoRouteBeginsAnother }
{}

/// States that the list of all routes holds exactly the routes, each once, and that their keys are strictly ascending.
pub fn law3()
    ensures { RoutesAreListed }
{}

/// States that the candidates for routes over the numbers 1 to n are the lists of different numbers among them, each
/// once.
pub fn candidates_hold_each_once()
    ensures { CandidatesAreListed }
{}

/// States that a list of contacts has no fault if and only if it is a route.
#[tactic(auto, using(crate::proofs::RouteLemmas::Faults::faults_tell_routes))]
pub fn faults_tell_routes()
    ensures { FaultsTellRoutes }
{}

/// States that no route is missing from the list of all routes. A bundle may travel in any way within the limits, and
/// wait at each node as long as it likes. If it visits no node twice, its contacts are a listed route, and the listed
/// delivery is no later. Conversely, each listed route is that of such a journey. No bundle arrives before the first
/// route delivers, even if it visits a node twice, or is at the source later.
#[tactic(auto, using(crate::proofs::RouteLemmas::EveryWay::every_way_is_listed))]
pub fn every_way_is_listed()
    ensures { EveryWayIsListed }
{}
