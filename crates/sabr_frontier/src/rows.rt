//! Worked states and steps of plans A and C, as equations of the definitions.
#![tactic(auto, unfolding(crate::specs::listing::Listing::state_at, crate::specs::listing::Listing::steps, sabr_model::specs::routes::Listing::routes, sabr_model::specs::routes::Listing::candidates, sabr_model::specs::routes::Listing::lists_of_length, sabr_model::specs::routes::Route::is_route, sabr_model::specs::routes::Route::is_path, sabr_model::specs::routes::Parts::least_in))]

ghost use Rattle.std.specs.Prelude.{◌≡◌, [], ◌∷◌, ◌+◌};
ghost use Rattle.sabr_model.specs.Rows.{plan_a, plan_c, from_1_to_3};
ghost use Rattle.sabr_frontier.specs.listing.Listing.{state_at, steps};
ghost use Rattle.sabr_frontier.specs.listing.Rows.{start_of_a, a_after_1, a_after_2, a_after_3, c_after_3, c_after_5};

/// States what the states of plan A are before any route and after one, two and three.
pub fn states_of_plan_a()
    ensures start { state_at plan_a from_1_to_3 0 ≡ start_of_a }
    ensures one { state_at plan_a from_1_to_3 1 ≡ a_after_1 }
    ensures two { state_at plan_a from_1_to_3 2 ≡ a_after_2 }
    ensures three { state_at plan_a from_1_to_3 3 ≡ a_after_3 }
{}

/// States what the states of plan C are after three routes and after all five.
pub fn states_of_plan_c()
    ensures three { state_at plan_c from_1_to_3 3 ≡ c_after_3 }
    ensures five { state_at plan_c from_1_to_3 5 ≡ c_after_5 }
{}

/// States the steps over plan A: the first two, and five from there, of which one is left.
pub fn steps_of_plan_a()
    ensures two { steps plan_a from_1_to_3 2 start_of_a ≡ ((1 ∷ 4 ∷ []) ∷ (1 ∷ 2 ∷ []) ∷ [], a_after_2) }
    ensures rest { steps plan_a from_1_to_3 5 a_after_2 ≡ ((3 ∷ []) ∷ [], a_after_3) }
{}
