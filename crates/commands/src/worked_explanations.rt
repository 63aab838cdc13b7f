//! Worked explanations as theorems: the explanations of small lists, computed by the definitions.

ghost use Rattle.std.specs.Prelude.{◌≡◌, [], ◌∷◌, ◌++◌, codes};
ghost use Rattle.sabr_model.specs.Rows.{plan_a, plan_a_darker, plan_ending, from_1_to_3, within_hops, avoiding};
ghost use Rattle.commands.specs.texts.PlanTexts.{refused_at, explanation_text};
ghost use Rattle.commands.specs.texts.ExplanationRows.{first_hop, second_hop, route_of_both};

/// Shows the explanation of a route over plan A, and of lists with one fault each.
#[tactic(auto, unfolding(crate::specs::texts::PlanTexts::explanation_text))]
pub fn explanations_of_plan_a()
    ensures route { explanation_text plan_a from_1_to_3 (1 ∷ 2 ∷ []) ≡ first_hop ++ (second_hop ++ route_of_both) }
    ensures empty { explanation_text plan_a from_1_to_3 [] ≡ codes "refused: Empty\n" }
    ensures not_chained { explanation_text plan_a from_1_to_3 (2 ∷ []) ≡ refused_at 1 (codes "NotChained") }
    ensures no_such_contact { explanation_text plan_a from_1_to_3 (1 ∷ 9 ∷ []) ≡ first_hop ++ refused_at 2 (codes "NoSuchContact") }
    ensures wrong_end { explanation_text plan_a from_1_to_3 (1 ∷ []) ≡ first_hop ++ codes "refused: WrongEnd\n" }
    ensures no_light { explanation_text plan_a_darker from_1_to_3 (1 ∷ 4 ∷ []) ≡ refused_at 1 (codes "NoLight") }
    ensures too_late { explanation_text (plan_ending 10) from_1_to_3 (1 ∷ 2 ∷ []) ≡ first_hop ++ refused_at 2 (codes "TooLate") }
    ensures avoided { explanation_text plan_a (avoiding (2 ∷ [])) (1 ∷ 2 ∷ []) ≡ refused_at 1 (codes "AvoidedNode") }
    ensures too_many { explanation_text plan_a (within_hops 1) (1 ∷ 2 ∷ []) ≡ first_hop ++ refused_at 2 (codes "TooManyHops") }
{}
