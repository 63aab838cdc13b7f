//! A law of plan texts, the contract of a function that does nothing.

ghost use Rattle.sabr_plan.specs.Reading.{SpelledPlansObey};

/// States that the plan of a text obeys the rules of plans.
pub fn spelled_plans_obey()
    ensures { SpelledPlansObey }
{}
