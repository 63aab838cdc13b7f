//! The law of cached answers, as the contract of a function that does nothing.

ghost use Rattle.sabr_search.specs.answers.Answers.{AnswersStay};

/// States when the answer to one question is also the answer to a later one. The later one forbids more nodes, starts
/// no earlier and leaves no more hops; the answer may still be taken and delivers at the same second. If the first
/// question has no answer, neither has the later one; if each of its ways is above a bound, so is each of the later
/// one.
#[tactic(auto, using(crate::proofs::AnswerLemmas::BoundedWays::answers_stay))]
pub fn answers_stay()
    ensures { AnswersStay }
{}
