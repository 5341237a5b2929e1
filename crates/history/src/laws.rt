// The teeth of the rules.
ghost use Rattle.history.specs.Refuting.{HollowAnswersRefuted};

/// The theorem that the rules refute what hollow programs answer: a certified stage with no claim, a price that is made up or cheaper
/// than some run, a step that refuses, repeats itself or is done too early, made-up counts, and a void case with a run.
pub fn hollow_answers_refuted()
    ensures { HollowAnswersRefuted }
{}
