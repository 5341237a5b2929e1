// The worked cases as one theorem.
ghost use Rattle.trials.specs.Worked.{WorkedCasesStand};

/// The theorem that the worked cases are answered as the rules say, each from a fresh case through the calls' own definitions.
pub fn worked_cases_stand()
    ensures { WorkedCasesStand }
{}
