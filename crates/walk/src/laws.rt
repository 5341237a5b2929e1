// The laws above the rule of step.
ghost use Rattle.walk.specs.Fewest.{FewestStands};
ghost use Rattle.walk.specs.Theorem.{LawfulWalkStands, WalkStands};

/// The walk theorem: a walk that keeps a turn of every last exit for last is a run with exactly the claimed turns, and so is that of the rule.
pub fn walk_stands()
    ensures lawful { LawfulWalkStands }
    ensures rule { WalkStands }
{}

/// The theorem that the distance, the last exit and the rule, as they are computed, are what paths and lowest numbers say.
pub fn fewest_stands()
    ensures { FewestStands }
{}
