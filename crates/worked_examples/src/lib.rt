#![tactic(auto)]

ghost use Rattle.worked_examples.specs.Examples.{TheWorkedExamplesHold};

// The definitions, by which the part's calls are held, give the examples that docs/RULES.md has.
pub fn the_worked_examples_hold()
    ensures { TheWorkedExamplesHold }
{}
