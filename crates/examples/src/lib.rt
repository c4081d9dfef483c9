// The worked examples: as theorems that compute, and as tests that run.
#![tactic(auto)]

ghost use Rattle.examples.specs.Examples.{WorkedExamples};

#[cfg(test)]
mod tests;

// States the worked examples of the definitions.
pub fn worked_examples()
    ensures { WorkedExamples }
{}
