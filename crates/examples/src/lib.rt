// Document 01's examples stand in specs/Examples.antt. The function here carries the theorem that they hold.

#![tactic(auto)]

ghost use Rattle.examples.specs.Examples.{WorkedExamples};

// E1 to E13, of the definitions that the code is proved against.
#[tactic(auto, using(crate::proofs::Examples::worked_examples))]
pub fn worked_examples()
    ensures { WorkedExamples }
{}
