// The worked examples of document 01. The function does nothing: its contract is the theorem.
#![tactic(auto)]

ghost use Rattle.examples.specs.Examples.{Answered, table};

pub fn examples_hold()
    ensures { Answered table }
{}
